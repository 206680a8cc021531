// What stands at the front of a search text: a parenthesis, one of the two words, or a term.
ghost use Rattle.std.specs.Prelude.{◌≡◌, ◌≤◌, ◌+◌, ◌++◌, ◌∷◌, [], length, IfOk};
ghost use Rattle.ak_search.specs.Terms.{term_of};
ghost use Rattle.ak_search.specs.Tokens.{ends_word, word_size, quote_at, is_negated_by, piece_of, word_piece, quoted_lexeme, word_lexeme, next_lexeme};

use crate::Term;
use crate::readers::term_of;
use crate::source_chars::{SourceChar, lowered, until};
use crate::tokens::Piece;
use ak_base::Memory;
use std::alloc::Global;

/// What stands at the front of a text, where, and how many characters it takes.
#[derive(Debug, Drop)]
pub(crate) struct Lexeme {
    pub(crate) piece: Piece,
    pub(crate) place: u64,
    pub(crate) size: usize,
}

/// Whether a character is a `-` that negates what stands behind it.
pub(crate) fn is_negated_by(source_char: &SourceChar, others: &[SourceChar]) -> bool
    ensures { result ≡ is_negated_by source_char.now others.now }
{
    match others {
        [] => false,
        [other, ..] => source_char.letter == '-' && !(other.letter == ' ' || other.letter == ')'),
    }
}

/// What stands at the front of characters that begin with neither a space nor a `-` that negates.
pub(crate) fn next_lexeme(
    alloc: Global,
    minus: bool,
    negated: bool,
    source_chars: &[SourceChar],
    first: &SourceChar,
    others: &[SourceChar],
) -> Result<Lexeme, Memory>
    requires { source_chars.now ≡ first.now ∷ others.now }
    ensures lexeme { IfOk result (λ c. c ≡ next_lexeme minus negated first.now others.now) }
    ensures within { IfOk result (λ c. c.size ≤ length source_chars.now) }
{
    match first.letter {
        '(' => Ok(Lexeme {
            piece: Piece::Open(negated),
            place: first.place,
            size: 1,
        }),
        ')' => Ok(Lexeme {
            piece: Piece::Close,
            place: first.place,
            size: 1,
        }),
        _ => {
            if first.is_bare('"') {
                return quoted_lexeme(alloc, negated, &[], first.place, first.place, others);
            }
            word_lexeme(alloc, minus, negated, source_chars, first.place)
        }
    }
}

/// A term in quotes, with the characters before the quote. The term is at `place`, and its quote at `quote`.
fn quoted_lexeme(
    alloc: Global,
    negated: bool,
    before: &[SourceChar],
    place: u64,
    quote: u64,
    rest: &[SourceChar],
) -> Result<Lexeme, Memory>
    ensures lexeme { IfOk result (λ c. c ≡ quoted_lexeme negated before.now place quote rest.now) }
    ensures within { IfOk result (λ c. c.size ≤ length before.now + length rest.now + 1) }
{
    let end = until(rest, '"');
    if end < rest.len() {
        let term = quoted_term(alloc, before, &rest[..end])?;
        return Ok(Lexeme {
            piece: piece_of(negated, term),
            place,
            size: before.len() + end + 2,
        });
    }
    Ok(Lexeme {
        piece: Piece::OpenQuote,
        place: quote,
        size: before.len() + rest.len() + 1,
    })
}

/// The term of what stands before the quote and inside.
fn quoted_term(
    alloc: Global,
    before: &[SourceChar],
    inside: &[SourceChar],
) -> Result<Option<Term>, Memory>
    ensures { IfOk result (λ term. term ≡ term_of (before.now ++ inside.now)) }
{
    let mut source_chars = Vec::from_slice(alloc, before)?;
    source_chars.extend_from_slice(inside)?;
    term_of(alloc, &source_chars)
}

/// The piece of a term that was read or not.
fn piece_of(negated: bool, term: Option<Term>) -> Piece
    ensures { result ≡ piece_of negated term }
{
    match term {
        None => Piece::BadValue,
        Some(term) => Piece::Test(negated, term),
    }
}

/// A term without quotes, or one with a quote right after its colon, or one of the two words.
fn word_lexeme(
    alloc: Global,
    minus: bool,
    negated: bool,
    source_chars: &[SourceChar],
    place: u64,
) -> Result<Lexeme, Memory>
    ensures lexeme { IfOk result (λ c. c ≡ word_lexeme minus negated source_chars.now place) }
    ensures within { IfOk result (λ c. c.size ≤ length source_chars.now) }
{
    let size = word_size(source_chars);
    let word = &source_chars[..size];
    let colon = until(word, ':');
    if colon < word.len() {
        if let Some(quote) = quote_at(&word[colon + 1..]) {
            return quoted_lexeme(
                alloc,
                negated,
                &source_chars[..colon + 1],
                place,
                quote,
                &source_chars[colon + 2..],
            );
        }
    }
    let piece = word_piece(alloc, minus, negated, word)?;
    Ok(Lexeme { piece, place, size })
}

/// How many characters the word has: it ends before a space or parenthesis.
fn word_size(source_chars: &[SourceChar]) -> usize
    ensures size { result ≡ word_size source_chars.now }
    ensures within { result ≤ length source_chars.now }
{
    let mut size = 0;
    for source_char in source_chars {
        if ends_word(source_char) {
            return size;
        }
        size += 1;
    }
    size
}

/// Whether a word ends before the character.
fn ends_word(source_char: &SourceChar) -> bool
    ensures { result ≡ ends_word source_char.now }
{
    source_char.letter == ' ' || (source_char.letter == '(' || source_char.letter == ')')
}

/// The place of the first character, if it is a quote.
fn quote_at(source_chars: &[SourceChar]) -> Option<u64>
    ensures { result ≡ quote_at source_chars.now }
{
    match source_chars {
        [] => None,
        [source_char, ..] => {
            if source_char.is_bare('"') {
                Some(source_char.place)
            } else {
                None
            }
        }
    }
}

/// `or`, `and`, or the term that a word is. After a `-` it is a term.
fn word_piece(
    alloc: Global,
    minus: bool,
    negated: bool,
    word: &[SourceChar],
) -> Result<Piece, Memory>
    ensures { IfOk result (λ piece. piece ≡ word_piece minus negated word.now) }
{
    let text = lowered(alloc, word)?;
    if !minus && text.as_str() == "or" {
        return Ok(Piece::Or);
    }
    if !minus && text.as_str() == "and" {
        return Ok(Piece::And);
    }
    let term = term_of(alloc, word)?;
    Ok(piece_of(negated, term))
}
