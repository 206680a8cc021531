// A search text as a list of pieces, each with its place.
ghost use Rattle.std.specs.Prelude.{◌≡◌, ◌++◌, ◌∷◌, false, IfOk};
ghost use Rattle.ak_search.specs.Tokens.{placed, tokens_from};

use crate::Term;
use crate::lexemes::{Lexeme, is_negated_by, next_lexeme};
use crate::source_chars::SourceChar;
use ak_base::Memory;
use std::alloc::Global;

/// A piece of a search, in the order in which it is written.
#[derive(Debug, Drop)]
pub enum Piece {
    /// A term, and whether it is negated.
    Test(bool, Term),
    /// A term whose value can't be read.
    BadValue,
    /// A group begins, and whether it is negated.
    Open(bool),
    Close,
    Or,
    And,
    /// The rest of the text is a term whose quote stays open.
    OpenQuote,
}

/// A piece, and the byte place at which it stands: behind any `-`, and that of its quote, where it stays open.
#[derive(Debug, Drop)]
pub(crate) struct Token {
    pub(crate) place: u64,
    pub(crate) piece: Piece,
}

/// The tokens of a search text.
pub(crate) fn tokens_of(alloc: Global, source_chars: &[SourceChar]) -> Result<Vec<Token>, Memory>
    ensures { IfOk result (λ tokens. tokens.items ≡ tokens_from 0 false false source_chars.now) }
{
    let mut tokens = Vec::new(alloc);
    let mut minus = false;
    let mut negated = false;
    let mut rest = source_chars;
    while let Some((first, others)) = rest.split_first() {
        if first.letter == ' ' {
            rest = others;
        } else if is_negated_by(first, others) {
            minus = true;
            negated = !negated;
            rest = others;
        } else {
            let lexeme = next_lexeme(alloc, minus, negated, rest, first, others)?;
            let taken = lexeme.size.saturating_sub(1);
            tokens.push(placed(lexeme))?;
            minus = false;
            negated = false;
            rest = &others[taken..];
        }
    }
    Ok(tokens)
}

/// The token that a lexeme is.
fn placed(lexeme: Lexeme) -> Token
    ensures { result ≡ placed lexeme }
{
    Token {
        place: lexeme.place,
        piece: lexeme.piece,
    }
}
