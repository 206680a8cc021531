// The characters of a search text, each with its place and whether a backslash takes it literally.
ghost use Rattle.std.specs.Prelude.{◌≡◌, ◌≤◌, ◌<◌, ◌+◌, ◌∷◌, ◌++◌, [], ◌^◌, None, true, false, length, IfOk, OnOk, string_bytes};
ghost use Rattle.std.specs.Char.{len_utf8};
ghost use Rattle.std.specs.Str.{chars};
ghost use Rattle.std.proofs.Math.Utf8.{encodes};
ghost use Rattle.ak_search.specs.SourceChars.{is_escapable, source_char, next_source_chars, next_slash, last_source_chars, source_chars_from, source_chars, text_of, lowered, is_bare, until};

use ak_base::Memory;
use std::alloc::Global;

/// A character of a search text.
#[derive(Clone, Copy, Debug, PartialEq, Eq)]
pub(crate) struct SourceChar {
    /// The byte at which it begins, with the backslash before it.
    pub(crate) place: u64,
    /// Whether a backslash takes it literally.
    pub(crate) literal: bool,
    pub(crate) letter: char,
}

impl SourceChar {
    /// Whether it is that character, not taken literally.
    pub(crate) fn is_bare(&self, letter: char) -> bool
        ensures { result ≡ is_bare letter self.now }
    {
        !self.literal && self.letter == letter
    }
}

/// The characters of a search text. A backslash is none of them where it takes another literally.
pub(crate) fn source_chars_of(alloc: Global, text: &str) -> Result<Vec<SourceChar>, Memory>
    ensures { IfOk result (λ made. made.items ≡ source_chars text.now) }
{
    let letters = letters_of(alloc, text)?;
    read_source_chars(alloc, &letters)
}

/// The characters of a text.
pub(crate) fn letters_of(alloc: Global, text: &str) -> Result<Vec<char>, Memory>
    ensures { IfOk result (λ letters. letters.items ≡ chars text.now) }
{
    // No text has more characters than bytes.
    let mut letters = Vec::with_capacity(alloc, text.len())?;
    for letter in text.chars() {
        letters.push(letter)?;
    }
    Ok(letters)
}

/// The characters with their places, from the front.
fn read_source_chars(alloc: Global, letters: &[char]) -> Result<Vec<SourceChar>, Memory>
    requires { length (encodes letters.now) < 2 ^ 64 }
    ensures { IfOk result (λ made. made.items ≡ source_chars_from None 0 letters.now) }
{
    let mut source_chars = Vec::new(alloc);
    let mut slash = None;
    let mut place = 0u64;
    for letter in letters {
        push_next(&mut source_chars, slash, place, *letter)?;
        slash = next_slash(slash, place, *letter);
        place += letter.len_utf8() as u64;
    }
    push_last(&mut source_chars, slash)?;
    Ok(source_chars)
}

/// Adds one more character, after a backslash at a place, if any.
fn push_next(
    source_chars: &mut Vec<SourceChar>,
    slash: Option<u64>,
    place: u64,
    letter: char,
) -> Result<(), Memory>
    ensures { OnOk result (source_chars.new.items ≡ source_chars.old.items ++ next_source_chars slash place letter) }
{
    match slash {
        None => {
            if letter == '\\' {
                return Ok(());
            }
            push_source_char(source_chars, false, place, letter)
        }
        Some(slash) => {
            if is_escapable(letter) {
                return push_source_char(source_chars, true, slash, letter);
            }
            push_source_char(source_chars, false, slash, '\\')?;
            push_source_char(source_chars, false, place, letter)
        }
    }
}

/// Adds a character.
fn push_source_char(
    source_chars: &mut Vec<SourceChar>,
    literal: bool,
    place: u64,
    letter: char,
) -> Result<(), Memory>
    ensures { OnOk result (source_chars.new.items ≡ source_chars.old.items ++ (source_char literal place letter ∷ [])) }
{
    source_chars.push(SourceChar {
        place,
        literal,
        letter,
    })?;
    Ok(())
}

/// Whether a backslash takes the character literally.
fn is_escapable(letter: char) -> bool
    ensures { result ≡ is_escapable letter }
{
    matches!(letter, '"' | '*' | '_' | ':' | '\\')
}

/// The place of the backslash that the next character comes after.
fn next_slash(slash: Option<u64>, place: u64, letter: char) -> Option<u64>
    ensures { result ≡ next_slash slash place letter }
{
    match slash {
        None => { if letter == '\\' { Some(place) } else { None } }
        Some(_) => None,
    }
}

/// Adds the backslash that ends a text, if one does.
fn push_last(source_chars: &mut Vec<SourceChar>, slash: Option<u64>) -> Result<(), Memory>
    ensures { OnOk result (source_chars.new.items ≡ source_chars.old.items ++ last_source_chars slash) }
{
    match slash {
        None => Ok(()),
        Some(slash) => push_source_char(source_chars, false, slash, '\\'),
    }
}

/// The text of the characters in lower case, to compare it with known words.
pub(crate) fn lowered(alloc: Global, source_chars: &[SourceChar]) -> Result<String, Memory>
    ensures { IfOk result (λ made. string_bytes made ≡ lowered source_chars.now) }
{
    let text = text_of(alloc, source_chars)?;
    let made = text.to_ascii_lowercase(alloc)?;
    Ok(made)
}

/// The text of the characters.
pub(crate) fn text_of(alloc: Global, source_chars: &[SourceChar]) -> Result<String, Memory>
    ensures { IfOk result (λ made. string_bytes made ≡ text_of source_chars.now) }
{
    let mut made = String::new(alloc);
    for source_char in source_chars {
        made.push(source_char.letter)?;
    }
    Ok(made)
}

/// How many characters stand before the first that is that bare character: all, where none is.
pub(crate) fn until(source_chars: &[SourceChar], letter: char) -> usize
    ensures until { result ≡ until letter source_chars.now }
    ensures within { result ≤ length source_chars.now }
{
    let mut size = 0;
    for source_char in source_chars {
        if source_char.is_bare(letter) {
            return size;
        }
        size += 1;
    }
    size
}
