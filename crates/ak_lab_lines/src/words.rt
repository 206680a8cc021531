// The words and numbers of a line, with one space between.
ghost use Rattle.std.specs.Prelude.{◌≡◌, Some, None};
ghost use Rattle.std.specs.Char.{is_ascii_alphanumeric};
ghost use Rattle.std.specs.List.{list_all};
ghost use Rattle.std.specs.Option.{option_map};
ghost use Rattle.ak_base.specs.Decimals.{number_of};
ghost use Rattle.ak_lab_lines.specs.LabLines.{word_of, another_word, next_word, is_device_name, negated, signed_number};

use ak_base::{LAST_I64, cut, read_number};
use ak_desk_language::number_in;

/// The text, if it is one word.
pub(crate) fn word_of(text: &str) -> Option<&str>
    ensures { option_map (λ word. word.now) result ≡ word_of text.now }
{
    if text.is_empty() || cut(text, " ").is_some() {
        return None;
    }
    Some(text)
}

/// The text, if it is one word and not the first one.
pub(crate) fn another_word<'a>(first: &str, text: &'a str) -> Option<&'a str>
    ensures { option_map (λ word. word.now) result ≡ another_word first.now text.now }
{
    if text == first {
        return None;
    }
    word_of(text)
}

/// The word before the first space, and what follows that space.
pub(crate) fn next_word(text: &str) -> Option<(&str, &str)>
    ensures { option_map (λ p. (p.0.now, p.1.now)) result ≡ next_word text.now }
{
    let (word, rest) = cut(text, " ")?;
    if word.is_empty() {
        return None;
    }
    Some((word, rest))
}

/// Whether a new device may have the name.
pub(crate) fn is_device_name(name: &str) -> bool
    ensures { result ≡ is_device_name name.now }
{
    let bytes = name.as_bytes();
    !bytes.is_empty() && bytes.len() <= 16 && are_alphanumeric(bytes) && name != "server"
}

/// Whether each byte is an ASCII letter or digit.
fn are_alphanumeric(bytes: &[u8]) -> bool
    ensures { result ≡ list_all is_ascii_alphanumeric bytes.now }
{
    bytes.iter().all(|byte| byte.is_ascii_alphanumeric())
}

/// A number that may have a `-`.
pub(crate) fn signed_number(text: &str) -> Option<i64>
    ensures { result ≡ signed_number text.now }
{
    match text.strip_prefix("-") {
        Some(digits) => negative_number(digits),
        None => number_in(0, LAST_I64, text),
    }
}

/// The number whose digits follow a `-`.
fn negative_number(digits: &str) -> Option<i64>
    ensures { result ≡ option_map negated (number_of 9_223_372_036_854_775_808 digits.now) }
{
    let number = read_number(digits, 9_223_372_036_854_775_808)?;
    Some((0 - number as i128) as i64)
}
