ghost use Rattle.std.specs.Prelude.{◌≡◌, ◌++◌, ◌∷◌, ◌<◌, ◌≤◌, length, true, false, IfSome, IfNone, IfOk, string_bytes, codes};
ghost use Rattle.ak_filters.specs.Strips.{removed, spaced, stripped, is_plain, blank, empty_value};
ghost use Rattle.ak_filters.specs.Meanings.{Strip};

use crate::FieldFilter;
use ak_base::{Memory, Text, cut};
use std::alloc::{AllocError, Global};

/// The text without its pieces from `<` to the next `>`, and then with a space for each `&nbsp;`.
#[tactic(auto, using(crate::proofs::Stripped::plain_stripped, crate::proofs::Stripped::stripped_length))]
pub fn strip(alloc: Global, text: &str) -> Result<Text, Memory>
    ensures text { IfOk result (λ made. made ≡ stripped text.now) }

    // It is never longer than the text.
    ensures length { IfOk result (λ made. length made ≤ length text.now) }
{
    // Most texts are plain, and are copied at once.
    if is_plain(text) {
        return Text::of(alloc, text);
    }
    let kept = remove_pieces(alloc, text)?;
    let made = put_spaces(alloc, kept)?;
    Ok(Text::from(made))
}

/// Whether neither a `<` nor a `&` is in the text.
fn is_plain(text: &str) -> bool
    ensures { result ≡ is_plain text.now }
{
    let bytes = text.as_bytes();
    for byte in bytes {
        if matches!(*byte, b'<' | b'&') {
            return false;
        }
    }
    true
}

/// The text before its first piece, and the text after it. A `<` with no `>` after it begins no piece.
fn around_piece(text: &str) -> Option<(&str, &str)>
    ensures steps { IfSome result (λ parts. removed false text.now ≡ parts.0.now ++ removed false parts.1.now) }
    ensures shorter { IfSome result (λ parts. length parts.1.now < length text.now) }
    ensures none { IfNone result (removed false text.now ≡ text.now) }
{
    let (kept, piece) = cut(text, "<")?;
    let (_, others) = cut(piece, ">")?;
    Some((kept, others))
}

/// The text without its pieces.
fn remove_pieces(alloc: Global, text: &str) -> Result<String, Memory>
    ensures { IfOk result (λ made. string_bytes made ≡ removed false text.now) }
{
    let mut made = String::new(alloc);
    let mut rest = text;
    while let Some((kept, others)) = around_piece(rest) {
        made.push_str(kept)?;
        rest = others;
    }
    made.push_str(rest)?;
    Ok(made)
}

/// The text before the first `&nbsp;`, and the text after it.
fn around_space(text: &str) -> Option<(&str, &str)>
    ensures steps { IfSome result (λ parts. spaced 0 text.now ≡ parts.0.now ++ (32 ∷ spaced 0 parts.1.now)) }
    ensures shorter { IfSome result (λ parts. length parts.1.now < length text.now) }
    ensures none { IfNone result (spaced 0 text.now ≡ text.now) }
{
    match cut(text, "&nbsp;") {
        Some((kept, others)) => Some((kept, others)),
        None => None,
    }
}

/// The text with a space for each `&nbsp;`. Most texts have none, and stay as they are.
fn put_spaces(alloc: Global, text: String) -> Result<String, Memory>
    ensures { IfOk result (λ made. string_bytes made ≡ spaced 0 (string_bytes text)) }
{
    if has_space(&text) {
        return put_each_space(alloc, &text);
    }
    Ok(text)
}

/// Whether a `&nbsp;` is in the text.
fn has_space(text: &str) -> bool
    ensures { result ≡ false → spaced 0 text.now ≡ text.now }
{
    match around_space(text) {
        Some(_) => true,
        None => false,
    }
}

/// A text of its own, with a space for each `&nbsp;`.
fn put_each_space(alloc: Global, text: &str) -> Result<String, Memory>
    ensures { IfOk result (λ made. string_bytes made ≡ spaced 0 text.now) }
{
    let mut made = String::new(alloc);
    let mut rest = text;
    while let Some((kept, others)) = around_space(rest) {
        made.push_str(kept)?;
        made.push_str(" ")?;
        rest = others;
    }
    made.push_str(rest)?;
    Ok(made)
}

/// Whether there is nothing but ASCII white space: space, tab, line feed, form feed, carriage return.
pub fn is_blank(text: &str) -> bool
    ensures { result ≡ blank text.now }
{
    let bytes = text.as_bytes();
    for byte in bytes {
        if !matches!(*byte, b' ' | b'\t' | b'\n' | 12 | b'\r') {
            return false;
        }
    }
    true
}

/// Whether a field with this value counts as empty: nothing but white space is left when it is stripped.
pub fn is_empty_value(alloc: Global, text: &str) -> Result<bool, Memory>
    ensures { IfOk result (λ empty. empty ≡ empty_value text.now) }
{
    let plain = strip(alloc, text)?;
    Ok(is_blank(plain.as_str()))
}

/// The filter `text`, which strips.
#[derive(Debug, Drop)]
pub struct TextFilter {
    alloc: Global,
    turn: u64,
}

impl TextFilter {
    /// At turn 0.
    pub fn new(alloc: Global) -> TextFilter
        ensures { ⟦<TextFilter as FieldFilter>⟧.meaning result ≡ record { name = codes "text"; form = Strip; turn = 0 } }
    {
        TextFilter { alloc, turn: 0 }
    }
}

impl FieldFilter for TextFilter {
    ghost use Rattle.std.specs.Prelude.{codes};
    ghost use Rattle.ak_filters.specs.Meanings.{Strip};

    ghost meaning = { λ filter. record { name = codes "text"; form = Strip; turn = filter.turn } };

    fn name(&self) -> &str {
        "text"
    }

    fn apply(&mut self, text: &str) -> Result<Text, Memory> {
        let made = strip(self.alloc, text)?;
        self.turn = self.turn.saturating_add(1);
        Ok(made)
    }
}
