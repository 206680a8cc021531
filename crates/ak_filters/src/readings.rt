// Readings: `base[inside]`, as a word in kanji with its kana behind it. Each byte is looked at a few times at most, whatever the text is: a try at
// each place, or at each `[`, would take the square of the time on a text such as `a[a[a[`.
ghost use Rattle.std.specs.Prelude.{◌≡◌, ◌<◌, ◌≤◌, ◌++◌, ◌⊎◌, [], true, false, length, IfOk, OnOk, IfSome, IfNone, string_bytes, codes};
ghost use Rattle.ak_base.specs.Cuts.{begins, has};
ghost use Rattle.ak_filters.specs.Readings.{readings_shown, line_length, part_text, signed_text, IsSignAfter, IsCutAtSpace, ShowsUpTo};

use ak_base::{Memory, Text, cut};
use std::alloc::Global;

/// What of a reading takes its place.
#[derive(Clone, Copy, Debug)]
pub(crate) enum ReadingPart {
    Base,
    Inside,
    /// The base, with the inside above it.
    Ruby,
}

/// A reading that was found. The sign before its base is a space, which belongs to it, a `>`, which doesn't, or none.
#[derive(Drop)]
struct Reading<'a> {
    sign: &'a str,
    base: &'a str,
    inside: &'a str,
}

/// The text with the part in place of each reading.
pub(crate) fn show_readings(alloc: Global, part: ReadingPart, text: &str) -> Result<Text, Memory>
    ensures { IfOk result (λ made. made ≡ readings_shown part text.now) }
{
    let mut made = String::new(alloc);
    let mut rest = text;
    while let Some((segment, others)) = cut(rest, "]") {
        add_segment(&mut made, part, segment)?;
        rest = others;
    }
    made.push_str(rest)?;
    Text::of(alloc, &made)
}

/// Adds what is shown of a text without a `]` that stands before one, and of that `]`. A reading in it ends there, so
/// it begins at the first `[` that has a base before it and an inside after it.
fn add_segment(made: &mut String, part: ReadingPart, segment: &str) -> Result<(), Memory>
    requires { has (codes "]") segment.now ≡ false }
    ensures { OnOk result (ShowsUpTo part segment.now (string_bytes made.old) (string_bytes made.new)) }
{
    let line = last_line_length(segment);
    let mut rest = segment;
    while let Some((before, inside)) = cut(rest, "[") {
        let (kept, sign, base) = split_base(before);
        if is_reading(base, inside, line) {
            made.push_str(kept)?;
            return add_reading(made, part, &Reading { sign, base, inside });
        }
        made.push_str(before)?;
        made.push_str("[")?;
        rest = inside;
    }
    made.push_str(rest)?;
    made.push_str("]")?;
    Ok(())
}

/// How many bytes stand after the last line feed.
fn last_line_length(text: &str) -> usize
    ensures { result ≡ line_length 0 text.now }
{
    let mut length = 0usize;
    for byte in text.as_bytes() {
        if *byte == b'\n' {
            length = 0;
        } else {
            length += 1;
        }
    }
    length
}

/// Whether a base, and after its `[` the end of the text, are a reading, if so many bytes of the text stand after its last
/// line feed.
fn is_reading(base: &str, inside: &str, line: usize) -> bool
    ensures yes { result ≡ true → (1 ≤ length base.now) × (1 ≤ length inside.now) × (length inside.now ≤ line) }
    ensures no { result ≡ false → (base.now ≡ []) ⊎ (inside.now ≡ []) ⊎ (line < length inside.now) }
{
    if base.is_empty() || inside.is_empty() {
        return false;
    }
    inside.len() <= line
}

/// What stands before the last sign that no base has, that sign, and the base after it.
fn split_base(text: &str) -> (&str, &str, &str)
    ensures whole { text.now ≡ result.0.now ++ (result.1.now ++ result.2.now) }
    ensures sign { IsSignAfter result.0.now result.1.now }
    ensures no_space { has (codes " ") result.2.now ≡ false }
    ensures no_mark { has (codes ">") result.2.now ≡ false }
{
    match cut_last(text, ">") {
        Some((kept, base)) => {
            if has_space(base) {
                return split_at_space(text);
            }
            (kept, ">", base)
        }
        None => split_at_space(text),
    }
}

/// What stands before the last space, that space, and what stands after it; without a space all stands after it.
fn split_at_space(text: &str) -> (&str, &str, &str)
    ensures { IsCutAtSpace text.now result.0.now result.1.now result.2.now }
{
    match cut_last(text, " ") {
        Some((kept, base)) => (kept, " ", base),
        None => ("", "", text),
    }
}

/// Whether there is a space.
fn has_space(text: &str) -> bool
    ensures { result ≡ has (codes " ") text.now }
{
    match cut(text, " ") {
        Some(_) => true,
        None => false,
    }
}

/// What comes before and after the last place at which the separator stands in the text; None if it stands nowhere.
fn cut_last<'a>(text: &'a str, separator: &str) -> Option<(&'a str, &'a str)>
    requires { 0 < length separator.now }
    ensures whole { IfSome result (λ parts. text.now ≡ parts.0.now ++ (separator.now ++ parts.1.now)) }
    ensures last { IfSome result (λ parts. has separator.now parts.1.now ≡ false) }
    ensures none { IfNone result (has separator.now text.now ≡ false) }
{
    text.rsplit_once(separator)
}

/// Adds what takes the place of a reading. One of a sound stays as it is.
fn add_reading(made: &mut String, part: ReadingPart, reading: &Reading) -> Result<(), Memory>
    ensures { OnOk result (string_bytes made.new ≡ string_bytes made.old ++ signed_text part reading.now.sign.now reading.now.base.now reading.now.inside.now) }
{
    if is_sound(reading.inside) {
        made.push_str(reading.sign)?;
        return add_bracketed(made, reading.base, reading.inside);
    }
    if reading.sign == ">" {
        made.push_str(reading.sign)?;
    }
    add_part(made, part, reading.base, reading.inside)
}

/// Whether the inside names a sound.
fn is_sound(inside: &str) -> bool
    ensures { result ≡ begins (codes "sound:") inside.now }
{
    inside.starts_with("sound:")
}

/// Adds a reading as it is.
fn add_bracketed(made: &mut String, base: &str, inside: &str) -> Result<(), Memory>
    ensures { OnOk result (string_bytes made.new ≡ string_bytes made.old ++ (base.now ++ (codes "[" ++ (inside.now ++ codes "]")))) }
{
    made.push_str(base)?;
    made.push_str("[")?;
    made.push_str(inside)?;
    made.push_str("]")?;
    Ok(())
}

/// Adds the part of a reading.
fn add_part(made: &mut String, part: ReadingPart, base: &str, inside: &str) -> Result<(), Memory>
    ensures { OnOk result (string_bytes made.new ≡ string_bytes made.old ++ part_text part base.now inside.now) }
{
    match part {
        ReadingPart::Base => {
            made.push_str(base)?;
            Ok(())
        }
        ReadingPart::Inside => {
            made.push_str(inside)?;
            Ok(())
        }
        ReadingPart::Ruby => add_ruby(made, base, inside),
    }
}

/// Adds a base with the inside above it.
fn add_ruby(made: &mut String, base: &str, inside: &str) -> Result<(), Memory>
    ensures { OnOk result (string_bytes made.new ≡ string_bytes made.old ++ (codes "<ruby><rb>" ++ (base.now ++ (codes "</rb><rt>" ++ (inside.now ++ codes "</rt></ruby>"))))) }
{
    made.push_str("<ruby><rb>")?;
    made.push_str(base)?;
    made.push_str("</rb><rt>")?;
    made.push_str(inside)?;
    made.push_str("</rt></ruby>")?;
    Ok(())
}
