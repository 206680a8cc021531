ghost use Rattle.std.specs.Prelude.{◌≡◌, ◌↔◌, ◌∷◌, ◌++◌, ◌+◌, ◌<◌, ◌≤◌, ℕ, IsTrue, [], true, false, length, drop, Some, None, IfOk, OnOk, IfSome, IfNone, string_bytes, codes, pos, if◌then◌else◌};
ghost use Rattle.std.specs.List.{list_any};
ghost use Rattle.std.specs.Ordering.{int_eq};
ghost use Rattle.ak_base.specs.Cuts.{begins, front};
ghost use Rattle.ak_template.specs.Clozes.{digit_front, is_number, number_at, parts, mark_parts, part_text, parts_text, clozed, gap_text, gap_hint, spanned, hinted, gaps, among, borne, numbers_of, AscendsWithin, IsLeft};
ghost use Rattle.ak_template.specs.declared.clozes.Part.TheVariants as variants;

use ak_base::{List, Memory, Text, cut};
use std::alloc::Global;

/// A part of a field with clozes.
#[derive(Debug, Drop)]
pub enum Part {
    Bare(Text),
    /// A cloze: its number, and the text from its `::` to the next `}}`.
    Gap(u32, Text),
}

/// The highest number of a cloze. The first is 1.
pub const LAST_NUMBER: u32 = 500;

/// A side of a card: whether it is the back, and the number of the card.
#[derive(Clone, Copy)]
struct Side {
    back: bool,
    card: i64,
}

/// What a field shows on the card of that number, on its back or its front. A cloze of another number shows its text.
pub fn show_clozes(alloc: Global, back: bool, card: i64, text: &str) -> Result<Text, Memory>
    ensures { IfOk result (λ made. made ≡ clozed back card text.now) }
{
    let parts = read_parts(alloc, text)?;
    let made = push_parts(alloc, Side { back, card }, &parts)?;
    Text::of(alloc, &made)
}

/// The parts of a field, from front to back.
fn read_parts(alloc: Global, text: &str) -> Result<Vec<Part>, Memory>
    ensures { IfOk result (λ made. made.items ≡ parts text.now) }
{
    let mut parts = Vec::new(alloc);
    let mut rest = text;
    while let Some((before, after)) = cut(rest, "{{c") {
        add_bare(&mut parts, alloc, before)?;
        match add_marked(&mut parts, alloc, after)? {
            Some(others) => rest = others,
            None => return Ok(parts),
        }
    }
    add_bare(&mut parts, alloc, rest)?;
    Ok(parts)
}

/// Adds words that are no cloze.
fn add_bare(parts: &mut Vec<Part>, alloc: Global, words: &str) -> Result<(), Memory>
    ensures { OnOk result (parts.new.items ≡ parts.old.items ++ variants.Bare words.now ∷ []) }
{
    let words = Text::of(alloc, words)?;
    parts.push(Part::Bare(words))?;
    Ok(())
}

/// Adds what a `{{c` begins, by the text after it; the answer is what is left to be read.
fn add_marked<'a>(
    parts: &mut Vec<Part>,
    alloc: Global,
    text: &'a str,
) -> Result<Option<&'a str>, Memory>
    ensures parts { OnOk result (parts.new.items ≡ parts.old.items ++ (mark_parts text.now).0) }
    ensures left { IfOk result (λ left. IsLeft (mark_parts text.now).1 left) }
    ensures shorter { IfOk result (λ left. IfSome left (λ rest. length rest.now ≤ length text.now)) }
{
    match read_number(text) {
        None => {
            add_bare(parts, alloc, "{{c")?;
            Ok(Some(text))
        }
        Some((number, body)) => match cut(body, "}}") {
            Some((inside, rest)) => {
                add_gap(parts, alloc, number, inside)?;
                Ok(Some(rest))
            }
            None => {
                add_bare(parts, alloc, "{{c")?;
                add_bare(parts, alloc, text)?;
                Ok(None)
            }
        },
    }
}

/// The number after a `{{c`, and the text after its `::`: 1 to 500 without a leading zero.
fn read_number(text: &str) -> Option<(u32, &str)>
    ensures some { IfSome result (λ found. number_at 0 text.now ≡ Some (found.0, found.1.now)) }
    ensures shorter { IfSome result (λ found. length found.1.now ≤ length text.now) }
    ensures none { IfNone result (number_at 0 text.now ≡ None) }
{
    let mut number = 0u32;
    let mut rest = text;
    loop {
        if let Some(behind) = behind_mark(rest, "::") {
            if number == 0 {
                return None;
            }
            return Some((number, behind));
        }
        let (digit, others) = digit_at(rest)?;
        number = number * 10 + digit;
        if !is_cloze_number(number) {
            return None;
        }
        rest = others;
    }
}

/// The text after a mark, if it begins with it.
fn behind_mark<'a>(text: &'a str, mark: &str) -> Option<&'a str>
    ensures begins { IfSome result (λ rest. begins mark.now text.now ≡ true) }
    ensures rest { IfSome result (λ rest. rest.now ≡ drop (length mark.now) text.now) }
    ensures shorter { IfSome result (λ rest. length rest.now ≤ length text.now) }
    ensures none { IfNone result (begins mark.now text.now ≡ false) }
{
    text.strip_prefix(mark)
}

/// The digit that the text begins with, and the text after it.
fn digit_at(text: &str) -> Option<(u32, &str)>
    ensures some { IfSome result (λ found. digit_front text.now ≡ Some (found.0, found.1.now)) }
    ensures digit { IfSome result (λ found. found.0 < 10) }
    ensures shorter { IfSome result (λ found. length found.1.now < length text.now) }
    ensures none { IfNone result (digit_front text.now ≡ None) }
{
    let bytes = text.as_bytes();
    if bytes.len() < 1 {
        return None;
    }
    let byte = bytes[0];
    if byte < 48 {
        return None;
    }
    if byte > 57 {
        return None;
    }
    Some((u32::from(byte - 48), &text[1..]))
}

/// Whether a cloze may have the number.
fn is_cloze_number(number: u32) -> bool
    ensures { result ≡ is_number number }
{
    number > 0 && number <= LAST_NUMBER
}

/// Adds a cloze.
fn add_gap(parts: &mut Vec<Part>, alloc: Global, number: u32, inside: &str) -> Result<(), Memory>
    ensures { OnOk result (parts.new.items ≡ parts.old.items ++ variants.Gap number inside.now ∷ []) }
{
    let inside = Text::of(alloc, inside)?;
    parts.push(Part::Gap(number, inside))?;
    Ok(())
}

/// The text of the parts, one after the other.
fn push_parts(alloc: Global, side: Side, parts: &[Part]) -> Result<String, Memory>
    ensures { IfOk result (λ made. string_bytes made ≡ parts_text side.back side.card parts.now) }
{
    let mut made = String::new(alloc);
    for part in parts {
        push_part(&mut made, side, part)?;
    }
    Ok(made)
}

/// Adds what a part shows.
fn push_part(made: &mut String, side: Side, part: &Part) -> Result<(), Memory>
    ensures { OnOk result (string_bytes made.new ≡ string_bytes made.old ++ part_text side.back side.card part.now) }
{
    match part {
        Part::Bare(words) => {
            made.push_str(words.as_str())?;
            Ok(())
        }
        Part::Gap(number, inside) => push_gap(made, side, i64::from(*number), inside.as_str()),
    }
}

/// Adds what the cloze of that number shows, with this text up to its `}}`.
fn push_gap(made: &mut String, side: Side, number: i64, body: &str) -> Result<(), Memory>
    ensures { OnOk result (string_bytes made.new ≡ string_bytes made.old ++ gap_text side.back side.card number body.now) }
{
    if number == side.card {
        if side.back {
            return push_span(made, text_of(body));
        }
        return push_hint(made, hint_of(body));
    }
    made.push_str(text_of(body))?;
    Ok(())
}

/// Adds a cloze that is shown.
fn push_span(made: &mut String, text: &str) -> Result<(), Memory>
    ensures { OnOk result (string_bytes made.new ≡ string_bytes made.old ++ spanned text.now) }
{
    made.push_str("<span class=cloze>")?;
    made.push_str(text)?;
    made.push_str("</span>")?;
    Ok(())
}

/// Adds a cloze that is hidden.
fn push_hint(made: &mut String, hint: &str) -> Result<(), Memory>
    ensures { OnOk result (string_bytes made.new ≡ string_bytes made.old ++ hinted hint.now) }
{
    made.push_str("<span class=cloze>[")?;
    made.push_str(hint)?;
    made.push_str("]</span>")?;
    Ok(())
}

/// The text of a cloze: all up to the first `::`.
fn text_of(inside: &str) -> &str
    ensures { result.now ≡ front (codes "::") inside.now }
{
    match cut(inside, "::") {
        Some((text, _)) => text,
        None => inside,
    }
}

/// The hint of a cloze: all after the first `::`, or three dots if there is none.
fn hint_of(inside: &str) -> &str
    ensures { result.now ≡ gap_hint inside.now }
{
    match cut(inside, "::") {
        Some((_, hint)) => hint,
        None => "...",
    }
}

/// The numbers of the clozes of a field.
pub fn cloze_numbers(alloc: Global, text: &str) -> Result<List<i64>, Memory>
    ensures numbers { IfOk result (λ found. found ≡ numbers_of text.now) }

    // A number is there exactly if some cloze has it.
    ensures each { IfOk result (λ found. (n : ℕ) → IsTrue (list_any (int_eq (pos n)) found) ↔ IsTrue (among n (gaps (parts text.now)))) }

    // They ascend, each once, from 1 to 500.
    ensures ascending { IfOk result (AscendsWithin (pos 1) (pos 501)) }
{
    let parts = read_parts(alloc, text)?;
    let numbers = gap_numbers(alloc, &parts)?;
    borne_numbers(alloc, LAST_NUMBER, &numbers)
}

/// The numbers of the clozes, in the order of the parts.
fn gap_numbers(alloc: Global, parts: &[Part]) -> Result<Vec<u32>, Memory>
    ensures { IfOk result (λ numbers. numbers.items ≡ gaps parts.now) }
{
    let mut numbers = Vec::new(alloc);
    for part in parts {
        match part {
            Part::Bare(_) => {}
            Part::Gap(number, _) => numbers.push(*number)?,
        }
    }
    Ok(numbers)
}

/// Those of the numbers up to a highest one, ascending, each once.
#[tactic(auto, using(crate::proofs::Clozing::borne_none, crate::proofs::Clozing::borne_next))]
fn borne_numbers(alloc: Global, highest: u32, numbers: &[u32]) -> Result<List<i64>, Memory>
    requires { highest < 501 }
    ensures { IfOk result (λ found. found ≡ borne highest numbers.now) }
{
    let mut found = Vec::new(alloc);
    for last in 0..highest {
        add_borne(&mut found, last + 1, numbers)?;
    }
    Ok(List::of(found))
}

/// Adds the number if it is one of these.
fn add_borne(all: &mut Vec<i64>, number: u32, numbers: &[u32]) -> Result<(), Memory>
    ensures { OnOk result (all.new.items ≡ all.old.items ++ (if among number numbers.now then pos number ∷ [] else [])) }
{
    if !is_among(number, numbers) {
        return Ok(());
    }
    all.push(i64::from(number))?;
    Ok(())
}

/// Whether the number is one of these.
fn is_among(number: u32, numbers: &[u32]) -> bool
    ensures { result ≡ among number numbers.now }
{
    for other in numbers {
        if *other == number {
            return true;
        }
    }
    false
}
