ghost use Rattle.std.specs.Prelude.{◌≡◌, ◌≤◌, ◌<◌, ◌≤ℤ◌, pos, IfOk, IfSome};
ghost use Rattle.std.specs.String.{string_bytes};
ghost use Rattle.ak_json.specs.Decimals.{decimal_of, decimal_text, joined, places_text, thousandths};

use ak_base::{Memory, Text, cut, read_number};
use std::alloc::Global;

/// Reads a factor as it is written: a whole number of at most six digits without sign or leading zero, which a point and one
/// to three digits may follow. It is counted in thousandths. None for any other text.
#[tactic(auto, unfolding(crate::specs::Decimals::decimal_of))]
pub fn read_decimal(text: &str) -> Option<i64>
    ensures { result ≡ decimal_of text.now }
{
    match cut(text, ".") {
        Some((whole, places)) => {
            let whole = read_number(whole, 999_999);
            joined(whole, thousandths(places.as_bytes()))
        },
        None => joined(read_number(text, 999_999), Some(0)),
    }
}

/// The shortest text of a factor, which is counted in thousandths.
pub fn write_decimal(alloc: Global, permille: i64) -> Result<Text, Memory>
    requires low { pos 0 ≤ℤ permille }
    requires high { permille ≤ℤ pos 999_999_999 }
    ensures { IfOk result (λ text. text ≡ decimal_text permille) }
{
    text_of(alloc, permille)
}

/// Whole ones and thousandths, in thousandths.
fn joined(whole: Option<u64>, part: Option<u64>) -> Option<i64>
    requires whole { IfSome whole (λ w. w ≤ 999_999) }
    requires part { IfSome part (λ p. p ≤ 999) }
    ensures { result ≡ joined whole part }
{
    match (whole, part) {
        (Some(whole), Some(part)) => Some((1_000 * whole + part) as i64),
        _ => None,
    }
}

/// How many thousandths the digits after a point are.
fn thousandths(digits: &[u8]) -> Option<u64>
    ensures value { result ≡ thousandths digits.now }
    ensures high { IfSome result (λ part. part ≤ 999) }
{
    match digits {
        [a] if a.is_ascii_digit() => Some(100 * (*a - b'0') as u64),
        [a, b] if a.is_ascii_digit() && b.is_ascii_digit() => {
            Some(100 * (*a - b'0') as u64 + 10 * (*b - b'0') as u64)
        },
        [a, b, c] if a.is_ascii_digit() && b.is_ascii_digit() && c.is_ascii_digit() => {
            Some(100 * (*a - b'0') as u64 + 10 * (*b - b'0') as u64 + (*c - b'0') as u64)
        },
        _ => None,
    }
}

/// The text of any number of thousandths: that of 0 for one below.
#[tactic(auto, unfolding(crate::specs::Decimals::decimal_text))]
pub(crate) fn text_of(alloc: Global, permille: i64) -> Result<Text, Memory>
    ensures { IfOk result (λ text. text ≡ decimal_text permille) }
{
    if permille < 0 {
        return Text::of(alloc, "0");
    }
    let number = permille as u64;
    let whole = number / 1_000;
    let places = places_text(alloc, number / 100 % 10, number / 10 % 10, number % 10)?;
    let text = format!(in alloc; "{whole}{places}")?;
    Ok(Text::from(text))
}

/// A point and these digits, without the zeros at their end; nothing, if all are zeros.
fn places_text(alloc: Global, a: u64, b: u64, c: u64) -> Result<String, Memory>
    ensures { IfOk result (λ text. string_bytes text ≡ places_text a b c) }
{
    if c != 0 {
        return Ok(format!(in alloc; ".{a}{b}{c}")?);
    }
    if b != 0 {
        return Ok(format!(in alloc; ".{a}{b}")?);
    }
    if a != 0 {
        return Ok(format!(in alloc; ".{a}")?);
    }
    Ok(String::new(alloc))
}
