// The numbers in terms.
ghost use Rattle.std.specs.Prelude.{◌≡◌, ◌≤◌, ◌-◌, ◌^◌};
ghost use Rattle.ak_search.specs.Terms.{up_to, whole, not_zero, from_one, days_of, signed_of};

use ak_base::{LAST_I64, cut, read_number};

/// The number of a flag: 0 to 7.
pub(crate) fn flag_of(text: &str) -> Option<i64>
    ensures { result ≡ up_to 7 text.now }
{
    up_to(7, text)
}

/// The number, if it is at most so much.
fn up_to(most: u64, text: &str) -> Option<i64>
    requires { most ≤ 2 ^ 63 - 1 }
    ensures { result ≡ up_to most text.now }
{
    match read_number(text, most) {
        Some(number) => Some(number as i64),
        None => None,
    }
}

/// An ease, 1 to 4.
pub(crate) fn ease_of(text: &str) -> Option<i64>
    ensures { result ≡ from_one 4 text.now }
{
    from_one(4, text)
}

/// The number, if it is at least 1.
fn from_one(most: u64, text: &str) -> Option<i64>
    requires { most ≤ 2 ^ 63 - 1 }
    ensures { result ≡ from_one most text.now }
{
    let number = up_to(most, text)?;
    not_zero(number)
}

/// The number, if it is not 0.
fn not_zero(number: i64) -> Option<i64>
    ensures { result ≡ not_zero number }
{
    if number == 0 { None } else { Some(number) }
}

/// A number of days.
pub(crate) fn days_of(text: &str) -> Option<i64>
    ensures { result ≡ days_of text.now }
{
    from_one(100_000, text)
}

/// A number that may have a `-`.
pub(crate) fn signed_of(text: &str) -> Option<i64>
    ensures { result ≡ signed_of text.now }
{
    if let Some((before, digits)) = cut(text, "-") {
        if before.len() == 0 {
            return match whole(digits) {
                Some(number) => Some(0 - number),
                None => None,
            };
        }
    }
    whole(text)
}

/// A whole number without sign or leading zero.
pub(crate) fn whole(text: &str) -> Option<i64>
    ensures { result ≡ whole text.now }
{
    up_to(LAST_I64, text)
}
