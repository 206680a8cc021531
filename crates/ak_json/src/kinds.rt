ghost use Rattle.std.specs.Prelude.{◌≡◌};
ghost use Rattle.serde_json.specs.View.{view, items_view};
ghost use Rattle.ak_json.specs.Kinds.{holds, may_lack, is_number_within, are_integers, is_part, decimal_in, permille_of};

use crate::decimals::read_decimal;
use crate::depths::is_shallow;
use serde_json::Value;

/// What a column holds.
#[derive(Clone, Copy)]
pub(crate) enum Kind {
    /// A whole number that fits 64 bits with its sign.
    Integer,
    /// A whole number from the least to the most.
    Within(i64, i64),
    /// A text.
    Text,
    /// True or false.
    Bool,
    /// The text of a decimal number of at most three places.
    Decimal,
    /// A list of whole numbers.
    Steps,
    /// A list of two whole numbers.
    Pair,
    /// The fields of a note type.
    Fields,
    /// The templates of a note type.
    Templates,
    /// What an option group has for new cards, for reviews and for cards that were forgotten.
    New,
    Rev,
    Lapse,
    /// The same three in version 1.
    OldNew,
    OldRev,
    OldLapse,
    /// Anything, or nothing, with no number that is not whole. It is not read.
    Ignored,
}

impl Kind {
    /// Whether a column of this kind may be missing.
    pub(crate) fn may_lack(self) -> bool
        ensures { result ≡ may_lack self }
    {
        match self {
            Kind::Ignored => true,
            _ => false,
        }
    }

    /// Whether the value is of this kind.
    pub(crate) fn holds(self, value: &Value) -> bool
        ensures { result ≡ holds self (view value.now) }
    {
        match self {
            Kind::Integer => value.as_i64().is_some(),
            Kind::Within(least, most) => is_number_within(value.as_i64(), least, most),
            Kind::Text => value.as_str().is_some(),
            Kind::Bool => value.as_bool().is_some(),
            Kind::Decimal => decimal_in(value).is_some(),
            Kind::Steps => match value.as_array() {
                Some(values) => are_integers(values.as_slice()),
                None => false,
            },
            Kind::Pair => is_part(value, 0) && is_part(value, 1) && value.get(2).is_none(),
            Kind::Fields | Kind::Templates => value.is_array(),
            Kind::New | Kind::Rev | Kind::Lapse => value.is_object(),
            Kind::OldNew | Kind::OldRev | Kind::OldLapse => value.is_object(),
            Kind::Ignored => is_shallow(u64::MAX, value),
        }
    }
}

/// Whether there is a whole number from the least to the most.
pub fn is_number_within(number: Option<i64>, least: i64, most: i64) -> bool
    ensures { result ≡ is_number_within least most number }
{
    match number {
        Some(number) => least <= number && number <= most,
        None => false,
    }
}

/// Whether all the values are whole numbers.
fn are_integers(values: &[Value]) -> bool
    ensures { result ≡ are_integers (items_view values.now) }
{
    for value in values {
        if value.as_i64().is_none() {
            return false;
        }
    }
    true
}

/// Whether the element at that place is a whole number.
fn is_part(value: &Value, place: usize) -> bool
    ensures { result ≡ is_part place (view value.now) }
{
    match value.get(place) {
        Some(part) => part.as_i64().is_some(),
        None => false,
    }
}

/// The thousandths of a decimal text, if the value is one.
fn decimal_in(value: &Value) -> Option<i64>
    ensures { result ≡ decimal_in (view value.now) }
{
    match value.as_str() {
        Some(text) => read_decimal(text),
        None => None,
    }
}

/// The thousandths that a value is: a whole number of them, or a decimal text.
pub(crate) fn permille_of(value: &Value) -> Option<i64>
    ensures { result ≡ permille_of (view value.now) }
{
    match value.as_i64() {
        Some(number) => Some(number),
        None => decimal_in(value),
    }
}
