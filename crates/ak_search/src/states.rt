// What is asked of a card alone: its state, its numbers, its flags and its days.
ghost use Rattle.std.specs.Prelude.{◌≡◌, ◌-ℤ◌, pos};
ghost use Rattle.std.specs.Int.{int_rem_euclid};
ghost use Rattle.std.specs.Ordering.{int_eq};
ghost use Rattle.ak_search.specs.Holds.{held_and, is_either, is_due, in_state, property, compares, second_back, id_back, is_listed};
ghost use Rattle.ak_search.specs.CardFacts.{is_since};

use crate::{Comparison, Property, State};
use ak_base::{Card, DAY_SECONDS, Day};

/// Whether the card is in the state, on that day.
pub(crate) fn is_in_state(day: Day, state: State, card: &Card) -> bool
    ensures { result ≡ in_state day state card.now }
{
    match state {
        State::New => card.kind == 0,
        State::Learn => is_either(&card.queue, 1, 3),
        State::Review => is_either(&card.kind, 2, 3),
        State::Due => is_due(day, card),
        State::Suspended => card.queue == -1,
        State::Buried => is_either(&card.queue, -2, -3),
        State::BuriedManually => card.queue == -3,
        State::BuriedSibling => card.queue == -2,
    }
}

/// Whether the number is one of the two.
fn is_either(number: &i64, one: i64, other: i64) -> bool
    ensures { result ≡ is_either one other number.now }
{
    *number == one || *number == other
}

/// Whether the card is due: by the day, or learned today and due by the first second of the next day.
fn is_due(day: Day, card: &Card) -> bool
    ensures { result ≡ is_due day card.now }
{
    if is_either(&card.queue, 2, 3) && card.due <= day.number {
        return true;
    }
    card.queue == 1 && card.due <= day.cutoff
}

/// Whether the comparison holds of the card's number and the bound.
pub(crate) fn meets_bound(
    day: Day,
    what: Property,
    comparison: Comparison,
    bound: &i64,
    card: &Card,
) -> bool
    ensures { result ≡ held_and (compares comparison bound.now) (property day what card.now) }
{
    match property(day, what, card) {
        Some(number) => compares(comparison, &number, &(*bound as i128)),
        None => false,
    }
}

/// The number of a card, if it has it. It is taken at 128 bits, so that days from today are never too many.
pub(crate) fn property(day: Day, what: Property, card: &Card) -> Option<i128>
    ensures { result ≡ property day what card.now }
{
    match what {
        Property::Interval => Some(card.ivl as i128),
        Property::Reps => Some(card.reps as i128),
        Property::Lapses => Some(card.lapses as i128),
        Property::Ease => Some(card.factor as i128),
        Property::Due => {
            if is_either(&card.queue, 2, 3) {
                Some(days_ahead(day, card))
            } else {
                None
            }
        }
        Property::Position => {
            if card.kind == 0 {
                Some(card.due as i128)
            } else {
                None
            }
        }
    }
}

/// The days from today until a card is due that is due by the day.
fn days_ahead(day: Day, card: &Card) -> i128
    ensures { result ≡ card.now.due -ℤ day.number }
{
    card.due as i128 - day.number as i128
}

/// Whether the number compares with the bound as asked.
pub(crate) fn compares(comparison: Comparison, number: &i128, bound: &i128) -> bool
    ensures { result ≡ compares comparison bound.now number.now }
{
    match comparison {
        Comparison::Equal => *number == *bound,
        Comparison::Differs => *number != *bound,
        Comparison::Below => *number < *bound,
        Comparison::Above => *number > *bound,
        Comparison::AtMost => *number <= *bound,
        Comparison::AtLeast => *number >= *bound,
    }
}

/// Whether the flags, modulo 8, are that number.
pub(crate) fn has_flag(card: &Card, number: &i64) -> bool
    ensures { result ≡ int_eq (int_rem_euclid card.now.flags (pos 8)) number.now }
{
    card.flags.rem_euclid(8) == *number
}

/// The second at which the last so many days began.
pub(crate) fn second_back(day: Day, days: &i64) -> i128
    ensures { result ≡ second_back day days.now }
{
    day.cutoff as i128 - DAY_SECONDS as i128 * (*days as i128)
}

/// The id of a row that was made at that second.
pub(crate) fn id_back(day: Day, days: &i64) -> i128
    ensures { result ≡ id_back day days.now }
{
    (day.cutoff as i128 - DAY_SECONDS as i128 * (*days as i128)) * 1000
}

/// Whether the number is at least that.
pub(crate) fn is_since(number: &i64, least: &i128) -> bool
    ensures { result ≡ is_since number.now least.now }
{
    *number as i128 >= *least
}

/// Whether the id is one of these.
pub(crate) fn is_listed(id: &i64, ids: &[i64]) -> bool
    ensures { result ≡ is_listed id.now ids.now }
{
    for listed in ids {
        if *listed == *id {
            return true;
        }
    }
    false
}
