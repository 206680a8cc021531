// What the lists of a day look at.
ghost use Rattle.std.specs.Prelude.{◌≡◌, ◌+ℤ◌, ℤ, true, int_lt};
ghost use Rattle.std.specs.Option.{option_copied};
ghost use Rattle.ak_keep.specs.WaitingCards.{is_due_by};
ghost use Rattle.ak_queue.specs.Gathering.{IsLastLearning};
ghost use Rattle.ak_queue.specs.Homes.{path_of_card, leads_to};
ghost use Rattle.ak_queue.specs.Lists.{is_inside, is_learning, is_soon, is_day_learning, is_due_review, is_new, has_come};
ghost use Rattle.ak_queue.specs.Scopes.{scope_seen};

use crate::paths::Path;
use ak_base::{Card, Day};
use std::alloc::Global;
use std::collections::BTreeMap;

/// What the lists of a day look at.
#[derive(Debug, Drop)]
pub(crate) struct Scope {
    pub(crate) alloc: Global,
    pub(crate) day: Day,
    /// How many seconds ahead a learning card may come.
    pub(crate) collapse: i64,
    /// Whether only the next card is asked for.
    pub(crate) for_next: bool,
    /// The path of the chosen deck.
    pub(crate) root: Path,
    /// The paths of the decks that are held, by their ids.
    pub(crate) homes: BTreeMap<i64, Path>,
}

impl Scope {
    /// The path of the deck that a card lies in: its own deck, and deck 1 if that is not held.
    pub(crate) fn path_of_card(&self, card: &Card) -> Option<&Path>
        ensures { option_copied result ≡ path_of_card (scope_seen self.now).path_of_deck card.now }
    {
        match self.homes.get(&card.did) {
            Some(path) => Some(path),
            None => self.homes.get(&1),
        }
    }

    /// Whether a card lies in the chosen deck or below it.
    pub(crate) fn is_inside(&self, card: &Card) -> bool
        ensures { result ≡ is_inside (scope_seen self.now) card.now }
    {
        match self.path_of_card(card) {
            Some(path) => self.root.leads_to(path),
            None => false,
        }
    }

    /// Whether a card is new.
    pub(crate) fn is_new(&self, card: &Card) -> bool
        ensures { result ≡ is_new (scope_seen self.now) card.now }
    {
        card.queue == 0
    }

    /// Whether a card is learned today, and the second of its step has come.
    pub(crate) fn is_learning(&self, card: &Card) -> bool
        ensures { result ≡ is_learning (scope_seen self.now) card.now }
    {
        card.queue == 1 && card.due < self.day.now
    }

    /// Whether a card is learned today, and the second of its step comes soon.
    pub(crate) fn is_soon(&self, card: &Card) -> bool
        ensures { result ≡ is_soon (scope_seen self.now) card.now }
    {
        card.queue == 1
            && card.due >= self.day.now
            && is_before_sum(card.due, self.day.now, self.collapse)
    }

    /// No card that is learned today comes later than this, neither now nor soon; None if any may.
    pub(crate) fn last_learning(&self) -> Option<i64>
        ensures { IsLastLearning (scope_seen self.now) result }
    {
        last_of_sum(self.day.now, self.collapse)
    }

    /// Whether a card is learned over days, and the day of its step has come.
    pub(crate) fn is_day_learning(&self, card: &Card) -> bool
        ensures { result ≡ is_day_learning (scope_seen self.now) card.now }
    {
        card.queue == 3 && self.has_come(card.due)
    }

    /// Whether a card is a review whose day has come.
    pub(crate) fn is_due_review(&self, card: &Card) -> bool
        ensures { result ≡ is_due_review (scope_seen self.now) card.now }
    {
        card.queue == 2 && self.has_come(card.due)
    }

    /// Whether a day has come.
    fn has_come(&self, number: i64) -> bool
        ensures { result ≡ has_come (scope_seen self.now) number }
    {
        number <= self.day.number
    }
}

/// Whether a number is below a sum. The sum itself may be out of range.
fn is_before_sum(number: i64, one: i64, other: i64) -> bool
    ensures { result ≡ int_lt number (one +ℤ other) }
{
    match one.checked_add(other) {
        Some(sum) => number < sum,
        // Past the last number all come before the sum, and before the first none do.
        None => one > 0,
    }
}

/// At least each number that is below the first or below the sum; None if the sum is over the last number.
fn last_of_sum(one: i64, other: i64) -> Option<i64>
    ensures one { (number : ℤ) → int_lt number one ≡ true → is_due_by result number ≡ true }
    ensures sum { (number : ℤ) → int_lt number (one +ℤ other) ≡ true → is_due_by result number ≡ true }
{
    if other <= 0 {
        return Some(one);
    }
    one.checked_add(other)
}
