// What a day asks for: ids of cards in lists, and their numbers.
ghost use Rattle.std.specs.Prelude.{◌≡◌};
ghost use Rattle.ak_queue.specs.Queues.{counts_of};

use ak_base::List;

/// The cards that a day asks for: ids of cards, in the order in which they come.
#[derive(Debug, PartialEq, Drop)]
pub struct DayQueue {
    /// Learned today, and the second of their step has come.
    pub learning: List<i64>,
    /// Learned today, and the second of their step comes within the settings' `collapse`.
    pub soon: List<i64>,
    /// New cards, within the limits of their decks.
    pub new_cards: List<i64>,
    /// Learned over days, and the day of their step has come.
    pub day_learning: List<i64>,
    /// Reviews whose day has come, within the limits of the deck and those above it.
    pub reviews: List<i64>,
}

/// How many cards a day asks for.
#[derive(Clone, Copy, Debug, PartialEq, Eq)]
pub struct Counts {
    pub new_cards: u64,
    /// Learning cards that are due, that are due soon, and that are learned over days.
    pub learning: u64,
    pub reviews: u64,
}

impl DayQueue {
    /// How many cards it has.
    pub(crate) fn counts(&self) -> Counts
        ensures { result ≡ counts_of self.now }
    {
        let learning = self.learning.as_slice().len() as u64;
        let soon = self.soon.as_slice().len() as u64;
        let over_days = self.day_learning.as_slice().len() as u64;
        Counts {
            new_cards: self.new_cards.as_slice().len() as u64,
            learning: learning + soon + over_days,
            reviews: self.reviews.as_slice().len() as u64,
        }
    }
}
