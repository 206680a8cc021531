ghost use Rattle.std.specs.Prelude.{◌≡◌, IfOk};

use crate::columns::{code_fault, first_fault, id_fault, long_fault, stamp_fault};
use crate::{
    FIRST_DAY, LAST_COUNT, LAST_DAY, LAST_USN, Memory, NAME_BYTES, OfDeck, REST_BYTES, Rest,
    RowFault, Text,
};

/// How many cards of a deck were taken on a day.
#[derive(Clone, Copy, Debug, PartialEq, Eq)]
pub struct Count {
    /// The day of the scheduler, 0 being the day that begins with the collection.
    pub day: i64,
    pub count: i64,
}

/// A deck, as an object of schema 11's `decks` keeps it.
#[derive(Debug, PartialEq, Drop)]
pub struct Deck {
    /// When the deck was made, in milliseconds.
    pub id: i64,
    /// When it was changed last, in seconds: the key `mod`.
    pub stamp: i64,
    /// The update sequence number (usn), -1 for a deck that was not sent yet.
    pub usn: i64,
    /// The names of the deck and of those above it, joined by `::`.
    pub name: Text,
    /// The id of its option group: the key `conf`.
    pub options: i64,
    /// Whether a search fills it: the key `dyn`.
    pub filtered: bool,
    pub new_today: Count,
    pub rev_today: Count,
    pub rest: Rest<OfDeck>,
}

impl Deck {
    ghost use Rattle.ak_base.specs.Columns.{first_fault};
    ghost use Rattle.ak_base.specs.Decks.{deck_faults, title_faults, taken_faults};

    /// The first column that is out of its range. Columns are counted in the order of the fields.
    #[tactic(auto, using(crate::proofs::FirstFaults::fault_of_front, crate::proofs::FirstFaults::fault_behind))]
    pub fn check(&self) -> Result<(), RowFault>
        ensures { result ≡ first_fault (deck_faults self.now) }
    {
        self.check_title()?;
        self.check_taken()
    }

    /// What the deck is called, its options, and when it was changed.
    #[tactic(auto, unfolding(crate::specs::Decks::title_faults))]
    fn check_title(&self) -> Result<(), RowFault>
        ensures { result ≡ first_fault (title_faults self.now) }
    {
        first_fault(&[
            id_fault(self.id),
            stamp_fault(self.stamp),
            code_fault(2, self.usn, -1, LAST_USN),
            long_fault(3, self.name.as_str().len() as u64, NAME_BYTES),
            id_fault(self.options),
        ])
    }

    /// How many cards were taken, and the rest.
    #[tactic(auto, unfolding(crate::specs::Decks::taken_faults))]
    fn check_taken(&self) -> Result<(), RowFault>
        ensures { result ≡ first_fault (taken_faults self.now) }
    {
        first_fault(&[
            self.new_today.fault(6),
            self.rev_today.fault(7),
            long_fault(8, self.rest.as_str().len() as u64, REST_BYTES),
        ])
    }

    /// An equal deck of its own.
    pub fn copy(&self) -> Result<Deck, Memory>
        ensures { IfOk result (λ made. made ≡ self.now) }
    {
        Ok(Deck {
            id: self.id,
            stamp: self.stamp,
            usn: self.usn,
            name: self.name.copy()?,
            options: self.options,
            filtered: self.filtered,
            new_today: self.new_today,
            rev_today: self.rev_today,
            rest: self.rest.copy()?,
        })
    }
}

impl Count {
    ghost use Rattle.ak_base.specs.Decks.{count_fault};

    /// The fault of the count in that column, if there is one.
    fn fault(self, column: u8) -> Option<RowFault>
        ensures { result ≡ count_fault column self }
    {
        match code_fault(column, self.day, FIRST_DAY, LAST_DAY) {
            Some(fault) => Some(fault),
            None => code_fault(column, self.count, 0, LAST_COUNT),
        }
    }
}
