ghost use Rattle.std.specs.Prelude.{◌≡◌, IfOk};
ghost use Rattle.ak_base.specs.Columns.{first_fault};
ghost use Rattle.ak_base.specs.Cards.{card_faults, place_faults, schedule_faults, mark_faults};

use crate::columns::{
    code_fault, first_fault, id_fault, id_or_zero_fault, long_fault, stamp_fault,
};
use crate::{EXTRA_BYTES, LAST_COUNT, LAST_ORD, LAST_USN, Memory, RowFault, Text};

/// A card, as schema 11's `cards` keeps it: what one template makes of a note, and when it is due.
#[derive(Debug, PartialEq, Drop)]
pub struct Card {
    /// When the card was made, in milliseconds.
    pub id: i64,
    pub nid: i64,
    pub did: i64,
    /// The place of its template, or the number of its cloze minus 1.
    pub ord: i64,
    /// When the row was changed last, in seconds: the column `mod`.
    pub stamp: i64,
    /// The update sequence number (usn), -1 for a row that was not sent yet.
    pub usn: i64,
    /// 0 new, 1 learning, 2 review, 3 relearning: the column `type`.
    pub kind: i64,
    /// 0 new, 1 learning today, 2 review, 3 learning on a later day, -1 suspended, -2 buried as a
    /// sibling, -3 buried by hand.
    pub queue: i64,
    /// The place of a new card, the second of a card that is learned today, else the day.
    pub due: i64,
    /// Days between reviews.
    pub ivl: i64,
    /// By how much the days grow, in permille.
    pub factor: i64,
    pub reps: i64,
    pub lapses: i64,
    /// How many learning steps are left, and 1000 times how many of them fit into the day.
    pub left: i64,
    /// `due` before the card went into a filtered deck.
    pub odue: i64,
    /// The deck before it went into a filtered deck, else 0.
    pub odid: i64,
    pub flags: i64,
    /// The column `data`.
    pub extra: Text,
}

impl Card {
    /// The first column that is out of its range.
    #[tactic(auto, using(crate::proofs::FirstFaults::fault_of_front, crate::proofs::FirstFaults::fault_behind))]
    pub fn check(&self) -> Result<(), RowFault>
        ensures { result ≡ first_fault (card_faults self.now) }
    {
        self.check_place()?;
        self.check_schedule()?;
        self.check_marks()
    }

    /// The columns that say what the card is called, in which deck it is and when it was changed.
    #[tactic(auto, unfolding(crate::specs::Cards::place_faults))]
    fn check_place(&self) -> Result<(), RowFault>
        ensures { result ≡ first_fault (place_faults self.now) }
    {
        first_fault(&[
            id_fault(self.id),
            id_fault(self.nid),
            id_fault(self.did),
            code_fault(3, self.ord, 0, LAST_ORD),
            stamp_fault(self.stamp),
            code_fault(5, self.usn, -1, LAST_USN),
        ])
    }

    /// What the scheduler keeps.
    #[tactic(auto, unfolding(crate::specs::Cards::schedule_faults))]
    fn check_schedule(&self) -> Result<(), RowFault>
        ensures { result ≡ first_fault (schedule_faults self.now) }
    {
        first_fault(&[
            code_fault(6, self.kind, 0, 3),
            code_fault(7, self.queue, -3, 3),
            code_fault(8, self.due, -2_147_483_648, 1_099_511_627_776),
            code_fault(9, self.ivl, 0, 1_000_000),
            code_fault(10, self.factor, 0, 100_000),
            code_fault(11, self.reps, 0, LAST_COUNT),
            code_fault(12, self.lapses, 0, LAST_COUNT),
            code_fault(13, self.left, 0, 999_999),
        ])
    }

    /// What a filtered deck keeps of the card, and its marks.
    #[tactic(auto, unfolding(crate::specs::Cards::mark_faults))]
    fn check_marks(&self) -> Result<(), RowFault>
        ensures { result ≡ first_fault (mark_faults self.now) }
    {
        first_fault(&[
            code_fault(14, self.odue, -2_147_483_648, 1_099_511_627_776),
            id_or_zero_fault(self.odid),
            code_fault(16, self.flags, 0, 2_147_483_647),
            long_fault(17, self.extra.as_str().len() as u64, EXTRA_BYTES),
        ])
    }

    /// An equal card of its own.
    pub fn copy(&self) -> Result<Card, Memory>
        ensures { IfOk result (λ made. made ≡ self.now) }
    {
        Ok(Card {
            id: self.id,
            nid: self.nid,
            did: self.did,
            ord: self.ord,
            stamp: self.stamp,
            usn: self.usn,
            kind: self.kind,
            queue: self.queue,
            due: self.due,
            ivl: self.ivl,
            factor: self.factor,
            reps: self.reps,
            lapses: self.lapses,
            left: self.left,
            odue: self.odue,
            odid: self.odid,
            flags: self.flags,
            extra: self.extra.copy()?,
        })
    }
}
