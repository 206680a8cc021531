ghost use Rattle.std.specs.Prelude.{◌≡◌};
ghost use Rattle.ak_base.specs.Columns.{first_fault};
ghost use Rattle.ak_base.specs.Reviews.{review_faults};

use crate::columns::{code_fault, first_fault, id_fault};
use crate::{LAST_USN, RowFault};

/// One answer of a card, as the review log keeps it: Anki's `revlog`.
#[derive(Clone, Copy, Debug, PartialEq, Eq)]
pub struct Review {
    /// When the answer was given, in milliseconds.
    pub id: i64,
    /// The card that was answered.
    pub cid: i64,
    /// The update sequence number (usn), -1 for a row that was not sent yet.
    pub usn: i64,
    /// The button, 1 to 4, or 0 for a manual change.
    pub ease: i64,
    /// The interval after the answer: days, or minus seconds.
    pub ivl: i64,
    /// The interval before it.
    pub last_ivl: i64,
    /// The card's factor after the answer, in permille.
    pub factor: i64,
    /// How long the answer took, in milliseconds.
    pub time: i64,
    /// 0 learning, 1 review, 2 relearning, 3 filtered.
    pub kind: i64,
}

impl Review {
    /// The first column that is out of its range.
    pub fn check(&self) -> Result<(), RowFault>
        ensures { result ≡ first_fault (review_faults self.now) }
    {
        first_fault(&[
            id_fault(self.id),
            id_fault(self.cid),
            code_fault(2, self.usn, -1, LAST_USN),
            code_fault(3, self.ease, 0, 4),
            code_fault(4, self.ivl, -1_000_000_000, 1_000_000),
            code_fault(5, self.last_ivl, -1_000_000_000, 1_000_000),
            code_fault(6, self.factor, 0, 100_000),
            code_fault(7, self.time, 0, 4_294_967_295),
            code_fault(8, self.kind, 0, 3),
        ])
    }
}
