// The answers that cards got, read from the reviews of a keeper.
ghost use Rattle.std.specs.Prelude.{◌≡◌, ◌≤ℤ◌, ◌<ℤ◌, ◌⊎◌, ◌||◌, ℤ, pos, OnOk, false};
ghost use Rattle.ak_base.specs.declared.rows.Row.TheVariants as rows;
ghost use Rattle.ak_keep.specs.Readings.{ReadsBy};
ghost use Rattle.ak_search.specs.CardFacts.{is_answer, is_answer_in, is_since};
ghost use Rattle.ak_search.specs.Passes.{AreAnswersFrom, is_shown};

use crate::states::is_since;
use ak_base::{Memory, Name, Review, Row, Table};
use ak_keep::{KeepFault, Readable, Walk};
use std::alloc::Global;
use std::collections::BTreeMap;

/// The answers that cards got: of each card and ease the id of the last review.
#[derive(Debug, Drop)]
pub(crate) struct Answers {
    pub(crate) last: BTreeMap<(i64, i64), i64>,
}

impl Answers {
    /// No answers.
    pub(crate) fn new(alloc: Global) -> Answers
        ensures { (card ease least : ℤ) → is_shown result card ease least ≡ false }
    {
        Answers {
            last: BTreeMap::new(alloc),
        }
    }

    /// The last review of that card and ease, with one more.
    fn last_with(&self, review: &Review) -> i64
        ensures { (least : ℤ) → is_since result least ≡ (is_shown self.now review.now.cid review.now.ease least || is_since review.now.id least) }
    {
        match self.last.get(&(review.cid, review.ease)) {
            Some(last) => { if *last < review.id { review.id } else { *last } }
            None => review.id,
        }
    }

    /// Counts in one more review.
    fn add(&mut self, review: &Review) -> Result<(), Memory>
        ensures { OnOk result ((card ease least : ℤ) → is_shown self.new card ease least ≡ (is_shown self.old card ease least || is_answer card ease least (rows.Review review.now))) }
    {
        let last = self.last_with(review);
        self.last.insert((review.cid, review.ease), last)?;
        Ok(())
    }

    /// Counts in the row, if it is a review.
    fn add_row(&mut self, row: &Row) -> Result<(), Memory>
        ensures { OnOk result ((card ease least : ℤ) → is_shown self.new card ease least ≡ (is_shown self.old card ease least || is_answer card ease least row.now)) }
    {
        match row {
            Row::Review(review) => self.add(review),
            _ => Ok(()),
        }
    }

    /// Counts in the reviews among the rows.
    fn add_rows(&mut self, rows: &[Row]) -> Result<(), Memory>
        ensures { OnOk result ((card ease least : ℤ) → is_shown self.new card ease least ≡ (is_shown self.old card ease least || is_answer_in card ease least rows.now)) }
    {
        let mut rest = rows;
        while let Some((row, others)) = rest.split_first() {
            self.add_row(row)?;
            rest = others;
        }
        Ok(())
    }

    /// Whether a review of that card with that ease has at least that id.
    pub(crate) fn is_shown(&self, card: &i64, ease: &i64, least: &i128) -> bool
        ensures { result ≡ is_shown self.now card.now ease.now least.now }
    {
        match self.last.get(&(*card, *ease)) {
            Some(last) => is_since(last, least),
            None => false,
        }
    }
}

/// The answers in the reviews from an id on.
pub(crate) fn read_answers<R: Readable>(
    alloc: Global,
    from: &mut R,
    least: &i128,
) -> Result<Answers, KeepFault>
    ensures reads { ReadsBy R.Lookup from.old from.new result (λ h answers. AreAnswersFrom least.now answers h.rows) }
{
    // For the proof alone: it says that each row stands under its name.
    let _held = from.held();
    let mut answers = Answers::new(alloc);
    let mut walk = Walk::past(Name {
        table: Table::Review,
        id: id_before(least),
    });
    'pages: while !walk.is_done() {
        let page = walk.next(from)?;
        answers.add_rows(page.as_slice())?;
    }
    Ok(answers)
}

/// An id that is not below 0, past which all ids over 0 are that are not before the other.
fn id_before(least: &i128) -> i64
    ensures low { pos 0 ≤ℤ result }
    ensures before { (result ≡ pos 0) ⊎ (result <ℤ least.now) }
{
    if *least <= 0 {
        return 0;
    }
    match i64::try_from(*least - 1) {
        Ok(before) => before,
        Err(_) => i64::MAX,
    }
}
