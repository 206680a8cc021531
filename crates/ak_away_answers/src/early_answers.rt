// Early answers.
ghost use Rattle.std.specs.Prelude.{◌≡◌, ◌⊎◌, ◌≤◌, ◌*◌, ◌+ℤ◌, pos, min, None, true, false, IfErr, IfOk, OnErr};
ghost use Rattle.ak_base.specs.Cards.{IsCheckedCard};
ghost use Rattle.ak_base.specs.Days.{IsDay};
ghost use Rattle.ak_base.specs.Reviews.{IsCheckedReview};
ghost use Rattle.ak_sched.specs.Counts.{clamped_to_zero};
ghost use Rattle.ak_sched.specs.Ranges.{AreOptions};
ghost use Rattle.ak_base.specs.Columns.{id_fault};
ghost use Rattle.ak_edit_calls.specs.NewNames.{IsIdFault};
ghost use Rattle.ak_edit.specs.Overlays.{unchanged};
ghost use Rattle.ak_edit.specs.Refusals.{DeskCause, IsEndFault};
ghost use Rattle.ak_away_answers.specs.AwayAnswers.{EndsEarly};
ghost use Rattle.ak_away_answers.specs.EarlyAnswers.{is_early, review_early};
ghost use Rattle.ak_away_answers.specs.EarlyEdits.{AreEarlyColumns, IsHeldAsked, IsMadeEarly, card_made, early_over};
ghost use Rattle.ak_keep.specs.Keepers.{WhereHeld, WhereTold, is_marked};
ghost use Rattle.ak_keep.specs.Readings.{ReadsBy};
ghost use Rattle.ak_study.specs.Answers.{IsButton};

use crate::early_intervals::{clamped_to_zero, early_factor, early_ivl, one_more};
use ak_base::{Card, Day, Memory, Options, Review, Row, Table};
use ak_edit::{Change, DeskFault};
use ak_edit_calls::new_name;
use ak_filtered::{HeldDecks, finish_cleared};
use ak_keep::{KeepFault, Keeper};
use ak_study::{CardAnswer, options_for};
use ak_undo::UndoList;
use std::alloc::Global;

/// A card that is away and held, and the day on which it is answered.
#[derive(Debug, Drop)]
pub(crate) struct Asked {
    pub(crate) card: Card,
    pub(crate) day: Day,
}

impl Asked {
    /// Whether the answer is early: the card is a review, its day at home is later than today, and the button is Hard, Good or Easy.
    pub(crate) fn is_early(&self, button: u8) -> bool
        ensures { result ≡ is_early self.now.day button self.now.card }
    {
        self.card.kind == 2 && self.day.number < self.card.odue && 2 <= button
    }
}

/// Answers the card early: it goes home with the early interval, in one commit, which clears the undo list. It is refused if no id is
/// free for the review, and then for a stamp or a moment that can't rise; all is as it was then.
pub(crate) fn answer_early<K: Keeper>(
    keeper: &mut K,
    steps: &mut UndoList,
    asked: &Asked,
    given: &CardAnswer,
    at: i64,
) -> Result<Card, DeskFault>
    requires unmarked { is_marked (K.keeping keeper.old) ≡ false }
    requires held { (K.keeping keeper.old).headed.current ≡ true }
    requires card { IsCheckedCard asked.now.card }
    requires day { IsDay asked.now.day }
    requires button { IsButton given.now.button }
    requires asked { WhereTold (K.keeping keeper.old) (IsHeldAsked given.now.card asked.now) }
    ensures ends { WhereHeld (K.keeping keeper.old) (λ c. EndsEarly at given.now asked.now.day c
        (K.keeping keeper.old) (K.keeping keeper.new) steps.old steps.new result) }
    ensures stays { (K.keeping keeper.new).headed ≡ (K.keeping keeper.old).headed }
    ensures err { OnErr result (K.keeping keeper.new ≡ K.keeping keeper.old) }
    ensures kept { OnErr result (steps.new ≡ steps.old) }
    ensures listed { IfErr result (λ fault. IsIdFault fault ⊎ IsEndFault fault) }
    ensures cause { DeskCause (K.health keeper.old) (K.health keeper.new) result }
{
    let alloc = steps.allocator();
    let name = new_name(keeper, Table::Review, at)?;
    let early = read_early(alloc, keeper, asked, given, name.id)?;
    let change = change_of(alloc, &early)?;
    finish_cleared(change, keeper, steps, at)?;
    Ok(early.made)
}

/// What an early answer puts.
#[derive(Debug, Drop)]
pub(crate) struct Early {
    pub(crate) made: Card,
    pub(crate) review: Review,
}

/// What an early answer puts, the review under this id.
fn read_early<K: Keeper>(
    alloc: Global,
    keeper: &mut K,
    asked: &Asked,
    given: &CardAnswer,
    id: i64,
) -> Result<Early, KeepFault>
    requires card { IsCheckedCard asked.now.card }
    requires day { IsDay asked.now.day }
    requires button { IsButton given.now.button }
    ensures reads { ReadsBy K.Lookup keeper.old keeper.new result (λ h early. IsMadeEarly id given.now asked.now h.rows early) }
    ensures card { IfOk result (λ early. IsCheckedCard early.made) }
    ensures review { id_fault id ≡ None → IfOk result (λ early. IsCheckedReview early.review) }
{
    let decks = HeldDecks::read(alloc, keeper)?;
    let card = asked.card.copy()?;
    let home = decks.gone_home(card);
    let options = options_for(alloc, keeper, &home)?;
    let made = card_early(&options, asked, given.button, home);
    let review = review_early(&options, asked, given, id);
    Ok(Early { made, review })
}

/// The card after the answer, of the card as it is at home.
fn card_early(options: &Options, asked: &Asked, button: u8, home: Card) -> Card
    requires options { AreOptions options.now }
    requires card { AreEarlyColumns asked.now.card }
    requires day { IsDay asked.now.day }
    ensures { result ≡ card_made options.now asked.now button home }
{
    let ivl = early_ivl(options, asked.day, button, &asked.card);
    let mut made = home;
    made.due = day_after(asked.day, ivl);
    made.ivl = ivl as i64;
    made.factor = early_factor(button, &asked.card);
    made.reps = one_more(asked.card.reps);
    made
}

/// The day that comes so many days after this one.
fn day_after(day: Day, days: u64) -> i64
    requires day { IsDay day }
    requires days { days ≤ 100_000 }
    ensures { result ≡ day.number +ℤ pos days }
{
    day.number + days as i64
}

/// Its row of the review log, not sent yet.
fn review_early(options: &Options, asked: &Asked, given: &CardAnswer, id: i64) -> Review
    requires options { AreOptions options.now }
    requires card { AreEarlyColumns asked.now.card }
    requires day { IsDay asked.now.day }
    requires button { IsButton given.now.button }
    ensures { result ≡ review_early id given.now options.now asked.now.day asked.now.card }
{
    Review {
        id,
        cid: asked.card.id,
        usn: -1,
        ease: given.button as i64,
        ivl: early_ivl(options, asked.day, given.button, &asked.card) as i64,
        last_ivl: asked.card.ivl,
        factor: early_factor(given.button, &asked.card),
        time: counted_time(options, given.taken),
        kind: 3,
    }
}

/// The milliseconds of an answer that count: at most those that the options allow.
fn counted_time(options: &Options, taken: u32) -> i64
    requires { AreOptions options.now }
    ensures { result ≡ pos (min taken (1_000 * clamped_to_zero options.now.max_taken)) }
{
    (taken as u64).min(1_000 * clamped_to_zero(options.max_taken)) as i64
}

/// The edit that puts them.
fn change_of(alloc: Global, early: &Early) -> Result<Change, Memory>
    ensures { IfOk result (λ change. change ≡ early_over early.now unchanged) }
{
    let mut change = Change::new(alloc);
    let made = early.made.copy()?;
    change.put(Row::Card(made))?;
    change.put(Row::Review(early.review))?;
    Ok(change)
}
