// What an answer reads of a card, and what the scheduler makes of it.
ghost use Rattle.std.specs.Prelude.{◌≡◌, ◌≤◌, IfOk, IfSome, IsTrue};
ghost use Rattle.ak_base.specs.Cards.{IsCheckedCard};
ghost use Rattle.ak_base.specs.Days.{IsDay};
ghost use Rattle.ak_base.specs.OptionGroups.{IsCheckedOptions};
ghost use Rattle.ak_keep.specs.Readings.{ReadsBy};
ghost use Rattle.ak_sched.specs.Answers.{IsSameButSchedule, can_answer};
ghost use Rattle.ak_study.specs.Answers.{AreOptionsFor, AreThese, IsButton};
ghost use Rattle.ak_study.specs.Scheduling.{IsOnlyScheduled, IsScheduled};

use crate::answers::CardAnswer;
use ak_base::{Card, Day, Memory, Options};
use ak_keep::{KeepFault, Keeper, options_of_card};
use ak_sched::{Answered, answer};
use std::alloc::Global;

/// A card that was answered.
#[derive(Debug, Drop)]
pub(crate) struct Answering {
    /// The card before, as the day's start leaves it.
    pub(crate) was: Card,
    pub(crate) options: Options,
    /// The card after, as the scheduler makes it.
    pub(crate) made: Card,
    pub(crate) answered: Answered,
}

/// The day of an answer, and the id of its review.
#[derive(Clone, Copy, Debug)]
pub(crate) struct AnswerKey {
    pub(crate) day: Day,
    pub(crate) review: i64,
}

/// Answers the card by its options.
pub(crate) fn answer_card<K: Keeper>(
    alloc: Global,
    keeper: &mut K,
    card: Card,
    given: &CardAnswer,
    key: AnswerKey,
) -> Result<Answering, KeepFault>
    requires can { IsTrue (can_answer card) }
    requires checked { IsCheckedCard card }
    requires day { IsDay key.day }
    requires button { IsButton given.now.button }
    ensures reads { ReadsBy K.Lookup keeper.old keeper.new result (λ h a. AreOptionsFor h.rows card a.options) }
    ensures was { IfOk result (λ a. a.was ≡ card) }
    ensures id { IfOk result (λ a. a.answered.review.id ≡ key.review) }
    ensures scheduled { IfOk result (IsScheduled given.now key.day) }
    ensures only { IfOk result (IsOnlyScheduled given.now key.day) }
    ensures same { IfOk result (λ a. IsSameButSchedule a.was a.made) }
{
    let options = options_for(alloc, keeper, &card)?;
    let mut made = card.copy()?;
    let answered = answer(
        &mut made,
        &options,
        given.button,
        key.day,
        given.word,
        given.taken,
        key.review,
    );
    Ok(Answering {
        was: card,
        options,
        made,
        answered,
    })
}

/// The options of a card: those of its deck, options 1 if its deck or its options are not held, and those that a collection opens with
/// if options 1 are not held either.
pub fn options_for<K: Keeper>(
    alloc: Global,
    keeper: &mut K,
    card: &Card,
) -> Result<Options, KeepFault>
    ensures reads { ReadsBy K.Lookup keeper.old keeper.new result (λ h options. AreOptionsFor h.rows card.now options) }
    ensures checked { IfOk result IsCheckedOptions }
{
    // For the proof alone: it says that what the keeper gives passes its check.
    let _checks = keeper.marked();
    let found = options_of_card(keeper, card)?;
    let options = or_opening(alloc, found)?;
    Ok(options)
}

/// These options, and those that a collection opens with if there are none.
#[tactic(auto, using(ak_base::proofs::OpeningOptions::opening_passes))]
fn or_opening(alloc: Global, found: Option<Options>) -> Result<Options, Memory>
    requires { IfSome found IsCheckedOptions }
    ensures these { IfOk result (AreThese found) }
    ensures checked { IfOk result IsCheckedOptions }
{
    match found {
        Some(options) => Ok(options),
        None => {
            let opening = Options::opening(alloc, 0)?;
            Ok(opening)
        }
    }
}
