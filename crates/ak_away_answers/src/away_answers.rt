// The answers of any cards, of those too that are away from home.
ghost use Rattle.std.specs.Prelude.{◌≡◌, true, false, IfErr, IfOk, IfSome};
ghost use Rattle.ak_base.specs.Cards.{IsCheckedCard};
ghost use Rattle.ak_base.specs.Days.{IsDay};
ghost use Rattle.ak_edit.specs.Refusals.{DeskCause};
ghost use Rattle.ak_away_answers.specs.AwayAnswers.{EndsAnyAnswer, can_answer_away};
ghost use Rattle.ak_away_answers.specs.Answering.{EndsSentHome, IsAskedOn, IsAskedIfAway};
ghost use Rattle.ak_keep.specs.Keepers.{WhereHeld, WhereTold, is_marked};
ghost use Rattle.ak_keep.specs.Readings.{ReadsBy};
ghost use Rattle.ak_study.specs.Answers.{IsAnswerFault, IsButton};
ghost use Rattle.ak_study.specs.DayStarts.{IsInDay};

use crate::early_answers::{Asked, answer_early};
use ak_base::Card;
use ak_edit::DeskFault;
use ak_filtered::{is_away, read_day, send_home};
use ak_keep::{KeepFault, Keeper, card_at};
use ak_study::{CardAnswer, answer};
use ak_undo::UndoList;

/// Answers a card at a moment in milliseconds, and gives the card as it is after its answer, with the stamp from before. A card at home
/// is answered as by `ak_study::answer`. One that is away, in whatever deck it lies, is refused if it is neither a new one in queue 0 nor a
/// review in queue 2. An early answer (Hard, Good or Easy of a review that is not due at home yet) is one commit, which
/// clears the undo list: the card goes home with an early interval, no counts rise, no siblings are buried and no day is started. Any
/// other answer sends the card home in a commit of its own, which clears the undo list, and is then as that of a card at home; if it
/// is refused there, the card is at home and all else is as it was.
pub fn answer_any<K: Keeper>(
    keeper: &mut K,
    steps: &mut UndoList,
    given: &CardAnswer,
    at: i64,
) -> Result<Card, DeskFault>
    requires unmarked { is_marked (K.keeping keeper.old) ≡ false }
    requires held { (K.keeping keeper.old).headed.current ≡ true }
    requires moment { IsInDay at }
    requires button { IsButton given.now.button }
    ensures ends { WhereHeld (K.keeping keeper.old) (λ c. EndsAnyAnswer at given.now c
        (K.keeping keeper.old) (K.keeping keeper.new) steps.old steps.new result) }
    ensures stays { (K.keeping keeper.new).headed ≡ (K.keeping keeper.old).headed }
    ensures listed { IfErr result (IsAnswerFault given.now.card) }
    ensures cause { DeskCause (K.health keeper.old) (K.health keeper.new) result }
{
    let asked = match ask(keeper, given.card, at) {
        Ok(asked) => asked,
        Err(fault) => return Err(DeskFault::from(fault)),
    };
    match asked {
        Some(asked) => answer_away(keeper, steps, &asked, given, at),
        None => answer(keeper, steps, given, at),
    }
}

/// The card of this id with its day, if it is held and away.
fn ask<K: Keeper>(keeper: &mut K, id: i64, at: i64) -> Result<Option<Asked>, KeepFault>
    requires held { (K.keeping keeper.old).headed.current ≡ true }
    requires moment { IsInDay at }
    ensures reads { ReadsBy K.Lookup keeper.old keeper.new result (λ h asked. IsAskedIfAway at id h asked) }
    ensures checked { IfOk result (λ asked. IfSome asked (λ one. IsCheckedCard one.card × IsDay one.day)) }
{
    // For the proof alone: it says that what the keeper gives passes its check.
    let _checks = keeper.marked();
    let found = card_at(keeper, id)?;
    let Some(card) = found else {
        return Ok(None);
    };
    if !is_away(&card) {
        return Ok(None);
    }
    let day = read_day(keeper, at)?;
    Ok(Some(Asked { card, day }))
}

/// Answers a card that is away.
fn answer_away<K: Keeper>(
    keeper: &mut K,
    steps: &mut UndoList,
    asked: &Asked,
    given: &CardAnswer,
    at: i64,
) -> Result<Card, DeskFault>
    requires unmarked { is_marked (K.keeping keeper.old) ≡ false }
    requires held { (K.keeping keeper.old).headed.current ≡ true }
    requires moment { IsInDay at }
    requires button { IsButton given.now.button }
    requires card { IsCheckedCard asked.now.card }
    requires day { IsDay asked.now.day }
    requires asked { WhereTold (K.keeping keeper.old) (IsAskedOn at given.now.card asked.now) }
    ensures ends { WhereHeld (K.keeping keeper.old) (λ c. EndsAnyAnswer at given.now c
        (K.keeping keeper.old) (K.keeping keeper.new) steps.old steps.new result) }
    ensures stays { (K.keeping keeper.new).headed ≡ (K.keeping keeper.old).headed }
    ensures listed { IfErr result (IsAnswerFault given.now.card) }
    ensures cause { DeskCause (K.health keeper.old) (K.health keeper.new) result }
{
    if !can_answer_away(&asked.card) {
        return Err(DeskFault::NotAnswerable(asked.card.queue));
    }
    if asked.is_early(given.button) {
        return answer_early(keeper, steps, asked, given, at);
    }
    answer_from_home(keeper, steps, given, at)
}

/// Sends the card home, and answers it there.
fn answer_from_home<K: Keeper>(
    keeper: &mut K,
    steps: &mut UndoList,
    given: &CardAnswer,
    at: i64,
) -> Result<Card, DeskFault>
    requires unmarked { is_marked (K.keeping keeper.old) ≡ false }
    requires held { (K.keeping keeper.old).headed.current ≡ true }
    requires moment { IsInDay at }
    requires button { IsButton given.now.button }
    ensures ends { WhereHeld (K.keeping keeper.old) (λ c. EndsSentHome at given.now c
        (K.keeping keeper.old) (K.keeping keeper.new) steps.old steps.new result) }
    ensures stays { (K.keeping keeper.new).headed ≡ (K.keeping keeper.old).headed }
    ensures listed { IfErr result (IsAnswerFault given.now.card) }
    ensures cause { DeskCause (K.health keeper.old) (K.health keeper.new) result }
{
    send_home(keeper, steps, &[given.card], at)?;
    answer(keeper, steps, given, at)
}

/// Whether a card that is away can be answered: a new one in queue 0, or a review in queue 2.
fn can_answer_away(card: &Card) -> bool
    ensures { result ≡ can_answer_away card.now }
{
    matches!((card.queue, card.kind), (0, 0) | (2, 2))
}
