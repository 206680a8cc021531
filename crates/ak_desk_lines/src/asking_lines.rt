ghost use Rattle.std.specs.Prelude.{◌≡◌, true, IfErr, IfOk, IfSome, OnErr, OnOk};
ghost use Rattle.ak_base.specs.Days.{IsDayOf};
ghost use Rattle.ak_desk.specs.Desks.{IsIdle};
ghost use Rattle.ak_desk_language.specs.declared.desk_lines.DeskLine.TheVariants as lines;
ghost use Rattle.ak_desk_lines.specs.Accepted.{IsOnDay, answer_with, card_answer, counts_answer, of_queue, of_queue_fault};
ghost use Rattle.ak_desk_lines.specs.LineEnds.{EndsAt};
ghost use Rattle.ak_desk_texts.specs.declared.answers.DeskAnswer.TheVariants as answers;
ghost use Rattle.ak_edit.specs.Refusals.{AnswersBy, DeskCause, IsEndFault};
ghost use Rattle.ak_keep.specs.Keepers.{WhereHeld};
ghost use Rattle.ak_keep.specs.Readings.{ReadsBy};
ghost use Rattle.ak_study.specs.Answers.{IsButton};
ghost use Rattle.ak_study.specs.DayStarts.{IsInDay, RefusesStart, StartsDay};

use crate::turns::Turn;
use ak_base::{Card, Day, Name, Table};
use ak_desk::Desk;
use ak_desk_texts::DeskAnswer;
use ak_edit::DeskFault;
use ak_keep::{KeepFault, Keeper};
use ak_queue::{Counts, Progress, QueueFault, counts, next};
use ak_study::CardAnswer;

/// `answer`: answers a card.
pub(crate) fn answer_card<K: Keeper>(
    desk: &mut Desk<K>,
    card: i64,
    button: u8,
    taken: u32,
    turn: Turn,
) -> Result<DeskAnswer, DeskFault>
    requires idle { IsIdle (K.keeping desk.old.keeper.now) }
    requires moment { IsInDay turn.at }
    requires button { IsButton button }
    ensures ends { EndsAt K.Lookup (lines.Answer card button taken) turn desk.old desk.new result }
    ensures cause { DeskCause (K.health desk.old.keeper.now) (K.health desk.new.keeper.now) result }
    ensures lent { (desk.new.keeper.ghost_name ≡ desk.old.keeper.ghost_name)
        × (desk.new.undo.ghost_name ≡ desk.old.undo.ghost_name) }
{
    let given = CardAnswer {
        card,
        button,
        taken,
        word: turn.chance,
    };
    answered(desk.answer(&given, turn.at))
}

/// The answer for a card that was answered: where it is now.
pub fn answered(made: Result<Card, DeskFault>) -> Result<DeskAnswer, DeskFault>
    ensures { result ≡ answer_with card_answer made }
{
    let card = made?;
    Ok(DeskAnswer::Answered {
        queue: card.queue,
        due: card.due,
        interval: card.ivl,
    })
}

/// `next`: starts the day, and then gives the next card of a deck.
pub(crate) fn ask_next<K: Keeper>(
    desk: &mut Desk<K>,
    deck: i64,
    turn: Turn,
) -> Result<DeskAnswer, DeskFault>
    requires idle { IsIdle (K.keeping desk.old.keeper.now) }
    requires moment { IsInDay turn.at }
    ensures ends { EndsAt K.Lookup (lines.Next deck) turn desk.old desk.new result }
    ensures cause { DeskCause (K.health desk.old.keeper.now) (K.health desk.new.keeper.now) result }
    ensures lent { (desk.new.keeper.ghost_name ≡ desk.old.keeper.ghost_name)
        × (desk.new.undo.ghost_name ≡ desk.old.undo.ghost_name) }
{
    let alloc = desk.undo.allocator();
    let day = start_on(desk, turn.at)?;
    let progress = Progress {
        day,
        done: turn.done,
    };
    next_card(next(alloc, desk.keeper, deck, progress))
}

/// The answer for the next card of a queue.
fn next_card(asked: Result<Option<i64>, QueueFault>) -> Result<DeskAnswer, DeskFault>
    ensures { result ≡ answer_with answers.Next (of_queue asked) }
{
    match asked {
        Ok(card) => Ok(DeskAnswer::Next(card)),
        Err(fault) => Err(desk_fault(fault)),
    }
}

/// `counts`: starts the day, and then counts what a deck asks for.
pub(crate) fn ask_counts<K: Keeper>(
    desk: &mut Desk<K>,
    deck: i64,
    turn: Turn,
) -> Result<DeskAnswer, DeskFault>
    requires idle { IsIdle (K.keeping desk.old.keeper.now) }
    requires moment { IsInDay turn.at }
    ensures ends { EndsAt K.Lookup (lines.Counts deck) turn desk.old desk.new result }
    ensures cause { DeskCause (K.health desk.old.keeper.now) (K.health desk.new.keeper.now) result }
    ensures lent { (desk.new.keeper.ghost_name ≡ desk.old.keeper.ghost_name)
        × (desk.new.undo.ghost_name ≡ desk.old.undo.ghost_name) }
{
    let alloc = desk.undo.allocator();
    let day = start_on(desk, turn.at)?;
    asked_counts(counts(alloc, desk.keeper, deck, day))
}

/// The answer for the counts of a queue.
fn asked_counts(asked: Result<Counts, QueueFault>) -> Result<DeskAnswer, DeskFault>
    ensures { result ≡ answer_with counts_answer (of_queue asked) }
{
    match asked {
        Ok(counts) => Ok(DeskAnswer::Counts {
            new_cards: counts.new_cards,
            learning: counts.learning,
            reviews: counts.reviews,
        }),
        Err(fault) => Err(desk_fault(fault)),
    }
}

/// Starts the day of a moment in milliseconds, and gives it.
fn start_on<K: Keeper>(desk: &mut Desk<K>, at: i64) -> Result<Day, DeskFault>
    requires idle { IsIdle (K.keeping desk.old.keeper.now) }
    requires moment { IsInDay at }
    ensures day { IfOk result (λ day. IsOnDay at (K.keeping desk.old.keeper.now) day) }
    ensures ok { OnOk result (StartsDay at (K.keeping desk.old.keeper.now) (K.keeping desk.new.keeper.now)
        desk.old.undo.now desk.new.undo.now) }
    ensures err { OnErr result (K.keeping desk.new.keeper.now ≡ K.keeping desk.old.keeper.now) }
    ensures kept { OnErr result (desk.new.undo.now ≡ desk.old.undo.now) }
    ensures stays { (K.keeping desk.new.keeper.now).headed ≡ (K.keeping desk.old.keeper.now).headed }
    ensures refused { WhereHeld (K.keeping desk.old.keeper.now) (λ c. AnswersBy (RefusesStart at c) result) }
    ensures listed { IfErr result IsEndFault }
    ensures cause { DeskCause (K.health desk.old.keeper.now) (K.health desk.new.keeper.now) result }
    ensures lent { (desk.new.keeper.ghost_name ≡ desk.old.keeper.ghost_name)
        × (desk.new.undo.ghost_name ≡ desk.old.undo.ghost_name) }
{
    let day = match day_of(desk.keeper, at) {
        Ok(day) => day,
        Err(fault) => return Err(DeskFault::from(fault)),
    };
    desk.start_day(at)?;
    Ok(day)
}

/// The day of a moment in milliseconds, for the collection that is held.
pub(crate) fn day_of<K: Keeper>(keeper: &mut K, at: i64) -> Result<Day, KeepFault>
    requires held { (K.keeping keeper.old).headed.current ≡ true }
    requires moment { IsInDay at }
    ensures reads { ReadsBy K.Lookup keeper.old keeper.new result
        (λ h day. IfSome h.head (λ head. IsDayOf head.crt at day)) }
{
    // For the proof alone: it says that what the keeper gives is in range.
    let _checks = keeper.marked();
    let Some(head) = keeper.head()? else {
        unreachable!();
    };
    Ok(Day::of(head.crt, at))
}

/// A fault of a queue as one of the desk.
fn desk_fault(fault: QueueFault) -> DeskFault
    ensures { result ≡ of_queue_fault fault }
{
    match fault {
        QueueFault::NoDeck(id) => DeskFault::NoSuch(Name {
            table: Table::Deck,
            id,
        }),
        QueueFault::Failed => DeskFault::Failed,
        QueueFault::Memory => DeskFault::Memory,
    }
}
