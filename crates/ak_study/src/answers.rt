ghost use Rattle.std.specs.Prelude.{◌≡◌, ◌⊎◌, true, false, Some, None, is_some, IfErr, IfOk, IfSome, IsTrue, OnErr, OnOk};
ghost use Rattle.std.specs.FinMap.{get};
ghost use Rattle.std.specs.Option.{option_map};
ghost use Rattle.ak_base.specs.Cards.{IsCheckedCard};
ghost use Rattle.ak_base.specs.Days.{IsDay};
ghost use Rattle.ak_base.specs.declared.names.Table.TheVariants as tables;
ghost use Rattle.ak_base.specs.declared.rows.Row.TheVariants as rows;
ghost use Rattle.ak_edit.specs.Overlays.{put_over, tag_over};
ghost use Rattle.ak_edit.specs.Refusals.{AnswersBy, DeskCause, IsFromOutside};
ghost use Rattle.ak_edit.specs.declared.desk_faults.DeskFault.TheVariants as faults;
ghost use Rattle.ak_edit_calls.specs.Calls.{RefusesAbsent};
ghost use Rattle.ak_keep.specs.Keepers.{WhereHeld, WhereTold, is_marked};
ghost use Rattle.ak_keep.specs.Lookups.{card_at};
ghost use Rattle.ak_keep.specs.Readings.{ReadsBy};
ghost use Rattle.ak_merge.specs.Holdings.{name_in};
ghost use Rattle.ak_sched.specs.Answers.{can_answer};
ghost use Rattle.ak_study.specs.Answers.{Answers, IsAnswerFault, IsAskedFault, IsButton, IsCardFault, RefusesAnswer, RefusesAsked, answer_put, leech_put};
ghost use Rattle.ak_study.specs.Asking.{IsAnswerable, IsAsked, IsFilled, IsFilledOf, IsOnly, IsPrepared, RefusesBegun};
ghost use Rattle.ak_study.specs.DayStarts.{IsInDay, card_begun};
ghost use Rattle.ak_study.specs.LeechTags.{leech_tag, leech_tagged};

use crate::answerings::{AnswerKey, Answering, answer_card};
use crate::day_starts::{Begun, begin_day};
use crate::deck_counts::count_answer;
use crate::leech_tags::{leech_tag, leech_tagged};
use crate::siblings::{bury_siblings, siblings_of};
use ak_base::{Card, Day, Memory, Name, Note, Row, Table};
use ak_edit::{Change, DeskFault};
use ak_edit_calls::{first_name, held_row};
use ak_keep::{KeepFault, Keeper, note_at};
use ak_sched::can_answer;
use ak_undo::UndoList;
use std::alloc::Global;

/// How a card was answered.
#[derive(Clone, Copy, Debug)]
pub struct CardAnswer {
    /// The id of the card.
    pub card: i64,
    /// 1 Again, 2 Hard, 3 Good, 4 Easy.
    pub button: u8,
    /// How long the answer took, in milliseconds.
    pub taken: u32,
    /// The word of chance that puts a step off, or picks the day of a fuzzed interval.
    pub word: u64,
}

/// Answers a card at a moment in milliseconds, and gives the card as the scheduler makes it: its stamp and its update sequence
/// number are still those from before. One edit starts the day, as `start_day` does; changes the card; logs the review; counts it
/// in the card's deck and in those above; gives the tag `leech` to the note of a leech; and buries other cards of the note. It is
/// refused if the card is not held; if it can't be answered once the day has started; if no id is free for the review; for a row
/// that is made, the tags of a note being the only ones that can grow too long; and then for a stamp or a moment that can't rise.
/// But for the day's start it reads the cards of the note and, for a new card or a review, all decks.
pub fn answer<K: Keeper>(
    keeper: &mut K,
    steps: &mut UndoList,
    given: &CardAnswer,
    at: i64,
) -> Result<Card, DeskFault>
    requires unmarked { is_marked (K.keeping keeper.old) ≡ false }
    requires held { (K.keeping keeper.old).headed.current ≡ true }
    requires moment { IsInDay at }
    requires button { IsButton given.now.button }
    ensures ok { IfOk result (Answers at given.now (K.keeping keeper.old) (K.keeping keeper.new) steps.old steps.new) }
    ensures err { OnErr result (K.keeping keeper.new ≡ K.keeping keeper.old) }
    ensures kept { OnErr result (steps.new ≡ steps.old) }
    ensures stays { (K.keeping keeper.new).headed ≡ (K.keeping keeper.old).headed }
    ensures refused { WhereHeld (K.keeping keeper.old) (λ c. AnswersBy (RefusesAnswer at given.now c) result) }
    ensures listed { IfErr result (IsAnswerFault given.now.card) }
    ensures cause { DeskCause (K.health keeper.old) (K.health keeper.new) result }
{
    let filled = fill_answer(steps.allocator(), keeper, given, at)?;
    let Filled {
        begun: _,
        change,
        answering,
    } = filled;
    change.finish(keeper, steps, at)?;
    Ok(answering.made)
}

/// An edit that starts the day and answers a card.
#[derive(Drop)]
pub(crate) struct Filled {
    pub(crate) begun: Begun,
    pub(crate) change: Change,
    pub(crate) answering: Answering,
}

/// The edit, if the card can be answered.
fn fill_answer<K: Keeper>(
    alloc: Global,
    keeper: &mut K,
    given: &CardAnswer,
    at: i64,
) -> Result<Filled, DeskFault>
    requires held { (K.keeping keeper.old).headed.current ≡ true }
    requires moment { IsInDay at }
    requires button { IsButton given.now.button }
    ensures same { K.keeping keeper.new ≡ K.keeping keeper.old }
    ensures ok { IfOk result (λ filled. WhereTold (K.keeping keeper.old) (IsFilled at given.now filled)) }
    ensures only { IfOk result (λ filled. IsOnly given.now filled) }
    ensures refused { WhereHeld (K.keeping keeper.old) (λ c. AnswersBy (RefusesAsked at given.now.card c) result) }
    ensures listed { IfErr result (λ fault. IsFromOutside fault ⊎ IsAskedFault given.now.card fault) }
    ensures cause { DeskCause (K.health keeper.old) (K.health keeper.new) result }
{
    let asked = ask(alloc, keeper, given.card, at)?;
    let filled = fill(alloc, keeper, asked, given)?;
    Ok(filled)
}

/// A card that can be answered, and the edit that has begun its day.
#[derive(Drop)]
pub(crate) struct Asked {
    pub(crate) change: Change,
    pub(crate) begun: Begun,
    /// The card once the day has begun.
    pub(crate) card: Card,
    /// The id of the review.
    pub(crate) review: i64,
}

/// The card of this id and the id of its review, if the card can be answered.
fn ask<K: Keeper>(alloc: Global, keeper: &mut K, id: i64, at: i64) -> Result<Asked, DeskFault>
    requires held { (K.keeping keeper.old).headed.current ≡ true }
    requires moment { IsInDay at }
    ensures same { K.keeping keeper.new ≡ K.keeping keeper.old }
    ensures ok { IfOk result (λ asked. WhereTold (K.keeping keeper.old) (IsAsked at id asked)) }
    ensures can { IfOk result IsAnswerable }
    ensures refused { WhereHeld (K.keeping keeper.old) (λ c. AnswersBy (RefusesAsked at id c) result) }
    ensures listed { IfErr result (λ fault. IsFromOutside fault ⊎ IsAskedFault id fault) }
    ensures cause { DeskCause (K.health keeper.old) (K.health keeper.new) result }
{
    let prepared = prepare(alloc, keeper, at)?;
    let Prepared {
        change,
        begun,
        free,
    } = prepared;
    let card = answerable_card(keeper, begun, id)?;
    let review = review_id(free)?;
    Ok(Asked {
        change,
        begun,
        card,
        review,
    })
}

/// An edit that has begun the day, and the free name for a review.
#[derive(Drop)]
pub(crate) struct Prepared {
    pub(crate) change: Change,
    pub(crate) begun: Begun,
    pub(crate) free: Option<Name>,
}

/// Begins the day and looks for a free name.
fn prepare<K: Keeper>(alloc: Global, keeper: &mut K, at: i64) -> Result<Prepared, KeepFault>
    requires held { (K.keeping keeper.old).headed.current ≡ true }
    requires moment { IsInDay at }
    ensures reads { ReadsBy K.Lookup keeper.old keeper.new result (λ h prepared. IsPrepared at prepared h) }
    ensures day { IfOk result (λ prepared. IsDay prepared.begun.day) }
{
    let mut change = Change::new(alloc);
    let free = keeper.free_name(first_name(Table::Review, at))?;
    let begun = begin_day(keeper, &mut change, at)?;
    Ok(Prepared {
        change,
        begun,
        free,
    })
}

/// The card of this id, if it can be answered once the day has begun.
fn answerable_card<K: Keeper>(keeper: &mut K, begun: Begun, id: i64) -> Result<Card, DeskFault>
    ensures same { K.keeping keeper.new ≡ K.keeping keeper.old }
    ensures ok { IfOk result (λ card. WhereTold (K.keeping keeper.old) (λ h.
        option_map (card_begun begun) (card_at h.rows id) ≡ Some card)) }
    ensures can { IfOk result (λ card. IsTrue (can_answer card)) }
    ensures checked { IfOk result IsCheckedCard }
    ensures refused { WhereTold (K.keeping keeper.old) (λ h. AnswersBy (RefusesBegun begun id h.rows) result) }
    ensures listed { IfErr result (λ fault. IsFromOutside fault ⊎ IsCardFault id fault) }
    ensures cause { DeskCause (K.health keeper.old) (K.health keeper.new) result }
{
    let held = held_card(keeper, id)?;
    answerable(begun.card(held))
}

/// The card of this id.
fn held_card<K: Keeper>(keeper: &mut K, id: i64) -> Result<Card, DeskFault>
    ensures same { K.keeping keeper.new ≡ K.keeping keeper.old }
    ensures ok { IfOk result (λ card. WhereTold (K.keeping keeper.old) (λ h. card_at h.rows id ≡ Some card)) }
    ensures checked { IfOk result IsCheckedCard }
    ensures refused { WhereTold (K.keeping keeper.old) (λ h.
        AnswersBy (RefusesAbsent (get h.rows) (name_in tables.Card id)) result) }
    ensures listed { IfErr result (λ fault. IsFromOutside fault ⊎ (fault ≡ faults.NoSuch (name_in tables.Card id))) }
    ensures cause { DeskCause (K.health keeper.old) (K.health keeper.new) result }
{
    let name = Name {
        table: Table::Card,
        id,
    };
    match held_row(keeper, name)? {
        Row::Card(card) => Ok(card),
        _ => unreachable!(),
    }
}

/// The card, if it can be answered.
fn answerable(card: Card) -> Result<Card, DeskFault>
    ensures ok { IfOk result (λ made. (made ≡ card) × IsTrue (can_answer card)) }
    ensures err { IfErr result (λ fault. (can_answer card ≡ false) × (fault ≡ faults.NotAnswerable card.queue)) }
{
    if !can_answer(&card) {
        return Err(DeskFault::NotAnswerable(card.queue));
    }
    Ok(card)
}

/// The id of the review, if one is free.
fn review_id(free: Option<Name>) -> Result<i64, DeskFault>
    ensures ok { IfOk result (λ id. IfSome free (λ name. id ≡ name.id)) }
    ensures some { OnOk result (IsTrue (is_some free)) }
    ensures err { IfErr result (λ fault. (free ≡ None) × (fault ≡ faults.IdEnd)) }
{
    match free {
        Some(name) => Ok(name.id),
        None => Err(DeskFault::IdEnd),
    }
}

/// The edit that answers the card that was asked for.
fn fill<K: Keeper>(
    alloc: Global,
    keeper: &mut K,
    asked: Asked,
    given: &CardAnswer,
) -> Result<Filled, KeepFault>
    requires can { IsAnswerable asked }
    requires button { IsButton given.now.button }
    ensures reads { ReadsBy K.Lookup keeper.old keeper.new result (λ h filled. IsFilledOf asked given.now filled h) }
    ensures only { IfOk result (λ filled. IsOnly given.now filled) }
{
    let Asked {
        change,
        begun,
        card,
        review,
    } = asked;
    let key = AnswerKey {
        day: begun.day,
        review,
    };
    let answering = answer_card(alloc, keeper, card, given, key)?;
    let mut change = change;
    put_answering(keeper, &mut change, begun.day, &answering)?;
    Ok(Filled {
        begun,
        change,
        answering,
    })
}

/// Puts all that the answer changes besides the day's start.
fn put_answering<K: Keeper>(
    keeper: &mut K,
    change: &mut Change,
    day: Day,
    answering: &Answering,
) -> Result<(), KeepFault>
    ensures reads { ReadsBy K.Lookup keeper.old keeper.new result (λ h _.
        change.new ≡ answer_put day h.rows answering.now change.old) }
{
    let siblings = siblings_of(keeper, change, day, answering)?;
    bury_siblings(keeper, change, siblings.as_slice())?;
    put_made(change, answering)?;
    count_answer(keeper, change, day, &answering.was)?;
    tag_leech(siblings.allocator(), keeper, change, answering)?;
    Ok(())
}

/// Puts the card that was answered and its review.
fn put_made(change: &mut Change, answering: &Answering) -> Result<(), Memory>
    ensures { OnOk result (change.new ≡
        put_over (rows.Review answering.now.answered.review) (put_over (rows.Card answering.now.made) change.old)) }
{
    let made = answering.made.copy()?;
    change.put(Row::Card(made))?;
    change.put(Row::Review(answering.answered.review))?;
    Ok(())
}

/// Gives the tag of a leech to the note of one, if it is held.
fn tag_leech<K: Keeper>(
    alloc: Global,
    keeper: &mut K,
    change: &mut Change,
    answering: &Answering,
) -> Result<(), KeepFault>
    ensures reads { ReadsBy K.Lookup keeper.old keeper.new result (λ h _.
        change.new ≡ leech_put h.rows answering.now change.old) }
{
    if !answering.answered.leech {
        return Ok(());
    }
    match note_at(keeper, answering.was.nid)? {
        Some(note) => {
            put_tagged(alloc, change, note)?;
            Ok(())
        }
        None => Ok(()),
    }
}

/// Puts the note with the tag of a leech, and the tag.
fn put_tagged(alloc: Global, change: &mut Change, note: Note) -> Result<(), Memory>
    ensures { OnOk result (change.new ≡ tag_over leech_tag (put_over (rows.Note (leech_tagged note)) change.old)) }
{
    let tagged = leech_tagged(alloc, note)?;
    change.put(Row::Note(tagged))?;
    let tag = leech_tag(alloc)?;
    change.add_tag(tag)?;
    Ok(())
}
