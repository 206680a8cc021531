ghost use Rattle.std.specs.List.{range_with_len};
ghost use Rattle.std.specs.Prelude.{◌≡◌, ◌≤◌, ◌<◌, ◌++◌, true, false, IfOk, OnOk, codes, decimal};
ghost use Rattle.ak_edit.specs.Refusals.{DeskCause};
ghost use Rattle.ak_keep.specs.Keepers.{is_marked};
ghost use Rattle.ak_makes.specs.Days.{AddsNote, AnswersCard, DoesDay, EditsInTurn, answer_count, answer_moment, given_answer, new_note, words_before_answer, words_before_new_note};
ghost use Rattle.ak_made_collections.specs.Sizes.{IsSize};
ghost use Rattle.ak_study.specs.Answers.{IsButton};

use ak_base::{List, Memory, Text};
use ak_edit::DeskFault;
use ak_keep::Keeper;
use ak_made_collections::{MakePlan, cards_before, made_id, nth_word, words_before_note};
use ak_notes::{NewNote, add_note};
use ak_study::{CardAnswer, answer};
use ak_undo::UndoList;
use std::alloc::Global;

/// The most cards that are answered.
const MOST_ANSWERS: u64 = 180;

/// How many notes are added.
pub(crate) const NEW_NOTES: u64 = 12;

/// The moment of the first answer, in milliseconds.
const FIRST_ANSWER: u64 = 1_700_000_001_000;

/// How far the answers lie apart, in milliseconds.
const PAUSE: u64 = 1_000;

/// The moment at which the notes are added, in milliseconds.
const ADDITION_MOMENT: i64 = 1_700_000_200_000;

/// Does the day of work on a device that has the collection of the plan: answers the first cards by their ids, and then adds notes, each as
/// an edit of its own.
pub(crate) fn do_day<K: Keeper>(
    keeper: &mut K,
    undo: &mut UndoList,
    plan: MakePlan,
) -> Result<(), DeskFault>
    requires unmarked { is_marked (K.keeping keeper.old) ≡ false }
    requires held { (K.keeping keeper.old).headed.current ≡ true }
    ensures ok { OnOk result (DoesDay plan.seed plan.size.notes
        (K.keeping keeper.old) (K.keeping keeper.new) undo.old undo.new) }
    ensures stays { (K.keeping keeper.new).headed ≡ (K.keeping keeper.old).headed }
    ensures cause { DeskCause (K.health keeper.old) (K.health keeper.new) result }
{
    answer_cards(keeper, undo, plan)?;
    add_notes(keeper, undo, plan)
}

/// Answers the first cards by their ids.
fn answer_cards<K: Keeper>(
    keeper: &mut K,
    undo: &mut UndoList,
    plan: MakePlan,
) -> Result<(), DeskFault>
    requires unmarked { is_marked (K.keeping keeper.old) ≡ false }
    requires held { (K.keeping keeper.old).headed.current ≡ true }
    ensures ok { OnOk result (EditsInTurn (AnswersCard plan.seed plan.size.notes) (range_with_len 0 (answer_count plan.size.notes))
        (K.keeping keeper.old) (K.keeping keeper.new) undo.old undo.new) }
    ensures stays { (K.keeping keeper.new).headed ≡ (K.keeping keeper.old).headed }
    ensures cause { DeskCause (K.health keeper.old) (K.health keeper.new) result }
{
    let count = answer_count(plan.size.notes);
    for number in 0..count {
        answer_one(keeper, undo, plan, number)?;
    }
    Ok(())
}

/// Answers the card of this number, counted from 0.
fn answer_one<K: Keeper>(
    keeper: &mut K,
    undo: &mut UndoList,
    plan: MakePlan,
    number: u64,
) -> Result<(), DeskFault>
    requires unmarked { is_marked (K.keeping keeper.old) ≡ false }
    requires held { (K.keeping keeper.old).headed.current ≡ true }
    requires few { number < 180 }
    ensures ok { OnOk result (AnswersCard plan.seed plan.size.notes number
        (K.keeping keeper.old) (K.keeping keeper.new) undo.old undo.new) }
    ensures stays { (K.keeping keeper.new).headed ≡ (K.keeping keeper.old).headed }
    ensures cause { DeskCause (K.health keeper.old) (K.health keeper.new) result }
{
    let given = given_answer(plan, number);
    answer(keeper, undo, &given, answer_moment(number))?;
    Ok(())
}

/// How the card of this number is answered.
fn given_answer(plan: MakePlan, number: u64) -> CardAnswer
    requires few { number < 180 }
    ensures is { result ≡ given_answer plan.seed plan.size.notes number }
    ensures button { IsButton result.button }
{
    let words = words_before_answer(plan.size.notes, number);
    CardAnswer {
        card: made_id(number),
        button: (1 + nth_word(plan.seed, words) % 4) as u8,
        taken: 5_000,
        word: nth_word(plan.seed, words + 1),
    }
}

/// How many words come before those of the answer of this number.
fn words_before_answer(size: u64, number: u64) -> u64
    requires size { IsSize size }
    requires few { number ≤ 180 }
    ensures count { result ≡ words_before_answer size number }
    ensures few { result < 2_000_000 }
{
    words_before_note(size) + 2 * number
}

/// When it is answered, in milliseconds.
fn answer_moment(number: u64) -> i64
    requires few { number < 180 }
    ensures { result ≡ answer_moment number }
{
    (FIRST_ANSWER + PAUSE * number) as i64
}

/// How many cards are answered on a device with a collection of so many notes.
pub(crate) fn answer_count(size: u64) -> u64
    requires { IsSize size }
    ensures count { result ≡ answer_count size }
    ensures few { result ≤ 180 }
{
    cards_before(size).min(MOST_ANSWERS)
}

/// Adds the new notes.
fn add_notes<K: Keeper>(
    keeper: &mut K,
    undo: &mut UndoList,
    plan: MakePlan,
) -> Result<(), DeskFault>
    requires unmarked { is_marked (K.keeping keeper.old) ≡ false }
    requires held { (K.keeping keeper.old).headed.current ≡ true }
    ensures ok { OnOk result (EditsInTurn (AddsNote plan.seed plan.size.notes) (range_with_len 0 12)
        (K.keeping keeper.old) (K.keeping keeper.new) undo.old undo.new) }
    ensures stays { (K.keeping keeper.new).headed ≡ (K.keeping keeper.old).headed }
    ensures cause { DeskCause (K.health keeper.old) (K.health keeper.new) result }
{
    for number in 0..NEW_NOTES {
        add_one(keeper, undo, plan, number)?;
    }
    Ok(())
}

/// Adds the new note of this number, counted from 0.
fn add_one<K: Keeper>(
    keeper: &mut K,
    undo: &mut UndoList,
    plan: MakePlan,
    number: u64,
) -> Result<(), DeskFault>
    requires unmarked { is_marked (K.keeping keeper.old) ≡ false }
    requires held { (K.keeping keeper.old).headed.current ≡ true }
    requires few { number < 12 }
    ensures ok { OnOk result (AddsNote plan.seed plan.size.notes number
        (K.keeping keeper.old) (K.keeping keeper.new) undo.old undo.new) }
    ensures stays { (K.keeping keeper.new).headed ≡ (K.keeping keeper.old).headed }
    ensures cause { DeskCause (K.health keeper.old) (K.health keeper.new) result }
{
    let new = new_note(undo.allocator(), plan, number)?;
    add_note(keeper, undo, &new, ADDITION_MOMENT)?;
    Ok(())
}

/// The new note of this number.
fn new_note(alloc: Global, plan: MakePlan, number: u64) -> Result<NewNote, Memory>
    requires few { number < 12 }
    ensures { IfOk result (λ new. new ≡ new_note plan.seed plan.size.notes number) }
{
    let front = front_of_new(alloc, number + 1)?;
    let mut fields = List::new(alloc);
    fields.push(front)?;
    fields.push(Text::of(alloc, "x")?)?;
    let words = words_before_new_note(plan.size.notes, number);
    Ok(NewNote {
        note_type: 1,
        deck: 1,
        guid: None,
        fields,
        tags: List::new(alloc),
        chance: nth_word(plan.seed, words),
    })
}

/// How many words come before that of the new note of this number.
fn words_before_new_note(size: u64, number: u64) -> u64
    requires size { IsSize size }
    requires few { number < 12 }
    ensures { result ≡ words_before_new_note size number }
{
    words_before_answer(size, answer_count(size)) + number
}

/// The first field of the new note of this number, counted from 1.
fn front_of_new(alloc: Global, number: u64) -> Result<Text, Memory>
    ensures { IfOk result (λ text. text ≡ codes "new " ++ decimal number) }
{
    let text = format!(in alloc; "new {number}")?;
    Ok(Text::from(text))
}
