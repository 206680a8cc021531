ghost use Rattle.std.specs.Prelude.{◌≡◌, ◌++◌, IfOk, length, decimal, codes};
ghost use Rattle.ak_desk_texts.specs.AnswerTexts.{answer_text, answered_text, check_fault_text, counts_text, ids_text, note_text};

use crate::pieces::{id_after, id_between, joined, number_after, with_id, with_number};
use ak_base::{List, Memory, Text};
use ak_merge::CheckFault;
use std::alloc::Global;

/// What the desk answers to a line that it obeyed.
#[derive(Debug, Drop)]
pub enum DeskAnswer {
    /// An edit that tells no more: `ok`.
    Done,
    /// `note <id> cards <ids>`
    AddedNote {
        note: i64,
        cards: List<i64>,
    },
    /// `deck <id>`
    AddedDeck(i64),
    /// A group was added or set: `options <id>`.
    PutOptions(i64),
    /// `type <id>`
    AddedType(i64),
    /// The card's queue, due and interval after the answer: `answered queue <q> due <d> ivl <i>`.
    Answered {
        queue: i64,
        due: i64,
        interval: i64,
    },
    /// The next card, if there is one: `card <id>` or `none`.
    Next(Option<i64>),
    /// How many cards a deck's queues hold: `new <n> learning <n> review <n>`.
    Counts {
        new_cards: u64,
        learning: u64,
        reviews: u64,
    },
    /// How many cards a search found, and their ids: `found <n> <ids>`.
    Found(List<i64>),
    /// The page of a side of a card.
    Page(Text),
    /// `sound`, or the first fault of the collection.
    Checked(Option<CheckFault>),
    /// How many cards moved into a filtered deck: `built <n>`.
    Built(u64),
    /// How many cards went home from a filtered deck: `emptied <n>`.
    Emptied(u64),
}

/// The text of an answer, without a line feed at its end.
pub fn write_answer(alloc: Global, answer: &DeskAnswer) -> Result<Text, Memory>
    ensures { IfOk result (λ text. text ≡ answer_text answer.now) }
{
    match answer {
        DeskAnswer::Done => Text::of(alloc, "ok"),
        DeskAnswer::AddedNote { note, cards } => write_note(alloc, *note, cards.as_slice()),
        DeskAnswer::AddedDeck(deck) => id_after(alloc, "deck ", *deck),
        DeskAnswer::PutOptions(options) => id_after(alloc, "options ", *options),
        DeskAnswer::AddedType(note_type) => id_after(alloc, "type ", *note_type),
        DeskAnswer::Answered {
            queue,
            due,
            interval,
        } => write_answered(alloc, *queue, *due, *interval),
        DeskAnswer::Next(Some(card)) => id_after(alloc, "card ", *card),
        DeskAnswer::Next(None) => Text::of(alloc, "none"),
        DeskAnswer::Counts {
            new_cards,
            learning,
            reviews,
        } => write_counts(alloc, *new_cards, *learning, *reviews),
        DeskAnswer::Found(cards) => write_found(alloc, cards.as_slice()),
        DeskAnswer::Page(text) => text.copy(),
        DeskAnswer::Checked(Some(fault)) => write_check_fault(alloc, *fault),
        DeskAnswer::Checked(None) => Text::of(alloc, "sound"),
        DeskAnswer::Built(count) => number_after(alloc, "built ", *count),
        DeskAnswer::Emptied(count) => number_after(alloc, "emptied ", *count),
    }
}

/// The ids of a note that was added and of its cards.
fn write_note(alloc: Global, note: i64, cards: &[i64]) -> Result<Text, Memory>
    ensures { IfOk result (λ text. text ≡ note_text note cards.now) }
{
    let ids = ids_text(alloc, cards)?;
    let text = id_between(alloc, "note ", note, " cards")?;
    joined(alloc, text.as_str(), ids.as_str())
}

/// Where a card is after its answer.
fn write_answered(alloc: Global, queue: i64, due: i64, interval: i64) -> Result<Text, Memory>
    ensures { IfOk result (λ text. text ≡ answered_text queue due interval) }
{
    let text = id_after(alloc, "answered queue ", queue)?;
    let text = with_id(alloc, text.as_str(), " due ", due)?;
    with_id(alloc, text.as_str(), " ivl ", interval)
}

/// How many cards are left.
fn write_counts(alloc: Global, new_cards: u64, learning: u64, reviews: u64) -> Result<Text, Memory>
    ensures { IfOk result (λ text. text ≡ counts_text new_cards learning reviews) }
{
    let text = number_after(alloc, "new ", new_cards)?;
    let text = with_number(alloc, text.as_str(), " learning ", learning)?;
    with_number(alloc, text.as_str(), " review ", reviews)
}

/// How many cards were found, and their ids.
fn write_found(alloc: Global, cards: &[i64]) -> Result<Text, Memory>
    ensures { IfOk result (λ text. text ≡ codes "found " ++ decimal (length cards.now) ++ ids_text cards.now) }
{
    let ids = ids_text(alloc, cards)?;
    let text = number_after(alloc, "found ", cards.len() as u64)?;
    joined(alloc, text.as_str(), ids.as_str())
}

/// Each id with a space before it.
fn ids_text(alloc: Global, ids: &[i64]) -> Result<Text, Memory>
    ensures { IfOk result (λ text. text ≡ ids_text ids.now) }
{
    let mut text = String::new(alloc);
    for id in ids {
        let id = *id;
        let word = format!(in alloc; " {id}")?;
        text.push_str(word.as_str())?;
    }
    Ok(Text::from(text))
}

/// The text of the first fault of a collection.
pub fn write_check_fault(alloc: Global, fault: CheckFault) -> Result<Text, Memory>
    ensures { IfOk result (λ text. text ≡ check_fault_text fault) }
{
    match fault {
        CheckFault::CardNoNote(card) => id_between(alloc, "card ", card, " without note"),
        CheckFault::NoteNoCard(note) => id_between(alloc, "note ", note, " without card"),
        CheckFault::NoteNoType(note) => id_between(alloc, "note ", note, " without type"),
        CheckFault::CardNoTemplate(card) => id_between(alloc, "card ", card, " without template"),
    }
}
