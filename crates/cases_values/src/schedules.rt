ghost use Rattle.std.specs.Prelude.{◌≤◌, ◌<◌, IfOk};
ghost use Rattle.ak_base.specs.Days.{IsDay};

use crate::rows::told_row;
use ak_base::{Card, Day, Options, Review, Row};
use ak_sched::{Answered, answer, can_answer, fuzz_range, is_leech};
use cases_lines::{Unread, card_at, natural_at, number_at, options_at, truth};
use serde_json::Value;
use std::alloc::Global;

/// `fuzz [IVL]`: the least and the greatest interval that chance may make of it.
pub fn fuzz(alloc: Global, arguments: &Value) -> Result<String, Unread> {
    let ivl = number_at(arguments, 0)?;
    if ivl > 1_000_000_000 {
        return Err(Unread::Bad);
    }
    let (low, high) = fuzz_range(ivl);
    Ok(format!(in alloc; "{low} {high}")?)
}

/// `leech [LAPSES, LEECH-FAILS]`.
pub fn leech(alloc: Global, arguments: &Value) -> Result<String, Unread> {
    truth(
        alloc,
        is_leech(number_at(arguments, 0)?, number_at(arguments, 1)?),
    )
}

/// `can-answer [CARD]`.
pub fn can_be_answered(alloc: Global, arguments: &Value) -> Result<String, Unread> {
    let card = card_at(alloc, arguments, 0)?;
    truth(alloc, can_answer(&card))
}

/// How a card is answered.
#[derive(Clone, Copy)]
struct Turn {
    button: u8,
    day: Day,
    word: u64,
    taken: u32,
    review: i64,
}

/// `answer [CARD, OPTIONS, BUTTON, CRT, NOW, WORD, TAKEN, REVIEW-ID]`: the card after it, the review, and whether it is a leech.
pub fn answered(alloc: Global, arguments: &Value) -> Result<String, Unread> {
    let turn = turn_at(arguments)?;
    let card = card_at(alloc, arguments, 0)?;
    let options = options_at(alloc, arguments, 1)?;
    answered_at(alloc, card, &options, turn)
}

fn turn_at(arguments: &Value) -> Result<Turn, Unread>
    ensures { IfOk result (λ turn. (1 ≤ turn.button) × (turn.button ≤ 4) × IsDay turn.day) }
{
    let button = natural_at(arguments, 2)?;
    let taken = natural_at(arguments, 6)?;
    if button < 1 || button > 4 || taken > 4_294_967_295 {
        return Err(Unread::Bad);
    }
    let day = day_at(arguments, 3)?;
    Ok(Turn {
        button: button as u8,
        day,
        word: natural_at(arguments, 5)?,
        taken: taken as u32,
        review: number_at(arguments, 7)?,
    })
}

/// The day of the two numbers from a place on: when the collection was made, and the moment.
pub fn day_at(arguments: &Value, place: usize) -> Result<Day, Unread>
    requires { place < 4 }
    ensures { IfOk result IsDay }
{
    let crt = number_at(arguments, place)?;
    let now = number_at(arguments, place + 1)?;
    if crt < 0 || crt > 4_294_967_295 || now < 0 || now > 4_294_967_294_999 {
        return Err(Unread::Bad);
    }
    Ok(Day::of(crt, now))
}

fn answered_at(alloc: Global, card: Card, options: &Options, turn: Turn) -> Result<String, Unread>
    requires low { 1 ≤ turn.button }
    requires high { turn.button ≤ 4 }
    requires day { IsDay turn.day }
{
    let mut card = card;
    if !can_answer(&card) || card.check().is_err() || options.check().is_err() {
        return Err(Unread::Bad);
    }
    let answered = answer(
        &mut card,
        options,
        turn.button,
        turn.day,
        turn.word,
        turn.taken,
        turn.review,
    );
    told(alloc, card, answered)
}

fn told(alloc: Global, card: Card, answered: Answered) -> Result<String, Unread> {
    let review = review_text(alloc, answered.review)?;
    let card = card_text(alloc, card)?;
    let leech = answered.leech;
    Ok(format!(in alloc; "{card} {review} leech {leech}")?)
}

fn card_text(alloc: Global, card: Card) -> Result<String, Unread> {
    told_row(alloc, Row::Card(card))
}

fn review_text(alloc: Global, review: Review) -> Result<String, Unread> {
    told_row(alloc, Row::Review(review))
}
