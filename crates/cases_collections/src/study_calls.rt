ghost use Rattle.std.specs.Prelude.{◌≤◌, IfOk};

use crate::call_faults::fault_text;
use crate::calls::{done, ids_at, moment_at};
use crate::sessions::Session;
use ak_base::{Card, Row};
use ak_edit::DeskFault;
use ak_keep::{Keeper, Lookup};
use ak_study::{CardAnswer, answer, bury, start_day, suspend, unsuspend};
use cases_lines::{Unread, natural_at, number_at, row_text};
use serde_json::Value;
use std::alloc::Global;

/// `start-day [AT]`.
pub fn start_by(alloc: Global, session: &mut Session, arguments: &Value) -> Result<String, Unread> {
    if session.keeper.marked() || !session.keeper.held() {
        return Err(Unread::Bad);
    }
    let at = moment_at(arguments)?;
    done(
        alloc,
        start_day(&mut session.keeper, &mut session.steps, at),
    )
}

/// `suspend [AT, IDS]`.
pub fn suspend_by(
    alloc: Global,
    session: &mut Session,
    arguments: &Value,
) -> Result<String, Unread> {
    if session.keeper.marked() || !session.keeper.held() {
        return Err(Unread::Bad);
    }
    let at = moment_at(arguments)?;
    let cards = ids_at(alloc, arguments, 1)?;
    let made = suspend(
        &mut session.keeper,
        &mut session.steps,
        cards.as_slice(),
        at,
    );
    done(alloc, made)
}

/// `unsuspend [AT, IDS]`.
pub fn unsuspend_by(
    alloc: Global,
    session: &mut Session,
    arguments: &Value,
) -> Result<String, Unread> {
    if session.keeper.marked() || !session.keeper.held() {
        return Err(Unread::Bad);
    }
    let at = moment_at(arguments)?;
    let cards = ids_at(alloc, arguments, 1)?;
    let made = unsuspend(
        &mut session.keeper,
        &mut session.steps,
        cards.as_slice(),
        at,
    );
    done(alloc, made)
}

/// `bury [AT, IDS]`.
pub fn bury_by(alloc: Global, session: &mut Session, arguments: &Value) -> Result<String, Unread> {
    if session.keeper.marked() || !session.keeper.held() {
        return Err(Unread::Bad);
    }
    let at = moment_at(arguments)?;
    let cards = ids_at(alloc, arguments, 1)?;
    let made = bury(
        &mut session.keeper,
        &mut session.steps,
        cards.as_slice(),
        at,
    );
    done(alloc, made)
}

/// `answer [AT, WORD, CARD, BUTTON, TAKEN]`.
pub fn answer_by(
    alloc: Global,
    session: &mut Session,
    arguments: &Value,
) -> Result<String, Unread> {
    if session.keeper.marked() || !session.keeper.held() {
        return Err(Unread::Bad);
    }
    let at = moment_at(arguments)?;
    let given = answer_at(arguments)?;
    answered(
        alloc,
        answer(&mut session.keeper, &mut session.steps, &given, at),
    )
}

/// The answer that the arguments give from the second place on.
fn answer_at(arguments: &Value) -> Result<CardAnswer, Unread>
    ensures { IfOk result (λ given. (1 ≤ given.button) × (given.button ≤ 4)) }
{
    let button = natural_at(arguments, 3)?;
    let taken = natural_at(arguments, 4)?;
    if button < 1 || button > 4 || taken > 4_294_967_295 {
        return Err(Unread::Bad);
    }
    Ok(CardAnswer {
        card: number_at(arguments, 2)?,
        button: button as u8,
        taken: taken as u32,
        word: natural_at(arguments, 1)?,
    })
}

/// `answered` and the card that the call gives, or why it was refused.
fn answered(alloc: Global, answer: Result<Card, DeskFault>) -> Result<String, Unread> {
    match answer {
        Ok(card) => card_text(alloc, card),
        Err(fault) => fault_text(alloc, fault),
    }
}

/// `answered` and the card.
fn card_text(alloc: Global, card: Card) -> Result<String, Unread> {
    let row = row_text(alloc, &Row::Card(card))?;
    Ok(format!(in alloc; "answered {row}")?)
}
