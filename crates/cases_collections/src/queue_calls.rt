use crate::calls::moment_at;
use crate::sessions::Session;
use ak_base::{Day, Name, Table};
use ak_keep::Lookup;
use ak_queue::{Progress, QueueFault, counts, next};
use cases_keepers::name_text;
use cases_lines::{Unread, named, natural_at, number_at};
use serde_json::Value;
use std::alloc::Global;

/// `next [AT, DECK, DONE]`.
pub fn next_by(alloc: Global, session: &mut Session, arguments: &Value) -> Result<String, Unread> {
    let deck = number_at(arguments, 1)?;
    let done = natural_at(arguments, 2)?;
    let day = day_at(session, arguments)?;
    let progress = Progress { day, done };
    match next(alloc, &mut session.keeper, deck, progress) {
        Ok(Some(card)) => Ok(format!(in alloc; "card {card}")?),
        Ok(None) => Ok(String::from_str(alloc, "none")?),
        Err(fault) => queue_fault(alloc, fault),
    }
}

/// `counts [AT, DECK]`.
pub fn counts_by(
    alloc: Global,
    session: &mut Session,
    arguments: &Value,
) -> Result<String, Unread> {
    let deck = number_at(arguments, 1)?;
    let day = day_at(session, arguments)?;
    match counts(alloc, &mut session.keeper, deck, day) {
        Ok(counts) => {
            let new_cards = counts.new_cards;
            let learning = counts.learning;
            let reviews = counts.reviews;
            Ok(format!(in alloc; "new {new_cards} learning {learning} review {reviews}")?)
        }
        Err(fault) => queue_fault(alloc, fault),
    }
}

/// The day of the moment at the first place of the arguments, of a collection whose head can be read.
fn day_at(session: &mut Session, arguments: &Value) -> Result<Day, Unread> {
    let at = moment_at(arguments)?;
    match session.keeper.head() {
        Ok(Some(head)) => Ok(Day::of(head.crt, at)),
        _ => Err(Unread::Bad),
    }
}

/// Why a day's queue is refused, in words.
fn queue_fault(alloc: Global, fault: QueueFault) -> Result<String, Unread> {
    match fault {
        QueueFault::NoDeck(id) => {
            let name = Name {
                table: Table::Deck,
                id,
            };
            let text = name_text(alloc, Some(name))?;
            Ok(named(alloc, "no such ", text.as_str())?)
        }
        QueueFault::Failed => Ok(String::from_str(alloc, "failed")?),
        QueueFault::Memory => Err(Unread::Ended),
    }
}
