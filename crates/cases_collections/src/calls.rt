ghost use Rattle.std.specs.Prelude.{◌≤ℤ◌, pos, IfOk};

use crate::call_faults::fault_text;
use crate::sessions::Session;
use crate::{deck_calls, note_calls, option_calls, queue_calls, study_calls, type_calls};
use ak_decks::{FlagCards, MoveCards, UseOptions, flag, move_cards, use_options};
use ak_edit::{DeskFault, undo};
use ak_keep::{Keeper, Lookup};
use ak_notes::delete_notes;
use cases_keepers::value_of;
use cases_lines::{Unread, list_at, number_at};
use serde_json::Value;
use std::alloc::Global;

/// The answer to an editing call, over a keeper that holds a head and is not marked.
pub fn call(
    alloc: Global,
    session: &mut Session,
    word: &str,
    rest: &str,
) -> Result<String, Unread> {
    if session.keeper.marked() || !session.keeper.held() {
        return Err(Unread::Bad);
    }
    let arguments = value_of(alloc, rest)?;
    match word {
        "flag" => flag_by(alloc, session, &arguments),
        "move-cards" => move_by(alloc, session, &arguments),
        "use-options" => use_by(alloc, session, &arguments),
        "delete-notes" => delete_by(alloc, session, &arguments),
        "add-deck" => deck_calls::add_by(alloc, session, &arguments),
        "rename-deck" => deck_calls::rename_by(alloc, session, &arguments),
        "delete-deck" => deck_calls::delete_by(alloc, session, &arguments),
        "add-note" => note_calls::add_by(alloc, session, &arguments),
        "edit-note" => note_calls::edit_by(alloc, session, &arguments),
        "set-options" => option_calls::set_by(alloc, session, &arguments),
        "add-options" => option_calls::add_by(alloc, session, &arguments),
        "delete-options" => option_calls::delete_by(alloc, session, &arguments),
        "set-spread" => option_calls::spread_by(alloc, session, &arguments),
        "add-type" => type_calls::add_by(alloc, session, &arguments),
        "edit-type" => type_calls::edit_by(alloc, session, &arguments),
        "delete-type" => type_calls::delete_by(alloc, session, &arguments),
        "start-day" => study_calls::start_by(alloc, session, &arguments),
        "suspend" => study_calls::suspend_by(alloc, session, &arguments),
        "unsuspend" => study_calls::unsuspend_by(alloc, session, &arguments),
        "bury" => study_calls::bury_by(alloc, session, &arguments),
        "answer" => study_calls::answer_by(alloc, session, &arguments),
        "next" => queue_calls::next_by(alloc, session, &arguments),
        "counts" => queue_calls::counts_by(alloc, session, &arguments),
        _ => undo_by(alloc, session, &arguments),
    }
}

/// `flag [AT, IDS, VALUE]`.
fn flag_by(alloc: Global, session: &mut Session, arguments: &Value) -> Result<String, Unread> {
    if session.keeper.marked() || !session.keeper.held() {
        return Err(Unread::Bad);
    }
    let at = moment_at(arguments)?;
    let value = number_at(arguments, 2)?;
    if value < 0 || value > 7 {
        return Err(Unread::Bad);
    }
    let cards = ids_at(alloc, arguments, 1)?;
    let wanted = FlagCards {
        cards: cards.as_slice(),
        value,
    };
    done(
        alloc,
        flag(&mut session.keeper, &mut session.steps, &wanted, at),
    )
}

/// `move-cards [AT, IDS, DECK]`.
fn move_by(alloc: Global, session: &mut Session, arguments: &Value) -> Result<String, Unread> {
    if session.keeper.marked() || !session.keeper.held() {
        return Err(Unread::Bad);
    }
    let at = moment_at(arguments)?;
    let deck = number_at(arguments, 2)?;
    let cards = ids_at(alloc, arguments, 1)?;
    let wanted = MoveCards {
        cards: cards.as_slice(),
        deck,
    };
    done(
        alloc,
        move_cards(&mut session.keeper, &mut session.steps, &wanted, at),
    )
}

/// `use-options [AT, DECK, OPTIONS]`.
fn use_by(alloc: Global, session: &mut Session, arguments: &Value) -> Result<String, Unread> {
    if session.keeper.marked() || !session.keeper.held() {
        return Err(Unread::Bad);
    }
    let at = moment_at(arguments)?;
    let deck = number_at(arguments, 1)?;
    let options = number_at(arguments, 2)?;
    let wanted = UseOptions { deck, options };
    done(
        alloc,
        use_options(&mut session.keeper, &mut session.steps, &wanted, at),
    )
}

/// `delete-notes [AT, IDS]`.
fn delete_by(alloc: Global, session: &mut Session, arguments: &Value) -> Result<String, Unread> {
    if session.keeper.marked() || !session.keeper.held() {
        return Err(Unread::Bad);
    }
    let at = moment_at(arguments)?;
    let notes = ids_at(alloc, arguments, 1)?;
    let made = delete_notes(
        &mut session.keeper,
        &mut session.steps,
        notes.as_slice(),
        at,
    );
    done(alloc, made)
}

/// `undo [AT]`.
fn undo_by(alloc: Global, session: &mut Session, arguments: &Value) -> Result<String, Unread> {
    if session.keeper.marked() || !session.keeper.held() {
        return Err(Unread::Bad);
    }
    let at = moment_at(arguments)?;
    done(alloc, undo(&mut session.keeper, &mut session.steps, at))
}

/// The moment at the first place of the arguments, in milliseconds, that a clock may tell.
pub fn moment_at(arguments: &Value) -> Result<i64, Unread>
    ensures { IfOk result (λ at. (pos 0 ≤ℤ at) × (at ≤ℤ pos 4_294_967_294_999)) }
{
    let at = number_at(arguments, 0)?;
    if at < 0 || at > 4_294_967_294_999 {
        return Err(Unread::Bad);
    }
    Ok(at)
}

/// The ids at a place of the arguments.
pub fn ids_at(alloc: Global, arguments: &Value, place: usize) -> Result<Vec<i64>, Unread> {
    let mut ids = Vec::new(alloc);
    for value in list_at(arguments, place)? {
        ids.push(value.as_i64().ok_or(Unread::Bad)?)?;
    }
    Ok(ids)
}

/// `added` and the id, or why the call was refused.
pub fn added(alloc: Global, answer: Result<i64, DeskFault>) -> Result<String, Unread> {
    match answer {
        Ok(id) => Ok(format!(in alloc; "added {id}")?),
        Err(fault) => fault_text(alloc, fault),
    }
}

/// `ok`, or why the call was refused.
pub fn done(alloc: Global, answer: Result<(), DeskFault>) -> Result<String, Unread> {
    match answer {
        Ok(()) => Ok(String::from_str(alloc, "ok")?),
        Err(fault) => fault_text(alloc, fault),
    }
}
