use crate::calls::{added, done, moment_at};
use crate::sessions::Session;
use ak_deck_paths::{RenameDeck, add_deck, rename_deck};
use ak_deck_trees::delete_deck;
use ak_keep::{Keeper, Lookup};
use cases_lines::{Unread, number_at, text_at};
use serde_json::Value;
use std::alloc::Global;

/// `add-deck [AT, PATH]`.
pub fn add_by(alloc: Global, session: &mut Session, arguments: &Value) -> Result<String, Unread> {
    if session.keeper.marked() || !session.keeper.held() {
        return Err(Unread::Bad);
    }
    let at = number_at(arguments, 0)?;
    let path = text_at(arguments, 1)?;
    added(
        alloc,
        add_deck(&mut session.keeper, &mut session.steps, path, at),
    )
}

/// `rename-deck [AT, DECK, PATH]`.
pub fn rename_by(
    alloc: Global,
    session: &mut Session,
    arguments: &Value,
) -> Result<String, Unread> {
    if session.keeper.marked() || !session.keeper.held() {
        return Err(Unread::Bad);
    }
    let at = number_at(arguments, 0)?;
    let rename = RenameDeck {
        deck: number_at(arguments, 1)?,
        path: text_at(arguments, 2)?,
    };
    done(
        alloc,
        rename_deck(&mut session.keeper, &mut session.steps, &rename, at),
    )
}

/// `delete-deck [AT, DECK]`.
pub fn delete_by(
    alloc: Global,
    session: &mut Session,
    arguments: &Value,
) -> Result<String, Unread> {
    if session.keeper.marked() || !session.keeper.held() {
        return Err(Unread::Bad);
    }
    let at = moment_at(arguments)?;
    let deck = number_at(arguments, 1)?;
    done(
        alloc,
        delete_deck(&mut session.keeper, &mut session.steps, deck, at),
    )
}
