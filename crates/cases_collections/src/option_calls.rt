use crate::calls::{added, done, moment_at};
use crate::sessions::Session;
use ak_base::Options;
use ak_keep::{Keeper, Lookup};
use ak_options::{DeleteOptions, add_options, delete_options, set_options, set_spread};
use cases_lines::{Unread, number_at, options_at};
use serde_json::Value;
use std::alloc::Global;

/// `set-options [AT, GROUP, ID, STAMP, USN, TAKEN]`.
pub fn set_by(alloc: Global, session: &mut Session, arguments: &Value) -> Result<String, Unread> {
    if session.keeper.marked() || !session.keeper.held() {
        return Err(Unread::Bad);
    }
    let at = moment_at(arguments)?;
    let options = group_at(alloc, arguments)?;
    done(
        alloc,
        set_options(&mut session.keeper, &mut session.steps, options, at),
    )
}

/// `add-options [AT, GROUP, ID, STAMP, USN, TAKEN]`.
pub fn add_by(alloc: Global, session: &mut Session, arguments: &Value) -> Result<String, Unread> {
    if session.keeper.marked() || !session.keeper.held() {
        return Err(Unread::Bad);
    }
    let at = number_at(arguments, 0)?;
    let options = group_at(alloc, arguments)?;
    added(
        alloc,
        add_options(&mut session.keeper, &mut session.steps, options, at),
    )
}

/// `delete-options [AT, OPTIONS, ALLOW]`.
pub fn delete_by(
    alloc: Global,
    session: &mut Session,
    arguments: &Value,
) -> Result<String, Unread> {
    if session.keeper.marked() || !session.keeper.held() {
        return Err(Unread::Bad);
    }
    let at = moment_at(arguments)?;
    let options = number_at(arguments, 1)?;
    let allow = truth_at(arguments, 2)?;
    let wanted = DeleteOptions { options, allow };
    done(
        alloc,
        delete_options(&mut session.keeper, &mut session.steps, &wanted, at),
    )
}

/// `set-spread [AT, VALUE]`.
pub fn spread_by(
    alloc: Global,
    session: &mut Session,
    arguments: &Value,
) -> Result<String, Unread> {
    if session.keeper.marked() || !session.keeper.held() {
        return Err(Unread::Bad);
    }
    let at = moment_at(arguments)?;
    let value = number_at(arguments, 1)?;
    if value < 0 || value > 2 {
        return Err(Unread::Bad);
    }
    done(
        alloc,
        set_spread(&mut session.keeper, &mut session.steps, value, at),
    )
}

/// The group at the second place, with the id, stamp, usn and longest time that follow it: a group that is
/// read is in its ranges, and these four may be out of them.
fn group_at(alloc: Global, arguments: &Value) -> Result<Options, Unread> {
    let [id, stamp, usn, taken] = numbers_behind(arguments)?;
    let mut group = options_at(alloc, arguments, 1)?;
    group.id = id;
    group.stamp = stamp;
    group.usn = usn;
    group.max_taken = taken;
    Ok(group)
}

/// The four numbers behind the second place of the arguments.
pub fn numbers_behind(arguments: &Value) -> Result<[i64; 4], Unread> {
    Ok([
        number_at(arguments, 2)?,
        number_at(arguments, 3)?,
        number_at(arguments, 4)?,
        number_at(arguments, 5)?,
    ])
}

/// The truth value at a place of the arguments.
pub fn truth_at(arguments: &Value, place: usize) -> Result<bool, Unread> {
    match arguments.get(place) {
        Some(value) => value.as_bool().ok_or(Unread::Bad),
        None => Err(Unread::Bad),
    }
}
