use crate::faults::check_fault;
use ak_base::{Row, cut};
use ak_keep::Keeper;
use ak_memory::MemoryKeeper;
use ak_merge::{Side, apart, check, newer, take_row};
use cases_keepers::{failed, name_text, row_of, value_of};
use cases_lines::{Unread, row_at, table_of, text_at, truth};
use serde_json::Value;
use std::alloc::Global;

/// The first fault of the collection, or `sound`.
pub fn checked(alloc: Global, keeper: &mut MemoryKeeper) -> Result<String, Unread> {
    match check(keeper) {
        Ok(fault) => check_fault(alloc, fault),
        Err(fault) => failed(alloc, fault),
    }
}

/// `take SIDE USN TABLE JSON`: takes the row as it came in a sync, as a `device` or a `server`, and tells whether it is held now.
pub fn take(alloc: Global, keeper: &mut MemoryKeeper, rest: &str) -> Result<String, Unread> {
    let (side, rest) = cut(rest, " ").ok_or(Unread::Bad)?;
    let side = side_named(side).ok_or(Unread::Bad)?;
    let (usn, row) = cut(rest, " ").ok_or(Unread::Bad)?;
    let usn = usn.parse::<i64>().ok().ok_or(Unread::Bad)?;
    let row = row_of(alloc, row)?;
    taken(alloc, keeper, side, usn, row)
}

/// The side of this name.
fn side_named(word: &str) -> Option<Side> {
    match word {
        "device" => Some(Side::Device),
        "server" => Some(Side::Server),
        _ => None,
    }
}

fn taken(
    alloc: Global,
    keeper: &mut MemoryKeeper,
    side: Side,
    usn: i64,
    row: Row,
) -> Result<String, Unread> {
    if !keeper.marked() || usn < 0 || usn > 2_147_483_647 || row.check().is_err() {
        return Err(Unread::Bad);
    }
    match take_row(keeper, row, usn, side) {
        Ok(true) => Ok(String::from_str(alloc, "taken")?),
        Ok(false) => Ok(String::from_str(alloc, "not taken")?),
        Err(fault) => failed(alloc, fault),
    }
}

/// `both apart`: the first name by which the two sides are not apart.
pub fn answer_of_both(
    alloc: Global,
    first: &mut MemoryKeeper,
    second: &mut MemoryKeeper,
    word: &str,
) -> Result<String, Unread> {
    match word {
        "apart" => match apart(first, second) {
            Ok(name) => name_text(alloc, name),
            Err(fault) => failed(alloc, fault),
        },
        _ => Err(Unread::Bad),
    }
}

/// `newer [TABLE, ROW, TABLE, ROW]`: whether the second is a newer row of the same name.
pub fn newer_of(alloc: Global, rest: &str) -> Result<String, Unread> {
    let arguments = value_of(alloc, rest)?;
    newer_at(alloc, &arguments)
}

fn newer_at(alloc: Global, arguments: &Value) -> Result<String, Unread> {
    let held = row_at(alloc, arguments, 1, table_of(text_at(arguments, 0)?)?)?;
    newer_than(alloc, &held, arguments)
}

fn newer_than(alloc: Global, held: &Row, arguments: &Value) -> Result<String, Unread> {
    let came = row_at(alloc, arguments, 3, table_of(text_at(arguments, 2)?)?)?;
    truth(alloc, newer(held, &came))
}
