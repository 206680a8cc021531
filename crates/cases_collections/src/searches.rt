use crate::faults::search_fault;
use ak_base::Day;
use ak_memory::MemoryKeeper;
use ak_search::{Expr, find, parse};
use cases_keepers::{failed, value_of};
use cases_lines::{Unread, listed, number_at, text_at};
use serde_json::Value;
use std::alloc::Global;

/// `search [TEXT]`: `search`, or the first fault of the text.
pub fn faults_of(alloc: Global, rest: &str) -> Result<String, Unread> {
    let arguments = value_of(alloc, rest)?;
    match parse(alloc, text_at(&arguments, 0)?) {
        Ok(_) => Ok(String::from_str(alloc, "search")?),
        Err(fault) => search_fault(alloc, fault),
    }
}

/// `find [CRT, NOW, TEXT]`: the ids of the cards that the text finds on that day.
pub fn found(alloc: Global, keeper: &mut MemoryKeeper, rest: &str) -> Result<String, Unread> {
    let arguments = value_of(alloc, rest)?;
    found_at(alloc, keeper, &arguments)
}

fn found_at(alloc: Global, keeper: &mut MemoryKeeper, arguments: &Value) -> Result<String, Unread> {
    let crt = number_at(arguments, 0)?;
    let now = number_at(arguments, 1)?;
    if crt < 0 || crt > 4_294_967_295 || now < 0 || now > 4_294_967_294_999 {
        return Err(Unread::Bad);
    }
    match parse(alloc, text_at(arguments, 2)?) {
        Ok(expr) => found_by(alloc, keeper, &expr, Day::of(crt, now)),
        Err(fault) => search_fault(alloc, fault),
    }
}

fn found_by(
    alloc: Global,
    keeper: &mut MemoryKeeper,
    expr: &Expr,
    day: Day,
) -> Result<String, Unread> {
    match find(alloc, expr, keeper, day) {
        Ok(ids) => listed(alloc, ids.as_slice()),
        Err(fault) => failed(alloc, fault),
    }
}
