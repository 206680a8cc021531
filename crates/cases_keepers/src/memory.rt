use crate::keepers::{answer_of_keeper, value_of};
use ak_base::List;
use ak_memory::MemoryKeeper;
use cases_lines::Unread;
use serde_json::Value;
use std::alloc::Global;

/// The answer to a command that a keeper in memory can follow alone.
pub fn answer_of(
    alloc: Global,
    keeper: &mut MemoryKeeper,
    word: &str,
    rest: &str,
) -> Result<String, Unread> {
    match word {
        "new" => new(alloc, keeper),
        "fail" => fail(alloc, keeper, rest),
        _ => answer_of_keeper(alloc, keeper, word, rest),
    }
}

fn new(alloc: Global, keeper: &mut MemoryKeeper) -> Result<String, Unread> {
    *keeper = MemoryKeeper::new(alloc);
    Ok(String::from_str(alloc, "ok")?)
}

/// `fail [CALL, ..]`: the calls that are to fail, counted from 0 from here on.
fn fail(alloc: Global, keeper: &mut MemoryKeeper, rest: &str) -> Result<String, Unread> {
    let calls = calls_of(alloc, rest)?;
    keeper.fail_at(calls);
    Ok(String::from_str(alloc, "ok")?)
}

/// The calls that are to fail, by `[CALL, ..]`.
pub fn calls_of(alloc: Global, rest: &str) -> Result<List<u64>, Unread> {
    let arguments = value_of(alloc, rest)?;
    calls_in(alloc, &arguments)
}

fn calls_in(alloc: Global, arguments: &Value) -> Result<List<u64>, Unread> {
    let mut calls = List::new(alloc);
    for call in arguments.as_array().ok_or(Unread::Bad)? {
        calls.push(call.as_u64().ok_or(Unread::Bad)?)?;
    }
    Ok(calls)
}
