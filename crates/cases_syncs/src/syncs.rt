use crate::crossings::Crossing;
use crate::errands::{Errand, Task, errand_at};
use crate::intercepted_wires::InterceptedWire;
use crate::liars::Liar;
use crate::lies::lie_at;
use crate::servers::Host;
use ak_base::{List, cut};
use ak_client::Outcome;
use ak_memory::MemoryKeeper;
use ak_sync_in_memory::{LoopWire, Mishap, NothingBetween, What};
use cases_accounts::moment_at;
use cases_keepers::value_of;
use cases_lines::{Unread, list_at, natural_at, text_at};
use serde_json::Value;
use std::alloc::Global;
use std::mem;

/// Who acts on the wire of an errand.
#[derive(Clone, Copy)]
pub enum Actor {
    Nobody,
    Liar,
    OtherDevice,
}

/// The task of a command's word, and who acts on its wire.
pub fn errand_of(word: &str) -> Option<(Task, Actor)> {
    match word {
        "sync" => Some((Task::Sync, Actor::Nobody)),
        "upload-over" => Some((Task::Upload, Actor::Nobody)),
        "download-over" => Some((Task::Download, Actor::Nobody)),
        "lie" => Some((Task::Sync, Actor::Liar)),
        "lie-upload" => Some((Task::Upload, Actor::Liar)),
        "lie-download" => Some((Task::Download, Actor::Liar)),
        "cross" => Some((Task::Sync, Actor::OtherDevice)),
        "cross-upload" => Some((Task::Upload, Actor::OtherDevice)),
        "cross-download" => Some((Task::Download, Actor::OtherDevice)),
        _ => None,
    }
}

/// `sync HOST [SESSION, AT, CLOCK, LATER, MISHAPS]`, or another task: how it ended, and how many calls it made.
pub fn undisturbed(
    alloc: Global,
    task: Task,
    keeper: &mut MemoryKeeper,
    host: &mut Host,
    rest: &str,
) -> Result<String, Unread> {
    let (key, rest) = cut(rest, " ").ok_or(Unread::Bad)?;
    let arguments = value_of(alloc, rest)?;
    let mut errand = errand_at(alloc, task, key, &arguments, 0)?;
    let wire = wire_at(alloc, host, &arguments)?;
    by_wire(alloc, keeper, host, wire, &mut errand)
}

fn by_wire(
    alloc: Global,
    keeper: &mut MemoryKeeper,
    host: &mut Host,
    mut wire: LoopWire<NothingBetween>,
    errand: &mut Errand,
) -> Result<String, Unread> {
    let outcome = errand.over(alloc, keeper, &mut wire);
    let calls = host.take_back(wire);
    outcome_text(alloc, outcome?, calls)
}

/// `lie HOST [SESSION, AT, CLOCK, LATER, MISHAPS, FROM, METHOD, STATUS, BODY, PART, NUMBER, NAME]`: the same over a wire that
/// answers this from a call on, in place of what the server says. PART, NUMBER and NAME may be left out.
pub fn lied_to(
    alloc: Global,
    task: Task,
    keeper: &mut MemoryKeeper,
    host: &mut Host,
    rest: &str,
) -> Result<String, Unread> {
    let (key, rest) = cut(rest, " ").ok_or(Unread::Bad)?;
    let arguments = value_of(alloc, rest)?;
    let mut errand = errand_at(alloc, task, key, &arguments, 0)?;
    let liar = liar_at(alloc, &arguments)?;
    let wire = wire_at(alloc, host, &arguments)?;
    by_liar(
        alloc,
        keeper,
        host,
        InterceptedWire::new(wire, liar),
        &mut errand,
    )
}

fn by_liar(
    alloc: Global,
    keeper: &mut MemoryKeeper,
    host: &mut Host,
    mut wire: InterceptedWire<Liar>,
    errand: &mut Errand,
) -> Result<String, Unread> {
    let outcome = errand.over(alloc, keeper, &mut wire);
    let (inner, _liar) = wire.into_parts();
    let calls = host.take_back(inner);
    outcome_text(alloc, outcome?, calls)
}

/// `cross HOST [SESSION, AT, CLOCK, LATER, MISHAPS, CALL, OTHER, OTHER-SESSION]`: the same if the other device does OTHER, which is
/// the word of a task, right before a call. Then how that ended.
pub fn crossed(
    alloc: Global,
    task: Task,
    keeper: &mut MemoryKeeper,
    other: &mut MemoryKeeper,
    host: &mut Host,
    rest: &str,
) -> Result<String, Unread> {
    let (key, rest) = cut(rest, " ").ok_or(Unread::Bad)?;
    let arguments = value_of(alloc, rest)?;
    let mut errand = errand_at(alloc, task, key, &arguments, 0)?;
    let crossing = crossing_at(alloc, key, &arguments)?;
    let wire = wire_at(alloc, host, &arguments)?;
    by_crossed_wire(alloc, keeper, other, host, wire, crossing, &mut errand)
}

fn by_crossed_wire(
    alloc: Global,
    keeper: &mut MemoryKeeper,
    other: &mut MemoryKeeper,
    host: &mut Host,
    wire: LoopWire<NothingBetween>,
    mut crossing: Crossing,
    errand: &mut Errand,
) -> Result<String, Unread> {
    crossing.keeper = mem::replace(other, MemoryKeeper::new(alloc));
    let mut wire = InterceptedWire::new(wire, crossing);
    let outcome = errand.over(alloc, keeper, &mut wire);
    let calls = wire.calls();
    let (inner, crossing) = wire.into_parts();
    let others = host.take_back(inner).saturating_sub(calls);
    let (theirs, ended) = crossing.into_parts();
    *other = theirs;
    let made = outcome_text(alloc, outcome?, calls)?;
    crossed_text(alloc, made, ended, others)
}

fn crossed_text(
    alloc: Global,
    mut made: String,
    ended: Option<Result<Outcome, Unread>>,
    calls: u64,
) -> Result<String, Unread> {
    made.push_str(" crossed by ")?;
    match ended {
        Some(outcome) => made.push_str(outcome_text(alloc, outcome?, calls)?.as_str())?,
        None => made.push_str("nothing")?,
    }
    Ok(made)
}

/// How an errand ended, as the program calls it.
fn outcome_text(alloc: Global, outcome: Outcome, calls: u64) -> Result<String, Unread> {
    match outcome {
        Outcome::Memory => Err(Unread::Ended),
        _ => Ok(format!(in alloc; "{outcome:?} calls {calls}")?),
    }
}

/// A wire to the server, at its moment.
fn wire_at(
    alloc: Global,
    host: &mut Host,
    arguments: &Value,
) -> Result<LoopWire<NothingBetween>, Unread> {
    let at = moment_at(arguments, 1)?;
    let mishaps = mishaps_at(alloc, arguments)?;
    match host.logged.take() {
        Some(server) => Ok(LoopWire::new(server, at, mishaps, NothingBetween)),
        None => Err(Unread::Bad),
    }
}

fn liar_at(alloc: Global, arguments: &Value) -> Result<Liar, Unread> {
    let lie = lie_at(alloc, arguments)?;
    let from = natural_at(arguments, 5)?;
    Ok(Liar { from, lie })
}

/// The other device's errand, with no keeper yet.
fn crossing_at(alloc: Global, key: &str, arguments: &Value) -> Result<Crossing, Unread> {
    let call = natural_at(arguments, 5)?;
    let Some((task, Actor::Nobody)) = errand_of(text_at(arguments, 6)?) else {
        return Err(Unread::Bad);
    };
    Ok(Crossing {
        alloc,
        call,
        keeper: MemoryKeeper::new(alloc),
        errand: errand_at(alloc, task, key, arguments, 7)?,
        ended: None,
    })
}

/// A list of `[CALL, WHAT]`.
fn mishaps_at(alloc: Global, arguments: &Value) -> Result<List<Mishap>, Unread> {
    let mut mishaps = List::new(alloc);
    for value in list_at(arguments, 4)? {
        mishaps.push(mishap_of(value)?)?;
    }
    Ok(mishaps)
}

fn mishap_of(value: &Value) -> Result<Mishap, Unread> {
    let call = natural_at(value, 0)?;
    let what = match text_at(value, 1)? {
        "request" => What::LoseRequest,
        "reply" => What::LoseReply,
        "repeat" => What::Repeat,
        _ => return Err(Unread::Bad),
    };
    Ok(Mishap { call, what })
}
