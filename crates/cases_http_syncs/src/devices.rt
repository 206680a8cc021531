use crate::server_ends::ServerEnd;
use crate::wire_ends::NearDial;
use ak_base::{HostKey, List, SessionKey, cut};
use ak_client::{Ids, Outcome, sync_over};
use ak_client_wire::Wire;
use ak_http_wires::HttpWire;
use ak_io::{End, ListClock};
use ak_keep::{Keeper, Lookup};
use ak_memory::MemoryKeeper;
use ak_sockets::TcpDial;
use ak_undo::UndoList;
use cases_accounts::moment_at;
use cases_keepers::{answer_of, value_of};
use cases_lines::{Unread, natural_at};
use serde_json::Value;
use std::alloc::Global;
use std::cell::RefCell;
use std::rc::Rc;
use std::rt::HostRuntime;

/// The answer to a command of a device: `sync HOST [SESSION, CLOCK, LATER]`, or one of its keeper.
pub fn answer_of_device<'r>(
    rt: &'r HostRuntime,
    keeper: &mut MemoryKeeper,
    server: &Rc<RefCell<ServerEnd<'r>>>,
    words: &str,
) -> Result<String, Unread> {
    let alloc = rt.alloc();
    let (word, rest) = cut(words, " ").unwrap_or((words, ""));
    if word != "sync" {
        return answer_of(alloc, keeper, word, rest);
    }
    let (key, rest) = cut(rest, " ").ok_or(Unread::Bad)?;
    let arguments = value_of(alloc, rest)?;
    let host = HostKey::of(key).ok_or(Unread::Bad)?;
    let session = SessionKey(natural_at(&arguments, 0)?);
    sync(rt, keeper, server, Ids { host, session }, &arguments)
}

/// Syncs over HTTP: how it ended, and what the wire counted.
fn sync<'r>(
    rt: &'r HostRuntime,
    keeper: &mut MemoryKeeper,
    server: &Rc<RefCell<ServerEnd<'r>>>,
    ids: Ids,
    arguments: &Value,
) -> Result<String, Unread> {
    let alloc = rt.alloc();
    let Ok(end) = server.try_borrow() else {
        return Err(Unread::Ended);
    };
    let address = end.address(alloc)?;
    drop(end);
    let dial = NearDial {
        alloc,
        dial: TcpDial::to(rt, address.copy()?),
        server: Rc::clone(server)?,
        faults: 0,
    };
    let mut wire = HttpWire::to(alloc, dial, address);
    let mut clock = clock_at(alloc, arguments)?;
    let outcome = synced(alloc, keeper, &mut wire, &mut clock, ids)?;
    let faults = wire.faults();
    let bad = wire.bad();
    Ok(format!(in alloc; "{outcome:?} faults {faults} bad {bad}")?)
}

fn synced<W: Wire>(
    alloc: Global,
    keeper: &mut MemoryKeeper,
    wire: &mut W,
    clock: &mut ListClock,
    ids: Ids,
) -> Result<Outcome, Unread> {
    if keeper.marked() || !keeper.held() {
        return Err(Unread::Bad);
    }
    let mut undo = UndoList::new(alloc)?;
    Ok(sync_over(keeper, &mut undo, wire, clock, ids))
}

/// The device's clock: the moment when it greets, and the one after a bad check.
fn clock_at(alloc: Global, arguments: &Value) -> Result<ListClock, Unread> {
    let first = moment_at(arguments, 1)?;
    let second = moment_at(arguments, 2)?;
    let moments = vec![in alloc; first, second]?;
    Ok(ListClock::new(List::of(moments)))
}
