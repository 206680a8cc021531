ghost use Rattle.std.specs.Prelude.{IfOk};
ghost use Rattle.ak_io.specs.Arrivals.{IsClockMoment};

use crate::shown::{all, sum};
use ak_base::SessionKey;
use ak_keep::{KeepFault, Lookup};
use ak_memory::MemoryKeeper;
use ak_server_steps::whole_of;
use ak_sync_in_memory::{LoggedServer, LoopWire, NothingBetween, keeper_with, view_all};
use ak_wire::{Ask, Reply, Request, Whole, write_reply};
use cases_accounts::{empty_account, host_key, moment_at};
use cases_keepers::{answer_of, calls_of, value_of};
use cases_lines::Unread;
use std::alloc::Global;

/// The server, if it was opened.
#[derive(Drop)]
pub struct Host {
    pub logged: Option<LoggedServer>,
}

impl Host {
    /// No server.
    pub fn new() -> Host {
        Host { logged: None }
    }

    /// The answer to a command of the server.
    pub fn answer(&mut self, alloc: Global, word: &str, rest: &str) -> Result<String, Unread> {
        match word {
            "open" => self.open(alloc, rest),
            "fail" => self.fail(alloc, rest),
            _ => self.show(alloc, word, rest),
        }
    }

    /// `open [AT]`: a server whose account holds no row, and was changed last at this moment.
    fn open(&mut self, alloc: Global, rest: &str) -> Result<String, Unread> {
        let at = moment_of(alloc, rest)?;
        self.logged = Some(empty_account(alloc, at)?);
        Ok(String::from_str(alloc, "ok")?)
    }

    /// `fail [CALL, ..]`: the calls of its keeper that are to fail, counted from 0 from here on.
    fn fail(&mut self, alloc: Global, rest: &str) -> Result<String, Unread> {
        let calls = calls_of(alloc, rest)?;
        match &mut self.logged {
            Some(server) => server.fail_at(calls),
            None => return Err(Unread::Bad),
        }
        Ok(String::from_str(alloc, "ok")?)
    }

    /// A command of a keeper that holds what the account holds. The live session ends.
    fn show(&mut self, alloc: Global, word: &str, rest: &str) -> Result<String, Unread> {
        let mut keeper = self.copied(alloc)?;
        match word {
            "all" => all(alloc, &mut keeper),
            "sum" => sum(alloc, &mut keeper),
            _ => answer_of(alloc, &mut keeper, word, rest),
        }
    }

    /// Takes the server back from a wire, and tells how many calls came.
    pub fn take_back(&mut self, wire: LoopWire<NothingBetween>) -> u64 {
        let calls = wire.calls();
        let (server, _nothing) = wire.into_parts();
        self.logged = Some(server);
        calls
    }

    /// A keeper that holds what the account holds.
    pub fn copied(&mut self, alloc: Global) -> Result<MemoryKeeper, Unread> {
        match &mut self.logged {
            Some(server) => copy_of(alloc, server),
            None => Err(Unread::Bad),
        }
    }
}

/// The moment of `[AT]`.
fn moment_of(alloc: Global, rest: &str) -> Result<i64, Unread>
    ensures { IfOk result IsClockMoment }
{
    let arguments = value_of(alloc, rest)?;
    moment_at(&arguments, 0)
}

// ---- what the account holds

fn copy_of(alloc: Global, server: &mut LoggedServer) -> Result<MemoryKeeper, Unread> {
    match view_all(alloc, server) {
        Ok(opening) => Ok(keeper_with(alloc, opening)?),
        Err(fault) => Err(refused(fault)),
    }
}

/// What a keeper answered. A refusal is no answer to a line.
fn done<T>(answer: Result<T, KeepFault>) -> Result<T, Unread> {
    match answer {
        Ok(it) => Ok(it),
        Err(fault) => Err(refused(fault)),
    }
}

fn refused(fault: KeepFault) -> Unread {
    match fault {
        KeepFault::Failed => Unread::Bad,
        KeepFault::Memory => Unread::Ended,
    }
}

// ---- what a device uploads

/// `upload [AT]`: the server takes what the device holds, at this moment. The status and the body of the reply.
pub fn upload(
    alloc: Global,
    keeper: &mut MemoryKeeper,
    server: &mut LoggedServer,
    rest: &str,
) -> Result<String, Unread> {
    let at = moment_of(alloc, rest)?;
    let base = done(server.view_head())?.moment;
    let meta = Step {
        step: 0,
        base: 0,
        at,
    };
    ask(alloc, server, meta, Ask::Meta)?;
    let whole = whole_in(alloc, keeper)?;
    let step = Step { step: 1, base, at };
    ask(alloc, server, step, Ask::Upload(whole))
}

/// Where in a session a request stands, and when it is served, in milliseconds.
#[derive(Clone, Copy)]
struct Step {
    step: u64,
    base: i64,
    at: i64,
}

fn ask(alloc: Global, server: &mut LoggedServer, step: Step, ask: Ask) -> Result<String, Unread>
    requires { IsClockMoment step.at }
{
    let request = Request {
        host: host_key()?,
        session: SessionKey(0),
        step: step.step,
        base: step.base,
        ask,
    };
    let reply = server.serve(&request, step.at)?;
    reply_text(alloc, &reply)
}

fn reply_text(alloc: Global, reply: &Reply) -> Result<String, Unread> {
    let body = write_reply(alloc, reply)?;
    let status = reply.status;
    let text = body.as_str();
    Ok(format!(in alloc; "{status} {text}")?)
}

fn whole_in(alloc: Global, keeper: &mut MemoryKeeper) -> Result<Whole, Unread> {
    let head = done(keeper.head())?.ok_or(Unread::Bad)?;
    done(whole_of(alloc, keeper, head))
}
