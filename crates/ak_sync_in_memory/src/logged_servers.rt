ghost use Rattle.std.specs.Prelude.{◌≡◌, ◌<◌, vec_capacity, vec_len, IfOk, OnOk};
ghost use Rattle.ak_sync_in_memory.specs.Entries.{entry_of};
ghost use Rattle.ak_sync_in_memory.specs.declared.logs.Logged.TheVariants as logged;

use crate::filled_keepers::keeper_with;
use crate::logs::{Entry, Log, Logged, Trouble, trouble_of};
use ak_base::{Head, HostKey, List, Memory, Row, Table, Text, copy_each};
use ak_keep::KeepFault;
use ak_memory::MemoryKeeper;
use ak_messages::{Reply, Request};
use ak_openings::Opening;
use ak_server::Server;
use std::alloc::Global;
use std::marker::Model;

/// A server with one account in memory, which writes down all that comes to it. What it tells is what the protocol makes
/// of its log, from the opening on.
#[derive(Drop)]
pub struct LoggedServer {
    server: Server<MemoryKeeper>,
    host: HostKey,
    opening: Opening,
    line: u64,
    entries: Vec<Entry>,
}

impl Model for LoggedServer {
    ghost use Rattle.ak_sync_in_memory.specs.Entries.{LoggedState};
    ghost use Rattle.ak_sync_in_memory.specs.LoggedServers.{IsLogged, state_of};

    ghost Value = { LoggedState };

    ghost view = { λ s. state_of s.server s.host.digits s.opening s.line s.entries.items };

    ghost invariant = { λ s. IsLogged s.server (state_of s.server s.host.digits s.opening s.line s.entries.items) };
}

impl LoggedServer {
    ghost use Rattle.std.specs.List.{All, AllByRecursion, IsDistinct};
    ghost use Rattle.std.specs.Option.{option_map};
    ghost use Rattle.std.specs.Ordering.{eq_by_cmp};
    ghost use Rattle.std.specs.Prelude.{◌<◌, ◌≤◌, Some, length, map, IfOk, OnErr, OnOk};
    ghost use Rattle.ak_base.specs.Heads.{IsHeadInRange};
    ghost use Rattle.ak_base.specs.Names.{name_cmp};
    ghost use Rattle.ak_base.specs.Rows.{IsChecked, name_of};
    ghost use Rattle.ak_io.specs.Arrivals.{IsClockMoment};
    ghost use Rattle.ak_keep.specs.Collections.{AscendsPast};
    ghost use Rattle.ak_keep.specs.Keepers.{KeepCause};
    ghost use Rattle.ak_merge.specs.Commits.{IsCommitted};
    ghost use Rattle.ak_protocol.specs.Accounts.{AccountState};
    ghost use Rattle.ak_protocol.specs.LawfulServers.{IsLawful};
    ghost use Rattle.ak_protocol.specs.Logs.{IsTimely};
    ghost use Rattle.ak_server.specs.Servers.{ViewsRows};
    ghost use Rattle.ak_sync_in_memory.specs.Entries.{collection_in, health_in, log_in, server_in};
    ghost use Rattle.ak_sync_in_memory.specs.LoggedServers.{AddsView, IsServed, begins_with};

    /// A server with one account of this name and host key, which holds a copy of `opening`. Nothing came to it yet, and
    /// no line is set.
    pub fn new(
        alloc: Global,
        name: Text,
        host: HostKey,
        opening: Opening,
    ) -> Result<LoggedServer, Memory>
        requires checked { All IsChecked opening.rows }
        requires distinct { IsDistinct (eq_by_cmp name_cmp) (map name_of opening.rows) }
        requires lawful { IsCommitted (collection_in opening) }
        ensures { IfOk result (λ made. made ≡ begins_with host.digits opening) }
    {
        let keeper = keeper_with(alloc, copy_opening(&opening)?)?;
        let mut server = Server::new(alloc);
        match server.add(name, host, keeper) {
            Ok(()) => Ok(LoggedServer {
                server,
                host,
                opening,
                line: 0,
                entries: Vec::new(alloc),
            }),
            // No other account holds the key, and the keeper holds a collection.
            Err(_) => Err(Memory),
        }
    }

    /// Serves a request at a moment of the clock, in milliseconds, and writes it down. It makes room first: if there is
    /// none, nothing is served.
    pub fn serve(&mut self, request: &Request, now: i64) -> Result<Reply, Memory>
        requires clock { IsClockMoment now }
        ensures ok { IfOk result (IsServed self.old self.new request.now now) }
        ensures err { OnErr result (self.new ≡ self.old) }
    {
        let asked = request.copy()?;
        make_room(&mut self.entries)?;
        let reply = self.server.serve(request, now);
        let what = Logged::Served {
            request: asked,
            now,
            trouble: trouble_of(&reply),
        };
        self.entries.push_reserved(Entry {
            line: self.line,
            what,
        });
        Ok(reply)
    }

    /// The committed rows of a table with ids over `past`, by ascending id: the first `limit` of them, 1 to 1,000. It ends
    /// the live session, if it is refused too.
    pub fn view(&mut self, table: Table, past: i64, limit: usize) -> Result<List<Row>, KeepFault>
        requires low { 0 < limit }
        requires high { limit ≤ 1000 }
        ensures adds { AddsView self.old self.new result }
        ensures rows { IfOk result (λ page.
            ViewsRows table past limit (server_in self.old self.old.host) (Some page)) }
        ensures fits { IfOk result (λ page. length page ≤ limit) }
        ensures ascends { IfOk result (λ page. AscendsPast table past page) }
        ensures checked { IfOk result (λ page. All IsChecked page) }
        ensures cause { KeepCause (health_in self.old) (health_in self.new) result }
    {
        make_room(&mut self.entries)?;
        let found = self.server.view(self.host, table, past, limit);
        self.entries.push_reserved(viewed(self.line));
        match found? {
            Some(page) => Ok(page),
            None => unreachable!(),
        }
    }

    /// The committed head. It ends the live session, if it is refused too.
    pub fn view_head(&mut self) -> Result<Head, KeepFault>
        ensures adds { AddsView self.old self.new result }
        ensures head { IfOk result (λ head.
            Some head ≡ option_map (λ (s : AccountState). s.committed.head) (server_in self.old self.old.host)) }
        ensures range { IfOk result IsHeadInRange }
        ensures cause { KeepCause (health_in self.old) (health_in self.new) result }
    {
        make_room(&mut self.entries)?;
        let found = self.server.view_head(self.host);
        self.entries.push_reserved(viewed(self.line));
        match found? {
            Some(head) => Ok(head),
            None => unreachable!(),
        }
    }

    /// For proofs alone: its account was opened with a collection that a server may hold, it may hold all that the
    /// protocol made of that since, and each moment of its log is one that a clock may tell.
    pub fn recall(&self)
        ensures opening { IsCommitted (collection_in self.now.opening) }
        ensures lawful { IsLawful (server_in self.now) }
        ensures timely { AllByRecursion IsTimely (log_in self.now).events }
    {
        let _opening = &self.opening;
    }

    /// What came, the first of it first. It takes no memory.
    pub fn entries(&self) -> &[Entry]
        ensures { result.now ≡ self.now.entries }
    {
        self.entries.as_slice()
    }

    /// The line of the entries to come. It takes no memory.
    pub fn line(&self) -> u64
        ensures { result ≡ self.now.line }
    {
        self.line
    }

    /// Sets the line of the entries to come. It takes no memory.
    pub fn at_line(&mut self, line: u64)
        ensures { self.new ≡ record self.old { line = line } }
    {
        self.line = line;
    }

    /// From now on the calls of these numbers of the account's keeper fail, counted from 0 over the calls that can. It
    /// takes no memory.
    pub fn fail_at(&mut self, calls: List<u64>)
        ensures { self.new ≡ record self.old { fails = calls } }
    {
        let _is_found = self.server.fail_at(self.host, calls);
    }

    /// The log of all that came. It takes no memory.
    pub fn into_log(self) -> Log
        ensures { result.entries ≡ self.entries }
    {
        Log {
            entries: List::of(self.entries),
        }
    }
}

/// An equal collection of its own.
fn copy_opening(opening: &Opening) -> Result<Opening, Memory>
    ensures { IfOk result (λ made. made ≡ opening.now) }
{
    let rows = copy_each(&opening.rows, |row| row.copy())?;
    let head = opening.head.copy()?;
    Ok(Opening { rows, head })
}

/// Makes room for one more.
fn make_room(entries: &mut Vec<Entry>) -> Result<(), Memory>
    ensures items { entries.new.items ≡ entries.old.items }
    ensures ok { OnOk result (vec_len entries.new < vec_capacity entries.new) }
{
    entries.reserve(1)?;
    Ok(())
}

/// The entry of a view.
fn viewed(line: u64) -> Entry
    ensures { result ≡ entry_of line logged.Viewed }
{
    Entry {
        line,
        what: Logged::Viewed,
    }
}
