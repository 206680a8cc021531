ghost use Rattle.std.specs.Prelude.{◌≡◌, [], ◌∷◌, ◌++◌, None, IfErr, MatchOption, OnErr, OnOk};
ghost use Rattle.ak_server.specs.Accounts.{IsPlaceOf, account_at};

use crate::accounts::Account;
use crate::serving::{end_session, serve_account};
use ak_base::{Head, HostKey, List, Row, Table, Text};
use ak_keep::{KeepFault, Keeper};
use ak_memory::MemoryKeeper;
use ak_messages::{Reply, Request};
use ak_server_rules::unknown_key;
use std::alloc::Global;
use std::marker::Model;

/// A server of accounts, each found by its host key alone.
///
/// Graves, chunks that come, a finish, refusals and repeats cost what their own rows cost, whatever the size of the
/// collection. A start and an upload mark the keeper, and cost what that costs it; what is given of rows with at least a
/// number walks their tables, each row once; a sanity check reads all cards and notes.
#[derive(Drop)]
pub struct Server<K: Keeper> {
    alloc: Global,
    accounts: Vec<Account<K>>,
}

impl<K: Keeper> Model for Server<K> {
    ghost use Rattle.std.specs.Prelude.{List as Sequence};
    ghost use Rattle.ak_server.specs.Servers.{AreRight};
    ghost use Rattle.ak_server.specs.declared.accounts.Account.{Account as Kind};

    ghost Value = { Sequence (Kind K) };

    ghost view = { λ s. s.accounts.items };

    ghost invariant = { λ s. AreRight K.keeping s.accounts.items };
}

/// Why an account was not added.
#[derive(Clone, Copy, Debug, PartialEq, Eq)]
pub enum AddFault {
    /// The host key is that of another account.
    KeyHeld,
    /// The keeper holds no collection.
    Empty,
    /// Out of memory.
    Memory,
}

impl<K: Keeper> Server<K> {
    ghost use Rattle.std.specs.Prelude.{◌≡◌, ◌≢◌, ◌<◌, ◌≤◌, ◌↔◌, ℕ, [], ◌∷◌, ◌++◌, Some, None, true, false, is_some, length, IfOk, IfErr, IfSome, OnOk, OnErr};
    ghost use Rattle.std.specs.Option.{option_map};
    ghost use Rattle.ak_io.specs.Arrivals.{IsClockMoment};
    ghost use Rattle.std.specs.List.{All};
    ghost use Rattle.ak_base.specs.Heads.{IsHeadInRange};
    ghost use Rattle.ak_base.specs.Rows.{IsChecked};
    ghost use Rattle.ak_keep.specs.Collections.{AscendsPast};
    ghost use Rattle.ak_keep.specs.Keepers.{is_marked};
    ghost use Rattle.ak_messages.specs.declared.requests.Ask.TheVariants as asks;
    ghost use Rattle.ak_server.specs.Accounts.{StandsFor, account_at};
    ghost use Rattle.ak_server.specs.Servers.{EndsOne, GivesAgain, GivesHead, GivesOneHead, GivesOneRows, GivesRows, IsEmpty, IsViewedAt, OthersStay, Replies, Serves, ServesFor, StandsWith, IsServedFor, Strikes, no_accounts, account_added, ViewCause};

    /// A server without accounts, in this allocator's memory. It takes no memory.
    pub fn new(alloc: Global) -> Server<K>
        ensures empty { result ≡ [] }
        ensures stands { StandsFor K.keeping result no_accounts }
    {
        Server {
            alloc,
            accounts: Vec::new(alloc),
        }
    }

    /// Adds an account with the keeper's collection, no session and no kept reply. A refusal hands the keeper back.
    pub fn add(&mut self, name: Text, host: HostKey, keeper: K) -> Result<(), (AddFault, K)>
        requires unmarked { is_marked (K.keeping keeper) ≡ false }
        ensures ok { OnOk result (self.new ≡ self.old ++ account_added name host keeper ∷ []) }
        ensures err { OnErr result (self.new ≡ self.old) }
        ensures back { IfErr result (λ refused. refused.1 ≡ keeper) }

        // The key is tested first, and then whether the keeper holds a collection.
        ensures ours { OnOk result (account_at host.digits self.old ≡ None) }
        ensures held { OnOk result ((K.keeping keeper).headed.current ≡ true) }
        ensures key { IfErr result (λ refused.
            refused.0 ≡ AddFault.KeyHeld ↔ account_at host.digits self.old ≢ None) }
        ensures empty { IfErr result (λ refused.
            refused.0 ≡ AddFault.Empty ↔ IsEmpty K.keeping host.digits self.old keeper) }
        ensures stands { OnOk result (StandsWith K.keeping self.old self.new host.digits keeper) }
    {
        if place_of(self.accounts.as_slice(), host).is_some() {
            return Err((AddFault::KeyHeld, keeper));
        }
        if !keeper.held() {
            return Err((AddFault::Empty, keeper));
        }
        let account = Account {
            name,
            host,
            keeper,
            live: None,
            kept: None,
        };
        push_account(&mut self.accounts, account)
    }

    /// The count of faults of this account's keeper, None exactly if the host key is no account's. It takes no memory.
    pub fn faults(&self, host: HostKey) -> Option<u64>
        ensures { result ≡ option_map (λ a. (K.health a.keeper).faults) (account_at host.digits self.now) }
    {
        match place_of(self.accounts.as_slice(), host) {
            Some(place) => Some(self.accounts[place].keeper.faults()),
            None => None,
        }
    }

    /// Serves a request at a moment of the clock, in milliseconds: 403 exactly if its host key is no account's, 503 only
    /// if that account's keeper failed in this call, 500 if memory ran out, and else the protocol's reply.
    pub fn serve(&mut self, request: &Request, now: i64) -> Reply
        requires clock { IsClockMoment now }
        ensures serves { Serves K.keeping self.old self.new request.now now result }
        ensures account { ServesFor K.keeping (account_at request.now.host.digits self.old)
            (account_at request.now.host.digits self.new) request.now now result }
        ensures others { OthersStay request.now.host.digits self.old self.new }
        ensures key { result.status ≡ 403 ↔ account_at request.now.host.digits self.old ≡ None }
        ensures unknown { account_at request.now.host.digits self.old ≡ None → self.new ≡ self.old }

        // If the keeper tells nothing too: a reply is 200, the first refusal that the tests find, 503 or 500.
        ensures replies { Replies K.keeping (account_at request.now.host.digits self.old) request.now result }
        ensures again { GivesAgain (account_at request.now.host.digits self.old)
            (account_at request.now.host.digits self.new) request.now result }
        ensures struck { Strikes K.keeping (account_at request.now.host.digits self.old)
            (account_at request.now.host.digits self.new) request.now result }
        ensures cause { IsServedFor K.health (account_at request.now.host.digits self.old)
            (account_at request.now.host.digits self.new) result }

        // A finish takes no memory where the keeper takes none, if it is repeated too.
        ensures spares { K.spares_memory ≡ true → request.now.ask ≡ asks.Finish → result.status ≢ 500 }
    {
        match place_of(self.accounts.as_slice(), request.host) {
            Some(place) => serve_account(self.alloc, &mut self.accounts[place], request, now),
            None => unknown_key(),
        }
    }

    /// The committed rows of an account's table with ids over `past`, by ascending id: the first `limit` of them, 1 to 1,000.
    /// It ends the live session, if it is refused too; None exactly if the host key is no account's.
    pub fn view(
        &mut self,
        host: HostKey,
        table: Table,
        past: i64,
        limit: usize,
    ) -> Result<Option<List<Row>>, KeepFault>
        requires low { 0 < limit }
        requires high { limit ≤ 1000 }
        ensures viewed { IsViewedAt K.keeping (account_at host.digits self.old) (account_at host.digits self.new) }
        ensures told { IfOk result (λ found.
            GivesOneRows K.keeping (account_at host.digits self.old) table past limit found) }
        ensures unknown { account_at host.digits self.old ≡ None → self.new ≡ self.old }
        ensures ends { EndsOne K.keeping self.old self.new host.digits }
        ensures rows { IfOk result (λ found. GivesRows K.keeping self.old host.digits table past limit found) }
        ensures none { IfOk result (λ found. is_some found ≡ is_some (account_at host.digits self.old)) }
        ensures fits { IfOk result (λ found. IfSome found (λ page. length page ≤ limit)) }
        ensures ascends { IfOk result (λ found. IfSome found (λ page. AscendsPast table past page)) }
        ensures checked { IfOk result (λ found. IfSome found (λ page. All IsChecked page)) }
        ensures others { OthersStay host.digits self.old self.new }
        ensures cause { ViewCause K.health (account_at host.digits self.old) (account_at host.digits self.new) result }
    {
        match place_of(self.accounts.as_slice(), host) {
            Some(place) => Ok(Some(self.accounts[place].view(table, past, limit)?)),
            None => Ok(None),
        }
    }

    /// The committed head of an account. It ends the live session, if it is refused too; None exactly if the host key is
    /// no account's.
    pub fn view_head(&mut self, host: HostKey) -> Result<Option<Head>, KeepFault>
        ensures viewed { IsViewedAt K.keeping (account_at host.digits self.old) (account_at host.digits self.new) }
        ensures told { IfOk result (λ found.
            GivesOneHead K.keeping (account_at host.digits self.old) found) }
        ensures unknown { account_at host.digits self.old ≡ None → self.new ≡ self.old }
        ensures ends { EndsOne K.keeping self.old self.new host.digits }
        ensures head { IfOk result (λ found. GivesHead K.keeping self.old host.digits found) }
        ensures none { IfOk result (λ found. is_some found ≡ is_some (account_at host.digits self.old)) }
        ensures range { IfOk result (λ found. IfSome found IsHeadInRange) }
        ensures others { OthersStay host.digits self.old self.new }
        ensures cause { ViewCause K.health (account_at host.digits self.old) (account_at host.digits self.new) result }
    {
        match place_of(self.accounts.as_slice(), host) {
            Some(place) => self.accounts[place].view_head(),
            None => Ok(None),
        }
    }
}

impl Server<MemoryKeeper> {
    ghost use Rattle.std.specs.Option.{option_map};
    ghost use Rattle.std.specs.Prelude.{◌≡◌, None, is_some};
    ghost use Rattle.ak_server.specs.Accounts.{account_at};
    ghost use Rattle.ak_server.specs.Servers.{OthersStay, failing_at};

    /// From now on the calls of these numbers of this account's keeper fail, counted from 0 over the calls that can. False
    /// exactly if the host key is no account's, and then nothing changes. It takes no memory.
    pub fn fail_at(&mut self, host: HostKey, calls: List<u64>) -> bool
        ensures found { result ≡ is_some (account_at host.digits self.old) }
        ensures set { account_at host.digits self.new ≡ option_map (failing_at calls) (account_at host.digits self.old) }
        ensures others { OthersStay host.digits self.old self.new }
        ensures none { account_at host.digits self.old ≡ None → self.new ≡ self.old }
    {
        match place_of(self.accounts.as_slice(), host) {
            Some(place) => {
                self.accounts[place].keeper.fail_at(calls);
                true
            }
            None => false,
        }
    }
}

impl<K: Keeper> Account<K> {
    ghost use Rattle.std.specs.List.{All};
    ghost use Rattle.std.specs.Prelude.{◌≡◌, ◌<◌, ◌≤◌, true, is_some, length, IfOk, IfSome};
    ghost use Rattle.ak_base.specs.Heads.{IsHeadInRange};
    ghost use Rattle.ak_base.specs.Rows.{IsChecked};
    ghost use Rattle.ak_keep.specs.Collections.{AscendsPast, IsPageOf, rows_past};
    ghost use Rattle.ak_keep.specs.Keepers.{KeepCause, WhereTold, back};
    ghost use Rattle.ak_server.specs.Servers.{IsViewed};

    /// Ends the live session, and reads committed rows.
    fn view(&mut self, table: Table, past: i64, limit: usize) -> Result<List<Row>, KeepFault>
        requires low { 0 < limit }
        requires high { limit ≤ 1000 }
        ensures viewed { IsViewed K.keeping self.old self.new }
        ensures told { IfOk result (λ page. WhereTold (back (K.keeping self.old.keeper)) (λ h.
            IsPageOf (λ past. rows_past table past h.rows) past limit page)) }
        ensures fits { IfOk result (λ page. length page ≤ limit) }
        ensures ascends { IfOk result (λ page. AscendsPast table past page) }
        ensures checked { IfOk result (λ page. All IsChecked page) }
        ensures cause { KeepCause (K.health self.old.keeper) (K.health self.new.keeper) result }
    {
        end_session(self);
        // For the proof alone: it says that all that the keeper gives passes its check.
        let _checks = self.keeper.marked();
        self.keeper.page(table, past, limit)
    }

    /// Ends the live session, and reads the committed head.
    fn view_head(&mut self) -> Result<Option<Head>, KeepFault>
        requires held { (back (K.keeping self.old.keeper)).headed.current ≡ true }
        ensures viewed { IsViewed K.keeping self.old self.new }
        ensures told { IfOk result (λ head. WhereTold (back (K.keeping self.old.keeper)) (λ h. head ≡ h.head)) }
        ensures some { IfOk result (λ head. is_some head ≡ true) }
        ensures range { IfOk result (λ head. IfSome head IsHeadInRange) }
        ensures cause { KeepCause (K.health self.old.keeper) (K.health self.new.keeper) result }
    {
        end_session(self);
        // For the proof alone, as above.
        let _checks = self.keeper.marked();
        self.keeper.head()
    }
}

/// Adds an account at the end. A refusal hands its keeper back.
fn push_account<K>(accounts: &mut Vec<Account<K>>, account: Account<K>) -> Result<(), (AddFault, K)>
    ensures ok { OnOk result (accounts.new.items ≡ accounts.old.items ++ account ∷ []) }
    ensures err { OnErr result (accounts.new.items ≡ accounts.old.items) }
    ensures memory { IfErr result (λ refused. refused.0 ≡ AddFault.Memory) }
    ensures back { IfErr result (λ refused. refused.1 ≡ account.keeper) }
{
    match accounts.push(account) {
        Ok(()) => Ok(()),
        Err(failed) => Err((AddFault::Memory, failed.value.keeper)),
    }
}

/// The place of the account with this host key.
fn place_of<K>(accounts: &[Account<K>], host: HostKey) -> Option<usize>
    ensures { MatchOption result (account_at host.digits accounts.now ≡ None) (IsPlaceOf host.digits accounts.now) }
{
    for (place, account) in accounts.iter().enumerate() {
        if account.host == host {
            return Some(place);
        }
    }
    None
}
