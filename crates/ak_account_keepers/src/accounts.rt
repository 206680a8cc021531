ghost use Rattle.std.specs.Prelude.{◌≡◌, ◌≤◌, false, IfErr, OnOk, OnErr};
ghost use Rattle.ak_faults.specs.Causes.{HasCauseOf};
ghost use Rattle.ak_keep.specs.Keepers.{is_marked};
ghost use Rattle.ak_keep.specs.declared.keepers.KeepFault.TheVariants as keep_faults;
ghost use Rattle.ak_account_keepers.specs.Makers.{IsMakerCaused};
ghost use Rattle.ak_account_keepers.specs.OpenedAccounts.{AddsAccount, OpensAll, OpensFirst, OpensOne, OpensOrNot, of_file, of_text};
ghost use Rattle.ak_account_keepers.specs.declared.accounts.OpenFault.TheVariants as faults;

use crate::files::{FileFault, read_file};
use crate::makers::MakeKeeper;
use crate::openings::fill_if_empty;
use ak_accounts::{AccountsFault, ListedAccount, read_accounts};
use ak_base::{HostKey, List, Text};
use ak_io::Clock;
use ak_keep::KeepFault;
use ak_links::Named;
use ak_server::Server;
use std::alloc::Global;

/// Why not all accounts were opened.
#[derive(Clone, Copy, Debug, PartialEq, Eq)]
pub enum OpenFault {
    /// The file that lists them is not of its form, or has more than 1,048,576 bytes.
    Refused,
    /// The file that lists them failed.
    FileFailed,
    /// A keeper could not be made, or failed before its account was opened.
    KeeperFailed,
    /// Out of memory.
    Memory,
}

/// Opens the accounts that the file of this name lists, in its order: each gets the keeper that is made for its file, and an
/// empty one the opening collection. Those that were opened before a fault stay in the server.
pub fn open_accounts<S: Named, M: MakeKeeper, C: Clock>(
    alloc: Global,
    name: &str,
    file: &mut S,
    maker: &mut M,
    clock: &mut C,
    server: &mut Server<M::Keeper>,
) -> Result<(), OpenFault>
    ensures opens { OpensOrNot M.Keeper.keeping (S.left file.old) (M.to_come maker.old) (M.to_come maker.new)
        (record { accounts = server.old; moments = C.to_come clock.old })
        (record { accounts = server.new; moments = C.to_come clock.new }) result }
    ensures read { HasCauseOf faults.FileFailed (S.health file.old) (S.health file.new) result }
    ensures made { IsMakerCaused faults.KeeperFailed (M.health maker.old) (M.health maker.new) result }
{
    let text = match read_file(alloc, file, name) {
        Ok(text) => text,
        Err(fault) => return Err(of_file(fault)),
    };
    let listed = match read_accounts(alloc, text.as_slice()) {
        Ok(listed) => listed,
        Err(fault) => return Err(of_text(fault)),
    };
    drop(text);
    match open_listed(alloc, listed, maker, clock, server) {
        Ok(()) => Ok(()),
        Err(KeepFault::Failed) => Err(OpenFault::KeeperFailed),
        Err(KeepFault::Memory) => Err(OpenFault::Memory),
    }
}

/// Why nothing was opened, by why the file was not read.
fn of_file(fault: FileFault) -> OpenFault
    ensures { result ≡ of_file fault }
{
    match fault {
        FileFault::TooLong => OpenFault::Refused,
        FileFault::Failed => OpenFault::FileFailed,
        FileFault::Memory => OpenFault::Memory,
    }
}

/// Why nothing was opened, by why the text was not read.
fn of_text(fault: AccountsFault) -> OpenFault
    ensures { result ≡ of_text fault }
{
    match fault {
        AccountsFault::Refused => OpenFault::Refused,
        AccountsFault::Memory => OpenFault::Memory,
    }
}

/// Opens these accounts, in their order.
fn open_listed<M: MakeKeeper, C: Clock>(
    alloc: Global,
    listed: List<ListedAccount>,
    maker: &mut M,
    clock: &mut C,
    server: &mut Server<M::Keeper>,
) -> Result<(), KeepFault>
    ensures ok { OnOk result (OpensAll M.Keeper.keeping listed (M.to_come maker.old) (M.to_come maker.new)
        (record { accounts = server.old; moments = C.to_come clock.old })
        (record { accounts = server.new; moments = C.to_come clock.new })) }
    ensures err { OnErr result (OpensFirst M.Keeper.keeping listed (M.to_come maker.old)
        (record { accounts = server.old; moments = C.to_come clock.old }) server.new) }
    ensures made { IsMakerCaused keep_faults.Failed (M.health maker.old) (M.health maker.new) result }
{
    for account in listed.into_vec() {
        open_account(alloc, account, maker, clock, server)?;
    }
    Ok(())
}

/// Opens one account.
fn open_account<M: MakeKeeper, C: Clock>(
    alloc: Global,
    listed: ListedAccount,
    maker: &mut M,
    clock: &mut C,
    server: &mut Server<M::Keeper>,
) -> Result<(), KeepFault>
    ensures ok { OnOk result (OpensOne M.Keeper.keeping listed (M.to_come maker.old) (M.to_come maker.new)
        (record { accounts = server.old; moments = C.to_come clock.old })
        (record { accounts = server.new; moments = C.to_come clock.new })) }
    ensures err { OnErr result (server.new ≡ server.old) }
    ensures made { IsMakerCaused keep_faults.Failed (M.health maker.old) (M.health maker.new) result }
{
    let ListedAccount { name, host, file } = listed;
    let mut keeper = maker.make(file.as_str())?;
    match fill_if_empty(alloc, &mut keeper, clock) {
        Ok(()) => add_account(name, host, keeper, maker, server),
        Err(fault) => {
            maker.give_back(keeper);
            Err(fault)
        }
    }
}

/// Adds an account with this keeper.
fn add_account<M: MakeKeeper>(
    name: Text,
    host: HostKey,
    keeper: M::Keeper,
    maker: &mut M,
    server: &mut Server<M::Keeper>,
) -> Result<(), KeepFault>
    requires unmarked { is_marked (M.Keeper.keeping keeper) ≡ false }
    ensures ok { OnOk result (AddsAccount M.Keeper.keeping name host keeper server.old server.new) }
    ensures err { OnErr result (server.new ≡ server.old) }
    ensures told { M.to_come maker.new ≡ M.to_come maker.old }
    ensures later { (M.health maker.old).faults ≤ (M.health maker.new).faults }
    ensures memory { IfErr result (λ fault. fault ≡ keep_faults.Memory) }
{
    match server.add(name, host, keeper) {
        Ok(()) => Ok(()),
        // Listed accounts have keys of their own, and the keeper holds a collection: so memory ran out.
        Err((_, keeper)) => {
            maker.give_back(keeper);
            Err(KeepFault::Memory)
        }
    }
}
