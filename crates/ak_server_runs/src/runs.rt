ghost use Rattle.std.specs.Prelude.{◌≡◌, [], ℕ};
ghost use Rattle.ak_faults.specs.Causes.{Rose};
ghost use Rattle.ak_server_words.specs.Words.{word_texts};
ghost use Rattle.ak_server_runs.specs.ServerRuns.{RunsTo, status_of};
ghost use Rattle.ak_server_runs.specs.declared.run_ends.RunEnd.{RunEnd as Ends};

use crate::doors::serve_door;
use crate::run_ends::{RunEnd, of_opening};
use ak_account_keepers::{MakeKeeper, open_accounts};
use ak_io::{Clock, Failed};
use ak_links::{Door, Named};
use ak_server::Server;
use ak_server_words::{WordsFault, server_words};
use std::alloc::Global;

/// A whole run of a server, which has no account yet: it reads the words, opens the accounts of the file that they name,
/// lets the door take links at the address that they name, and serves these. It answers the status with which the program
/// ends. The accounts that were opened stay in the server.
pub fn serve_all<S: Named, D: Door, M: MakeKeeper, C: Clock>(
    alloc: Global,
    words: &[String],
    accounts: &mut S,
    door: &mut D,
    maker: &mut M,
    clock: &mut C,
    server: &mut Server<M::Keeper>,
) -> u8
    requires none { server.old ≡ [] }
    ensures runs { (end : Ends) × (result ≡ status_of end) × RunsTo
        (record { left = D.Link.left; written = D.Link.written; link_health = D.Link.health; keeping = M.Keeper.keeping; health = M.Keeper.health })
        (word_texts words.now) (S.left accounts.old)
        (record { door = D.state door.old; keepers = M.to_come maker.old; service = record { accounts = server.old; moments = C.to_come clock.old } })
        (record { door = D.state door.new; keepers = M.to_come maker.new; service = record { accounts = server.new; moments = C.to_come clock.new } })
        end }
    ensures read { result ≡ 4 → Rose (S.health accounts.old) (S.health accounts.new) }
    ensures made { result ≡ 6 → Rose (M.health maker.old) (M.health maker.new) }
    ensures door { result ≡ 9 → Rose (D.health door.old) (D.health door.new) }
{
    run_server(alloc, words, accounts, door, maker, clock, server).status()
}

/// The run, by how it ends.
fn run_server<S: Named, D: Door, M: MakeKeeper, C: Clock>(
    alloc: Global,
    words: &[String],
    accounts: &mut S,
    door: &mut D,
    maker: &mut M,
    clock: &mut C,
    server: &mut Server<M::Keeper>,
) -> RunEnd
    ensures runs { RunsTo
        (record { left = D.Link.left; written = D.Link.written; link_health = D.Link.health; keeping = M.Keeper.keeping; health = M.Keeper.health })
        (word_texts words.now) (S.left accounts.old)
        (record { door = D.state door.old; keepers = M.to_come maker.old; service = record { accounts = server.old; moments = C.to_come clock.old } })
        (record { door = D.state door.new; keepers = M.to_come maker.new; service = record { accounts = server.new; moments = C.to_come clock.new } })
        result }
    ensures read { result ≡ RunEnd.FileFailed → Rose (S.health accounts.old) (S.health accounts.new) }
    ensures made { result ≡ RunEnd.KeeperFailed → Rose (M.health maker.old) (M.health maker.new) }
    ensures door { result ≡ RunEnd.DoorFailed → Rose (D.health door.old) (D.health door.new) }
{
    let said = match server_words(alloc, words) {
        Ok(said) => said,
        Err(WordsFault::Usage) => return RunEnd::Usage,
        Err(WordsFault::Memory) => return RunEnd::Memory,
    };
    match open_accounts(
        alloc,
        said.accounts.as_str(),
        accounts,
        maker,
        clock,
        server,
    ) {
        Ok(()) => {}
        Err(fault) => return of_opening(fault),
    }
    match serve_door(alloc, said.listen.as_str(), said.turns, door, server, clock) {
        Ok(()) => RunEnd::Done,
        Err(Failed) => RunEnd::DoorFailed,
    }
}
