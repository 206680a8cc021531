// A server with the collection that is made, and copies of what it committed.
ghost use Rattle.std.specs.List.{All, IsDistinct};
ghost use Rattle.std.specs.Ordering.{eq_by_cmp};
ghost use Rattle.std.specs.Prelude.{◌≡◌, true, false, map, Some, IfOk};
ghost use Rattle.ak_base.specs.Heads.{IsHeadInRange};
ghost use Rattle.ak_base.specs.Names.{name_cmp};
ghost use Rattle.ak_base.specs.Rows.{IsChecked, name_of};
ghost use Rattle.ak_keep.specs.Keepers.{all_known, is_marked};
ghost use Rattle.ak_makes.specs.MadeServers.{AreCountsOn, HoldsCopy, IsServerOf, make_host};
ghost use Rattle.ak_sync_in_memory.specs.Copies.{IsViewed, committed_in};
ghost use Rattle.ak_sync_in_memory.specs.Entries.{collection_in};

use ak_base::{HostKey, Text};
use ak_edit::DeskFault;
use ak_made_collections::{MakePlan, made_collection};
use ak_memory::MemoryKeeper;
use ak_messages::SanityCounts;
use ak_openings::Opening;
use ak_sync_in_memory::{LoggedServer, keeper_with, view_all};
use ak_sync_rows::counts_of;
use std::alloc::Global;

/// A server that was opened with the collection of the plan.
pub(crate) fn made_server(alloc: Global, plan: MakePlan) -> Result<LoggedServer, DeskFault>
    ensures { IfOk result (IsServerOf plan.seed plan.size.notes) }
{
    let made = made_collection(alloc, plan)?;
    let name = Text::of(alloc, "make")?;
    let server = LoggedServer::new(alloc, name, make_key(), made)?;
    Ok(server)
}

/// A keeper with a copy of what the server committed, as after a download.
pub(crate) fn copied_keeper(
    alloc: Global,
    server: &mut LoggedServer,
) -> Result<MemoryKeeper, DeskFault>
    ensures copy { IfOk result (λ keeper. HoldsCopy server.old (all_known keeper.kept)) }
    ensures viewed { IsViewed server.old server.new }
    ensures unmarked { IfOk result (λ keeper. is_marked (all_known keeper.kept) ≡ false) }
    ensures held { IfOk result (λ keeper. (all_known keeper.kept).headed.current ≡ true) }
{
    let mut opening = committed_opening(alloc, server)?;
    opening.head.last_sync = opening.head.moment;
    let keeper = keeper_with(alloc, opening)?;
    Ok(keeper)
}

/// How many rows of each kind the server committed.
pub(crate) fn counts_on(alloc: Global, server: &mut LoggedServer) -> Result<SanityCounts, DeskFault>
    ensures counted { IfOk result (AreCountsOn server.old) }
{
    let opening = committed_opening(alloc, server)?;
    let mut keeper = keeper_with(alloc, opening)?;
    let counts = counts_of(&mut keeper)?;
    Ok(counts)
}

/// What the server committed.
fn committed_opening(alloc: Global, server: &mut LoggedServer) -> Result<Opening, DeskFault>
    ensures viewed { IsViewed server.old server.new }
    ensures copy { IfOk result (λ opening. committed_in server.old ≡ Some (collection_in opening)) }
    ensures checked { IfOk result (λ opening. All IsChecked opening.rows) }
    ensures distinct { IfOk result (λ opening. IsDistinct (eq_by_cmp name_cmp) (map name_of opening.rows)) }
    ensures range { IfOk result (λ opening. IsHeadInRange opening.head) }
{
    let opening = view_all(alloc, server)?;
    Ok(opening)
}

/// The host key of the server's account: 32 times the letter `a`.
pub(crate) fn make_key() -> HostKey
    ensures { result.digits ≡ make_host }
{
    match HostKey::of("aaaaaaaaaaaaaaaaaaaaaaaaaaaaaaaa") {
        Some(key) => key,
        None => unreachable!(),
    }
}
