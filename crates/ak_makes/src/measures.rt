// A collection that is made of a seed, the day of work on it and its sync, and what is counted of them.
ghost use Rattle.std.specs.Prelude.{◌≡◌, ◌∷◌, [], true, false, IfOk};
ghost use Rattle.ak_keep.specs.Keepers.{all_known, is_marked};
ghost use Rattle.ak_makes.specs.Measures.{IsMeasured, IsSynced, sync_moment};

use crate::days::do_day;
use crate::made_servers::{copied_keeper, counts_on, made_server, make_key};
use ak_base::{List, SessionKey};
use ak_client::{Ids, Outcome, sync_over};
use ak_edit::DeskFault;
use ak_io::ListClock;
use ak_made_collections::MakePlan;
use ak_memory::MemoryKeeper;
use ak_messages::SanityCounts;
use ak_sync_in_memory::{LoggedServer, LoopWire, NothingBetween};
use ak_undo::UndoList;
use std::alloc::Global;

/// When the device syncs, by the clocks of both sides, in milliseconds.
const SYNC_MOMENT: i64 = 1_700_000_300_000;

/// What came of a collection that was made.
#[derive(Clone, Copy, Debug)]
pub struct Measured {
    /// How many rows of each kind the server holds after the sync.
    pub counts: SanityCounts,
    /// How many calls the wire made.
    pub calls: u64,
    /// How the sync ended.
    pub outcome: Outcome,
}

/// Makes the collection of the plan on a server in memory, does a day of work on a device with a copy of it, syncs the device, and counts
/// what the server holds then. It is refused if memory runs out, or for the refusal of an edit of the day.
pub fn measure(alloc: Global, plan: MakePlan) -> Result<Measured, DeskFault>
    ensures { IfOk result (IsMeasured plan.seed plan.size.notes) }
{
    let mut server = made_server(alloc, plan)?;
    let mut undo = UndoList::new(alloc)?;
    let mut keeper = copied_keeper(alloc, &mut server)?;
    do_day(&mut keeper, &mut undo, plan)?;
    let Synced {
        mut server,
        calls,
        outcome,
    } = sync_device(alloc, &mut keeper, &mut undo, server)?;
    let counts = counts_on(alloc, &mut server)?;
    Ok(Measured {
        counts,
        calls,
        outcome,
    })
}

/// A sync that ended, the server after it, and how many calls it made.
#[derive(Drop)]
struct Synced {
    server: LoggedServer,
    calls: u64,
    outcome: Outcome,
}

/// Syncs a device over a wire that leads to this server.
fn sync_device(
    alloc: Global,
    keeper: &mut MemoryKeeper,
    undo: &mut UndoList,
    server: LoggedServer,
) -> Result<Synced, DeskFault>
    requires unmarked { is_marked (all_known keeper.old.kept) ≡ false }
    requires held { (all_known keeper.old.kept).headed.current ≡ true }
    ensures { IfOk result (λ it. IsSynced (all_known keeper.old.kept) (all_known keeper.new.kept)
        server it.server it.calls it.outcome) }
{
    let mut clock = still_clock(alloc)?;
    let ids = Ids {
        host: make_key(),
        session: SessionKey(1),
    };
    let mut wire = LoopWire::new(server, SYNC_MOMENT, List::new(alloc), NothingBetween);
    let outcome = sync_over(keeper, undo, &mut wire, &mut clock, ids);
    let calls = wire.calls();
    let (server, _) = wire.into_parts();
    Ok(Synced {
        server,
        calls,
        outcome,
    })
}

/// A clock that stands at the moment of the sync.
fn still_clock(alloc: Global) -> Result<ListClock, DeskFault>
    ensures { IfOk result (λ clock. clock ≡ sync_moment ∷ []) }
{
    let mut moments = List::new(alloc);
    moments.push(SYNC_MOMENT)?;
    Ok(ListClock::new(moments))
}
