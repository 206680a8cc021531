ghost use Rattle.std.specs.Prelude.{◌≡◌, ℤ, false, OnErr, OnOk};
ghost use Rattle.ak_desk_runs.specs.Inits.{EndsInit, IsOpened};
ghost use Rattle.ak_io.specs.Arrivals.{GivesNext, IsClockMoment};
ghost use Rattle.ak_keep.specs.Keepers.{KeepCause, is_marked};
ghost use Rattle.ak_line_runs.specs.CommandEnds.{IsKeeperCaused, IsOutputCaused};

use ak_io::{Clock, Sink};
use ak_keep::{KeepFault, Keeper, keep_or_back};
use ak_line_runs::{CommandEnd, refuse_command};
use ak_openings::opening;
use std::alloc::Global;

/// Puts the opening collection of the clock's moment, if none is held. It prints nothing then.
pub fn init_collection<K: Keeper, C: Clock, O: Sink>(
    alloc: Global,
    keeper: &mut K,
    clock: &mut C,
    out: &mut O,
) -> CommandEnd
    requires unmarked { is_marked (K.keeping keeper.old) ≡ false }

    // It takes one moment, and leaves the collection of that moment, or all as it was.
    ensures ends { (at : ℤ) × IsClockMoment at × GivesNext (C.to_come clock.old) (C.to_come clock.new) at
        × EndsInit at result (K.keeping keeper.old) (K.keeping keeper.new) (O.written out.old) (O.written out.new) }
    ensures unmarked { is_marked (K.keeping keeper.new) ≡ false }
    ensures kept { IsKeeperCaused (K.health keeper.old) (K.health keeper.new) result }
    ensures written { IsOutputCaused (O.health out.old) (O.health out.new) result }
{
    let at = clock.now();
    if keeper.held() {
        return refuse_command(out, "collection held");
    }
    match put_opening(alloc, keeper, at) {
        Ok(()) => CommandEnd::Done,
        Err(KeepFault::Failed) => CommandEnd::KeeperFailed,
        Err(KeepFault::Memory) => CommandEnd::Memory,
    }
}

/// Puts the opening collection of a moment in milliseconds, whose rows are to be sent, in place of what is held.
fn put_opening<K: Keeper>(alloc: Global, keeper: &mut K, at: i64) -> Result<(), KeepFault>
    requires unmarked { is_marked (K.keeping keeper.old) ≡ false }
    requires moment { IsClockMoment at }
    ensures ok { OnOk result (IsOpened at (K.keeping keeper.old) (K.keeping keeper.new)) }
    ensures err { OnErr result (K.keeping keeper.new ≡ K.keeping keeper.old) }
    ensures cause { KeepCause (K.health keeper.old) (K.health keeper.new) result }
{
    let made = opening(alloc, at, true)?;
    keeper.mark()?;
    let put = keeper.replace_all(made.rows, made.head);
    keep_or_back(keeper, put)
}
