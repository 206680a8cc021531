ghost use Rattle.std.specs.Prelude.{◌≡◌, false, OnOk, OnErr};
ghost use Rattle.ak_io.specs.Arrivals.{IsClockMoment};
ghost use Rattle.ak_keep.specs.Keepers.{KeepCause, is_marked};
ghost use Rattle.ak_account_keepers.specs.OpenedAccounts.{IsOpenedAt, IsReady};

use ak_io::Clock;
use ak_keep::{KeepFault, Keeper, keep_or_back};
use ak_openings::opening;
use std::alloc::Global;

/// Puts the opening collection of the clock's moment into a keeper that holds none, as a server's own. One that holds a
/// collection is left as it is, and the clock is not asked.
pub(crate) fn fill_if_empty<K: Keeper, C: Clock>(
    alloc: Global,
    keeper: &mut K,
    clock: &mut C,
) -> Result<(), KeepFault>
    requires unmarked { is_marked (K.keeping keeper.old) ≡ false }
    ensures ready { OnOk result (IsReady K.keeping (C.to_come clock.old) (C.to_come clock.new) keeper.old keeper.new) }
    ensures unmarked { is_marked (K.keeping keeper.new) ≡ false }
    ensures cause { KeepCause (K.health keeper.old) (K.health keeper.new) result }
{
    if keeper.held() {
        return Ok(());
    }
    let now = clock.now();
    put_opening(alloc, keeper, now)
}

/// Puts the opening collection of a moment in milliseconds in place of what is held.
fn put_opening<K: Keeper>(alloc: Global, keeper: &mut K, now: i64) -> Result<(), KeepFault>
    requires unmarked { is_marked (K.keeping keeper.old) ≡ false }
    requires moment { IsClockMoment now }
    ensures ok { OnOk result (IsOpenedAt now (K.keeping keeper.old) (K.keeping keeper.new)) }
    ensures unmarked { is_marked (K.keeping keeper.new) ≡ false }
    ensures cause { KeepCause (K.health keeper.old) (K.health keeper.new) result }
{
    let made = opening(alloc, now, false)?;
    keeper.mark()?;
    let put = keeper.replace_all(made.rows, made.head);
    keep_or_back(keeper, put)
}
