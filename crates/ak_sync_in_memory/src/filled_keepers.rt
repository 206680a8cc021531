ghost use Rattle.std.specs.List.{All, IsDistinct};
ghost use Rattle.std.specs.Ordering.{eq_by_cmp};
ghost use Rattle.std.specs.Prelude.{◌≡◌, false, None, map, IfOk, OnOk};
ghost use Rattle.ak_base.specs.Heads.{IsHeadInRange};
ghost use Rattle.ak_base.specs.Names.{name_cmp};
ghost use Rattle.ak_base.specs.Rows.{IsChecked, name_of};
ghost use Rattle.ak_keep.specs.Collections.{made_of};
ghost use Rattle.ak_keep.specs.Keepers.{KeepCause, all_known, is_marked};
ghost use Rattle.ak_keep.specs.MemoryKeepers.{health_of};
ghost use Rattle.ak_sync_in_memory.specs.LoggedServers.{HoldsOpening};

use ak_base::{Head, List, Memory, Row};
use ak_keep::{KeepFault, Keeper};
use ak_memory::MemoryKeeper;
use ak_openings::Opening;
use std::alloc::Global;

/// A keeper in memory that holds this collection, and that is not marked. Its calls don't fail.
pub fn keeper_with(alloc: Global, opening: Opening) -> Result<MemoryKeeper, Memory>
    requires checked { All IsChecked opening.rows }
    requires distinct { IsDistinct (eq_by_cmp name_cmp) (map name_of opening.rows) }
    requires range { IsHeadInRange opening.head }
    ensures { IfOk result (HoldsOpening opening) }
{
    let mut keeper = MemoryKeeper::new(alloc);
    match fill(&mut keeper, opening.rows, opening.head) {
        Ok(()) => Ok(keeper),
        Err(_) => Err(Memory),
    }
}

/// Puts a collection into a keeper that is not marked.
fn fill(keeper: &mut MemoryKeeper, rows: List<Row>, head: Head) -> Result<(), KeepFault>
    requires unmarked { is_marked (all_known keeper.old.kept) ≡ false }
    requires checked { All IsChecked rows }
    requires distinct { IsDistinct (eq_by_cmp name_cmp) (map name_of rows) }
    requires range { IsHeadInRange head }
    ensures ok { OnOk result (keeper.new.kept ≡ record { current = made_of rows head; mark = None }) }
    ensures fails { keeper.new.fails ≡ keeper.old.fails }
    ensures cause { KeepCause (health_of keeper.old) (health_of keeper.new) result }
{
    keeper.mark()?;
    keeper.replace_all(rows, head)?;
    keeper.commit()
}
