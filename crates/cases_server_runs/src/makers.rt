ghost use Rattle.std.specs.Prelude.{◌≡◌, IfOk};
ghost use Rattle.std.specs.List.{All};
ghost use Rattle.ak_account_keepers.specs.Makers.{IsNew};

use ak_account_keepers::MemoryMaker;
use ak_base::List;
use ak_keep::{Keeper, Lookup};
use ak_memory::MemoryKeeper;
use cases_lines::Unread;
use std::alloc::Global;

/// A maker of these keepers, none of which may be marked or have had a fault.
pub fn maker_of(
    alloc: Global,
    keepers: Vec<MemoryKeeper>,
    fails: List<u64>,
) -> Result<MemoryMaker, Unread> {
    let mut checked = List::new(alloc);
    for keeper in keepers {
        checked.push(new_one(keeper)?)?;
    }
    Ok(MemoryMaker::new(checked, fails))
}

/// The keeper, if it is not marked and has had no fault.
fn new_one(keeper: MemoryKeeper) -> Result<MemoryKeeper, Unread>
    ensures { IfOk result IsNew }
{
    if keeper.marked() || keeper.faults() != 0 {
        return Err(Unread::Bad);
    }
    Ok(keeper)
}
