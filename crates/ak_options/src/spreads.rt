ghost use Rattle.std.specs.Prelude.{◌≡◌, pos, true, false, IfErr};
ghost use Rattle.ak_base.specs.Heads.{IsConfInRange, IsWithin};
ghost use Rattle.ak_edit.specs.Refusals.{DeskCause, IsEndFault};
ghost use Rattle.ak_edit_calls.specs.Calls.{EditsBy};
ghost use Rattle.ak_keep.specs.Keepers.{is_marked};
ghost use Rattle.ak_options.specs.Spreads.{RefusesSpread, spreading, with_spread};

use ak_base::Conf;
use ak_edit::{Change, DeskFault};
use ak_keep::Keeper;
use ak_undo::UndoList;

/// Sets where new cards come, at a moment in milliseconds: 0 for among reviews, 1 for after them, 2 for before them. If they
/// come there already, nothing changes. It is refused for a moment that can't rise.
pub fn set_spread<K: Keeper>(
    keeper: &mut K,
    steps: &mut UndoList,
    value: i64,
    at: i64,
) -> Result<(), DeskFault>
    requires unmarked { is_marked (K.keeping keeper.old) ≡ false }
    requires held { (K.keeping keeper.old).headed.current ≡ true }
    requires value { IsWithin (pos 0) (pos 2) value }
    ensures edits { EditsBy K.Lookup keeper.old keeper.new steps.old steps.new result at
        (spreading value) (RefusesSpread at value) }
    ensures listed { IfErr result IsEndFault }
    ensures cause { DeskCause (K.health keeper.old) (K.health keeper.new) result }
{
    // For the proof alone: it says that the settings that the keeper gives are in range.
    let _checks = keeper.marked();
    let mut change = Change::new(steps.allocator());
    let conf = change.conf(keeper)?;
    change.set_conf(with_spread(conf, value));
    change.finish(keeper, steps, at)
}

/// The settings with this spread.
fn with_spread(conf: Conf, value: i64) -> Conf
    requires conf { IsConfInRange conf }
    requires value { IsWithin (pos 0) (pos 2) value }
    ensures made { result ≡ with_spread value conf }
    ensures range { IsConfInRange result }
{
    let mut made = conf;
    made.new_spread = value;
    made
}
