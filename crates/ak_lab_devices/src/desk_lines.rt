ghost use Rattle.std.specs.Prelude.{◌≡◌, map};
ghost use Rattle.ak_any_lines.specs.AnyEnds.{AppliesToAny, EndsAnyLine};
ghost use Rattle.ak_any_lines.specs.LineResults.{RefusalCause};
ghost use Rattle.ak_desk_language.specs.AnyLines.{IsAnyInRange};
ghost use Rattle.ak_keep.specs.Keepers.{all_known};
ghost use Rattle.ak_keep.specs.MemoryKeepers.{health_of};
ghost use Rattle.ak_lab_devices.specs.RestingKeepers.{IsAtRest};
ghost use Rattle.ak_study.specs.DayStarts.{IsInDay};

use ak_any_lines::obey_any;
use ak_desk::Desk;
use ak_desk_language::AnyLine;
use ak_desk_lines::Turn;
use ak_desk_texts::{DeskAnswer, LineRefusal};
use ak_filters::FieldFilter;
use ak_memory::MemoryKeeper;
use ak_undo::UndoList;

/// Does a line at a desk over the keeper and the list.
pub(crate) fn obey_with(
    keeper: &mut MemoryKeeper,
    undo: &mut UndoList,
    said: AnyLine,
    turn: Turn,
    filters: &mut Vec<Box<dyn FieldFilter>>,
) -> Result<DeskAnswer, LineRefusal>
    requires rest { IsAtRest keeper.old }
    requires moment { IsInDay turn.at }
    requires range { IsAnyInRange said }
    ensures ends { EndsAnyLine said turn (record { keeping = all_known keeper.old.kept; steps = undo.old })
        (record { keeping = all_known keeper.new.kept; steps = undo.new }) result }
    ensures filters { AppliesToAny said (all_known keeper.old.kept)
        (map (λ b. meaning b) filters.old.items) (map (λ b. meaning b) filters.new.items) result }
    ensures stays { (all_known keeper.new.kept).headed ≡ (all_known keeper.old.kept).headed }
    ensures cause { RefusalCause (health_of keeper.old) (health_of keeper.new) result }
{
    let mut desk = Desk::over(keeper, undo);
    obey_any(&mut desk, said, turn, filters)
}
