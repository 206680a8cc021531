ghost use Rattle.std.specs.Prelude.{◌≡◌};
ghost use Rattle.ak_desk.specs.Desks.{IsIdle};
ghost use Rattle.ak_desk_language.specs.declared.desk_lines.DeskLine.TheVariants as lines;
ghost use Rattle.ak_desk_lines.specs.Accepted.{answer_with};
ghost use Rattle.ak_desk_lines.specs.LineEnds.{EndsAt};
ghost use Rattle.ak_desk_texts.specs.declared.answers.DeskAnswer.TheVariants as answers;
ghost use Rattle.ak_edit.specs.Refusals.{DeskCause};

use crate::answers::finished;
use crate::turns::Turn;
use ak_desk::Desk;
use ak_desk_texts::DeskAnswer;
use ak_edit::DeskFault;
use ak_keep::Keeper;
use ak_merge::CheckFault;

/// `undo`: undoes the latest step.
pub(crate) fn undo_latest<K: Keeper>(
    desk: &mut Desk<K>,
    turn: Turn,
) -> Result<DeskAnswer, DeskFault>
    requires idle { IsIdle (K.keeping desk.old.keeper.now) }
    ensures ends { EndsAt K.Lookup lines.Undo turn desk.old desk.new result }
    ensures cause { DeskCause (K.health desk.old.keeper.now) (K.health desk.new.keeper.now) result }
    ensures lent { (desk.new.keeper.ghost_name ≡ desk.old.keeper.ghost_name)
        × (desk.new.undo.ghost_name ≡ desk.old.undo.ghost_name) }
{
    finished(desk.undo(turn.at))
}

/// `check`: gives the first fault of the collection. The turn is for the clause alone.
pub(crate) fn check_all<K: Keeper>(desk: &mut Desk<K>, turn: Turn) -> Result<DeskAnswer, DeskFault>
    requires idle { IsIdle (K.keeping desk.old.keeper.now) }
    ensures ends { EndsAt K.Lookup lines.Check turn desk.old desk.new result }
    ensures cause { DeskCause (K.health desk.old.keeper.now) (K.health desk.new.keeper.now) result }
    ensures lent { (desk.new.keeper.ghost_name ≡ desk.old.keeper.ghost_name)
        × (desk.new.undo.ghost_name ≡ desk.old.undo.ghost_name) }
{
    checked(desk.check())
}

/// The answer for a collection that was checked.
fn checked(made: Result<Option<CheckFault>, DeskFault>) -> Result<DeskAnswer, DeskFault>
    ensures { result ≡ answer_with answers.Checked made }
{
    Ok(DeskAnswer::Checked(made?))
}
