ghost use Rattle.std.specs.Prelude.{◌≡◌, pos};
ghost use Rattle.ak_base.specs.Heads.{IsWithin};
ghost use Rattle.ak_desk.specs.Desks.{IsIdle};
ghost use Rattle.ak_desk_language.specs.declared.desk_lines.DeskLine.TheVariants as lines;
ghost use Rattle.ak_desk_lines.specs.Accepted.{answer_with};
ghost use Rattle.ak_desk_lines.specs.LineEnds.{EndsAt};
ghost use Rattle.ak_desk_texts.specs.declared.answers.DeskAnswer.TheVariants as answers;
ghost use Rattle.ak_edit.specs.Refusals.{DeskCause};

use crate::answers::finished;
use crate::turns::Turn;
use ak_base::Options;
use ak_desk::Desk;
use ak_desk_texts::DeskAnswer;
use ak_edit::DeskFault;
use ak_keep::Keeper;
use ak_options::DeleteOptions;

/// `options` with the id 0: adds a group.
pub(crate) fn add_options<K: Keeper>(
    desk: &mut Desk<K>,
    options: Options,
    turn: Turn,
) -> Result<DeskAnswer, DeskFault>
    requires idle { IsIdle (K.keeping desk.old.keeper.now) }
    ensures ends { EndsAt K.Lookup (lines.AddOptions options) turn desk.old desk.new result }
    ensures cause { DeskCause (K.health desk.old.keeper.now) (K.health desk.new.keeper.now) result }
    ensures lent { (desk.new.keeper.ghost_name ≡ desk.old.keeper.ghost_name)
        × (desk.new.undo.ghost_name ≡ desk.old.undo.ghost_name) }
{
    added_options(desk.add_options(options, turn.at))
}

/// The answer for a group that was added: its id.
fn added_options(made: Result<i64, DeskFault>) -> Result<DeskAnswer, DeskFault>
    ensures { result ≡ answer_with answers.PutOptions made }
{
    Ok(DeskAnswer::PutOptions(made?))
}

/// `options` with any other id: puts the group in place of the one of its id.
pub(crate) fn set_options<K: Keeper>(
    desk: &mut Desk<K>,
    options: Options,
    turn: Turn,
) -> Result<DeskAnswer, DeskFault>
    requires idle { IsIdle (K.keeping desk.old.keeper.now) }
    ensures ends { EndsAt K.Lookup (lines.SetOptions options) turn desk.old desk.new result }
    ensures cause { DeskCause (K.health desk.old.keeper.now) (K.health desk.new.keeper.now) result }
    ensures lent { (desk.new.keeper.ghost_name ≡ desk.old.keeper.ghost_name)
        × (desk.new.undo.ghost_name ≡ desk.old.undo.ghost_name) }
{
    let id = options.id;
    put_options(id, desk.set_options(options, turn.at))
}

/// The answer for a group that was put in place of the one of its id.
fn put_options(id: i64, made: Result<(), DeskFault>) -> Result<DeskAnswer, DeskFault>
    ensures { result ≡ answer_with (λ _. answers.PutOptions id) made }
{
    made?;
    Ok(DeskAnswer::PutOptions(id))
}

/// `unoptions`: deletes a group.
pub(crate) fn delete_options<K: Keeper>(
    desk: &mut Desk<K>,
    options: i64,
    allow: bool,
    turn: Turn,
) -> Result<DeskAnswer, DeskFault>
    requires idle { IsIdle (K.keeping desk.old.keeper.now) }
    ensures ends { EndsAt K.Lookup (lines.DeleteOptions allow options) turn desk.old desk.new result }
    ensures cause { DeskCause (K.health desk.old.keeper.now) (K.health desk.new.keeper.now) result }
    ensures lent { (desk.new.keeper.ghost_name ≡ desk.old.keeper.ghost_name)
        × (desk.new.undo.ghost_name ≡ desk.old.undo.ghost_name) }
{
    let deleted = DeleteOptions { options, allow };
    finished(desk.delete_options(&deleted, turn.at))
}

/// `spread`: sets where new cards come among reviews, by a number from 0 to 2.
pub(crate) fn set_spread<K: Keeper>(
    desk: &mut Desk<K>,
    spread: i64,
    turn: Turn,
) -> Result<DeskAnswer, DeskFault>
    requires idle { IsIdle (K.keeping desk.old.keeper.now) }
    requires spread { IsWithin (pos 0) (pos 2) spread }
    ensures ends { EndsAt K.Lookup (lines.SetSpread spread) turn desk.old desk.new result }
    ensures cause { DeskCause (K.health desk.old.keeper.now) (K.health desk.new.keeper.now) result }
    ensures lent { (desk.new.keeper.ghost_name ≡ desk.old.keeper.ghost_name)
        × (desk.new.undo.ghost_name ≡ desk.old.undo.ghost_name) }
{
    finished(desk.set_spread(spread, turn.at))
}
