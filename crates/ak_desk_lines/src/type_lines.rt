ghost use Rattle.std.specs.Prelude.{◌≡◌};
ghost use Rattle.ak_desk.specs.Desks.{IsIdle};
ghost use Rattle.ak_desk_language.specs.declared.desk_lines.DeskLine.TheVariants as lines;
ghost use Rattle.ak_desk_lines.specs.Accepted.{answer_with};
ghost use Rattle.ak_desk_lines.specs.LineEnds.{EndsAt};
ghost use Rattle.ak_desk_texts.specs.declared.answers.DeskAnswer.TheVariants as answers;
ghost use Rattle.ak_edit.specs.Refusals.{DeskCause};

use crate::answers::finished;
use crate::turns::Turn;
use ak_base::NoteType;
use ak_desk::Desk;
use ak_desk_texts::DeskAnswer;
use ak_edit::DeskFault;
use ak_keep::Keeper;
use ak_types::{DeleteNoteType, TypeEdit};

/// `type`: adds a note type.
pub(crate) fn add_type<K: Keeper>(
    desk: &mut Desk<K>,
    note_type: NoteType,
    turn: Turn,
) -> Result<DeskAnswer, DeskFault>
    requires idle { IsIdle (K.keeping desk.old.keeper.now) }
    ensures ends { EndsAt K.Lookup (lines.AddType note_type) turn desk.old desk.new result }
    ensures cause { DeskCause (K.health desk.old.keeper.now) (K.health desk.new.keeper.now) result }
    ensures lent { (desk.new.keeper.ghost_name ≡ desk.old.keeper.ghost_name)
        × (desk.new.undo.ghost_name ≡ desk.old.undo.ghost_name) }
{
    added_type(desk.add_note_type(note_type, turn.at))
}

/// The answer for a note type that was added: its id.
fn added_type(made: Result<i64, DeskFault>) -> Result<DeskAnswer, DeskFault>
    ensures { result ≡ answer_with answers.AddedType made }
{
    Ok(DeskAnswer::AddedType(made?))
}

/// `retype`: puts a note type in place of the one of its id.
pub(crate) fn edit_type<K: Keeper>(
    desk: &mut Desk<K>,
    given: &TypeEdit,
    turn: Turn,
) -> Result<DeskAnswer, DeskFault>
    requires idle { IsIdle (K.keeping desk.old.keeper.now) }
    ensures ends { EndsAt K.Lookup (lines.EditType given.now.allow given.now.note_type given.now.from_fields
        given.now.from_templates) turn desk.old desk.new result }
    ensures cause { DeskCause (K.health desk.old.keeper.now) (K.health desk.new.keeper.now) result }
    ensures lent { (desk.new.keeper.ghost_name ≡ desk.old.keeper.ghost_name)
        × (desk.new.undo.ghost_name ≡ desk.old.undo.ghost_name) }
{
    finished(desk.edit_note_type(given, turn.at))
}

/// `untype`: deletes a note type.
pub(crate) fn delete_type<K: Keeper>(
    desk: &mut Desk<K>,
    note_type: i64,
    allow: bool,
    turn: Turn,
) -> Result<DeskAnswer, DeskFault>
    requires idle { IsIdle (K.keeping desk.old.keeper.now) }
    ensures ends { EndsAt K.Lookup (lines.DeleteType allow note_type) turn desk.old desk.new result }
    ensures cause { DeskCause (K.health desk.old.keeper.now) (K.health desk.new.keeper.now) result }
    ensures lent { (desk.new.keeper.ghost_name ≡ desk.old.keeper.ghost_name)
        × (desk.new.undo.ghost_name ≡ desk.old.undo.ghost_name) }
{
    let deleted = DeleteNoteType { note_type, allow };
    finished(desk.delete_note_type(&deleted, turn.at))
}
