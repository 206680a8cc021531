// Whether a note has the texts of a record already.
ghost use Rattle.std.specs.Prelude.{◌≡◌, Decides, IfOk, Some};
ghost use Rattle.ak_imports.specs.SameNotes.{IsSame, IsSameFound};

use ak_base::{List, Memory, Note, Text, copy_texts};
use ak_edit_calls::stored_tags;
use ak_notes::NoteEdit;

/// Whether the note, if there is one, has these texts.
pub(crate) fn is_same(found: &Option<Note>, edit: &NoteEdit) -> Result<bool, Memory>
    ensures { IfOk result (λ same. Decides same (IsSameFound found.now edit.now)) }
{
    match found {
        Some(note) => has_texts(note, edit),
        None => Ok(false),
    }
}

/// Whether the note has these fields, and these tags as a note keeps them.
fn has_texts(note: &Note, edit: &NoteEdit) -> Result<bool, Memory>
    ensures { IfOk result (λ same. Decides same (IsSame note.now edit.now)) }
{
    let alloc = edit.fields.allocator();
    let words = note.field_list(alloc)?;
    let fields = copy_texts(alloc, words.as_slice())?;
    let tags = stored_tags(alloc, edit.tags.as_slice())?;
    Ok(are_equal(&fields, &edit.fields) && is_equal(&note.tags, &tags))
}

/// Whether the lists of texts are equal.
fn are_equal(one: &List<Text>, other: &List<Text>) -> bool
    ensures { Decides result (one.now ≡ other.now) }
{
    one == other
}

/// Whether the texts are equal.
fn is_equal(one: &Text, other: &Text) -> bool
    ensures { Decides result (one.now ≡ other.now) }
{
    one == other
}
