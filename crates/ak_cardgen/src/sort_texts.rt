ghost use Rattle.std.specs.Prelude.{◌≡◌, ◌≤◌, length, IfOk};
ghost use Rattle.ak_cardgen.specs.SortTexts.{field_at, sort_text_of};

use ak_base::{List, Memory, NoteType, Text};
use ak_filters::strip;
use std::alloc::Global;

/// The text that a note of the type is sorted by, as Anki's column `sfld` keeps it: the stripped text of the field at
/// `sortf`. It is empty if the note has no field there.
pub fn sort_text(alloc: Global, note_type: &NoteType, fields: &List<Text>) -> Result<Text, Memory>
    ensures text { IfOk result (λ made. made ≡ sort_text_of note_type.now fields.now) }

    // It is never longer than the field.
    ensures length { IfOk result (λ made. length made ≤ length (field_at note_type.now.sortf fields.now)) }
{
    strip(alloc, field_at(fields.as_slice(), note_type.sortf))
}

/// The field at a place, from 0; an empty text, if there is none.
fn field_at(fields: &[Text], place: i64) -> &str
    ensures { result.now ≡ field_at place fields.now }
{
    if place < 0 {
        return "";
    }
    match fields.get(place as usize) {
        Some(field) => field.as_str(),
        None => "",
    }
}
