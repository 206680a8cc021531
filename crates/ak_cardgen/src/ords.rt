ghost use Rattle.std.specs.Prelude.{◌≡◌, None, Ok, pos, IfOk, OnOk};
ghost use Rattle.ak_base.specs.NoteTypes.{IsCheckedNoteType};
ghost use Rattle.ak_cardgen.specs.Generation.{AreOrds, RefusesAs, ord_end, generation_fault};
ghost use Rattle.ak_template.specs.Clozes.{AscendsWithin};
ghost use Rattle.ak_cardgen.specs.declared.faults.GenFault.TheVariants as faults;

use crate::{Fronts, GenFault, face_of};
use ak_base::{List, NoteType, Text};
use std::alloc::Global;

/// The ords of the cards that a note of the type has. Of a standard type they are the places of the templates whose
/// front shows something of the note, from 0; of a cloze type, the numbers of the clozes that the first front names,
/// minus 1. A missing field counts as empty.
pub fn ords_of(
    alloc: Global,
    note_type: &NoteType,
    fields: &List<Text>,
) -> Result<List<i64>, GenFault>
    ensures ok { IfOk result (AreOrds note_type.now fields.now) }

    // They ascend, each once, from 0: below 500 in a cloze type, below the number of templates in a standard type.
    ensures ascending { IfOk result (AscendsWithin (pos 0) (pos (ord_end note_type.now))) }

    // In a type that passes its check none is over 499.
    ensures below { IsCheckedNoteType note_type.now → IfOk result (AscendsWithin (pos 0) (pos 500)) }

    // The fronts are templates, or the first fault of theirs is the refusal, or memory ran out.
    ensures none { OnOk result (generation_fault note_type.now ≡ None) }
    ensures fault { RefusesAs (generation_fault note_type.now) result }
{
    let fronts = Fronts::of(alloc, note_type)?;
    let face = face_of(alloc, note_type, fields)?;
    let ords = fronts.ords(alloc, &face)?;
    Ok(ords)
}
