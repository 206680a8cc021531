// A note type in a box. A search turns from type to type with each note, and a type takes hundreds of bytes.
ghost use Rattle.std.specs.Prelude.{◌≡◌, IfOk};
ghost use Rattle.ak_keep.specs.Lookups.{note_type_at};
ghost use Rattle.ak_keep.specs.Readings.{ReadsBy};

use ak_base::{Memory, NoteType};
use ak_keep::{KeepFault, Lookup, note_type_at};
use std::alloc::Global;
use std::marker::Model;

/// A type that is moved without a copy, seen as that type.
#[derive(Debug, Drop)]
pub(crate) struct BoxedType {
    boxed: Box<NoteType>,
}

impl Model for BoxedType {
    ghost use Rattle.ak_base.specs.declared.note_types.NoteType.{NoteType};

    ghost Value = { NoteType };

    ghost view = { λ b. b.boxed.value };
}

impl BoxedType {
    /// The type in the box.
    pub(crate) fn note_type(&self) -> &NoteType
        ensures { result.now ≡ self.now }
    {
        &self.boxed
    }
}

/// Puts the type into a box, if there is one.
fn boxed(alloc: Global, note_type: Option<NoteType>) -> Result<Option<BoxedType>, Memory>
    ensures { IfOk result (λ made. made ≡ note_type) }
{
    match note_type {
        Some(note_type) => {
            let boxed = Box::new(alloc, note_type)?;
            Ok(Some(BoxedType { boxed }))
        }
        None => Ok(None),
    }
}

/// The type of this id, None if it is not held.
pub(crate) fn boxed_type_at<R: Lookup>(
    alloc: Global,
    from: &mut R,
    id: i64,
) -> Result<Option<BoxedType>, KeepFault>
    ensures reads { ReadsBy R.Lookup from.old from.new result (λ h note_type. note_type ≡ note_type_at h.rows id) }
{
    let found = note_type_at(from, id)?;
    let made = boxed(alloc, found)?;
    Ok(made)
}
