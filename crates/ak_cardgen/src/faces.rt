ghost use Rattle.std.specs.Prelude.{◌≡◌, ◌++◌, ◌∷◌, [], IfOk, OnOk};
ghost use Rattle.std.specs.List.{slice_index_or};
ghost use Rattle.ak_cardgen.specs.Generation.{pair_of, pairs, face_of};

use ak_base::{FieldDef, List, Memory, NoteType, Text};
use ak_template::{Face, Pair};
use std::alloc::Global;

/// What the templates of a type are shown with for a note with these fields: a front, and card 1. A missing field
/// counts as empty, and one too many is not shown.
pub fn face_of(alloc: Global, note_type: &NoteType, fields: &List<Text>) -> Result<Face, Memory>
    ensures { IfOk result (λ face. face ≡ face_of note_type.now fields.now) }
{
    let pairs = make_pairs(alloc, note_type.fields.as_slice(), fields.as_slice())?;
    Ok(Face {
        fields: pairs,
        front: None,
        number: 1,
    })
}

/// The fields with their names, in the order of the type.
fn make_pairs(alloc: Global, defs: &[FieldDef], texts: &[Text]) -> Result<List<Pair>, Memory>
    ensures { IfOk result (λ made. made ≡ pairs defs.now texts.now) }
{
    let mut made = List::new(alloc);
    for place in 0..defs.len() {
        add_pair(&mut made, alloc, &defs[place], text_at(texts, place))?;
    }
    Ok(made)
}

/// The text at a place, or an empty one.
fn text_at(texts: &[Text], place: usize) -> &str
    ensures { result.now ≡ slice_index_or texts.now place [] }
{
    match texts.get(place) {
        Some(text) => text.as_str(),
        None => "",
    }
}

/// Adds a field with its name.
fn add_pair(made: &mut List<Pair>, alloc: Global, def: &FieldDef, text: &str) -> Result<(), Memory>
    ensures { OnOk result (made.new ≡ made.old ++ pair_of def.now text.now ∷ []) }
{
    let name = def.name.copy()?;
    let value = Text::of(alloc, text)?;
    made.push(Pair { name, value })?;
    Ok(())
}
