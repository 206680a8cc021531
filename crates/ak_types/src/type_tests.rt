ghost use Rattle.std.specs.Prelude.{◌≡◌, length, None, IfErr, OnOk};
ghost use Rattle.ak_edit.specs.Refusals.{AnswersBy, DeskCause};
ghost use Rattle.ak_notes.specs.MadeNotes.{AnswersIn};
ghost use Rattle.ak_types.specs.GivenTypes.{sides_fault};
ghost use Rattle.ak_types.specs.TypeEdits.{IsAskedFault, IsFormFault, IsTestFault, RefusesAsked, RefusesForm, RefusesMaps, RefusesOtherKind, RefusesToChange, RefusesType, RefusesUse, keeps_schema};

use crate::given_types::{as_given, check_given, check_sides};
use crate::place_maps::{PlaceMap, check_map, keeps_all};
use crate::type_edits::TypeEdit;
use crate::used_types::has_notes;
use ak_base::{Name, NoteType, Table};
use ak_edit::DeskFault;
use ak_keep::Keeper;

/// The tests of an edit with the type that is held, but for that of ids: the given type and its maps, then whether cards would be
/// made in another way for notes that have the type, then the schema, and then the sides of the templates.
pub(crate) fn test_type<K: Keeper>(
    keeper: &mut K,
    given: &TypeEdit,
    old: &NoteType,
) -> Result<(), DeskFault>
    ensures same { K.keeping keeper.new ≡ K.keeping keeper.old }
    ensures sides { OnOk result (sides_fault given.now.note_type.templates ≡ None) }
    ensures refused { AnswersIn K.Lookup keeper.old result (RefusesType given.now old.now) }
    ensures listed { IfErr result (IsTestFault given.now.note_type.id) }
    ensures cause { DeskCause (K.health keeper.old) (K.health keeper.new) result }
{
    test_form(given, old)?;
    test_use(keeper, given, old)
}

/// The tests of what is given: the type, and then its maps.
fn test_form(given: &TypeEdit, old: &NoteType) -> Result<(), DeskFault>
    ensures refused { AnswersBy (RefusesForm given.now old.now) result }
    ensures listed { IfErr result IsFormFault }
{
    let note_type = as_given(given.note_type.copy()?);
    check_given(&note_type)?;
    test_maps(given, old)
}

/// The tests of the maps: that of the fields comes first, and places count the new fields and then the new templates.
fn test_maps(given: &TypeEdit, old: &NoteType) -> Result<(), DeskFault>
    ensures refused { AnswersBy (RefusesMaps given.now old.now) result }
    ensures listed { IfErr result IsFormFault }
{
    check_map(&fields_map(given, old), 0)?;
    check_map(
        &templates_map(given, old),
        given.note_type.fields.as_slice().len(),
    )
}

/// The map of the fields.
fn fields_map<'a>(given: &'a TypeEdit, old: &NoteType) -> PlaceMap<'a>
    ensures old { result.old ≡ length old.now.fields }
    ensures new { result.new ≡ length given.now.note_type.fields }
    ensures entries { result.entries.now ≡ given.now.from_fields }
{
    PlaceMap {
        old: old.fields.as_slice().len(),
        new: given.note_type.fields.as_slice().len(),
        entries: given.from_fields.as_slice(),
    }
}

/// The map of the templates.
pub(crate) fn templates_map<'a>(given: &'a TypeEdit, old: &NoteType) -> PlaceMap<'a>
    ensures old { result.old ≡ length old.now.templates }
    ensures new { result.new ≡ length given.now.note_type.templates }
    ensures entries { result.entries.now ≡ given.now.from_templates }
{
    PlaceMap {
        old: old.templates.as_slice().len(),
        new: given.note_type.templates.as_slice().len(),
        entries: given.from_templates.as_slice(),
    }
}

/// The tests of an edit whose form is right: of the notes that have the type, and then of what the edit asks for.
fn test_use<K: Keeper>(keeper: &mut K, given: &TypeEdit, old: &NoteType) -> Result<(), DeskFault>
    ensures same { K.keeping keeper.new ≡ K.keeping keeper.old }
    ensures sides { OnOk result (sides_fault given.now.note_type.templates ≡ None) }
    ensures refused { AnswersIn K.Lookup keeper.old result (RefusesUse given.now old.now) }
    ensures listed { IfErr result (IsTestFault given.now.note_type.id) }
    ensures cause { DeskCause (K.health keeper.old) (K.health keeper.new) result }
{
    test_kind(keeper, given, old)?;
    test_asked(given, old)
}

/// Refuses to make cards in another way for notes that have the type.
fn test_kind<K: Keeper>(keeper: &mut K, given: &TypeEdit, old: &NoteType) -> Result<(), DeskFault>
    ensures same { K.keeping keeper.new ≡ K.keeping keeper.old }
    ensures refused { AnswersIn K.Lookup keeper.old result (RefusesOtherKind given.now old.now) }
    ensures listed { IfErr result (IsTestFault given.now.note_type.id) }
    ensures cause { DeskCause (K.health keeper.old) (K.health keeper.new) result }
{
    if given.note_type.cloze == old.cloze {
        return Ok(());
    }
    if has_notes(keeper, given.note_type.id)? {
        return Err(DeskFault::InUse(Name {
            table: Table::NoteType,
            id: given.note_type.id,
        }));
    }
    Ok(())
}

/// The tests of what the edit asks for: the schema, and then the sides of the templates.
fn test_asked(given: &TypeEdit, old: &NoteType) -> Result<(), DeskFault>
    ensures sides { OnOk result (sides_fault given.now.note_type.templates ≡ None) }
    ensures refused { AnswersBy (RefusesAsked given.now old.now) result }
    ensures listed { IfErr result IsAskedFault }
{
    test_schema(given, old)?;
    check_sides(given.from_fields.allocator(), &given.note_type)
}

/// Refuses a change of the schema that is not allowed.
fn test_schema(given: &TypeEdit, old: &NoteType) -> Result<(), DeskFault>
    ensures refused { AnswersBy (RefusesToChange given.now old.now) result }
    ensures listed { IfErr result IsAskedFault }
{
    if !keeps_schema(given, old) && !given.allow {
        return Err(DeskFault::SchemaAsk);
    }
    Ok(())
}

/// Whether both maps keep all of the old lists: then the schema stays.
pub(crate) fn keeps_schema(given: &TypeEdit, old: &NoteType) -> bool
    ensures { result ≡ keeps_schema given.now old.now }
{
    keeps_all(&fields_map(given, old)) && keeps_all(&templates_map(given, old))
}
