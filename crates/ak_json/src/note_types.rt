ghost use Rattle.std.specs.Prelude.{◌≡◌, None, map, unwrap_or, IfOk, IfErr};
ghost use Rattle.serde_json.specs.Data.{array, no_items};
ghost use Rattle.serde_json.specs.Find.{as_array};
ghost use Rattle.serde_json.specs.View.{view, items_of, items_view};
ghost use Rattle.ak_json.specs.Faults.{Tells};
ghost use Rattle.ak_json.specs.FormFaults.{part_form_fault, parts_form_fault};
ghost use Rattle.ak_json.specs.NoteTypes.{field_of, field_in, fields_in, template_of, template_in, templates_in, fields_json, templates_json, items_at, IsNoteType, note_type_json};
ghost use Rattle.ak_json.specs.Rests.{deep_key};
ghost use Rattle.ak_json.specs.declared.faults.JsonFault.TheVariants as faults;
ghost use Rattle.ak_json.specs.Forms.{field_form, note_type_form, template_form};

use crate::JsonFault;
use crate::cells::{cell_at, integer_at, text_at};
use crate::forms::{FIELD, NOTE_TYPE, TEMPLATE};
use crate::rests::{read_rest, write_object};
use crate::written::Cell;
use ak_base::{CardTemplate, FieldDef, List, Memory, NoteType};
use serde_json::Value;
use std::alloc::Global;

/// The note type of an object of its form.
pub(crate) fn note_type_of(alloc: Global, value: &Value) -> Result<NoteType, JsonFault>
    requires fields { parts_form_fault field_form (items_at 6 (view value.now)) ≡ None }
    requires templates { parts_form_fault template_form (items_at 7 (view value.now)) ≡ None }
    ensures ok { IfOk result (IsNoteType (view value.now)) }
    ensures plain { IfOk result (λ made. deep_key note_type_form (view value.now) ≡ None) }
    ensures err { IfErr result (Tells (deep_key note_type_form (view value.now))) }
{
    let rest = read_rest(alloc, &NOTE_TYPE, value)?;
    let name = text_at(alloc, &NOTE_TYPE, 3, value)?;
    let fields = fields_of(alloc, value)?;
    let templates = templates_of(alloc, value)?;
    Ok(NoteType {
        id: integer_at(&NOTE_TYPE, 0, value),
        stamp: integer_at(&NOTE_TYPE, 1, value),
        usn: integer_at(&NOTE_TYPE, 2, value),
        name,
        cloze: integer_at(&NOTE_TYPE, 4, value) == 1,
        sortf: integer_at(&NOTE_TYPE, 5, value),
        fields,
        templates,
        rest,
    })
}

/// The fields of the list in a column of a note type.
fn fields_of(alloc: Global, value: &Value) -> Result<List<FieldDef>, JsonFault>
    requires { parts_form_fault field_form (items_at 6 (view value.now)) ≡ None }
    ensures ok { IfOk result (λ fields. map field_of fields ≡ fields_in (items_at 6 (view value.now))) }
    ensures err { IfErr result (λ fault. fault ≡ faults.Memory) }
{
    match cell_at(&NOTE_TYPE, 6, value) {
        Some(found) => match found.as_array() {
            Some(values) => read_fields(alloc, values.as_slice()),
            None => Ok(List::new(alloc)),
        },
        None => Ok(List::new(alloc)),
    }
}

/// The fields of a list of objects of their form.
fn read_fields(alloc: Global, values: &[Value]) -> Result<List<FieldDef>, JsonFault>
    requires { parts_form_fault field_form (items_view values.now) ≡ None }
    ensures ok { IfOk result (λ fields. map field_of fields ≡ fields_in (items_view values.now)) }
    ensures err { IfErr result (λ fault. fault ≡ faults.Memory) }
{
    let mut fields = List::new(alloc);
    for value in values {
        let field = read_field(alloc, value)?;
        fields.push(field)?;
    }
    Ok(fields)
}

/// The field of an object of its form.
fn read_field(alloc: Global, value: &Value) -> Result<FieldDef, JsonFault>
    requires { part_form_fault field_form (view value.now) ≡ None }
    ensures ok { IfOk result (λ field. field_of field ≡ field_in (view value.now)) }
    ensures err { IfErr result (λ fault. fault ≡ faults.Memory) }
{
    let rest = read_rest(alloc, &FIELD, value)?;
    let name = text_at(alloc, &FIELD, 0, value)?;
    Ok(FieldDef { name, rest })
}

/// The templates of the list in a column of a note type.
fn templates_of(alloc: Global, value: &Value) -> Result<List<CardTemplate>, JsonFault>
    requires { parts_form_fault template_form (items_at 7 (view value.now)) ≡ None }
    ensures ok { IfOk result (λ templates. map template_of templates ≡ templates_in (items_at 7 (view value.now))) }
    ensures err { IfErr result (λ fault. fault ≡ faults.Memory) }
{
    match cell_at(&NOTE_TYPE, 7, value) {
        Some(found) => match found.as_array() {
            Some(values) => read_templates(alloc, values.as_slice()),
            None => Ok(List::new(alloc)),
        },
        None => Ok(List::new(alloc)),
    }
}

/// The templates of a list of objects of their form.
fn read_templates(alloc: Global, values: &[Value]) -> Result<List<CardTemplate>, JsonFault>
    requires { parts_form_fault template_form (items_view values.now) ≡ None }
    ensures ok { IfOk result (λ templates. map template_of templates ≡ templates_in (items_view values.now)) }
    ensures err { IfErr result (λ fault. fault ≡ faults.Memory) }
{
    let mut templates = List::new(alloc);
    for value in values {
        let template = read_template(alloc, value)?;
        templates.push(template)?;
    }
    Ok(templates)
}

/// The template of an object of its form.
fn read_template(alloc: Global, value: &Value) -> Result<CardTemplate, JsonFault>
    requires { part_form_fault template_form (view value.now) ≡ None }
    ensures ok { IfOk result (λ template. template_of template ≡ template_in (view value.now)) }
    ensures err { IfErr result (λ fault. fault ≡ faults.Memory) }
{
    let rest = read_rest(alloc, &TEMPLATE, value)?;
    let name = text_at(alloc, &TEMPLATE, 0, value)?;
    let front = text_at(alloc, &TEMPLATE, 1, value)?;
    let back = text_at(alloc, &TEMPLATE, 2, value)?;
    Ok(CardTemplate {
        name,
        front,
        back,
        rest,
    })
}

/// The object of a note type.
pub(crate) fn write_note_type(alloc: Global, note_type: &NoteType) -> Result<Value, Memory>
    ensures { IfOk result (λ value. view value ≡ note_type_json note_type.now) }
{
    let fields = write_fields(alloc, note_type.fields.as_slice())?;
    let templates = write_templates(alloc, note_type.templates.as_slice())?;
    write_object(
        alloc,
        &NOTE_TYPE,
        &[
            Cell::Integer(note_type.id),
            Cell::Integer(note_type.stamp),
            Cell::Integer(note_type.usn),
            Cell::Text(&note_type.name),
            Cell::Bit(note_type.cloze),
            Cell::Integer(note_type.sortf),
            Cell::Made(&fields),
            Cell::Made(&templates),
        ],
        &note_type.rest,
    )
}

/// The array of these fields, each with its place.
fn write_fields(alloc: Global, fields: &[FieldDef]) -> Result<Value, Memory>
    ensures { IfOk result (λ value. view value ≡ array (items_of (fields_json 0 fields.now))) }
{
    let mut values = Vec::new(alloc);
    for (place, field) in fields.iter().enumerate() {
        let cells = [Cell::Text(&field.name), Cell::Place(place)];
        let value = write_object(alloc, &FIELD, &cells, &field.rest)?;
        values.push(value)?;
    }
    Ok(Value::Array(values))
}

/// The array of these templates, each with its place.
fn write_templates(alloc: Global, templates: &[CardTemplate]) -> Result<Value, Memory>
    ensures { IfOk result (λ value. view value ≡ array (items_of (templates_json 0 templates.now))) }
{
    let mut values = Vec::new(alloc);
    for (place, template) in templates.iter().enumerate() {
        let cells = [
            Cell::Text(&template.name),
            Cell::Text(&template.front),
            Cell::Text(&template.back),
            Cell::Place(place),
        ];
        let value = write_object(alloc, &TEMPLATE, &cells, &template.rest)?;
        values.push(value)?;
    }
    Ok(Value::Array(values))
}
