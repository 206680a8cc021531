ghost use Rattle.std.specs.Prelude.{◌≡◌, ◌==◌, IfErr, None, OnOk};
ghost use Rattle.std.specs.List.{AllByRecursion, list_any};
ghost use Rattle.ak_edit.specs.Refusals.{AnswersBy};
ghost use Rattle.ak_merge.specs.Tags.{IsTagName};
ghost use Rattle.ak_notes.specs.MadeNotes.{IsGivenFault};
ghost use Rattle.ak_notes.specs.GivenTexts.{RefusesCount, RefusesGiven, RefusesTexts, field_fault, fields_fault, given_fault, is_space_or_less, tag_fault, tags_fault};

use ak_base::{List, NAME_BYTES, NoteType, RowFault, Text};
use ak_edit::DeskFault;

/// Tests the fields and the tags that a note of this type is to have: their number, then each tag, then each field. It takes no
/// memory.
pub(crate) fn check_given(
    note_type: &NoteType,
    fields: &List<Text>,
    tags: &List<Text>,
) -> Result<(), DeskFault>
    ensures refused { AnswersBy (RefusesGiven note_type.now fields.now tags.now) result }
    ensures names { OnOk result (AllByRecursion IsTagName tags.now) }
    ensures listed { IfErr result IsGivenFault }
{
    check_count(note_type, fields)?;
    check_texts(fields, tags)
}

/// Tests that there are as many fields as the type has.
fn check_count(note_type: &NoteType, fields: &List<Text>) -> Result<(), DeskFault>
    ensures refused { AnswersBy (RefusesCount note_type.now fields.now) result }
    ensures listed { IfErr result IsGivenFault }
{
    let want = note_type.fields.as_slice().len() as u64;
    let got = fields.as_slice().len() as u64;
    if got == want {
        return Ok(());
    }
    Err(DeskFault::FieldCount { want, got })
}

/// Tests each tag, and then each field.
fn check_texts(fields: &List<Text>, tags: &List<Text>) -> Result<(), DeskFault>
    ensures refused { AnswersBy (RefusesTexts fields.now tags.now) result }
    ensures names { OnOk result (AllByRecursion IsTagName tags.now) }
    ensures listed { IfErr result IsGivenFault }
{
    let found = given_fault(fields, tags);
    match found {
        Some(fault) => Err(DeskFault::Row(fault)),
        None => Ok(()),
    }
}

/// The first fault of the tags, and then of the fields.
fn given_fault(fields: &List<Text>, tags: &List<Text>) -> Option<RowFault>
    ensures { result ≡ given_fault fields.now tags.now }
{
    tags_fault(tags.as_slice()).or(fields_fault(fields.as_slice()))
}

/// The fault of the first tag that has one.
fn tags_fault(tags: &[Text]) -> Option<RowFault>
    ensures { result ≡ tags_fault tags.now }
{
    for tag in tags {
        if let Some(fault) = tag_fault(tag.as_str()) {
            return Some(fault);
        }
    }
    None
}

/// The fault of a tag.
fn tag_fault(tag: &str) -> Option<RowFault>
    ensures { result ≡ tag_fault tag.now }
{
    let bytes = tag.as_bytes();
    let length = bytes.len() as u64;
    if length == 0 {
        return Some(RowFault::BadCode {
            column: 5,
            value: 0,
        });
    }
    if length > NAME_BYTES {
        return Some(RowFault::TooLong { column: 5, length });
    }
    if has_space_or_less(bytes) {
        return Some(RowFault::BadCode {
            column: 5,
            value: 0,
        });
    }
    None
}

/// Whether one of the bytes is a space or under it.
fn has_space_or_less(bytes: &[u8]) -> bool
    ensures { result ≡ list_any is_space_or_less bytes.now }
{
    for byte in bytes {
        if *byte <= 32 {
            return true;
        }
    }
    false
}

/// The fault of the first field that has one.
fn fields_fault(fields: &[Text]) -> Option<RowFault>
    ensures { result ≡ fields_fault fields.now }
{
    for field in fields {
        if let Some(fault) = field_fault(field.as_str()) {
            return Some(fault);
        }
    }
    None
}

/// The fault of a field.
fn field_fault(field: &str) -> Option<RowFault>
    ensures { result ≡ field_fault field.now }
{
    if has_separator(field.as_bytes()) {
        return Some(RowFault::BadCode {
            column: 6,
            value: 0,
        });
    }
    None
}

/// Whether one of the bytes is the one that separates fields.
fn has_separator(bytes: &[u8]) -> bool
    ensures { result ≡ list_any (λ byte. byte == 31) bytes.now }
{
    for byte in bytes {
        if *byte == 31 {
            return true;
        }
    }
    false
}
