ghost use Rattle.std.specs.Prelude.{◌≡◌, ◌++◌, ◌∷◌, [], ◌<◌, pos, IfOk, OnOk};
ghost use Rattle.std.specs.List.{join_with_byte};
ghost use Rattle.std.specs.Option.{unwrap_or};
ghost use Rattle.std.specs.String.{string_bytes};
ghost use Rattle.ak_cardgen.specs.SortTexts.{field_at};
ghost use Rattle.ak_notes.specs.NoteRows.{blank_note, hex_digit, led_by, made_guid, with_fields, with_texts};

use ak_base::{List, Memory, Note, NoteType, Text};
use ak_cardgen::{csum, sort_text};
use ak_edit_calls::stored_tags;
use std::alloc::Global;

/// The note with these fields and tags, as one of this type.
pub(crate) fn with_texts(
    note: Note,
    note_type: &NoteType,
    fields: &List<Text>,
    tags: &List<Text>,
) -> Result<Note, Memory>
    ensures { IfOk result (λ made. made ≡ with_texts note_type.now fields.now tags.now note) }
{
    let mut made = with_fields(note, note_type, fields)?;
    made.tags = stored_tags(fields.allocator(), tags.as_slice())?;
    Ok(made)
}

/// The note with these fields, as one of this type: what it is sorted by and its checksum follow, and its tags stay.
pub fn with_fields(note: Note, note_type: &NoteType, fields: &List<Text>) -> Result<Note, Memory>
    ensures { IfOk result (λ made. made ≡ with_fields note_type.now fields.now note) }
{
    let alloc = fields.allocator();
    let mut made = note;
    made.flds = joined_fields(alloc, fields.as_slice())?;
    made.sfld = sort_text(alloc, note_type, fields)?;
    made.csum = csum(alloc, first_field(fields.as_slice()))?;
    Ok(made)
}

/// The fields in their order, with the byte 0x1F between each two.
fn joined_fields(alloc: Global, fields: &[Text]) -> Result<Text, Memory>
    ensures { IfOk result (λ made. made ≡ join_with_byte 31 fields.now) }
{
    match fields {
        [] => Text::of(alloc, ""),
        [first, others @ ..] => joined_first(alloc, first.as_str(), others),
    }
}

/// The first field and the others, with the byte 0x1F between each two.
#[tactic(auto, using(crate::proofs::NoteRows::joined_led))]
fn joined_first(alloc: Global, first: &str, others: &[Text]) -> Result<Text, Memory>
    ensures { IfOk result (λ made. made ≡ join_with_byte 31 (first.now ∷ others.now)) }
{
    let mut text = String::from_str(alloc, first)?;
    add_fields(&mut text, others)?;
    Ok(Text::from(text))
}

/// Adds fields, the byte 0x1F before each.
fn add_fields(text: &mut String, fields: &[Text]) -> Result<(), Memory>
    ensures { OnOk result (string_bytes text.new ≡ string_bytes text.old ++ led_by 31 fields.now) }
{
    for field in fields {
        add_field(text, field.as_str())?;
    }
    Ok(())
}

/// Adds the byte 0x1F and a field.
fn add_field(text: &mut String, field: &str) -> Result<(), Memory>
    ensures { OnOk result (string_bytes text.new ≡ string_bytes text.old ++ 31 ∷ field.now) }
{
    text.push('\u{1f}')?;
    text.push_str(field)?;
    Ok(())
}

/// The first field, empty if there is none.
fn first_field(fields: &[Text]) -> &str
    ensures { result.now ≡ field_at (pos 0) fields.now }
{
    match fields.get(0) {
        Some(field) => field.as_str(),
        None => "",
    }
}

/// A note of this id, type and name for all devices, without texts.
pub(crate) fn blank_note(alloc: Global, id: i64, note_type: i64, guid: Text) -> Result<Note, Memory>
    ensures { IfOk result (λ note. note ≡ blank_note id note_type guid) }
{
    let tags = Text::of(alloc, "")?;
    let flds = Text::of(alloc, "")?;
    let sfld = Text::of(alloc, "")?;
    let extra = Text::of(alloc, "")?;
    Ok(Note {
        id,
        guid,
        mid: note_type,
        stamp: 0,
        usn: -1,
        tags,
        flds,
        sfld,
        csum: 0,
        flags: 0,
        extra,
    })
}

/// What a note is called on every device: as it is given, and else by its id and a word of chance.
pub(crate) fn guid_of(
    alloc: Global,
    given: &Option<Text>,
    id: i64,
    chance: u64,
) -> Result<Text, Memory>
    ensures { IfOk result (λ guid. guid ≡ unwrap_or given.now (made_guid id chance)) }
{
    match given {
        Some(guid) => guid.copy(),
        None => made_guid(alloc, id, chance),
    }
}

/// What a note is called that is given no name: its id, `-`, and the last four hexadecimal digits of a word of chance.
pub fn made_guid(alloc: Global, id: i64, chance: u64) -> Result<Text, Memory>
    ensures { IfOk result (λ guid. guid ≡ made_guid id chance) }
{
    let mut text = format!(in alloc; "{id}-")?;
    text.push(hex_digit(chance / 4096 % 16))?;
    text.push(hex_digit(chance / 256 % 16))?;
    text.push(hex_digit(chance / 16 % 16))?;
    text.push(hex_digit(chance % 16))?;
    Ok(Text::from(text))
}

/// A hexadecimal digit, in lower case.
fn hex_digit(digit: u64) -> char
    requires { digit < 16 }
    ensures digit { result ≡ hex_digit digit }
    ensures ascii { result < 128 }
{
    if digit < 10 {
        return char::from(b'0' + digit as u8);
    }
    char::from(b'a' - 10 + digit as u8)
}
