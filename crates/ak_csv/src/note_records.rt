ghost use Rattle.std.specs.Prelude.{◌≡◌, ◌++◌, ◌∷◌, [], codes, drop, map, slice_index_or, IfOk, OnOk};
ghost use Rattle.std.specs.String.{string_bytes};
ghost use Rattle.csv.specs.Writing.{default_writer, row_text};
ghost use Rattle.ak_csv.specs.NoteRecords.{columns_of, fitted, note_text, tags_column};

use ak_base::{Memory, Note};
use csv::WriterBuilder;
use std::alloc::Global;

/// The record of a note of a type with so many fields, as bytes with a line feed at the end. Fields that the note lacks are
/// empty, and surplus ones are left out.
pub fn write_record(alloc: Global, note: &Note, fields: u64) -> Result<Vec<u8>, Memory>
    ensures { IfOk result (λ bytes. bytes.items ≡ note_text fields note.now) }
{
    let tags = tags_column(alloc, note)?;
    let columns = columns_of(alloc, note, tags.as_str(), fields)?;
    row_bytes(alloc, columns.as_slice())
}

/// The tags with one space between.
#[tactic(auto, using(crate::proofs::Words::joined_words))]
fn tags_column(alloc: Global, note: &Note) -> Result<String, Memory>
    ensures { IfOk result (λ text. string_bytes text ≡ tags_column note.now) }
{
    let tags = note.tag_list(alloc)?;
    let joined = tags.as_slice().join(alloc, " ")?;
    Ok(joined)
}

/// The columns of a note whose tags are these.
fn columns_of<'a>(
    alloc: Global,
    note: &'a Note,
    tags: &'a str,
    fields: u64,
) -> Result<Vec<&'a [u8]>, Memory>
    requires { tags.now ≡ tags_column note.now }
    ensures { IfOk result (λ columns. map (λ column. column.now) columns.items ≡ columns_of fields note.now) }
{
    let texts = note.field_list(alloc)?;
    let mut columns: Vec<&[u8]> = Vec::new(alloc);
    columns.push(note.guid.as_str().as_bytes())?;
    columns.push(tags.as_bytes())?;
    for place in 0..fields {
        columns.push(text_at(texts.as_slice(), place).as_bytes())?;
    }
    Ok(columns)
}

/// The text of this place, empty if there is none.
fn text_at<'a>(texts: &[&'a str], place: u64) -> &'a str
    ensures { result.now ≡ slice_index_or (map (λ text. text.now) texts.now) place [] }
{
    match texts.get(place as usize) {
        Some(text) => text,
        None => "",
    }
}

/// The text of a record of these columns. A writer into memory is refused only if memory runs out.
fn row_bytes(alloc: Global, columns: &[&[u8]]) -> Result<Vec<u8>, Memory>
    ensures { IfOk result (λ bytes. bytes.items ≡ row_text default_writer (map (λ column. column.now) columns.now)) }
{
    let mut writer = WriterBuilder::new().from_writer(Vec::new(alloc));
    if writer.write_fields(columns).is_err() {
        return Err(Memory);
    }
    match writer.into_inner() {
        Ok(bytes) => Ok(bytes),
        Err(_) => Err(Memory),
    }
}
