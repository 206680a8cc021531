use crate::rows::told_row;
use crate::words::push_quoted;
use ak_base::{Note, Options, Row, is_in_subtree, path_parts};
use cases_lines::{Unread, note_at, number_at, text_at, truth};
use serde_json::Value;
use std::alloc::Global;

/// `parts [NAME]`: the parts of a deck's name.
pub fn parts(alloc: Global, arguments: &Value) -> Result<String, Unread> {
    let parts = path_parts(alloc, text_at(arguments, 0)?)?;
    all_quoted(alloc, parts.as_slice())
}

fn all_quoted(alloc: Global, texts: &[&str]) -> Result<String, Unread> {
    let mut made = String::from_str(alloc, "list")?;
    for text in texts {
        made.push_str(" ")?;
        push_quoted(alloc, &mut made, text)?;
    }
    Ok(made)
}

/// `subtree [ROOT, NAME]`: whether a deck of this name is in the subtree of the other.
pub fn subtree(alloc: Global, arguments: &Value) -> Result<String, Unread> {
    truth(
        alloc,
        is_in_subtree(text_at(arguments, 0)?, text_at(arguments, 1)?),
    )
}

/// `fields [NOTE]`: the texts of its fields.
pub fn fields(alloc: Global, arguments: &Value) -> Result<String, Unread> {
    let note = note_at(alloc, arguments, 0)?;
    fields_of(alloc, &note)
}

fn fields_of(alloc: Global, note: &Note) -> Result<String, Unread> {
    let fields = note.field_list(alloc)?;
    all_quoted(alloc, fields.as_slice())
}

/// `tags [NOTE]`: its tags.
pub fn tags(alloc: Global, arguments: &Value) -> Result<String, Unread> {
    let note = note_at(alloc, arguments, 0)?;
    tags_of(alloc, &note)
}

fn tags_of(alloc: Global, note: &Note) -> Result<String, Unread> {
    let tags = note.tag_list(alloc)?;
    all_quoted(alloc, tags.as_slice())
}

/// `opening [STAMP]`: the options that a collection opens with.
pub fn opening(alloc: Global, arguments: &Value) -> Result<String, Unread> {
    let options = Options::opening(alloc, number_at(arguments, 0)?)?;
    told_row(alloc, Row::Options(options))
}
