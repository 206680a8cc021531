// The tag of a card that was forgotten too often.
ghost use Rattle.std.specs.Prelude.{◌≡◌, ◌++◌, ◌∷◌, [], map, IfOk};
ghost use Rattle.ak_merge.specs.Tags.{has_name};
ghost use Rattle.ak_study.specs.LeechTags.{leech_tag, leech_tagged, with_leech};

use ak_base::{Memory, Note, Text};
use ak_edit_calls::stored_tags;
use std::alloc::Global;

/// The tag.
const LEECH: &str = "leech";

/// The name of the tag.
pub(crate) fn leech_tag(alloc: Global) -> Result<Text, Memory>
    ensures { IfOk result (λ made. made ≡ leech_tag) }
{
    Text::of(alloc, LEECH)
}

/// The note with the tag. If it is new, the tags are put into order.
pub(crate) fn leech_tagged(alloc: Global, note: Note) -> Result<Note, Memory>
    ensures { IfOk result (λ made. made ≡ leech_tagged note) }
{
    let tags = with_leech(alloc, &note)?;
    let mut made = note;
    made.tags = tags;
    Ok(made)
}

/// The tags of the note with the tag, as a note stores them.
fn with_leech(alloc: Global, note: &Note) -> Result<Text, Memory>
    ensures { IfOk result (λ made. made ≡ with_leech note.now.tags) }
{
    let tags = note.tag_list(alloc)?;
    if has_leech(tags.as_slice()) {
        return note.tags.copy();
    }
    let names = names_with_leech(alloc, tags.as_slice())?;
    stored_tags(alloc, names.as_slice())
}

/// Whether the tag is among these.
fn has_leech(tags: &[&str]) -> bool
    ensures { result ≡ has_name (map (λ tag. tag.now) tags.now) leech_tag }
{
    for tag in tags {
        if *tag == LEECH {
            return true;
        }
    }
    false
}

/// Texts of their own with these names, and after them the tag.
fn names_with_leech(alloc: Global, tags: &[&str]) -> Result<Vec<Text>, Memory>
    ensures { IfOk result (λ names. names.items ≡ map (λ tag. tag.now) tags.now ++ leech_tag ∷ []) }
{
    let mut names = Vec::new(alloc);
    for tag in tags {
        let name = Text::of(alloc, *tag)?;
        names.push(name)?;
    }
    let leech = leech_tag(alloc)?;
    names.push(leech)?;
    Ok(names)
}
