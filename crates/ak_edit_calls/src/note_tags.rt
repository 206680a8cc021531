ghost use Rattle.std.specs.Prelude.{◌≡◌, ◌++◌, ◌∷◌, [], IfOk, OnOk};
ghost use Rattle.std.specs.String.{string_bytes};
ghost use Rattle.ak_edit_calls.specs.NoteTags.{joined_tags, spaced, stored_tags};

use ak_base::{List, Memory, Tag, Text};
use ak_merge::take_tags;
use std::alloc::Global;

/// The tags as a note keeps them: each once, by bytes, with a space before and after each.
pub fn stored_tags(alloc: Global, names: &[Text]) -> Result<Text, Memory>
    ensures { IfOk result (λ made. made ≡ stored_tags names.now) }
{
    let sorted = take_tags(List::new(alloc), names, -1)?;
    joined_tags(alloc, sorted.as_slice())
}

/// The names with a space before and after each, nothing if there are none.
fn joined_tags(alloc: Global, tags: &[Tag]) -> Result<Text, Memory>
    ensures { IfOk result (λ made. made ≡ joined_tags tags.now) }
{
    let mut text = String::new(alloc);
    if tags.is_empty() {
        return Ok(Text::from(text));
    }
    text.push(' ')?;
    add_names(&mut text, tags)?;
    Ok(Text::from(text))
}

/// Adds the names, a space after each.
fn add_names(text: &mut String, tags: &[Tag]) -> Result<(), Memory>
    ensures { OnOk result (string_bytes text.new ≡ string_bytes text.old ++ spaced tags.now) }
{
    for tag in tags {
        add_name(text, tag.name.as_str())?;
    }
    Ok(())
}

/// Adds a name and a space.
fn add_name(text: &mut String, name: &str) -> Result<(), Memory>
    ensures { OnOk result (string_bytes text.new ≡ string_bytes text.old ++ (name.now ++ 32 ∷ [])) }
{
    text.push_str(name)?;
    text.push(' ')?;
    Ok(())
}
