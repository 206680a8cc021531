// The fields and tags of a note, and the names that patterns are tried on.
ghost use Rattle.std.specs.Prelude.{◌≡◌, ◌<◌, ◌∷◌, ◌++◌, ◌==◌, ◌&&◌, if◌then◌else◌, [], true, false, codes, length, map, filter, IfOk, IfSome, IfNone};
ghost use Rattle.std.specs.List.{list_any, slice_split};
ghost use Rattle.std.specs.Str.{str_eq_ignore_ascii_case};
ghost use Rattle.ak_base.specs.NoteTexts.{fields_in, tags_in};
ghost use Rattle.ak_filters.specs.Strips.{stripped};
ghost use Rattle.ak_search.specs.Holds.{passes, path_matches};
ghost use Rattle.ak_search.specs.CardFacts.{field_count, filled};
ghost use Rattle.ak_search.specs.Matching.{falses};
ghost use Rattle.ak_search.specs.Passes.{named_text, texts_seen};
ghost use Rattle.ak_search.specs.Patterns.{matches};

use crate::boxed_types::BoxedType;
use crate::matching::{first_row, may_end, read_on};
use crate::{PatternItem, matches, matches_spaced};
use ak_base::{FieldDef, List, Memory, Note, Text, next_part};
use ak_template::strip;
use std::alloc::Global;

/// How the text of a field is looked through.
#[derive(Clone, Copy, Debug, PartialEq, Eq)]
pub(crate) enum MatchMode {
    /// The pattern stands for the whole text.
    Whole,
    /// They stand for the whole text between two spaces.
    Spaced,
}

/// Whether the name of a deck or tag matches, or that of one that it is below.
pub(crate) fn path_matches(
    alloc: Global,
    pattern: &[PatternItem],
    name: &str,
) -> Result<bool, Memory>
    ensures { IfOk result (λ does. does ≡ path_matches pattern.now name.now) }
{
    match next_part(name) {
        Some(_) => some_level_matches(alloc, pattern, name),
        // Most names have one level, and are matched as any text is: that is faster.
        None => matches(alloc, pattern, name),
    }
}

/// The same of a name of several levels. The pattern goes over the name once, and may end at each `::`.
fn some_level_matches(alloc: Global, pattern: &[PatternItem], name: &str) -> Result<bool, Memory>
    ensures { IfOk result (λ does. does ≡ path_matches pattern.now name.now) }
{
    let mut row = first_row(alloc, pattern.len())?;
    path_matches_by(alloc, &mut row, pattern, name)
}

/// The same, in a row of places that it may change.
fn path_matches_by(
    alloc: Global,
    row: &mut [bool],
    pattern: &[PatternItem],
    name: &str,
) -> Result<bool, Memory>
    requires { row.old ≡ true ∷ falses (length pattern.now) }
    ensures { IfOk result (λ does. does ≡ path_matches pattern.now name.now) }
{
    let mut rest = name;
    while let Some((level, below)) = next_part(rest) {
        read_on(alloc, row, pattern, level)?;
        if may_end(row, pattern) {
            return Ok(true);
        }
        read_on(alloc, row, pattern, "::")?;
        rest = below;
    }
    read_on(alloc, row, pattern, rest)?;
    Ok(may_end(row, pattern))
}

/// Whether some tag matches, or one that it is below.
pub(crate) fn some_tag_matches(
    alloc: Global,
    pattern: &[PatternItem],
    note: &Note,
) -> Result<bool, Memory>
    ensures { IfOk result (λ does. does ≡ list_any (path_matches pattern.now) (tags_in note.now.tags)) }
{
    let tags = note.tag_list(alloc)?;
    some_path_matches(alloc, pattern, &tags)
}

/// Whether some name matches, or one that it is below.
fn some_path_matches(alloc: Global, pattern: &[PatternItem], names: &[&str]) -> Result<bool, Memory>
    ensures { IfOk result (λ does. does ≡ list_any (path_matches pattern.now) (map (λ name. name.now) names.now)) }
{
    for name in names {
        if path_matches(alloc, pattern, name)? {
            return Ok(true);
        }
    }
    Ok(false)
}

/// Whether the note has no tag.
pub(crate) fn is_untagged(alloc: Global, note: &Note) -> Result<bool, Memory>
    ensures { IfOk result (λ is. is ≡ (length (tags_in note.now.tags) == 0)) }
{
    let tags = note.tag_list(alloc)?;
    Ok(are_none(&tags))
}

/// Whether there are none.
fn are_none(names: &[&str]) -> bool
    ensures { result ≡ (length (map (λ name. name.now) names.now) == 0) }
{
    names.is_empty()
}

/// The stripped texts of a note's fields, in their order. Those of fields that its type has and it lacks are empty.
pub(crate) fn stripped_fields(
    alloc: Global,
    note: &Note,
    note_type: &Option<BoxedType>,
) -> Result<List<Text>, Memory>
    ensures { IfOk result (λ texts. texts ≡ texts_seen note_type.now note.now) }
{
    let fields = fields_of(alloc, note, field_count(note_type))?;
    strip_all(alloc, &fields)
}

/// Each text without its HTML and media.
fn strip_all(alloc: Global, fields: &[&str]) -> Result<List<Text>, Memory>
    ensures { IfOk result (λ texts. texts ≡ map stripped (map (λ text. text.now) fields.now)) }
{
    let mut texts = List::new(alloc);
    for field in fields {
        let text = strip(alloc, field)?;
        texts.push(text)?;
    }
    Ok(texts)
}

/// The fields of a note whose type has so many, in their order. Those that it lacks are empty.
fn fields_of(alloc: Global, note: &Note, count: usize) -> Result<Vec<&str>, Memory>
    ensures { IfOk result (λ texts. map (λ text. text.now) texts.items ≡ filled count (fields_in note.now.flds)) }
{
    let mut texts = note.field_list(alloc)?;
    'texts: while texts.as_slice().len() < count {
        texts.push("")?;
    }
    Ok(texts)
}

/// How many fields the type has, 0 without a type.
fn field_count(note_type: &Option<BoxedType>) -> usize
    ensures { result ≡ field_count note_type.now }
{
    match note_type {
        Some(boxed) => boxed.note_type().fields.as_slice().len(),
        None => 0,
    }
}

/// Whether some text passes.
pub(crate) fn some_text_passes(
    alloc: Global,
    mode: MatchMode,
    pattern: &[PatternItem],
    texts: &[Text],
) -> Result<bool, Memory>
    ensures { IfOk result (λ does. does ≡ list_any (passes mode pattern.now) texts.now) }
{
    for text in texts {
        if passes(alloc, mode, pattern, text)? {
            return Ok(true);
        }
    }
    Ok(false)
}

/// Whether the text passes.
fn passes(
    alloc: Global,
    mode: MatchMode,
    pattern: &[PatternItem],
    text: &Text,
) -> Result<bool, Memory>
    ensures { IfOk result (λ does. does ≡ passes mode pattern.now text.now) }
{
    match mode {
        MatchMode::Whole => matches(alloc, pattern, text.as_str()),
        MatchMode::Spaced => matches_spaced(alloc, pattern, text.as_str()),
    }
}

/// Whether the text of a field of that name matches whole. The texts are those of the fields, in their order.
pub(crate) fn named_text_matches(
    alloc: Global,
    name: &str,
    pattern: &[PatternItem],
    fields: &[FieldDef],
    texts: &[Text],
) -> Result<bool, Memory>
    ensures { IfOk result (λ does. does ≡ named_text name.now (matches pattern.now) fields.now texts.now) }
{
    match (fields.split_first(), texts.split_first()) {
        (Some((field, other_fields)), Some((text, other_texts))) => {
            if is_named_and_matches(alloc, name, pattern, field.name.as_str(), text)? {
                return Ok(true);
            }
            named_text_matches(alloc, name, pattern, other_fields, other_texts)
        }
        _ => Ok(false),
    }
}

/// Whether the field has that name and its text matches whole.
fn is_named_and_matches(
    alloc: Global,
    name: &str,
    pattern: &[PatternItem],
    own: &str,
    text: &Text,
) -> Result<bool, Memory>
    ensures { IfOk result (λ does. does ≡ (str_eq_ignore_ascii_case own.now name.now && matches pattern.now text.now)) }
{
    if !same_word(own, name) {
        return Ok(false);
    }
    matches(alloc, pattern, text.as_str())
}

/// Whether two names are equal, the ASCII case aside.
fn same_word(one: &str, other: &str) -> bool
    ensures { result ≡ str_eq_ignore_ascii_case one.now other.now }
{
    one.eq_ignore_ascii_case(other)
}
