// The term that characters spell.
ghost use Rattle.std.specs.Prelude.{◌≡◌, IfOk};
ghost use Rattle.ak_search.specs.Terms.{bound_of, compared, prop_of, rated_of, tag_of, takes_pattern, patterned, plain_valued, valued, prefixed, prefix_of, term_of};
ghost use Rattle.ak_search.specs.SourceChars.{lowered};

use crate::ids::ids_of;
use crate::numbers::{days_of, ease_of, flag_of, signed_of, whole};
use crate::patterns::{anywhere, as_word, pattern_of};
use crate::prefixes::{Prefix, prefix_of, property_of, state_of};
use crate::source_chars::{SourceChar, lowered, text_of, until};
use crate::{Comparison, Property, Term};
use ak_base::{Memory, Text, cut};
use std::alloc::Global;

/// The term that characters are. None where its value can't be read.
pub(crate) fn term_of(alloc: Global, source_chars: &[SourceChar]) -> Result<Option<Term>, Memory>
    ensures { IfOk result (λ term. term ≡ term_of source_chars.now) }
{
    let colon = until(source_chars, ':');
    if colon < source_chars.len() {
        return prefixed(alloc, &source_chars[..colon], &source_chars[colon + 1..]);
    }
    let pattern = anywhere(alloc, source_chars)?;
    Ok(Some(Term::Contains(pattern)))
}

/// A term with a prefix, or the field of that name.
fn prefixed(
    alloc: Global,
    name: &[SourceChar],
    value: &[SourceChar],
) -> Result<Option<Term>, Memory>
    ensures { IfOk result (λ term. term ≡ prefixed (prefix_of (lowered name.now)) name.now value.now) }
{
    let word = lowered(alloc, name)?;
    let prefix = prefix_of(word.as_str());
    if takes_pattern(prefix) {
        let term = patterned(alloc, prefix, name, value)?;
        return Ok(Some(term));
    }
    let text = lowered(alloc, value)?;
    valued(alloc, prefix, text.as_str())
}

/// Whether the value of the prefix is a pattern.
fn takes_pattern(prefix: Prefix) -> bool
    ensures { result ≡ takes_pattern prefix }
{
    match prefix {
        Prefix::Word
        | Prefix::Deck
        | Prefix::Tag
        | Prefix::NoteType
        | Prefix::Template
        | Prefix::Field => true,
        _ => false,
    }
}

/// A term whose value is a pattern.
fn patterned(
    alloc: Global,
    prefix: Prefix,
    name: &[SourceChar],
    value: &[SourceChar],
) -> Result<Term, Memory>
    ensures { IfOk result (λ term. term ≡ patterned prefix name.now value.now) }
{
    match prefix {
        Prefix::Word => {
            let pattern = as_word(alloc, value)?;
            Ok(Term::Word(pattern))
        }
        Prefix::Deck => {
            let pattern = pattern_of(alloc, value)?;
            Ok(Term::Deck(pattern))
        }
        Prefix::Tag => tag_of(alloc, value),
        Prefix::NoteType => {
            let pattern = pattern_of(alloc, value)?;
            Ok(Term::NoteType(pattern))
        }
        Prefix::Template => {
            let pattern = pattern_of(alloc, value)?;
            Ok(Term::Template(pattern))
        }
        _ => {
            let name = text_of(alloc, name)?;
            let pattern = pattern_of(alloc, value)?;
            Ok(Term::Field(Text::from(name), pattern))
        }
    }
}

/// A tag, or none at all.
fn tag_of(alloc: Global, value: &[SourceChar]) -> Result<Term, Memory>
    ensures { IfOk result (λ term. term ≡ tag_of value.now) }
{
    let word = lowered(alloc, value)?;
    if word.as_str() == "none" {
        return Ok(Term::Untagged);
    }
    let pattern = pattern_of(alloc, value)?;
    Ok(Term::Tag(pattern))
}

/// A term whose value is no pattern.
fn valued(alloc: Global, prefix: Prefix, text: &str) -> Result<Option<Term>, Memory>
    ensures { IfOk result (λ term. term ≡ valued prefix text.now) }
{
    match prefix {
        Prefix::NoteIds => match ids_of(alloc, text)? {
            Some(ids) => Ok(Some(Term::NoteIds(ids))),
            None => Ok(None),
        },
        Prefix::CardIds => match ids_of(alloc, text)? {
            Some(ids) => Ok(Some(Term::CardIds(ids))),
            None => Ok(None),
        },
        _ => Ok(plain_valued(prefix, text)),
    }
}

/// A term whose value is a word or a number.
fn plain_valued(prefix: Prefix, text: &str) -> Option<Term>
    ensures { result ≡ plain_valued prefix text.now }
{
    match prefix {
        Prefix::InState => Some(Term::InState(state_of(text)?)),
        Prefix::Prop => prop_of(text),
        Prefix::Flag => Some(Term::Flag(flag_of(text)?)),
        Prefix::Rated => rated_of(text),
        Prefix::Added => Some(Term::Added(days_of(text)?)),
        Prefix::Edited => Some(Term::Edited(days_of(text)?)),
        _ => None,
    }
}

/// A number of a card, a comparison and a bound.
fn prop_of(text: &str) -> Option<Term>
    ensures { result ≡ prop_of text.now }
{
    if let Some((name, bound)) = cut(text, "!=") {
        return compared(Comparison::Differs, name, bound);
    }
    if let Some((name, bound)) = cut(text, "<=") {
        return compared(Comparison::AtMost, name, bound);
    }
    if let Some((name, bound)) = cut(text, ">=") {
        return compared(Comparison::AtLeast, name, bound);
    }
    if let Some((name, bound)) = cut(text, "=") {
        return compared(Comparison::Equal, name, bound);
    }
    if let Some((name, bound)) = cut(text, "<") {
        return compared(Comparison::Below, name, bound);
    }
    if let Some((name, bound)) = cut(text, ">") {
        return compared(Comparison::Above, name, bound);
    }
    None
}

/// The same by the three parts of its text.
fn compared(comparison: Comparison, name: &str, text: &str) -> Option<Term>
    ensures { result ≡ compared comparison name.now text.now }
{
    let property = property_of(name)?;
    let bound = bound_of(property, text)?;
    Some(Term::Prop(property, comparison, bound))
}

/// The bound of a number of a card: only that of days until due has a sign.
fn bound_of(property: Property, text: &str) -> Option<i64>
    ensures { result ≡ bound_of property text.now }
{
    match property {
        Property::Interval => whole(text),
        Property::Reps => whole(text),
        Property::Lapses => whole(text),
        Property::Ease => whole(text),
        Property::Due => signed_of(text),
        Property::Position => whole(text),
    }
}

/// Days, and after a colon an ease.
fn rated_of(text: &str) -> Option<Term>
    ensures { result ≡ rated_of text.now }
{
    if let Some((days, ease)) = cut(text, ":") {
        let days = days_of(days)?;
        let ease = ease_of(ease)?;
        return Some(Term::RatedWith(days, ease));
    }
    let days = days_of(text)?;
    Some(Term::Rated(days))
}
