// The items of which a pattern is made.
ghost use Rattle.std.specs.Prelude.{◌≡◌, ◌++◌, IfOk, OnOk};
ghost use Rattle.ak_search.specs.Patterns.{is_any, takes, is_letter, are_letters, item_of, pattern_of, anywhere, as_word};

use crate::source_chars::SourceChar;
use ak_base::{List, Memory};
use std::alloc::Global;

/// An item of a pattern.
#[derive(Clone, Copy, Debug, PartialEq, Eq)]
pub enum PatternItem {
    /// Any characters, or none.
    Any,
    /// One character.
    One,
    /// One character that is no ASCII letter or digit.
    Apart,
    /// This character, whatever its ASCII case.
    Is(char),
}

impl PatternItem {
    /// Whether it stands for any characters.
    pub(crate) fn is_any(&self) -> bool
        ensures { result ≡ is_any self.now }
    {
        match self {
            PatternItem::Any => true,
            PatternItem::One => false,
            PatternItem::Apart => false,
            PatternItem::Is(_) => false,
        }
    }

    /// Whether it stands for that one character.
    pub(crate) fn takes(&self, letter: char) -> bool
        ensures { result ≡ takes self.now letter }
    {
        match self {
            PatternItem::Any => false,
            PatternItem::One => true,
            PatternItem::Apart => !letter.is_ascii_alphanumeric(),
            PatternItem::Is(own) => own.eq_ignore_ascii_case(&letter),
        }
    }

    /// Whether it is that character, in the same case.
    fn is_letter(&self, letter: u8) -> bool
        ensures { result ≡ is_letter self.now letter }
    {
        match self {
            PatternItem::Is(own) => *own == letter as char,
            PatternItem::Any | PatternItem::One | PatternItem::Apart => false,
        }
    }
}

/// Whether the pattern is those characters themselves, and nothing else: no wildcard, and no other case.
pub(crate) fn are_letters(pattern: &[PatternItem], letters: &[u8]) -> bool
    ensures { result ≡ are_letters pattern.now letters.now }
{
    match (pattern.split_first(), letters.split_first()) {
        (Some((item, other_items)), Some((letter, other_letters))) => {
            item.is_letter(*letter) && are_letters(other_items, other_letters)
        }
        (None, None) => true,
        _ => false,
    }
}

/// The pattern that the characters spell.
pub(crate) fn pattern_of(
    alloc: Global,
    source_chars: &[SourceChar],
) -> Result<List<PatternItem>, Memory>
    ensures { IfOk result (λ pattern. pattern ≡ pattern_of source_chars.now) }
{
    let mut pattern = List::new(alloc);
    push_pattern(&mut pattern, source_chars)?;
    Ok(pattern)
}

/// Adds the items that the characters spell.
fn push_pattern(pattern: &mut List<PatternItem>, source_chars: &[SourceChar]) -> Result<(), Memory>
    ensures { OnOk result (pattern.new ≡ pattern.old ++ pattern_of source_chars.now) }
{
    for source_char in source_chars {
        pattern.push(item_of(source_char))?;
    }
    Ok(())
}

/// The item that a character spells.
fn item_of(source_char: &SourceChar) -> PatternItem
    ensures { result ≡ item_of source_char.now }
{
    if source_char.literal {
        return PatternItem::Is(source_char.letter);
    }
    match source_char.letter {
        '*' => PatternItem::Any,
        '_' => PatternItem::One,
        other => PatternItem::Is(other),
    }
}

/// The pattern anywhere in a text.
pub(crate) fn anywhere(
    alloc: Global,
    source_chars: &[SourceChar],
) -> Result<List<PatternItem>, Memory>
    ensures { IfOk result (λ pattern. pattern ≡ anywhere (pattern_of source_chars.now)) }
{
    let mut pattern = List::new(alloc);
    pattern.push(PatternItem::Any)?;
    push_pattern(&mut pattern, source_chars)?;
    pattern.push(PatternItem::Any)?;
    Ok(pattern)
}

/// The pattern as a word of a text between two spaces.
pub(crate) fn as_word(
    alloc: Global,
    source_chars: &[SourceChar],
) -> Result<List<PatternItem>, Memory>
    ensures { IfOk result (λ pattern. pattern ≡ as_word (pattern_of source_chars.now)) }
{
    let mut pattern = List::new(alloc);
    pattern.push(PatternItem::Any)?;
    pattern.push(PatternItem::Apart)?;
    push_pattern(&mut pattern, source_chars)?;
    pattern.push(PatternItem::Apart)?;
    pattern.push(PatternItem::Any)?;
    Ok(pattern)
}
