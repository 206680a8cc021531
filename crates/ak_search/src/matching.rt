// Whether a pattern matches a text. A whole text is matched run by run: the items up to the next `Any` are tried at each place, and
// the first place that serves is taken, since `Any` stands for all that is before it. A path is matched in one pass over
// its characters, which may end at each level.
ghost use Rattle.std.specs.Prelude.{◌≡◌, ◌≤◌, ◌+◌, ◌∷◌, ◌++◌, [], true, false, Some, None, List, ℕ, length, IfOk, IfSome, IfNone, OnOk};
ghost use Rattle.ak_search.specs.Matching.{falses, advanced, advanced_by, ended, IsRowAt};
ghost use Rattle.ak_search.specs.Patterns.{fits, matches, matches_spaced};
ghost use Rattle.ak_search.specs.Runs.{IsTried, behind_letter, run_behind};
ghost use Rattle.ak_search.specs.declared.patterns.PatternItem.TheVariants.{Any};

use crate::PatternItem;
use crate::source_chars::letters_of;
use ak_base::Memory;
use std::alloc::Global;

/// What a try of a pattern at a place of a text comes to.
#[derive(Clone, Copy, Debug)]
pub(crate) enum Tried<'a> {
    /// It is known whether the pattern fits.
    Done(bool),
    /// This pattern is to be tried at the beginning of these characters.
    Next(&'a [PatternItem], &'a [char]),
}

/// Whether the pattern matches the whole text. It takes time for each item at each character, at the worst.
pub fn matches(alloc: Global, pattern: &[PatternItem], text: &str) -> Result<bool, Memory>
    ensures { IfOk result (λ does. does ≡ matches pattern.now text.now) }
{
    let letters = letters_of(alloc, text)?;
    Ok(fits(pattern, &letters))
}

/// Whether the pattern matches these characters, all of them.
fn fits(pattern: &[PatternItem], letters: &[char]) -> bool
    ensures { result ≡ fits pattern.now letters.now }
{
    let Some((items, rest)) = run(pattern, letters) else {
        return false;
    };
    match items.split_first() {
        Some((_, others)) => fits_somewhere(others, rest),
        None => rest.is_empty(),
    }
}

/// Whether the pattern matches the characters from some place on, to their end.
fn fits_somewhere(pattern: &[PatternItem], letters: &[char]) -> bool
    ensures { result ≡ fits (Any ∷ pattern.now) letters.now }
{
    let mut items = pattern;
    let mut rest = letters;
    'tries: loop {
        match try_at(items, rest) {
            Tried::Done(does) => return does,
            Tried::Next(others, left) => {
                items = others;
                rest = left;
            }
        }
    }
}

/// Tries the items up to the next `Any` at the beginning of the characters. If they serve, the pattern behind that `Any` comes
/// next, and else the next place.
fn try_at<'a>(items: &'a [PatternItem], letters: &'a [char]) -> Tried<'a>
    ensures { IsTried items.now letters.now result }
{
    // Nothing behind an `Any` fits whatever is left.
    if items.is_empty() {
        return Tried::Done(true);
    }
    match run(items, letters) {
        Some((behind, left)) => after_run(items, letters, behind, left),
        None => try_later(items, letters),
    }
}

/// Goes on after a run that served: past the `Any` that ended it, or at the end of the pattern.
fn after_run<'a>(
    items: &'a [PatternItem],
    letters: &'a [char],
    behind: &'a [PatternItem],
    left: &'a [char],
) -> Tried<'a>
    requires { run_behind items.now letters.now ≡ Some (behind.now, left.now) }
    ensures { IsTried items.now letters.now result }
{
    match behind.split_first() {
        Some((_, others)) => Tried::Next(others, left),
        None => {
            if left.is_empty() {
                return Tried::Done(true);
            }
            try_later(items, letters)
        }
    }
}

/// Goes on at the next place, if there is one.
fn try_later<'a>(items: &'a [PatternItem], letters: &'a [char]) -> Tried<'a>
    requires { fits items.now letters.now ≡ false }
    ensures { IsTried items.now letters.now result }
{
    match letters.split_first() {
        Some((_, later)) => Tried::Next(items, later),
        None => Tried::Done(false),
    }
}

/// What is left of a pattern and of the characters, once each item up to the first `Any` took one character. None if one of them
/// didn't.
fn run<'a>(
    pattern: &'a [PatternItem],
    letters: &'a [char],
) -> Option<(&'a [PatternItem], &'a [char])>
    ensures some { IfSome result (λ left. run_behind pattern.now letters.now ≡ Some (left.0.now, left.1.now)) }
    ensures none { IfNone result (run_behind pattern.now letters.now ≡ None) }
{
    let mut items = pattern;
    let mut rest = letters;
    while let Some((item, others)) = items.split_first() {
        if item.is_any() {
            return Some((items, rest));
        }
        let Some(left) = behind_letter(item, rest) else {
            return None;
        };
        items = others;
        rest = left;
    }
    Some((items, rest))
}

/// What is behind the first character, if the item stands for it.
fn behind_letter<'a>(item: &PatternItem, letters: &'a [char]) -> Option<&'a [char]>
    ensures some { IfSome result (λ left. behind_letter item.now letters.now ≡ Some left.now) }
    ensures none { IfNone result (behind_letter item.now letters.now ≡ None) }
{
    match letters.split_first() {
        Some((letter, left)) => {
            if item.takes(*letter) {
                return Some(left);
            }
            None
        }
        None => None,
    }
}

/// Which items may come next before any character: the first alone.
pub(crate) fn first_row(alloc: Global, count: usize) -> Result<Vec<bool>, Memory>
    ensures { IfOk result (λ row. row.items ≡ true ∷ falses count) }
{
    let mut row = Vec::with_capacity(alloc, count.saturating_add(1))?;
    row.push(true)?;
    for _ in 0..count {
        row.push(false)?;
    }
    Ok(row)
}

/// Moves the row past all the characters.
fn advance_by(row: &mut [bool], pattern: &[PatternItem], letters: &[char])
    requires { length row.old ≡ length pattern.now + 1 }
    ensures row { row.new ≡ advanced_by letters.now row.old pattern.now }
    ensures size { length row.new ≡ length row.old }
{
    for letter in letters {
        advance(row, pattern, *letter);
    }
}

/// Moves the row past one character.
fn advance(row: &mut [bool], pattern: &[PatternItem], letter: char)
    requires { length row.old ≡ length pattern.now + 1 }
    ensures row { row.new ≡ advanced letter false false row.old pattern.now }
    ensures size { length row.new ≡ length row.old }
{
    let mut taken = false;
    let mut skipped = false;
    let mut place = 0;
    while place < pattern.len() {
        let item = pattern[place];
        let live = row[place] || skipped;
        row[place] = taken || (item.is_any() && live);
        taken = item.takes(letter) && live;
        skipped = item.is_any() && live;
        place += 1;
    }
    row[place] = taken;
}

/// Moves the row past one more part of a text.
pub(crate) fn read_on(
    alloc: Global,
    row: &mut [bool],
    pattern: &[PatternItem],
    part: &str,
) -> Result<(), Memory>
    requires { length row.old ≡ length pattern.now + 1 }
    ensures row { OnOk result ((text : List ℕ) → IsRowAt pattern.now row.old text → IsRowAt pattern.now row.new (text ++ part.now)) }
    ensures size { length row.new ≡ length row.old }
{
    let letters = letters_of(alloc, part)?;
    advance_by(row, pattern, &letters);
    Ok(())
}

/// Whether the pattern may end at the row.
pub(crate) fn may_end(row: &[bool], pattern: &[PatternItem]) -> bool
    requires { length row.now ≡ length pattern.now + 1 }
    ensures { result ≡ ended false row.now pattern.now }
{
    let mut skipped = false;
    let mut place = 0;
    while place < pattern.len() {
        let live = row[place] || skipped;
        skipped = pattern[place].is_any() && live;
        place += 1;
    }
    row[place] || skipped
}

/// Whether the pattern stands for the whole text between two spaces, as those of a word do where it is found.
pub fn matches_spaced(alloc: Global, pattern: &[PatternItem], text: &str) -> Result<bool, Memory>
    ensures { IfOk result (λ does. does ≡ matches_spaced pattern.now text.now) }
{
    let letters = letters_of(alloc, text)?;
    let mut spaced = vec![in alloc; ' ']?;
    spaced.extend_from_slice(&letters)?;
    spaced.push(' ')?;
    Ok(fits(pattern, &spaced))
}
