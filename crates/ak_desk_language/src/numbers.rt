// The numbers of a line: decimal digits without sign or leading zero, with one space between.
ghost use Rattle.std.specs.Prelude.{◌≡◌, ◌≤◌, ◌++◌, IfOk, IfSome, Some, None, map, drop, pos};
ghost use Rattle.std.specs.Option.{option_map};
ghost use Rattle.ak_base.specs.Heads.{IsWithin};
ghost use Rattle.ak_desk_language.specs.Reading.{number_in, next_number, numbers_of, ids_of};
ghost use Rattle.ak_desk_language.specs.Verbs.{any_id};

use ak_base::{LAST_I64, List, Memory, cut, read_number};
use std::alloc::Global;

/// The number that the whole text is, if it is from `least` to `most`. None also for a sign or a leading zero.
pub fn number_in(least: u64, most: u64, text: &str) -> Option<i64>
    requires { most ≤ 9_223_372_036_854_775_807 }
    ensures number { result ≡ number_in (least, most) text.now }
    ensures within { IfSome result (λ number. IsWithin (pos least) (pos most) number) }
{
    let number = read_number(text, most)?;
    if number < least {
        return None;
    }
    Some(number as i64)
}

/// The id that the whole text is. Whether it is that of a row is not asked of a line.
pub(crate) fn id_in(text: &str) -> Option<i64>
    ensures { result ≡ number_in any_id text.now }
{
    number_in(0, LAST_I64, text)
}

/// The number before the first space, if it is from `least` to `most`, and what follows that space.
pub fn next_number(least: u64, most: u64, text: &str) -> Option<(i64, &str)>
    requires { most ≤ 9_223_372_036_854_775_807 }
    ensures number { option_map (λ p. (p.0, p.1.now)) result ≡ next_number (least, most) text.now }
    ensures within { IfSome result (λ p. IsWithin (pos least) (pos most) p.0) }
{
    let (word, rest) = cut(text, " ")?;
    let number = number_in(least, most, word)?;
    Some((number, rest))
}

/// The id before the first space, and what follows that space.
pub(crate) fn next_id(text: &str) -> Option<(i64, &str)>
    ensures { option_map (λ p. (p.0, p.1.now)) result ≡ next_number any_id text.now }
{
    next_number(0, LAST_I64, text)
}

/// The ids that the whole text is. None if a word is no number.
pub(crate) fn ids_in(alloc: Global, text: &str) -> Result<Option<List<i64>>, Memory>
    ensures { IfOk result (λ ids. ids ≡ ids_of text.now) }
{
    let words: Vec<&str> = text.split(' ').collect(alloc)?;
    numbers_of(alloc, &words)
}

/// The ids that words are. None if one is no number.
fn numbers_of(alloc: Global, words: &[&str]) -> Result<Option<List<i64>>, Memory>
    ensures { IfOk result (λ ids. ids ≡ numbers_of (map (λ word. word.now) words.now)) }
{
    let mut ids = List::new(alloc);
    for word in words {
        match id_in(word) {
            Some(id) => ids.push(id)?,
            None => return Ok(None),
        }
    }
    Ok(Some(ids))
}
