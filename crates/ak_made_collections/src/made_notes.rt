// The notes of a seed. The number of a note counts from 0.
ghost use Rattle.std.specs.Prelude.{◌≡◌, ◌<◌, ◌≤ℤ◌, ◌++◌, ◌∷◌, pos, IfOk};
ghost use Rattle.ak_made_collections.specs.MadeNotes.{back_of, front_of, made_note, type_of};

use crate::row_ids::{STAMP, made_id};
use crate::row_numbers::words_before_note;
use crate::seed_words::nth_word;
use ak_base::{Memory, Note, Text};
use ak_cardgen::csum;
use ak_notes::made_guid;
use std::alloc::Global;

/// The note of this number.
pub(crate) fn made_note(alloc: Global, seed: u64, number: u64) -> Result<Note, Memory>
    requires { number < 20_000 }
    ensures is { IfOk result (λ note. note ≡ made_note seed number) }
    ensures sum { IfOk result (λ note. note.csum ≤ℤ pos 4_294_967_295) }
{
    let id = made_id(number);
    let words = words_before_note(number);
    let front = front_of(alloc, number)?;
    let back = back_of(alloc, seed, number)?;
    let guid = made_guid(alloc, id, nth_word(seed, words + 1))?;
    let sum = csum(alloc, front.as_str())?;
    let flds = joined(alloc, front.as_str(), back.as_str())?;
    let tags = Text::of(alloc, "")?;
    let extra = Text::of(alloc, "")?;
    Ok(Note {
        id,
        guid,
        mid: type_of(number),
        stamp: STAMP,
        usn: 0,
        tags,
        flds,
        sfld: front,
        csum: sum,
        flags: 0,
        extra,
    })
}

/// The type of a note.
fn type_of(number: u64) -> i64
    ensures { result ≡ type_of number }
{
    if number % 3 == 0 { 1 } else { 3 }
}

/// The first field of a note.
fn front_of(alloc: Global, number: u64) -> Result<Text, Memory>
    ensures { IfOk result (λ text. text ≡ front_of number) }
{
    let text = format!(in alloc; "front {number}")?;
    Ok(Text::from(text))
}

/// The second field of a note.
fn back_of(alloc: Global, seed: u64, number: u64) -> Result<Text, Memory>
    requires { number < 20_000 }
    ensures { IfOk result (λ text. text ≡ back_of seed number) }
{
    let word = nth_word(seed, words_before_note(number)) % 1_000;
    let text = format!(in alloc; "back {word}")?;
    Ok(Text::from(text))
}

/// Two fields, with the byte 0x1F between them.
fn joined(alloc: Global, first: &str, second: &str) -> Result<Text, Memory>
    ensures { IfOk result (λ text. text ≡ first.now ++ 31 ∷ second.now) }
{
    let mut text = String::from_str(alloc, first)?;
    text.push('\u{1f}')?;
    text.push_str(second)?;
    Ok(Text::from(text))
}
