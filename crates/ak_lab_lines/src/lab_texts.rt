// What the lab prints of what its lines name.
ghost use Rattle.std.specs.Prelude.{◌≡◌, ◌++◌, IfOk, decimal};
ghost use Rattle.ak_lab_lines.specs.LabTexts.{direction_word, ending_text, requests_text, counts_text, rows_text, others_text, no_device_text, no_request_text, reply_text};

use crate::Direction;
use ak_base::{Memory, Text};
use ak_messages::{Reply, SanityCounts};
use ak_wire::word_text;
use std::alloc::Global;

/// How a sync, an upload or a download of a device ended. The first word of its line tells which.
pub fn write_ending(alloc: Global, word: &str, device: &str, outcome: &str) -> Result<Text, Memory>
    ensures { IfOk result (λ text. text ≡ ending_text word.now device.now outcome.now) }
{
    let text = format!(in alloc; "{word} {device}: {outcome}")?;
    Ok(Text::from(text))
}

/// The first word of an upload's line or of a download's.
pub fn direction_word(direction: Direction) -> &'static str
    ensures { result.now ≡ direction_word direction }
{
    match direction {
        Direction::Upload => "upload",
        Direction::Download => "download",
    }
}

/// How many calls of the wire the last sync of a device made.
pub fn write_requests(alloc: Global, device: &str, calls: u64) -> Result<Text, Memory>
    ensures { IfOk result (λ text. text ≡ requests_text device.now calls) }
{
    let text = format!(in alloc; "requests {device}: {calls}")?;
    Ok(Text::from(text))
}

/// How many rows a side has.
pub fn write_counts(alloc: Global, counts: &SanityCounts) -> Result<Text, Memory>
    ensures { IfOk result (λ text. text ≡ counts_text counts.now) }
{
    let rows = write_rows(alloc, counts.notes, counts.cards, counts.reviews)?;
    with_others(alloc, rows.as_str(), counts)
}

/// How many notes, cards and reviews.
fn write_rows(alloc: Global, notes: u64, cards: u64, reviews: u64) -> Result<Text, Memory>
    ensures { IfOk result (λ text. text ≡ rows_text notes cards reviews) }
{
    let text = format!(in alloc; "notes {notes} cards {cards} reviews {reviews}")?;
    Ok(Text::from(text))
}

/// The text, and behind it how many graves, note types, decks and option groups.
fn with_others(alloc: Global, rows: &str, counts: &SanityCounts) -> Result<Text, Memory>
    ensures { IfOk result (λ text. text ≡ rows.now ++ others_text counts.now) }
{
    let graves = counts.graves;
    let types = counts.models;
    let decks = counts.decks;
    let options = counts.options;
    let text = format!(in alloc;
        "{rows} graves {graves} types {types} decks {decks} options {options}"
    )?;
    Ok(Text::from(text))
}

/// The refusal of a word that names no device.
pub fn write_no_device(alloc: Global, name: &str) -> Result<Text, Memory>
    ensures { IfOk result (λ text. text ≡ no_device_text name.now) }
{
    let text = format!(in alloc; "no device {name}")?;
    Ok(Text::from(text))
}

/// The refusal of a number that is past the requests of the log.
pub fn write_no_request(alloc: Global, number: u64) -> Result<Text, Memory>
    ensures { IfOk result (λ text. text ≡ no_request_text number) }
{
    let text = format!(in alloc; "no request {number}")?;
    Ok(Text::from(text))
}

/// The status and the word of a reply.
pub fn write_status(alloc: Global, reply: &Reply) -> Result<Text, Memory>
    ensures { IfOk result (λ text. text ≡ reply_text reply.now) }
{
    let status = reply.status;
    let word = word_text(reply.word);
    let text = format!(in alloc; "{status} {word}")?;
    Ok(Text::from(text))
}
