ghost use Rattle.std.specs.Prelude.{◌≡◌, ◌++◌, Some, IfOk, IfSome, codes, decimal, is_some};
ghost use Rattle.std.specs.Fmt.{signed_decimal};
ghost use Rattle.ak_desk_texts.specs.AnswerTexts.{check_fault_text};
ghost use Rattle.ak_outcomes.specs.OutcomeTexts.{counts_text, has_fixed_text, outcome_text};
ghost use Rattle.ak_wire.specs.Words.{word_text};

use ak_base::{Memory, Text};
use ak_client::Outcome;
use ak_desk_texts::write_check_fault;
use ak_merge::CheckFault;
use ak_messages::{SanityCounts, Word};
use ak_wire::word_text;
use std::alloc::Global;

/// The text of an outcome, without a line feed at its end. Out of memory is no text: it ends a run by its status alone.
pub fn outcome_text(alloc: Global, outcome: &Outcome) -> Result<Text, Memory>
    ensures { IfOk result (λ text. outcome_text outcome.now ≡ Some text) }
{
    if let Some(text) = fixed_text(outcome) {
        return Text::of(alloc, text);
    }
    match outcome {
        Outcome::FullSchema { device, server } => {
            two_numbers(alloc, "full needed: schema ", *device, *server)
        },
        Outcome::FullSequence { usn } => one_number(alloc, "full needed: sequence ", *usn),
        Outcome::BadRow(fault) => check_text(alloc, "sanity failed: ", *fault),
        Outcome::BadCounts { client, server } => bad_counts_text(alloc, client, server),
        Outcome::ClockOff { device, server } => two_numbers(alloc, "clock off: ", *device, *server),
        Outcome::OwnCheck(fault) => check_text(alloc, "own check failed: ", *fault),
        Outcome::Refused { status, word, .. } => refused_text(alloc, *status, *word),
        // The others have a fixed text, but for out of memory, which has none.
        _ => Err(Memory),
    }
}

/// The text of an outcome that always has the same one, which takes no memory. It is None if the text has to be made, or if
/// there is none.
pub fn fixed_text(outcome: &Outcome) -> Option<&'static str>
    // It is the outcome's text.
    ensures some { IfSome result (λ text. outcome_text outcome.now ≡ Some text.now) }

    // Every fixed text is given.
    ensures fixed { is_some result ≡ has_fixed_text outcome.now }
{
    match outcome {
        Outcome::Finished => Some("finished"),
        Outcome::NoChanges => Some("no changes"),
        Outcome::Stopped => Some("stopped"),
        Outcome::Lost => Some("lost"),
        Outcome::BadReply => Some("bad reply"),
        Outcome::TooManyChunks => Some("too many chunks"),
        Outcome::Keep => Some("keeper failed"),
        Outcome::FullSchema { .. } | Outcome::FullSequence { .. } | Outcome::Memory => None,
        Outcome::BadRow(_) | Outcome::BadCounts { .. } | Outcome::ClockOff { .. } => None,
        Outcome::OwnCheck(_) | Outcome::Refused { .. } => None,
    }
}

/// The words, and a number of each side behind them.
fn two_numbers(alloc: Global, words: &str, device: i64, server: i64) -> Result<Text, Memory>
    ensures { IfOk result (λ text. text ≡ words.now ++ signed_decimal device ++ codes " " ++ signed_decimal server) }
{
    let text = one_number(alloc, words, device)?;
    let text = text.as_str();
    let text = format!(in alloc; "{text} {server}")?;
    Ok(Text::from(text))
}

/// The words, and the number behind them.
fn one_number(alloc: Global, words: &str, number: i64) -> Result<Text, Memory>
    ensures { IfOk result (λ text. text ≡ words.now ++ signed_decimal number) }
{
    let text = format!(in alloc; "{words}{number}")?;
    Ok(Text::from(text))
}

/// The words, and the fault of a collection behind them.
fn check_text(alloc: Global, words: &str, fault: CheckFault) -> Result<Text, Memory>
    ensures { IfOk result (λ text. text ≡ words.now ++ check_fault_text fault) }
{
    let fault = write_check_fault(alloc, fault)?;
    let fault = fault.as_str();
    let text = format!(in alloc; "{words}{fault}")?;
    Ok(Text::from(text))
}

/// The counts of both sides.
fn bad_counts_text(
    alloc: Global,
    client: &SanityCounts,
    server: &SanityCounts,
) -> Result<Text, Memory>
    ensures { IfOk result (λ text. text ≡ codes "sanity failed: counts " ++ counts_text client.now ++ codes " " ++ counts_text server.now) }
{
    let client = counts_text(alloc, client)?;
    let client = client.as_str();
    let server = counts_text(alloc, server)?;
    let server = server.as_str();
    let text = format!(in alloc; "sanity failed: counts {client} {server}")?;
    Ok(Text::from(text))
}

/// How many rows of each kind a side has.
fn counts_text(alloc: Global, counts: &SanityCounts) -> Result<Text, Memory>
    ensures { IfOk result (λ text. text ≡ counts_text counts.now) }
{
    let text = number_text(alloc, counts.cards)?;
    let text = with_count(alloc, text.as_str(), counts.notes)?;
    let text = with_count(alloc, text.as_str(), counts.reviews)?;
    let text = with_count(alloc, text.as_str(), counts.graves)?;
    let text = with_count(alloc, text.as_str(), counts.models)?;
    let text = with_count(alloc, text.as_str(), counts.decks)?;
    with_count(alloc, text.as_str(), counts.options)
}

/// The count alone.
fn number_text(alloc: Global, count: u64) -> Result<Text, Memory>
    ensures { IfOk result (λ text. text ≡ decimal count) }
{
    let text = format!(in alloc; "{count}")?;
    Ok(Text::from(text))
}

/// The text, a comma and the count.
fn with_count(alloc: Global, text: &str, count: u64) -> Result<Text, Memory>
    ensures { IfOk result (λ made. made ≡ text.now ++ codes "," ++ decimal count) }
{
    let made = format!(in alloc; "{text},{count}")?;
    Ok(Text::from(made))
}

/// The status and the word of a refusal.
fn refused_text(alloc: Global, status: u16, word: Word) -> Result<Text, Memory>
    ensures { IfOk result (λ text. text ≡ codes "refused " ++ decimal status ++ codes " " ++ word_text word) }
{
    let word = word_text(word);
    let text = format!(in alloc; "refused {status} {word}")?;
    Ok(Text::from(text))
}
