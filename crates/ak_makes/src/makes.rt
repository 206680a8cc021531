ghost use Rattle.std.specs.Bool.{Decides};
ghost use Rattle.std.specs.Prelude.{◌≡◌, ◌++◌, true, IfOk, decimal};
ghost use Rattle.ak_client.specs.declared.outcomes.Outcome.TheVariants as outcomes;
ghost use Rattle.ak_makes.specs.MakeLines.{EndsMake, IsExpected, Shows, TellsMeasured, call_count, is_make_status, measured_text};
ghost use Rattle.ak_sync_runs.specs.SyncRuns.{HasStatusCause};

use crate::days::{NEW_NOTES, answer_count};
use crate::measures::{Measured, measure};
use ak_base::{Memory, Text};
use ak_client::Outcome;
use ak_io::Sink;
use ak_made_collections::{MakePlan, REVIEWS_OF_A_CARD, cards_before};
use ak_messages::MOST_ENTRIES;
use ak_outcomes::outcome_text;
use ak_sync_runs::print_ending;
use std::alloc::Global;

/// The collection was made, and its device synced.
const DONE: u8 = 0;

/// Nothing is printed: memory ran out, or the work came to something else than the plan says.
const UNTOLD: u8 = 8;

/// How many calls a sync makes that has fewer than 250 rows to send.
const LEAST_CALLS: u64 = 7;

/// Makes the collection of the plan, does a day of work on it and syncs it, and prints what the server holds then and in how many calls. It
/// answers the status for it: 0, 5 if the output failed, and 8 if nothing is printed. Nothing is stored.
pub fn make<O: Sink>(alloc: Global, plan: MakePlan, out: &mut O) -> u8
    // The line is printed only of what was measured, and only if that is what the plan comes to. Nothing excludes the status 8.
    ensures ends { EndsMake plan.seed plan.size.notes result (O.written out.old) (O.written out.new) }

    // With which statuses it ends, and why it ends with 5.
    ensures listed { is_make_status result ≡ true }
    ensures written { HasStatusCause 5 (O.health out.old) (O.health out.new) result }
{
    let measured = match measure(alloc, plan) {
        Ok(measured) => measured,
        Err(_) => return UNTOLD,
    };
    tell_measured(alloc, plan, &measured, out)
}

/// Prints what was measured, if it is what the plan comes to.
fn tell_measured<O: Sink>(alloc: Global, plan: MakePlan, measured: &Measured, out: &mut O) -> u8
    ensures told { TellsMeasured plan.size.notes measured.now result (O.written out.old) (O.written out.new) }
    ensures listed { is_make_status result ≡ true }
    ensures cause { HasStatusCause 5 (O.health out.old) (O.health out.new) result }
{
    if !is_expected(plan, measured) {
        return UNTOLD;
    }
    match measured_text(alloc, measured) {
        Ok(text) => print_ending(out, text.as_str(), DONE),
        Err(Memory) => UNTOLD,
    }
}

/// Whether what was measured is what the plan comes to.
fn is_expected(plan: MakePlan, measured: &Measured) -> bool
    ensures { Decides result (IsExpected plan.size.notes measured.now) }
{
    let cards = cards_before(plan.size.notes);
    let answers = answer_count(plan.size.notes);
    is_finished(&measured.outcome)
        && measured.counts.notes == plan.size.notes + NEW_NOTES
        && measured.counts.cards == cards + NEW_NOTES
        && measured.counts.reviews == REVIEWS_OF_A_CARD * cards + answers
        && measured.calls == call_count(plan)
}

/// How many calls the sync of the plan makes.
fn call_count(plan: MakePlan) -> u64
    ensures { result ≡ call_count plan.size.notes }
{
    LEAST_CALLS + (2 * answer_count(plan.size.notes) + 2 * NEW_NOTES) / MOST_ENTRIES
}

/// Whether a sync is finished.
fn is_finished(outcome: &Outcome) -> bool
    ensures { Decides result (outcome.now ≡ outcomes.Finished) }
{
    matches!(outcome, Outcome::Finished)
}

/// The line of what was measured.
fn measured_text(alloc: Global, measured: &Measured) -> Result<Text, Memory>
    ensures { IfOk result (Shows measured.now) }
{
    let outcome = outcome_text(alloc, &measured.outcome)?;
    let text = line_of(alloc, measured, outcome.as_str())?;
    Ok(text)
}

/// The line of what was measured, with this text of its outcome.
fn line_of(alloc: Global, measured: &Measured, outcome: &str) -> Result<Text, Memory>
    ensures { IfOk result (λ text. text ≡ measured_text measured.now outcome.now) }
{
    let text = with_number(alloc, "", "notes ", measured.counts.notes)?;
    let text = with_number(alloc, text.as_str(), " cards ", measured.counts.cards)?;
    let text = with_number(alloc, text.as_str(), " reviews ", measured.counts.reviews)?;
    let text = with_number(alloc, text.as_str(), " requests ", measured.calls)?;
    let text = text.as_str();
    let text = format!(in alloc; "{text} {outcome}")?;
    Ok(Text::from(text))
}

/// The text, and then the words and the number.
fn with_number(alloc: Global, text: &str, words: &str, number: u64) -> Result<Text, Memory>
    ensures { IfOk result (λ made. made ≡ text.now ++ words.now ++ decimal number) }
{
    let made = format!(in alloc; "{text}{words}{number}")?;
    Ok(Text::from(made))
}
