ghost use Rattle.std.specs.Prelude.{◌≡◌, ◌≢◌, ◌++◌, IfOk, codes, decimal};
ghost use Rattle.ak_csv_runs.specs.ImportTexts.{counts_text, import_status, import_text, note_fault_text, rule_fault_text, rule_text};
ghost use Rattle.ak_io.specs.Scripts.{refusal_line};

use ak_base::{Memory, Text};
use ak_csv::CsvFault;
use ak_desk_texts::write_desk_fault;
use ak_imports::{Imported, NotesFault};
use ak_note_files::ImportFault;
use std::alloc::Global;

/// The status for the end of an import.
pub(crate) fn import_status(end: &Result<Imported, ImportFault>) -> u8
    ensures status { result ≡ import_status end.now }
    ensures other { result ≢ 5 }
{
    match end {
        Ok(_) => 0,
        Err(ImportFault::LongInput | ImportFault::Record(_) | ImportFault::Notes(_)) => 3,
        Err(ImportFault::ReadFailed) => 4,
        Err(ImportFault::KeeperFailed) => 6,
        Err(ImportFault::Memory) => 8,
    }
}

/// The line for the end of an import, without a line feed. There is none if the input or the keeper failed, or memory was out.
pub(crate) fn import_text(
    alloc: Global,
    end: &Result<Imported, ImportFault>,
) -> Result<Option<Text>, Memory>
    ensures { IfOk result (λ text. text ≡ import_text end.now) }
{
    match end {
        Ok(counts) => Ok(Some(counts_text(alloc, counts)?)),
        Err(ImportFault::LongInput) => Ok(Some(refusal_text(alloc, 0, "long input")?)),
        Err(ImportFault::Record(fault)) => rule_fault_text(alloc, *fault),
        Err(ImportFault::Notes(fault)) => note_fault_text(alloc, fault),
        Err(ImportFault::ReadFailed | ImportFault::KeeperFailed | ImportFault::Memory) => Ok(None),
    }
}

/// How many records there were of each outcome.
fn counts_text(alloc: Global, counts: &Imported) -> Result<Text, Memory>
    ensures { IfOk result (λ text. text ≡ counts_text counts.now) }
{
    let Imported {
        added,
        updated,
        same,
    } = *counts;
    let text = format!(in alloc; "added {added} updated {updated} same {same}")?;
    Ok(Text::from(text))
}

/// A record that breaks a rule.
fn rule_fault_text(alloc: Global, fault: CsvFault) -> Result<Option<Text>, Memory>
    ensures { IfOk result (λ text. text ≡ rule_fault_text fault) }
{
    match fault {
        CsvFault::Columns(number) => Ok(Some(rule_text(alloc, "csv fault 1", number)?)),
        CsvFault::NoGuid(number) => Ok(Some(rule_text(alloc, "csv fault 2", number)?)),
        CsvFault::Csv(number) => Ok(Some(rule_text(alloc, "csv fault 3", number)?)),
        CsvFault::OtherType(number) => Ok(Some(rule_text(alloc, "csv fault 4", number)?)),
        CsvFault::Memory => Ok(None),
    }
}

/// The record of this number breaks a rule.
fn rule_text(alloc: Global, rule: &str, number: u64) -> Result<Text, Memory>
    ensures { IfOk result (λ text. text ≡ rule_text rule.now number) }
{
    let why = fault_at(alloc, rule, number)?;
    refusal_text(alloc, number, why.as_str())
}

/// The words, and the number of a record after them.
fn fault_at(alloc: Global, words: &str, number: u64) -> Result<Text, Memory>
    ensures { IfOk result (λ text. text ≡ words.now ++ codes " at " ++ decimal number) }
{
    let text = format!(in alloc; "{words} at {number}")?;
    Ok(Text::from(text))
}

/// A record whose note is refused, with the text that a line of the desk is refused by.
fn note_fault_text(alloc: Global, fault: &NotesFault) -> Result<Option<Text>, Memory>
    ensures { IfOk result (λ text. text ≡ note_fault_text fault.now) }
{
    match write_desk_fault(alloc, &fault.fault)? {
        Some(why) => Ok(Some(refusal_text(alloc, fault.at_record, why.as_str())?)),
        None => Ok(None),
    }
}

/// `line <number>: <text>`.
fn refusal_text(alloc: Global, number: u64, why: &str) -> Result<Text, Memory>
    ensures { IfOk result (λ text. text ≡ refusal_line (number, why.now)) }
{
    let text = format!(in alloc; "line {number}: {why}")?;
    Ok(Text::from(text))
}
