use ak_base::Memory;
use ak_cli::WRITE_FAILED;
use ak_io::{Failed, Sink, write_all};
use std::alloc::Global;

/// The status of a run over a journal that is damaged.
pub const JOURNAL_DAMAGED: u8 = 16;

/// The path of the journal that the word of a file names, if it begins with `journal:`.
pub fn journal_of(file: &str) -> Option<&str> {
    file.strip_prefix("journal:")
}

/// Prints where a journal is damaged, and answers 16, or 5 if the output counted a fault meanwhile.
pub fn print_damaged<O: Sink>(alloc: Global, place: u64, out: &mut O) -> Result<u8, Memory> {
    let line = format!(in alloc; "journal damaged at {place}\n")?;
    let before = out.faults();
    Ok(match write_all(out, line.as_bytes()) {
        Ok(()) if out.faults() == before => JOURNAL_DAMAGED,
        Ok(()) | Err(Failed) => WRITE_FAILED,
    })
}
