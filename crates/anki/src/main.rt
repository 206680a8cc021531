// The program `anki`: a collection's file, a server and a command, over the standard streams.
#![tactic(auto)]

ghost use Rattle.std.specs.Prelude.{◌≡◌, false};
ghost use Rattle.ak_keep.specs.Keepers.{is_marked};

mod journals;
mod servers;

use crate::journals::{journal_of, print_damaged};
use crate::servers::{is_server, wire_to};
use ak_base::Memory;
use ak_cli::{KEEPER_FAILED, NO_MEMORY, print_usage, run};
use ak_file_disks::FileDisk;
use ak_filters::{FieldFilter, FuriganaFilter, HintFilter, KanaFilter, KanjiFilter, TextFilter};
use ak_io::{Clock, Sink, Source, StdChance, StdClock, StdSink, StdSource};
use ak_journal_tables::open;
use ak_journals::JournalFault;
use ak_keep::{KeepFault, Keeper};
use ak_memory::MemoryKeeper;
use ak_sqlite::SqliteKeeper;
use ak_sync_in_memory::Log;
use std::env::Env;
use std::io::ErrorKind;
use std::process::ExitCode;
use std::{env, io, mem};

// The file `-` is an empty collection in memory, which ends with the program, and `journal:PATH` a journal; the server `-` is none.
fn main(rt: HostRuntime) -> ExitCode {
    let mut input = StdSource::new(rt.stdin());
    let mut out = StdSink::new(rt.stdout());
    let status = match words_of(&rt) {
        Ok(words) => match words.as_slice() {
            [file, server, rest @ ..] if is_server(server.as_str()) => {
                let ends = (file.as_str(), server.as_str());
                run_in(&rt, ends, rest, &mut input, &mut out)
            }
            _ => print_usage(&mut out),
        },
        Err(error) => match error.kind() {
            ErrorKind::OutOfMemory => NO_MEMORY,
            // A word that is not UTF-8 belongs to no command.
            _ => print_usage(&mut out),
        },
    };
    ExitCode::from(status)
}

/// The words after the program's name.
fn words_of(rt: &(impl Env + AllocGlobal)) -> io::Result<Vec<String>> {
    let mut words = Vec::new(rt.alloc());
    for (place, word) in env::args(rt)?.enumerate() {
        if place > 0 {
            words.push(word)?;
        }
    }
    Ok(words)
}

/// Runs the command over the collection in a file, with a server, and answers its status: 6 if the file can't be opened, or holds
/// anything else than a collection.
fn run_in<I: Source, O: Sink>(
    rt: &HostRuntime,
    ends: (&str, &str),
    words: &[String],
    input: &mut I,
    out: &mut O,
) -> u8 {
    match run_over(rt, ends, words, input, out) {
        Ok(status) => status,
        Err(KeepFault::Failed) => KEEPER_FAILED,
        Err(KeepFault::Memory) => NO_MEMORY,
    }
}

/// The same, but that a file or memory that could not be had is a fault.
fn run_over<I: Source, O: Sink>(
    rt: &HostRuntime,
    (file, server): (&str, &str),
    words: &[String],
    input: &mut I,
    out: &mut O,
) -> Result<u8, KeepFault> {
    // A keeper is not freed row by row at the end: its memory goes with the program's.
    if file == "-" {
        let mut keeper = MemoryKeeper::new(rt.alloc());
        let status = run_with(rt, &mut keeper, server, words, input, out)?;
        mem::forget(keeper);
        return Ok(status);
    }
    if let Some(path) = journal_of(file) {
        return run_over_journal(rt, (path, server), words, input, out);
    }
    let mut keeper = SqliteKeeper::over_file(rt, file)?;
    let status = run_with(rt, &mut keeper, server, words, input, out)?;
    drop(keeper.end());
    Ok(status)
}

/// The same over the journal in the file at a path.
fn run_over_journal<I: Source, O: Sink>(
    rt: &HostRuntime,
    (path, server): (&str, &str),
    words: &[String],
    input: &mut I,
    out: &mut O,
) -> Result<u8, KeepFault> {
    match open(rt.alloc(), FileDisk::open(rt, path)) {
        Ok(mut keeper) => {
            let status = run_with(rt, &mut keeper, server, words, input, out)?;
            drop(keeper.end());
            Ok(status)
        }
        Err((JournalFault::Damaged(place), _disk)) => Ok(print_damaged(rt.alloc(), place, out)?),
        Err((JournalFault::Failed, _disk)) => Err(KeepFault::Failed),
        Err((JournalFault::Memory, _disk)) => Err(KeepFault::Memory),
    }
}

/// Runs the command over a keeper, and answers its status. Pages have the filters `text`, `hint`, `kanji`, `kana` and
/// `furigana`.
fn run_with<K: Keeper, I: Source, O: Sink>(
    rt: &HostRuntime,
    keeper: &mut K,
    server: &str,
    words: &[String],
    input: &mut I,
    out: &mut O,
) -> Result<u8, Memory>
    requires unmarked { is_marked (K.keeping keeper.old) ≡ false }
{
    let alloc = rt.alloc();
    let mut filters: Vec<Box<dyn FieldFilter>> = Vec::new(alloc);
    filters.push(Box::new(alloc, TextFilter::new(alloc))?)?;
    filters.push(Box::new(alloc, HintFilter::new(alloc))?)?;
    filters.push(Box::new(alloc, KanjiFilter::new(alloc))?)?;
    filters.push(Box::new(alloc, KanaFilter::new(alloc))?)?;
    filters.push(Box::new(alloc, FuriganaFilter::new(alloc))?)?;
    let mut wire = wire_to(rt, server)?;
    let mut clock = StdClock::new(rt);
    let mut chance = StdChance::new(clock.now() as u64);
    // What comes to a lab's server. Nothing here reads it.
    let mut log = Log::new(alloc);
    let status = run(
        alloc,
        words,
        input,
        out,
        keeper,
        &mut wire,
        &mut clock,
        &mut chance,
        &mut log,
        &mut filters,
    );
    Ok(status)
}
