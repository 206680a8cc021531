// Cases of a collection's file and of whole runs: one command a line, and what it answers, or the status and the bytes written
// of each run, printed. README.md tells the form.
#![tactic(auto)]

mod commands;
mod file_commands;
mod in_memory;
mod kept_files;
mod reopened;
mod run_lists;
mod runs;
mod servers;
mod statements;
mod synced;
mod times;
mod twins;

use crate::kept_files::Files;
use ak_io::{Sink, Source, StdSink, StdSource};
use ak_sqlite::SqliteTables;
use ak_tables::OpenTables;
use cases_lines::{Unread, print_answers};
use std::io;
use std::process::ExitCode;
use std::rt::HostRuntime;

fn main(rt: HostRuntime) -> io::Result<ExitCode> {
    let mut input = StdSource::new(rt.stdin());
    let mut out = StdSink::new(rt.stdout());
    match print_all::<SqliteTables, _, _>(&rt, &mut input, &mut out) {
        Ok(()) => Ok(ExitCode::from(0)),
        Err(_) => Ok(ExitCode::from(1)),
    }
}

// Over any tables: what is proved of them once, for all that store a collection, is not proved again for those of a file.
fn print_all<T: OpenTables, I: Source, O: Sink>(
    rt: &HostRuntime,
    input: &mut I,
    out: &mut O,
) -> Result<(), Unread> {
    let mut files: Files<'_, T> = Files::new(rt);
    print_answers(rt.alloc(), &mut files, input, out)
}
