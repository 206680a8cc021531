// Cases of collections that are kept in journals: commands of a keeper, and whole runs over a disk that stops. One command a line,
// and one line printed for each. README.md tells the commands.
#![tactic(auto)]

mod collections;
mod commands;
mod crashes;
mod devices;
mod disks;
mod journals;
mod keepers;
mod reopened;
mod runs;
mod scripts;

use crate::commands::Commands;
use ak_disks::MemoryDisk;
use ak_io::{StdSink, StdSource};
use cases_lines::print_answers;
use std::io;
use std::process::ExitCode;

// Here alone the disk has a type: all else is proved over any disk that stops.
fn main(rt: HostRuntime) -> io::Result<ExitCode> {
    let mut commands = Commands::<MemoryDisk>::new();
    let mut input = StdSource::new(rt.stdin());
    let mut out = StdSink::new(rt.stdout());
    match print_answers(rt.alloc(), &mut commands, &mut input, &mut out) {
        Ok(()) => Ok(ExitCode::from(0)),
        Err(_) => Ok(ExitCode::from(1)),
    }
}
