// Cases of journals: payloads committed over a disk of which calls fail, and what the images of a crash open as. One command a
// line, and one line printed for each. README.md tells the commands.
#![tactic(auto)]

mod commands;
mod damages;
mod disks;
mod files;
mod images;
mod refusals;
mod stories;
mod words;

use crate::commands::Commands;
use ak_io::{StdSink, StdSource};
use cases_lines::print_answers;
use std::io;
use std::process::ExitCode;

fn main(rt: HostRuntime) -> io::Result<ExitCode> {
    let mut commands = Commands::new(&rt);
    let mut input = StdSource::new(rt.stdin());
    let mut out = StdSink::new(rt.stdout());
    match print_answers(rt.alloc(), &mut commands, &mut input, &mut out) {
        Ok(()) => Ok(ExitCode::from(0)),
        Err(_) => Ok(ExitCode::from(1)),
    }
}
