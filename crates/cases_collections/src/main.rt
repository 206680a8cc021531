// Cases of collections in memory: keepers, two collections together, searches, edits and undo, and a server's accounts: one
// command a line, and one line printed for each. README.md tells the commands.
#![tactic(auto)]

mod call_faults;
mod calls;
mod deck_calls;
mod faults;
mod forged;
mod hosts;
mod merges;
mod note_calls;
mod option_calls;
mod queue_calls;
mod replies;
mod requests;
mod searches;
mod sessions;
mod sides;
mod study_calls;
mod type_calls;
mod views;

use crate::sides::Sides;
use ak_io::{Sink, Source, StdSink, StdSource};
use cases_lines::{Unread, print_answers};
use std::alloc::Global;
use std::io;
use std::process::ExitCode;

fn main(rt: HostRuntime) -> io::Result<ExitCode> {
    let mut input = StdSource::new(rt.stdin());
    let mut out = StdSink::new(rt.stdout());
    match print_all(rt.alloc(), &mut input, &mut out) {
        Ok(()) => Ok(ExitCode::from(0)),
        Err(_) => Ok(ExitCode::from(1)),
    }
}

fn print_all<I: Source, O: Sink>(alloc: Global, input: &mut I, out: &mut O) -> Result<(), Unread> {
    let mut sides = Sides::new(alloc)?;
    print_answers(alloc, &mut sides, input, out)
}
