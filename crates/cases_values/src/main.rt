// Cases of the values and their rules, of the bodies of messages and of desk lines: one command a line, and one line printed
// for each. README.md tells the commands.
#![tactic(auto)]

mod commands;
mod cuts;
mod desk_lines;
mod message_fields;
mod message_words;
mod notes;
mod pages;
mod paths;
mod replies;
mod requests;
mod rows;
mod schedules;
mod texts;
mod words;

use crate::commands::Values;
use ak_io::{StdSink, StdSource};
use cases_lines::print_answers;
use std::io;
use std::process::ExitCode;

fn main(rt: HostRuntime) -> io::Result<ExitCode> {
    let mut input = StdSource::new(rt.stdin());
    let mut out = StdSink::new(rt.stdout());
    match print_answers(rt.alloc(), &mut Values, &mut input, &mut out) {
        Ok(()) => Ok(ExitCode::from(0)),
        Err(_) => Ok(ExitCode::from(1)),
    }
}
