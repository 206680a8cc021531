// Cases of whole syncs, uploads and downloads: two devices and a server in memory, one command a line, and one line printed
// for each. README.md tells the commands.
#![tactic(auto)]

mod crossings;
mod devices;
mod errands;
mod intercepted_counts;
mod intercepted_wires;
mod liars;
mod lies;
mod many_notes;
mod servers;
mod shown;
mod sides;
mod syncs;

use crate::sides::Sides;
use ak_io::{StdSink, StdSource};
use cases_lines::print_answers;
use std::io;
use std::process::ExitCode;

fn main(rt: HostRuntime) -> io::Result<ExitCode> {
    let mut sides = Sides::new(rt.alloc());
    let mut input = StdSource::new(rt.stdin());
    let mut out = StdSink::new(rt.stdout());
    let code = match print_answers(rt.alloc(), &mut sides, &mut input, &mut out) {
        Ok(()) => 0,
        Err(_) => 1,
    };
    Ok(ExitCode::from(code))
}
