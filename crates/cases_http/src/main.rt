// Cases of links served: bytes that come on a connection in memory, one command a line, and what is written to it.
// README.md tells the commands.
#![tactic(auto)]

mod bytes;
mod fails;
mod fronts;
mod links;
mod moments;
mod servers;
mod wires;

use crate::servers::Served;
use ak_io::{StdSink, StdSource};
use cases_lines::print_answers;
use std::io;
use std::process::ExitCode;

fn main(rt: HostRuntime) -> io::Result<ExitCode> {
    let mut served = Served::new(rt.alloc());
    let mut input = StdSource::new(rt.stdin());
    let mut out = StdSink::new(rt.stdout());
    match print_answers(rt.alloc(), &mut served, &mut input, &mut out) {
        Ok(()) => Ok(ExitCode::from(0)),
        Err(_) => Ok(ExitCode::from(1)),
    }
}
