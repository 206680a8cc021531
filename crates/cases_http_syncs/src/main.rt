// Cases of whole syncs over HTTP: two devices and a server in one process, which speak over the loopback. One command a line,
// and one line printed for each. README.md tells the commands.
#![tactic(auto)]

mod devices;
mod server_ends;
mod sides;
mod wire_ends;

use crate::sides::Sides;
use ak_io::{StdSink, StdSource};
use cases_lines::print_answers;
use std::io;
use std::process::ExitCode;

fn main(rt: HostRuntime) -> io::Result<ExitCode> {
    let mut sides = Sides::new(&rt);
    let mut input = StdSource::new(rt.stdin());
    let mut out = StdSink::new(rt.stdout());
    match print_answers(rt.alloc(), &mut sides, &mut input, &mut out) {
        Ok(()) => Ok(ExitCode::from(0)),
        Err(_) => Ok(ExitCode::from(1)),
    }
}
