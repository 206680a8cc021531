// Cases of the ends over the system: one command a line, and one line printed for each. README.md tells the commands.
#![tactic(auto)]

mod sides;
mod sockets;

use crate::sockets::Sockets;
use ak_io::{StdSink, StdSource};
use cases_lines::print_answers;
use std::io;
use std::process::ExitCode;

fn main(rt: HostRuntime) -> io::Result<ExitCode> {
    let mut sockets = Sockets::new(&rt);
    let mut input = StdSource::new(rt.stdin());
    let mut out = StdSink::new(rt.stdout());
    let code = match print_answers(rt.alloc(), &mut sockets, &mut input, &mut out) {
        Ok(()) => 0,
        Err(_) => 1,
    };
    Ok(ExitCode::from(code))
}
