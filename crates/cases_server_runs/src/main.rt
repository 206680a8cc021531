// Cases of whole runs of a server in memory: what one finds is told line by line, and then it is run. README.md tells the
// commands.
#![tactic(auto)]

mod hosts;
mod makers;
mod reads;
mod runs;
mod scenes;

use crate::scenes::Scene;
use ak_io::{StdSink, StdSource};
use cases_lines::print_answers;
use std::io;
use std::process::ExitCode;

fn main(rt: HostRuntime) -> io::Result<ExitCode> {
    let mut scene = Scene::new(rt.alloc());
    let mut input = StdSource::new(rt.stdin());
    let mut out = StdSink::new(rt.stdout());
    let code = match print_answers(rt.alloc(), &mut scene, &mut input, &mut out) {
        Ok(()) => 0,
        Err(_) => 1,
    };
    Ok(ExitCode::from(code))
}
