// The program `ankid`: a server of accounts, each with its collection in a SQLite file, over TCP.
#![tactic(auto)]

mod makers;

use crate::makers::TableMaker;
use ak_io::{StdClock, StdSink, print_line};
use ak_server::Server;
use ak_server_runs::{RunEnd, serve_all};
use ak_sockets::{FileSource, TcpDoor};
use ak_sqlite::SqliteTables;
use std::env::Env;
use std::io::ErrorKind;
use std::process::ExitCode;
use std::{env, io};

// It serves one link after another. Each commit is in its account's file when the reply is written, so the program may be
// killed at any moment.
fn main(rt: HostRuntime) -> ExitCode {
    let status = match words_of(&rt) {
        Ok(words) => run_words(&rt, words.as_slice()),
        Err(error) => match error.kind() {
            ErrorKind::OutOfMemory => RunEnd::Memory.status(),
            // A word that is not UTF-8 is none that the program takes.
            _ => RunEnd::Usage.status(),
        },
    };
    if status == RunEnd::Usage.status() {
        let mut out = StdSink::new(rt.stdout());
        // The status tells the rest, if this can't be printed.
        let _ = print_line(&mut out, b"usage");
    }
    ExitCode::from(status)
}

/// The words after the program's name.
fn words_of(rt: &(impl Env + AllocGlobal)) -> io::Result<Vec<String>> {
    let mut words = Vec::new(rt.alloc());
    for (place, word) in env::args(rt)?.enumerate() {
        if place > 0 {
            words.push(word)?;
        }
    }
    Ok(words)
}

/// Serves as the words say, and answers the status.
fn run_words(rt: &HostRuntime, words: &[String]) -> u8 {
    let alloc = rt.alloc();
    let mut accounts = FileSource::new(rt);
    let mut door = TcpDoor::new(rt);
    let mut maker = TableMaker::<SqliteTables>::new(rt);
    let mut clock = StdClock::new(rt);
    let mut server = Server::new(alloc);
    serve_all(
        alloc,
        words,
        &mut accounts,
        &mut door,
        &mut maker,
        &mut clock,
        &mut server,
    )
}
