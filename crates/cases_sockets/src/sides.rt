use ak_io::{Failed, Sink, Source, write_all};
use cases_lines::Unread;
use std::alloc::Global;

/// The room of the largest read.
const ROOM: usize = 64;

/// `ok` or `failed`.
pub fn told<T: Drop>(alloc: Global, answer: Result<T, Failed>) -> Result<String, Unread> {
    let word = match answer {
        Ok(_) => "ok",
        Err(Failed) => "failed",
    };
    Ok(String::from_str(alloc, word)?)
}

/// The answer to a command of one side of a connection.
pub fn answer_of_link<L: Source + Sink>(
    alloc: Global,
    link: &mut L,
    word: &str,
    rest: &str,
) -> Result<String, Unread> {
    if word == "write" {
        return told(alloc, write_all(link, rest.as_bytes()));
    }
    answer_of_source(alloc, link, word, rest)
}

/// The answer to a command of what can be read.
pub fn answer_of_source<S: Source>(
    alloc: Global,
    source: &mut S,
    word: &str,
    rest: &str,
) -> Result<String, Unread> {
    match word {
        "read" => match rest.parse::<usize>() {
            Ok(room) => read_text(alloc, source, room),
            Err(_) => Err(Unread::Bad),
        },
        "faults" => {
            let faults = source.faults();
            Ok(format!(in alloc; "{faults}")?)
        }
        _ => Err(Unread::Bad),
    }
}

/// What one read gave, as a text.
fn read_text<S: Source>(alloc: Global, source: &mut S, room: usize) -> Result<String, Unread> {
    let mut piece = [0u8; ROOM];
    let room = room.min(ROOM);
    match source.read(&mut piece[..room]) {
        Ok(0) if room > 0 => Ok(String::from_str(alloc, "end")?),
        Ok(count) => match str::from_utf8(&piece[..count]) {
            Ok(text) => Ok(format!(in alloc; "{count} {text:?}")?),
            Err(_) => Err(Unread::Bad),
        },
        Err(Failed) => Ok(String::from_str(alloc, "failed")?),
    }
}
