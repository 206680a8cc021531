use crate::hosts::{faults_text, head_text};
use crate::reads::{bytes_in, bytes_of, numbers_in, numbers_of, texts_in};
use crate::runs::run_scene;
use ak_base::{List, cut};
use ak_links::MemoryLink;
use ak_memory::MemoryKeeper;
use ak_server::Server;
use cases_keepers::{answer_of, value_of};
use cases_lines::{Answers, Unread};
use serde_json::Value;
use std::alloc::Global;
use std::mem;

/// What the next run finds, and the server that the last one left.
#[derive(Drop)]
pub struct Scene {
    pub next: Found,
    pub server: Server<MemoryKeeper>,
}

/// What a run finds: the file of accounts, the keepers and the links to come, the moments of its clock, and which calls of
/// each fail.
#[derive(Drop)]
pub struct Found {
    pub file: Vec<u8>,
    pub file_fails: List<u64>,
    pub keepers: Vec<MemoryKeeper>,
    pub maker_fails: List<u64>,
    pub links: Vec<MemoryLink>,
    pub door_fails: List<u64>,
    pub moments: List<u64>,
}

impl Scene {
    /// Nothing is found, and nothing was run.
    pub fn new(alloc: Global) -> Scene {
        Scene {
            next: nothing(alloc),
            server: Server::new(alloc),
        }
    }

    /// `link [BYTES, ROOM, [CALL, ..]]`: one more link to come.
    fn link(&mut self, alloc: Global, rest: &str) -> Result<String, Unread> {
        let value = value_of(alloc, rest)?;
        let bytes = bytes_of(alloc, value.get(0).ok_or(Unread::Bad)?)?;
        let room = value.get(1).and_then(Value::as_u64).ok_or(Unread::Bad)?;
        let fails = numbers_of(alloc, value.get(2).ok_or(Unread::Bad)?)?;
        let link = MemoryLink::new(alloc, List::of(bytes), room, fails)?;
        self.next.links.push(link)?;
        ok(alloc)
    }

    /// `keepers COUNT`: so many more keepers to come, empty ones.
    fn keepers(&mut self, alloc: Global, rest: &str) -> Result<String, Unread> {
        for _ in 0..rest.parse::<u8>().ok().ok_or(Unread::Bad)? {
            self.next.keepers.push(MemoryKeeper::new(alloc))?;
        }
        ok(alloc)
    }

    /// `keeper COMMAND`: that command to the last one.
    fn keeper(&mut self, alloc: Global, rest: &str) -> Result<String, Unread> {
        let (word, rest) = cut(rest, " ").unwrap_or((rest, ""));
        match self.next.keepers.last_mut() {
            Some(keeper) => answer_of(alloc, keeper, word, rest),
            None => Err(Unread::Bad),
        }
    }

    /// `run [WORD, ..]`: the run, and then nothing is found again.
    fn run(&mut self, alloc: Global, rest: &str) -> Result<String, Unread> {
        let words = texts_in(alloc, rest)?;
        let found = mem::replace(&mut self.next, nothing(alloc));
        let (answer, server) = run_scene(alloc, words.as_slice(), found)?;
        self.server = server;
        Ok(answer)
    }
}

impl Answers for Scene {
    fn answer(&mut self, alloc: Global, word: &str, rest: &str) -> Result<String, Unread> {
        match word {
            "file" => self.next.file = bytes_in(alloc, rest)?,
            "file-fails" => self.next.file_fails = numbers_in(alloc, rest)?,
            "maker-fails" => self.next.maker_fails = numbers_in(alloc, rest)?,
            "door-fails" => self.next.door_fails = numbers_in(alloc, rest)?,
            "clock" => self.next.moments = numbers_in(alloc, rest)?,
            "link" => return self.link(alloc, rest),
            "keepers" => return self.keepers(alloc, rest),
            "keeper" => return self.keeper(alloc, rest),
            "run" => return self.run(alloc, rest),
            "faults" => return faults_text(alloc, &self.server, rest),
            "head" => return head_text(alloc, &mut self.server, rest),
            _ => return Err(Unread::Bad),
        }
        ok(alloc)
    }
}

fn nothing(alloc: Global) -> Found {
    Found {
        file: Vec::new(alloc),
        file_fails: List::new(alloc),
        keepers: Vec::new(alloc),
        maker_fails: List::new(alloc),
        links: Vec::new(alloc),
        door_fails: List::new(alloc),
        moments: List::new(alloc),
    }
}

fn ok(alloc: Global) -> Result<String, Unread> {
    Ok(String::from_str(alloc, "ok")?)
}
