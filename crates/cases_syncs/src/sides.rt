use crate::devices::Device;
use crate::servers::Host;
use ak_base::{List, Text, cut};
use cases_lines::{Answers, Unread};
use std::alloc::Global;

/// Two devices and the server that they sync with, and the lines that bring them to where cases begin.
#[derive(Drop)]
pub struct Sides {
    pair: Pair,
    script: List<Text>,
}

/// Two devices, and the server that they sync with.
#[derive(Drop)]
struct Pair {
    first: Device,
    second: Device,
    host: Host,
}

impl Sides {
    /// Two empty devices, no server, and no lines.
    pub fn new(alloc: Global) -> Sides {
        let pair = Pair {
            first: Device::new(alloc),
            second: Device::new(alloc),
            host: Host::new(),
        };
        Sides {
            pair,
            script: List::new(alloc),
        }
    }

    /// `first LINE`: one more line that `begin` follows.
    fn keep_line(&mut self, alloc: Global, line: &str) -> Result<String, Unread> {
        let line = Text::of(alloc, line)?;
        self.script.push(line)?;
        Ok(String::from_str(alloc, "ok")?)
    }

    /// `forget all`: no lines.
    fn forget(&mut self, alloc: Global) -> Result<String, Unread> {
        self.script = List::new(alloc);
        Ok(String::from_str(alloc, "ok")?)
    }

    /// `begin ALL`: follows each of the lines. The answer to the last one.
    fn begin(&mut self, alloc: Global) -> Result<String, Unread> {
        let mut answer = String::new(alloc);
        for line in self.script.as_slice() {
            answer = self.pair.follow(alloc, line.as_str())?;
        }
        Ok(answer)
    }
}

impl Answers for Sides {
    fn answer(&mut self, alloc: Global, word: &str, rest: &str) -> Result<String, Unread> {
        match word {
            "first" => self.keep_line(alloc, rest),
            "forget" => self.forget(alloc),
            "begin" => self.begin(alloc),
            _ => self.pair.answer(alloc, word, rest),
        }
    }
}

impl Pair {
    fn follow(&mut self, alloc: Global, line: &str) -> Result<String, Unread> {
        let (word, rest) = cut(line, " ").ok_or(Unread::Bad)?;
        self.answer(alloc, word, rest)
    }

    fn answer(&mut self, alloc: Global, word: &str, rest: &str) -> Result<String, Unread> {
        let (command, rest) = cut(rest, " ").unwrap_or((rest, ""));
        match word {
            "A" => self
                .first
                .answer(alloc, &mut self.second, &mut self.host, command, rest),
            "B" => self
                .second
                .answer(alloc, &mut self.first, &mut self.host, command, rest),
            "server" => self.host.answer(alloc, command, rest),
            _ => Err(Unread::Bad),
        }
    }
}
