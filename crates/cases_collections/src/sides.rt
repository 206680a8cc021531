use crate::hosts::Hosts;
use crate::merges::{answer_of_both, newer_of};
use crate::searches::faults_of;
use crate::sessions::{Session, answer_of_side};
use ak_base::cut;
use ak_memory::MemoryKeeper;
use cases_lines::{Answers, Unread};
use std::alloc::Global;

/// Two keepers in memory, A with the steps that can be undone, and B; and a server.
#[derive(Drop)]
pub struct Sides {
    first: Session,
    second: MemoryKeeper,
    hosts: Hosts,
}

impl Sides {
    /// Two empty keepers, no step, and a server without accounts.
    pub fn new(alloc: Global) -> Result<Sides, Unread> {
        Ok(Sides {
            first: Session::new(alloc)?,
            second: MemoryKeeper::new(alloc),
            hosts: Hosts::new(alloc),
        })
    }
}

impl Answers for Sides {
    fn answer(&mut self, alloc: Global, word: &str, rest: &str) -> Result<String, Unread> {
        match word {
            "A" => {
                let (word, rest) = command_in(rest);
                self.first.answer(alloc, word, rest)
            },
            "B" => {
                let (word, rest) = command_in(rest);
                answer_of_side(alloc, &mut self.second, word, rest)
            },
            "both" => answer_of_both(alloc, &mut self.first.keeper, &mut self.second, rest),
            "newer" => newer_of(alloc, rest),
            "search" => faults_of(alloc, rest),
            _ => self.hosts.answer(alloc, word, rest),
        }
    }
}

/// The word of a command of one side, and the rest of it, which is empty where there is no space.
fn command_in(rest: &str) -> (&str, &str) {
    cut(rest, " ").unwrap_or((rest, ""))
}
