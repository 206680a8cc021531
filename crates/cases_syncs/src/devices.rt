use crate::many_notes::put_notes;
use crate::servers::{Host, upload};
use crate::shown::{all, sum};
use crate::syncs::{Actor, crossed, errand_of, lied_to, undisturbed};
use ak_memory::MemoryKeeper;
use cases_keepers::answer_of;
use cases_lines::Unread;
use std::alloc::Global;

/// A device.
#[derive(Drop)]
pub struct Device {
    keeper: MemoryKeeper,
}

impl Device {
    /// A device without a collection.
    pub fn new(alloc: Global) -> Device {
        Device {
            keeper: MemoryKeeper::new(alloc),
        }
    }

    /// The answer to a command of the device. Another one may be in its way.
    pub fn answer(
        &mut self,
        alloc: Global,
        other: &mut Device,
        host: &mut Host,
        word: &str,
        rest: &str,
    ) -> Result<String, Unread> {
        match errand_of(word) {
            Some((task, Actor::Nobody)) => undisturbed(alloc, task, &mut self.keeper, host, rest),
            Some((task, Actor::Liar)) => lied_to(alloc, task, &mut self.keeper, host, rest),
            Some((task, Actor::OtherDevice)) => {
                let theirs = &mut other.keeper;
                crossed(alloc, task, &mut self.keeper, theirs, host, rest)
            },
            None => self.answer_alone(alloc, host, word, rest),
        }
    }

    /// The answer to a command that no client does.
    fn answer_alone(
        &mut self,
        alloc: Global,
        host: &mut Host,
        word: &str,
        rest: &str,
    ) -> Result<String, Unread> {
        match word {
            "copy" => self.copy(alloc, host),
            "upload" => self.upload(alloc, host, rest),
            "all" => all(alloc, &mut self.keeper),
            "sum" => sum(alloc, &mut self.keeper),
            "put-notes" => put_notes(alloc, &mut self.keeper, rest),
            _ => answer_of(alloc, &mut self.keeper, word, rest),
        }
    }

    /// `copy`: it holds what the server holds, and is not marked.
    fn copy(&mut self, alloc: Global, host: &mut Host) -> Result<String, Unread> {
        self.keeper = host.copied(alloc)?;
        Ok(String::from_str(alloc, "ok")?)
    }

    fn upload(&mut self, alloc: Global, host: &mut Host, rest: &str) -> Result<String, Unread> {
        match &mut host.logged {
            Some(server) => upload(alloc, &mut self.keeper, server, rest),
            None => Err(Unread::Bad),
        }
    }
}
