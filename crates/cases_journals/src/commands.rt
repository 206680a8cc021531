use crate::damages::{after_cut, after_each_change, after_each_cut, after_spoiling};
use crate::disks::filled;
use crate::files::answer_of_file;
use crate::images::tallied;
use crate::refusals::after_fails;
use cases_lines::{Answers, Unread, bytes_text};
use std::alloc::Global;
use std::rt::HostRuntime;

/// What answers the commands.
#[derive(Drop)]
pub struct Commands<'r> {
    rt: &'r HostRuntime,
}

impl<'r> Commands<'r> {
    pub fn new(rt: &'r HostRuntime) -> Commands<'r> {
        Commands { rt }
    }
}

impl Answers for Commands<'_> {
    fn answer(&mut self, alloc: Global, word: &str, rest: &str) -> Result<String, Unread> {
        match word {
            "bytes" => bytes_of(alloc, rest),
            "cut" => after_cut(alloc, rest),
            "cuts" => after_each_cut(alloc, rest),
            "spoil" => after_spoiling(alloc, rest),
            "changes" => after_each_change(alloc, rest),
            "fails" => after_fails(alloc, rest),
            "images" => tallied(alloc, rest),
            _ => answer_of_file(alloc, self.rt, word, rest),
        }
    }
}

/// `bytes PAYLOADS`: the file after these were committed.
fn bytes_of(alloc: Global, text: &str) -> Result<String, Unread> {
    let disk = filled(alloc, text)?;
    bytes_text(alloc, disk.file())
}
