ghost use Rattle.std.specs.Prelude.{◌≡◌, ◌<◌, true, length, IfOk, Some};
ghost use Rattle.std.specs.Io.{ReadsAtMost, WritesAtMost};
ghost use Rattle.std.specs.Io.KnownBytes.{ReadConsumes, WriteAppends};
ghost use Rattle.std.specs.Result.{result_ok};
ghost use Rattle.ak_faults.specs.Causes.{HasCause, Rose};
ghost use Rattle.ak_io.specs.Ends.{gives, takes};
ghost use Rattle.ak_links.specs.Links.{new_link, link_health, reading_side, writing_side, link_after_read, link_after_write};

use crate::traits::Link;
use ak_base::{List, Memory};
use ak_faults::Calls;
use ak_io::{End, Failed, MemorySink, MemorySource, Sink, Source};
use std::alloc::Global;
use std::marker::Model;

/// A connection in memory: the bytes that the other side sent, and room for those that are written to it. The reads
/// and writes named fail.
#[derive(Debug, Drop)]
pub struct MemoryLink {
    source: MemorySource,
    sink: MemorySink,
    calls: Calls,
}

impl Model for MemoryLink {
    ghost use Rattle.std.specs.Prelude.{◌≡◌, []};
    ghost use Rattle.ak_links.specs.Links.{LinkState};

    ghost Value = { LinkState };

    ghost view = { λ link. record {
      left = link.source.left;
      written = link.sink.written;
      room = link.sink.room;
      calls = link.calls.count;
      fails = link.calls.fails.items;
      fault_count = link.calls.faults;
    } };

    ghost invariant = { λ link. (link.source.fails ≡ []) × (link.sink.fails ≡ []) };
}

impl MemoryLink {
    /// A connection on which these bytes came, with room for so many bytes to be written. The calls whose numbers are
    /// in `fails` fail: reads and writes are counted together, from 0.
    pub fn new(
        alloc: Global,
        bytes: List<u8>,
        room: u64,
        fails: List<u64>,
    ) -> Result<MemoryLink, Memory>
        ensures { IfOk result (λ link. link ≡ new_link bytes room fails) }
    {
        // The link names the calls that fail, and its two sides name none.
        let sink = MemorySink::new(alloc, room, List::new(alloc))?;
        Ok(MemoryLink {
            source: MemorySource::new(bytes, List::new(alloc)),
            sink,
            calls: Calls::new(fails.into_vec()),
        })
    }

    /// The bytes that were written.
    pub fn bytes(&self) -> &[u8]
        ensures { result.now ≡ self.now.written }
    {
        self.sink.bytes()
    }
}

impl End for MemoryLink {
    ghost health = { link_health };

    fn faults(&self) -> u64 {
        self.calls.faults
    }
}

impl Source for MemoryLink {
    ghost left = { λ link. Some link.left };

    fn read(&mut self, into: &mut [u8]) -> Result<usize, Failed>
        ensures bound { ReadsAtMost result into.new }
        ensures bytes { ReadConsumes (Some self.old.left) (Some self.new.left) result into.new }
        ensures cause { HasCause (link_health self.old) (link_health self.new) result }

        // No other call fails, and each gives all that fits.
        ensures only { result_ok result ≡ gives (reading_side self.old) (length into.old) }
        ensures state { self.new ≡ link_after_read self.old (length into.old) }
    {
        if self.calls.is_next_named() {
            self.calls.count_fault();
            return Err(Failed);
        }
        self.source.read(into)
    }
}

impl Sink for MemoryLink {
    ghost written = { λ link. Some link.written };

    fn write(&mut self, from: &[u8]) -> Result<usize, Failed>
        ensures bound { WritesAtMost result from.now }
        ensures bytes { WriteAppends (Some self.old.written) (Some self.new.written) result from.now }
        ensures cause { HasCause (link_health self.old) (link_health self.new) result }
        ensures stuck { IfOk result (λ n. n ≡ 0 → 0 < length from.now → Rose (link_health self.old) (link_health self.new)) }
        ensures moves { (link_health self.old).calm ≡ true → IfOk result (λ n. 0 < length from.now → 0 < n) }

        // A call fails only if the list names it, or if a piece that is not empty finds no room; each other takes all
        // that fits.
        ensures only { result_ok result ≡ takes (writing_side self.old) (length from.now) }
        ensures state { self.new ≡ link_after_write self.old from.now }
    {
        if self.calls.is_next_named() {
            self.calls.count_fault();
            return Err(Failed);
        }
        let result = self.sink.write(from);
        if result.is_err() {
            self.calls.count_fault();
        }
        result
    }
}

impl Link for MemoryLink {
    fn receive(&mut self, into: &mut [u8]) -> Result<usize, Failed> {
        self.read(into)
    }

    fn send(&mut self, from: &[u8]) -> Result<usize, Failed> {
        self.write(from)
    }
}
