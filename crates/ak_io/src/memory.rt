ghost use Rattle.std.specs.Prelude.{◌≡◌, ◌<◌, min, true, false, [], length, take, IfOk, Some};
ghost use Rattle.std.specs.Io.{ReadsAtMost, WritesAtMost};
ghost use Rattle.std.specs.Io.KnownBytes.{ReadConsumes, WriteAppends};
ghost use Rattle.std.specs.Result.{result_ok};
ghost use Rattle.ak_faults.specs.Causes.{HasCause, Rose};
ghost use Rattle.ak_io.specs.Ends.{gives, after_read, source_health, takes, after_write, sink_health};

use crate::traits::{End, Failed, Sink, Source};
use ak_base::{List, Memory};
use ak_faults::Calls;
use std::alloc::Global;
use std::marker::Model;

/// A source of bytes in memory, of which the reads named fail.
#[derive(Debug, Drop)]
pub struct MemorySource {
    bytes: Vec<u8>,
    taken: usize,
    calls: Calls,
}

impl Model for MemorySource {
    ghost use Rattle.std.specs.Prelude.{◌≤◌, length, drop};
    ghost use Rattle.ak_io.specs.Ends.{SourceState};

    ghost Value = { SourceState };

    ghost view = { λ source. record {
      left = drop source.taken source.bytes.items;
      calls = source.calls.count;
      fails = source.calls.fails.items;
      fault_count = source.calls.faults;
    } };

    ghost invariant = { λ source. source.taken ≤ length source.bytes.items };
}

impl MemorySource {
    /// A source of these bytes. The reads whose numbers are in `fails` fail, counted from 0.
    pub fn new(bytes: List<u8>, fails: List<u64>) -> MemorySource
        ensures { result ≡ record { left = bytes; calls = 0; fails = fails; fault_count = 0 } }
    {
        let bytes = bytes.into_vec();
        MemorySource {
            bytes,
            taken: 0,
            calls: Calls::new(fails.into_vec()),
        }
    }
}

impl End for MemorySource {
    ghost health = { source_health };

    fn faults(&self) -> u64 {
        self.calls.faults
    }
}

impl Source for MemorySource {
    ghost left = { λ source. Some source.left };

    fn read(&mut self, into: &mut [u8]) -> Result<usize, Failed>
        ensures bound { ReadsAtMost result into.new }
        ensures bytes { ReadConsumes (Some self.old.left) (Some self.new.left) result into.new }
        ensures cause { HasCause (source_health self.old) (source_health self.new) result }

        // No other call fails, and each gives all that fits.
        ensures only { result_ok result ≡ gives self.old (length into.old) }
        ensures state { self.new ≡ after_read self.old (length into.old) }
    {
        if self.calls.is_next_named() {
            self.calls.count_fault();
            return Err(Failed);
        }
        let count = copy_front(&self.bytes.as_slice()[self.taken..], into);
        self.taken += count;
        Ok(count)
    }
}

/// Copies what fits to the front of `into`, and answers how many bytes these are.
fn copy_front(from: &[u8], into: &mut [u8]) -> usize
    ensures count { result ≡ min (length from.now) (length into.old) }
    ensures front { take result into.new ≡ take result from.now }
    ensures ended { result ≡ 0 → 0 < length into.new → from.now ≡ [] }
{
    let count = from.len().min(into.len());
    into[..count].copy_from_slice(&from[..count]);
    count
}

/// A sink into memory that was taken when it was made, of which the writes named fail.
#[derive(Debug, Drop)]
pub struct MemorySink {
    bytes: Vec<u8>,
    room: usize,
    calls: Calls,
}

impl Model for MemorySink {
    ghost use Rattle.std.specs.Prelude.{◌≤◌, ◌+◌, vec_len, vec_capacity};
    ghost use Rattle.ak_io.specs.Ends.{SinkState};

    ghost Value = { SinkState };

    ghost view = { λ sink. record {
      written = sink.bytes.items;
      room = sink.room;
      calls = sink.calls.count;
      fails = sink.calls.fails.items;
      fault_count = sink.calls.faults;
    } };

    ghost invariant = { λ sink. vec_len sink.bytes + sink.room ≤ vec_capacity sink.bytes };
}

impl MemorySink {
    /// A sink for so many bytes. The writes whose numbers are in `fails` fail, counted from 0.
    pub fn new(alloc: Global, room: u64, fails: List<u64>) -> Result<MemorySink, Memory>
        ensures { IfOk result (λ sink. sink ≡ record { written = []; room = room; calls = 0; fails = fails; fault_count = 0 }) }
    {
        let room = room as usize;
        let bytes = Vec::with_capacity(alloc, room)?;
        Ok(MemorySink {
            bytes,
            room,
            calls: Calls::new(fails.into_vec()),
        })
    }

    /// The bytes that were written.
    pub fn bytes(&self) -> &[u8]
        ensures { result.now ≡ self.now.written }
    {
        self.bytes.as_slice()
    }
}

impl End for MemorySink {
    ghost health = { sink_health };

    fn faults(&self) -> u64 {
        self.calls.faults
    }
}

impl Sink for MemorySink {
    ghost written = { λ sink. Some sink.written };

    fn write(&mut self, from: &[u8]) -> Result<usize, Failed>
        ensures bound { WritesAtMost result from.now }
        ensures bytes { WriteAppends (Some self.old.written) (Some self.new.written) result from.now }
        ensures cause { HasCause (sink_health self.old) (sink_health self.new) result }
        ensures stuck { IfOk result (λ n. n ≡ 0 → 0 < length from.now → Rose (sink_health self.old) (sink_health self.new)) }
        ensures moves { (sink_health self.old).calm ≡ true → IfOk result (λ n. 0 < length from.now → 0 < n) }

        // No other call fails, and each takes all that fits.
        ensures only { result_ok result ≡ takes self.old (length from.now) }
        ensures state { self.new ≡ after_write self.old from.now }
    {
        let named = self.calls.is_next_named();
        if named || (!from.is_empty() && self.room == 0) {
            self.calls.count_fault();
            return Err(Failed);
        }
        let count = self.room.min(from.len());
        self.room -= count;
        match self.bytes.extend_from_slice(&from[..count]) {
            Ok(()) => Ok(count),
            // The room was taken when the sink was made.
            Err(_) => unreachable!(),
        }
    }
}
