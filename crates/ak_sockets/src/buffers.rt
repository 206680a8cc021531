ghost use Rattle.std.specs.Prelude.{◌≡◌, ◌↔◌, min, [], length, take, drop, OnOk, OnErr, IsTrue};
ghost use Rattle.std.specs.Io.KnownBytes.{Keeps, IsAtEnd, prepend_known};

use crate::retries::read_retrying;
use std::io::{self, Read};
use std::marker::Model;

/// How many bytes are read ahead.
const BUFFER_SIZE: usize = 4096;

/// The bytes that were read from a stream and are not taken yet. It lies inside its link and takes no memory of its
/// own, so that a connection is never refused for want of it.
#[derive(Debug, Drop)]
pub struct Buffer {
    bytes: [u8; 4096],
    start: usize,
    end: usize,
}

impl Model for Buffer {
    ghost use Rattle.std.specs.Prelude.{ℕ, ◌≤◌, ◌-◌, List, take, drop};

    ghost Value = { List ℕ };

    ghost view = { λ buffer. take (buffer.end - buffer.start) (drop buffer.start buffer.bytes) };

    ghost invariant = { λ buffer. (buffer.start ≤ buffer.end) × (buffer.end ≤ 4096) };
}

impl Buffer {
    /// A buffer with no bytes.
    pub fn new() -> Buffer
        ensures { result ≡ [] }
    {
        Buffer {
            bytes: [0; BUFFER_SIZE],
            start: 0,
            end: 0,
        }
    }

    /// Whether no byte is ahead.
    pub fn is_empty(&self) -> bool
        ensures { IsTrue result ↔ (self.now ≡ []) }
    {
        self.start >= self.end
    }

    /// Lets go what is ahead, and reads ahead anew. Afterwards no byte is ahead only at the end of the stream.
    pub fn refill<S: Read>(&mut self, stream: &mut S) -> io::Result<()>
        ensures ok { OnOk result (Keeps (S.remaining stream.old) (prepend_known self.new (S.remaining stream.new))) }
        ensures ended { OnOk result (self.new ≡ [] → IsAtEnd (S.remaining stream.new)) }
        ensures err { OnErr result ((self.new ≡ []) × Keeps (S.remaining stream.old) (S.remaining stream.new)) }
    {
        self.start = 0;
        self.end = 0;
        self.end = read_retrying(stream, &mut self.bytes)?;
        Ok(())
    }

    /// Takes what fits `into`, and answers how many bytes these are.
    pub fn take(&mut self, into: &mut [u8]) -> usize
        ensures count { result ≡ min (length self.old) (length into.old) }
        ensures front { take result into.new ≡ take result self.old }
        ensures rest { self.new ≡ drop result self.old }
    {
        let count = copy_front(&self.bytes[self.start..self.end], into);
        self.start += count;
        count
    }
}

/// Copies what fits to the front of `into`, and answers how many bytes these are.
fn copy_front(from: &[u8], into: &mut [u8]) -> usize
    ensures count { result ≡ min (length from.now) (length into.old) }
    ensures front { take result into.new ≡ take result from.now }
{
    let count = from.len().min(into.len());
    into[..count].copy_from_slice(&from[..count]);
    count
}
