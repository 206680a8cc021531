ghost use Rattle.std.specs.Prelude.{◌≡◌, ℕ, ◌<◌, ◌≤◌, true, false, List, [], length, drop, IfOk, OnOk};
ghost use Rattle.std.specs.Io.KnownBytes.{Keeps, IsAtEnd, prepend_known};
ghost use Rattle.ak_faults.specs.Causes.{HasCause};

use crate::traits::{Failed, Source};
use ak_base::Memory;
use std::alloc::Global;
use std::marker::Model;

/// How many bytes are read at a time.
const WINDOW_SIZE: usize = 65536;

/// The bytes that were read from a source and are not taken yet.
#[derive(Debug, Drop)]
pub struct Window {
    buffer: Vec<u8>,
    start: usize,
    end: usize,
}

impl Model for Window {
    ghost use Rattle.std.specs.Prelude.{ℕ, ◌<◌, ◌≤◌, ◌-◌, List, length, take, drop};

    ghost Value = { List ℕ };

    ghost view = { λ window. take (window.end - window.start) (drop window.start window.buffer.items) };

    ghost invariant = { λ window. (window.start ≤ window.end) × (window.end ≤ length window.buffer.items) × (0 < length window.buffer.items) };
}

impl Window {
    /// A window with no bytes.
    pub fn new(alloc: Global) -> Result<Window, Memory>
        ensures { IfOk result (λ window. window ≡ []) }
    {
        let buffer = Vec::from_elem(alloc, 0, WINDOW_SIZE)?;
        Ok(Window {
            buffer,
            start: 0,
            end: 0,
        })
    }

    /// The bytes ahead.
    pub fn bytes(&self) -> &[u8]
        ensures { result.now ≡ self.now }
    {
        &self.buffer.as_slice()[self.start..self.end]
    }

    /// Takes so many bytes.
    pub fn drop_front(&mut self, count: usize)
        requires { count ≤ length self.old }
        ensures { self.new ≡ drop count self.old }
    {
        self.start += count;
    }

    /// Reads if no byte is ahead, and answers whether one is then.
    pub fn fill<I: Source>(&mut self, input: &mut I) -> Result<bool, Failed>
        ensures kept { OnOk result (Keeps (prepend_known self.old (I.left input.old)) (prepend_known self.new (I.left input.new))) }
        ensures some { IfOk result (λ is_some. is_some ≡ true → 0 < length self.new) }
        ensures none { IfOk result (λ is_some. is_some ≡ false → (self.new ≡ []) × IsAtEnd (I.left input.new)) }
        ensures cause { HasCause (I.health input.old) (I.health input.new) result }
    {
        if self.start < self.end {
            return Ok(true);
        }
        let count = input.read(self.buffer.as_mut_slice())?;
        self.start = 0;
        self.end = count;
        Ok(count > 0)
    }
}
