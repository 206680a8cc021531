ghost use Rattle.std.specs.Prelude.{◌≡◌, length, Some};
ghost use Rattle.std.specs.Io.{ReadsAtMost};
ghost use Rattle.std.specs.Io.KnownBytes.{ReadConsumes};
ghost use Rattle.std.specs.Option.{option_map};
ghost use Rattle.std.specs.Result.{result_ok};
ghost use Rattle.ak_faults.specs.Causes.{HasCause};
ghost use Rattle.ak_io.specs.Ends.{source_health, gives, after_read};

use crate::traits::Named;
use ak_base::List;
use ak_io::{End, Failed, MemorySource, Source};
use std::marker::Model;

/// A file in memory, under each name: a source of bytes, of which the calls named fail.
#[derive(Debug, Drop)]
pub struct MemoryFile {
    source: MemorySource,
}

impl Model for MemoryFile {
    ghost use Rattle.ak_io.specs.Ends.{SourceState};

    ghost Value = { SourceState };

    ghost view = { λ file. file.source };
}

impl MemoryFile {
    /// A file of these bytes. The calls whose numbers are in `fails` fail: those of `open` and `read` are counted
    /// together, from 0.
    pub fn new(bytes: List<u8>, fails: List<u64>) -> MemoryFile
        ensures { result ≡ record { left = bytes; calls = 0; fails = fails; fault_count = 0 } }
    {
        MemoryFile {
            source: MemorySource::new(bytes, fails),
        }
    }
}

impl End for MemoryFile {
    ghost health = { source_health };

    fn faults(&self) -> u64 {
        self.source.faults()
    }
}

impl Source for MemoryFile {
    ghost left = { λ file. Some file.left };

    fn read(&mut self, into: &mut [u8]) -> Result<usize, Failed>
        ensures bound { ReadsAtMost result into.new }
        ensures bytes { ReadConsumes (Some self.old.left) (Some self.new.left) result into.new }
        ensures cause { HasCause (source_health self.old) (source_health self.new) result }

        // No other call fails, and each gives all that fits.
        ensures only { result_ok result ≡ gives self.old (length into.old) }
        ensures state { self.new ≡ after_read self.old (length into.old) }
    {
        self.source.read(into)
    }
}

impl Named for MemoryFile {
    /// The bytes that are left are those of the file of this name, whatever name it is.
    fn open(&mut self, _name: &str) -> Result<(), Failed>
        ensures left { Some self.new.left ≡ Some self.old.left }
        ensures cause { HasCause (source_health self.old) (source_health self.new) result }

        // No other call fails. It is counted as a read of no byte.
        ensures only { result_ok result ≡ option_map (λ count. tt) (gives self.old 0) }
        ensures state { self.new ≡ after_read self.old 0 }
    {
        let mut nothing: [u8; 0] = [];
        self.source.read(&mut nothing)?;
        Ok(())
    }
}
