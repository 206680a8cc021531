ghost use Rattle.std.specs.Prelude.{◌≡◌, ℕ, ◌<◌, true, Option, List, length, IfOk};
ghost use Rattle.std.specs.Io.{ReadsAtMost, WritesAtMost};
ghost use Rattle.std.specs.Io.KnownBytes.{ReadConsumes, WriteAppends};
ghost use Rattle.ak_faults.specs.Causes.{Health, HasCause, Rose};

/// The outside refused. It comes only from a call in which that object's count of faults rose.
#[derive(Clone, Copy, Debug, PartialEq, Eq)]
pub struct Failed;

/// An end to the outside, whose calls may fail.
pub trait End {
    /// How many calls failed so far, and whether it is known that none will.
    ghost health: { Self → Health };

    /// How many calls failed so far. At the last `u64` it stays. It takes no memory.
    fn faults(&self) -> u64
        ensures { result ≡ (health self.now).faults };
}

/// Where bytes come from.
pub trait Source: End {
    /// The bytes that are left, where the source tells them.
    ghost left: { Self → Option (List ℕ) };

    /// Reads into the front of `into`, and answers how many bytes it read. 0 for an `into` that is not
    /// empty is the end of the input. It may wait.
    fn read(&mut self, into: &mut [u8]) -> Result<usize, Failed>
        ensures bound { ReadsAtMost result into.new }
        ensures bytes { ReadConsumes (left self.old) (left self.new) result into.new }
        ensures cause { HasCause (Self.health self.old) (Self.health self.new) result };
}

/// Where bytes go.
pub trait Sink: End {
    /// The bytes that were written, where the sink tells them.
    ghost written: { Self → Option (List ℕ) };

    /// Writes a front of `from`, and answers how many bytes it took. It may wait.
    fn write(&mut self, from: &[u8]) -> Result<usize, Failed>
        ensures bound { WritesAtMost result from.now }
        ensures bytes { WriteAppends (written self.old) (written self.new) result from.now }
        ensures cause { HasCause (Self.health self.old) (Self.health self.new) result }

        // Nothing of a piece that is not empty is taken only if the count rose, and never by a calm sink.
        ensures stuck { IfOk result (λ n. n ≡ 0 → 0 < length from.now → Rose (Self.health self.old) (Self.health self.new)) }
        ensures moves { (Self.health self.old).calm ≡ true → IfOk result (λ n. 0 < length from.now → 0 < n) };
}
