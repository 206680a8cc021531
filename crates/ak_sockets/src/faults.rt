ghost use Rattle.std.specs.Prelude.{◌≡◌};
ghost use Rattle.std.specs.Result.{result_ok};
ghost use Rattle.ak_faults.specs.Causes.{HasCause};
ghost use Rattle.ak_io.specs.Ends.{uncertain};
ghost use Rattle.ak_sockets.specs.Counts.{faults_after};

use ak_io::Failed;
use std::io;
use std::marker::Model;

/// How many calls of the system were refused, for one end. At the last `u64` it stays.
#[derive(Debug, Drop)]
pub struct Faults {
    count: u64,
}

impl Model for Faults {
    ghost use Rattle.std.specs.Prelude.{ℕ};

    ghost Value = { ℕ };

    ghost view = { λ faults. faults.count };
}

impl Faults {
    /// None was refused yet.
    pub fn new() -> Faults
        ensures { result ≡ 0 }
    {
        Faults { count: 0 }
    }

    /// How many were refused.
    pub fn count(&self) -> u64
        ensures { result ≡ self.now }
    {
        self.count
    }

    /// What the system answered. A refusal is counted; why it refused is not told further.
    pub fn counted<T: Drop>(&mut self, answer: io::Result<T>) -> Result<T, Failed>
        ensures same { result_ok result ≡ result_ok answer }
        ensures count { self.new ≡ faults_after self.old result }
        ensures cause { HasCause (uncertain self.old) (uncertain self.new) result }
    {
        match answer {
            Ok(value) => Ok(value),
            Err(_) => {
                self.count = self.count.saturating_add(1);
                Err(Failed)
            }
        }
    }
}
