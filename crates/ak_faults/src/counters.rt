ghost use Rattle.std.specs.Prelude.{◌≡◌, ◌≤◌, true, false};
ghost use Rattle.ak_faults.specs.Calls.{is_named, names_none};
ghost use Rattle.ak_faults.specs.Causes.{one_more};

/// The calls that can fail, of an object that does so only where it is told to: how many came, which of
/// them are to fail, and how many did. Both counts stay at the last `u64`.
#[derive(Debug, Drop)]
pub struct Calls {
    pub count: u64,
    /// Numbers of calls, from 0, in any order.
    pub fails: Vec<u64>,
    pub faults: u64,
}

impl Calls {
    /// No call came yet. Those of these numbers are to fail.
    pub fn new(fails: Vec<u64>) -> Calls
        ensures { result ≡ record { count = 0; fails = fails; faults = 0 } }
    {
        Calls {
            count: 0,
            fails,
            faults: 0,
        }
    }

    /// Counts the calls from 0 again: from now on those of these numbers are to fail.
    pub fn fail_at(&mut self, fails: Vec<u64>)
        ensures { self.new ≡ record { count = 0; fails = fails; faults = self.old.faults } }
    {
        self.count = 0;
        self.fails = fails;
    }

    /// Counts a call, and answers whether it is to fail.
    pub fn is_next_named(&mut self) -> bool
        ensures named { result ≡ is_named self.old.count self.old.fails.items }
        ensures calm { names_none self.old.fails.items ≡ true → result ≡ false }
        ensures count { self.new.count ≡ one_more self.old.count }
        ensures fails { self.new.fails ≡ self.old.fails }
        ensures faults { self.new.faults ≡ self.old.faults }
    {
        let named = self.fails.as_slice().contains(&self.count);
        self.count = self.count.saturating_add(1);
        named
    }

    /// Counts a fault.
    pub fn count_fault(&mut self)
        ensures count { self.new.count ≡ self.old.count }
        ensures fails { self.new.fails ≡ self.old.fails }
        ensures faults { self.new.faults ≡ one_more self.old.faults }
        ensures later { self.old.faults ≤ self.new.faults }
    {
        self.faults = self.faults.saturating_add(1);
    }
}
