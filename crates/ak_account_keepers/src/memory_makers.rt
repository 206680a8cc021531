ghost use Rattle.std.specs.Prelude.{◌≡◌, ◌<◌, ◌≤◌, false, Some, IfOk, OnErr};
ghost use Rattle.std.specs.List.{All};
ghost use Rattle.std.specs.Result.{result_ok};
ghost use Rattle.ak_faults.specs.Causes.{one_more};
ghost use Rattle.ak_keep.specs.Keepers.{KeepCause, all_known, is_marked};
ghost use Rattle.ak_keep.specs.MemoryKeepers.{health_of};
ghost use Rattle.ak_links.specs.Dials.{GivesFirst};
ghost use Rattle.ak_account_keepers.specs.Makers.{IsNew, after_make, maker_health, makes};

use crate::makers::MakeKeeper;
use ak_base::List;
use ak_faults::Calls;
use ak_io::End;
use ak_keep::{KeepFault, Lookup};
use ak_memory::MemoryKeeper;
use std::marker::Model;

/// A maker in memory: the keepers that it will give, each once and in order, whatever the file. A call that finds none to
/// come fails, and so do those named.
#[derive(Debug, Drop)]
pub struct MemoryMaker {
    to_come: Vec<MemoryKeeper>,
    calls: Calls,
}

impl Model for MemoryMaker {
    ghost use Rattle.std.specs.Coded.{codes};
    ghost use Rattle.std.specs.FinMap as map;
    ghost use Rattle.std.specs.List.{All};
    ghost use Rattle.ak_keep.specs.MemoryKeepers.{holding_code, kept_code, state_code};
    ghost use Rattle.ak_account_keepers.specs.Makers.{IsNew, MakerState, maker_code};

    ghost Value = { MakerState };

    ghost coded = { maker_code (state_code (kept_code (holding_code (map.code (Prim.hlevel codes) (Prim.hlevel codes)) (Prim.hlevel codes)))) };

    ghost view = { λ maker. record {
      to_come = maker.to_come.items;
      calls = maker.calls.count;
      fails = maker.calls.fails.items;
      fault_count = maker.calls.faults;
    } };

    ghost invariant = { λ maker. All IsNew maker.to_come.items };
}

impl MemoryMaker {
    /// A maker that gives these keepers, none of which is marked or has had a fault. The calls of `make` whose numbers are in
    /// `fails` fail, counted from 0.
    pub fn new(keepers: List<MemoryKeeper>, fails: List<u64>) -> MemoryMaker
        requires { All IsNew keepers }
        ensures { result ≡ record { to_come = keepers; calls = 0; fails = fails; fault_count = 0 } }
    {
        MemoryMaker {
            to_come: keepers.into_vec(),
            calls: Calls::new(fails.into_vec()),
        }
    }
}

impl End for MemoryMaker {
    ghost health = { maker_health };

    fn faults(&self) -> u64 {
        self.calls.faults
    }
}

impl MakeKeeper for MemoryMaker {
    type Keeper = MemoryKeeper;

    ghost to_come = { λ maker. Some maker.to_come };

    fn make(&mut self, _file: &str) -> Result<MemoryKeeper, KeepFault>
        ensures ok { IfOk result (λ keeper. GivesFirst (Some self.old.to_come) (Some self.new.to_come) keeper) }
        ensures unmarked { IfOk result (λ keeper. is_marked (all_known keeper.kept) ≡ false) }
        ensures faultless { IfOk result (λ keeper. (health_of keeper).faults ≡ 0) }
        ensures err { OnErr result (Some self.new.to_come ≡ Some self.old.to_come) }
        ensures cause { KeepCause (maker_health self.old) (maker_health self.new) result }

        // No other call fails.
        ensures only { result_ok result ≡ makes self.old }
        ensures left { self.new ≡ after_make self.old }
    {
        let named = self.calls.is_next_named();
        if named || self.to_come.is_empty() {
            self.calls.count_fault();
            return Err(KeepFault::Failed);
        }
        Ok(self.to_come.remove(0))
    }

    fn give_back(&mut self, keeper: MemoryKeeper)
        ensures told { Some self.new.to_come ≡ Some self.old.to_come }
        ensures failed { 0 < (health_of keeper).faults
            → (maker_health self.new).faults ≡ one_more (maker_health self.old).faults }
        ensures faultless { (health_of keeper).faults ≡ 0
            → (maker_health self.new).faults ≡ (maker_health self.old).faults }
        ensures later { (maker_health self.old).faults ≤ (maker_health self.new).faults }

        // It counts no call.
        ensures calls { self.new.calls ≡ self.old.calls }
        ensures fails { self.new.fails ≡ self.old.fails }
    {
        if keeper.faults() > 0 {
            self.calls.count_fault();
        }
    }
}
