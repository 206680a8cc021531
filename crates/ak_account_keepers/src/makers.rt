ghost use Rattle.std.specs.Prelude.{◌≡◌, ◌<◌, ◌≤◌, false, Option, List, IfOk, OnErr};
ghost use Rattle.ak_faults.specs.Causes.{one_more};
ghost use Rattle.ak_keep.specs.Keepers.{KeepCause, is_marked};
ghost use Rattle.ak_links.specs.Dials.{GivesFirst};

use ak_io::End;
use ak_keep::{KeepFault, Keeper};

/// Where the keepers of a server's accounts come from: each is made for a file, by the file's name.
pub trait MakeKeeper: End {
    type Keeper: Keeper;

    /// The keepers to come, if the maker tells them.
    ghost to_come: { Self → Option (List Self.Keeper) };

    /// The keeper of this file. It is not marked, and has had no fault.
    fn make(&mut self, file: &str) -> Result<Self::Keeper, KeepFault>
        ensures ok { IfOk result (λ keeper. GivesFirst (to_come self.old) (to_come self.new) keeper) }
        ensures unmarked { IfOk result (λ keeper. is_marked (Self.Keeper.keeping keeper) ≡ false) }
        ensures faultless { IfOk result (λ keeper. (Self.Keeper.health keeper).faults ≡ 0) }
        ensures err { OnErr result (to_come self.new ≡ to_come self.old) }
        ensures cause { KeepCause (Self.health self.old) (Self.health self.new) result };

    /// Takes back a keeper that no account was made with, and counts a fault if that keeper had one. It takes no memory.
    fn give_back(&mut self, keeper: Self::Keeper)
        ensures told { to_come self.new ≡ to_come self.old }
        ensures failed { 0 < (Self.Keeper.health keeper).faults
            → (Self.health self.new).faults ≡ one_more (Self.health self.old).faults }
        ensures faultless { (Self.Keeper.health keeper).faults ≡ 0
            → (Self.health self.new).faults ≡ (Self.health self.old).faults }
        ensures later { (Self.health self.old).faults ≤ (Self.health self.new).faults };
}
