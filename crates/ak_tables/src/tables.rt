ghost use Rattle.std.specs.Prelude.{◌≡◌, ◌⊎◌, ℕ, Bool, List as Sequence, true, is_some, Err, IfOk, OnOk, OnErr};
ghost use Rattle.ak_faults.specs.Causes.{Health};
ghost use Rattle.ak_keep.specs.Collections.{Holding, IsWellFormed};
ghost use Rattle.ak_keep.specs.Keepers.{KeepCause};
ghost use Rattle.ak_keep.specs.declared.keepers.KeepFault.TheVariants.{Memory as WantOfMemory};
ghost use Rattle.ak_tables.specs.Tables.{Covers, CrashLeaves, LeavesNow, holding, loaded};

use crate::touched::Touched;
use ak_base::{Head, List, Row};
use ak_keep::KeepFault;
use ak_memory::MarkedRows;
use std::rt::HostRuntime;

/// The tables in which a keeper stores its collection. No transaction is open between two calls.
///
/// A refused call leaves what is stored as it was; but if a file could not be brought to its disk, it is known only at
/// the next opening which of the two it holds.
pub trait Tables: Drop {
    /// They store this collection, if they tell what they store.
    ghost stores: { Self → Holding → Type 0 };

    /// Whether a write may come; else they are made ready first.
    ghost is_ready: { Self → Bool };

    /// How many of their calls failed, and whether it is known that none will.
    ghost health: { Self → Health };

    /// A number that does not fall: what their calls so far make of the time.
    ghost moment: { Self → ℕ };

    /// The images that a crash at some moment from that one on might have left, in a call or between two.
    ghost may_have_left: { Self → ℕ → Sequence ℕ → Type 0 };

    /// An image stands for this collection, if they tell what they store.
    ghost stands_for: { Self → Holding → Sequence ℕ → Type 0 };

    /// The count of faults. It takes no memory.
    fn faults(&self) -> u64
        ensures { result ≡ (health self.now).faults };

    /// Makes ready for a write. What a refused one left is undone first.
    fn ready(&mut self) -> Result<(), KeepFault>
        ensures stored { (held : Holding) → stores self.old held → stores self.new held }
        ensures ready { OnOk result (is_ready self.new ≡ true) }

        // If they are ready, nothing is done.
        ensures idle { is_ready self.old ≡ true → self.new ≡ self.old }

        // A crash at any moment of the call leaves what one before it might have left, or what is stored.
        ensures any_moment { (held : Holding) → stores self.old held → CrashLeaves moment may_have_left self.old self.new
            (λ image. may_have_left self.old (moment self.old) image ⊎ stands_for self.old held image) }

        // A crash after it leaves what is stored.
        ensures lasts { OnOk result ((held : Holding) → stores self.new held → LeavesNow moment may_have_left stands_for self.new held) }
        ensures cause { KeepCause (health self.old) (health self.new) result }
        ensures calm { OnOk result (health self.new ≡ health self.old) }
        ensures memory { result ≡ Err WantOfMemory → health self.new ≡ health self.old };

    /// Stores these rows and this head in place of what was stored, in one transaction. Only under the names and
    /// parts that were touched may they differ from it.
    fn write(
        &mut self,
        rows: &MarkedRows,
        head: &Option<Head>,
        touched: &Touched,
    ) -> Result<(), KeepFault>
        requires ready { is_ready self.old ≡ true }
        requires held { IsWellFormed (holding rows.now.current head.now) }
        requires set { touched.now.head ≡ true → is_some head.now ≡ true }
        requires whole { touched.now.whole ≡ true → touched.now.head ≡ true }
        ensures ok { OnOk result ((was : Holding) → stores self.old was → Covers touched.now was (holding rows.now.current head.now)
            → stores self.new (holding rows.now.current head.now)) }
        ensures err { OnErr result ((was : Holding) → stores self.old was → stores self.new was) }
        ensures still_ready { OnOk result (is_ready self.new ≡ true) }

        // A crash at any moment of the call leaves what was stored, or what is written.
        ensures any_moment { (was : Holding) → stores self.old was → Covers touched.now was (holding rows.now.current head.now)
            → CrashLeaves moment may_have_left self.old self.new
            (λ image. stands_for self.old was image ⊎ stands_for self.old (holding rows.now.current head.now) image) }

        // A crash after it leaves what was written.
        ensures lasts { OnOk result ((was : Holding) → stores self.old was → Covers touched.now was (holding rows.now.current head.now)
            → LeavesNow moment may_have_left stands_for self.new (holding rows.now.current head.now)) }

        // The count rises if it fails, and only then.
        ensures cause { KeepCause (health self.old) (health self.new) result }
        ensures calm { OnOk result (health self.new ≡ health self.old) }
        ensures memory { result ≡ Err WantOfMemory → health self.new ≡ health self.old };
}

/// Tables in a file, which are read when a keeper over them is made.
pub trait OpenTables: Tables {
    /// The tables in the file at this path. If the file has none, or is not there, they are made.
    fn open(rt: &HostRuntime, path: &str) -> Result<Self, KeepFault>
        ensures faultless { IfOk result (λ tables. (Self.health tables).faults ≡ 0) };

    /// All rows, in any order, and the head: they may be out of their ranges, and names may repeat. It fails if
    /// anything else is stored.
    fn read(&mut self) -> Result<StoredCollection, KeepFault>
        ensures stored { (held : Holding) → Self.stores self.old held → Self.stores self.new held }
        ensures cause { KeepCause (Self.health self.old) (Self.health self.new) result }
        ensures calm { OnOk result (Self.health self.new ≡ Self.health self.old) }
        ensures told { IfOk result (λ read. Self.stores self.new (loaded read)) };
}

/// What was read from tables.
#[derive(Debug, Drop)]
pub struct StoredCollection {
    /// In any order. Names may repeat.
    pub rows: List<Row>,
    /// None if no collection is stored.
    pub head: Option<Head>,
}
