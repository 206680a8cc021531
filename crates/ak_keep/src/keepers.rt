ghost use Rattle.std.specs.Prelude.{◌≡◌, ◌≢◌, ◌<◌, ◌≤◌, Bool, true, false, Err, is_some, length, map, IfOk, IfSome, OnOk, OnErr};
ghost use Rattle.std.specs.List.{All, IsDistinct};
ghost use Rattle.std.specs.Option.{option_map};
ghost use Rattle.std.specs.Ordering.{eq_by_cmp};
ghost use Rattle.ak_base.specs.Heads.{AreMomentsInRange, IsHeadInRange};
ghost use Rattle.ak_base.specs.Names.{name_cmp};
ghost use Rattle.ak_base.specs.Rows.{IsChecked, name_of};
ghost use Rattle.ak_faults.specs.Causes.{GoesOn};
ghost use Rattle.ak_keep.specs.Collections.{AscendsPast, IsPageOf, wanted_past, is_wanted};
ghost use Rattle.ak_keep.specs.HeadNumbers.{AreNumbersInRange, numbers_of};
ghost use Rattle.ak_keep.specs.Keepers.{IsMarkedAt, KeepCause, is_marked, put, removed, head_set, moments_set, replaced, marked_here, back, committed};
ghost use Rattle.ak_keep.specs.declared.keepers.KeepFault.TheVariants.{Memory as WantOfMemory};

use crate::head_numbers::Numbers;
use crate::readables::Readable;
use ak_base::{Head, List, Memory, Name, Row, Table};

/// A store of one collection, with at most one mark to go back to. Changes are made only while it is marked,
/// and are kept from `commit` on.
///
/// A refused call leaves all as it was, but for `commit`.
pub trait Keeper: Readable {
    ghost use Rattle.ak_keep.specs.Readings.{ReadsBy};

    /// Whether `numbers`, `remove`, `set_moments`, `mark` and `commit` take no memory.
    ghost spares_memory: { Bool };

    /// Whether it is marked. It takes no memory.
    fn marked(&self) -> bool
        ensures marked { result ≡ is_marked (Self.keeping self.now) }

        // All that a keeper gives passes its check.
        ensures checks { Self.checks ≡ true };

    /// The numbers of the head, None if no collection is held. Unlike `head` it copies no `conf` and no tags.
    fn numbers(&mut self) -> Result<Option<Numbers>, KeepFault>
        ensures reads { ReadsBy Self.Lookup self.old self.new result (λ h numbers. numbers ≡ option_map numbers_of h.head) }
        ensures held { IfOk result (λ numbers. is_some numbers ≡ (Self.keeping self.old).headed.current) }
        ensures range { IfOk result (λ numbers. IfSome numbers AreNumbersInRange) }
        ensures spares { spares_memory ≡ true → result ≢ Err WantOfMemory };

    /// Puts the row under its name, in place of the row that is held there.
    fn put(&mut self, row: Row) -> Result<(), KeepFault>
        requires marked { is_marked (Self.keeping self.old) ≡ true }
        requires checked { IsChecked row }
        ensures ok { OnOk result (Self.keeping self.new ≡ put row (Self.keeping self.old)) }
        ensures err { OnErr result (Self.keeping self.new ≡ Self.keeping self.old) }
        ensures stays { IsMarkedAt (back (Self.keeping self.old)) (Self.keeping self.new) }
        ensures cause { KeepCause (Self.health self.old) (Self.health self.new) result };

    /// Takes out the row of this name, if there is one.
    fn remove(&mut self, name: Name) -> Result<(), KeepFault>
        requires marked { is_marked (Self.keeping self.old) ≡ true }
        ensures ok { OnOk result (Self.keeping self.new ≡ removed name (Self.keeping self.old)) }
        ensures err { OnErr result (Self.keeping self.new ≡ Self.keeping self.old) }
        ensures stays { IsMarkedAt (back (Self.keeping self.old)) (Self.keeping self.new) }
        ensures cause { KeepCause (Self.health self.old) (Self.health self.new) result }
        ensures spares { spares_memory ≡ true → result ≢ Err WantOfMemory };

    /// The wanted rows of a table with ids over `past`, by ascending id: the first `limit` of them.
    fn pending(
        &mut self,
        table: Table,
        want: Wanted,
        past: i64,
        limit: usize,
    ) -> Result<List<Row>, KeepFault>
        requires low { 0 < limit }
        requires high { limit ≤ 1000 }
        ensures reads { ReadsBy Self.Lookup self.old self.new result (λ h page. IsPageOf (λ past. wanted_past table want past h.rows) past limit page) }
        ensures fits { IfOk result (λ page. length page ≤ limit) }
        ensures ascends { IfOk result (λ page. AscendsPast table past page) }
        ensures wanted { IfOk result (λ page. All (λ row. is_wanted want row ≡ true) page) }
        ensures checked { IfOk result (λ page. All IsChecked page) };

    /// Puts this head in place of the one that is held.
    fn set_head(&mut self, head: Head) -> Result<(), KeepFault>
        requires marked { is_marked (Self.keeping self.old) ≡ true }
        requires range { IsHeadInRange head }
        ensures ok { OnOk result (Self.keeping self.new ≡ head_set head (Self.keeping self.old)) }
        ensures err { OnErr result (Self.keeping self.new ≡ Self.keeping self.old) }
        ensures stays { IsMarkedAt (back (Self.keeping self.old)) (Self.keeping self.new) }
        ensures cause { KeepCause (Self.health self.old) (Self.health self.new) result };

    /// Sets these numbers of the head that is held: the moments in milliseconds, and the update sequence
    /// number that the next sync gives.
    fn set_moments(
        &mut self,
        moment: i64,
        schema: i64,
        usn: i64,
        last_sync: i64,
    ) -> Result<(), KeepFault>
        requires marked { is_marked (Self.keeping self.old) ≡ true }
        requires held { (Self.keeping self.old).headed.current ≡ true }
        requires range { AreMomentsInRange moment schema usn last_sync }
        ensures ok { OnOk result (Self.keeping self.new ≡ moments_set moment schema usn last_sync (Self.keeping self.old)) }
        ensures err { OnErr result (Self.keeping self.new ≡ Self.keeping self.old) }
        ensures stays { IsMarkedAt (back (Self.keeping self.old)) (Self.keeping self.new) }
        ensures cause { KeepCause (Self.health self.old) (Self.health self.new) result }
        ensures spares { spares_memory ≡ true → result ≢ Err WantOfMemory };

    /// Puts this collection in place of the one that is held.
    fn replace_all(&mut self, rows: List<Row>, head: Head) -> Result<(), KeepFault>
        requires marked { is_marked (Self.keeping self.old) ≡ true }
        requires checked { All IsChecked rows }
        requires distinct { IsDistinct (eq_by_cmp name_cmp) (map name_of rows) }
        requires range { IsHeadInRange head }
        ensures ok { OnOk result (Self.keeping self.new ≡ replaced rows head (Self.keeping self.old)) }
        ensures err { OnErr result (Self.keeping self.new ≡ Self.keeping self.old) }
        ensures stays { IsMarkedAt (back (Self.keeping self.old)) (Self.keeping self.new) }
        ensures cause { KeepCause (Self.health self.old) (Self.health self.new) result };

    /// Marks what is held, to go back to.
    fn mark(&mut self) -> Result<(), KeepFault>
        requires unmarked { is_marked (Self.keeping self.old) ≡ false }
        ensures ok { OnOk result (Self.keeping self.new ≡ marked_here (Self.keeping self.old)) }

        // To keep no changes leads back here.
        ensures commits { OnOk result (committed (Self.keeping self.new) ≡ Self.keeping self.old) }
        ensures marked { OnOk result (IsMarkedAt (Self.keeping self.old) (Self.keeping self.new)) }
        ensures err { OnErr result (Self.keeping self.new ≡ Self.keeping self.old) }
        ensures cause { KeepCause (Self.health self.old) (Self.health self.new) result }
        ensures spares { spares_memory ≡ true → result ≢ Err WantOfMemory };

    /// Goes back to what was held at the mark, and is no longer marked. It can't be refused.
    fn back(&mut self)
        requires marked { is_marked (Self.keeping self.old) ≡ true }
        ensures back { Self.keeping self.new ≡ back (Self.keeping self.old) }
        ensures goes { GoesOn (Self.health self.old) (Self.health self.new) };

    /// Keeps the changes since the mark, and is no longer marked. If it is refused, it goes back to what was
    /// held at the mark.
    fn commit(&mut self) -> Result<(), KeepFault>
        requires marked { is_marked (Self.keeping self.old) ≡ true }
        ensures ok { OnOk result (Self.keeping self.new ≡ committed (Self.keeping self.old)) }
        ensures err { OnErr result (Self.keeping self.new ≡ back (Self.keeping self.old)) }
        ensures cause { KeepCause (Self.health self.old) (Self.health self.new) result }
        ensures spares { spares_memory ≡ true → result ≢ Err WantOfMemory };
}

/// Why a keeper refused.
#[derive(Clone, Copy, Debug, PartialEq, Eq)]
pub enum KeepFault {
    /// The store refused. It comes only from a call in which the keeper's count of faults rose.
    Failed,
    /// Out of memory.
    Memory,
}

impl From<Memory> for KeepFault {
    ghost use Rattle.ak_keep.specs.declared.keepers.KeepFault.TheVariants as faults;

    ghost from_gives = { λ memory fault. fault ≡ faults.Memory };

    fn from(_memory: Memory) -> KeepFault {
        KeepFault::Memory
    }
}

/// Which rows a sync asks for.
#[derive(Clone, Copy, Debug, PartialEq, Eq)]
pub enum Wanted {
    /// Those that were not sent yet: with usn -1.
    Unsent,
    /// Those with at least this usn.
    From(i64),
}

impl Wanted {
    /// Whether the row is one of these.
    pub fn takes(&self, row: &Row) -> bool
        ensures { result ≡ is_wanted self.now row.now }
    {
        match self {
            Wanted::Unsent => row.usn() == -1,
            Wanted::From(usn) => row.usn() >= *usn,
        }
    }
}
