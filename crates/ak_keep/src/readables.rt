ghost use Rattle.std.specs.Prelude.{◌≡◌, ◌<◌, ◌≤◌, ◌≤ℤ◌, ◌^◌, pos, Bool, true, is_some, length, IfOk, IfSome};
ghost use Rattle.std.specs.FinMap as finite;
ghost use Rattle.std.specs.List.{All, AllByRecursion};
ghost use Rattle.std.specs.List.Sorted.{IsStrictlySortedBy};
ghost use Rattle.std.specs.Option.{option_map};
ghost use Rattle.std.specs.Ordering.{int_cmp};
ghost use Rattle.std.specs.Result.{IsErrOf};
ghost use Rattle.ak_base.specs.Cards.{IsCheckedCard};
ghost use Rattle.ak_base.specs.Heads.{IsHeadInRange};
ghost use Rattle.ak_base.specs.Rows.{IsChecked, name_of, stamp_of};
ghost use Rattle.ak_faults.specs.Causes.{Health};
ghost use Rattle.ak_keep.specs.Collections.{AscendsPast, IsId, IsPageOf, rows_past, row_count, cards_of};
ghost use Rattle.ak_keep.specs.FreeNames.{IsFirstFree, IsFoundFrom, is_used};
ghost use Rattle.ak_keep.specs.Keepers.{Keeping, IsNamedRightly, IsRightlyKnown, Reads};
ghost use Rattle.ak_keep.specs.Lookups.{cards_in};
ghost use Rattle.ak_keep.specs.WaitingCards.{AscendsAfter, IsOneOf, IsWaitingPage, waits};
ghost use Rattle.ak_keep.specs.declared.keepers.KeepFault.TheVariants.{Memory as WantOfMemory};

use crate::keepers::KeepFault;
use crate::queue_walks::Waiting;
use ak_base::{Card, Head, List, Name, Row, Table};

/// What rows and a head can be looked up in by name: a keeper, or an edit under way over one.
///
/// A call leaves all as it was, if it is refused too. A store that holds anything else than its calls promise, or whose
/// head disagrees with `held`, counts a fault and answers `Failed`.
pub trait Lookup {
    /// What is known of it: what it holds, if it tells it.
    ghost keeping: { Self → Keeping };

    /// How many faults there were so far (at the last `u64` the count stays), and whether it is known that
    /// none will come.
    ghost health: { Self → Health };

    /// Whether all that it gives passes its check. A keeper's rows do; those of an edit under way are checked at its end.
    ghost checks: { Bool };

    /// What a read leaves as it was, beside what is known.
    ghost Kept: { Type 0 } = { Unit {0} };

    ghost kept: { Self → Kept };

    /// The count of faults. It takes no memory.
    fn faults(&self) -> u64
        ensures { result ≡ (health self.now).faults };

    /// Whether a head is held. It takes no memory.
    fn held(&self) -> bool
        ensures held { result ≡ (keeping self.now).headed.current }

        // What it tells is rightly named, now and at the mark, and well formed if it checks.
        ensures known { IsNamedRightly (keeping self.now) }
        ensures formed { checks ≡ true → IsRightlyKnown (keeping self.now) };

    /// A copy of the row of this name.
    fn get(&mut self, name: Name) -> Result<Option<Row>, KeepFault>
        ensures reads { Reads (kept self.old) (kept self.new) (keeping self.old) (keeping self.new) (health self.old) (health self.new) result (λ h row. row ≡ finite.get h.rows name) }
        ensures named { IfOk result (λ row. IfSome row (λ row. name_of row ≡ name)) }
        ensures checked { checks ≡ true → IfOk result (λ row. IfSome row IsChecked) };

    /// The stamp of the row of this name, None if it is not held: a review's and a grave's are 0. It takes no memory: no row
    /// is copied.
    fn stamp_of(&mut self, name: Name) -> Result<Option<i64>, KeepFault>
        ensures reads { Reads (kept self.old) (kept self.new) (keeping self.old) (keeping self.new) (health self.old) (health self.new) result (λ h stamp. stamp ≡ option_map stamp_of (finite.get h.rows name)) }
        ensures spares { IsErrOf result WantOfMemory → ⊥ };

    /// The ids of the cards of a note, in ascending order, in logarithmic time and a step for each card.
    fn cards_of(&mut self, note: i64) -> Result<List<i64>, KeepFault>
        ensures reads { Reads (kept self.old) (kept self.new) (keeping self.old) (keeping self.new) (health self.old) (health self.new) result (λ h ids. ids ≡ cards_of note h.rows) }
        ensures ascend { IfOk result (λ ids. IsStrictlySortedBy int_cmp ids) }
        ensures range { checks ≡ true → IfOk result (λ ids. All IsId ids) };

    /// A copy of the head, None if no collection is held.
    fn head(&mut self) -> Result<Option<Head>, KeepFault>
        ensures reads { Reads (kept self.old) (kept self.new) (keeping self.old) (keeping self.new) (health self.old) (health self.new) result (λ h head. head ≡ h.head) }
        ensures held { IfOk result (λ head. is_some head ≡ (keeping self.old).headed.current) }
        ensures range { checks ≡ true → IfOk result (λ head. IfSome head IsHeadInRange) };
}

/// What can also be read table by table.
pub trait Readable: Lookup {
    ghost use Rattle.ak_keep.specs.Readings.{ReadsBy};

    /// The rows of a table with ids over `past`, by ascending id: the first `limit` of them.
    fn page(&mut self, table: Table, past: i64, limit: usize) -> Result<List<Row>, KeepFault>
        requires low { 0 < limit }
        requires high { limit ≤ 1000 }
        ensures reads { ReadsBy Self.Lookup self.old self.new result (λ h page. IsPageOf (λ past. rows_past table past h.rows) past limit page) }
        ensures fits { IfOk result (λ page. length page ≤ limit) }
        ensures ascends { IfOk result (λ page. AscendsPast table past page) }
        ensures checked { Self.checks ≡ true → IfOk result (λ page. All IsChecked page) };

    /// The cards that wait in a queue, by due, then by id, past a place and due by a last number where these are given: the
    /// first `limit` of them. It takes logarithmic time, and a step for each card.
    fn waiting(&mut self, waiting: Waiting, limit: usize) -> Result<List<Card>, KeepFault>
        requires low { 0 < limit }
        requires high { limit ≤ 1000 }
        ensures reads { ReadsBy Self.Lookup self.old self.new result (λ h page. IsWaitingPage (IsOneOf (cards_in h.rows)) waiting limit page) }
        ensures fits { IfOk result (λ page. length page ≤ limit) }
        ensures asked { IfOk result (λ page. AllByRecursion (λ c. waits waiting c ≡ true) page) }
        ensures ascends { IfOk result (λ page. AscendsAfter waiting.past page) }
        ensures checked { Self.checks ≡ true → IfOk result (λ page. All IsCheckedCard page) };

    /// How many rows a table has.
    fn count(&mut self, table: Table) -> Result<u64, KeepFault>
        ensures reads { ReadsBy Self.Lookup self.old self.new result (λ h count. count ≡ row_count table h.rows) }
        ensures small { IfOk result (λ count. count < 2 ^ 63) };

    /// The first name of its table, from this one on, that a new row may have: neither a row nor a grave of it is held. None
    /// if there is none up to the last id.
    fn free_name(&mut self, first: Name) -> Result<Option<Name>, KeepFault>
        requires { pos 1 ≤ℤ first.id }
        ensures reads { ReadsBy Self.Lookup self.old self.new result (λ h found. IsFirstFree (is_used (finite.get h.rows)) first found) }
        ensures range { IfOk result (λ found. IfSome found (IsFoundFrom first)) };
}
