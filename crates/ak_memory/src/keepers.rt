ghost use Rattle.std.specs.Prelude.{◌≡◌, ◌<◌, ◌≤◌, ◌≤ℤ◌, ◌^◌, pos, [], true, false, None, is_some, length, map, IfOk, IfSome, OnOk, OnErr};
ghost use Rattle.std.specs.Bool.{OnFalse, OnTrue};
ghost use Rattle.std.specs.FinMap as finite;
ghost use Rattle.std.specs.List.{All, AllByRecursion, IsDistinct};
ghost use Rattle.std.specs.List.Sorted.{IsStrictlySortedBy};
ghost use Rattle.std.specs.Option.{option_map};
ghost use Rattle.std.specs.Ordering.{eq_by_cmp, int_cmp};
ghost use Rattle.std.specs.Result.{IsErrOf};
ghost use Rattle.ak_base.specs.Cards.{IsCheckedCard};
ghost use Rattle.ak_base.specs.Heads.{AreMomentsInRange, IsHeadInRange};
ghost use Rattle.ak_base.specs.Names.{name_cmp};
ghost use Rattle.ak_base.specs.Rows.{IsChecked, name_of, stamp_of};
ghost use Rattle.ak_keep.specs.Collections.{AscendsPast, IsId, IsPageOf, IsWellFormed, with_row, without, with_head, with_moments, made_of, rows_past, wanted_past, row_count, cards_of, is_wanted};
ghost use Rattle.ak_keep.specs.FreeNames.{IsFirstFree, IsFoundFrom, is_used};
ghost use Rattle.ak_keep.specs.HeadNumbers.{AreNumbersInRange, numbers_of};
ghost use Rattle.ak_keep.specs.Keepers.{KeepCause, all_known, is_marked, put};
ghost use Rattle.ak_keep.specs.Lookups.{cards_in};
ghost use Rattle.ak_keep.specs.Marks as marks;
ghost use Rattle.ak_keep.specs.MemoryKeepers.{FailsWhere, health_of, is_to_fail, called, called_with, answer_of};
ghost use Rattle.ak_keep.specs.WaitingCards.{AscendsAfter, IsOneOf, IsWaitingPage, waits};
ghost use Rattle.ak_keep.specs.declared.keepers.KeepFault.TheVariants.{Memory};

use crate::calls::next_call;
use crate::collections::MarkedCollection;
use crate::marked_rows::MarkedRows;
use ak_base::{Card, Head, List, Memory as OutOfMemory, Name, Row, Table};
use ak_faults::Calls;
use ak_keep::{KeepFault, Keeper, Lookup, Numbers, Readable, Waiting, Wanted};
use std::alloc::Global;
use std::marker::Model;

/// A keeper in memory, which tells what it keeps. The calls that `fail_at` lists fail, and no others: with none listed
/// it is known not to fail.
/// A row is found in logarithmic time, and so are the cards of a note and those that wait in a queue, with a step for each key: until
/// the commit there may be keys of cards that are gone. A free name takes a step for each taken id from the first one on, but for those of the one
/// run of taken ids that is known of its table: what the latest question that passed any went through. To take out a row
/// ends the runs of all tables before its id, and to go back to the mark forgets them.
#[derive(Debug, Drop)]
pub struct MemoryKeeper {
    memory: MarkedCollection,
    calls: Calls,
}

impl Model for MemoryKeeper {
    ghost use Rattle.std.specs.Coded.{codes};
    ghost use Rattle.std.specs.FinMap as map;
    ghost use Rattle.ak_keep.specs.MemoryKeepers.{MemoryState, holding_code, kept_code, state_code};

    ghost Value = { MemoryState };

    ghost coded = { state_code (kept_code (holding_code (map.code (Prim.hlevel codes) (Prim.hlevel codes)) (Prim.hlevel codes))) };

    ghost view = { λ keeper. record {
      kept = keeper.memory;
      calls = keeper.calls.count;
      fails = keeper.calls.fails.items;
      faults = keeper.calls.faults;
    } };
}

impl MemoryKeeper {
    /// A keeper of no rows and no head, in this allocator's memory. It is not marked.
    pub fn new(alloc: Global) -> MemoryKeeper
        ensures made { result ≡ record { kept = record { current = record { rows = finite.empty; head = None }; mark = None }; calls = 0; fails = []; faults = 0 } }
        ensures tells { is_some (all_known result.kept).told ≡ true }
        ensures unmarked { is_marked (all_known result.kept) ≡ false }
        ensures faultless { (health_of result).faults ≡ 0 }
        ensures calm { (health_of result).calm ≡ true }
    {
        MemoryKeeper {
            memory: MarkedCollection::empty(alloc),
            calls: Calls::new(Vec::new(alloc)),
        }
    }

    /// From now on the calls of these numbers fail, counted from 0 over the calls that can.
    pub fn fail_at(&mut self, calls: List<u64>)
        ensures { self.new ≡ record self.old { calls = 0; fails = calls } }
    {
        self.calls.fail_at(calls.into_vec());
    }

    /// Puts in the row, unless one is held under its name: whether it did. A keeper is filled so before its first mark, with
    /// nothing noted for a way back. It is not among the calls that can fail, but for want of memory.
    pub fn load(&mut self, row: Row) -> Result<bool, OutOfMemory>
        requires unmarked { is_marked (all_known self.old.kept) ≡ false }
        requires checked { IsChecked row }
        ensures free { IfOk result (λ loaded. OnTrue loaded (finite.get self.old.kept.current.rows (name_of row) ≡ None)) }
        ensures put { IfOk result (λ loaded. OnTrue loaded (self.new ≡ record self.old { kept = marks.changed (with_row row) self.old.kept })) }
        ensures held { IfOk result (λ loaded. OnFalse loaded (is_some (finite.get self.old.kept.current.rows (name_of row)) ≡ true)) }
        ensures same { IfOk result (λ loaded. OnFalse loaded (self.new ≡ self.old)) }
        ensures err { OnErr result (self.new ≡ self.old) }
    {
        self.memory.load(row)
    }

    /// Puts this head in place of the one that is held. It is the head of rows that were loaded, and takes no memory.
    pub fn load_head(&mut self, head: Head)
        requires unmarked { is_marked (all_known self.old.kept) ≡ false }
        requires range { IsHeadInRange head }
        ensures { self.new ≡ record self.old { kept = marks.changed (with_head head) self.old.kept } }
    {
        self.memory.set_head(head);
    }

    /// The current rows.
    pub fn rows(&self) -> &MarkedRows
        ensures { result.now.current ≡ self.now.kept.current.rows }
    {
        self.memory.rows()
    }
}

impl Lookup for MemoryKeeper {
    ghost keeping = { λ keeper. all_known keeper.kept };

    ghost health = { λ keeper. health_of keeper };

    ghost checks = { true };

    ghost kept = { λ _. tt };

    fn faults(&self) -> u64 {
        self.calls.faults
    }

    fn held(&self) -> bool {
        self.memory.is_headed()
    }

    fn get(&mut self, name: Name) -> Result<Option<Row>, KeepFault>
        ensures row { IfOk result (λ row. row ≡ finite.get self.old.kept.current.rows name) }
        ensures named { IfOk result (λ row. IfSome row (λ row. name_of row ≡ name)) }
        ensures checked { IfOk result (λ row. IfSome row IsChecked) }
        ensures state { self.new ≡ called self.old }
        ensures fails { FailsWhere (is_to_fail self.old) result }
        ensures cause { KeepCause (health_of self.old) (health_of self.new) result }
    {
        next_call(&mut self.calls)?;
        let row = self.memory.get(name)?;
        Ok(row)
    }

    fn stamp_of(&mut self, name: Name) -> Result<Option<i64>, KeepFault>
        ensures state { self.new ≡ called self.old }
        ensures answer { result ≡ answer_of (is_to_fail self.old) (option_map stamp_of (finite.get self.old.kept.current.rows name)) }
        ensures spares { IsErrOf result Memory → ⊥ }
        ensures cause { KeepCause (health_of self.old) (health_of self.new) result }
    {
        next_call(&mut self.calls)?;
        Ok(self.memory.stamp_of(name))
    }

    fn cards_of(&mut self, note: i64) -> Result<List<i64>, KeepFault>
        ensures cards { IfOk result (λ ids. ids ≡ cards_of note self.old.kept.current.rows) }
        ensures ascend { IfOk result (λ ids. IsStrictlySortedBy int_cmp ids) }
        ensures range { IfOk result (λ ids. All IsId ids) }
        ensures state { self.new ≡ called self.old }
        ensures fails { FailsWhere (is_to_fail self.old) result }
        ensures cause { KeepCause (health_of self.old) (health_of self.new) result }
    {
        next_call(&mut self.calls)?;
        let ids = self.memory.cards_of(note)?;
        Ok(ids)
    }

    fn head(&mut self) -> Result<Option<Head>, KeepFault>
        ensures head { IfOk result (λ head. head ≡ self.old.kept.current.head) }
        ensures range { IfOk result (λ head. IfSome head IsHeadInRange) }
        ensures state { self.new ≡ called self.old }
        ensures fails { FailsWhere (is_to_fail self.old) result }
        ensures cause { KeepCause (health_of self.old) (health_of self.new) result }
    {
        next_call(&mut self.calls)?;
        let head = self.memory.head()?;
        Ok(head)
    }
}

impl Readable for MemoryKeeper {
    fn page(&mut self, table: Table, past: i64, limit: usize) -> Result<List<Row>, KeepFault>
        requires low { 0 < limit }
        requires high { limit ≤ 1000 }
        ensures page { IfOk result (λ page. IsPageOf (λ past. rows_past table past self.old.kept.current.rows) past limit page) }
        ensures fits { IfOk result (λ page. length page ≤ limit) }
        ensures ascends { IfOk result (λ page. AscendsPast table past page) }
        ensures checked { IfOk result (λ page. All IsChecked page) }
        ensures state { self.new ≡ called self.old }
        ensures fails { FailsWhere (is_to_fail self.old) result }
        ensures cause { KeepCause (health_of self.old) (health_of self.new) result }
    {
        next_call(&mut self.calls)?;
        let page = self.memory.page(table, past, limit)?;
        Ok(page)
    }

    fn waiting(&mut self, waiting: Waiting, limit: usize) -> Result<List<Card>, KeepFault>
        requires low { 0 < limit }
        requires high { limit ≤ 1000 }
        ensures page { IfOk result (λ page. IsWaitingPage (IsOneOf (cards_in self.old.kept.current.rows)) waiting limit page) }
        ensures fits { IfOk result (λ page. length page ≤ limit) }
        ensures asked { IfOk result (λ page. AllByRecursion (λ c. waits waiting c ≡ true) page) }
        ensures ascends { IfOk result (λ page. AscendsAfter waiting.past page) }
        ensures checked { IfOk result (λ page. All IsCheckedCard page) }
        ensures state { self.new ≡ called self.old }
        ensures fails { FailsWhere (is_to_fail self.old) result }
        ensures cause { KeepCause (health_of self.old) (health_of self.new) result }
    {
        next_call(&mut self.calls)?;
        let page = self.memory.waiting(&waiting, limit)?;
        Ok(page)
    }

    fn count(&mut self, table: Table) -> Result<u64, KeepFault>
        ensures state { self.new ≡ called self.old }
        ensures answer { result ≡ answer_of (is_to_fail self.old) (row_count table self.old.kept.current.rows) }
        ensures small { IfOk result (λ count. count < 2 ^ 63) }
        ensures cause { KeepCause (health_of self.old) (health_of self.new) result }
    {
        next_call(&mut self.calls)?;
        Ok(self.memory.count(table))
    }

    fn free_name(&mut self, first: Name) -> Result<Option<Name>, KeepFault>
        requires { pos 1 ≤ℤ first.id }
        ensures free { IfOk result (λ found. IsFirstFree (is_used (finite.get self.old.kept.current.rows)) first found) }
        ensures range { IfOk result (λ found. IfSome found (IsFoundFrom first)) }
        ensures state { self.new ≡ called self.old }
        ensures fails { FailsWhere (is_to_fail self.old) result }
        ensures spares { IsErrOf result Memory → ⊥ }
        ensures cause { KeepCause (health_of self.old) (health_of self.new) result }
    {
        next_call(&mut self.calls)?;
        Ok(self.memory.free_name(first))
    }
}

impl Keeper for MemoryKeeper {
    ghost spares_memory = { true };

    fn marked(&self) -> bool {
        self.memory.is_marked()
    }

    fn numbers(&mut self) -> Result<Option<Numbers>, KeepFault>
        ensures state { self.new ≡ called self.old }
        ensures answer { result ≡ answer_of (is_to_fail self.old) (option_map numbers_of self.old.kept.current.head) }
        ensures range { IfOk result (λ numbers. IfSome numbers AreNumbersInRange) }
        ensures cause { KeepCause (health_of self.old) (health_of self.new) result }
    {
        next_call(&mut self.calls)?;
        Ok(self.memory.numbers())
    }

    fn put(&mut self, row: Row) -> Result<(), KeepFault>
        requires marked { is_marked (all_known self.old.kept) ≡ true }
        requires checked { IsChecked row }
        ensures ok { OnOk result (self.new ≡ called_with (marks.changed (with_row row)) self.old) }
        ensures err { OnErr result (self.new ≡ called self.old) }
        ensures fails { FailsWhere (is_to_fail self.old) result }
        ensures cause { KeepCause (health_of self.old) (health_of self.new) result }
    {
        next_call(&mut self.calls)?;
        self.memory.put(row)?;
        Ok(())
    }

    fn remove(&mut self, name: Name) -> Result<(), KeepFault>
        requires marked { is_marked (all_known self.old.kept) ≡ true }
        ensures ok { OnOk result (self.new ≡ called_with (marks.changed (without name)) self.old) }
        ensures err { OnErr result (self.new ≡ called self.old) }
        ensures answer { result ≡ answer_of (is_to_fail self.old) tt }
        ensures cause { KeepCause (health_of self.old) (health_of self.new) result }
    {
        next_call(&mut self.calls)?;
        self.memory.remove(name);
        Ok(())
    }

    fn pending(
        &mut self,
        table: Table,
        want: Wanted,
        past: i64,
        limit: usize,
    ) -> Result<List<Row>, KeepFault>
        requires low { 0 < limit }
        requires high { limit ≤ 1000 }
        ensures page { IfOk result (λ page. IsPageOf (λ past. wanted_past table want past self.old.kept.current.rows) past limit page) }
        ensures fits { IfOk result (λ page. length page ≤ limit) }
        ensures ascends { IfOk result (λ page. AscendsPast table past page) }
        ensures wanted { IfOk result (λ page. All (λ row. is_wanted want row ≡ true) page) }
        ensures checked { IfOk result (λ page. All IsChecked page) }
        ensures state { self.new ≡ called self.old }
        ensures fails { FailsWhere (is_to_fail self.old) result }
        ensures cause { KeepCause (health_of self.old) (health_of self.new) result }
    {
        next_call(&mut self.calls)?;
        let page = self.memory.pending(table, want, past, limit)?;
        Ok(page)
    }

    fn set_head(&mut self, head: Head) -> Result<(), KeepFault>
        requires marked { is_marked (all_known self.old.kept) ≡ true }
        requires range { IsHeadInRange head }
        ensures ok { OnOk result (self.new ≡ called_with (marks.changed (with_head head)) self.old) }
        ensures err { OnErr result (self.new ≡ called self.old) }
        ensures answer { result ≡ answer_of (is_to_fail self.old) tt }
        ensures cause { KeepCause (health_of self.old) (health_of self.new) result }
    {
        next_call(&mut self.calls)?;
        self.memory.set_head(head);
        Ok(())
    }

    fn set_moments(
        &mut self,
        moment: i64,
        schema: i64,
        usn: i64,
        last_sync: i64,
    ) -> Result<(), KeepFault>
        requires marked { is_marked (all_known self.old.kept) ≡ true }
        requires held { is_some self.old.kept.current.head ≡ true }
        requires range { AreMomentsInRange moment schema usn last_sync }
        ensures ok { OnOk result (self.new ≡ called_with (marks.changed (with_moments moment schema usn last_sync)) self.old) }
        ensures err { OnErr result (self.new ≡ called self.old) }
        ensures answer { result ≡ answer_of (is_to_fail self.old) tt }
        ensures cause { KeepCause (health_of self.old) (health_of self.new) result }
    {
        next_call(&mut self.calls)?;
        self.memory.set_moments(moment, schema, usn, last_sync);
        Ok(())
    }

    fn replace_all(&mut self, rows: List<Row>, head: Head) -> Result<(), KeepFault>
        requires marked { is_marked (all_known self.old.kept) ≡ true }
        requires checked { All IsChecked rows }
        requires distinct { IsDistinct (eq_by_cmp name_cmp) (map name_of rows) }
        requires range { IsHeadInRange head }
        ensures ok { OnOk result (self.new ≡ called_with (marks.changed (λ _. made_of rows head)) self.old) }
        ensures err { OnErr result (self.new ≡ called self.old) }
        ensures fails { FailsWhere (is_to_fail self.old) result }
        ensures cause { KeepCause (health_of self.old) (health_of self.new) result }
    {
        next_call(&mut self.calls)?;
        self.memory.replace_all(rows, head)?;
        Ok(())
    }

    fn mark(&mut self) -> Result<(), KeepFault>
        requires unmarked { is_marked (all_known self.old.kept) ≡ false }
        ensures ok { OnOk result (self.new ≡ called_with marks.marked_here self.old) }
        ensures err { OnErr result (self.new ≡ called self.old) }
        ensures answer { result ≡ answer_of (is_to_fail self.old) tt }
        ensures cause { KeepCause (health_of self.old) (health_of self.new) result }
    {
        next_call(&mut self.calls)?;
        self.memory.mark();
        Ok(())
    }

    fn back(&mut self)
        requires marked { is_marked (all_known self.old.kept) ≡ true }
        ensures { self.new ≡ record self.old { kept = marks.back self.old.kept } }
    {
        self.memory.back();
    }

    fn commit(&mut self) -> Result<(), KeepFault>
        requires marked { is_marked (all_known self.old.kept) ≡ true }
        ensures ok { OnOk result (self.new ≡ called_with marks.committed self.old) }
        ensures err { OnErr result (self.new ≡ called_with marks.back self.old) }
        ensures answer { result ≡ answer_of (is_to_fail self.old) tt }
        ensures cause { KeepCause (health_of self.old) (health_of self.new) result }
    {
        match next_call(&mut self.calls) {
            Ok(()) => {
                self.memory.commit();
                return Ok(());
            }
            Err(fault) => {
                self.memory.back();
                return Err(fault);
            }
        }
    }
}
