ghost use Rattle.std.specs.Prelude.{◌≡◌, ◌<◌, ◌^◌, ◌≤◌, true, false, if◌then◌else◌, Some, None, is_some, length, IfOk, IfSome, OnOk, OnErr};
ghost use Rattle.std.specs.Bool.{OnFalse, OnTrue};
ghost use Rattle.std.specs.FinMap as finite;
ghost use Rattle.std.specs.List.{All, AllByRecursion};
ghost use Rattle.std.specs.List.Sorted.{IsStrictlySortedBy};
ghost use Rattle.std.specs.Option.{option_map};
ghost use Rattle.std.specs.Ordering.{int_cmp};
ghost use Rattle.ak_base.specs.Cards.{IsCheckedCard};
ghost use Rattle.ak_base.specs.Heads.{AreMomentsInRange, IsHeadInRange};
ghost use Rattle.ak_base.specs.Rows.{IsChecked, name_of, stamp_of};
ghost use Rattle.ak_keep.specs.Collections.{AscendsPast, IsId, IsPageOf, IsWellFormed, Rows, with_row, without, with_head, with_moments, made_of, rows_past, wanted_past, is_wanted, cards_of, row_count};
ghost use Rattle.ak_keep.specs.FreeNames.{IsFirstFree, IsFoundFrom, is_used};
ghost use Rattle.ak_keep.specs.HeadNumbers.{AreNumbersInRange, numbers_of};
ghost use Rattle.ak_keep.specs.Lookups.{cards_in};
ghost use Rattle.ak_keep.specs.Marks as marks;
ghost use Rattle.ak_keep.specs.WaitingCards.{AscendsAfter, IsOneOf, IsWaitingPage, waits};
ghost use Rattle.ak_memory.specs.Collections.{rows_before};

use crate::heads::{MarkedHead, Moments};
use crate::marked_rows::MarkedRows;
use crate::versions::Version;
use ak_base::{Card, Head, List, Memory, Name, Row, Table};
use ak_keep::{Numbers, Waiting, Wanted};
use std::alloc::Global;
use std::marker::Model;
use std::mem;

/// What a keeper in memory holds, and while it is marked, what it held at the mark. Each row is held under its own name,
/// and all of it is in its ranges.
#[derive(Debug, Drop)]
pub(crate) struct MarkedCollection {
    alloc: Global,
    rows: MarkedRows,
    head: MarkedHead,
    /// The rows of the mark, if all were replaced since.
    aside: Option<MarkedRows>,
    marked: bool,
}

impl Model for MarkedCollection {
    ghost use Rattle.std.specs.Coded.{codes};
    ghost use Rattle.std.specs.FinMap as map;
    ghost use Rattle.ak_keep.specs.Collections.{Holding};
    ghost use Rattle.ak_keep.specs.Marks.{WithMark};
    ghost use Rattle.ak_keep.specs.MemoryKeepers.{holding_code, kept_code};

    ghost Value = { WithMark Holding };

    ghost coded = { kept_code (holding_code (map.code (Prim.hlevel codes) (Prim.hlevel codes)) (Prim.hlevel codes)) };

    ghost use Rattle.ak_memory.specs.Collections.{IsFormed, with_mark};

    ghost view = { λ c. with_mark c.rows c.head c.aside c.marked };

    ghost invariant = { λ c. IsFormed (with_mark c.rows c.head c.aside c.marked) };
}

impl MarkedCollection {
    /// No rows and no head. It is not marked.
    pub(crate) fn empty(alloc: Global) -> MarkedCollection
        ensures { result ≡ record { current = record { rows = finite.empty; head = None }; mark = None } }
    {
        MarkedCollection {
            alloc,
            rows: MarkedRows::new(alloc),
            head: MarkedHead::none(),
            aside: None,
            marked: false,
        }
    }

    /// Whether it is marked.
    pub(crate) fn is_marked(&self) -> bool
        ensures { result ≡ is_some self.now.mark }
    {
        self.marked
    }

    /// Whether a head is held.
    pub(crate) fn is_headed(&self) -> bool
        ensures headed { result ≡ is_some self.now.current.head }
        ensures formed { IsWellFormed self.now.current }
        ensures mark { IfSome self.now.mark IsWellFormed }
    {
        self.head.is_some()
    }

    /// The rows by their names.
    pub(crate) fn rows(&self) -> &MarkedRows
        ensures { result.now.current ≡ self.now.current.rows }
    {
        &self.rows
    }

    /// A copy of the row of this name.
    pub(crate) fn get(&self, name: Name) -> Result<Option<Row>, Memory>
        ensures row { IfOk result (λ row. row ≡ finite.get self.now.current.rows name) }
        ensures named { IfOk result (λ row. IfSome row (λ row. name_of row ≡ name)) }
        ensures checked { IfOk result (λ row. IfSome row IsChecked) }
    {
        let row = self.rows.get(name)?;
        Ok(row)
    }

    /// The stamp of the row of this name. It takes no memory.
    pub(crate) fn stamp_of(&self, name: Name) -> Option<i64>
        ensures { result ≡ option_map stamp_of (finite.get self.now.current.rows name) }
    {
        self.rows.stamp_of(name)
    }

    /// Puts the row under its name, in place of the row that is held there.
    pub(crate) fn put(&mut self, row: Row) -> Result<(), Memory>
        requires { IsChecked row }
        ensures ok { OnOk result (self.new ≡ marks.changed (with_row row) self.old) }
        ensures err { OnErr result (self.new ≡ self.old) }
    {
        self.rows.put(row)?;
        Ok(())
    }

    /// Puts in the row, unless one is held under its name: whether it did.
    pub(crate) fn load(&mut self, row: Row) -> Result<bool, Memory>
        requires unmarked { is_some self.old.mark ≡ false }
        requires checked { IsChecked row }
        ensures free { IfOk result (λ loaded. OnTrue loaded (finite.get self.old.current.rows (name_of row) ≡ None)) }
        ensures put { IfOk result (λ loaded. OnTrue loaded (self.new ≡ marks.changed (with_row row) self.old)) }
        ensures held { IfOk result (λ loaded. OnFalse loaded (is_some (finite.get self.old.current.rows (name_of row)) ≡ true)) }
        ensures same { IfOk result (λ loaded. OnFalse loaded (self.new ≡ self.old)) }
        ensures err { OnErr result (self.new ≡ self.old) }
    {
        self.rows.load(row)
    }

    /// Takes out the row of this name, if there is one. It takes no memory.
    pub(crate) fn remove(&mut self, name: Name)
        ensures { self.new ≡ marks.changed (without name) self.old }
    {
        self.rows.remove(name);
    }

    /// The first `limit` rows of a table with ids over `past`.
    pub(crate) fn page(&self, table: Table, past: i64, limit: usize) -> Result<List<Row>, Memory>
        requires low { 0 < limit }
        requires high { limit ≤ 1000 }
        ensures page { IfOk result (λ page. IsPageOf (λ past. rows_past table past self.now.current.rows) past limit page) }
        ensures fits { IfOk result (λ page. length page ≤ limit) }
        ensures ascends { IfOk result (λ page. AscendsPast table past page) }
        ensures checked { IfOk result (λ page. All IsChecked page) }
    {
        let page = self.rows.page(table, past, limit)?;
        Ok(page)
    }

    /// The first `limit` wanted rows of a table with ids over `past`.
    pub(crate) fn pending(
        &self,
        table: Table,
        want: Wanted,
        past: i64,
        limit: usize,
    ) -> Result<List<Row>, Memory>
        requires low { 0 < limit }
        requires high { limit ≤ 1000 }
        ensures page { IfOk result (λ page. IsPageOf (λ past. wanted_past table want past self.now.current.rows) past limit page) }
        ensures fits { IfOk result (λ page. length page ≤ limit) }
        ensures ascends { IfOk result (λ page. AscendsPast table past page) }
        ensures wanted { IfOk result (λ page. All (λ row. is_wanted want row ≡ true) page) }
        ensures checked { IfOk result (λ page. All IsChecked page) }
    {
        let page = self.rows.pending(table, want, past, limit)?;
        Ok(page)
    }

    /// The ids of the note's cards, ascending.
    pub(crate) fn cards_of(&self, note: i64) -> Result<List<i64>, Memory>
        ensures cards { IfOk result (λ ids. ids ≡ cards_of note self.now.current.rows) }
        ensures ascend { IfOk result (λ ids. IsStrictlySortedBy int_cmp ids) }
        ensures range { IfOk result (λ ids. All IsId ids) }
    {
        let ids = self.rows.cards_of(note)?;
        Ok(ids)
    }

    /// The first `limit` of the cards that are asked for, by due, then by id.
    pub(crate) fn waiting(&self, waiting: &Waiting, limit: usize) -> Result<List<Card>, Memory>
        ensures page { IfOk result (λ page. IsWaitingPage (IsOneOf (cards_in self.now.current.rows)) waiting.now limit page) }
        ensures fits { IfOk result (λ page. length page ≤ limit) }
        ensures asked { IfOk result (λ page. AllByRecursion (λ c. waits waiting.now c ≡ true) page) }
        ensures ascends { IfOk result (λ page. AscendsAfter waiting.now.past page) }
        ensures checked { IfOk result (λ page. All IsCheckedCard page) }
    {
        let page = self.rows.waiting(waiting, limit)?;
        Ok(page)
    }

    /// How many rows a table has.
    pub(crate) fn count(&self, table: Table) -> u64
        ensures count { result ≡ row_count table self.now.current.rows }
        ensures small { result < 2 ^ 63 }
    {
        self.rows.count(table)
    }

    /// The first name of its table from this one on that is free for a new row. It takes no memory.
    pub(crate) fn free_name(&mut self, first: Name) -> Option<Name>
        ensures free { IsFirstFree (is_used (finite.get self.old.current.rows)) first result }
        ensures range { IfSome result (IsFoundFrom first) }
        ensures same { self.new ≡ self.old }
    {
        self.rows.free_name(first)
    }

    /// A copy of the head.
    pub(crate) fn head(&self) -> Result<Option<Head>, Memory>
        ensures head { IfOk result (λ head. head ≡ self.now.current.head) }
        ensures range { IfOk result (λ head. IfSome head IsHeadInRange) }
    {
        self.head.copy()
    }

    /// The numbers of the head. It takes no memory.
    #[tactic(auto, using(ak_keep::proofs::HeadNumbers::numbers_fit))]
    pub(crate) fn numbers(&self) -> Option<Numbers>
        ensures numbers { result ≡ option_map numbers_of self.now.current.head }
        ensures range { IfSome result AreNumbersInRange }
    {
        self.head.numbers()
    }

    /// Puts this head in place of the one that is held. It takes no memory.
    pub(crate) fn set_head(&mut self, head: Head)
        requires { IsHeadInRange head }
        ensures { self.new ≡ marks.changed (with_head head) self.old }
    {
        self.head.set(head);
    }

    /// Sets these numbers of the head, if one is held. It takes no memory.
    pub(crate) fn set_moments(&mut self, moment: i64, schema: i64, usn: i64, last_sync: i64)
        requires { AreMomentsInRange moment schema usn last_sync }
        ensures { self.new ≡ marks.changed (with_moments moment schema usn last_sync) self.old }
    {
        self.head.set_moments(Moments {
            moment,
            schema,
            usn,
            last_sync,
        });
    }

    /// Puts this collection in place of the one that is held. The rows of the mark are set aside whole.
    pub(crate) fn replace_all(&mut self, rows: List<Row>, head: Head) -> Result<(), Memory>
        requires checked { All IsChecked rows }
        requires range { IsHeadInRange head }
        ensures ok { OnOk result (self.new ≡ marks.changed (λ _. made_of rows head) self.old) }
        ensures err { OnErr result (self.new ≡ self.old) }
    {
        let made = MarkedRows::of_rows(self.alloc, rows)?;
        let old = mem::replace(&mut self.rows, made);
        set_aside(&mut self.aside, old);
        self.head.set(head);
        Ok(())
    }

    /// Marks what is held. It takes no memory.
    pub(crate) fn mark(&mut self)
        ensures { self.new ≡ marks.marked_here self.old }
    {
        self.keep(true);
    }

    /// Goes back to what was held at the mark, and is no longer marked. It takes no memory.
    pub(crate) fn back(&mut self)
        requires { is_some self.old.mark ≡ true }
        ensures { self.new ≡ marks.back self.old }
    {
        if let Some(rows) = self.aside.take() {
            self.rows = rows;
        }
        self.rows.settle(Version::Mark);
        self.head.settle(Version::Mark);
        self.marked = false;
    }

    /// Keeps what is held, and is no longer marked. It takes no memory.
    pub(crate) fn commit(&mut self)
        ensures { self.new ≡ marks.committed self.old }
    {
        self.keep(false);
    }

    /// Keeps what is held, and is marked there or not.
    fn keep(&mut self, marked: bool)
        ensures { self.new ≡ record { current = self.old.current; mark = if marked then Some self.old.current else None } }
    {
        self.aside = None;
        self.rows.settle(Version::Now);
        self.head.settle(Version::Now);
        self.marked = marked;
    }
}

/// Sets the rows of the mark aside, unless others were since the mark.
fn set_aside(aside: &mut Option<MarkedRows>, rows: MarkedRows)
    ensures { (mark : Rows) → rows_before mark aside.new ≡ rows_before rows.mark aside.old }
{
    if aside.is_none() {
        *aside = Some(rows);
    }
}
