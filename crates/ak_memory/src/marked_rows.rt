ghost use Rattle.std.specs.Prelude.{◌≡◌, true, false, None, [], ◌∷◌, is_some, ◌<◌, ◌^◌, ◌≤◌, IfOk, IfSome, OnOk, OnErr};
ghost use Rattle.std.specs.Bool.{OnFalse, OnTrue};
ghost use Rattle.std.specs.FinMap as map;
ghost use Rattle.std.specs.List.{All};
ghost use Rattle.std.specs.List.Sorted.{IsStrictlySortedBy};
ghost use Rattle.std.specs.Option.{option_map, option_or};
ghost use Rattle.std.specs.Ordering.{int_cmp};
ghost use Rattle.ak_base.specs.Rows.{name_of, stamp_of};
ghost use Rattle.ak_base.specs.declared.names.Name.{Name as RowName};
ghost use Rattle.ak_keep.specs.Collections.{AscendsPast, IsPageOf, rows_of, rows_past, wanted_past, is_wanted, cards_of, row_count};
ghost use Rattle.ak_keep.specs.Entries.{row_at};
ghost use Rattle.ak_keep.specs.FreeNames.{IsFirstFree, IsFoundFrom, is_used};
ghost use Rattle.ak_keep.specs.WaitingCards.{IsHeld, IsWaitingPage};
ghost use Rattle.ak_memory.specs.Versions.{at, both, with_current};
ghost use Rattle.ak_memory.specs.declared.versions.Version.{Version as WhichVersion};

use crate::indexed::IndexedPlaces;
use crate::pages::page_of;
use crate::versions::Version;
use ak_base::{Card, List, Memory, Name, Row, Table};
use ak_keep::{Waiting, Wanted};
use std::alloc::Global;
use std::marker::Model;

/// The rows of a collection, seen as two finite maps from names to rows: those that are held now, and those that were
/// held at the mark. To set the mark, and to go back to it, copies no row.
#[derive(Debug, Drop)]
pub struct MarkedRows {
    alloc: Global,
    indexed: IndexedPlaces,
}

impl Model for MarkedRows {
    ghost use Rattle.std.specs.Coded.{codes};
    ghost use Rattle.std.specs.FinMap as map;
    ghost use Rattle.ak_base.specs.declared.names.Name.{Name as RowName};
    ghost use Rattle.ak_keep.specs.Collections.{Rows};
    ghost use Rattle.ak_memory.specs.Versions.{Versions, versions_code};

    ghost Value = { Versions Rows };

    ghost coded = { versions_code (map.code (Prim.hlevel codes) (Prim.hlevel codes)) };

    ghost use Rattle.ak_memory.specs.Indexes.{IsIndexed, rows_of};
    ghost use Rattle.ak_memory.specs.declared.versions.Version.TheVariants.{Mark, Now};

    ghost view = { λ rows. record { current = rows_of Now rows.indexed; mark = rows_of Mark rows.indexed } };

    ghost invariant = { λ rows. IsIndexed rows.indexed };
}

impl MarkedRows {
    /// No rows, in this allocator's memory.
    pub(crate) fn new(alloc: Global) -> MarkedRows
        ensures { result ≡ both map.empty }
    {
        MarkedRows {
            alloc,
            indexed: IndexedPlaces::new(alloc),
        }
    }

    /// These rows, each under its name. If two have one name, the first of them stays.
    pub(crate) fn of_rows(alloc: Global, rows: List<Row>) -> Result<MarkedRows, Memory>
        ensures { IfOk result (λ made. made.current ≡ rows_of rows) }
    {
        let mut made = MarkedRows::new(alloc);
        for row in rows.into_vec() {
            made.add(row)?;
        }
        Ok(made)
    }

    /// Puts in the row, if none is held under its name.
    fn add(&mut self, row: Row) -> Result<(), Memory>
        ensures { OnOk result ((q : RowName) → map.get self.new.current q ≡ option_or (map.get self.old.current q) (row_at ((name_of row, row) ∷ []) q)) }
    {
        self.load(row)?;
        Ok(())
    }

    /// Puts in the row, unless one is held under its name: whether it did. What is held at the mark is left open, so it is for
    /// rows that have no mark.
    pub(crate) fn load(&mut self, row: Row) -> Result<bool, Memory>
        ensures free { IfOk result (λ loaded. OnTrue loaded (map.get self.old.current (name_of row) ≡ None)) }
        ensures put { IfOk result (λ loaded. OnTrue loaded (self.new.current ≡ map.insert self.old.current (name_of row) row)) }
        ensures held { IfOk result (λ loaded. OnFalse loaded (is_some (map.get self.old.current (name_of row)) ≡ true)) }
        ensures same { IfOk result (λ loaded. OnFalse loaded (self.new.current ≡ self.old.current)) }
        ensures err { OnErr result (self.new.current ≡ self.old.current) }
    {
        self.indexed.load(self.alloc, row)
    }

    /// A copy of the row that is held under this name.
    pub fn get(&self, name: Name) -> Result<Option<Row>, Memory>
        ensures row { IfOk result (λ row. row ≡ map.get self.now.current name) }
        ensures named { IfOk result (λ row. IfSome row (λ row. name_of row ≡ name)) }
    {
        match self.indexed.get(&name) {
            Some(row) => {
                let copy = row.copy()?;
                return Ok(Some(copy));
            }
            None => return Ok(None),
        }
    }

    /// The stamp of the row that is held under this name. It takes no memory.
    pub(crate) fn stamp_of(&self, name: Name) -> Option<i64>
        ensures { result ≡ option_map stamp_of (map.get self.now.current name) }
    {
        match self.indexed.get(&name) {
            Some(row) => Some(row.stamp()),
            None => None,
        }
    }

    /// How many rows of the table are held. It takes no memory, and no walk over the table.
    pub fn count(&self, table: Table) -> u64
        ensures count { result ≡ row_count table self.now.current }
        ensures small { result < 2 ^ 63 }
    {
        self.indexed.count(table)
    }

    /// The rows of a table that are held, with ids over `past`, by ascending id: the first `limit` of them.
    pub fn page(&self, table: Table, past: i64, limit: usize) -> Result<List<Row>, Memory>
        requires low { 0 < limit }
        requires high { limit ≤ 1000 }
        ensures page { IfOk result (λ page. IsPageOf (λ past. rows_past table past self.now.current) past limit page) }
        ensures ascends { IfOk result (λ page. AscendsPast table past page) }
    {
        // No page is larger than the table, so a page with this room never grows.
        let room = limit.min(self.count(table) as usize);
        let empty = List::of(Vec::with_capacity(self.alloc, room)?);
        let before = Name { table, id: past };
        let page = page_of(empty, self.indexed.places(), &None, &before, limit)?;
        Ok(page)
    }

    /// The wanted rows of a table that are held, with ids over `past`, by ascending id: the first `limit` of them. It walks
    /// over the table from `past` on.
    pub(crate) fn pending(
        &self,
        table: Table,
        want: Wanted,
        past: i64,
        limit: usize,
    ) -> Result<List<Row>, Memory>
        requires low { 0 < limit }
        requires high { limit ≤ 1000 }
        ensures page { IfOk result (λ page. IsPageOf (λ past. wanted_past table want past self.now.current) past limit page) }
        ensures ascends { IfOk result (λ page. AscendsPast table past page) }
        ensures wanted { IfOk result (λ page. All (λ row. is_wanted want row ≡ true) page) }
    {
        let before = Name { table, id: past };
        let page = page_of(
            List::new(self.alloc),
            self.indexed.places(),
            &Some(want),
            &before,
            limit,
        )?;
        Ok(page)
    }

    /// The ids of the note's cards that are held, in ascending order.
    pub(crate) fn cards_of(&self, note: i64) -> Result<List<i64>, Memory>
        ensures cards { IfOk result (λ ids. ids ≡ cards_of note self.now.current) }
        ensures ascend { IfOk result (λ ids. IsStrictlySortedBy int_cmp ids) }
    {
        let ids = self.indexed.cards_of(self.alloc, &note)?;
        Ok(ids)
    }

    /// The first `limit` of the cards that are asked for, by due, then by id.
    pub(crate) fn waiting(&self, waiting: &Waiting, limit: usize) -> Result<List<Card>, Memory>
        ensures { IfOk result (λ page. IsWaitingPage (IsHeld self.now.current) waiting.now limit page) }
    {
        let page = self.indexed.waiting(self.alloc, waiting, limit)?;
        Ok(page)
    }

    /// The first name of its table from this one on that is free for a new row. It takes no memory.
    pub(crate) fn free_name(&mut self, first: Name) -> Option<Name>
        ensures free { IsFirstFree (is_used (map.get self.old.current)) first result }
        ensures range { IfSome result (IsFoundFrom first) }
        ensures same { self.new ≡ self.old }
    {
        self.indexed.free_name(first)
    }

    /// Puts the row under its name, in place of the row that is held there.
    pub(crate) fn put(&mut self, row: Row) -> Result<(), Memory>
        ensures ok { OnOk result (self.new ≡ with_current (map.insert self.old.current (name_of row) row) self.old) }
        ensures err { OnErr result (self.new ≡ self.old) }
    {
        self.indexed.put(self.alloc, row)
    }

    /// Takes out the row of this name, if there is one. It takes no memory.
    pub(crate) fn remove(&mut self, name: Name)
        ensures { self.new ≡ with_current (map.remove self.old.current name) self.old }
    {
        self.indexed.take(name);
    }

    /// What this version holds is held from now on, and is what a new mark leads back to. It takes no memory.
    pub(crate) fn settle(&mut self, version: Version)
        ensures { self.new ≡ both (at version self.old) }
    {
        self.indexed.settle(version);
    }
}
