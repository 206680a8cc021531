ghost use Rattle.std.specs.Prelude.{◌≡◌, ◌⊎◌, ◌<◌, ◌≤◌, ◌≤ℤ◌, ◌^◌, pos, true, false, [], None, is_some, option_map, length, map, Err, IfOk, IfSome, OnOk, OnErr};
ghost use Rattle.std.specs.FinMap as finite;
ghost use Rattle.std.specs.List.{All, AllByRecursion, IsDistinct};
ghost use Rattle.std.specs.List.Sorted.{IsStrictlySortedBy};
ghost use Rattle.std.specs.Ordering.{eq_by_cmp, int_cmp};
ghost use Rattle.std.specs.Result.{IsErrOf};
ghost use Rattle.ak_base.specs.Cards.{IsCheckedCard};
ghost use Rattle.ak_base.specs.Heads.{AreMomentsInRange, IsHeadInRange};
ghost use Rattle.ak_base.specs.Names.{name_cmp};
ghost use Rattle.ak_base.specs.Rows.{IsChecked, name_of, stamp_of};
ghost use Rattle.ak_keep.specs.Collections.{AscendsPast, Holding, IsId, IsPageOf, with_row, without, with_head, with_moments, made_of, rows_past, wanted_past, row_count, cards_of, is_wanted};
ghost use Rattle.ak_keep.specs.FreeNames.{IsFirstFree, IsFoundFrom, is_used};
ghost use Rattle.ak_keep.specs.HeadNumbers.{AreNumbersInRange, numbers_of};
ghost use Rattle.ak_keep.specs.Keepers.{IsRightlyKnown, KeepCause, all_known, is_marked};
ghost use Rattle.ak_keep.specs.Lookups.{cards_in};
ghost use Rattle.ak_keep.specs.Marks as marks;
ghost use Rattle.ak_keep.specs.WaitingCards.{AscendsAfter, IsOneOf, IsWaitingPage, waits};
ghost use Rattle.ak_keep.specs.declared.keepers.KeepFault.TheVariants.{Failed, Memory as WantOfMemory};
ghost use Rattle.ak_tables.specs.Tables.{Covers, CrashLeaves, LeavesNow, last_kept, with_kept};

use crate::loads::memory_of;
use crate::tables::{OpenTables, Tables};
use crate::touched::Touched;
use ak_base::{Card, Head, List, Memory, Name, Row, Table};
use ak_keep::{KeepFault, Keeper, Lookup, Numbers, Readable, Waiting, Wanted};
use ak_memory::MemoryKeeper;
use std::alloc::Global;
use std::marker::Model;
use std::mem;
use std::rt::HostRuntime;

/// A keeper that stores its collection in tables. All of it is held in memory too, and is read from there; the
/// tables are made ready at each mark and written at each commit. So only `mark` and `commit` can fail.
#[derive(Drop)]
pub struct TableKeeper<T: Tables> {
    tables: T,
    memory: MemoryKeeper,
    touched: Touched,
}

impl<T: Tables> Model for TableKeeper<T> {
    ghost use Rattle.std.specs.Coded.{codes};
    ghost use Rattle.std.specs.FinMap as map;
    ghost use Rattle.ak_keep.specs.MemoryKeepers.{holding_code};
    ghost use Rattle.ak_tables.specs.Tables.{IsConsistent, LeavesNow, TableState, state_code};

    ghost Value = { TableState T };

    ghost coded = { state_code (holding_code (map.code (Prim.hlevel codes) (Prim.hlevel codes)) (Prim.hlevel codes)) (Prim.hlevel codes) };

    ghost view = { λ k. record { kept = k.memory.kept; tables = k.tables } };

    ghost invariant = { λ k. IsConsistent k.memory (T.stores k.tables) (T.is_ready k.tables) (LeavesNow T.moment T.may_have_left T.stands_for k.tables) k.touched };
}

impl<T: OpenTables> TableKeeper<T> {
    /// A keeper over the tables in the file at this path. If the file has none, or is not there, they are made. It
    /// fails if anything else is stored there than rows and a head in their ranges, each row once.
    pub fn over_file(rt: &HostRuntime, path: &str) -> Result<TableKeeper<T>, KeepFault>
        ensures tells { IfOk result (λ keeper. is_some (all_known keeper.kept).told ≡ true) }
        ensures unmarked { IfOk result (λ keeper. is_marked (all_known keeper.kept) ≡ false) }
        ensures faultless { IfOk result (λ keeper. (T.health keeper.tables).faults ≡ 0) }
        ensures range { IfOk result (λ keeper. IsRightlyKnown (all_known keeper.kept)) }

        // It keeps what is stored, where that is told.
        ensures stored { IfOk result (λ keeper. T.stores keeper.tables keeper.kept.current) }
    {
        let tables = T::open(rt, path)?;
        TableKeeper::over(rt.alloc(), tables)
    }

    /// A keeper over these tables, of what they store. It fails if they store anything else than rows and a head in
    /// their ranges, each row once.
    pub fn over(alloc: Global, tables: T) -> Result<TableKeeper<T>, KeepFault>
        ensures tells { IfOk result (λ keeper. is_some (all_known keeper.kept).told ≡ true) }
        ensures unmarked { IfOk result (λ keeper. is_marked (all_known keeper.kept) ≡ false) }
        ensures health { IfOk result (λ keeper. T.health keeper.tables ≡ T.health tables) }
        ensures range { IfOk result (λ keeper. IsRightlyKnown (all_known keeper.kept)) }
        ensures stored { IfOk result (λ keeper. T.stores keeper.tables keeper.kept.current) }
    {
        let mut tables = tables;
        let read = tables.read()?;
        let memory = memory_of(alloc, read)?;
        Ok(TableKeeper::of(alloc, tables, memory))
    }
}

impl<T: Tables> TableKeeper<T> {
    /// A keeper over these tables, of what they store, which is held in this memory.
    pub fn of(alloc: Global, tables: T, memory: MemoryKeeper) -> TableKeeper<T>
        requires stored { T.stores tables memory.kept.current }
        requires unmarked { memory.kept.mark ≡ None }
        requires obeys { memory.fails ≡ [] }
        ensures kept { result.kept ≡ memory.kept }
        ensures tables { result.tables ≡ tables }
        ensures range { IsRightlyKnown (all_known result.kept) }
    {
        // It says that what is held is in its ranges.
        let _held = memory.held();
        TableKeeper {
            tables,
            memory,
            touched: Touched::nothing(alloc),
        }
    }

    /// The tables, given back.
    pub fn into_tables(self) -> T
        ensures { result ≡ self.tables }
    {
        let TableKeeper {
            tables,
            memory,
            touched,
        } = self;
        drop(memory);
        drop(touched);
        tables
    }

    /// The tables, given back at the end of a program. The rows are not freed one by one: their memory goes with the
    /// program's.
    pub fn end(self) -> T
        ensures { result ≡ self.tables }
    {
        let TableKeeper {
            tables,
            memory,
            touched,
        } = self;
        mem::forget(memory);
        drop(touched);
        tables
    }
}

impl<T: Tables> Lookup for TableKeeper<T> {
    ghost keeping = { λ keeper. all_known keeper.kept };

    ghost health = { λ keeper. T.health keeper.tables };

    ghost checks = { true };

    ghost kept = { λ _. tt };

    fn faults(&self) -> u64 {
        self.tables.faults()
    }

    fn held(&self) -> bool {
        self.memory.held()
    }

    fn get(&mut self, name: Name) -> Result<Option<Row>, KeepFault>
        ensures row { IfOk result (λ row. row ≡ finite.get self.old.kept.current.rows name) }
        ensures named { IfOk result (λ row. IfSome row (λ row. name_of row ≡ name)) }
        ensures checked { IfOk result (λ row. IfSome row IsChecked) }
        ensures state { self.new ≡ self.old }
        ensures unfailing { IsErrOf result Failed → ⊥ }
        ensures cause { KeepCause (T.health self.old.tables) (T.health self.new.tables) result }
    {
        self.memory.get(name)
    }

    fn stamp_of(&mut self, name: Name) -> Result<Option<i64>, KeepFault>
        ensures stamp { IfOk result (λ stamp. stamp ≡ option_map stamp_of (finite.get self.old.kept.current.rows name)) }
        ensures state { self.new ≡ self.old }
        ensures unfailing { IsErrOf result Failed → ⊥ }
        ensures spares { IsErrOf result WantOfMemory → ⊥ }
        ensures cause { KeepCause (T.health self.old.tables) (T.health self.new.tables) result }
    {
        self.memory.stamp_of(name)
    }

    fn cards_of(&mut self, note: i64) -> Result<List<i64>, KeepFault>
        ensures cards { IfOk result (λ ids. ids ≡ cards_of note self.old.kept.current.rows) }
        ensures ascend { IfOk result (λ ids. IsStrictlySortedBy int_cmp ids) }
        ensures range { IfOk result (λ ids. All IsId ids) }
        ensures state { self.new ≡ self.old }
        ensures unfailing { IsErrOf result Failed → ⊥ }
        ensures cause { KeepCause (T.health self.old.tables) (T.health self.new.tables) result }
    {
        self.memory.cards_of(note)
    }

    fn head(&mut self) -> Result<Option<Head>, KeepFault>
        ensures head { IfOk result (λ head. head ≡ self.old.kept.current.head) }
        ensures range { IfOk result (λ head. IfSome head IsHeadInRange) }
        ensures state { self.new ≡ self.old }
        ensures unfailing { IsErrOf result Failed → ⊥ }
        ensures cause { KeepCause (T.health self.old.tables) (T.health self.new.tables) result }
    {
        self.memory.head()
    }
}

impl<T: Tables> Readable for TableKeeper<T> {
    fn page(&mut self, table: Table, past: i64, limit: usize) -> Result<List<Row>, KeepFault>
        requires low { 0 < limit }
        requires high { limit ≤ 1000 }
        ensures page { IfOk result (λ page. IsPageOf (λ past. rows_past table past self.old.kept.current.rows) past limit page) }
        ensures fits { IfOk result (λ page. length page ≤ limit) }
        ensures ascends { IfOk result (λ page. AscendsPast table past page) }
        ensures checked { IfOk result (λ page. All IsChecked page) }
        ensures state { self.new ≡ self.old }
        ensures unfailing { IsErrOf result Failed → ⊥ }
        ensures cause { KeepCause (T.health self.old.tables) (T.health self.new.tables) result }
    {
        self.memory.page(table, past, limit)
    }

    fn waiting(&mut self, waiting: Waiting, limit: usize) -> Result<List<Card>, KeepFault>
        requires low { 0 < limit }
        requires high { limit ≤ 1000 }
        ensures page { IfOk result (λ page. IsWaitingPage (IsOneOf (cards_in self.old.kept.current.rows)) waiting limit page) }
        ensures fits { IfOk result (λ page. length page ≤ limit) }
        ensures asked { IfOk result (λ page. AllByRecursion (λ c. waits waiting c ≡ true) page) }
        ensures ascends { IfOk result (λ page. AscendsAfter waiting.past page) }
        ensures checked { IfOk result (λ page. All IsCheckedCard page) }
        ensures state { self.new ≡ self.old }
        ensures unfailing { IsErrOf result Failed → ⊥ }
        ensures cause { KeepCause (T.health self.old.tables) (T.health self.new.tables) result }
    {
        self.memory.waiting(waiting, limit)
    }

    fn count(&mut self, table: Table) -> Result<u64, KeepFault>
        ensures count { IfOk result (λ count. count ≡ row_count table self.old.kept.current.rows) }
        ensures small { IfOk result (λ count. count < 2 ^ 63) }
        ensures state { self.new ≡ self.old }
        ensures unfailing { IsErrOf result Failed → ⊥ }
        ensures cause { KeepCause (T.health self.old.tables) (T.health self.new.tables) result }
    {
        self.memory.count(table)
    }

    fn free_name(&mut self, first: Name) -> Result<Option<Name>, KeepFault>
        requires { pos 1 ≤ℤ first.id }
        ensures free { IfOk result (λ found. IsFirstFree (is_used (finite.get self.old.kept.current.rows)) first found) }
        ensures range { IfOk result (λ found. IfSome found (IsFoundFrom first)) }
        ensures state { self.new ≡ self.old }
        ensures unfailing { IsErrOf result Failed → ⊥ }
        ensures spares { IsErrOf result WantOfMemory → ⊥ }
        ensures cause { KeepCause (T.health self.old.tables) (T.health self.new.tables) result }
    {
        self.memory.free_name(first)
    }
}

impl<T: Tables> Keeper for TableKeeper<T> {
    ghost spares_memory = { false };

    fn marked(&self) -> bool {
        self.memory.marked()
    }

    fn numbers(&mut self) -> Result<Option<Numbers>, KeepFault>
        ensures numbers { IfOk result (λ numbers. numbers ≡ option_map numbers_of self.old.kept.current.head) }
        ensures range { IfOk result (λ numbers. IfSome numbers AreNumbersInRange) }
        ensures state { self.new ≡ self.old }
        ensures unfailing { IsErrOf result Failed → ⊥ }
        ensures cause { KeepCause (T.health self.old.tables) (T.health self.new.tables) result }
    {
        self.memory.numbers()
    }

    fn put(&mut self, row: Row) -> Result<(), KeepFault>
        requires marked { is_marked (all_known self.old.kept) ≡ true }
        requires checked { IsChecked row }
        ensures ok { OnOk result (self.new ≡ with_kept (marks.changed (with_row row)) self.old) }
        ensures err { OnErr result (self.new ≡ self.old) }
        ensures unfailing { IsErrOf result Failed → ⊥ }
        ensures cause { KeepCause (T.health self.old.tables) (T.health self.new.tables) result }
    {
        self.touched.add(row.name())?;
        self.memory.put(row)
    }

    fn remove(&mut self, name: Name) -> Result<(), KeepFault>
        requires marked { is_marked (all_known self.old.kept) ≡ true }
        ensures ok { OnOk result (self.new ≡ with_kept (marks.changed (without name)) self.old) }
        ensures err { OnErr result (self.new ≡ self.old) }
        ensures unfailing { IsErrOf result Failed → ⊥ }
        ensures cause { KeepCause (T.health self.old.tables) (T.health self.new.tables) result }
    {
        self.touched.add(name)?;
        self.memory.remove(name)
    }

    fn pending(
        &mut self,
        table: Table,
        want: Wanted,
        past: i64,
        limit: usize,
    ) -> Result<List<Row>, KeepFault>
        requires low { 0 < limit }
        requires high { limit ≤ 1000 }
        ensures page { IfOk result (λ page. IsPageOf (λ past. wanted_past table want past self.old.kept.current.rows) past limit page) }
        ensures fits { IfOk result (λ page. length page ≤ limit) }
        ensures ascends { IfOk result (λ page. AscendsPast table past page) }
        ensures wanted { IfOk result (λ page. All (λ row. is_wanted want row ≡ true) page) }
        ensures checked { IfOk result (λ page. All IsChecked page) }
        ensures state { self.new ≡ self.old }
        ensures unfailing { IsErrOf result Failed → ⊥ }
        ensures cause { KeepCause (T.health self.old.tables) (T.health self.new.tables) result }
    {
        self.memory.pending(table, want, past, limit)
    }

    fn set_head(&mut self, head: Head) -> Result<(), KeepFault>
        requires marked { is_marked (all_known self.old.kept) ≡ true }
        requires range { IsHeadInRange head }
        ensures ok { OnOk result (self.new ≡ with_kept (marks.changed (with_head head)) self.old) }
        ensures err { OnErr result (self.new ≡ self.old) }
        ensures unfailing { IsErrOf result Failed → ⊥ }
        ensures cause { KeepCause (T.health self.old.tables) (T.health self.new.tables) result }
    {
        self.touched.head = true;
        self.memory.set_head(head)
    }

    fn set_moments(
        &mut self,
        moment: i64,
        schema: i64,
        usn: i64,
        last_sync: i64,
    ) -> Result<(), KeepFault>
        requires marked { is_marked (all_known self.old.kept) ≡ true }
        requires held { is_some self.old.kept.current.head ≡ true }
        requires range { AreMomentsInRange moment schema usn last_sync }
        ensures ok { OnOk result (self.new ≡ with_kept (marks.changed (with_moments moment schema usn last_sync)) self.old) }
        ensures err { OnErr result (self.new ≡ self.old) }
        ensures unfailing { IsErrOf result Failed → ⊥ }
        ensures cause { KeepCause (T.health self.old.tables) (T.health self.new.tables) result }
    {
        self.touched.head = true;
        self.memory.set_moments(moment, schema, usn, last_sync)
    }

    fn replace_all(&mut self, rows: List<Row>, head: Head) -> Result<(), KeepFault>
        requires marked { is_marked (all_known self.old.kept) ≡ true }
        requires checked { All IsChecked rows }
        requires distinct { IsDistinct (eq_by_cmp name_cmp) (map name_of rows) }
        requires range { IsHeadInRange head }
        ensures ok { OnOk result (self.new ≡ with_kept (marks.changed (λ _. made_of rows head)) self.old) }
        ensures err { OnErr result (self.new ≡ self.old) }
        ensures unfailing { IsErrOf result Failed → ⊥ }
        ensures cause { KeepCause (T.health self.old.tables) (T.health self.new.tables) result }
    {
        let names = names_of(rows.allocator(), rows.as_slice())?;
        self.memory.replace_all(rows, head)?;
        self.touched = Touched {
            names,
            head: true,
            whole: true,
        };
        Ok(())
    }

    fn mark(&mut self) -> Result<(), KeepFault>
        requires unmarked { is_marked (all_known self.old.kept) ≡ false }
        ensures ok { OnOk result (self.new.kept ≡ marks.marked_here self.old.kept) }
        ensures err { OnErr result (self.new.kept ≡ self.old.kept) }

        // If the tables are ready, they stay as they are.
        ensures idle { T.is_ready self.old.tables ≡ true → self.new.tables ≡ self.old.tables }

        // Only the tables may fail, at what a refused commit left.
        ensures memory { result ≡ Err WantOfMemory → T.health self.new.tables ≡ T.health self.old.tables }

        // A crash at any moment of the call leaves what one before it might have left, or what is held.
        ensures any_moment { CrashLeaves T.moment T.may_have_left self.old.tables self.new.tables
            (λ image. T.may_have_left self.old.tables (T.moment self.old.tables) image ⊎ T.stands_for self.old.tables self.old.kept.current image) }

        // A crash after it leaves what is held.
        ensures lasts { OnOk result (LeavesNow T.moment T.may_have_left T.stands_for self.new.tables self.old.kept.current) }
        ensures cause { KeepCause (T.health self.old.tables) (T.health self.new.tables) result }
        ensures calm { OnOk result (T.health self.new.tables ≡ T.health self.old.tables) }
    {
        self.tables.ready()?;
        self.memory.mark()?;
        self.touched = Touched::nothing(self.touched.names.allocator());
        Ok(())
    }

    fn back(&mut self)
        requires marked { is_marked (all_known self.old.kept) ≡ true }
        ensures { self.new ≡ with_kept marks.back self.old }
    {
        self.memory.back();
    }

    // It stores what is held, where it is told what is stored.
    fn commit(&mut self) -> Result<(), KeepFault>
        requires marked { is_marked (all_known self.old.kept) ≡ true }
        ensures ok { OnOk result (self.new.kept ≡ marks.committed self.old.kept) }
        ensures err { OnErr result (self.new.kept ≡ marks.back self.old.kept) }
        ensures stored { OnOk result (T.stores self.new.tables self.old.kept.current) }
        ensures refused { OnErr result (T.stores self.new.tables (last_kept self.old.kept)) }
        ensures memory { result ≡ Err WantOfMemory → T.health self.new.tables ≡ T.health self.old.tables }

        // A crash at any moment of the call leaves what was held at the mark, or what is committed.
        ensures any_moment { CrashLeaves T.moment T.may_have_left self.old.tables self.new.tables
            (λ image. T.stands_for self.old.tables (last_kept self.old.kept) image ⊎ T.stands_for self.old.tables self.old.kept.current image) }

        // A crash after it leaves what was committed.
        ensures lasts { OnOk result (LeavesNow T.moment T.may_have_left T.stands_for self.new.tables self.old.kept.current) }
        ensures cause { KeepCause (T.health self.old.tables) (T.health self.new.tables) result }
        ensures calm { OnOk result (T.health self.new.tables ≡ T.health self.old.tables) }
    {
        match store(&mut self.tables, &mut self.memory, &self.touched) {
            // The keeper in memory is told no call to fail, so this is not refused.
            Ok(()) => self.memory.commit(),
            Err(fault) => {
                self.memory.back();
                Err(fault)
            }
        }
    }
}

/// Writes what is held to the tables.
fn store<T: Tables>(
    tables: &mut T,
    memory: &mut MemoryKeeper,
    touched: &Touched,
) -> Result<(), KeepFault>
    requires ready { T.is_ready tables.old ≡ true }
    requires set { touched.now.head ≡ true → is_some memory.old.kept.current.head ≡ true }
    requires whole { touched.now.whole ≡ true → touched.now.head ≡ true }
    requires obeys { memory.old.fails ≡ [] }
    ensures ok { OnOk result ((was : Holding) → T.stores tables.old was → Covers touched.now was memory.old.kept.current
        → T.stores tables.new memory.old.kept.current) }
    ensures err { OnErr result ((was : Holding) → T.stores tables.old was → T.stores tables.new was) }
    ensures any_moment { (was : Holding) → T.stores tables.old was → LeavesNow T.moment T.may_have_left T.stands_for tables.old was
        → Covers touched.now was memory.old.kept.current → CrashLeaves T.moment T.may_have_left tables.old tables.new
        (λ image. T.stands_for tables.old was image ⊎ T.stands_for tables.old memory.old.kept.current image) }
    ensures lasts { OnOk result ((was : Holding) → T.stores tables.old was → Covers touched.now was memory.old.kept.current
        → LeavesNow T.moment T.may_have_left T.stands_for tables.new memory.old.kept.current) }
    ensures cause { KeepCause (T.health tables.old) (T.health tables.new) result }
    ensures calm { OnOk result (T.health tables.new ≡ T.health tables.old) }
    ensures memory { result ≡ Err WantOfMemory → T.health tables.new ≡ T.health tables.old }
    ensures kept { memory.new.kept ≡ memory.old.kept }
    ensures obeys { memory.new.fails ≡ [] }
{
    // It says that what is held is in its ranges.
    let _held = memory.held();
    let head = memory.head()?;
    tables.write(memory.rows(), &head, touched)
}

/// The names of the rows.
fn names_of(alloc: Global, rows: &[Row]) -> Result<List<Name>, Memory>
    ensures { IfOk result (λ names. names ≡ map name_of rows.now) }
{
    let mut names = List::new(alloc);
    for row in rows {
        names.push(row.name())?;
    }
    Ok(names)
}
