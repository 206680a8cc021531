// What was read from tables, put into a keeper in memory.
ghost use Rattle.std.specs.Prelude.{◌≡◌, [], None, false, Err, IfOk, IfSome, OnOk, OnErr};
ghost use Rattle.std.specs.FinMap as finite;
ghost use Rattle.ak_base.specs.Heads.{IsHeadInRange};
ghost use Rattle.ak_base.specs.Rows.{IsChecked, name_of};
ghost use Rattle.ak_keep.specs.Collections.{rows_of, with_head, with_row};
ghost use Rattle.ak_keep.specs.Keepers.{all_known, is_marked};
ghost use Rattle.ak_keep.specs.Marks as marks;
ghost use Rattle.ak_keep.specs.declared.keepers.KeepFault.TheVariants.{Failed};
ghost use Rattle.ak_tables.specs.Tables.{AreNew, ArePutInto, IsCollection, loaded};

use crate::tables::StoredCollection;
use ak_base::{Head, List, Row};
use ak_keep::KeepFault;
use ak_memory::MemoryKeeper;
use std::alloc::Global;

/// A keeper in memory of what was read. It fails if a row or the head is out of its ranges, or if two rows have one
/// name.
pub(crate) fn memory_of(alloc: Global, read: StoredCollection) -> Result<MemoryKeeper, KeepFault>
    ensures kept { IfOk result (λ keeper. keeper.kept ≡ record { current = loaded read; mark = None }) }
    ensures obeys { IfOk result (λ keeper. keeper.fails ≡ []) }

    // Only a collection is taken, and it is refused only if memory runs out.
    ensures good { IfOk result (λ keeper. IsCollection read) }
    ensures failed { result ≡ Err Failed → IsCollection read → ⊥ }
{
    let StoredCollection { rows, head } = read;
    let mut keeper = MemoryKeeper::new(alloc);
    load_rows(&mut keeper, rows)?;
    load_head(&mut keeper, head)?;
    Ok(keeper)
}

/// Puts in the rows.
fn load_rows(keeper: &mut MemoryKeeper, rows: List<Row>) -> Result<(), KeepFault>
    requires unmarked { is_marked (all_known keeper.old.kept) ≡ false }
    ensures rows { OnOk result (ArePutInto keeper.old.kept.current.rows rows keeper.new.kept.current.rows) }
    ensures head { keeper.new.kept.current.head ≡ keeper.old.kept.current.head }
    ensures mark { keeper.new.kept.mark ≡ keeper.old.kept.mark }
    ensures fails { keeper.new.fails ≡ keeper.old.fails }
    ensures good { OnOk result (AreNew keeper.old.kept.current.rows rows) }
    ensures failed { result ≡ Err Failed → AreNew keeper.old.kept.current.rows rows → ⊥ }
{
    for row in rows.into_vec() {
        load_row(keeper, row)?;
    }
    Ok(())
}

/// Puts in the row, if it is in its ranges and none is held under its name.
fn load_row(keeper: &mut MemoryKeeper, row: Row) -> Result<(), KeepFault>
    requires unmarked { is_marked (all_known keeper.old.kept) ≡ false }
    ensures free { OnOk result (finite.get keeper.old.kept.current.rows (name_of row) ≡ None) }
    ensures checked { OnOk result (IsChecked row) }
    ensures failed { result ≡ Err Failed → finite.get keeper.old.kept.current.rows (name_of row) ≡ None → IsChecked row → ⊥ }
    ensures ok { OnOk result (keeper.new.kept ≡ marks.changed (with_row row) keeper.old.kept) }
    ensures err { OnErr result (keeper.new.kept ≡ keeper.old.kept) }
    ensures fails { keeper.new.fails ≡ keeper.old.fails }
{
    if row.check().is_err() {
        return Err(KeepFault::Failed);
    }
    if keeper.load(row)? {
        return Ok(());
    }
    Err(KeepFault::Failed)
}

/// Sets the head, if there is one and it is in its ranges.
fn load_head(keeper: &mut MemoryKeeper, head: Option<Head>) -> Result<(), KeepFault>
    requires unmarked { is_marked (all_known keeper.old.kept) ≡ false }
    requires none { keeper.old.kept.current.head ≡ None }
    ensures ok { OnOk result (keeper.new.kept ≡ marks.changed (λ held. record held { head = head }) keeper.old.kept) }
    ensures fails { keeper.new.fails ≡ keeper.old.fails }
    ensures mark { keeper.new.kept.mark ≡ keeper.old.kept.mark }
    ensures good { OnOk result (IfSome head IsHeadInRange) }
    ensures failed { result ≡ Err Failed → IfSome head IsHeadInRange → ⊥ }
{
    if let Some(head) = head {
        if !head.is_in_range() {
            return Err(KeepFault::Failed);
        }
        keeper.load_head(head);
    }
    Ok(())
}
