ghost use Rattle.std.specs.Prelude.{◌≡◌, IfErr, IfOk, IfSome, OnOk};
ghost use Rattle.std.specs.List.{All};
ghost use Rattle.ak_base.specs.Heads.{IsHeadInRange};
ghost use Rattle.ak_base.specs.Rows.{IsChecked};
ghost use Rattle.ak_keep.specs.declared.keepers.KeepFault.TheVariants.{Memory as WantOfMemory};
ghost use Rattle.ak_journal_folds.specs.Folds.{IsReady, with_cut, with_head_set, with_put, without_rows};
ghost use Rattle.ak_journal_rows.specs.Changes.{IsOfForm, after_change, nothing_held};

use ak_base::{Head, List, Name, Row};
use ak_journal_rows::Change;
use ak_keep::{KeepFault, Keeper, Lookup};
use ak_memory::MemoryKeeper;
use std::alloc::Global;

/// A keeper of nothing, marked.
pub(crate) fn marked(alloc: Global) -> Result<MemoryKeeper, KeepFault>
    ensures ready { IfOk result IsReady }
    ensures empty { IfOk result (λ keeper. keeper.kept.current ≡ nothing_held) }
    ensures memory { IfErr result (λ fault. fault ≡ WantOfMemory) }
{
    let mut keeper = MemoryKeeper::new(alloc);
    keeper.mark()?;
    Ok(keeper)
}

/// Makes the change.
pub(crate) fn apply(
    alloc: Global,
    keeper: &mut MemoryKeeper,
    change: Change,
) -> Result<(), KeepFault>
    requires ready { IsReady keeper.old }
    requires formed { IsOfForm change }
    ensures ready { OnOk result (IsReady keeper.new) }
    ensures made { OnOk result (keeper.new.kept.current ≡ after_change change keeper.old.kept.current) }
    ensures memory { IfErr result (λ fault. fault ≡ WantOfMemory) }
{
    let Change {
        all,
        cut,
        head,
        put,
    } = change;
    if all {
        clear(alloc, keeper)?;
    }
    cut_each(keeper, cut.as_slice())?;
    put_each(keeper, put)?;
    set_head(keeper, head)
}

/// Takes out all rows. The head stays.
fn clear(alloc: Global, keeper: &mut MemoryKeeper) -> Result<(), KeepFault>
    requires ready { IsReady keeper.old }
    ensures ready { OnOk result (IsReady keeper.new) }
    ensures made { OnOk result (keeper.new.kept.current ≡ without_rows keeper.old.kept.current) }
    ensures memory { IfErr result (λ fault. fault ≡ WantOfMemory) }
{
    let head = keeper.head()?;
    let mut cleared = marked(alloc)?;
    set_head(&mut cleared, head)?;
    *keeper = cleared;
    Ok(())
}

/// Takes out the rows of these names.
fn cut_each(keeper: &mut MemoryKeeper, names: &[Name]) -> Result<(), KeepFault>
    requires ready { IsReady keeper.old }
    ensures ready { OnOk result (IsReady keeper.new) }
    ensures made { OnOk result (keeper.new.kept.current ≡ with_cut names.now keeper.old.kept.current) }
    ensures memory { IfErr result (λ fault. fault ≡ WantOfMemory) }
{
    for name in names {
        keeper.remove(*name)?;
    }
    Ok(())
}

/// Puts in these rows, each under its name.
fn put_each(keeper: &mut MemoryKeeper, rows: List<Row>) -> Result<(), KeepFault>
    requires ready { IsReady keeper.old }
    requires checked { All IsChecked rows }
    ensures ready { OnOk result (IsReady keeper.new) }
    ensures made { OnOk result (keeper.new.kept.current ≡ with_put rows keeper.old.kept.current) }
    ensures memory { IfErr result (λ fault. fault ≡ WantOfMemory) }
{
    for row in rows.into_vec() {
        keeper.put(row)?;
    }
    Ok(())
}

/// Sets the head, if there is one.
fn set_head(keeper: &mut MemoryKeeper, head: Option<Head>) -> Result<(), KeepFault>
    requires ready { IsReady keeper.old }
    requires range { IfSome head IsHeadInRange }
    ensures ready { OnOk result (IsReady keeper.new) }
    ensures made { OnOk result (keeper.new.kept.current ≡ with_head_set head keeper.old.kept.current) }
    ensures memory { IfErr result (λ fault. fault ≡ WantOfMemory) }
{
    match head {
        Some(head) => keeper.set_head(head),
        None => Ok(()),
    }
}
