// What was made of a record, put into a keeper that is marked: the records to come see it there. It is gone with the mark.
ghost use Rattle.std.specs.Prelude.{◌≡◌, true, IfOk, IfSome, OnOk};
ghost use Rattle.std.specs.List.{AllByRecursion};
ghost use Rattle.ak_base.specs.Heads.{IsConfInRange, IsMoment};
ghost use Rattle.ak_base.specs.Rows.{IsChecked};
ghost use Rattle.ak_imports.specs.KeptRows.{Keeps, SetsConf, all_put};
ghost use Rattle.ak_keep.specs.Keepers.{IsMarkedAt, KeepCause, back, is_marked};
ghost use Rattle.ak_keep.specs.Readings.{ReadsBy};

use ak_base::{Conf, Row};
use ak_keep::{KeepFault, Keeper};

/// Puts the rows and the settings into the keeper.
pub(crate) fn keep_made<K: Keeper>(
    keeper: &mut K,
    rows: Vec<Row>,
    conf: Conf,
) -> Result<(), KeepFault>
    requires marked { is_marked (K.keeping keeper.old) ≡ true }
    requires held { (K.keeping keeper.old).headed.current ≡ true }
    requires checked { AllByRecursion IsChecked rows.items }
    requires range { IsConfInRange conf }
    ensures stays { IsMarkedAt (back (K.keeping keeper.old)) (K.keeping keeper.new) }
    ensures held { (K.keeping keeper.new).headed.current ≡ true }
    ensures ok { OnOk result (Keeps rows.items conf (K.keeping keeper.old) (K.keeping keeper.new)) }
    ensures cause { KeepCause (K.health keeper.old) (K.health keeper.new) result }
{
    put_rows(keeper, rows)?;
    set_conf(keeper, conf)
}

/// Puts each of the rows under its name.
fn put_rows<K: Keeper>(keeper: &mut K, rows: Vec<Row>) -> Result<(), KeepFault>
    requires marked { is_marked (K.keeping keeper.old) ≡ true }
    requires checked { AllByRecursion IsChecked rows.items }
    ensures stays { IsMarkedAt (back (K.keeping keeper.old)) (K.keeping keeper.new) }
    ensures headed { (K.keeping keeper.new).headed ≡ (K.keeping keeper.old).headed }
    ensures ok { OnOk result (K.keeping keeper.new ≡ all_put rows.items (K.keeping keeper.old)) }
    ensures cause { KeepCause (K.health keeper.old) (K.health keeper.new) result }
{
    for row in rows {
        keeper.put(row)?;
    }
    Ok(())
}

/// Puts these settings in place of those that are held.
fn set_conf<K: Keeper>(keeper: &mut K, conf: Conf) -> Result<(), KeepFault>
    requires marked { is_marked (K.keeping keeper.old) ≡ true }
    requires held { (K.keeping keeper.old).headed.current ≡ true }
    requires range { IsConfInRange conf }
    ensures stays { IsMarkedAt (back (K.keeping keeper.old)) (K.keeping keeper.new) }
    ensures held { (K.keeping keeper.new).headed.current ≡ true }
    ensures ok { OnOk result (SetsConf conf (K.keeping keeper.old) (K.keeping keeper.new)) }
    ensures cause { KeepCause (K.health keeper.old) (K.health keeper.new) result }
{
    // For the proof alone: it says that what the keeper gives is in range.
    let _checks = keeper.marked();
    let Some(mut head) = keeper.head()? else {
        unreachable!();
    };
    head.conf = conf;
    keeper.set_head(head)
}

/// The moment at which the collection was changed last.
pub(crate) fn moment_of<K: Keeper>(keeper: &mut K) -> Result<i64, KeepFault>
    requires held { (K.keeping keeper.old).headed.current ≡ true }
    ensures reads { ReadsBy K.Lookup keeper.old keeper.new result (λ h moment. IfSome h.head (λ head. moment ≡ head.moment)) }
    ensures range { IfOk result IsMoment }
{
    let Some(numbers) = keeper.numbers()? else {
        unreachable!();
    };
    Ok(numbers.moment)
}
