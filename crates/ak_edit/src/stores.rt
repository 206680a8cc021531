ghost use Rattle.std.specs.Prelude.{◌≡◌, ◌++◌, pos, true, [], ◌∷◌, Err, IfOk, IfSome, OnOk, OnErr};
ghost use Rattle.ak_base.specs.Heads.{IsWithin};
ghost use Rattle.ak_base.specs.Limits.{last_stamp};
ghost use Rattle.ak_base.specs.Rows.{IsChecked, with_stamp};
ghost use Rattle.ak_keep.specs.Keepers.{IsMarkedAt, KeepCause, back, is_marked, put, removed};
ghost use Rattle.ak_edit.specs.Stores.{AreMadeWrites, IsMadeWrite, all_written, befores_of, written};

use crate::plans::Write;
use ak_base::{List, Row};
use ak_keep::{KeepFault, Keeper};
use ak_undo::Before;
use std::alloc::Global;

/// Does all the writes, and gives what stood there before. A refusal leaves the keeper marked, with some of them done.
pub(crate) fn store<K: Keeper>(
    alloc: Global,
    keeper: &mut K,
    writes: Vec<Write>,
) -> Result<List<Before>, KeepFault>
    requires marked { is_marked (K.keeping keeper.old) ≡ true }
    requires made { AreMadeWrites writes.items }
    ensures ok { OnOk result (K.keeping keeper.new ≡ all_written writes.items (K.keeping keeper.old)) }
    ensures before { IfOk result (λ befores. befores ≡ befores_of writes.items) }
    ensures stays { IsMarkedAt (back (K.keeping keeper.old)) (K.keeping keeper.new) }
    ensures cause { KeepCause (K.health keeper.old) (K.health keeper.new) result }
{
    let mut befores = List::new(alloc);
    for write in writes {
        store_one(keeper, write, &mut befores)?;
    }
    Ok(befores)
}

/// Does one write, and notes what stood there before.
fn store_one<K: Keeper>(
    keeper: &mut K,
    write: Write,
    befores: &mut List<Before>,
) -> Result<(), KeepFault>
    requires marked { is_marked (K.keeping keeper.old) ≡ true }
    requires made { IsMadeWrite write }
    ensures ok { OnOk result (K.keeping keeper.new ≡ written write (K.keeping keeper.old)) }
    ensures before { OnOk result (befores.new ≡ befores.old ++ record { name = write.name; row = write.before } ∷ []) }
    ensures stays { IsMarkedAt (back (K.keeping keeper.old)) (K.keeping keeper.new) }
    ensures cause { KeepCause (K.health keeper.old) (K.health keeper.new) result }
{
    let Write {
        name,
        before,
        row,
        stamp,
    } = write;
    match row {
        Some(row) => put_stamped(keeper, row, stamp)?,
        None => keeper.remove(name)?,
    }
    befores.push(Before { name, row: before })?;
    Ok(())
}

/// Puts the row with this stamp.
#[tactic(auto, using(crate::proofs::StampedRows::checked_with_stamp))]
fn put_stamped<K: Keeper>(keeper: &mut K, row: Row, stamp: i64) -> Result<(), KeepFault>
    requires marked { is_marked (K.keeping keeper.old) ≡ true }
    requires checked { IsChecked row }
    requires stamp { IsWithin (pos 0) last_stamp stamp }
    ensures ok { OnOk result (K.keeping keeper.new ≡ put (with_stamp row stamp) (K.keeping keeper.old)) }
    ensures err { OnErr result (K.keeping keeper.new ≡ K.keeping keeper.old) }
    ensures stays { IsMarkedAt (back (K.keeping keeper.old)) (K.keeping keeper.new) }
    ensures cause { KeepCause (K.health keeper.old) (K.health keeper.new) result }
{
    let mut row = row;
    row.set_stamp(stamp);
    keeper.put(row)
}
