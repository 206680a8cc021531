ghost use Rattle.std.specs.Prelude.{◌≡◌, pos, true, is_some, IfOk, OnOk, OnErr};
ghost use Rattle.std.specs.FinMap.{get};
ghost use Rattle.ak_base.specs.Heads.{IsWithin};
ghost use Rattle.ak_base.specs.Rows.{IsChecked, with_usn};
ghost use Rattle.ak_keep.specs.Keepers.{IsMarkedAt, KeepCause, WhereTold, back, is_marked, changed, put};
ghost use Rattle.ak_keep.specs.Readings.{ReadsBy};
ghost use Rattle.ak_keep.specs.Graves.{is_dead};
ghost use Rattle.ak_merge.specs.Takings.{without_buried, beats, beats_held, is_newer_of, with_taken, takes};

use crate::sides::Side;
use ak_base::{Name, Row};
use ak_keep::{KeepFault, Keeper, Lookup};

/// Whether `came` has the name of `held` and was changed later: its stamp is greater.
pub fn newer(held: &Row, came: &Row) -> bool
    ensures { result ≡ is_newer_of held.now came.now }
{
    held.name() == came.name() && held.stamp() < came.stamp()
}

/// Takes a row that came from the other side, with this usn, by the rule of a sync for the
/// side that takes; answers whether it is held now. A grave takes its row away in any case. If it is refused, a
/// part may be done: the keeper stays marked, and its mark is as it was.
pub fn take_row<K: Keeper>(
    keeper: &mut K,
    row: Row,
    usn: i64,
    side: Side,
) -> Result<bool, KeepFault>
    requires marked { is_marked (K.keeping keeper.old) ≡ true }
    requires checked { IsChecked row }
    requires usn { IsWithin (pos 0) (pos 2_147_483_647) usn }
    ensures ok { IfOk result (λ is_taken. K.keeping keeper.new ≡ changed (with_taken side usn row) (K.keeping keeper.old)) }
    ensures taken { IfOk result (λ is_taken. WhereTold (K.keeping keeper.old) (λ h. is_taken ≡ takes side (get h.rows) row)) }
    ensures stays { IsMarkedAt (back (K.keeping keeper.old)) (K.keeping keeper.new) }
    ensures cause { KeepCause (K.health keeper.old) (K.health keeper.new) result }
{
    let takes = takes(keeper, &row, side)?;
    bury(keeper, &row)?;
    if takes {
        put_with(keeper, row, usn)?;
        return Ok(true);
    }
    drop(row);
    Ok(false)
}

/// Whether the row is to be held: its grave is not held, and no row of its name is, or one that it takes the place of.
fn takes<L: Lookup>(from: &mut L, row: &Row, side: Side) -> Result<bool, KeepFault>
    ensures reads { ReadsBy L.Lookup from.old from.new result (λ h is_taken. is_taken ≡ takes side (get h.rows) row.now) }
{
    let name = row.name();
    if is_dead(from, name)? {
        return Ok(false);
    }
    let held = from.stamp_of(name)?;
    Ok(beats_held(&held, row, side))
}

/// Whether no row is held, or one with a stamp that lets `came` take its place.
fn beats_held(held: &Option<i64>, came: &Row, side: Side) -> bool
    ensures { result ≡ beats_held side held.now came.now }
{
    match held {
        Some(stamp) => beats(stamp, came, side),
        None => true,
    }
}

/// Whether `came` takes the place of a row of its name that this side holds with this stamp.
fn beats(held: &i64, came: &Row, side: Side) -> bool
    ensures { result ≡ beats side held.now came.now }
{
    match side {
        Side::Server => *held < came.stamp(),
        // A grave that is held keeps its usn: if it was not sent yet it still has to be.
        Side::Device => came.buried().is_none() && *held <= came.stamp(),
    }
}

/// Whether the grave of a row of this name is held.
#[tactic(auto, using(crate::proofs::Taking::dead_by_name))]
fn is_dead<L: Lookup>(from: &mut L, name: Name) -> Result<bool, KeepFault>
    ensures reads { ReadsBy L.Lookup from.old from.new result (λ h dead. dead ≡ is_dead (get h.rows) name) }
{
    match name.grave() {
        Some(grave) => is_held(from, grave),
        None => Ok(false),
    }
}

/// Whether a row of this name is held.
#[tactic(auto, using(crate::proofs::Taking::stamped_if_held))]
pub(crate) fn is_held<L: Lookup>(from: &mut L, name: Name) -> Result<bool, KeepFault>
    ensures reads { ReadsBy L.Lookup from.old from.new result (λ h held. held ≡ is_some (get h.rows name)) }
{
    let stamp = from.stamp_of(name)?;
    Ok(stamp.is_some())
}

/// Takes out the row whose grave this is.
#[tactic(auto, using(crate::proofs::Taking::buried_here, crate::proofs::Taking::unburied))]
fn bury<K: Keeper>(keeper: &mut K, row: &Row) -> Result<(), KeepFault>
    requires marked { is_marked (K.keeping keeper.old) ≡ true }
    ensures ok { OnOk result (K.keeping keeper.new ≡ changed (without_buried row.now) (K.keeping keeper.old)) }
    ensures err { OnErr result (K.keeping keeper.new ≡ K.keeping keeper.old) }
    ensures stays { IsMarkedAt (back (K.keeping keeper.old)) (K.keeping keeper.new) }
    ensures cause { KeepCause (K.health keeper.old) (K.health keeper.new) result }
{
    match row.buried() {
        Some(name) => keeper.remove(name),
        None => Ok(()),
    }
}

/// Puts the row, with this usn.
#[tactic(auto, using(crate::proofs::CheckedRows::checked_with_usn))]
fn put_with<K: Keeper>(keeper: &mut K, row: Row, usn: i64) -> Result<(), KeepFault>
    requires marked { is_marked (K.keeping keeper.old) ≡ true }
    requires checked { IsChecked row }
    requires usn { IsWithin (pos 0) (pos 2_147_483_647) usn }
    ensures ok { OnOk result (K.keeping keeper.new ≡ put (with_usn row usn) (K.keeping keeper.old)) }
    ensures err { OnErr result (K.keeping keeper.new ≡ K.keeping keeper.old) }
    ensures stays { IsMarkedAt (back (K.keeping keeper.old)) (K.keeping keeper.new) }
    ensures cause { KeepCause (K.health keeper.old) (K.health keeper.new) result }
{
    let mut row = row;
    row.set_usn(usn);
    keeper.put(row)
}
