// The end of a device's sync: its commit, and the moments that rise after a bad sanity check.
ghost use Rattle.std.specs.Prelude.{◌≡◌, ◌≢◌, ◌<ℤ◌, ◌≤ℤ◌, ◌+ℤ◌, pos, true, false, Err, IfSome, OnOk, OnErr};
ghost use Rattle.ak_base.specs.Heads.{AreMomentsInRange, IsMoment};
ghost use Rattle.ak_base.specs.Limits.{last_head_usn};
ghost use Rattle.ak_device.specs.Devices.{RaisesMoments, advanced_moment};
ghost use Rattle.ak_io.specs.Arrivals.{IsClockMoment};
ghost use Rattle.ak_keep.specs.HeadNumbers.{AreNumbersInRange};
ghost use Rattle.ak_keep.specs.Keepers.{KeepCause, back, committed, is_marked, moments_set};
ghost use Rattle.ak_keep.specs.declared.keepers.KeepFault.TheVariants.{Memory as WantOfMemory};

use ak_base::LAST_MOMENT;
use ak_keep::{KeepFault, Keeper, Numbers, keep_or_back};
use ak_sync_rows::held_numbers;

/// Commits what the device took and settled, at the moment that the server committed at, in milliseconds: the device's
/// usn is the one after the server's, and its schema moment stays. If it is refused, the device is back at its mark.
pub fn commit_at<K: Keeper>(
    keeper: &mut K,
    moment: i64,
    schema: i64,
    usn: i64,
) -> Result<(), KeepFault>
    requires marked { is_marked (K.keeping keeper.old) ≡ true }
    requires held { (K.keeping keeper.old).headed.current ≡ true }
    requires moment { IsMoment moment }
    requires schema { IsMoment schema }
    requires low { pos 0 ≤ℤ usn }
    requires usn { usn <ℤ last_head_usn }
    ensures ok { OnOk result (K.keeping keeper.new
        ≡ committed (moments_set moment schema (usn +ℤ pos 1) moment (K.keeping keeper.old))) }
    ensures err { OnErr result (K.keeping keeper.new ≡ back (K.keeping keeper.old)) }
    ensures cause { KeepCause (K.health keeper.old) (K.health keeper.new) result }
    ensures spares { K.spares_memory ≡ true → result ≢ Err WantOfMemory }
{
    commit_moments(keeper, moment, schema, usn + 1, moment)
}

/// Sets these numbers of the head, and commits. If it is refused, the keeper is back at its mark.
fn commit_moments<K: Keeper>(
    keeper: &mut K,
    moment: i64,
    schema: i64,
    usn: i64,
    last_sync: i64,
) -> Result<(), KeepFault>
    requires marked { is_marked (K.keeping keeper.old) ≡ true }
    requires held { (K.keeping keeper.old).headed.current ≡ true }
    requires range { AreMomentsInRange moment schema usn last_sync }
    ensures ok { OnOk result (K.keeping keeper.new
        ≡ committed (moments_set moment schema usn last_sync (K.keeping keeper.old))) }
    ensures err { OnErr result (K.keeping keeper.new ≡ back (K.keeping keeper.old)) }
    ensures cause { KeepCause (K.health keeper.old) (K.health keeper.new) result }
    ensures spares { K.spares_memory ≡ true → result ≢ Err WantOfMemory }
{
    let made = keeper.set_moments(moment, schema, usn, last_sync);
    keep_or_back(keeper, made)
}

/// Raises the moment and the schema moment of a device whose sync ended at a bad sanity check: each is the greater of this
/// one and the one after its own, and one at its last value stays. Nothing else changes. A refusal changes nothing: the sync
/// then ends for the keeper's fault or out of memory, and not at the check.
pub fn raise_moments<K: Keeper>(keeper: &mut K, at: i64) -> Result<(), KeepFault>
    requires unmarked { is_marked (K.keeping keeper.old) ≡ false }
    requires held { (K.keeping keeper.old).headed.current ≡ true }
    requires clock { IsClockMoment at }
    ensures ok { OnOk result (RaisesMoments at (K.keeping keeper.old) (K.keeping keeper.new)) }
    ensures err { OnErr result (K.keeping keeper.new ≡ K.keeping keeper.old) }
    ensures cause { KeepCause (K.health keeper.old) (K.health keeper.new) result }
    ensures spares { K.spares_memory ≡ true → result ≢ Err WantOfMemory }
{
    let numbers = held_numbers(keeper)?;
    keeper.mark()?;
    commit_raised(keeper, numbers, at)
}

/// Raises both moments of these numbers, which are those of the head that is held, and commits. If it is refused, the keeper is back
/// at its mark.
fn commit_raised<K: Keeper>(keeper: &mut K, numbers: Numbers, at: i64) -> Result<(), KeepFault>
    requires marked { is_marked (K.keeping keeper.old) ≡ true }
    requires held { (K.keeping keeper.old).headed.current ≡ true }
    requires range { AreNumbersInRange numbers }
    requires clock { IsClockMoment at }
    ensures ok { OnOk result (K.keeping keeper.new ≡ committed (moments_set (advanced_moment at numbers.moment) (advanced_moment at numbers.schema)
        numbers.usn numbers.last_sync (K.keeping keeper.old))) }
    ensures err { OnErr result (K.keeping keeper.new ≡ back (K.keeping keeper.old)) }
    ensures cause { KeepCause (K.health keeper.old) (K.health keeper.new) result }
    ensures spares { K.spares_memory ≡ true → result ≢ Err WantOfMemory }
{
    let moment = advanced_moment(at, numbers.moment);
    let schema = advanced_moment(at, numbers.schema);
    commit_moments(keeper, moment, schema, numbers.usn, numbers.last_sync)
}

/// A moment that is advanced: the greater of `at` and the one after it, at most the last one.
#[tactic(auto, using(crate::proofs::Closing::raised_fits))]
fn advanced_moment(at: i64, moment: i64) -> i64
    requires clock { IsClockMoment at }
    requires moment { IsMoment moment }
    ensures advanced { result ≡ advanced_moment at moment }
    ensures range { IsMoment result }
{
    at.max(moment + 1).min(LAST_MOMENT)
}
