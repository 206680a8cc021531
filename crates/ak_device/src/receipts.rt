// What the server gave is taken with the server's usn. A refusal leaves the keeper marked, with some of it taken.
ghost use Rattle.std.specs.Prelude.{◌≡◌, pos, true, OnOk};
ghost use Rattle.std.specs.List.{All};
ghost use Rattle.ak_base.specs.Heads.{IsWithin};
ghost use Rattle.ak_base.specs.Limits.{last_head_usn};
ghost use Rattle.ak_base.specs.Rows.{IsChecked};
ghost use Rattle.ak_device.specs.Devices.{received};
ghost use Rattle.ak_keep.specs.Keepers.{IsMarkedAt, KeepCause, back, changed, is_marked};
ghost use Rattle.ak_messages.specs.declared.replies.Give.TheVariants as gives;
ghost use Rattle.ak_session.specs.Replies.{replied};
ghost use Rattle.ak_sync_rows.specs.Takes.{MayBeTaken};

use ak_keep::{KeepFault, Keeper};
use ak_merge::Side;
use ak_messages::{Changes, Chunk, GraveIds};
use ak_sync_rows::{head_of, take_chunk_rows, take_given_graves};

/// Takes the graves that a start was given.
#[tactic(auto, using(ak_sync_rows::proofs::TakenHeads::usn_fits))]
pub fn take_graves<K: Keeper>(keeper: &mut K, ids: &GraveIds, usn: i64) -> Result<(), KeepFault>
    requires marked { is_marked (K.keeping keeper.old) ≡ true }
    requires taken { MayBeTaken (replied (gives.Graves ids.now)) }
    requires usn { IsWithin (pos 0) last_head_usn usn }
    ensures ok { OnOk result (K.keeping keeper.new
        ≡ changed (received usn (replied (gives.Graves ids.now))) (K.keeping keeper.old)) }
    ensures stays { IsMarkedAt (back (K.keeping keeper.old)) (K.keeping keeper.new) }
    ensures cause { KeepCause (K.health keeper.old) (K.health keeper.new) result }
{
    take_given_graves(keeper, ids, usn, Side::Device)
}

/// Takes the changes that the server gave: rows, then tags and settings.
pub fn take_changes<K: Keeper>(keeper: &mut K, came: &Changes, usn: i64) -> Result<(), KeepFault>
    requires marked { is_marked (K.keeping keeper.old) ≡ true }
    requires held { (K.keeping keeper.old).headed.current ≡ true }
    requires taken { MayBeTaken (replied (gives.Changes came.now)) }
    requires usn { IsWithin (pos 0) last_head_usn usn }
    ensures ok { OnOk result (K.keeping keeper.new
        ≡ changed (received usn (replied (gives.Changes came.now))) (K.keeping keeper.old)) }
    ensures stays { IsMarkedAt (back (K.keeping keeper.old)) (K.keeping keeper.new) }
    ensures cause { KeepCause (K.health keeper.old) (K.health keeper.new) result }
{
    let head = head_of(keeper)?;
    ak_sync_rows::take_changes(keeper, came, head, usn, Side::Device)
}

/// Takes the rows of a chunk that the server gave.
#[tactic(auto, using(ak_sync_rows::proofs::TakenHeads::usn_fits))]
pub fn take_chunk<K: Keeper>(keeper: &mut K, chunk: &Chunk, usn: i64) -> Result<(), KeepFault>
    requires marked { is_marked (K.keeping keeper.old) ≡ true }
    requires taken { MayBeTaken (replied (gives.Chunk chunk.now)) }
    requires usn { IsWithin (pos 0) last_head_usn usn }
    ensures ok { OnOk result (K.keeping keeper.new
        ≡ changed (received usn (replied (gives.Chunk chunk.now))) (K.keeping keeper.old)) }
    ensures stays { IsMarkedAt (back (K.keeping keeper.old)) (K.keeping keeper.new) }
    ensures cause { KeepCause (K.health keeper.old) (K.health keeper.new) result }
{
    take_chunk_rows(keeper, chunk, usn, Side::Device)
}
