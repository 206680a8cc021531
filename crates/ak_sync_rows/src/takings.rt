// The rows that one message brings, taken by the rule of a sync for a side, with one usn. A refusal leaves the keeper marked,
// with some of them taken.
ghost use Rattle.std.specs.Prelude.{◌≡◌, pos, true, OnOk};
ghost use Rattle.std.specs.List.{All};
ghost use Rattle.ak_base.specs.Heads.{IsHeadInRange, IsWithin};
ghost use Rattle.ak_base.specs.Limits.{last_head_usn};
ghost use Rattle.ak_base.specs.Rows.{IsChecked};
ghost use Rattle.ak_keep.specs.Keepers.{IsMarkedAt, KeepCause, back, changed, head_set, is_marked};
ghost use Rattle.ak_session.specs.Messages.{chunk_rows, change_rows, graves_from};
ghost use Rattle.ak_sync_rows.specs.Takes.{MayBeTaken, head_with, received_in, with_all_taken};

use crate::heads::head_with;
use crate::takes::{
    take_cards, take_decks, take_graves, take_notes, take_options, take_reviews, take_types,
};
use ak_base::Head;
use ak_keep::{KeepFault, Keeper};
use ak_merge::Side;
use ak_messages::{Changes, Chunk, GraveIds};

/// Takes the graves of these ids: of notes, then of cards, then of decks.
pub fn take_given_graves<K: Keeper>(
    keeper: &mut K,
    ids: &GraveIds,
    usn: i64,
    side: Side,
) -> Result<(), KeepFault>
    requires marked { is_marked (K.keeping keeper.old) ≡ true }
    requires checked { All IsChecked (graves_from ids.now) }
    requires usn { IsWithin (pos 0) (pos 2_147_483_647) usn }
    ensures ok { OnOk result (K.keeping keeper.new
        ≡ changed (with_all_taken side usn (graves_from ids.now)) (K.keeping keeper.old)) }
    ensures stays { IsMarkedAt (back (K.keeping keeper.old)) (K.keeping keeper.new) }
    ensures cause { KeepCause (K.health keeper.old) (K.health keeper.new) result }
{
    take_graves(keeper, 1, ids.notes.as_slice(), usn, side)?;
    take_graves(keeper, 0, ids.cards.as_slice(), usn, side)?;
    take_graves(keeper, 2, ids.decks.as_slice(), usn, side)
}

/// Takes changes, where this head is held: their rows, then their tags and settings.
#[tactic(auto, using(crate::proofs::TakenHeads::usn_fits))]
pub fn take_changes<K: Keeper>(
    keeper: &mut K,
    came: &Changes,
    head: Head,
    usn: i64,
    side: Side,
) -> Result<(), KeepFault>
    requires marked { is_marked (K.keeping keeper.old) ≡ true }
    requires range { IsHeadInRange head }
    requires taken { MayBeTaken (received_in came.now) }
    requires usn { IsWithin (pos 0) last_head_usn usn }
    ensures ok { OnOk result (K.keeping keeper.new ≡ head_set (head_with usn (received_in came.now) head)
        (changed (with_all_taken side usn (change_rows came.now)) (K.keeping keeper.old))) }
    ensures stays { IsMarkedAt (back (K.keeping keeper.old)) (K.keeping keeper.new) }
    ensures cause { KeepCause (K.health keeper.old) (K.health keeper.new) result }
{
    take_changed_rows(keeper, came, usn, side)?;
    let head = head_with(head, came, usn)?;
    keeper.set_head(head)
}

/// Takes the rows of changes: note types, then decks, then options.
fn take_changed_rows<K: Keeper>(
    keeper: &mut K,
    came: &Changes,
    usn: i64,
    side: Side,
) -> Result<(), KeepFault>
    requires marked { is_marked (K.keeping keeper.old) ≡ true }
    requires checked { All IsChecked (change_rows came.now) }
    requires usn { IsWithin (pos 0) (pos 2_147_483_647) usn }
    ensures ok { OnOk result (K.keeping keeper.new
        ≡ changed (with_all_taken side usn (change_rows came.now)) (K.keeping keeper.old)) }
    ensures stays { IsMarkedAt (back (K.keeping keeper.old)) (K.keeping keeper.new) }
    ensures cause { KeepCause (K.health keeper.old) (K.health keeper.new) result }
{
    take_types(keeper, came.models.as_slice(), usn, side)?;
    take_decks(keeper, came.decks.as_slice(), usn, side)?;
    take_options(keeper, came.options.as_slice(), usn, side)
}

/// Takes the rows of a chunk: reviews, then cards, then notes.
pub fn take_chunk_rows<K: Keeper>(
    keeper: &mut K,
    chunk: &Chunk,
    usn: i64,
    side: Side,
) -> Result<(), KeepFault>
    requires marked { is_marked (K.keeping keeper.old) ≡ true }
    requires checked { All IsChecked (chunk_rows chunk.now) }
    requires usn { IsWithin (pos 0) (pos 2_147_483_647) usn }
    ensures ok { OnOk result (K.keeping keeper.new
        ≡ changed (with_all_taken side usn (chunk_rows chunk.now)) (K.keeping keeper.old)) }
    ensures stays { IsMarkedAt (back (K.keeping keeper.old)) (K.keeping keeper.new) }
    ensures cause { KeepCause (K.health keeper.old) (K.health keeper.new) result }
{
    take_reviews(keeper, chunk.reviews.as_slice(), usn, side)?;
    take_cards(keeper, chunk.cards.as_slice(), usn, side)?;
    take_notes(keeper, chunk.notes.as_slice(), usn, side)
}
