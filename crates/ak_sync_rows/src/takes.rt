// The rows that a message brings, taken by the rule of a sync for a side, with one usn. A refusal leaves the keeper
// marked, with some of them taken.
ghost use Rattle.std.specs.Prelude.{◌≡◌, ◌++◌, pos, true, map, OnOk};
ghost use Rattle.std.specs.List.{All};
ghost use Rattle.ak_base.specs.Heads.{IsWithin};
ghost use Rattle.ak_base.specs.Rows.{IsChecked};
ghost use Rattle.ak_base.specs.declared.rows.Row.TheVariants as rows;
ghost use Rattle.ak_keep.specs.Keepers.{IsMarkedAt, KeepCause, back, is_marked};
ghost use Rattle.ak_session.specs.Messages.{grave_with};
ghost use Rattle.ak_sync_rows.specs.Takes.{rows_taken};

use ak_base::{Card, Deck, Grave, Note, NoteType, Options, Review, Row};
use ak_keep::{KeepFault, Keeper};
use ak_merge::{Side, take_row};

/// Takes the graves of these ids, whose stored code is `kind`.
pub fn take_graves<K: Keeper>(
    keeper: &mut K,
    kind: i64,
    ids: &[i64],
    usn: i64,
    side: Side,
) -> Result<(), KeepFault>
    requires marked { is_marked (K.keeping keeper.old) ≡ true }
    requires checked { All (λ id. IsChecked (grave_with kind id)) ids.now }
    requires usn { IsWithin (pos 0) (pos 2_147_483_647) usn }
    ensures ok { OnOk result (K.keeping keeper.new
        ≡ rows_taken side usn (map (grave_with kind) ids.now) (K.keeping keeper.old)) }
    ensures stays { IsMarkedAt (back (K.keeping keeper.old)) (K.keeping keeper.new) }
    ensures cause { KeepCause (K.health keeper.old) (K.health keeper.new) result }
{
    for id in ids {
        take_row(keeper, grave_with(kind, id), usn, side)?;
    }
    Ok(())
}

/// The grave of a row of this id, with this stored code and not sent yet. That it takes a reference is for the proof alone.
fn grave_with(kind: i64, id: &i64) -> Row
    ensures { result ≡ grave_with kind id.now }
{
    Row::Grave(Grave {
        usn: -1,
        oid: *id,
        kind,
    })
}

/// Takes these reviews.
pub fn take_reviews<K: Keeper>(
    keeper: &mut K,
    came: &[Review],
    usn: i64,
    side: Side,
) -> Result<(), KeepFault>
    requires marked { is_marked (K.keeping keeper.old) ≡ true }
    requires checked { All (λ row. IsChecked (rows.Review row)) came.now }
    requires usn { IsWithin (pos 0) (pos 2_147_483_647) usn }
    ensures ok { OnOk result (K.keeping keeper.new
        ≡ rows_taken side usn (map rows.Review came.now) (K.keeping keeper.old)) }
    ensures stays { IsMarkedAt (back (K.keeping keeper.old)) (K.keeping keeper.new) }
    ensures cause { KeepCause (K.health keeper.old) (K.health keeper.new) result }
{
    for row in came {
        take_row(keeper, review_row(row), usn, side)?;
    }
    Ok(())
}

/// The row of a review. That it takes a reference is for the proof alone.
fn review_row(review: &Review) -> Row
    ensures { result ≡ rows.Review review.now }
{
    Row::Review(*review)
}

/// Takes these cards.
pub fn take_cards<K: Keeper>(
    keeper: &mut K,
    came: &[Card],
    usn: i64,
    side: Side,
) -> Result<(), KeepFault>
    requires marked { is_marked (K.keeping keeper.old) ≡ true }
    requires checked { All (λ row. IsChecked (rows.Card row)) came.now }
    requires usn { IsWithin (pos 0) (pos 2_147_483_647) usn }
    ensures ok { OnOk result (K.keeping keeper.new
        ≡ rows_taken side usn (map rows.Card came.now) (K.keeping keeper.old)) }
    ensures stays { IsMarkedAt (back (K.keeping keeper.old)) (K.keeping keeper.new) }
    ensures cause { KeepCause (K.health keeper.old) (K.health keeper.new) result }
{
    for row in came {
        take_row(keeper, Row::Card(row.copy()?), usn, side)?;
    }
    Ok(())
}

/// Takes these notes.
pub fn take_notes<K: Keeper>(
    keeper: &mut K,
    came: &[Note],
    usn: i64,
    side: Side,
) -> Result<(), KeepFault>
    requires marked { is_marked (K.keeping keeper.old) ≡ true }
    requires checked { All (λ row. IsChecked (rows.Note row)) came.now }
    requires usn { IsWithin (pos 0) (pos 2_147_483_647) usn }
    ensures ok { OnOk result (K.keeping keeper.new
        ≡ rows_taken side usn (map rows.Note came.now) (K.keeping keeper.old)) }
    ensures stays { IsMarkedAt (back (K.keeping keeper.old)) (K.keeping keeper.new) }
    ensures cause { KeepCause (K.health keeper.old) (K.health keeper.new) result }
{
    for row in came {
        take_row(keeper, Row::Note(row.copy()?), usn, side)?;
    }
    Ok(())
}

/// Takes these note types.
pub fn take_types<K: Keeper>(
    keeper: &mut K,
    came: &[NoteType],
    usn: i64,
    side: Side,
) -> Result<(), KeepFault>
    requires marked { is_marked (K.keeping keeper.old) ≡ true }
    requires checked { All (λ row. IsChecked (rows.NoteType row)) came.now }
    requires usn { IsWithin (pos 0) (pos 2_147_483_647) usn }
    ensures ok { OnOk result (K.keeping keeper.new
        ≡ rows_taken side usn (map rows.NoteType came.now) (K.keeping keeper.old)) }
    ensures stays { IsMarkedAt (back (K.keeping keeper.old)) (K.keeping keeper.new) }
    ensures cause { KeepCause (K.health keeper.old) (K.health keeper.new) result }
{
    for row in came {
        take_row(keeper, Row::NoteType(row.copy()?), usn, side)?;
    }
    Ok(())
}

/// Takes these decks.
pub fn take_decks<K: Keeper>(
    keeper: &mut K,
    came: &[Deck],
    usn: i64,
    side: Side,
) -> Result<(), KeepFault>
    requires marked { is_marked (K.keeping keeper.old) ≡ true }
    requires checked { All (λ row. IsChecked (rows.Deck row)) came.now }
    requires usn { IsWithin (pos 0) (pos 2_147_483_647) usn }
    ensures ok { OnOk result (K.keeping keeper.new
        ≡ rows_taken side usn (map rows.Deck came.now) (K.keeping keeper.old)) }
    ensures stays { IsMarkedAt (back (K.keeping keeper.old)) (K.keeping keeper.new) }
    ensures cause { KeepCause (K.health keeper.old) (K.health keeper.new) result }
{
    for row in came {
        take_row(keeper, Row::Deck(row.copy()?), usn, side)?;
    }
    Ok(())
}

/// Takes these groups of options.
pub fn take_options<K: Keeper>(
    keeper: &mut K,
    came: &[Options],
    usn: i64,
    side: Side,
) -> Result<(), KeepFault>
    requires marked { is_marked (K.keeping keeper.old) ≡ true }
    requires checked { All (λ row. IsChecked (rows.Options row)) came.now }
    requires usn { IsWithin (pos 0) (pos 2_147_483_647) usn }
    ensures ok { OnOk result (K.keeping keeper.new
        ≡ rows_taken side usn (map rows.Options came.now) (K.keeping keeper.old)) }
    ensures stays { IsMarkedAt (back (K.keeping keeper.old)) (K.keeping keeper.new) }
    ensures cause { KeepCause (K.health keeper.old) (K.health keeper.new) result }
{
    for row in came {
        take_row(keeper, Row::Options(row.copy()?), usn, side)?;
    }
    Ok(())
}
