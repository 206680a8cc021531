// What was sent gets the server's usn, which says so, once its request was granted.
ghost use Rattle.std.specs.FinMap.{get};
ghost use Rattle.std.specs.Prelude.{◌≡◌, pos, true, map, Some, OnOk};
ghost use Rattle.ak_base.specs.Heads.{IsHeadInRange, IsWithin};
ghost use Rattle.ak_base.specs.Limits.{last_head_usn};
ghost use Rattle.ak_base.specs.Rows.{IsChecked, name_of};
ghost use Rattle.ak_device.specs.Settlings.{NamesUnsentTags, is_changes, settled_by, tags_settled, with_all_settled, with_settled, with_tags_settled};
ghost use Rattle.ak_keep.specs.Collections.{is_pending};
ghost use Rattle.ak_keep.specs.Keepers.{IsMarkedAt, KeepCause, WhereTold, back, changed, is_marked};
ghost use Rattle.ak_messages.specs.declared.requests.Ask.TheVariants as asks;

use crate::ids::HasId;
use ak_base::{Head, Name, Row, Table};
use ak_keep::{KeepFault, Keeper};
use ak_merge::settle_tags;
use ak_messages::{Ask, Changes, Chunk, GraveIds};
use ak_sync_rows::head_of;

/// Gives what a request sent this usn, where it has none yet: the rows that stand under the names of its rows, and with
/// changes all tags. It is for a request that was granted. A refusal leaves the keeper marked, with some of it settled.
pub fn settle_sent<K: Keeper>(keeper: &mut K, ask: &Ask, usn: i64) -> Result<(), KeepFault>
    requires marked { is_marked (K.keeping keeper.old) ≡ true }
    requires held { is_changes ask.now ≡ true → (K.keeping keeper.old).headed.current ≡ true }
    requires tags { NamesUnsentTags ask.now (K.keeping keeper.old) }
    requires usn { IsWithin (pos 0) last_head_usn usn }
    ensures ok { OnOk result (K.keeping keeper.new ≡ changed (settled_by usn ask.now) (K.keeping keeper.old)) }
    ensures stays { IsMarkedAt (back (K.keeping keeper.old)) (K.keeping keeper.new) }
    ensures cause { KeepCause (K.health keeper.old) (K.health keeper.new) result }
{
    match ask {
        Ask::ApplyGraves(ids) => settle_graves(keeper, ids, usn),
        Ask::ApplyChanges(changes) => settle_changes(keeper, changes, usn),
        Ask::ApplyChunk(chunk) => settle_chunk(keeper, chunk, usn),
        Ask::Meta
        | Ask::Start { .. }
        | Ask::Chunk
        | Ask::SanityCheck2(_)
        | Ask::Finish
        | Ask::Upload(_)
        | Ask::Download => Ok(()),
    }
}

/// Settles the graves of these ids.
fn settle_graves<K: Keeper>(keeper: &mut K, ids: &GraveIds, usn: i64) -> Result<(), KeepFault>
    requires marked { is_marked (K.keeping keeper.old) ≡ true }
    requires usn { IsWithin (pos 0) last_head_usn usn }
    ensures ok { OnOk result (K.keeping keeper.new
        ≡ changed (settled_by usn (asks.ApplyGraves ids.now)) (K.keeping keeper.old)) }
    ensures stays { IsMarkedAt (back (K.keeping keeper.old)) (K.keeping keeper.new) }
    ensures cause { KeepCause (K.health keeper.old) (K.health keeper.new) result }
{
    settle_each(keeper, Table::NoteGrave, ids.notes.as_slice(), usn)?;
    settle_each(keeper, Table::CardGrave, ids.cards.as_slice(), usn)?;
    settle_each(keeper, Table::DeckGrave, ids.decks.as_slice(), usn)
}

/// Settles what changes have: note types, decks, options and tags.
fn settle_changes<K: Keeper>(keeper: &mut K, changes: &Changes, usn: i64) -> Result<(), KeepFault>
    requires marked { is_marked (K.keeping keeper.old) ≡ true }
    requires held { (K.keeping keeper.old).headed.current ≡ true }
    requires usn { IsWithin (pos 0) last_head_usn usn }
    ensures ok { OnOk result (K.keeping keeper.new
        ≡ changed (settled_by usn (asks.ApplyChanges changes.now)) (K.keeping keeper.old)) }
    ensures stays { IsMarkedAt (back (K.keeping keeper.old)) (K.keeping keeper.new) }
    ensures cause { KeepCause (K.health keeper.old) (K.health keeper.new) result }
{
    settle_head(keeper, usn)?;
    settle_each(keeper, Table::NoteType, changes.models.as_slice(), usn)?;
    settle_each(keeper, Table::Deck, changes.decks.as_slice(), usn)?;
    settle_each(keeper, Table::Options, changes.options.as_slice(), usn)
}

/// Settles the rows of a chunk.
fn settle_chunk<K: Keeper>(keeper: &mut K, chunk: &Chunk, usn: i64) -> Result<(), KeepFault>
    requires marked { is_marked (K.keeping keeper.old) ≡ true }
    requires usn { IsWithin (pos 0) last_head_usn usn }
    ensures ok { OnOk result (K.keeping keeper.new
        ≡ changed (settled_by usn (asks.ApplyChunk chunk.now)) (K.keeping keeper.old)) }
    ensures stays { IsMarkedAt (back (K.keeping keeper.old)) (K.keeping keeper.new) }
    ensures cause { KeepCause (K.health keeper.old) (K.health keeper.new) result }
{
    settle_each(keeper, Table::Review, chunk.reviews.as_slice(), usn)?;
    settle_each(keeper, Table::Card, chunk.cards.as_slice(), usn)?;
    settle_each(keeper, Table::Note, chunk.notes.as_slice(), usn)
}

/// Settles the rows of this table that have the ids of these.
fn settle_each<K: Keeper, T: HasId>(
    keeper: &mut K,
    table: Table,
    sent: &[T],
    usn: i64,
) -> Result<(), KeepFault>
    requires marked { is_marked (K.keeping keeper.old) ≡ true }
    requires usn { IsWithin (pos 0) last_head_usn usn }
    ensures ok { OnOk result (K.keeping keeper.new
        ≡ changed (with_all_settled usn (map (λ x. record { table = table; id = T.id_of x }) sent.now)) (K.keeping keeper.old)) }
    ensures stays { IsMarkedAt (back (K.keeping keeper.old)) (K.keeping keeper.new) }
    ensures cause { KeepCause (K.health keeper.old) (K.health keeper.new) result }
{
    for one in sent {
        settle_one(keeper, name_in(table, one), usn)?;
    }
    Ok(())
}

/// The name in this table with the id of this. That it takes a reference is for the proof alone.
fn name_in<T: HasId>(table: Table, one: &T) -> Name
    ensures { result ≡ record { table = table; id = T.id_of one.now } }
{
    Name {
        table,
        id: one.id(),
    }
}

/// Settles the row under this name, if one stands there and was not sent yet.
fn settle_one<K: Keeper>(keeper: &mut K, name: Name, usn: i64) -> Result<(), KeepFault>
    requires marked { is_marked (K.keeping keeper.old) ≡ true }
    requires usn { IsWithin (pos 0) last_head_usn usn }
    ensures ok { OnOk result (K.keeping keeper.new ≡ changed (with_settled usn name) (K.keeping keeper.old)) }
    ensures stays { IsMarkedAt (back (K.keeping keeper.old)) (K.keeping keeper.new) }
    ensures cause { KeepCause (K.health keeper.old) (K.health keeper.new) result }
{
    // For the proof alone: it says that what the keeper gives passes its check.
    let _checks = keeper.marked();
    match keeper.get(name)? {
        Some(row) => settle_row(keeper, row, name, usn),
        None => Ok(()),
    }
}

/// Settles this row, which stands under this name.
#[tactic(auto, using(crate::proofs::Settling::checked_settled))]
fn settle_row<K: Keeper>(keeper: &mut K, row: Row, name: Name, usn: i64) -> Result<(), KeepFault>
    requires marked { is_marked (K.keeping keeper.old) ≡ true }
    requires checked { IsChecked row }
    requires named { name_of row ≡ name }
    requires stands { WhereTold (K.keeping keeper.old) (λ h. Some row ≡ get h.rows name) }
    requires usn { IsWithin (pos 0) last_head_usn usn }
    ensures ok { OnOk result (K.keeping keeper.new ≡ changed (with_settled usn name) (K.keeping keeper.old)) }
    ensures stays { IsMarkedAt (back (K.keeping keeper.old)) (K.keeping keeper.new) }
    ensures cause { KeepCause (K.health keeper.old) (K.health keeper.new) result }
{
    if !is_pending(&row) {
        drop(row);
        return Ok(());
    }
    let mut row = row;
    row.set_usn(usn);
    keeper.put(row)
}

/// Whether the row was not sent yet.
fn is_pending(row: &Row) -> bool
    ensures { result ≡ is_pending row.now }
{
    row.usn() == -1
}

/// Settles the tags.
fn settle_head<K: Keeper>(keeper: &mut K, usn: i64) -> Result<(), KeepFault>
    requires marked { is_marked (K.keeping keeper.old) ≡ true }
    requires held { (K.keeping keeper.old).headed.current ≡ true }
    requires usn { IsWithin (pos 0) last_head_usn usn }
    ensures ok { OnOk result (K.keeping keeper.new ≡ changed (with_tags_settled usn) (K.keeping keeper.old)) }
    ensures stays { IsMarkedAt (back (K.keeping keeper.old)) (K.keeping keeper.new) }
    ensures cause { KeepCause (K.health keeper.old) (K.health keeper.new) result }
{
    let head = head_of(keeper)?;
    keeper.set_head(settled_head(head, usn))
}

/// The head, each tag that was not sent yet with this usn.
fn settled_head(head: Head, usn: i64) -> Head
    requires range { IsHeadInRange head }
    requires usn { IsWithin (pos 0) last_head_usn usn }
    ensures made { result ≡ tags_settled usn head }
    ensures range { IsHeadInRange result }
{
    let Head {
        crt,
        moment,
        schema,
        usn: own,
        last_sync,
        conf,
        tags,
    } = head;
    let tags = settle_tags(tags, usn);
    Head {
        crt,
        moment,
        schema,
        usn: own,
        last_sync,
        conf,
        tags,
    }
}
