// What a device sends: of all that it holds, what was not sent yet. Nothing of it is settled here.
ghost use Rattle.std.specs.Option.{option_map};
ghost use Rattle.std.specs.Prelude.{◌≡◌, ◌<◌, ◌*◌, true, Some, length, take, drop, IfOk, IfSome};
ghost use Rattle.ak_device.specs.Devices.{IsFullIfMore, IsNextToSend, changes_from, changes_to_send, settings_since};
ghost use Rattle.ak_keep.specs.Readings.{ReadsBy};
ghost use Rattle.ak_session.specs.Messages.{grave_ids, newer_of};
ghost use Rattle.ak_session.specs.Slices.{slice};

use ak_base::{Head, Memory, Name, Row, Table};
use ak_keep::{KeepFault, Keeper, Wanted};
use ak_messages::{Changes, Chunk, GraveIds, MOST_ENTRIES, Newer};
use ak_sync_rows::{
    changes_of, chunk_of, grave_ids, head_of, newer_of, next_rows, wanted_changes, wanted_tags,
};
use std::alloc::Global;

/// The place before all rows that are sent by chunks.
pub const FIRST_PLACE: Name = Name {
    table: Table::Review,
    id: 0,
};

/// One chunk to be sent, and the place where the chunk after it begins.
#[derive(Drop)]
pub struct Gathered {
    pub chunk: Chunk,
    pub next: Name,
}

/// The ids of the graves at places from `250 * part` to below `250 * (part + 1)`.
pub fn graves_part(alloc: Global, graves: &[Row], part: usize) -> Result<GraveIds, Memory>
    requires { 250 * part < length graves.now }
    ensures { IfOk result (λ ids. ids ≡ grave_ids (slice part graves.now)) }
{
    grave_ids(alloc, rows_at(graves, MOST_ENTRIES as usize * part))
}

/// The rows from this place on, at most 250.
#[tactic(auto, using(crate::proofs::Sending::part_is))]
fn rows_at(rows: &[Row], from: usize) -> &[Row]
    requires { from < length rows.now }
    ensures { result.now ≡ take 250 (drop from rows.now) }
{
    let most = (rows.len() - from).min(MOST_ENTRIES as usize);
    &rows[from..from + most]
}

/// The changes that were not sent yet, over a server that was changed last at this moment, in milliseconds: rows and tags,
/// and the settings if the device was changed after it.
pub fn unsent_changes<K: Keeper>(
    alloc: Global,
    keeper: &mut K,
    moment: i64,
) -> Result<Changes, KeepFault>
    requires held { (K.keeping keeper.old).headed.current ≡ true }
    ensures reads { ReadsBy K.Lookup keeper.old keeper.new result (λ h changes.
        IfSome h.head (λ head. changes ≡ changes_to_send moment h.rows head)) }
{
    let head = head_of(keeper)?;
    let rows = wanted_changes(keeper, Wanted::Unsent)?;
    Ok(changes_from(alloc, rows, &head, moment)?)
}

/// The changes of these rows, with the tags of the head that were not sent yet, and its settings if it was changed after this
/// moment.
fn changes_from(alloc: Global, rows: Vec<Row>, head: &Head, moment: i64) -> Result<Changes, Memory>
    ensures { IfOk result (λ changes. changes ≡ changes_from moment rows.items head.now) }
{
    let tags = wanted_tags(alloc, head.tags.as_slice(), &Wanted::Unsent)?;
    let newer = newer_since(moment, head)?;
    changes_of(alloc, rows, tags, newer)
}

/// The settings of a head that was changed after this moment.
fn newer_since(moment: i64, head: &Head) -> Result<Option<Newer>, Memory>
    ensures { IfOk result (λ newer. newer ≡ option_map newer_of (settings_since moment head.now)) }
{
    if moment < head.moment {
        return Ok(Some(newer_of(head)?));
    }
    Ok(None)
}

/// The next chunk of what was not sent yet, from this place on: at most 250 rows, reviews before cards before notes, each by
/// ascending id. It is done if no more are left. The first is from `FIRST_PLACE` on.
pub fn next_chunk<K: Keeper>(
    alloc: Global,
    keeper: &mut K,
    from: Name,
) -> Result<Gathered, KeepFault>
    ensures reads { ReadsBy K.Lookup keeper.old keeper.new result (λ h it. IsNextToSend h.rows from it.chunk it.next) }

    // Whatever the keeper tells, only the last chunk has fewer than 250 rows.
    ensures full { IfOk result (λ it. IsFullIfMore it.chunk) }
{
    let (rows, next) = next_rows(alloc, keeper, from, Wanted::Unsent)?;
    let chunk = chunk_of(alloc, rows)?;
    Ok(Gathered { chunk, next })
}
