ghost use Rattle.std.specs.Prelude.{◌≡◌, ◌+◌, None, OnOk, IfOk, IfErr};
ghost use Rattle.serde_json.specs.Events.{items_len};
ghost use Rattle.serde_json.specs.View.{view};
ghost use Rattle.ak_wire.specs.Bodies.{too_many, graves_of, grave_values, chunk_values, chunk_fault, ReadsChunk, ChunkFault, is_newer, newer_fault, TakesNewer, NewerFault, changes_fault, ReadsChanges, ChangesFault};
ghost use Rattle.ak_wire.specs.Faults.{OrMemory, Is};

use crate::WireFault;
use crate::forms::{CHANGES, CHUNK, NEWER};
use crate::keys::Key;
use crate::objects::{
    bool_under, check_keys, check_object, ids_under, integer_under, items_at, items_under, texts,
    value_under,
};
use crate::parts::read_each;
use ak_base::Memory;
use ak_json::read_conf;
use ak_messages::{Changes, Chunk, GraveIds, MOST_ENTRIES, Newer};
use serde_json::Value;
use std::alloc::Global;

/// The ids of graves of an object of them.
pub(crate) fn graves_of(alloc: Global, value: &Value) -> Result<GraveIds, Memory>
    ensures { IfOk result (λ ids. ids ≡ graves_of (view value.now)) }
{
    let cards = ids_under(alloc, Key::Cards, value)?;
    let notes = ids_under(alloc, Key::Notes, value)?;
    let decks = ids_under(alloc, Key::Decks, value)?;
    Ok(GraveIds {
        cards,
        notes,
        decks,
    })
}

/// How many entries the lists of ids of graves have together.
pub(crate) fn grave_values(value: &Value) -> u64
    ensures { result ≡ grave_values (view value.now) }
{
    let cards = items_under(Key::Cards, value).len() as u64;
    let decks = items_under(Key::Decks, value).len() as u64;
    let notes = items_under(Key::Notes, value).len() as u64;
    cards + decks + notes
}

/// How many entries the lists of a chunk have together.
fn chunk_values(value: &Value) -> u64
    ensures { result ≡ chunk_values (view value.now) }
{
    let cards = items_under(Key::Cards, value).len() as u64;
    let notes = items_under(Key::Notes, value).len() as u64;
    let reviews = items_under(Key::Revlog, value).len() as u64;
    cards + notes + reviews
}

/// Refuses more entries than a message may have.
pub(crate) fn check_entries(entries: u64) -> Result<(), WireFault>
    ensures ok { OnOk result (too_many entries ≡ None) }
    ensures err { IfErr result (Is (too_many entries)) }
{
    if entries <= MOST_ENTRIES {
        return Ok(());
    }
    Err(WireFault::TooManyRows(entries))
}

/// The chunk that an object stands for. Its keys are tested first, then the number of its rows, then the
/// rows: cards, notes, reviews.
#[tactic(auto, using(crate::proofs::Refusals::form_first, crate::proofs::Refusals::form_later, crate::proofs::Refusals::then_first, crate::proofs::Refusals::then_later))]
pub(crate) fn read_chunk(alloc: Global, value: &Value) -> Result<Chunk, WireFault>
    ensures ok { IfOk result (ReadsChunk (view value.now)) }
    ensures err { IfErr result (OrMemory (ChunkFault (view value.now))) }
{
    check_chunk(alloc, value)?;
    let cards = read_each(alloc, items_under(Key::Cards, value))?;
    let notes = read_each(alloc, items_under(Key::Notes, value))?;
    let reviews = read_each(alloc, items_under(Key::Revlog, value))?;
    Ok(Chunk {
        done: bool_under(Key::Done, value),
        reviews,
        cards,
        notes,
    })
}

/// Refuses an object whose keys are not those of a chunk, then one of too many rows.
#[tactic(auto, using(crate::proofs::Refusals::or_first, crate::proofs::Refusals::or_later))]
fn check_chunk(alloc: Global, value: &Value) -> Result<(), WireFault>
    ensures ok { OnOk result (chunk_fault (view value.now) ≡ None) }
    ensures err { IfErr result (OrMemory (Is (chunk_fault (view value.now)))) }
{
    check_object(alloc, &CHUNK, value)?;
    check_entries(chunk_values(value))
}

/// The changes that an object stands for. Its keys are tested first, then the settings, the decks, the option
/// groups and the note types.
#[tactic(auto, using(crate::proofs::Refusals::form_first, crate::proofs::Refusals::form_later, crate::proofs::Refusals::then_first, crate::proofs::Refusals::then_later))]
pub(crate) fn read_changes(alloc: Global, value: &Value) -> Result<Changes, WireFault>
    ensures ok { IfOk result (ReadsChanges (view value.now)) }
    ensures err { IfErr result (OrMemory (ChangesFault (view value.now))) }
{
    check_changes(alloc, value)?;
    let newer = read_newer(alloc, value)?;
    let lists = value_under(Key::Decks, value);
    let decks = read_each(alloc, items_at(0, lists))?;
    let options = read_each(alloc, items_at(1, lists))?;
    let models = read_each(alloc, items_under(Key::Models, value))?;
    let tags = texts(alloc, items_under(Key::Tags, value))?;
    Ok(Changes {
        models,
        decks,
        options,
        tags,
        newer,
    })
}

/// Refuses an object whose keys are not those of changes.
#[tactic(auto, using(crate::proofs::Refusals::or_first, crate::proofs::Refusals::or_later))]
fn check_changes(alloc: Global, value: &Value) -> Result<(), WireFault>
    ensures ok { OnOk result (changes_fault (view value.now) ≡ None) }
    ensures err { IfErr result (OrMemory (Is (changes_fault (view value.now)))) }
{
    check_newer(alloc, value)?;
    check_object(alloc, &CHANGES, value)
}

/// Refuses one of the two keys of the settings without the other.
fn check_newer(alloc: Global, value: &Value) -> Result<(), WireFault>
    ensures ok { OnOk result (newer_fault (view value.now) ≡ None) }
    ensures err { IfErr result (OrMemory (Is (newer_fault (view value.now)))) }
{
    if is_newer(value) {
        return check_keys(alloc, &NEWER, value);
    }
    Ok(())
}

/// Whether one of the two keys of the settings is there.
fn is_newer(value: &Value) -> bool
    ensures { result ≡ is_newer (view value.now) }
{
    value.get(Key::Conf.text()).is_some() || value.get(Key::Crt.text()).is_some()
}

/// The settings of the newer side, if they are there.
fn read_newer(alloc: Global, value: &Value) -> Result<Option<Newer>, WireFault>
    ensures ok { IfOk result (TakesNewer (view value.now)) }
    ensures err { IfErr result (OrMemory (NewerFault (view value.now))) }
{
    if is_newer(value) {
        let conf = read_conf(alloc, value_under(Key::Conf, value))?;
        let crt = integer_under(Key::Crt, value);
        return Ok(Some(Newer { conf, crt }));
    }
    Ok(None)
}
