// What a sync asks after its meta, and what the device does with the replies. The keeper is marked throughout.
ghost use Rattle.std.specs.Int.{div_ceil};
ghost use Rattle.std.specs.Prelude.{◌≡◌, ◌+◌, ◌<◌, ◌*◌, ℕ, pos, true, length, IfOk, OnOk};
ghost use Rattle.ak_base.specs.Heads.{IsMoment, IsWithin};
ghost use Rattle.ak_base.specs.Limits.{last_head_usn};
ghost use Rattle.ak_device.specs.Devices.{IsFullIfMore, IsNextToSend};
ghost use Rattle.ak_exchange.specs.Loops.{HaveSentGraves, PullsOne, PushesOne, SendsOne};
ghost use Rattle.ak_exchange.specs.Phases.{Advances, AreGraveRequests, Exchanges, Finishes, HasPassedCheck, HasReceived, at_end_of, at_meta};
ghost use Rattle.ak_exchange.specs.Stops.{verdict_of};
ghost use Rattle.ak_exchange.specs.declared.stops.Stop.TheVariants as stops;
ghost use Rattle.ak_faults.specs.Causes.{HasCauseOf};
ghost use Rattle.ak_keep.specs.Keepers.{IsMarkedAt, WhereTold, back, is_marked};
ghost use Rattle.ak_session.specs.Plans.{planned_start, planned_graves, planned_changes, planned_chunks, planned_pushes};

use crate::envelopes::{Envelopes, Met};
use crate::stops::Stop;
use ak_base::{Name, Row};
use ak_client_wire::{Wire, ask};
use ak_device::{
    FIRST_PLACE, Gathered, graves_part, next_chunk, settle_sent, take_changes, take_chunk,
    take_graves, unsent_changes,
};
use ak_keep::{Keeper, Wanted};
use ak_messages::{Ask, Changes, Chunk, GraveIds, MOST_ENTRIES, SanityReply};
use ak_sync_rows::{counts_of, wanted_graves};
use std::alloc::Global;

/// The most chunks that are asked for.
const MOST_PULLED: u64 = 40_000;

/// The most chunks that are sent and are not the last one. A 40,000th is sent only if it is the last.
const MOST_UNFINISHED: u64 = 39_999;

/// All that a sync asks between its meta and its finish. What it sends is settled when its request was granted, so the device
/// holds then what it has to commit. A refusal leaves the keeper marked, with some of it taken and settled.
pub fn exchange<K: Keeper, W: Wire>(
    alloc: Global,
    keeper: &mut K,
    wire: &mut W,
    envelopes: &mut Envelopes,
    met: &Met,
) -> Result<(), Stop>
    requires marked { is_marked (K.keeping keeper.old) ≡ true }
    requires held { (K.keeping keeper.old).headed.current ≡ true }
    requires number { IsWithin (pos 0) last_head_usn met.now.meta.usn }
    ensures exchanges { Exchanges met.now (K.keeping keeper.old) (K.keeping keeper.new)
        (record { health = W.health wire.old; wire = W.state wire.old; envelopes = envelopes.old })
        (record { health = W.health wire.new; wire = W.state wire.new; envelopes = envelopes.new }) result }
    ensures stays { IsMarkedAt (back (K.keeping keeper.old)) (K.keeping keeper.new) }
    ensures held { OnOk result ((K.keeping keeper.new).headed.current ≡ true) }
    ensures keeper { HasCauseOf stops.Keep (K.health keeper.old) (K.health keeper.new) result }
{
    exchange_first(alloc, keeper, wire, envelopes, met)?;
    exchange_chunks(alloc, keeper, wire, envelopes, met)?;
    compare(keeper, wire, envelopes, met)
}

/// The start, the graves and the changes.
fn exchange_first<K: Keeper, W: Wire>(
    alloc: Global,
    keeper: &mut K,
    wire: &mut W,
    envelopes: &mut Envelopes,
    met: &Met,
) -> Result<(), Stop>
    requires marked { is_marked (K.keeping keeper.old) ≡ true }
    requires held { (K.keeping keeper.old).headed.current ≡ true }
    requires number { IsWithin (pos 0) last_head_usn met.now.meta.usn }
    ensures leads { (graves : ℕ) × AreGraveRequests (K.keeping keeper.old) graves
        × Advances 0 0 (2 + graves) at_meta (at_end_of planned_changes) met.now (K.keeping keeper.old) (K.keeping keeper.new)
        (record { health = W.health wire.old; wire = W.state wire.old; envelopes = envelopes.old })
        (record { health = W.health wire.new; wire = W.state wire.new; envelopes = envelopes.new }) result }
    ensures stays { IsMarkedAt (back (K.keeping keeper.old)) (K.keeping keeper.new) }
    ensures keeper { HasCauseOf stops.Keep (K.health keeper.old) (K.health keeper.new) result }
{
    start(keeper, wire, envelopes, met)?;
    send_graves(alloc, keeper, wire, envelopes, met)?;
    exchange_changes(alloc, keeper, wire, envelopes, met)
}

/// The chunks: the server's, and then the device's.
fn exchange_chunks<K: Keeper, W: Wire>(
    alloc: Global,
    keeper: &mut K,
    wire: &mut W,
    envelopes: &mut Envelopes,
    met: &Met,
) -> Result<(), Stop>
    requires marked { is_marked (K.keeping keeper.old) ≡ true }
    requires number { IsWithin (pos 0) last_head_usn met.now.meta.usn }
    ensures leads { Advances 40_000 39_999 1 (at_end_of planned_changes) (at_end_of planned_pushes) met.now
        (K.keeping keeper.old) (K.keeping keeper.new)
        (record { health = W.health wire.old; wire = W.state wire.old; envelopes = envelopes.old })
        (record { health = W.health wire.new; wire = W.state wire.new; envelopes = envelopes.new }) result }
    ensures stays { IsMarkedAt (back (K.keeping keeper.old)) (K.keeping keeper.new) }
    ensures keeper { HasCauseOf stops.Keep (K.health keeper.old) (K.health keeper.new) result }
{
    pull(keeper, wire, envelopes, met)?;
    push(alloc, keeper, wire, envelopes, met)
}

/// Tells the server the device's usn and moment, and takes the graves that it gives.
pub fn start<K: Keeper, W: Wire>(
    keeper: &mut K,
    wire: &mut W,
    envelopes: &mut Envelopes,
    met: &Met,
) -> Result<(), Stop>
    requires marked { is_marked (K.keeping keeper.old) ≡ true }
    requires number { IsWithin (pos 0) last_head_usn met.now.meta.usn }
    ensures leads { Advances 0 0 1 at_meta (at_end_of (λ c s. planned_start c)) met.now
        (K.keeping keeper.old) (K.keeping keeper.new)
        (record { health = W.health wire.old; wire = W.state wire.old; envelopes = envelopes.old })
        (record { health = W.health wire.new; wire = W.state wire.new; envelopes = envelopes.new }) result }
    ensures stays { IsMarkedAt (back (K.keeping keeper.old)) (K.keeping keeper.new) }
    ensures took { OnOk result (HasReceived met.now.meta.usn (K.keeping keeper.old) (K.keeping keeper.new)) }
    ensures keeper { HasCauseOf stops.Keep (K.health keeper.old) (K.health keeper.new) result }
{
    let request = envelopes.request(Ask::Start {
        min_usn: met.head.usn,
        lmod: met.head.moment,
    })?;
    let graves: GraveIds = ask(wire, &request)?;
    take_graves(keeper, &graves, met.meta.usn)?;
    Ok(())
}

/// Sends the graves that were not sent yet: of notes, then of cards, then of decks, at most 250 a request. Those of a request
/// are settled once it was granted. If there are none, nothing is asked.
pub fn send_graves<K: Keeper, W: Wire>(
    alloc: Global,
    keeper: &mut K,
    wire: &mut W,
    envelopes: &mut Envelopes,
    met: &Met,
) -> Result<(), Stop>
    requires marked { is_marked (K.keeping keeper.old) ≡ true }
    requires number { IsWithin (pos 0) last_head_usn met.now.meta.usn }
    ensures leads { (graves : ℕ) × AreGraveRequests (K.keeping keeper.old) graves
        × Advances 0 0 graves (at_end_of (λ c s. planned_start c)) (at_end_of planned_graves) met.now
        (K.keeping keeper.old) (K.keeping keeper.new)
        (record { health = W.health wire.old; wire = W.state wire.old; envelopes = envelopes.old })
        (record { health = W.health wire.new; wire = W.state wire.new; envelopes = envelopes.new }) result }
    ensures stays { IsMarkedAt (back (K.keeping keeper.old)) (K.keeping keeper.new) }
    ensures keeper { HasCauseOf stops.Keep (K.health keeper.old) (K.health keeper.new) result }
{
    let graves = wanted_graves(keeper, Wanted::Unsent)?;
    send_parts(alloc, keeper, wire, envelopes, met, graves.as_slice())
}

/// Sends these graves, at most 250 a request.
fn send_parts<K: Keeper, W: Wire>(
    alloc: Global,
    keeper: &mut K,
    wire: &mut W,
    envelopes: &mut Envelopes,
    met: &Met,
    graves: &[Row],
) -> Result<(), Stop>
    requires marked { is_marked (K.keeping keeper.old) ≡ true }
    requires number { IsWithin (pos 0) last_head_usn met.now.meta.usn }
    ensures leads { Advances 0 0 (div_ceil (length graves.now) 250)
        (HaveSentGraves 0 graves.now) (HaveSentGraves (div_ceil (length graves.now) 250) graves.now) met.now
        (K.keeping keeper.old) (K.keeping keeper.new)
        (record { health = W.health wire.old; wire = W.state wire.old; envelopes = envelopes.old })
        (record { health = W.health wire.new; wire = W.state wire.new; envelopes = envelopes.new }) result }
    ensures stays { IsMarkedAt (back (K.keeping keeper.old)) (K.keeping keeper.new) }
    ensures keeper { HasCauseOf stops.Keep (K.health keeper.old) (K.health keeper.new) result }
{
    let parts = graves.len().div_ceil(MOST_ENTRIES as usize);
    for part in 0..parts {
        send_part(alloc, keeper, wire, envelopes, met, graves, part)?;
    }
    Ok(())
}

/// Sends one part of the graves, and settles them.
fn send_part<K: Keeper, W: Wire>(
    alloc: Global,
    keeper: &mut K,
    wire: &mut W,
    envelopes: &mut Envelopes,
    met: &Met,
    graves: &[Row],
    part: usize,
) -> Result<(), Stop>
    requires part { 250 * part < length graves.now }
    requires marked { is_marked (K.keeping keeper.old) ≡ true }
    requires number { IsWithin (pos 0) last_head_usn met.now.meta.usn }
    ensures leads { Advances 0 0 1 (HaveSentGraves part graves.now) (HaveSentGraves (part + 1) graves.now) met.now
        (K.keeping keeper.old) (K.keeping keeper.new)
        (record { health = W.health wire.old; wire = W.state wire.old; envelopes = envelopes.old })
        (record { health = W.health wire.new; wire = W.state wire.new; envelopes = envelopes.new }) result }
    ensures stays { IsMarkedAt (back (K.keeping keeper.old)) (K.keeping keeper.new) }
    ensures keeper { HasCauseOf stops.Keep (K.health keeper.old) (K.health keeper.new) result }
{
    let ids = graves_part(alloc, graves, part)?;
    let request = envelopes.request(Ask::ApplyGraves(ids))?;
    ask::<W, ()>(wire, &request)?;
    settle_sent(keeper, &request.ask, met.meta.usn)?;
    Ok(())
}

/// Sends the changes that were not sent yet, takes the server's, and settles what it sent.
pub fn exchange_changes<K: Keeper, W: Wire>(
    alloc: Global,
    keeper: &mut K,
    wire: &mut W,
    envelopes: &mut Envelopes,
    met: &Met,
) -> Result<(), Stop>
    requires marked { is_marked (K.keeping keeper.old) ≡ true }
    requires held { (K.keeping keeper.old).headed.current ≡ true }
    requires number { IsWithin (pos 0) last_head_usn met.now.meta.usn }
    ensures leads { Advances 0 0 1 (at_end_of planned_graves) (at_end_of planned_changes) met.now
        (K.keeping keeper.old) (K.keeping keeper.new)
        (record { health = W.health wire.old; wire = W.state wire.old; envelopes = envelopes.old })
        (record { health = W.health wire.new; wire = W.state wire.new; envelopes = envelopes.new }) result }
    ensures stays { IsMarkedAt (back (K.keeping keeper.old)) (K.keeping keeper.new) }
    ensures keeper { HasCauseOf stops.Keep (K.health keeper.old) (K.health keeper.new) result }
{
    let changes = unsent_changes(alloc, keeper, met.meta.moment)?;
    let request = envelopes.request(Ask::ApplyChanges(changes))?;
    let came: Changes = ask(wire, &request)?;
    take_changes(keeper, &came, met.meta.usn)?;
    settle_sent(keeper, &request.ask, met.meta.usn)?;
    Ok(())
}

/// Takes the server's rows, chunk by chunk, until one is done.
pub fn pull<K: Keeper, W: Wire>(
    keeper: &mut K,
    wire: &mut W,
    envelopes: &mut Envelopes,
    met: &Met,
) -> Result<(), Stop>
    requires marked { is_marked (K.keeping keeper.old) ≡ true }
    requires number { IsWithin (pos 0) last_head_usn met.now.meta.usn }
    ensures leads { Advances 40_000 0 0 (at_end_of planned_changes) (at_end_of planned_chunks) met.now
        (K.keeping keeper.old) (K.keeping keeper.new)
        (record { health = W.health wire.old; wire = W.state wire.old; envelopes = envelopes.old })
        (record { health = W.health wire.new; wire = W.state wire.new; envelopes = envelopes.new }) result }
    ensures stays { IsMarkedAt (back (K.keeping keeper.old)) (K.keeping keeper.new) }
    ensures took { OnOk result (HasReceived met.now.meta.usn (K.keeping keeper.old) (K.keeping keeper.new)) }
    ensures keeper { HasCauseOf stops.Keep (K.health keeper.old) (K.health keeper.new) result }
{
    for _turn in 0..MOST_PULLED {
        if pull_chunk(keeper, wire, envelopes, met)? {
            return Ok(());
        }
    }
    Err(Stop::TooManyChunks)
}

/// Takes one chunk, and answers whether it was done.
fn pull_chunk<K: Keeper, W: Wire>(
    keeper: &mut K,
    wire: &mut W,
    envelopes: &mut Envelopes,
    met: &Met,
) -> Result<bool, Stop>
    requires marked { is_marked (K.keeping keeper.old) ≡ true }
    requires number { IsWithin (pos 0) last_head_usn met.now.meta.usn }
    ensures leads { (count : ℕ) → PullsOne count met.now (K.keeping keeper.old) (K.keeping keeper.new)
        (record { health = W.health wire.old; wire = W.state wire.old; envelopes = envelopes.old })
        (record { health = W.health wire.new; wire = W.state wire.new; envelopes = envelopes.new }) result }
    ensures stays { IsMarkedAt (back (K.keeping keeper.old)) (K.keeping keeper.new) }
    ensures took { OnOk result (HasReceived met.now.meta.usn (K.keeping keeper.old) (K.keeping keeper.new)) }
    ensures keeper { HasCauseOf stops.Keep (K.health keeper.old) (K.health keeper.new) result }
{
    let request = envelopes.request(Ask::Chunk)?;
    let chunk: Chunk = ask(wire, &request)?;
    take_chunk(keeper, &chunk, met.meta.usn)?;
    Ok(chunk.done)
}

/// Sends the rows that were not sent yet, chunk by chunk, and settles those of each chunk. A 40,000th chunk that is not the
/// last one is not sent.
pub fn push<K: Keeper, W: Wire>(
    alloc: Global,
    keeper: &mut K,
    wire: &mut W,
    envelopes: &mut Envelopes,
    met: &Met,
) -> Result<(), Stop>
    requires marked { is_marked (K.keeping keeper.old) ≡ true }
    requires number { IsWithin (pos 0) last_head_usn met.now.meta.usn }
    ensures leads { Advances 0 39_999 1 (at_end_of planned_chunks) (at_end_of planned_pushes) met.now
        (K.keeping keeper.old) (K.keeping keeper.new)
        (record { health = W.health wire.old; wire = W.state wire.old; envelopes = envelopes.old })
        (record { health = W.health wire.new; wire = W.state wire.new; envelopes = envelopes.new }) result }
    ensures stays { IsMarkedAt (back (K.keeping keeper.old)) (K.keeping keeper.new) }
    ensures keeper { HasCauseOf stops.Keep (K.health keeper.old) (K.health keeper.new) result }
{
    let mut from = FIRST_PLACE;
    for _turn in 0..MOST_UNFINISHED {
        match push_chunk(alloc, keeper, wire, envelopes, met, from)? {
            Some(next) => from = next,
            None => return Ok(()),
        }
    }
    let Gathered { chunk, next: _ } = next_chunk(alloc, keeper, from)?;
    if !chunk.done {
        drop(chunk);
        return Err(Stop::TooManyChunks);
    }
    send_chunk(keeper, wire, envelopes, met, chunk)
}

/// Sends the chunk that begins at this place, and answers where the next one begins, if there is one.
fn push_chunk<K: Keeper, W: Wire>(
    alloc: Global,
    keeper: &mut K,
    wire: &mut W,
    envelopes: &mut Envelopes,
    met: &Met,
    from: Name,
) -> Result<Option<Name>, Stop>
    requires marked { is_marked (K.keeping keeper.old) ≡ true }
    requires number { IsWithin (pos 0) last_head_usn met.now.meta.usn }
    ensures leads { (count : ℕ) → PushesOne count from met.now (K.keeping keeper.old) (K.keeping keeper.new)
        (record { health = W.health wire.old; wire = W.state wire.old; envelopes = envelopes.old })
        (record { health = W.health wire.new; wire = W.state wire.new; envelopes = envelopes.new }) result }
    ensures stays { IsMarkedAt (back (K.keeping keeper.old)) (K.keeping keeper.new) }
    ensures keeper { HasCauseOf stops.Keep (K.health keeper.old) (K.health keeper.new) result }
{
    let Gathered { chunk, next } = next_chunk(alloc, keeper, from)?;
    let done = chunk.done;
    send_chunk(keeper, wire, envelopes, met, chunk)?;
    if done { Ok(None) } else { Ok(Some(next)) }
}

/// Sends this chunk, and settles its rows. One that is not the last one is full.
fn send_chunk<K: Keeper, W: Wire>(
    keeper: &mut K,
    wire: &mut W,
    envelopes: &mut Envelopes,
    met: &Met,
    chunk: Chunk,
) -> Result<(), Stop>
    requires full { IsFullIfMore chunk }
    requires marked { is_marked (K.keeping keeper.old) ≡ true }
    requires number { IsWithin (pos 0) last_head_usn met.now.meta.usn }
    ensures leads { (count : ℕ) (from next : Name)
        → WhereTold (K.keeping keeper.old) (λ h. IsNextToSend h.rows from chunk next)
        → SendsOne chunk count from next met.now (K.keeping keeper.old) (K.keeping keeper.new)
        (record { health = W.health wire.old; wire = W.state wire.old; envelopes = envelopes.old })
        (record { health = W.health wire.new; wire = W.state wire.new; envelopes = envelopes.new }) result }
    ensures stays { IsMarkedAt (back (K.keeping keeper.old)) (K.keeping keeper.new) }
    ensures keeper { HasCauseOf stops.Keep (K.health keeper.old) (K.health keeper.new) result }
{
    let request = envelopes.request(Ask::ApplyChunk(chunk))?;
    ask::<W, ()>(wire, &request)?;
    settle_sent(keeper, &request.ask, met.meta.usn)?;
    Ok(())
}

/// Asks whether both sides hold the same, and whether that is sound.
pub fn compare<K: Keeper, W: Wire>(
    keeper: &mut K,
    wire: &mut W,
    envelopes: &mut Envelopes,
    met: &Met,
) -> Result<(), Stop>
    requires marked { is_marked (K.keeping keeper.old) ≡ true }
    ensures leads { Advances 0 0 1 (at_end_of planned_pushes) HasPassedCheck met.now
        (K.keeping keeper.old) (K.keeping keeper.new)
        (record { health = W.health wire.old; wire = W.state wire.old; envelopes = envelopes.old })
        (record { health = W.health wire.new; wire = W.state wire.new; envelopes = envelopes.new }) result }
    ensures same { K.keeping keeper.new ≡ K.keeping keeper.old }
    ensures keeper { HasCauseOf stops.Keep (K.health keeper.old) (K.health keeper.new) result }
{
    let counts = counts_of(keeper)?;
    let request = envelopes.request(Ask::SanityCheck2(counts))?;
    let reply: SanityReply = ask(wire, &request)?;
    verdict(&reply)
}

/// What a sanity check found: its fault, or else counts that differ.
fn verdict(reply: &SanityReply) -> Result<(), Stop>
    ensures { result ≡ verdict_of reply.now }
{
    if reply.good {
        return Ok(());
    }
    match reply.fault {
        Some(fault) => Err(Stop::BadRow(fault)),
        None => Err(Stop::BadCounts {
            client: reply.client,
            server: reply.server,
        }),
    }
}

/// Asks the server to commit, and answers the moment at which it did, in milliseconds.
pub fn finish<W: Wire>(wire: &mut W, envelopes: &mut Envelopes) -> Result<i64, Stop>
    ensures leads { Finishes
        (record { health = W.health wire.old; wire = W.state wire.old; envelopes = envelopes.old })
        (record { health = W.health wire.new; wire = W.state wire.new; envelopes = envelopes.new }) result }
    ensures range { IfOk result IsMoment }
{
    let request = envelopes.request(Ask::Finish)?;
    let moment: i64 = ask(wire, &request)?;
    Ok(moment)
}
