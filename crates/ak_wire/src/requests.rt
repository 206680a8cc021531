ghost use Rattle.std.specs.Prelude.{◌≡◌, ◌⊎◌, None, [], OnOk, IfOk, IfErr};
ghost use Rattle.serde_json.specs.View.{view};
ghost use Rattle.serde_json.specs.Written.{compact_text};
ghost use Rattle.ak_messages.specs.declared.methods.Method.TheVariants as methods;
ghost use Rattle.ak_messages.specs.declared.requests.Ask.TheVariants as asks;
ghost use Rattle.ak_wire.specs.Budgets.{IsWithinBudget};
ghost use Rattle.ak_wire.specs.declared.wire_faults.WireFault.TheVariants as wires;
ghost use Rattle.ak_wire.specs.Faults.{OrMemory, Is};
ghost use Rattle.ak_wire.specs.Values.{object_fault};
ghost use Rattle.ak_wire.specs.Requests.{IsJsonOf, ReadsRequest, RefusesRequest, ReadsAsk, AskFault, apply_graves_fault};
ghost use Rattle.ak_wire.specs.Written.{ask_json};

use crate::WireFault;
use crate::bodies::{check_entries, grave_values, graves_of, read_changes, read_chunk};
use crate::forms::{GRAVES, HOLDS_CHANGES, HOLDS_CHUNK, HOLDS_COUNTS, START};
use crate::keys::Key;
use crate::objects::{check_object, counts_under, integer_under, value_under};
use crate::texts::{read_body, write_body};
use crate::wholes::{read_upload, write_upload};
use crate::written::{add, holding, write_changes, write_chunk, write_counts, write_graves};
use ak_base::{Memory, Text};
use ak_messages::{Ask, Envelope, Method, Request};
use serde_json::{Map, Value};
use std::alloc::Global;

/// The request of an envelope, a method and the bytes of its body. Unknown keys of the body and of its
/// `chunk` and `changes` are passed over, and of a key that comes twice the last one counts. The first fault is
/// told: of the JSON; of the body's keys; of the keys inside, by their bytes; of the number of entries; of the
/// settings; of the rows, list by list and in their order (a chunk: cards, notes, reviews; changes: decks, option
/// groups, note types; a whole collection: the order of `Table`, and after each table whether its ids ascend).
/// Ids ascend if each is over the one before it. A body whose tree would take over 4 GiB is told as out of memory,
/// though it may be no JSON. The ids of graves, `min_usn` and `lmod` are in no range.
#[tactic(auto, using(crate::proofs::BodyFaults::no_json, crate::proofs::BodyFaults::value_fails))]
pub fn read_request(
    alloc: Global,
    envelope: Envelope,
    method: Method,
    body: &[u8],
) -> Result<Request, WireFault>
    ensures ok { IfOk result (ReadsRequest envelope method body.now) }
    ensures within { IfOk result (λ made. IsWithinBudget body.now) }
    ensures over { IfErr result (λ fault. (fault ≡ wires.Memory) ⊎ IsWithinBudget body.now) }
    ensures err { IfErr result (RefusesRequest method body.now) }
{
    let value = read_body(alloc, body)?;
    let ask = read_ask(alloc, method, &value)?;
    Ok(Request {
        host: envelope.host,
        session: envelope.session,
        step: envelope.step,
        base: envelope.base,
        ask,
    })
}

/// What a request of a method asks, by the value of its body.
fn read_ask(alloc: Global, method: Method, value: &Value) -> Result<Ask, WireFault>
    ensures ok { IfOk result (ReadsAsk method (view value.now)) }
    ensures err { IfErr result (OrMemory (AskFault method (view value.now))) }
{
    match method {
        Method::Meta => read_empty(alloc, value, Ask::Meta),
        Method::Start => read_start(alloc, value),
        Method::ApplyGraves => read_apply_graves(alloc, value),
        Method::ApplyChanges => read_apply_changes(alloc, value),
        Method::Chunk => read_empty(alloc, value, Ask::Chunk),
        Method::ApplyChunk => read_apply_chunk(alloc, value),
        Method::SanityCheck2 => read_sanity_check(alloc, value),
        Method::Finish => read_empty(alloc, value, Ask::Finish),
        Method::Upload => Ok(Ask::Upload(read_upload(alloc, value)?)),
        Method::Download => read_empty(alloc, value, Ask::Download),
    }
}

/// What a body without parts asks, if it is an object.
fn read_empty(alloc: Global, value: &Value, ask: Ask) -> Result<Ask, WireFault>
    ensures ok { IfOk result (λ made. (object_fault [] (view value.now) ≡ None) × (made ≡ ask)) }
    ensures err { IfErr result (OrMemory (Is (object_fault [] (view value.now)))) }
{
    check_object(alloc, &[], value)?;
    Ok(ask)
}

/// What a start asks with: the device's usn, and the moment of its last change.
#[tactic(auto, using(crate::proofs::ReadForms::start_read))]
fn read_start(alloc: Global, value: &Value) -> Result<Ask, WireFault>
    ensures ok { IfOk result (ReadsAsk methods.Start (view value.now)) }
    ensures err { IfErr result (OrMemory (AskFault methods.Start (view value.now))) }
{
    check_object(alloc, &START, value)?;
    Ok(Ask::Start {
        min_usn: integer_under(Key::MinUsn, value),
        lmod: integer_under(Key::Lmod, value),
    })
}

/// The ids of graves that a request brings.
#[tactic(auto, using(crate::proofs::ReadForms::apply_graves_read))]
fn read_apply_graves(alloc: Global, value: &Value) -> Result<Ask, WireFault>
    ensures ok { IfOk result (ReadsAsk methods.ApplyGraves (view value.now)) }
    ensures err { IfErr result (OrMemory (AskFault methods.ApplyGraves (view value.now))) }
{
    check_apply_graves(alloc, value)?;
    let ids = graves_of(alloc, value_under(Key::Chunk, value))?;
    Ok(Ask::ApplyGraves(ids))
}

/// Refuses a body that brings no ids of graves, then one of too many.
#[tactic(auto, using(crate::proofs::Refusals::or_first, crate::proofs::Refusals::or_later))]
fn check_apply_graves(alloc: Global, value: &Value) -> Result<(), WireFault>
    ensures ok { OnOk result (apply_graves_fault (view value.now) ≡ None) }
    ensures err { IfErr result (OrMemory (Is (apply_graves_fault (view value.now)))) }
{
    check_object(alloc, &HOLDS_CHUNK, value)?;
    let graves = value_under(Key::Chunk, value);
    check_object(alloc, &GRAVES, graves)?;
    check_entries(grave_values(graves))
}

/// The changes that a request brings.
#[tactic(auto, using(crate::proofs::ReadForms::apply_changes_read, crate::proofs::Refusals::form_first, crate::proofs::Refusals::form_later))]
fn read_apply_changes(alloc: Global, value: &Value) -> Result<Ask, WireFault>
    ensures ok { IfOk result (ReadsAsk methods.ApplyChanges (view value.now)) }
    ensures err { IfErr result (OrMemory (AskFault methods.ApplyChanges (view value.now))) }
{
    check_object(alloc, &HOLDS_CHANGES, value)?;
    let changes = read_changes(alloc, value_under(Key::Changes, value))?;
    Ok(Ask::ApplyChanges(changes))
}

/// The chunk that a request brings.
#[tactic(auto, using(crate::proofs::ReadForms::apply_chunk_read, crate::proofs::Refusals::form_first, crate::proofs::Refusals::form_later))]
fn read_apply_chunk(alloc: Global, value: &Value) -> Result<Ask, WireFault>
    ensures ok { IfOk result (ReadsAsk methods.ApplyChunk (view value.now)) }
    ensures err { IfErr result (OrMemory (AskFault methods.ApplyChunk (view value.now))) }
{
    check_object(alloc, &HOLDS_CHUNK, value)?;
    let chunk = read_chunk(alloc, value_under(Key::Chunk, value))?;
    Ok(Ask::ApplyChunk(chunk))
}

/// The counts of a side that a request brings.
#[tactic(auto, using(crate::proofs::ReadForms::sanity_asked))]
fn read_sanity_check(alloc: Global, value: &Value) -> Result<Ask, WireFault>
    ensures ok { IfOk result (ReadsAsk methods.SanityCheck2 (view value.now)) }
    ensures err { IfErr result (OrMemory (AskFault methods.SanityCheck2 (view value.now))) }
{
    check_object(alloc, &HOLDS_COUNTS, value)?;
    Ok(Ask::SanityCheck2(counts_under(Key::Client, value)))
}

/// The body of a request: the compact text of the one value that is written for what it asks. The envelope
/// goes beside it.
#[tactic(auto, using(crate::proofs::WholeTexts::ask_whole, crate::proofs::Depths::ask_nests, crate::proofs::WholeTexts::is_json))]
pub fn write_request(alloc: Global, request: &Request) -> Result<Text, Memory>
    ensures text { IfOk result (λ text. text ≡ compact_text (ask_json request.now.ask)) }
    ensures json { IfOk result (λ text. IsJsonOf text (ask_json request.now.ask)) }
{
    let value = write_ask(alloc, &request.ask)?;
    write_body(alloc, &value)
}

/// The value of what a request asks.
fn write_ask(alloc: Global, ask: &Ask) -> Result<Value, Memory>
    ensures { IfOk result (λ value. view value ≡ ask_json ask.now) }
{
    match ask {
        Ask::Meta | Ask::Chunk | Ask::Finish | Ask::Download => Ok(Value::Object(Map::new(alloc))),
        Ask::Start { min_usn, lmod } => write_start(alloc, *min_usn, *lmod),
        Ask::ApplyGraves(ids) => holding(alloc, Key::Chunk, write_graves(alloc, ids)?),
        Ask::ApplyChanges(changes) => {
            holding(alloc, Key::Changes, write_changes(alloc, changes)?)
        },
        Ask::ApplyChunk(chunk) => holding(alloc, Key::Chunk, write_chunk(alloc, chunk)?),
        Ask::SanityCheck2(counts) => holding(alloc, Key::Client, write_counts(alloc, counts)?),
        Ask::Upload(whole) => write_upload(alloc, whole),
    }
}

/// The object of a start.
fn write_start(alloc: Global, min_usn: i64, lmod: i64) -> Result<Value, Memory>
    ensures { IfOk result (λ value. view value ≡ ask_json (asks.Start min_usn lmod)) }
{
    let mut members = Map::new(alloc);
    add(alloc, Key::Lmod, Value::from(lmod), &mut members)?;
    add(alloc, Key::MinUsn, Value::from(min_usn), &mut members)?;
    Ok(Value::Object(members))
}
