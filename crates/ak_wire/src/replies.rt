ghost use Rattle.std.specs.Prelude.{◌≡◌, ◌⊎◌, ◌∷◌, [], IfOk, IfErr};
ghost use Rattle.serde_json.specs.View.{view};
ghost use Rattle.serde_json.specs.Written.{compact_text};
ghost use Rattle.ak_json.specs.Written.{integer};
ghost use Rattle.ak_messages.specs.declared.replies.Give.TheVariants as gives;
ghost use Rattle.ak_wire.specs.Written.{array_of, reply_json, give_json, meta_json, sanity_json, check_json};
ghost use Rattle.ak_messages.specs.declared.methods.Method.TheVariants as methods;
ghost use Rattle.ak_wire.specs.Budgets.{IsWithinBudget};
ghost use Rattle.ak_wire.specs.declared.wire_faults.WireFault.TheVariants as wires;
ghost use Rattle.ak_wire.specs.Faults.{OrMemory, Is};
ghost use Rattle.ak_wire.specs.Requests.{IsJsonOf};
ghost use Rattle.ak_wire.specs.Replies.{ReadsReply, RefusesReply, ReadsGranted, ReadsRefused, ReadsGive, GiveFault, good_check, bad_check, check_in, check_of, is_good};
ghost use Rattle.ak_wire.specs.Forms.{refused_form};
ghost use Rattle.ak_wire.specs.Values.{object_fault};

use crate::WireFault;
use crate::bodies::{graves_of, read_changes, read_chunk};
use crate::forms::{BAD, GRAVES, META, MOMENT, REFUSED, STATUS, UPLOADED};
use crate::keys::Key;
use crate::kinds::number_at;
use crate::objects::{
    bool_under, check_object, counts_under, integer_under, text_under, value_under,
};
use crate::texts::{read_body, write_body};
use crate::wholes::{read_download, write_download};
use crate::words::{word_of, word_text};
use crate::written::{add, holding, write_changes, write_chunk, write_counts, write_graves};
use ak_base::{Memory, Text};
use ak_merge::CheckFault;
use ak_messages::{Give, MetaReply, Method, Reply, SanityCounts, SanityReply, Word};
use serde_json::{Map, Value};
use std::alloc::Global;

/// The reply to a method, with its status, by the bytes of its body. Unknown keys are passed over, and of a key
/// that comes twice the last one counts. With status 200 it gives what its method does, and has the word `Ok` and
/// seen 0; with any other it has a word and what the server has seen. The first fault is told: of the JSON; of the
/// keys, by their bytes, but `status` of a check first; of the number of rows of a chunk; of settings and rows as
/// `read_request` tells them. The graves that answer a start may be any number.
#[tactic(auto, using(crate::proofs::BodyFaults::no_json, crate::proofs::BodyFaults::value_fails))]
pub fn read_reply(
    alloc: Global,
    method: Method,
    status: u16,
    body: &[u8],
) -> Result<Reply, WireFault>
    ensures ok { IfOk result (ReadsReply method status body.now) }
    ensures within { IfOk result (λ made. IsWithinBudget body.now) }
    ensures over { IfErr result (λ fault. (fault ≡ wires.Memory) ⊎ IsWithinBudget body.now) }
    ensures err { IfErr result (RefusesReply method status body.now) }
{
    let value = read_body(alloc, body)?;
    if status == 200 {
        return read_granted(alloc, method, &value);
    }
    read_refused(alloc, status, &value)
}

/// The reply with status 200 to a method.
fn read_granted(alloc: Global, method: Method, value: &Value) -> Result<Reply, WireFault>
    ensures ok { IfOk result (ReadsGranted method (view value.now)) }
    ensures status { IfOk result (λ reply. reply.status ≡ 200) }
    ensures err { IfErr result (OrMemory (GiveFault method (view value.now))) }
{
    let give = read_give(alloc, method, value)?;
    Ok(Reply {
        status: 200,
        word: Word::Ok,
        seen: 0,
        give,
    })
}

/// The reply of another status.
fn read_refused(alloc: Global, status: u16, value: &Value) -> Result<Reply, WireFault>
    ensures ok { IfOk result (ReadsRefused (view value.now)) }
    ensures status { IfOk result (λ reply. reply.status ≡ status) }
    ensures err { IfErr result (OrMemory (Is (object_fault refused_form (view value.now)))) }
{
    check_object(alloc, &REFUSED, value)?;
    Ok(Reply {
        status,
        word: word_of(text_under(Key::Word, value)).unwrap_or(Word::Ok),
        seen: integer_under(Key::Seen, value),
        give: Give::Nothing,
    })
}

/// What a reply with status 200 to a method gives.
fn read_give(alloc: Global, method: Method, value: &Value) -> Result<Give, WireFault>
    ensures ok { IfOk result (ReadsGive method (view value.now)) }
    ensures err { IfErr result (OrMemory (GiveFault method (view value.now))) }
{
    match method {
        Method::Meta => read_meta(alloc, value),
        Method::Start => read_graves(alloc, value),
        Method::ApplyGraves => read_nothing(alloc, value),
        Method::ApplyChanges => Ok(Give::Changes(read_changes(alloc, value)?)),
        Method::Chunk => Ok(Give::Chunk(read_chunk(alloc, value)?)),
        Method::ApplyChunk => read_nothing(alloc, value),
        Method::SanityCheck2 => read_sanity(alloc, value),
        Method::Finish => read_moment(alloc, value),
        Method::Upload => read_uploaded(alloc, value),
        Method::Download => Ok(Give::Whole(read_download(alloc, value)?)),
    }
}

/// Where the server stands.
fn read_meta(alloc: Global, value: &Value) -> Result<Give, WireFault>
    ensures ok { IfOk result (ReadsGive methods.Meta (view value.now)) }
    ensures err { IfErr result (OrMemory (GiveFault methods.Meta (view value.now))) }
{
    check_object(alloc, &META, value)?;
    let msg = Text::of(alloc, text_under(Key::Msg, value))?;
    Ok(Give::Meta(MetaReply {
        scm: integer_under(Key::Scm, value),
        ts: integer_under(Key::Ts, value),
        moment: integer_under(Key::Mod, value),
        usn: integer_under(Key::Usn, value),
        musn: integer_under(Key::Musn, value),
        msg,
        cont: bool_under(Key::Cont, value),
    }))
}

/// The ids of graves that answer a start.
#[tactic(auto, using(crate::proofs::ReadForms::graves_are))]
fn read_graves(alloc: Global, value: &Value) -> Result<Give, WireFault>
    ensures ok { IfOk result (ReadsGive methods.Start (view value.now)) }
    ensures err { IfErr result (OrMemory (GiveFault methods.Start (view value.now))) }
{
    check_object(alloc, &GRAVES, value)?;
    let ids = graves_of(alloc, value)?;
    Ok(Give::Graves(ids))
}

/// Nothing, of any object.
fn read_nothing(alloc: Global, value: &Value) -> Result<Give, WireFault>
    ensures ok { IfOk result (ReadsGive methods.ApplyGraves (view value.now)) }
    ensures err { IfErr result (OrMemory (GiveFault methods.ApplyGraves (view value.now))) }
{
    check_object(alloc, &[], value)?;
    Ok(Give::Nothing)
}

/// Whether both sides hold what they should.
#[tactic(auto, using(crate::proofs::ReadForms::good_read, crate::proofs::ReadForms::bad_read, crate::proofs::Refusals::or_first, crate::proofs::Refusals::or_later))]
fn read_sanity(alloc: Global, value: &Value) -> Result<Give, WireFault>
    ensures ok { IfOk result (ReadsGive methods.SanityCheck2 (view value.now)) }
    ensures err { IfErr result (OrMemory (GiveFault methods.SanityCheck2 (view value.now))) }
{
    check_object(alloc, &STATUS, value)?;
    if is_good(value) {
        return Ok(Give::Sanity(good_check()));
    }
    check_object(alloc, &BAD, value)?;
    Ok(Give::Sanity(bad_check(value)))
}

/// Whether the status is that of a good check.
fn is_good(value: &Value) -> bool
    ensures { result ≡ is_good (view value.now) }
{
    text_under(Key::Status, value) == "ok"
}

/// A good check tells nothing else.
fn good_check() -> SanityReply
    ensures { result ≡ good_check }
{
    let none = SanityCounts {
        cards: 0,
        notes: 0,
        reviews: 0,
        graves: 0,
        models: 0,
        decks: 0,
        options: 0,
    };
    SanityReply {
        good: true,
        fault: None,
        client: none,
        server: none,
    }
}

/// What an object tells of a bad check.
fn bad_check(value: &Value) -> SanityReply
    ensures { result ≡ bad_check (view value.now) }
{
    SanityReply {
        good: false,
        fault: check_in(value_under(Key::Row, value)),
        client: counts_under(Key::C, value),
        server: counts_under(Key::S, value),
    }
}

/// The fault of a collection that a list stands for. Any other value stands for none.
fn check_in(value: &Value) -> Option<CheckFault>
    ensures { result ≡ check_in (view value.now) }
{
    if !value.is_array() {
        return None;
    }
    let code = number_at(0, value).unwrap_or(0);
    let id = number_at(1, value).unwrap_or(0);
    Some(check_of(code, id))
}

/// The fault of a collection with this number, and the id of its row.
fn check_of(code: i64, id: i64) -> CheckFault
    ensures { result ≡ check_of code id }
{
    match code {
        1 => CheckFault::CardNoNote(id),
        2 => CheckFault::NoteNoCard(id),
        3 => CheckFault::NoteNoType(id),
        _ => CheckFault::CardNoTemplate(id),
    }
}

/// The new moment.
#[tactic(auto, using(crate::proofs::ReadForms::moment_read))]
fn read_moment(alloc: Global, value: &Value) -> Result<Give, WireFault>
    ensures ok { IfOk result (ReadsGive methods.Finish (view value.now)) }
    ensures err { IfErr result (OrMemory (GiveFault methods.Finish (view value.now))) }
{
    check_object(alloc, &MOMENT, value)?;
    Ok(Give::Moment(integer_under(Key::Mod, value)))
}

/// Both new moments.
#[tactic(auto, using(crate::proofs::ReadForms::uploaded_read))]
fn read_uploaded(alloc: Global, value: &Value) -> Result<Give, WireFault>
    ensures ok { IfOk result (ReadsGive methods.Upload (view value.now)) }
    ensures err { IfErr result (OrMemory (GiveFault methods.Upload (view value.now))) }
{
    check_object(alloc, &UPLOADED, value)?;
    Ok(Give::Uploaded {
        moment: integer_under(Key::Mod, value),
        schema: integer_under(Key::Scm, value),
    })
}

/// The body of a reply: the compact text of the one value that is written for it. The status goes beside it.
#[tactic(auto, using(crate::proofs::WholeTexts::reply_whole, crate::proofs::Depths::reply_nests, crate::proofs::WholeTexts::is_json))]
pub fn write_reply(alloc: Global, reply: &Reply) -> Result<Text, Memory>
    ensures text { IfOk result (λ text. text ≡ compact_text (reply_json reply.now)) }
    ensures json { IfOk result (λ text. IsJsonOf text (reply_json reply.now)) }
{
    let value = write_reply_value(alloc, reply)?;
    write_body(alloc, &value)
}

/// The value of a reply.
fn write_reply_value(alloc: Global, reply: &Reply) -> Result<Value, Memory>
    ensures { IfOk result (λ value. view value ≡ reply_json reply.now) }
{
    if reply.status == 200 {
        return write_give(alloc, &reply.give);
    }
    let word = Value::try_from_str(alloc, word_text(reply.word))?;
    let mut members = Map::new(alloc);
    add(alloc, Key::Seen, Value::from(reply.seen), &mut members)?;
    add(alloc, Key::Word, word, &mut members)?;
    Ok(Value::Object(members))
}

/// The value of what a reply with status 200 gives.
fn write_give(alloc: Global, give: &Give) -> Result<Value, Memory>
    ensures { IfOk result (λ value. view value ≡ give_json give.now) }
{
    match give {
        Give::Nothing => Ok(Value::Object(Map::new(alloc))),
        Give::Meta(meta) => write_meta(alloc, meta),
        Give::Graves(ids) => write_graves(alloc, ids),
        Give::Changes(changes) => write_changes(alloc, changes),
        Give::Chunk(chunk) => write_chunk(alloc, chunk),
        Give::Sanity(sanity) => write_sanity(alloc, sanity),
        Give::Moment(moment) => holding(alloc, Key::Mod, Value::from(*moment)),
        Give::Uploaded { moment, schema } => write_uploaded(alloc, *moment, *schema),
        Give::Whole(whole) => write_download(alloc, whole),
    }
}

/// The object of where the server stands.
fn write_meta(alloc: Global, meta: &MetaReply) -> Result<Value, Memory>
    ensures { IfOk result (λ value. view value ≡ meta_json meta.now) }
{
    let msg = Value::try_from_str(alloc, meta.msg.as_str())?;
    let mut members = Map::new(alloc);
    add(alloc, Key::Cont, Value::Bool(meta.cont), &mut members)?;
    add(alloc, Key::Mod, Value::from(meta.moment), &mut members)?;
    add(alloc, Key::Msg, msg, &mut members)?;
    add(alloc, Key::Musn, Value::from(meta.musn), &mut members)?;
    add(alloc, Key::Scm, Value::from(meta.scm), &mut members)?;
    add(alloc, Key::Ts, Value::from(meta.ts), &mut members)?;
    add(alloc, Key::Usn, Value::from(meta.usn), &mut members)?;
    Ok(Value::Object(members))
}

/// The object of a check of counts.
fn write_sanity(alloc: Global, sanity: &SanityReply) -> Result<Value, Memory>
    ensures { IfOk result (λ value. view value ≡ sanity_json sanity.now) }
{
    if sanity.good {
        let status = Value::try_from_str(alloc, "ok")?;
        return holding(alloc, Key::Status, status);
    }
    let client = write_counts(alloc, &sanity.client)?;
    let row = write_check(alloc, sanity.fault)?;
    let server = write_counts(alloc, &sanity.server)?;
    let status = Value::try_from_str(alloc, "bad")?;
    let mut members = Map::new(alloc);
    add(alloc, Key::C, client, &mut members)?;
    add(alloc, Key::Row, row, &mut members)?;
    add(alloc, Key::S, server, &mut members)?;
    add(alloc, Key::Status, status, &mut members)?;
    Ok(Value::Object(members))
}

/// The list of the number of a fault of a collection and the id of its row, or null.
fn write_check(alloc: Global, fault: Option<CheckFault>) -> Result<Value, Memory>
    ensures { IfOk result (λ value. view value ≡ check_json fault) }
{
    match fault {
        None => Ok(Value::Null),
        Some(CheckFault::CardNoNote(id)) => write_pair(alloc, 1, id),
        Some(CheckFault::NoteNoCard(id)) => write_pair(alloc, 2, id),
        Some(CheckFault::NoteNoType(id)) => write_pair(alloc, 3, id),
        Some(CheckFault::CardNoTemplate(id)) => write_pair(alloc, 4, id),
    }
}

/// The list of two whole numbers.
fn write_pair(alloc: Global, first: i64, second: i64) -> Result<Value, Memory>
    ensures { IfOk result (λ value. view value ≡ array_of (integer first ∷ integer second ∷ [])) }
{
    let values = vec![in alloc; Value::from(first), Value::from(second)]?;
    Ok(Value::Array(values))
}

/// The object of both new moments.
fn write_uploaded(alloc: Global, moment: i64, schema: i64) -> Result<Value, Memory>
    ensures { IfOk result (λ value. view value ≡ give_json (gives.Uploaded moment schema)) }
{
    let mut members = Map::new(alloc);
    add(alloc, Key::Mod, Value::from(moment), &mut members)?;
    add(alloc, Key::Scm, Value::from(schema), &mut members)?;
    Ok(Value::Object(members))
}
