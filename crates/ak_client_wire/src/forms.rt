// The forms of what is given. The tests take no memory.
ghost use Rattle.std.specs.Prelude.{◌≡◌, ◌++◌, true, if◌then◌else◌, Option, Some, None};
ghost use Rattle.std.specs.List.{list_all};
ghost use Rattle.std.specs.Option.{option_map_or};
ghost use Rattle.ak_client_wire.specs.Forms.{changes_in, chunk_in, graves_in, is_chunk_in_form, is_meta_in_range, is_moment, meta_in, meta_told, moment_in, nothing_in, sanity_in, shows_cause, verdict_in};
ghost use Rattle.ak_merge.specs.Soundness.{fault_id};
ghost use Rattle.ak_messages.specs.declared.replies.Give.{Give as Given};
ghost use Rattle.ak_session.specs.Refusals.{are_changes_in_range, is_id};

use crate::wires::MetaSaid;
use ak_base::{LAST_HEAD_USN, LAST_MOMENT, is_within};
use ak_merge::CheckFault;
use ak_messages::{Changes, Chunk, Give, GraveIds, MOST_ENTRIES, MetaReply, SanityReply};
use ak_sync_rows::{
    are_changes_in_range, are_graves_in_range, are_rows_checked, is_id, same_counts,
};

/// What is given, read by the form that the method of a request has.
pub trait Form {
    /// The part of what is given that has this form.
    ghost found_in: { Given → Option Self };

    /// Reads it: none, if what is given has another form or is out of its ranges. It takes no memory.
    fn read(give: Give) -> Option<Self>
        ensures { result ≡ found_in give };
}

/// What a meta says.
impl Form for MetaSaid {
    ghost found_in = { meta_in };

    fn read(give: Give) -> Option<MetaSaid> {
        meta_in(&give)
    }
}

/// The ids of the graves that a start is given, each of a row.
impl Form for GraveIds {
    ghost found_in = { graves_in };

    fn read(give: Give) -> Option<GraveIds> {
        match give {
            Give::Graves(ids) => ranged_graves(ids),
            _other => None,
        }
    }
}

/// Nothing: what graves and a chunk that are sent are given.
impl Form for () {
    ghost found_in = { nothing_in };

    fn read(give: Give) -> Option<()> {
        match give {
            Give::Nothing => Some(()),
            _other => None,
        }
    }
}

/// Changes, all of which are in their ranges.
impl Form for Changes {
    ghost found_in = { changes_in };

    fn read(give: Give) -> Option<Changes> {
        match give {
            Give::Changes(changes) => ranged_changes(changes),
            _other => None,
        }
    }
}

/// A chunk of at most 250 rows, each of which passes its check, that is done if it has none.
impl Form for Chunk {
    ghost found_in = { chunk_in };

    fn read(give: Give) -> Option<Chunk> {
        match give {
            Give::Chunk(chunk) => formed_chunk(chunk),
            _other => None,
        }
    }
}

/// The reply to a sanity check: one that is not good shows a fault or two counts that differ.
impl Form for SanityReply {
    ghost found_in = { verdict_in };

    fn read(give: Give) -> Option<SanityReply> {
        let reply = sanity_in(&give)?;
        if shows_cause(&reply) {
            return Some(reply);
        }
        None
    }
}

/// The moment of a commit, in milliseconds: what a finish is given.
impl Form for i64 {
    ghost found_in = { moment_in };

    fn read(give: Give) -> Option<i64> {
        match give {
            Give::Moment(moment) if is_moment(moment) => Some(moment),
            _other => None,
        }
    }
}

/// What the reply to a meta says, if both moments and the usn are in their ranges.
pub(crate) fn meta_in(give: &Give) -> Option<MetaSaid>
    ensures { result ≡ meta_in give.now }
{
    match give {
        Give::Meta(meta) if is_meta_in_range(meta) => Some(meta_told(meta)),
        _ => None,
    }
}

/// Whether both moments and the usn of a meta are in the ranges of a head.
fn is_meta_in_range(meta: &MetaReply) -> bool
    ensures { result ≡ is_meta_in_range meta.now }
{
    is_moment(meta.scm) && is_moment(meta.moment) && is_within(meta.usn, 0, LAST_HEAD_USN)
}

/// What a meta says of the server.
fn meta_told(meta: &MetaReply) -> MetaSaid
    ensures { result ≡ meta_told meta.now }
{
    MetaSaid {
        cont: meta.cont,
        ts: meta.ts,
        moment: meta.moment,
        scm: meta.scm,
        usn: meta.usn,
    }
}

/// These ids, if each is one of a row.
fn ranged_graves(ids: GraveIds) -> Option<GraveIds>
    ensures { result ≡ (if list_all is_id (ids.cards ++ (ids.notes ++ ids.decks)) then Some ids else None) }
{
    if are_graves_in_range(&ids) {
        return Some(ids);
    }
    None
}

/// These changes, if all of them are in their ranges.
fn ranged_changes(changes: Changes) -> Option<Changes>
    ensures { result ≡ (if are_changes_in_range changes then Some changes else None) }
{
    if are_changes_in_range(&changes) {
        return Some(changes);
    }
    None
}

/// This chunk, if it has its form.
fn formed_chunk(chunk: Chunk) -> Option<Chunk>
    ensures { result ≡ (if is_chunk_in_form chunk then Some chunk else None) }
{
    if is_chunk_in_form(&chunk) {
        return Some(chunk);
    }
    None
}

/// The reply to a sanity check, if its fault, where it has one, names an id of a row.
pub(crate) fn sanity_in(give: &Give) -> Option<SanityReply>
    ensures { result ≡ sanity_in give.now }
{
    match give {
        Give::Sanity(reply) if is_fault_in_range(&reply.fault) => Some(reply.copy()),
        _ => None,
    }
}

/// Whether a chunk has at most 250 rows, each of which passes its check, and is done if it has none.
fn is_chunk_in_form(chunk: &Chunk) -> bool
    ensures { result ≡ is_chunk_in_form chunk.now }
{
    chunk.entries() <= MOST_ENTRIES
        && are_rows_checked(chunk)
        && (chunk.done || 0 < chunk.entries())
}

/// Whether the fault, if there is one, names an id of a row.
fn is_fault_in_range(fault: &Option<CheckFault>) -> bool
    ensures { result ≡ option_map_or (λ fault. is_id (fault_id fault)) fault.now true }
{
    match fault {
        Some(fault) => is_id(fault_id(fault)),
        None => true,
    }
}

/// The id of the row that a fault names.
fn fault_id(fault: &CheckFault) -> i64
    ensures { result ≡ fault_id fault.now }
{
    match fault {
        CheckFault::CardNoNote(id) => *id,
        CheckFault::NoteNoCard(id) => *id,
        CheckFault::NoteNoType(id) => *id,
        CheckFault::CardNoTemplate(id) => *id,
    }
}

/// Whether a reply to a sanity check is good, or shows a fault or two counts that differ.
fn shows_cause(reply: &SanityReply) -> bool
    ensures { result ≡ shows_cause reply.now }
{
    reply.good || reply.fault.is_some() || !same_counts(reply.client, reply.server)
}

/// Whether this is a moment, in milliseconds.
pub fn is_moment(moment: i64) -> bool
    ensures { result ≡ is_moment moment }
{
    is_within(moment, 0, LAST_MOMENT)
}
