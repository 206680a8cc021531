// Whether an account accepts a request: the tests in their order. They ask no keeper.
ghost use Rattle.std.specs.Prelude.{◌≡◌, ◌≤◌, ◌==◌, true, false, is_some, Some, None, IfSome, IfOk, IsOk};
ghost use Rattle.std.specs.Option.{option_map};
ghost use Rattle.std.specs.Ordering.{int_eq};
ghost use Rattle.ak_keep.specs.Collections.{Collection};
ghost use Rattle.ak_keep.specs.HeadNumbers.{numbered};
ghost use Rattle.ak_protocol.specs.Replies.{declined, objected, refused};
ghost use Rattle.ak_server_rules.specs.Sessions.{IsCounted, session_seen};
ghost use Rattle.ak_server_rules.specs.Decisions.{declined_so, objection_in, refusal_in, refusal_of};
ghost use Rattle.ak_server_rules.specs.Serving.{has_next_step, objection_to, session_of};
ghost use Rattle.ak_session.specs.Requests.{is_upload};

use crate::objections::{
    Cause, may_follow, objection_to_changes, objection_to_chunk, objection_to_graves,
    objection_to_start, objection_to_upload,
};
use crate::sessions::Session;
use ak_base::Memory;
use ak_keep::Numbers;
use ak_messages::{Ask, Request, Word};
use ak_sync_rows::asked_method;

/// The last step of a session.
const LAST_STEP: u64 = 9_223_372_036_854_775_807;

/// What the reply to a refused request says: it gives nothing.
#[derive(Clone, Copy, Debug)]
pub struct Declined {
    pub status: u16,
    pub word: Word,
    pub seen: i64,
}

/// Why an account whose committed head has these numbers, with this live session, refuses a request that is no meta and
/// no repeat, if it does. Only the test of an upload's names takes memory.
pub fn refusal_of(
    held: &Numbers,
    live: &Option<Session>,
    request: &Request,
) -> Result<Option<Declined>, Memory>
    requires counted { IfSome live.now IsCounted }
    ensures why { (c : Collection) (tables : Collection) → IfOk result (λ why. option_map declined_so why
        ≡ option_map refused (refusal_of (numbered held.now c) (option_map (session_seen tables) live.now) request.now)) }
    ensures live { IfOk result (λ why. why ≡ None → is_some live.now ≡ true) }
    ensures spares { is_upload request.now.ask ≡ false → IsOk result }
{
    if !is_over(held, request) {
        return Ok(Some(decline(409, Word::Base, held.moment)));
    }
    match live {
        Some(live) => refusal_in(held, live, request),
        None => Ok(Some(decline(409, Word::NoSession, 0))),
    }
}

/// Whether the request is over the committed collection with these numbers.
fn is_over(held: &Numbers, request: &Request) -> bool
    ensures { result ≡ int_eq request.now.base held.now.moment }
{
    request.base == held.moment
}

/// Why a request over the committed collection is refused while this session is live.
fn refusal_in(held: &Numbers, live: &Session, request: &Request) -> Result<Option<Declined>, Memory>
    requires counted { IsCounted live.now }
    ensures why { (c : Collection) (tables : Collection) → IfOk result (λ why. option_map declined_so why
        ≡ option_map refused (refusal_in (numbered held.now c) (session_of (Some (session_seen tables live.now)) request.now) request.now)) }
    ensures spares { is_upload request.now.ask ≡ false → IsOk result }
{
    if !has_key_of(live, request) {
        return Ok(Some(decline(409, Word::NoSession, 0)));
    }
    if !has_next_step(live, request) {
        // A wrong step has the reply of a method that may not come.
        return Ok(Some(declined_for(Cause::Method, live.last, held)));
    }
    match objection_to(held, live, &request.ask)? {
        Some(cause) => Ok(Some(declined_for(cause, live.last, held))),
        None => Ok(None),
    }
}

/// Whether the session has the request's session key.
fn has_key_of(live: &Session, request: &Request) -> bool
    ensures { result ≡ (live.now.key == request.now.session.0) }
{
    live.key == request.session.0
}

/// Whether the request has the session's next step.
fn has_next_step(live: &Session, request: &Request) -> bool
    requires counted { IsCounted live.now }
    ensures { (tables : Collection) → result ≡ has_next_step (session_seen tables live.now) request.now }
{
    request.step == live.last + 1 && request.step <= LAST_STEP
}

/// Why the session refuses what is asked, if it does.
fn objection_to(held: &Numbers, live: &Session, ask: &Ask) -> Result<Option<Cause>, Memory>
    ensures why { (c : Collection) (tables : Collection) → IfOk result (λ why. option_map objection_in why
        ≡ objection_to (numbered held.now c) (session_seen tables live.now) ask.now) }
    ensures spares { is_upload ask.now ≡ false → IsOk result }
{
    if !may_follow(live, asked_method(ask)) {
        return Ok(Some(Cause::Method));
    }
    match ask {
        Ask::Start { min_usn, lmod } => Ok(objection_to_start(held, min_usn, lmod)),
        Ask::ApplyGraves(ids) => Ok(objection_to_graves(ids)),
        Ask::ApplyChanges(changes) => Ok(objection_to_changes(held.moment < live.moment, changes)),
        Ask::ApplyChunk(chunk) => Ok(objection_to_chunk(chunk)),
        Ask::Upload(whole) => objection_to_upload(held, whole),
        Ask::Meta | Ask::Chunk | Ask::SanityCheck2(_) | Ask::Finish | Ask::Download => Ok(None),
    }
}

/// What the reply says of this cause, after this last step and over a committed collection with these numbers.
fn declined_for(cause: Cause, last: u64, held: &Numbers) -> Declined
    requires { last ≤ 9_223_372_036_854_775_807 }
    ensures { declined_so result ≡ objected (objection_in cause) last held.now.usn }
{
    match cause {
        Cause::Method => decline(409, Word::Step, last as i64),
        Cause::Usn => decline(409, Word::Usn, held.usn),
        Cause::Sequence => decline(409, Word::Sequence, held.usn),
        Cause::Rows => decline(400, Word::Rows, 0),
        Cause::Row => decline(400, Word::Row, 0),
        Cause::Newer => decline(400, Word::Newer, 0),
    }
}

/// What a reply that gives nothing says.
fn decline(status: u16, word: Word, seen: i64) -> Declined
    ensures { declined_so result ≡ declined status word seen }
{
    Declined { status, word, seen }
}
