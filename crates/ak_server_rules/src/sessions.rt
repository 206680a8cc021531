// What is remembered of a session and of a reply, as requests come. It takes no memory, but for the copy of a reply
// that is not a finish's.
ghost use Rattle.std.specs.Prelude.{◌≡◌, ◌+◌, ◌<◌, true, if◌then◌else◌, IfOk, IsOk};
ghost use Rattle.ak_keep.specs.Collections.{Collection};
ghost use Rattle.ak_merge.specs.Commits.{with_received};
ghost use Rattle.ak_messages.specs.MessageForms.{is_given_to};
ghost use Rattle.ak_messages.specs.declared.methods.Method.TheVariants as methods;
ghost use Rattle.ak_protocol.specs.Accounts.{is_repeat};
ghost use Rattle.ak_protocol.specs.Serving.{kept_of};
ghost use Rattle.ak_server_rules.specs.Sessions.{IsCounted, first_place, kept_seen, session_seen};
ghost use Rattle.ak_server_rules.specs.Serving.{opened};
ghost use Rattle.ak_server_rules.specs.Summaries.{told_moment, told_usn, with_request};
ghost use Rattle.ak_session.specs.Asks.{brought};
ghost use Rattle.ak_session.specs.Requests.{is_download, method_place, same_method};

use ak_base::{Memory, Name, Table};
use ak_messages::{Ask, Method, Reply, Request};
use ak_sync_rows::asked_method;

/// What is remembered of a live session, apart from its tables.
#[derive(Clone, Copy, Debug)]
pub struct Session {
    pub key: u64,
    /// The step of the request that it accepted last; that of its meta is 0.
    pub last: u64,
    /// The method of that request.
    pub method: Method,
    /// Whether that request was a chunk after which no more come in its direction.
    pub done: bool,
    pub chunks: u64,
    /// The usn from which on it is given rows.
    pub least_usn: i64,
    /// The moment of the device's last change, in milliseconds.
    pub moment: i64,
    /// The last row that a chunk gave; the next one begins after it.
    pub given: Name,
}

/// The reply to the request that was accepted last, which is given again if that request is repeated.
#[derive(Debug, Drop)]
pub struct Kept {
    pub key: u64,
    pub step: u64,
    pub method: Method,
    /// None for a download, which reads the committed collection again.
    pub reply: Option<Reply>,
}

impl Session {
    /// A session of this key that accepted nothing but its meta.
    pub fn begun(key: u64) -> Session
        ensures summary { (committed : Collection) → session_seen committed result ≡ opened committed key }
        ensures given { result.given ≡ first_place }
    {
        Session {
            key,
            last: 0,
            method: Method::Meta,
            done: false,
            chunks: 0,
            least_usn: 0,
            moment: 0,
            given: Name {
                table: Table::Review,
                id: 0,
            },
        }
    }

    /// The session once it accepted one request more, with whether that was a last chunk, and where the next one begins.
    pub fn with(&self, ask: &Ask, done: bool, given: Name) -> Session
        requires counted { IsCounted self.now }
        requires room { self.now.last < 9_223_372_036_854_775_807 }
        ensures summary { (tables : Collection) → session_seen (with_received (brought ask.now) tables) result
            ≡ record (with_request (session_seen tables self.now) ask.now) { done = done } }
        ensures given { result.given ≡ given }
    {
        let method = asked_method(ask);
        Session {
            key: self.key,
            last: self.last + 1,
            method,
            done,
            chunks: chunks_after(self.chunks, method),
            least_usn: if self.last == 0 {
                told_usn(ask)
            } else {
                self.least_usn
            },
            moment: if self.last == 0 {
                told_moment(ask)
            } else {
                self.moment
            },
            given,
        }
    }
}

/// The number of chunks once a request of this method was accepted.
fn chunks_after(chunks: u64, method: Method) -> u64
    requires { chunks < 9_223_372_036_854_775_807 }
    ensures { result ≡ (if same_method method methods.Chunk then chunks + 1 else chunks) }
{
    match method {
        Method::Chunk => chunks + 1,
        _ => chunks,
    }
}

/// The usn that a first request tells.
fn told_usn(ask: &Ask) -> i64
    ensures { result ≡ told_usn ask.now }
{
    match ask {
        Ask::Start { min_usn, .. } => *min_usn,
        _ => 0,
    }
}

/// The moment that a first request tells.
fn told_moment(ask: &Ask) -> i64
    ensures { result ≡ told_moment ask.now }
{
    match ask {
        Ask::Start { lmod, .. } => *lmod,
        _ => 0,
    }
}

impl Kept {
    /// The reply to a request as it is kept: none for a download. To keep what a finish is given takes no memory.
    pub fn of(request: &Request, reply: &Reply) -> Result<Kept, Memory>
        ensures kept { IfOk result (λ kept. kept_seen kept ≡ kept_of request.now reply.now) }
        ensures spares { is_given_to methods.Finish reply.now.give ≡ true → IsOk result }
    {
        let reply = if is_download(&request.ask) {
            None
        } else {
            Some(reply.copy()?)
        };
        Ok(Kept {
            key: request.session.0,
            step: request.step,
            method: asked_method(&request.ask),
            reply,
        })
    }

    /// Whether the request is a repeat: it has the session key, step and method of this reply.
    pub fn is_of(&self, request: &Request) -> bool
        ensures { result ≡ is_repeat (kept_seen self.now) request.now }
    {
        self.key == request.session.0
            && self.step == request.step
            && method_place(self.method) == method_place(asked_method(&request.ask))
    }
}

/// Whether the whole collection is asked for.
fn is_download(ask: &Ask) -> bool
    ensures { result ≡ is_download ask.now }
{
    matches!(ask, Ask::Download)
}

/// The place of a method in the order in which they are listed.
fn method_place(method: Method) -> u8
    ensures { result ≡ method_place method }
{
    match method {
        Method::Meta => 0,
        Method::Start => 1,
        Method::ApplyGraves => 2,
        Method::ApplyChanges => 3,
        Method::Chunk => 4,
        Method::ApplyChunk => 5,
        Method::SanityCheck2 => 6,
        Method::Finish => 7,
        Method::Upload => 8,
        Method::Download => 9,
    }
}
