// What a client knows of its wire's log, from call to call, and what a reply tells it.
ghost use Rattle.std.specs.Prelude.{◌≡◌, ℕ, List, [], ◌++◌, true, false, None};
ghost use Rattle.std.specs.List.{AllByRecursion};
ghost use Rattle.ak_keep.specs.Collections.{Collection};
ghost use Rattle.ak_messages.specs.declared.replies.Reply.{Reply};
ghost use Rattle.ak_messages.specs.declared.requests.Request.{Request};
ghost use Rattle.ak_protocol.specs.Accounts.{AccountState};
ghost use Rattle.ak_protocol.specs.Logs.{
  Event,
  Log,
  IsGrowth,
  IsReplyIn,
  with_growth,
  events_of,
  commits_of,
};
ghost use Rattle.ak_protocol.specs.Replies.{unknown_key};
ghost use Rattle.ak_session.specs.Requests.{is_meta};
ghost use Rattle.ak_protocol.specs.Sessions.{
  IsAsked,
  IsOfSync,
  IsMetaOrOther,
  IsOwnOrOther,
  HoldsSync,
  Tells,
};
ghost use Rattle.ak_protocol.specs.Syncs.{IsUnused, IsUnderWay, IsOpened, world_of};

/// However often a meta comes, and whether it is answered or not, its session key stays unused.
pub fn metas_leave_unused()
    ensures { (request : Request) (s : AccountState) (old : Log) (growth : List Event) → IsGrowth old request growth
        → IsUnused request.host.digits request.session.0 s old → is_meta request.ask ≡ true
        → IsUnused request.host.digits request.session.0 s (with_growth old growth) }
{}

/// A granted meta tells the committed collection of the place where it was answered. From there on its sync is
/// under way, over what was committed at the place of that reply.
pub fn metas_open_syncs()
    ensures opens { (request : Request) (s : AccountState) (old : Log) (growth : List Event)
        → IsGrowth old request growth
        → IsUnused request.host.digits request.session.0 s old → is_meta request.ask ≡ true
        → (reply : Reply) → IsReplyIn old growth request reply → reply.status ≡ 200
        → IsOpened request s (with_growth old growth) reply }
    ensures base { (request : Request) (s : AccountState) (old : Log) (growth : List Event)
        → IsGrowth old request growth
        → IsUnused request.host.digits request.session.0 s old → is_meta request.ask ≡ true
        → (reply : Reply) → (place : IsReplyIn old growth request reply) → reply.status ≡ 200
        → (it : IsOpened request s (with_growth old growth) reply)
        × (it.base ≡ (world_of request.host.digits s (with_growth old place.before)).state.committed) }
{}

/// A sync that is under way may go on to ask more.
pub fn syncs_ask_more()
    ensures { (host : List ℕ) (key : ℕ) (plan more : List Request) (base : Collection) (s : AccountState) (log : Log)
        → IsUnderWay host key plan base s log → IsUnderWay host key (plan ++ more) base s log }
{}

/// However often a request of a sync comes, and whether it is answered or not, the sync stays under way.
pub fn calls_keep_syncs()
    ensures { (request : Request) (s : AccountState) (old : Log) (growth : List Event) → IsGrowth old request growth
        → (plan : List Request) (base : Collection) → IsUnderWay request.host.digits request.session.0 plan base s old
        → IsOfSync plan base.head.moment request
        → IsUnderWay request.host.digits request.session.0 plan base s (with_growth old growth) }
{}

/// A sync stays under way whatever else comes later, as long as nothing but its own requests has its session key.
pub fn events_keep_syncs()
    ensures { (host : List ℕ) (key : ℕ) (plan : List Request) (base : Collection) (s : AccountState) (log : Log)
        → IsUnderWay host key plan base s log
        → (more : List Event) → AllByRecursion (IsOwnOrOther key plan base.head.moment) (events_of host more)
        → IsUnderWay host key plan base s (with_growth log more) }
{}

/// A reply that grants a request of a sync tells the same wherever in the growth of the log it comes from: the first
/// serving, a repeat, or a session that was revived. A download tells what was committed at its place, a finish and an
/// upload their one commit, which stands at the end of the growth.
pub fn calls_tell()
    ensures { (request : Request) (s : AccountState) (old : Log) (growth : List Event) → IsGrowth old request growth
        → (plan : List Request) (base : Collection) → IsUnderWay request.host.digits request.session.0 plan base s old
        → (asked : IsAsked plan base.head.moment request) → is_meta request.ask ≡ false
        → (reply : Reply) → (place : IsReplyIn old growth request reply) → reply.status ≡ 200
        → Tells request.session.0 plan base request asked
        (world_of request.host.digits s (with_growth old place.before)).state.committed
        (world_of request.host.digits s (with_growth old growth)).commits reply }
{}

/// While a sync is under way, what the server holds of it is a front of what it asked, and it commits at most once.
pub fn syncs_are_held()
    ensures { (host : List ℕ) (key : ℕ) (plan : List Request) (base : Collection) (s : AccountState) (log : Log)
        → IsUnderWay host key plan base s log → HoldsSync key plan base (world_of host s log) }
{}

/// A session key that only metas bear stays unused, whatever comes of other accounts and other sessions.
pub fn events_leave_unused()
    ensures { (host : List ℕ) (key : ℕ) (s : AccountState) (log : Log) → IsUnused host key s log
        → (more : List Event) → AllByRecursion (IsMetaOrOther key) (events_of host more)
        → IsUnused host key s (with_growth log more) }
{}

/// A session key that is unused committed nothing.
pub fn unused_keys_commit_nothing()
    ensures { (host : List ℕ) (key : ℕ) (s : AccountState) (log : Log) → IsUnused host key s log
        → commits_of key (world_of host s log).commits ≡ [] }
{}

/// A request that is tried again makes of the log what one call may make of it.
pub fn tries_are_one_growth()
    ensures { (request : Request) (old : Log) (growth more : List Event)
        → IsGrowth old request growth → IsGrowth (with_growth old growth) request more
        → IsGrowth old request (growth ++ more) }
{}

/// The reply to a request that is tried again is one that the first call may give.
pub fn tries_reply()
    ensures { (request : Request) (old : Log) (growth more : List Event) (reply : Reply)
        → IsReplyIn (with_growth old growth) more request reply → IsReplyIn old (growth ++ more) request reply }
{}

/// If a host key is no account's of the server to which a wire leads, each reply says so.
pub fn unknown_keys_are_told()
    ensures { (request : Request) (old : Log) (growth : List Event) (reply : Reply)
        → old.opening request.host.digits ≡ None → IsReplyIn old growth request reply → reply ≡ unknown_key }
{}
