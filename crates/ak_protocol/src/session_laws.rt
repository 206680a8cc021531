// What a server holds of a sync, whatever else came to it.
ghost use Rattle.std.specs.Prelude.{◌≡◌, ℕ, ℤ, List, ◌++◌, Some, None};
ghost use Rattle.std.specs.List.{AllByRecursion};
ghost use Rattle.ak_messages.specs.declared.requests.Request.{Request};
ghost use Rattle.ak_protocol.specs.Accounts.{SessionState, AccountState, repeated};
ghost use Rattle.ak_protocol.specs.Kept.{IsDone, HasPastReply};
ghost use Rattle.ak_protocol.specs.Lawful.{IsNext, AreAccepted, HasLawfulSession};
ghost use Rattle.ak_protocol.specs.Logs.{Event, World, world_after};
ghost use Rattle.ak_protocol.specs.Serving.{Undisturbed, served};
ghost use Rattle.ak_protocol.specs.Sessions.{
  IsFresh,
  IsMetaOrOther,
  SyncComes,
  HoldsSync,
  AreUndisturbed,
  HasAcceptedMore,
};

/// While no request with a session key comes but metas, its session has accepted nothing, no reply to it is kept,
/// and it commits nothing.
pub fn keys_stay_fresh()
    ensures { (key : ℕ) (w : World) (events : List Event)
        → IsFresh key w → AllByRecursion (IsMetaOrOther key) events
        → IsFresh key (world_after w events) }
{}

/// A sync's session, also one that its requests revived when they came again, holds a front of what the sync asked, in
/// order and each once, over the collection that was committed where its meta was answered. The sync commits at
/// most once, over that collection too. Any requests with other session keys, views and setbacks may come in
/// between, and those of the sync any number of times.
pub fn sessions_hold_fronts()
    ensures { (key : ℕ) (plan : List Request) (w : World) (first later : List Event) → SyncComes key plan w first later
        → let met = world_after w first in HoldsSync key plan met.state.committed (world_after met later) }
{}

/// The list of an account's live session stays one that a session over its committed collection accepts, whatever
/// requests and views come.
pub fn sessions_stay_lawful()
    ensures { (w : World) (events : List Event) → HasLawfulSession w.state
        → HasLawfulSession (world_after w events).state }
{}

/// A request that is next of the live session, over the committed moment, and that its session has no reason to
/// refuse, is done if no setback comes and it is no repeat.
pub fn next_is_done()
    ensures { (s : AccountState) (session : SessionState) (request : Request) (now : ℤ)
        → IsNext s session request → repeated s.kept request ≡ None
        → IsDone s session request now (served s request now Undisturbed) }
{}

/// Whatever requests and views come, the kept reply is of a step that its session has had.
pub fn replies_are_past()
    ensures { (w : World) (events : List Event) → HasPastReply w.state → HasPastReply (world_after w events).state }
{}

/// So the next request of the live session is no repeat.
pub fn next_is_no_repeat()
    ensures { (s : AccountState) (session : SessionState) (request : Request)
        → HasPastReply s → IsNext s session request → repeated s.kept request ≡ None }
{}

/// Requests that the live session accepts one after the other are all added to it, each once, however often it comes in a
/// row, if nothing else comes and there is no setback. Nothing is committed.
pub fn undisturbed_sessions_go_on()
    ensures { (w : World) (session : SessionState) (requests : List Request) (events : List Event)
        → HasPastReply w.state → w.state.live ≡ Some session
        → AreAccepted session.key w.state.committed (session.accepted ++ requests)
        → AreUndisturbed requests events → HasAcceptedMore session requests w (world_after w events) }
{}
