// What becomes of the reply that an account keeps, and where a reply that grants comes from.
ghost use Rattle.std.specs.Prelude.{◌≡◌, ◌≢◌, ℕ, ℤ, List};
ghost use Rattle.ak_messages.specs.declared.requests.Request.{Request};
ghost use Rattle.ak_protocol.specs.Accounts.{AccountState};
ghost use Rattle.ak_protocol.specs.Kept.{LeavesReply, AreIdle, IsEarned, EndsSession, HasLawfulReply};
ghost use Rattle.ak_protocol.specs.Logs.{Event, View, World, world_next, world_after};
ghost use Rattle.ak_protocol.specs.Serving.{Setback, Undisturbed, served};

/// The kept reply stays, unless a meta comes, after which none is kept, or a request is accepted, whose reply is kept.
/// Views, setbacks, refusals and repeats leave it.
pub fn replies_stay()
    ensures { (w : World) (event : Event) → LeavesReply w event }
{}

/// Over any views, setbacks, repeats and refusals the kept reply stays, so that its request may be asked again.
pub fn idle_events_keep_replies()
    ensures { (w : World) (events : List Event) → AreIdle w events
        → (world_after w events).state.kept ≡ w.state.kept }
{}

/// A reply that grants a request is that of a meta, or the kept reply of its session key, step and method, or that of
/// the next request of the live session.
pub fn grants_are_earned()
    ensures { (s : AccountState) (request : Request) (now : ℤ) (setback : Setback)
        → let it = served s request now setback in it.reply.status ≡ 200 → IsEarned s request it }
{}

/// A view ends the session, and changes nothing that is committed.
pub fn views_end_sessions()
    ensures { (w : World) (host : List ℕ) → EndsSession w.state (world_next w (View host)).state }
{}

/// A setback ends the session, and changes nothing that is committed.
pub fn setbacks_end_sessions()
    ensures { (s : AccountState) (request : Request) (now : ℤ) (setback : Setback) → setback ≢ Undisturbed
        → EndsSession s (served s request now setback).next }
{}

/// Whatever requests and views come, the kept reply grants what was asked, and it alone of a download holds no reply.
pub fn kept_replies_stay_lawful()
    ensures { (w : World) (events : List Event) → HasLawfulReply w.state → HasLawfulReply (world_after w events).state }
{}
