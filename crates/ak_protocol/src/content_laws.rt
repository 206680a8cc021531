// What holds of the contents of an account, whatever requests and views come: what it may hold, what its commits are,
// and that devices stay linked with it.
ghost use Rattle.std.specs.List.{AllByRecursion};
ghost use Rattle.std.specs.Prelude.{◌≡◌, ◌≤◌, ◌≤ℤ◌, ℕ, ℤ, true, List, ◌∷◌, length, None, ◌⊎◌};
ghost use Rattle.ak_io.specs.Arrivals.{IsClockMoment};
ghost use Rattle.ak_keep.specs.Collections.{Collection};
ghost use Rattle.ak_merge.specs.Commits.{Whole, IsCommitOf, IsUploadOf, IsCommitted, Received};
ghost use Rattle.ak_merge.specs.Edits.{Reversal};
ghost use Rattle.ak_merge.specs.Holdings.{row_under};
ghost use Rattle.ak_merge.specs.Joins.{joined_under};
ghost use Rattle.ak_merge.specs.Links.{AreLinked};
ghost use Rattle.ak_merge.specs.Soundness.{IsSound};
ghost use Rattle.ak_merge.specs.Undoing.{StepFits};
ghost use Rattle.ak_messages.specs.declared.replies.Reply.{Reply};
ghost use Rattle.ak_messages.specs.declared.requests.Request.{Request};
ghost use Rattle.ak_protocol.specs.Accounts.{AccountState};
ghost use Rattle.ak_protocol.specs.Commits.{
  EachNewer,
  IsMade,
  CommitsWhatCame,
  HasFreshSchema,
  CommitsSync,
};
ghost use Rattle.ak_protocol.specs.Growths.{CallGrowth, ComesFirst, GrowsFresh, world_amid, world_before};
ghost use Rattle.ak_protocol.specs.LawfulServers.{IsLawfulAccount, IsLawfulUnder, IsLawful};
ghost use Rattle.ak_protocol.specs.Logs.{
  Event,
  Commit,
  World,
  IsTimely,
  IsReplyIn,
  commit_by,
  world_after,
  server_after,
};
ghost use Rattle.ak_protocol.specs.Servers.{ServerState};
ghost use Rattle.ak_protocol.specs.Serving.{Setback, served};
ghost use Rattle.ak_protocol.specs.Sessions.{AreUndisturbed};
ghost use Rattle.ak_session.specs.Plans.{Asker, plan};
ghost use Rattle.ak_session.specs.Requests.{is_meta};
ghost use Rattle.ak_session.specs.Sessions.{MaySync, HaveRoom};

/// An account stays lawful, whatever requests, views and setbacks come, at any moments that a clock may tell: what is
/// committed is one that a server may hold. So does each account of a server, which begins as one without a session.
pub fn lawful_stays_lawful()
    ensures opening { (host : List ℕ) (c : Collection) → IsCommitted c
        → IsLawfulUnder host (record { committed = c; live = None; kept = None }) }
    ensures served { (s : AccountState) (request : Request) (now : ℤ) (setback : Setback)
        → IsClockMoment now → IsLawfulAccount s → IsLawfulAccount (served s request now setback).next }
    ensures account { (w : World) (events : List Event) → AllByRecursion IsTimely events
        → IsLawfulAccount w.state → IsLawfulAccount (world_after w events).state }
    ensures server { (server : ServerState) (events : List Event) → AllByRecursion IsTimely events
        → IsLawful server → IsLawful (server_after server events) }
{}

/// A finish commits what the requests of its session brought, all of it in its ranges, and what it leaves is sound. An
/// upload replaces what was committed, all of it in its ranges. Each commit of a log over a lawful account is one of the two.
pub fn commits_are_made()
    ensures served { (s : AccountState) (request : Request) (now : ℤ) (setback : Setback)
        → IsClockMoment now → IsLawfulAccount s → let it = served s request now setback in
        it.is_commit ≡ true → CommitsWhatCame s request it }
    ensures logs { (w : World) (events : List Event) → AllByRecursion IsTimely events
        → IsLawfulAccount w.state → EachNewer IsMade w (world_after w events) }
{}

/// A finish leaves the schema moment. An upload gives one that is fresh for each device whose own is at most the
/// server's or the upload's.
pub fn commits_give_fresh_schemas()
    ensures finish { (came : Received) (c : Collection) (commit : Commit)
        → IsCommitOf came commit.before commit.after → HasFreshSchema c commit }
    ensures upload { (came : Whole) (c : Collection) (commit : Commit)
        → IsUploadOf came commit.before commit.after
        → (c.head.schema ≤ℤ commit.before.head.schema) ⊎ (c.head.schema ≤ℤ came.schema) → HasFreshSchema c commit }
{}

/// A device that is linked with the committed collection stays linked with it, whoever asks whatever, if no upload gives
/// just its own schema moment. A schema moment of at most the server's is never given again.
pub fn links_stay()
    ensures served { (s : AccountState) (request : Request) (now : ℤ) (setback : Setback) (c : Collection)
        → let it = served s request now setback in IsCommitted s.committed
        → (it.is_commit ≡ true → HasFreshSchema c (commit_by request s it))
        → AreLinked c s.committed → AreLinked c it.next.committed }
    ensures logs { (w : World) (events : List Event) (c : Collection) → AllByRecursion IsTimely events
        → IsLawfulAccount w.state → EachNewer (HasFreshSchema c) w (world_after w events)
        → AreLinked c w.state.committed → AreLinked c (world_after w events).state.committed }
    ensures old { (w : World) (events : List Event) (c : Collection)
        → c.head.schema ≤ℤ w.state.committed.head.schema → EachNewer (HasFreshSchema c) w (world_after w events) }
{}

/// A step of an undo list that fits the committed collection still does, whoever asks whatever, if no upload gives just
/// the device's schema moment.
pub fn fits_stay()
    ensures served { (s : AccountState) (request : Request) (now : ℤ) (setback : Setback) (c : Collection)
        → (step : Reversal) → let it = served s request now setback in
        (it.is_commit ≡ true → HasFreshSchema c (commit_by request s it))
        → StepFits c step s.committed → StepFits c step it.next.committed }
    ensures logs { (w : World) (events : List Event) (c : Collection) (step : Reversal)
        → EachNewer (HasFreshSchema c) w (world_after w events)
        → StepFits c step w.state.committed → StepFits c step (world_after w events).state.committed }
{}

/// At each place of what comes while a call is under way the account is lawful, and a device that was linked with it
/// before the call is linked with it; a step of its undo list that fitted before fits. So a device is linked with what is
/// committed at the place of the reply: with the collection that its meta tells.
pub fn growths_keep_links()
    ensures lawful { (call : CallGrowth) (front : List Event) → ComesFirst front call
        → IsLawfulAccount (world_amid call front).state }
    ensures linked { (call : CallGrowth) (front : List Event) (c : Collection) → ComesFirst front call
        → GrowsFresh c call → AreLinked c (world_before call).state.committed
        → AreLinked c (world_amid call front).state.committed }
    ensures fits { (call : CallGrowth) (front : List Event) (c : Collection) (step : Reversal) → ComesFirst front call
        → GrowsFresh c call → StepFits c step (world_before call).state.committed
        → StepFits c step (world_amid call front).state.committed }
    ensures told { (call : CallGrowth) (reply : Reply) (c : Collection)
        → GrowsFresh c call → AreLinked c (world_before call).state.committed
        → (place : IsReplyIn call.old call.growth call.request reply)
        → AreLinked c (world_amid call place.before).state.committed }
{}

/// If nothing comes in between of the requests of a sync, each once or several times in a row, and no setback, its finish
/// commits the join: for a device that is linked with the server, if the join is sound and no usn
/// is at its last value.
pub fn undisturbed_syncs_commit()
    ensures { (who : Asker) (c : Collection) (w : World) (meta : Request) (events : List Event)
        → MaySync c w.state.committed → HaveRoom c w.state.committed
        → IsSound (joined_under (row_under c) (row_under w.state.committed))
        → length (plan who c w.state.committed) ≤ 9_223_372_036_854_775_807
        → is_meta meta.ask ≡ true → meta.session ≡ who.session
        → AreUndisturbed (meta ∷ plan who c w.state.committed) events
        → CommitsSync who c w (world_after w events) }
{}
