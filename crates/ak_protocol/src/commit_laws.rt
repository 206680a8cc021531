// What a committed collection goes through.
ghost use Rattle.std.specs.Prelude.{◌≡◌, ℕ, ℤ, List, ◌++◌};
ghost use Rattle.ak_messages.specs.declared.requests.Request.{Request};
ghost use Rattle.ak_protocol.specs.Accounts.{AccountState};
ghost use Rattle.ak_protocol.specs.Logs.{Event, Commit, World, opened, world_after, commits_of};
ghost use Rattle.ak_protocol.specs.Serving.{Setback, served};
ghost use Rattle.ak_protocol.specs.Commits.{OnlyCommits, Leads, CommitsGrow};

/// Only a finish and an upload that are next of the live session change the committed collection, each to what the
/// session's requests make of it, which was changed later, whatever setback comes.
pub fn only_commits_change()
    ensures { (s : AccountState) (request : Request) (now : ℤ) (setback : Setback)
        → OnlyCommits s request now (served s request now setback) }
{}

/// After any requests and views the committed collection is what the last commit made of it. Each commit was over
/// what the one before it made.
pub fn commits_lead()
    ensures { (s : AccountState) (events : List Event) → let w = world_after (opened s) events in
        Leads s.committed w.commits w.state.committed }
{}

/// From any place of a log on, newer commits lead from the collection that was committed there to the one that is
/// committed in the end, and those before them stay.
pub fn commits_lead_on()
    ensures { (w : World) (events : List Event) → CommitsGrow w (world_after w events) }
{}

/// The commits of a session stay, whatever requests and views come after them.
pub fn commits_stay()
    ensures { (key : ℕ) (w : World) (events : List Event) → (newer : List Commit)
        × (commits_of key (world_after w events).commits ≡ newer ++ commits_of key w.commits) }
{}
