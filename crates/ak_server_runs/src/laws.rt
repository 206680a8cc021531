// What holds of links that are served one after another, apart from the program.
ghost use Rattle.std.specs.Prelude.{◌≡◌, ℕ, ◌+◌, ◌-◌, ◌^◌, ◌≤◌, min, Bool, List, [], Option};
ghost use Rattle.clap.specs.Walk.{Text};
ghost use Rattle.ak_account_keepers.specs.OpenedAccounts.{Service};
ghost use Rattle.ak_server.specs.Accounts.{account_at};
ghost use Rattle.ak_server_runs.specs.Failures.{failures_in, faults_at};
ghost use Rattle.ak_server_runs.specs.OneRun.{AllLackKey, RunsOnce, TellAll};
ghost use Rattle.ak_server_runs.specs.ServedDoors.{ServesTurns, Turn, Views};
ghost use Rattle.ak_server_runs.specs.ServerRuns.{ServesAll, Surroundings};

/// A whole run over keepers that tell their collections is one run of the protocol: the events are what the links ask, in the order in
/// which they came, at the moments that the clock gives, and the replies of the protocol to them are written to the links.
pub fn runs_are_one_run<L, K>()
    ensures { (views : Views L K) (words : List Text) (text : Option (List ℕ)) (before after : Surroundings L K) (done : Bool)
        (serves : ServesAll views words text before after done)
        → TellAll views.keeping serves.opens.listed before.keepers after.keepers before.service serves.opened serves.opens.opens
        → before.service.accounts ≡ [] → RunsOnce views serves.serves.turns serves.opened after.service }
{}

/// An account whose host key is carried by no link, if the links tell their bytes, is as it was before the first of them.
pub fn unnamed_accounts_stay<L, K>()
    ensures { (views : Views L K) (host : List ℕ) (turns : List (Turn L)) (before after : Service K)
        → ServesTurns views turns before after → AllLackKey views host turns
        → account_at host after.accounts ≡ account_at host before.accounts }
{}

/// No more replies to an account tell that its keeper failed, by the status 503, than `Server::faults` then says of it. The count
/// stays at the last `u64`.
pub fn failures_are_counted<L, K>()
    ensures { (views : Views L K) (host : List ℕ) (turns : List (Turn L)) (before after : Service K)
        (served : ServesTurns views turns before after)
        → min (faults_at views.health (account_at host before.accounts) + failures_in views host turns before after served) (2 ^ 64 - 1)
        ≤ faults_at views.health (account_at host after.accounts) }
{}
