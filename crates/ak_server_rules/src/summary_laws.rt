// What is remembered of an account in place of its session's requests is enough to serve it.
ghost use Rattle.std.specs.Prelude.{◌≡◌, ℤ};
ghost use Rattle.ak_keep.specs.Collections.{Collection};
ghost use Rattle.ak_messages.specs.declared.requests.Request.{Request};
ghost use Rattle.ak_protocol.specs.Accounts.{SessionState, AccountState};
ghost use Rattle.ak_protocol.specs.Serving.{Setback, served};
ghost use Rattle.ak_server_rules.specs.Laws.{session_with, summed};
ghost use Rattle.ak_server_rules.specs.Serving.{does};
ghost use Rattle.ak_server_rules.specs.Summaries.{session_summary, account_summary, with_request};

/// What is remembered of a session goes on with each request, and an account is served by what is remembered of it as by
/// the list of its session's requests, whatever comes and whatever setback there is.
pub fn summaries_serve_alike()
    ensures goes_on { (committed : Collection) (session : SessionState) (request : Request)
        → session_summary committed (session_with session request)
        ≡ with_request (session_summary committed session) request.ask }
    ensures alike { (s : AccountState) (request : Request) (now : ℤ) (setback : Setback)
        → does (account_summary s) request now setback ≡ summed (served s request now setback) }
{}
