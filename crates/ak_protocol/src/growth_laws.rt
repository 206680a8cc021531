// What a wire may bring while a request is under way: the premise of the laws of calls leaves nothing out that does come.
ghost use Rattle.std.specs.Prelude.{◌≡◌, ◌≢◌, ℕ, ℤ, List};
ghost use Rattle.ak_io.specs.Arrivals.{IsClockMoment};
ghost use Rattle.ak_messages.specs.declared.requests.Request.{Request};
ghost use Rattle.ak_protocol.specs.Logs.{Event, View, Asked, HasAsked, MayCome};
ghost use Rattle.ak_protocol.specs.Serving.{Setback};

/// While a request is under way there may come, with any setback: views of any account, the request itself, requests of
/// other sessions and of other accounts, and whatever was asked before.
pub fn others_may_come()
    ensures views { (past : List Event) (request : Request) (host : List ℕ) → MayCome past request (View host) }
    ensures again { (past : List Event) (request : Request) (now : ℤ) (setback : Setback)
        → IsClockMoment now → MayCome past request (Asked request now setback) }
    ensures sessions { (past : List Event) (request other : Request) (now : ℤ) (setback : Setback)
        → IsClockMoment now → other.session.0 ≢ request.session.0 → MayCome past request (Asked other now setback) }
    ensures accounts { (past : List Event) (request other : Request) (now : ℤ) (setback : Setback)
        → IsClockMoment now → other.host.digits ≢ request.host.digits → MayCome past request (Asked other now setback) }
    ensures earlier { (past : List Event) (request other : Request) (now : ℤ) (setback : Setback)
        → IsClockMoment now → HasAsked past other → MayCome past request (Asked other now setback) }
{}
