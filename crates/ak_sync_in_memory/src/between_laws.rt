// What whoever acts between the calls of a wire may do, one thing after the other.
ghost use Rattle.std.specs.Prelude.{◌≡◌, ℕ, ℤ};
ghost use Rattle.ak_io.specs.Arrivals.{IsClockMoment};
ghost use Rattle.ak_messages.specs.declared.replies.Reply.{Reply};
ghost use Rattle.ak_messages.specs.declared.requests.Request.{Request};
ghost use Rattle.ak_protocol.specs.Logs.{HasAsked};
ghost use Rattle.ak_sync_in_memory.specs.Betweens.{ComesBetween};
ghost use Rattle.ak_sync_in_memory.specs.Entries.{LoggedState, collection_in, log_in};
ghost use Rattle.ak_sync_in_memory.specs.LoggedServers.{Adds, IsServed};
ghost use Rattle.ak_sync_in_memory.specs.declared.logs.Logged.TheVariants as logged;

/// Before a request of a session there may come nothing, a view, a request of another session, a request that came
/// before, and one of these after the other.
pub fn others_may_act()
    ensures nothing { (session : ℕ) (s : LoggedState) → ComesBetween session s s }
    ensures view { (session : ℕ) (old new : LoggedState) → Adds old new logged.Viewed → ComesBetween session old new }
    ensures request { (session : ℕ) (old new : LoggedState) (request : Request) (now : ℤ) (reply : Reply)
        → IsClockMoment now → (request.session.0 ≡ session → HasAsked (log_in old).events request)
        → IsServed old new request now reply → ComesBetween session old new }
    ensures further { (session : ℕ) (old met new : LoggedState)
        → ComesBetween session old met → ComesBetween session met new → ComesBetween session old new }
{}

/// Two logged servers that tell the same opening have an account of the same host key, opened with the same collection.
pub fn openings_are_told()
    ensures host { (a b : LoggedState) → (log_in a).opening ≡ (log_in b).opening → a.host ≡ b.host }
    ensures collection { (a b : LoggedState) → (log_in a).opening ≡ (log_in b).opening
        → collection_in a.opening ≡ collection_in b.opening }
{}
