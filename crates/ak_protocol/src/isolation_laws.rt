// What an account owes to the others of its server: nothing.
ghost use Rattle.std.specs.Prelude.{◌≡◌, ◌≢◌, ℕ, ℤ, List};
ghost use Rattle.std.specs.Option.{option_map};
ghost use Rattle.ak_messages.specs.declared.requests.Request.{Request};
ghost use Rattle.ak_protocol.specs.Logs.{Event, server_after, opened, world_after, events_of};
ghost use Rattle.ak_protocol.specs.Servers.{ServerState, ServedAlike, server_served};
ghost use Rattle.ak_protocol.specs.Serving.{Setback};

/// What a request is given, and what it leaves of the account of its host key, depends on that account alone.
pub fn accounts_are_served_alone()
    ensures { (a b : ServerState) (request : Request) (now : ℤ) (setback : Setback) → let host = request.host.digits in
        a host ≡ b host
        → ServedAlike host (server_served a request now setback) (server_served b request now setback) }
{}

/// A request changes no other account.
pub fn other_accounts_stay()
    ensures { (server : ServerState) (request : Request) (now : ℤ) (setback : Setback) (other : List ℕ)
        → other ≢ request.host.digits
        → (server_served server request now setback).next other ≡ server other }
{}

/// What an account is after any requests and views follows from what it was and from those of its own host key.
pub fn logs_part()
    ensures { (server : ServerState) (events : List Event) (host : List ℕ)
        → server_after server events host
        ≡ option_map (λ s. (world_after (opened s) (events_of host events)).state) (server host) }
{}
