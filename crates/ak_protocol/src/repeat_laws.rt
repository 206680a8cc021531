// What a request that comes again is given.
ghost use Rattle.std.specs.Prelude.{◌≡◌, ◌≢◌, ℤ, false, List, Some};
ghost use Rattle.std.specs.List.{AllByRecursion};
ghost use Rattle.ak_messages.specs.declared.requests.Request.{Request};
ghost use Rattle.ak_protocol.specs.Accounts.{KeptReply, AccountState, given_again};
ghost use Rattle.ak_session.specs.Requests.{asked_method, is_meta};
ghost use Rattle.ak_protocol.specs.Logs.{Event, Asked, World, IsAgain, world_next, world_after};
ghost use Rattle.ak_protocol.specs.Serving.{Undisturbed, unchanged, served};

/// A request with the session key, the step and the method of the kept reply is given that reply, and changes
/// nothing. A download is given the committed collection.
pub fn repeats_change_nothing()
    ensures { (s : AccountState) (request : Request) (now : ℤ) (kept : KeptReply)
        → s.kept ≡ Some kept → kept.key ≡ request.session.0
        → kept.step ≡ request.step → kept.method ≡ asked_method request.ask → is_meta request.ask ≡ false
        → served s request now Undisturbed ≡ unchanged s (given_again s.committed kept) }
{}

/// Without a setback, a request that is not granted changes nothing: its reply is not kept, and no session ends.
pub fn refusals_change_nothing()
    ensures { (s : AccountState) (request : Request) (now : ℤ) → let it = served s request now Undisturbed in
        it.reply.status ≢ 200 → it ≡ unchanged s it.reply }
{}

/// Whatever a request but a meta was given, accepted or refused: asked again at once, at any moment, it is given
/// the same, and nothing changes.
pub fn asked_again()
    ensures { (s : AccountState) (request : Request) (now again : ℤ) → is_meta request.ask ≡ false
        → let it = served s request now Undisturbed in
        served it.next request again Undisturbed ≡ unchanged it.next it.reply }
{}

/// However often in a row a request comes, at any moments and without a setback, it leaves what it left at first. Unless
/// it is a meta, it is given the same each time.
pub fn repeats_in_a_row()
    ensures world { (w : World) (request : Request) (now : ℤ) (more : List Event)
        → AllByRecursion (IsAgain request) more
        → let once = world_next w (Asked request now Undisturbed) in world_after once more ≡ once }
    ensures reply { (w : World) (request : Request) (now again : ℤ) (more : List Event) → is_meta request.ask ≡ false
        → AllByRecursion (IsAgain request) more
        → let once = world_next w (Asked request now Undisturbed) in
        (served (world_after once more).state request again Undisturbed).reply
        ≡ (served w.state request now Undisturbed).reply }
{}
