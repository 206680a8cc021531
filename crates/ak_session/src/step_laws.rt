// What one request more makes of a session.
ghost use Rattle.std.specs.Prelude.{◌≡◌, ◌+◌, if◌then◌else◌, List, [], ◌∷◌, ◌++◌};
ghost use Rattle.ak_keep.specs.Collections.{Collection};
ghost use Rattle.ak_merge.specs.Commits.{with_received};
ghost use Rattle.ak_merge.specs.Takings.{all_taken};
ghost use Rattle.ak_messages.specs.declared.methods.Method.TheVariants as methods;
ghost use Rattle.ak_messages.specs.declared.requests.Ask.{Ask};
ghost use Rattle.ak_messages.specs.declared.requests.Request.{Request};
ghost use Rattle.ak_session.specs.Answers.{chunk_count, given_for, all_given};
ghost use Rattle.ak_session.specs.Asks.{least_usn, device_moment, brought, and_then, all_brought};
ghost use Rattle.ak_session.specs.Contents.{folded};
ghost use Rattle.ak_session.specs.Plans.{device_rows};
ghost use Rattle.ak_session.specs.Requests.{asked_method, same_method};
ghost use Rattle.ak_session.specs.NextMethods.{last_asked};
ghost use Rattle.ak_merge.specs.declared.sides.Side.TheVariants.{Device};

/// A session takes what one request more brings, and a device what it is given for it.
pub fn sessions_go_on()
    ensures session { (committed : Collection) (accepted : List Request) (request : Request)
        → folded committed (accepted ++ request ∷ [])
        ≡ with_received (brought request.ask) (folded committed accepted) }
    ensures device { (c s : Collection) (asked : List Ask) (ask : Ask)
        → device_rows c s (asked ++ ask ∷ [])
        ≡ all_taken Device s.head.usn (given_for s asked ask).rows (device_rows c s asked) }
    ensures given { (s : Collection) (asked : List Ask) (ask : Ask)
        → all_given s (asked ++ ask ∷ []) ≡ and_then (all_given s asked) (given_for s asked ask) }
    ensures brought { (asked : List Ask) (ask : Ask)
        → all_brought (asked ++ ask ∷ []) ≡ and_then (all_brought asked) (brought ask) }
{}

/// What a session accepted last, how many chunks it gave, and what its start told, once it accepts one request more.
pub fn sessions_remember()
    ensures last { (asked : List Ask) (ask : Ask) → last_asked (asked ++ ask ∷ []) ≡ ask }
    ensures chunks { (asked : List Ask) (ask : Ask) → chunk_count (asked ++ ask ∷ [])
        ≡ (if same_method (asked_method ask) methods.Chunk then chunk_count asked + 1 else chunk_count asked) }
    ensures number { (first : Ask) (asked : List Ask) (ask : Ask)
        → least_usn (first ∷ asked ++ ask ∷ []) ≡ least_usn (first ∷ asked) }
    ensures moment { (first : Ask) (asked : List Ask) (ask : Ask)
        → device_moment (first ∷ asked ++ ask ∷ []) ≡ device_moment (first ∷ asked) }
{}
