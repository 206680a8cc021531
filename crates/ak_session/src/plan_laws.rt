// The requests of a sync: how many, in which form, and that a session accepts them.
ghost use Rattle.std.specs.Prelude.{◌≡◌, pos, ◌≤ℤ◌, ◌≤◌, ◌+◌, ◌/◌, true, false, List, [], ◌∷◌, ◌++◌, length, None};
ghost use Rattle.ak_keep.specs.Collections.{Collection};
ghost use Rattle.ak_keep.specs.declared.keepers.Wanted.TheVariants.{Unsent, From};
ghost use Rattle.ak_merge.specs.Holdings.{row_under};
ghost use Rattle.ak_merge.specs.Joins.{joined_under};
ghost use Rattle.ak_merge.specs.Soundness.{IsSound};
ghost use Rattle.ak_messages.specs.declared.requests.Ask.TheVariants as asks;
ghost use Rattle.ak_messages.specs.declared.requests.Request.{Request};
ghost use Rattle.ak_session.specs.Answers.{server_rows};
ghost use Rattle.ak_session.specs.Asks.{asks_of};
ghost use Rattle.ak_session.specs.Contents.{refusal, ends};
ghost use Rattle.ak_session.specs.Slices.{wanted_graves, wanted_in_chunks};
ghost use Rattle.ak_session.specs.Plans.{Asker, IsPlanned, plan, device_rows, planned_changes, planned_chunks, planned_check, planned};
ghost use Rattle.ak_session.specs.Requests.{asks_commit};
ghost use Rattle.ak_session.specs.Sessions.{MaySync, HaveRoom};

/// A sync asks at most 8 requests, its meta counted, and one more for each 250 of the graves that the device did not
/// send yet, of the reviews, cards and notes of the server with at least the device's usn, and of those that the
/// device did not send yet.
pub fn plans_are_short()
    ensures { (who : Asker) (c s : Collection) → pos 0 ≤ℤ s.head.usn
        → length (plan who c s) + 1 ≤ 8 + length (wanted_graves Unsent c.rows) / 250
        + length (wanted_in_chunks (From c.head.usn) s.rows) / 250 + length (wanted_in_chunks Unsent c.rows) / 250 }
{}

/// The rows that the server gives in chunks are at most those that it had at the start, and the rows that the device
/// sends in chunks at most those that it had.
pub fn directions_never_grow()
    ensures pulled { (c s : Collection)
        → length (server_rows s (planned_changes c s)) ≤ length (wanted_in_chunks (From c.head.usn) s.rows) }
    ensures pushed { (c s : Collection) → pos 0 ≤ℤ s.head.usn
        → length (wanted_in_chunks Unsent (device_rows c s (planned_chunks c s)))
        ≤ length (wanted_in_chunks Unsent c.rows) }
{}

/// The requests of a sync after its meta have their places as steps, and the one base. The finish comes last, and no
/// other commits.
pub fn plans_end_with_their_finish()
    ensures asked { (who : Asker) (c s : Collection) → asks_of (plan who c s) ≡ planned c s }
    ensures each { (who : Asker) (c s : Collection) (before : List Request) (request : Request) (after : List Request)
        → before ++ request ∷ after ≡ plan who c s → IsPlanned who s.head.moment before request }
    ensures finish { (who : Asker) (c s : Collection) (before : List Request) (request : Request) (after : List Request)
        → before ++ request ∷ after ≡ plan who c s → asks_commit request.ask ≡ true
        → (request.ask ≡ asks.Finish) × (asks_of before ≡ planned_check c s) × (after ≡ []) }
{}

/// A session accepts each request of a sync, if no usn of either side is the last one. It is not over before the
/// finish if the join is sound.
pub fn plans_are_accepted()
    ensures allowed { (who : Asker) (c s : Collection) (before : List Request)
        → (request : Request) (after : List Request) → MaySync c s → HaveRoom c s
        → before ++ request ∷ after ≡ plan who c s → refusal s before request ≡ None }
    ensures goes_on { (who : Asker) (c s : Collection) (before : List Request)
        → (request : Request) (after : List Request) → MaySync c s
        → IsSound (joined_under (row_under c) (row_under s)) → before ++ request ∷ after ≡ plan who c s
        → ends s before request ≡ false }
{}
