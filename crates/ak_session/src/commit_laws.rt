// What a finish and an upload commit.
ghost use Rattle.std.specs.Prelude.{◌≡◌, ◌<ℤ◌, ◌+ℤ◌, ℤ, pos, List, ◌∷◌, None};
ghost use Rattle.std.specs.Int.{int_max};
ghost use Rattle.ak_base.specs.Heads.{IsMoment, IsHeadInRange};
ghost use Rattle.ak_keep.specs.Collections.{Collection};
ghost use Rattle.ak_merge.specs.Commits.{with_received, IsCommitOf, IsInRange, IsUploadOf, IsWholeInRange};
ghost use Rattle.ak_messages.specs.declared.requests.Ask.TheVariants as asks;
ghost use Rattle.ak_messages.specs.declared.requests.Request.{Request};
ghost use Rattle.ak_messages.specs.declared.requests.Whole.{Whole};
ghost use Rattle.ak_session.specs.Asks.{asks_of, all_brought};
ghost use Rattle.ak_session.specs.Closings.{whole_brought};
ghost use Rattle.ak_session.specs.Contents.{folded, refusal, closed};
ghost use Rattle.ak_session.specs.Sessions.{AreAllowed};

/// What is committed was changed later than what was committed before, whatever was asked.
pub fn commits_are_later()
    ensures { (committed : Collection) (accepted : List Request) (request : Request) (now : ℤ)
        → committed.head.moment <ℤ (closed committed accepted request now).head.moment }
{}

/// What a session made of the committed collection is that collection once it took all that the session's requests
/// brought.
pub fn folds_take_what_came()
    ensures { (committed : Collection) (accepted : List Request)
        → folded committed accepted ≡ with_received (all_brought (asks_of accepted)) committed }
{}

/// A finish commits what its session brought, at the greatest of now and the moments after the committed one and the
/// device's. If the session accepted all of it, it is in its ranges.
pub fn finishes_are_commits()
    ensures commits { (committed : Collection) (accepted : List Request) (finish : Request) (now : ℤ)
        → finish.ask ≡ asks.Finish
        → IsCommitOf (all_brought (asks_of accepted)) committed (closed committed accepted finish now) }
    ensures in_range { (committed : Collection) (accepted : List Request) (finish : Request) (now : ℤ)
        → finish.ask ≡ asks.Finish → AreAllowed committed accepted → refusal committed accepted finish ≡ None
        → IsHeadInRange committed.head → IsMoment now
        → IsInRange (all_brought (asks_of accepted)) committed (closed committed accepted finish now).head.moment }
    ensures moment { (committed : Collection) (start : Request) (accepted : List Request) (finish : Request) (now : ℤ)
        → (min_usn lmod : ℤ) → start.ask ≡ asks.Start min_usn lmod → finish.ask ≡ asks.Finish
        → (closed committed (start ∷ accepted) finish now).head.moment
        ≡ int_max now (int_max (committed.head.moment +ℤ pos 1) (lmod +ℤ pos 1)) }
{}

/// An upload replaces the committed collection, with a moment and a schema moment that are the greatest of now and
/// those after both sides'. If its session accepted it, it is in its ranges.
pub fn uploads_replace()
    ensures uploads { (committed : Collection) (accepted : List Request) (upload : Request) (whole : Whole) (now : ℤ)
        → upload.ask ≡ asks.Upload whole
        → IsUploadOf (whole_brought whole) committed (closed committed accepted upload now) }
    ensures in_range { (committed : Collection) (accepted : List Request) (upload : Request) (whole : Whole) (now : ℤ)
        → upload.ask ≡ asks.Upload whole → refusal committed accepted upload ≡ None
        → IsHeadInRange committed.head → IsMoment now
        → let after = closed committed accepted upload now in
        IsWholeInRange (whole_brought whole) after.head.schema after.head.moment }
    ensures moment { (committed : Collection) (accepted : List Request) (upload : Request) (whole : Whole) (now : ℤ)
        → upload.ask ≡ asks.Upload whole → (closed committed accepted upload now).head.moment
        ≡ int_max now (int_max (committed.head.moment +ℤ pos 1) (whole.moment +ℤ pos 1)) }
    ensures schema { (committed : Collection) (accepted : List Request) (upload : Request) (whole : Whole) (now : ℤ)
        → upload.ask ≡ asks.Upload whole → (closed committed accepted upload now).head.schema
        ≡ int_max now (int_max (committed.head.schema +ℤ pos 1) (whole.schema +ℤ pos 1)) }
{}
