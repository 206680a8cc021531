// What a sanity check finds, in any session.
ghost use Rattle.std.specs.Prelude.{◌≡◌, ◌↔◌, true, false, ℤ, List, None};
ghost use Rattle.ak_keep.specs.Collections.{Collection};
ghost use Rattle.ak_merge.specs.Commits.{IsCommitted};
ghost use Rattle.ak_merge.specs.Holdings.{row_under};
ghost use Rattle.ak_merge.specs.Soundness.{IsSound};
ghost use Rattle.ak_messages.specs.declared.replies.Give.TheVariants as gives;
ghost use Rattle.ak_messages.specs.declared.replies.SanityReply.{SanityReply};
ghost use Rattle.ak_messages.specs.declared.requests.Ask.TheVariants as asks;
ghost use Rattle.ak_messages.specs.declared.requests.Request.{Request};
ghost use Rattle.ak_messages.specs.declared.requests.SanityCounts.{SanityCounts};
ghost use Rattle.ak_session.specs.Answers.{counts_of};
ghost use Rattle.ak_session.specs.Contents.{folded, refusal, answer, ends, closed};
ghost use Rattle.ak_messages.specs.declared.methods.Method.TheVariants as methods;
ghost use Rattle.ak_session.specs.Requests.{asked_method};
ghost use Rattle.ak_session.specs.Sessions.{AreAllowed, TellsCheck};

/// Whatever a session accepted: a sanity check leaves it open exactly if what it made is sound and the counts that were
/// sent are its counts, and the reply tells which.
pub fn checks_are_decided()
    ensures goes_on { (committed : Collection) (accepted : List Request) (check : Request) (counts : SanityCounts)
        → IsCommitted committed → AreAllowed committed accepted → check.ask ≡ asks.SanityCheck2 counts
        → (ends committed accepted check ≡ false)
        ↔ (IsSound (row_under (folded committed accepted)) × (counts ≡ counts_of (folded committed accepted).rows)) }
    ensures told { (committed : Collection) (accepted : List Request) (check : Request) (counts : SanityCounts)
        → IsCommitted committed → AreAllowed committed accepted → check.ask ≡ asks.SanityCheck2 counts
        → (reply : SanityReply) × (answer committed accepted check ≡ gives.Sanity reply)
        × TellsCheck (folded committed accepted).rows counts (ends committed accepted check) reply }
{}

/// A sanity check alone ends a session without a commit.
pub fn checks_alone_end_sessions()
    ensures { (committed : Collection) (accepted : List Request) (request : Request)
        → ends committed accepted request ≡ true → asked_method request.ask ≡ methods.SanityCheck2 }
{}

/// Whatever is asked, what a finish commits is sound.
pub fn finishes_are_sound()
    ensures { (committed : Collection) (accepted : List Request) (finish : Request) (now : ℤ)
        → IsCommitted committed → AreAllowed committed accepted → finish.ask ≡ asks.Finish
        → refusal committed accepted finish ≡ None → IsSound (row_under (closed committed accepted finish now)) }
{}
