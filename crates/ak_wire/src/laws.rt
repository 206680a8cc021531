// Laws of the bodies, as the contracts of functions that do nothing.
ghost use Rattle.std.specs.Prelude.{ℕ, List};
ghost use Rattle.ak_messages.specs.declared.methods.Method.{Method};
ghost use Rattle.ak_messages.specs.declared.replies.Reply.{Reply};
ghost use Rattle.ak_messages.specs.declared.requests.Ask.{Ask};
ghost use Rattle.ak_messages.specs.declared.requests.Envelope.{Envelope};
ghost use Rattle.ak_wire.specs.Faults.{AtMostOne, AtMostOneFault, IsNotRefused, IsReadOrRefused};
ghost use Rattle.ak_wire.specs.Replies.{ReadsReply, ReadsReplyIn, RefusesReply};
ghost use Rattle.ak_wire.specs.Requests.{ReadsAsk, ReadsRequest, RefusesRequest};
ghost use Rattle.ak_wire.specs.Sent.{IsSent, IsReplySent};
ghost use Rattle.ak_wire.specs.Written.{ask_json, reply_json};

/// What is written of a request is read as what it asks, if its ids ascend, none twice, its rows, settings, tags
/// and counts are in their ranges, and it brings at most 250 rows or ids. The rows of a whole collection stand
/// table by table and then by id, its tags by the bytes of their names; an upload has no graves and the number 0.
#[tactic(auto, using(crate::proofs::MessagesAgain::ask_again))]
pub fn requests_are_read_again()
    ensures { (method : Method) (ask : Ask) → IsSent method ask → ReadsAsk method (ask_json ask) ask }
{}

/// What is written of a reply is read as that reply, if it is one to the method, in the same ranges and orders:
/// with status 200 it has the word `Ok`, seen 0 and what the method gives; with any other it gives nothing.
#[tactic(auto, using(crate::proofs::MessagesAgain::reply_again))]
pub fn replies_are_read_again()
    ensures { (method : Method) (r : Reply) → IsReplySent method r → ReadsReplyIn r.status method (reply_json r) r }
{}

/// A body is read as one message at most: two that it is read as are equal.
pub fn one_message_is_read()
    ensures request { (e : Envelope) (m : Method) (body : List ℕ) → AtMostOne (ReadsRequest e m body) }
    ensures reply { (m : Method) (code : ℕ) (body : List ℕ) → AtMostOne (ReadsReply m code body) }
{}

/// A body that is read is refused only if memory is out.
pub fn what_is_read_is_not_refused()
    ensures request { (e : Envelope) (m : Method) (body : List ℕ) → IsNotRefused (ReadsRequest e m body) (RefusesRequest m body) }
    ensures reply { (m : Method) (code : ℕ) (body : List ℕ) → IsNotRefused (ReadsReply m code body) (RefusesReply m code body) }
{}

/// Two faults by which a body is refused are equal, unless memory was out at one of them.
pub fn one_fault_is_told()
    ensures request { (m : Method) (body : List ℕ) → AtMostOneFault (RefusesRequest m body) }
    ensures reply { (m : Method) (code : ℕ) (body : List ℕ) → AtMostOneFault (RefusesReply m code body) }
{}

/// Each body, of any bytes, is read as a message or refused by a fault though memory is not out.
pub fn each_body_is_read_or_refused()
    ensures request { (e : Envelope) (m : Method) (body : List ℕ)
        → IsReadOrRefused (ReadsRequest e m body) (RefusesRequest m body) }
    ensures reply { (m : Method) (code : ℕ) (body : List ℕ)
        → IsReadOrRefused (ReadsReply m code body) (RefusesReply m code body) }
{}
