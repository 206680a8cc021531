// A request is asked: it is tried, and the reply is read by the form that its method has.
ghost use Rattle.std.specs.Prelude.{◌≡◌, Option, ok_or};
ghost use Rattle.ak_client_wire.specs.Tries.{Answered, granted_by, granted_in, in_form};
ghost use Rattle.ak_client_wire.specs.declared.asks.Unanswered.TheVariants as unanswered;

use crate::forms::Form;
use crate::tries::try_thrice;
use crate::wires::{Wire, WireEnd};
use ak_messages::{Give, Reply, Request, Word};

/// Why a request was not granted.
#[derive(Clone, Copy, Debug, PartialEq, Eq)]
pub enum Unanswered {
    /// Each of three tries got no answer.
    Lost,
    /// The answer can't be read, or is not of the form of what was asked.
    BadReply,
    /// The server did not do what was asked. The status is not 200.
    Refused { status: u16, word: Word, seen: i64 },
    /// Out of memory.
    Memory,
}

/// Asks, and reads what is given by the form of what is asked. A finish gives the new moment, in milliseconds.
pub fn ask<W: Wire, F: Form>(wire: &mut W, request: &Request) -> Result<F, Unanswered>
    ensures { Answered (W.health wire.old) (W.health wire.new) (W.state wire.old) (W.state wire.new)
        request.now F.found_in result }
{
    let give = granted_in(try_thrice(wire, request))?;
    in_form(F::read(give))
}

/// What an answer grants, or why it grants nothing.
pub fn granted_in(answer: Result<Reply, WireEnd>) -> Result<Give, Unanswered>
    ensures { result ≡ granted_in answer }
{
    match answer {
        Ok(reply) => granted_by(reply),
        Err(WireEnd::Failed) => Err(Unanswered::Lost),
        Err(WireEnd::BadReply) => Err(Unanswered::BadReply),
        Err(WireEnd::Memory) => Err(Unanswered::Memory),
    }
}

/// What a reply grants: its status is 200.
fn granted_by(reply: Reply) -> Result<Give, Unanswered>
    ensures { result ≡ granted_by reply }
{
    if reply.status == 200 {
        return Ok(reply.give);
    }
    Err(Unanswered::Refused {
        status: reply.status,
        word: reply.word,
        seen: reply.seen,
    })
}

/// What was given in its form. What is not in its form is a bad reply.
pub fn in_form<T>(part: Option<T>) -> Result<T, Unanswered>
    ensures { result ≡ ok_or part unanswered.BadReply }
{
    match part {
        Some(part) => Ok(part),
        None => Err(Unanswered::BadReply),
    }
}
