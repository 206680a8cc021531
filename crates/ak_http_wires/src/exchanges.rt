ghost use Rattle.ak_client_wire.specs.declared.wires.WireEnd.TheVariants as ends;
ghost use Rattle.ak_faults.specs.Causes.{HasCauseOf};
ghost use Rattle.ak_http_wires.specs.Exchanges.{Exchanges, answer_after};
ghost use Rattle.std.specs.Prelude.{◌≡◌};

use crate::answers::{AnswerFault, read_answer};
use ak_client_wire::WireEnd;
use ak_io::{Failed, write_all};
use ak_links::Link;
use ak_messages::{Method, Reply};
use std::alloc::Global;

/// Writes the text of a request to a link, and reads one answer. A server that refuses a request early may answer before it
/// has taken all of it, and then the rest can't be written: so the answer is read though the writing failed. An answer
/// without a reading is told as such only if the whole text was written.
pub(crate) fn exchange<L: Link>(
    alloc: Global,
    link: &mut L,
    text: &str,
    method: Method,
) -> Result<Reply, WireEnd>
    ensures exchanges { Exchanges L.left L.written L.health method text.now link.old link.new result }
    ensures cause { HasCauseOf ends.Failed (L.health link.old) (L.health link.new) result }
{
    let sent = write_all(link, text.as_bytes());
    let answer = read_answer(alloc, link, method);
    end_of(sent, answer)
}

/// What a call of the wire answers, by how the writing and the reading ended.
fn end_of(sent: Result<(), Failed>, answer: Result<Reply, AnswerFault>) -> Result<Reply, WireEnd>
    ensures { result ≡ answer_after sent answer }
{
    match answer {
        Ok(reply) => Ok(reply),
        Err(AnswerFault::Unreadable) => match sent {
            Ok(()) => Err(WireEnd::BadReply),
            Err(Failed) => Err(WireEnd::Failed),
        },
        Err(AnswerFault::Failed) => Err(WireEnd::Failed),
        Err(AnswerFault::Memory) => Err(WireEnd::Memory),
    }
}
