ghost use Rattle.std.specs.Prelude.{◌≡◌, ◌++◌, length, codes, decimal, IfOk};
ghost use Rattle.ak_http_texts.specs.ReplyTexts.{http_text, reason_of, refusal_http, reply_http};

use crate::Refusal;
use ak_base::{Memory, Text};
use ak_messages::Reply;
use ak_wire::write_reply;
use std::alloc::Global;

/// A reply as it goes over HTTP: its status line, `Content-Type`, `Content-Length` and `Connection`, each with CR LF at its
/// end, an empty line, and the JSON of the reply. It is refused only if memory runs out.
pub fn reply_text(alloc: Global, reply: &Reply) -> Result<Text, Memory>
    ensures { IfOk result (λ text. text ≡ reply_http reply.now) }
{
    let body = write_reply(alloc, reply)?;
    text_of(alloc, reply.status, body.as_str())
}

/// The text of a status and a body.
fn text_of(alloc: Global, status: u16, body: &str) -> Result<Text, Memory>
    ensures { IfOk result (λ text. text ≡ http_text status body.now) }
{
    let reason = reason_of(status);
    let size = body.len();
    let text = format!(in alloc;
        "HTTP/1.1 {status} {reason}\r\nContent-Type: application/json\r\nContent-Length: {size}\r\nConnection: close\r\n\r\n{body}"
    )?;
    Ok(Text::from(text))
}

/// The reason that goes with a status.
fn reason_of(status: u16) -> &'static str
    ensures { result.now ≡ reason_of status }
{
    if status == 200 { "OK" } else { "Refused" }
}

/// The whole reply that tells a refusal: the text that `reply_text` makes of it, with nothing seen. It takes no memory.
#[tactic(auto, using(crate::proofs::Texts::told_head, crate::proofs::Texts::told_route, crate::proofs::Texts::told_method, crate::proofs::Texts::told_length, crate::proofs::Texts::told_large, crate::proofs::Texts::told_compressed, crate::proofs::Texts::told_headers, crate::proofs::Texts::told_cut, crate::proofs::Texts::told_body, crate::proofs::Texts::told_memory))]
pub fn refusal_text(refusal: Refusal) -> &'static str
    ensures { result.now ≡ refusal_http refusal }
{
    match refusal {
        Refusal::Head =>
            "HTTP/1.1 400 Refused\r\nContent-Type: application/json\r\nContent-Length: 24\r\nConnection: close\r\n\r\n{\"seen\":0,\"word\":\"head\"}",
        Refusal::Route =>
            "HTTP/1.1 404 Refused\r\nContent-Type: application/json\r\nContent-Length: 25\r\nConnection: close\r\n\r\n{\"seen\":0,\"word\":\"route\"}",
        Refusal::Method =>
            "HTTP/1.1 405 Refused\r\nContent-Type: application/json\r\nContent-Length: 26\r\nConnection: close\r\n\r\n{\"seen\":0,\"word\":\"method\"}",
        Refusal::Length =>
            "HTTP/1.1 411 Refused\r\nContent-Type: application/json\r\nContent-Length: 26\r\nConnection: close\r\n\r\n{\"seen\":0,\"word\":\"length\"}",
        Refusal::Large =>
            "HTTP/1.1 413 Refused\r\nContent-Type: application/json\r\nContent-Length: 25\r\nConnection: close\r\n\r\n{\"seen\":0,\"word\":\"large\"}",
        Refusal::Compressed =>
            "HTTP/1.1 415 Refused\r\nContent-Type: application/json\r\nContent-Length: 30\r\nConnection: close\r\n\r\n{\"seen\":0,\"word\":\"compressed\"}",
        Refusal::Headers =>
            "HTTP/1.1 400 Refused\r\nContent-Type: application/json\r\nContent-Length: 27\r\nConnection: close\r\n\r\n{\"seen\":0,\"word\":\"headers\"}",
        Refusal::Cut =>
            "HTTP/1.1 400 Refused\r\nContent-Type: application/json\r\nContent-Length: 23\r\nConnection: close\r\n\r\n{\"seen\":0,\"word\":\"cut\"}",
        Refusal::Body =>
            "HTTP/1.1 400 Refused\r\nContent-Type: application/json\r\nContent-Length: 24\r\nConnection: close\r\n\r\n{\"seen\":0,\"word\":\"body\"}",
        Refusal::Memory =>
            "HTTP/1.1 500 Refused\r\nContent-Type: application/json\r\nContent-Length: 26\r\nConnection: close\r\n\r\n{\"seen\":0,\"word\":\"memory\"}",
    }
}
