ghost use Rattle.std.specs.Prelude.{◌≡◌, IfOk};
ghost use Rattle.ak_session.specs.Requests.{asked_method};
ghost use Rattle.ak_http_wires.specs.RequestTexts.{envelope_lines, first_lines, request_http, request_http_of, session_text};

use ak_base::{HostKey, Memory, SessionKey, Text};
use ak_messages::{Ask, Request};
use ak_sync_rows::asked_method;
use ak_wire::write_request;
use std::alloc::Global;
use std::str;

/// A request as it goes over HTTP: its line, which is `POST /sync/` and the name of its method; `Host`, `Content-Type`,
/// `X-Anki-Key`, `X-Anki-Session`, `X-Anki-Step`, `X-Anki-Base`, `Content-Length` and `Connection`, each with CR LF at its
/// end; an empty line; and the JSON of what it asks. It is refused only if memory runs out.
pub fn request_text(alloc: Global, host_name: &str, request: &Request) -> Result<Text, Memory>
    ensures { IfOk result (λ text. text ≡ request_http host_name.now request.now) }
{
    let body = write_request(alloc, request)?;
    text_of(alloc, host_name, request, body.as_str())
}

/// The text of a request and its body.
fn text_of(alloc: Global, host_name: &str, request: &Request, body: &str) -> Result<Text, Memory>
    ensures { IfOk result (λ text. text ≡ request_http_of host_name.now request.now body.now) }
{
    let first = first_lines(alloc, host_name, &request.ask)?;
    let envelope = envelope_lines(alloc, request)?;
    let (first, envelope) = (first.as_str(), envelope.as_str());
    let size = body.len();
    let text = format!(in alloc;
        "{first}Content-Type: application/json\r\n{envelope}Content-Length: {size}\r\nConnection: close\r\n\r\n{body}"
    )?;
    Ok(Text::from(text))
}

/// The line of a request, and its `Host`.
fn first_lines(alloc: Global, host_name: &str, ask: &Ask) -> Result<Text, Memory>
    ensures { IfOk result (λ text. text ≡ first_lines host_name.now (asked_method ask.now)) }
{
    let method = asked_method(ask).name();
    let text = format!(in alloc; "POST /sync/{method} HTTP/1.1\r\nHost: {host_name}\r\n")?;
    Ok(Text::from(text))
}

/// The headers that tell who asks, and where in which sync.
fn envelope_lines(alloc: Global, request: &Request) -> Result<Text, Memory>
    ensures { IfOk result (λ text. text ≡ envelope_lines request.now) }
{
    let key = digits_of(&request.host);
    let session = session_text(alloc, request.session)?;
    let session = session.as_str();
    let step = request.step;
    let base = request.base;
    let text = format!(in alloc;
        "X-Anki-Key: {key}\r\nX-Anki-Session: {session}\r\nX-Anki-Step: {step}\r\nX-Anki-Base: {base}\r\n"
    )?;
    Ok(Text::from(text))
}

/// The 16 digits of a session.
fn session_text(alloc: Global, session: SessionKey) -> Result<Text, Memory>
    ensures { IfOk result (λ text. text ≡ session_text session.0) }
{
    let number = session.0;
    let text = format!(in alloc; "{number:016x}")?;
    Ok(Text::from(text))
}

/// The digits of a key as text.
fn digits_of(key: &HostKey) -> &str
    ensures { result.now ≡ key.now.digits }
{
    match str::from_utf8(&key.digits) {
        Ok(digits) => digits,
        // Hexadecimal digits are text.
        Err(_) => unreachable!(),
    }
}
