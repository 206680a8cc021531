ghost use Rattle.std.specs.Prelude.{IfOk};
ghost use Rattle.ak_io.specs.Arrivals.{IsClockMoment};

use crate::forged::with_part;
use crate::replies::reply_text;
use ak_base::{HostKey, SessionKey, cut};
use ak_memory::MemoryKeeper;
use ak_server::Server;
use ak_wire::{Envelope, Request, method_of, read_request};
use cases_keepers::value_of;
use cases_lines::Unread;
use std::alloc::Global;

/// `serve HOST SESSION STEP BASE METHOD NOW BODY`: the status and the body of the reply.
pub fn serve(
    alloc: Global,
    server: &mut Server<MemoryKeeper>,
    rest: &str,
) -> Result<String, Unread> {
    let words = words_in(rest)?;
    let now = moment_of(words.now)?;
    served(alloc, server, request_of(alloc, &words)?, now)
}

/// `forge PART HOST SESSION STEP BASE METHOD NOW BODY`: the same of the request that has this part besides, or in the
/// place of its own.
pub fn forge(
    alloc: Global,
    server: &mut Server<MemoryKeeper>,
    rest: &str,
) -> Result<String, Unread> {
    let (part, rest) = cut(rest, " ").ok_or(Unread::Bad)?;
    let words = words_in(rest)?;
    let now = moment_of(words.now)?;
    served(alloc, server, forged_of(alloc, &words, part)?, now)
}

fn forged_of(alloc: Global, words: &Words<'_>, part: &str) -> Result<Request, Unread> {
    let part = value_of(alloc, part)?;
    with_part(alloc, request_of(alloc, words)?, &part)
}

fn served(
    alloc: Global,
    server: &mut Server<MemoryKeeper>,
    request: Request,
    now: i64,
) -> Result<String, Unread>
    requires { IsClockMoment now }
{
    let reply = server.serve(&request, now);
    reply_text(alloc, &reply)
}

/// The host key of a text.
pub fn host_of(text: &str) -> Result<HostKey, Unread> {
    HostKey::of(text).ok_or(Unread::Bad)
}

/// A moment that a clock may tell, in milliseconds.
fn moment_of(text: &str) -> Result<i64, Unread>
    ensures { IfOk result IsClockMoment }
{
    match text.parse::<i64>() {
        Ok(now) if now >= 0 && now <= 4_294_967_294_999 => Ok(now),
        _ => Err(Unread::Bad),
    }
}

/// The words of a request, each as it stands in the line.
#[derive(Clone, Copy)]
struct Words<'a> {
    host: &'a str,
    session: &'a str,
    step: &'a str,
    base: &'a str,
    method: &'a str,
    now: &'a str,
    body: &'a str,
}

fn words_in(rest: &str) -> Result<Words<'_>, Unread> {
    let (host, rest) = cut(rest, " ").ok_or(Unread::Bad)?;
    let (session, rest) = cut(rest, " ").ok_or(Unread::Bad)?;
    let (step, rest) = cut(rest, " ").ok_or(Unread::Bad)?;
    let (base, rest) = cut(rest, " ").ok_or(Unread::Bad)?;
    let (method, rest) = cut(rest, " ").ok_or(Unread::Bad)?;
    let (now, body) = cut(rest, " ").ok_or(Unread::Bad)?;
    Ok(Words {
        host,
        session,
        step,
        base,
        method,
        now,
        body,
    })
}

fn request_of(alloc: Global, words: &Words<'_>) -> Result<Request, Unread> {
    let method = method_of(words.method).ok_or(Unread::Bad)?;
    let envelope = envelope_of(words)?;
    match read_request(alloc, envelope, method, words.body.as_bytes()) {
        Ok(request) => Ok(request),
        Err(_) => Err(Unread::Bad),
    }
}

fn envelope_of(words: &Words<'_>) -> Result<Envelope, Unread> {
    Ok(Envelope {
        host: host_of(words.host)?,
        session: SessionKey(natural_of(words.session)?),
        step: natural_of(words.step)?,
        base: integer_of(words.base)?,
    })
}

fn natural_of(text: &str) -> Result<u64, Unread> {
    text.parse::<u64>().ok().ok_or(Unread::Bad)
}

fn integer_of(text: &str) -> Result<i64, Unread> {
    text.parse::<i64>().ok().ok_or(Unread::Bad)
}
