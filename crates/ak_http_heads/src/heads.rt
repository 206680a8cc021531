ghost use Rattle.std.specs.Prelude.{◌≡◌, ◌<◌, ◌≤◌, ◌-◌, length, take, IfOk, OnErr};
ghost use Rattle.std.specs.Io.KnownBytes.{Keeps};
ghost use Rattle.ak_faults.specs.Causes.{HasCause, HasCauseOf};
ghost use Rattle.ak_http_heads.specs.Heads.{HasNoHead};
ghost use Rattle.ak_http_heads.specs.Reads.{ReadsHeadFrom, TakesByte, ReadsEnd};
ghost use Rattle.ak_http_heads.specs.Routes.{IsRoutes};
ghost use Rattle.ak_http_heads.specs.declared.heads.HeadFault.TheVariants as faults;

use crate::parses::parse;
use crate::routes::routes;
use ak_http_texts::Refusal;
use ak_io::Failed;
use ak_links::Link;
use ak_messages::{Envelope, Method};
use matchit::Router;
use std::alloc::{AllocFailed, Global};

/// The most bytes of a head, with its empty line and those before it.
pub const MOST_HEAD_BYTES: usize = 16384;

/// What the head of a request asks.
#[derive(Clone, Copy, Debug, PartialEq, Eq)]
pub struct Head {
    pub method: Method,
    pub envelope: Envelope,
    /// Of the body, in bytes: at most 268,435,456.
    pub length: usize,
}

/// Why no head was read.
#[derive(Clone, Copy, Debug, PartialEq, Eq)]
pub enum HeadFault {
    /// There is no head, or it failed a test: never `Cut`, `Body` or `Memory`, which come after the head.
    Refused(Refusal),
    /// The link failed.
    Failed,
    /// Out of memory.
    Memory,
}

impl From<Failed> for HeadFault {
    ghost use Rattle.ak_http_heads.specs.declared.heads.HeadFault.TheVariants as faults;

    ghost from_gives = { λ failed fault. fault ≡ faults.Failed };

    fn from(_failed: Failed) -> HeadFault {
        HeadFault::Failed
    }
}

impl<T: Drop> From<AllocFailed<T>> for HeadFault {
    ghost use Rattle.ak_http_heads.specs.declared.heads.HeadFault.TheVariants as faults;

    ghost from_gives = { λ memory fault. fault ≡ faults.Memory };

    fn from(_memory: AllocFailed<T>) -> HeadFault {
        HeadFault::Memory
    }
}

/// Reads the head of a request, byte by byte, and no byte behind it: what it asks, or the first test that it fails.
/// The tests, in their order: a head of HTTP/1.0 or 1.1 with at most 64 fields ends within the first 16,384 bytes
/// (`Head`); its target is `/sync/` and the name of a method (`Route`); its method is `POST` (`Method`); it has a
/// `Content-Length` and no `Transfer-Encoding` (`Length`); the first `Content-Length` is at most 268,435,456
/// (`Large`); each `Content-Encoding` is `identity` (`Compressed`); `X-Anki-Key`, `X-Anki-Session`, `X-Anki-Step`,
/// `X-Anki-Base` and `Content-Length` stand exactly once each, and have their forms (`Headers`).
pub fn read_head<L: Link>(alloc: Global, link: &mut L) -> Result<Head, HeadFault>
    ensures told { ReadsHeadFrom (L.left link.old) (L.left link.new) result }
    ensures apart { L.written link.new ≡ L.written link.old }
    ensures cause { HasCauseOf faults.Failed (L.health link.old) (L.health link.new) result }
{
    let Ok(routes) = routes(alloc) else {
        return Err(HeadFault::Memory);
    };
    let mut bytes = Vec::new(alloc);
    loop {
        if bytes.as_slice().len() >= MOST_HEAD_BYTES {
            return Err(HeadFault::Refused(Refusal::Head));
        }
        let Some(byte) = read_byte(link)? else {
            return Err(HeadFault::Refused(Refusal::Head));
        };
        bytes.push(byte)?;
        match read_end(&routes, bytes.as_slice()) {
            Ok(None) => {}
            Ok(Some(head)) => return Ok(head),
            Err(why) => return Err(HeadFault::Refused(why)),
        }
    }
}

/// Reads one byte. None is the end of the input.
pub fn read_byte<L: Link>(link: &mut L) -> Result<Option<u8>, Failed>
    ensures told { IfOk result (λ byte. TakesByte (L.left link.old) (L.left link.new) byte) }
    ensures err { OnErr result (Keeps (L.left link.old) (L.left link.new)) }
    ensures apart { L.written link.new ≡ L.written link.old }
    ensures cause { HasCause (L.health link.old) (L.health link.new) result }
{
    let mut byte = [0];
    let count = link.receive(&mut byte)?;
    if count == 0 {
        return Ok(None);
    }
    Ok(Some(byte[0]))
}

/// Reads the head that ends with the last of these bytes, if one does. Without that byte they had no head.
fn read_end(routes: &Router<Method>, bytes: &[u8]) -> Result<Option<Head>, Refusal>
    requires routes { IsRoutes routes.now }
    requires some { 0 < length bytes.now }
    requires size { length bytes.now ≤ 16_384 }
    requires none { HasNoHead (take (length bytes.now - 1) bytes.now) }
    ensures { ReadsEnd bytes.now result }
{
    // A head ends with a line feed.
    if bytes[bytes.len() - 1] != b'\n' {
        return Ok(None);
    }
    parse(routes, bytes)
}
