ghost use Rattle.std.specs.Prelude.{◌≡◌, ◌<◌, ◌≤◌, ◌-◌, length, take, map};
ghost use Rattle.std.specs.Option.{option_map};
ghost use Rattle.ak_faults.specs.Causes.{HasCauseOf};
ghost use Rattle.ak_http_wires.specs.AnswerHeads.{HasNoAnswerHead, ParsesAnswerHead, ReadsAnswerEnd, ReadsAnswerHeadFrom};
ghost use Rattle.ak_http_wires.specs.declared.answers.AnswerFault.TheVariants as faults;

use crate::answers::AnswerFault;
use ak_http_heads::{MOST_FIELDS, MOST_HEAD_BYTES, length_in, read_byte};
use ak_links::Link;
use httparse::{EMPTY_HEADER, Response, Status};
use std::alloc::Global;

/// What the head of an answer tells.
#[derive(Clone, Copy, Debug, PartialEq, Eq)]
pub(crate) struct AnswerHead {
    /// 0 to 999.
    pub(crate) status: u16,
    /// Of the body, in bytes: at most 268,435,456.
    pub(crate) length: usize,
}

/// What bytes are, of which more may follow.
#[derive(Clone, Copy, Debug, PartialEq, Eq)]
pub(crate) enum Front {
    /// There is no head so far.
    Open,
    /// They begin with a head that tells this.
    Head(AnswerHead),
    /// Whatever follows, they begin with no head that tells the length of its body.
    Unreadable,
}

/// Reads the head of an answer, byte by byte, and no byte behind it. It ends within the first 16,384 bytes, has at most 64
/// fields, and tells the length of its body once, as decimal digits without sign or leading zero.
pub(crate) fn read_answer_head<L: Link>(
    alloc: Global,
    link: &mut L,
) -> Result<AnswerHead, AnswerFault>
    ensures told { ReadsAnswerHeadFrom (L.left link.old) (L.left link.new) result }
    ensures apart { L.written link.new ≡ L.written link.old }
    ensures cause { HasCauseOf faults.Failed (L.health link.old) (L.health link.new) result }
{
    let mut bytes = Vec::new(alloc);
    loop {
        if bytes.as_slice().len() >= MOST_HEAD_BYTES {
            return Err(AnswerFault::Unreadable);
        }
        let Some(byte) = read_byte(link)? else {
            return Err(AnswerFault::Unreadable);
        };
        bytes.push(byte)?;
        match read_end(bytes.as_slice()) {
            Front::Open => {}
            Front::Head(head) => return Ok(head),
            Front::Unreadable => return Err(AnswerFault::Unreadable),
        }
    }
}

/// Reads the head that ends with the last of these bytes, if one does. Without that byte they had no head.
fn read_end(bytes: &[u8]) -> Front
    requires some { 0 < length bytes.now }
    requires size { length bytes.now ≤ 16_384 }
    requires none { HasNoAnswerHead (take (length bytes.now - 1) bytes.now) }
    ensures { ReadsAnswerEnd bytes.now result }
{
    // A head ends with a line feed.
    if bytes[bytes.len() - 1] != b'\n' {
        return Front::Open;
    }
    parse(bytes)
}

/// Reads the head at the front of bytes.
fn parse(bytes: &[u8]) -> Front
    ensures { ParsesAnswerHead bytes.now result }
{
    let mut fields = [EMPTY_HEADER; MOST_FIELDS];
    let mut response = Response::new(&mut fields);
    match response.parse(bytes) {
        Ok(Status::Complete(_)) => {}
        Ok(Status::Partial) => return Front::Open,
        Err(_) => return Front::Unreadable,
    }
    let Some(status) = response.code else {
        return Front::Unreadable;
    };
    // The parser takes no more than there is room for, but does not promise it.
    if response.headers.len() > MOST_FIELDS {
        return Front::Unreadable;
    }
    match length_in(response.headers) {
        Some(length) => Front::Head(AnswerHead {
            status,
            length: length as usize,
        }),
        None => Front::Unreadable,
    }
}
