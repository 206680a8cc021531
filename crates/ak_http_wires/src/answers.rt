ghost use Rattle.std.specs.Prelude.{◌≡◌, ◌<◌};
ghost use Rattle.ak_faults.specs.Causes.{HasCauseOf};
ghost use Rattle.ak_http_wires.specs.Answers.{ReadsAnswerFrom, ReadsBodyFrom, ReadsPiece, fault_of};
ghost use Rattle.ak_http_wires.specs.declared.answers.AnswerFault.TheVariants as faults;

use crate::answer_heads::read_answer_head;
use ak_base::List;
use ak_io::Failed;
use ak_links::Link;
use ak_messages::{Method, Reply};
use ak_wire::{WireFault, read_reply};
use std::alloc::{AllocError, AllocFailed, Global};

/// Why no reply was read.
#[derive(Clone, Copy, Debug, PartialEq, Eq)]
pub enum AnswerFault {
    /// The bytes have no reading.
    Unreadable,
    /// The source failed.
    Failed,
    /// Out of memory.
    Memory,
}

/// Reads the reply to a request of this method: a head of HTTP/1.0 or 1.1 that ends within the first 16,384 bytes and has
/// at most 64 fields, one of them a `Content-Length` of at most 268,435,456; then a body of exactly that many bytes, which is
/// the reply of the head's status. Other fields and the reason are passed over, and what follows the body is not read. Bytes
/// that end too soon are unreadable, no bytes at all too.
pub fn read_answer<L: Link>(
    alloc: Global,
    link: &mut L,
    method: Method,
) -> Result<Reply, AnswerFault>
    ensures told { ReadsAnswerFrom method (L.left link.old) result }
    ensures apart { L.written link.new ≡ L.written link.old }
    ensures cause { HasCauseOf faults.Failed (L.health link.old) (L.health link.new) result }
{
    let head = read_answer_head(alloc, link)?;
    let body = read_body(alloc, link, head.length)?;
    match read_reply(alloc, method, head.status, body.as_slice()) {
        Ok(reply) => Ok(reply),
        Err(fault) => Err(fault_of(fault)),
    }
}

/// Why there is no reply whose body is refused so.
fn fault_of(fault: WireFault) -> AnswerFault
    ensures { result ≡ fault_of fault }
{
    match fault {
        WireFault::Memory => AnswerFault::Memory,
        WireFault::Json(_) | WireFault::TooManyRows(_) | WireFault::RowOrder(_) =>
            AnswerFault::Unreadable,
    }
}

/// How many bytes of a body are read at a time.
const PIECE_SIZE: usize = 4096;

/// Reads so many bytes. Memory is asked for as they come, since an answer may tell more than it has.
fn read_body<L: Link>(alloc: Global, link: &mut L, size: usize) -> Result<List<u8>, AnswerFault>
    ensures told { ReadsBodyFrom size (L.left link.old) result }
    ensures apart { L.written link.new ≡ L.written link.old }
    ensures cause { HasCauseOf faults.Failed (L.health link.old) (L.health link.new) result }
{
    let mut body = Vec::new(alloc);
    while body.as_slice().len() < size {
        let missing = size - body.as_slice().len();
        let count = read_piece(link, &mut body, missing)?;
        if count == 0 {
            return Err(AnswerFault::Unreadable);
        }
    }
    Ok(List::of(body))
}

/// Reads the next bytes, at most so many, and adds them to the body. No byte is the end of the input.
fn read_piece<L: Link>(
    link: &mut L,
    body: &mut Vec<u8>,
    missing: usize,
) -> Result<usize, AnswerFault>
    requires { 0 < missing }
    ensures told { ReadsPiece missing (L.left link.old) (L.left link.new) body.old.items body.new.items result }
    ensures apart { L.written link.new ≡ L.written link.old }
    ensures cause { HasCauseOf faults.Failed (L.health link.old) (L.health link.new) result }
{
    let mut piece = [0u8; PIECE_SIZE];
    let most = missing.min(PIECE_SIZE);
    let count = link.receive(&mut piece[..most])?;
    body.extend_from_slice(&piece[..count])?;
    Ok(count)
}

impl From<Failed> for AnswerFault {
    ghost use Rattle.std.specs.Prelude.{◌≡◌};
    ghost use Rattle.ak_http_wires.specs.declared.answers.AnswerFault.TheVariants as faults;

    ghost from_gives = { λ failed fault. fault ≡ faults.Failed };

    fn from(_failed: Failed) -> AnswerFault {
        AnswerFault::Failed
    }
}

impl From<AllocError> for AnswerFault {
    ghost use Rattle.std.specs.Prelude.{◌≡◌};
    ghost use Rattle.ak_http_wires.specs.declared.answers.AnswerFault.TheVariants as faults;

    ghost from_gives = { λ error fault. fault ≡ faults.Memory };

    fn from(_error: AllocError) -> AnswerFault {
        AnswerFault::Memory
    }
}

impl<T: Drop> From<AllocFailed<T>> for AnswerFault {
    ghost use Rattle.std.specs.Prelude.{◌≡◌};
    ghost use Rattle.ak_http_wires.specs.declared.answers.AnswerFault.TheVariants as faults;

    ghost from_gives = { λ memory fault. fault ≡ faults.Memory };

    fn from(_memory: AllocFailed<T>) -> AnswerFault {
        AnswerFault::Memory
    }
}
