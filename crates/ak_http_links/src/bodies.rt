ghost use Rattle.std.specs.Prelude.{◌≡◌, ◌+◌, ◌<◌, ◌≤◌, ◌++◌, length, take, IfOk, OnOk, OnErr};
ghost use Rattle.std.specs.Io.KnownBytes.{Consumes, IsAtEnd, Keeps};
ghost use Rattle.ak_faults.specs.Causes.{HasCauseOf};
ghost use Rattle.ak_http_links.specs.LinkReads.{ReadsBodyFrom, ReadsPiece};
ghost use Rattle.ak_http_links.specs.declared.requests.RequestFault.TheVariants as faults;

use crate::requests::RequestFault;
use ak_base::List;
use ak_http_texts::Refusal;
use ak_links::Link;
use std::alloc::Global;

/// How many bytes of a body are read at a time.
const PIECE_SIZE: usize = 4096;

/// Reads so many bytes. Memory for all of them is asked for before the first is read.
pub(crate) fn receive_body<L: Link>(
    alloc: Global,
    link: &mut L,
    size: usize,
) -> Result<List<u8>, RequestFault>
    ensures told { ReadsBodyFrom size (L.left link.old) (L.left link.new) result }
    ensures apart { L.written link.new ≡ L.written link.old }
    ensures cause { HasCauseOf faults.Failed (L.health link.old) (L.health link.new) result }
{
    let mut body = Vec::with_capacity(alloc, size)?;
    while body.as_slice().len() < size {
        let missing = size - body.as_slice().len();
        if receive_piece(link, &mut body, missing)? == 0 {
            return Err(RequestFault::Refused(Refusal::Cut));
        }
    }
    Ok(List::of(body))
}

/// Reads the next bytes, at most so many, and adds them to the body. No byte is the end of the input.
fn receive_piece<L: Link>(
    link: &mut L,
    body: &mut Vec<u8>,
    missing: usize,
) -> Result<usize, RequestFault>
    requires { 0 < missing }
    ensures told { ReadsPiece missing (L.left link.old) (L.left link.new) body.old.items body.new.items result }
    ensures apart { L.written link.new ≡ L.written link.old }
    ensures cause { HasCauseOf faults.Failed (L.health link.old) (L.health link.new) result }
{
    let mut piece = [0u8; PIECE_SIZE];
    let most = missing.min(PIECE_SIZE);
    let count = link.receive(&mut piece[..most])?;
    body.extend_from_slice(&piece[..count])?;
    Ok(count)
}
