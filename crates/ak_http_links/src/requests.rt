ghost use Rattle.std.specs.Prelude.{◌≡◌};
ghost use Rattle.ak_faults.specs.Causes.{HasCauseOf};
ghost use Rattle.ak_http_links.specs.LinkReads.{AnswersBody, ReadsOrFails};
ghost use Rattle.ak_http_links.specs.declared.requests.RequestFault.TheVariants as faults;

use crate::bodies::receive_body;
use ak_base::Memory;
use ak_http_heads::{Head, HeadFault, read_head};
use ak_http_texts::Refusal;
use ak_io::Failed;
use ak_links::Link;
use ak_messages::Request;
use ak_wire::{WireFault, read_request};
use std::alloc::{AllocError, Global};

/// Why no request was read.
#[derive(Clone, Copy, Debug, PartialEq, Eq)]
pub enum RequestFault {
    /// The bytes are no request, by the first test that they fail; or memory is out.
    Refused(Refusal),
    /// The link failed.
    Failed,
}

/// Reads one request: its head, then a body of exactly the length that the head tells, and nothing behind it. The tests
/// come in the order of `Refusal`.
pub fn receive_request<L: Link>(alloc: Global, link: &mut L) -> Result<Request, RequestFault>
    ensures told { ReadsOrFails (L.left link.old) (L.left link.new) result }
    ensures apart { L.written link.new ≡ L.written link.old }
    ensures cause { HasCauseOf faults.Failed (L.health link.old) (L.health link.new) result }
{
    let head = match read_head(alloc, link) {
        Ok(head) => head,
        Err(fault) => return Err(RequestFault::from(fault)),
    };
    let body = receive_body(alloc, link, head.length)?;
    request_of(alloc, &head, body.as_slice())
}

/// The request of a head and a body.
fn request_of(alloc: Global, head: &Head, body: &[u8]) -> Result<Request, RequestFault>
    ensures { AnswersBody head.now body.now result }
{
    match read_request(alloc, head.envelope, head.method, body) {
        Ok(request) => Ok(request),
        Err(WireFault::Memory) => Err(RequestFault::Refused(Refusal::Memory)),
        Err(_other) => Err(RequestFault::Refused(Refusal::Body)),
    }
}

impl From<Failed> for RequestFault {
    ghost use Rattle.std.specs.Prelude.{◌≡◌};
    ghost use Rattle.ak_http_links.specs.declared.requests.RequestFault.TheVariants as faults;

    ghost from_gives = { λ failed fault. fault ≡ faults.Failed };

    fn from(_failed: Failed) -> RequestFault {
        RequestFault::Failed
    }
}

impl From<AllocError> for RequestFault {
    ghost use Rattle.std.specs.Prelude.{◌≡◌};
    ghost use Rattle.ak_http_texts.specs.declared.refusals.Refusal.TheVariants as refusals;
    ghost use Rattle.ak_http_links.specs.declared.requests.RequestFault.TheVariants as faults;

    ghost from_gives = { λ error fault. fault ≡ faults.Refused refusals.Memory };

    fn from(_error: AllocError) -> RequestFault {
        RequestFault::Refused(Refusal::Memory)
    }
}

impl From<HeadFault> for RequestFault {
    ghost use Rattle.std.specs.Prelude.{◌≡◌};
    ghost use Rattle.ak_http_links.specs.LinkReads.{of_head};

    ghost from_gives = { λ head fault. fault ≡ of_head head };

    fn from(fault: HeadFault) -> RequestFault {
        match fault {
            HeadFault::Refused(why) => RequestFault::Refused(why),
            HeadFault::Failed => RequestFault::Failed,
            HeadFault::Memory => RequestFault::Refused(Refusal::Memory),
        }
    }
}
