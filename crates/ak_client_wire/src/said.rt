ghost use Rattle.std.specs.Prelude.{◌≡◌};
ghost use Rattle.ak_client_wire.specs.Wires.{meta_said, sanity_said, said_of};

use crate::forms::{meta_in, sanity_in};
use crate::wires::{MetaSaid, Said};
use ak_messages::{Ask, Reply, Request, SanityReply};

/// What the reply to a request says. It takes no memory.
pub fn said_of(request: &Request, reply: &Reply) -> Said
    ensures { result ≡ said_of request.now reply.now }
{
    Said {
        session: request.session,
        status: reply.status,
        word: reply.word,
        seen: reply.seen,
        meta: meta_said(&request.ask, reply),
        sanity: sanity_said(&request.ask, reply),
    }
}

impl Said {
    /// An equal one of its own. It takes no memory.
    pub fn copy(&self) -> Said
        ensures { result ≡ self.now }
    {
        Said {
            session: self.session,
            status: self.status,
            word: self.word,
            seen: self.seen,
            meta: self.meta,
            sanity: copy_sanity(&self.sanity),
        }
    }
}

/// An equal reply of its own.
fn copy_sanity(sanity: &Option<SanityReply>) -> Option<SanityReply>
    ensures { result ≡ sanity.now }
{
    match sanity {
        Some(reply) => Some(reply.copy()),
        None => None,
    }
}

/// What the reply to a meta says, if it was granted and has its form.
fn meta_said(ask: &Ask, reply: &Reply) -> Option<MetaSaid>
    ensures { result ≡ meta_said ask.now reply.now }
{
    match ask {
        Ask::Meta if reply.status == 200 => meta_in(&reply.give),
        _ => None,
    }
}

/// What the reply to a sanity check says, if it was granted and has its form.
fn sanity_said(ask: &Ask, reply: &Reply) -> Option<SanityReply>
    ensures { result ≡ sanity_said ask.now reply.now }
{
    match ask {
        Ask::SanityCheck2(_) if reply.status == 200 => sanity_in(&reply.give),
        _ => None,
    }
}
