ghost use Rattle.std.specs.Prelude.{◌≡◌};
ghost use Rattle.ak_http_texts.specs.Refusals.{status_of};
ghost use Rattle.ak_http_texts.specs.ReplyTexts.{refusal_http};
ghost use Rattle.ak_http_links.specs.LinkWrites.{WritesReply, WritesText};
ghost use Rattle.ak_http_links.specs.Isolation.{IsIsolated, StaysLawful};
ghost use Rattle.ak_http_links.specs.ServedLinks.{EndCause, ServesLink};

use crate::link_ends::LinkEnd;
use crate::requests::{RequestFault, receive_request};
use crate::sends::send_all;
use ak_base::Memory;
use ak_http_texts::{Refusal, refusal_text, reply_text};
use ak_io::{Clock, Failed};
use ak_keep::Keeper;
use ak_links::Link;
use ak_messages::Reply;
use ak_server::Server;
use std::alloc::Global;

/// Serves one request of a link, and writes one reply: that of the server, or of the first test that the bytes fail. The
/// server, at a moment that the clock is asked for right before, serves only a request that fails none. Bytes behind the
/// body stay unread.
pub fn serve_link<L: Link, K: Keeper, C: Clock>(
    alloc: Global,
    link: &mut L,
    server: &mut Server<K>,
    clock: &mut C,
) -> LinkEnd
    ensures serves { ServesLink K.keeping K.health
        (record { left = L.left link.old; written = L.written link.old; accounts = server.old; moments = C.to_come clock.old })
        (record { left = L.left link.new; written = L.written link.new; accounts = server.new; moments = C.to_come clock.new })
        result }
    ensures isolated { IsIsolated (L.left link.old) server.old server.new }
    ensures lawful { StaysLawful K.keeping server.old server.new }
    ensures cause { EndCause (L.health link.old) (L.health link.new) result }
{
    match receive_request(alloc, link) {
        Ok(request) => {
            let now = clock.now();
            let reply = server.serve(&request, now);
            send_reply(alloc, link, &reply)
        }
        Err(RequestFault::Refused(why)) => send_refusal(link, why),
        Err(RequestFault::Failed) => LinkEnd::Failed,
    }
}

/// Writes a reply.
fn send_reply<L: Link>(alloc: Global, link: &mut L, reply: &Reply) -> LinkEnd
    ensures writes { WritesReply (L.written link.old) (L.written link.new) reply.now result }
    ensures apart { L.left link.new ≡ L.left link.old }
    ensures cause { EndCause (L.health link.old) (L.health link.new) result }
{
    match reply_text(alloc, reply) {
        Ok(text) => send_text(link, text.as_str(), reply.status),
        Err(Memory) => LinkEnd::Memory,
    }
}

/// Writes the reply that tells a refusal. It takes no memory.
fn send_refusal<L: Link>(link: &mut L, why: Refusal) -> LinkEnd
    ensures writes { WritesText (L.written link.old) (L.written link.new) (refusal_http why) (status_of why) result }
    ensures apart { L.left link.new ≡ L.left link.old }
    ensures cause { EndCause (L.health link.old) (L.health link.new) result }
{
    send_text(link, refusal_text(why), why.status())
}

/// Writes the whole text of a reply of this status. It takes no memory.
fn send_text<L: Link>(link: &mut L, text: &str, status: u16) -> LinkEnd
    ensures writes { WritesText (L.written link.old) (L.written link.new) text.now status result }
    ensures apart { L.left link.new ≡ L.left link.old }
    ensures cause { EndCause (L.health link.old) (L.health link.new) result }
{
    match send_all(link, text.as_bytes()) {
        Ok(()) => LinkEnd::Served(status),
        Err(Failed) => LinkEnd::Failed,
    }
}
