// The requests of a sync, step by step.
ghost use Rattle.std.specs.Prelude.{◌≡◌, ◌+◌, ◌^◌, pos, IfOk, OnErr};
ghost use Rattle.ak_messages.specs.declared.requests.Ask.TheVariants as asks;

use ak_base::{Head, HostKey, Memory, SessionKey};
use ak_client_wire::MetaSaid;
use ak_messages::{Ask, Request};

/// Who syncs: the account and the session.
#[derive(Clone, Copy, Debug, PartialEq, Eq)]
pub struct Ids {
    pub host: HostKey,
    pub session: SessionKey,
}

/// What a sync knows once it may go on: what the meta said, and the device's head.
#[derive(Drop)]
pub struct Met {
    pub meta: MetaSaid,
    pub head: Head,
}

/// The request that begins a sync: its step is 0, and so is its base.
pub fn meta_request(ids: Ids) -> Request
    ensures { result ≡ record { host = ids.host; session = ids.session; step = 0; base = pos 0; ask = asks.Meta } }
{
    Request {
        host: ids.host,
        session: ids.session,
        step: 0,
        base: 0,
        ask: Ask::Meta,
    }
}

/// A sync after its meta: the moment of the committed collection that the meta told, and the last step.
#[derive(Clone, Copy, Debug)]
pub struct Envelopes {
    pub ids: Ids,
    pub base: i64,
    pub step: u64,
}

impl Envelopes {
    /// The next request, whose step is one higher. More steps than a `u64` holds are more than memory holds.
    pub fn request(&mut self, ask: Ask) -> Result<Request, Memory>
        ensures made { IfOk result (λ it. it ≡ record {
          host = self.old.ids.host;
          session = self.old.ids.session;
          step = self.old.step + 1;
          base = self.old.base;
          ask = ask;
        }) }
        ensures next { IfOk result (λ it. self.new ≡ record self.old { step = self.old.step + 1 }) }
        ensures stays { OnErr result (self.new ≡ self.old) }
        ensures full { OnErr result (self.old.step + 1 ≡ 2 ^ 64) }
    {
        match self.step.checked_add(1) {
            Some(step) => {
                self.step = step;
                Ok(Request {
                    host: self.ids.host,
                    session: self.ids.session,
                    step,
                    base: self.base,
                    ask,
                })
            }
            None => {
                drop(ask);
                Err(Memory)
            }
        }
    }
}
