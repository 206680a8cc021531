use crate::exchanges::exchange;
use crate::request_texts::request_text;
use ak_base::{Memory, Text};
use ak_call_counts::CallCounts;
use ak_client_wire::{Said, Wire, WireEnd};
use ak_io::{End, Failed};
use ak_links::Dial;
use ak_messages::{Reply, Request};
use ak_sync_rows::asked_method;
use std::alloc::Global;

/// A wire over HTTP: each call dials once, writes one request and reads one answer. It knows nothing of the server's log.
#[derive(Drop)]
pub struct HttpWire<D> {
    alloc: Global,
    dial: D,
    host_name: Text,
    counts: CallCounts,
    bad: u64,
}

impl<D: Dial> HttpWire<D> {
    ghost use Rattle.std.specs.Prelude.{◌≡◌};
    ghost use Rattle.ak_call_counts.specs.CallCounts.{no_calls};
    ghost use Rattle.ak_http_wires.specs.HttpWires.{CallsOnce};
    ghost use Rattle.ak_http_wires.specs.RequestTexts.{request_http};
    ghost use Rattle.ak_session.specs.Requests.{asked_method};

    /// A wire to the server that the dial leads to. The name goes into each request as its `Host`.
    pub fn to(alloc: Global, dial: D, host_name: Text) -> HttpWire<D>
        ensures dial { result.dial ≡ dial }
        ensures host_name { result.host_name ≡ host_name }
        ensures counts { result.counts ≡ no_calls }
        ensures bad { result.bad ≡ 0 }
    {
        HttpWire {
            alloc,
            dial,
            host_name,
            counts: CallCounts::new(),
            bad: 0,
        }
    }

    /// Dials once, and exchanges a request for a reply. Where memory runs out before, it dials not at all.
    fn ask(&mut self, request: &Request) -> Result<Reply, WireEnd>
        ensures once { CallsOnce D.to_come D.health D.Link.left D.Link.written D.Link.health (asked_method request.now.ask)
            (request_http self.old.host_name request.now) self.old.dial self.new.dial result }
        ensures counts { self.new.counts ≡ self.old.counts }
        ensures bad { self.new.bad ≡ self.old.bad }
        ensures host_name { self.new.host_name ≡ self.old.host_name }
    {
        let text = match request_text(self.alloc, self.host_name.as_str(), request) {
            Ok(text) => text,
            Err(Memory) => return Err(WireEnd::Memory),
        };
        let mut link = match self.dial.dial() {
            Ok(link) => link,
            Err(Failed) => return Err(WireEnd::Failed),
        };
        exchange(
            self.alloc,
            &mut link,
            text.as_str(),
            asked_method(&request.ask),
        )
    }
}

impl<D: Dial> End for HttpWire<D> {
    ghost use Rattle.ak_io.specs.Ends.{uncertain};

    ghost health = { λ wire. uncertain wire.counts.faults };

    fn faults(&self) -> u64 {
        self.counts.faults
    }
}

impl<D: Dial> Wire for HttpWire<D> {
    ghost use Rattle.std.specs.Prelude.{◌≡◌};
    ghost use Rattle.ak_call_counts.specs.CallCounts.{counts_after};
    ghost use Rattle.ak_io.specs.Ends.{uncertain};
    ghost use Rattle.ak_http_wires.specs.HttpWires.{CallsOnce, http_state, bad_after};
    ghost use Rattle.ak_http_wires.specs.RequestTexts.{request_http};
    ghost use Rattle.ak_session.specs.Requests.{asked_method};
    ghost use Rattle.ak_client_wire.specs.Wires.{Called, plain_kind};

    ghost kind = { plain_kind };

    ghost state = { λ wire. http_state wire.counts wire.bad };

    fn bad(&self) -> u64 {
        self.bad
    }

    fn silent(&self) -> u64 {
        self.counts.silent
    }

    fn last(&self) -> Option<Said> {
        self.counts.last()
    }

    /// Sends a request over one new link, and answers the reply that the answer on it is read as. It fails if the dial or
    /// the link does. It dials once, however that ends.
    fn call(&mut self, request: &Request) -> Result<Reply, WireEnd>
        ensures called { Called (uncertain self.old.counts.faults) (uncertain self.new.counts.faults)
            (http_state self.old.counts self.old.bad) (http_state self.new.counts self.new.bad) request.now result }
        ensures once { CallsOnce D.to_come D.health D.Link.left D.Link.written D.Link.health (asked_method request.now.ask)
            (request_http self.old.host_name request.now) self.old.dial self.new.dial result }
        ensures counts { self.new.counts ≡ counts_after self.old.counts request.now result }
        ensures bad { self.new.bad ≡ bad_after self.old.bad result }
        ensures host_name { self.new.host_name ≡ self.old.host_name }
    {
        let answer = self.ask(request);
        if let Err(WireEnd::BadReply) = answer {
            self.bad = self.bad.saturating_add(1);
        }
        self.counts.count(request, &answer);
        answer
    }
}
