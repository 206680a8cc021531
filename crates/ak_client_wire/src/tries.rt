ghost use Rattle.std.specs.Prelude.{◌≡◌};
ghost use Rattle.ak_client_wire.specs.Tries.{Tried, is_failed};

use crate::wires::{Wire, WireEnd};
use ak_messages::{Reply, Request};

/// Tries a request at most 3 times, again only after a call that got no answer: `Failed` says that all three got none.
pub fn try_thrice<W: Wire>(wire: &mut W, request: &Request) -> Result<Reply, WireEnd>
    ensures tried { Tried (W.health wire.old) (W.health wire.new) (W.state wire.old) (W.state wire.new)
        request.now result }
{
    let first = wire.call(request);
    if !is_failed(&first) {
        return first;
    }
    drop(first);
    let second = wire.call(request);
    if !is_failed(&second) {
        return second;
    }
    drop(second);
    wire.call(request)
}

/// Whether a call got no answer.
fn is_failed(answer: &Result<Reply, WireEnd>) -> bool
    ensures { result ≡ is_failed answer.now }
{
    matches!(answer, Err(WireEnd::Failed))
}
