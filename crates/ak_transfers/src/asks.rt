// The two requests that carry a whole collection: each is tried, and its reply is read by its form.
ghost use Rattle.std.specs.Prelude.{◌≡◌};
ghost use Rattle.ak_client_wire.specs.Tries.{Answered, granted_in, in_form};
ghost use Rattle.ak_exchange.specs.Asked.{asker, request_at};
ghost use Rattle.ak_transfers.specs.Forms.{uploaded_in, whole_in};

use ak_client_wire::{Unanswered, Wire, granted_in, in_form, is_moment, try_thrice};
use ak_exchange::Ids;
use ak_messages::{Ask, Give, Request, Whole};

/// The moments of what an upload committed, in milliseconds.
#[derive(Clone, Copy, Debug, PartialEq, Eq)]
pub struct UploadMoments {
    pub moment: i64,
    pub schema: i64,
}

/// The one request of a transfer after its meta, over the moment that this told.
pub(crate) fn first_request(ids: Ids, moment: i64, ask: Ask) -> Request
    ensures { result ≡ request_at (asker ids) moment 1 ask }
{
    Request {
        host: ids.host,
        session: ids.session,
        step: 1,
        base: moment,
        ask,
    }
}

/// Asks an upload, and answers the moments of what it committed.
pub(crate) fn ask_upload<W: Wire>(
    wire: &mut W,
    request: &Request,
) -> Result<UploadMoments, Unanswered>
    ensures { Answered (W.health wire.old) (W.health wire.new) (W.state wire.old) (W.state wire.new)
        request.now uploaded_in result }
{
    let give = granted_in(try_thrice(wire, request))?;
    in_form(uploaded_in(&give))
}

/// Asks a download, and answers the whole collection that it gives.
pub(crate) fn ask_whole<W: Wire>(wire: &mut W, request: &Request) -> Result<Whole, Unanswered>
    ensures { Answered (W.health wire.old) (W.health wire.new) (W.state wire.old) (W.state wire.new)
        request.now whole_in result }
{
    let give = granted_in(try_thrice(wire, request))?;
    in_form(whole_in(give))
}

/// The moments of what an upload committed, if both are in their ranges.
fn uploaded_in(give: &Give) -> Option<UploadMoments>
    ensures { result ≡ uploaded_in give.now }
{
    match give {
        Give::Uploaded { moment, schema } if is_moment(*moment) && is_moment(*schema) => {
            Some(UploadMoments {
                moment: *moment,
                schema: *schema,
            })
        }
        _ => None,
    }
}

/// The whole collection, if one is given.
fn whole_in(give: Give) -> Option<Whole>
    ensures { result ≡ whole_in give }
{
    match give {
        Give::Whole(whole) => Some(whole),
        _other => None,
    }
}
