// The replies of a server, by their form.
ghost use Rattle.std.specs.Prelude.{◌≡◌, IfOk};
ghost use Rattle.ak_io.specs.Arrivals.{IsClockMoment};
ghost use Rattle.ak_keep.specs.Collections.{Collection};
ghost use Rattle.ak_keep.specs.HeadNumbers.{numbered};
ghost use Rattle.ak_messages.specs.declared.replies.Give.TheVariants as gives;
ghost use Rattle.ak_protocol.specs.Replies.{granted, unknown_key, meta_reply};
ghost use Rattle.ak_server_rules.specs.Decisions.{declined_so, setback_reply};

use crate::decisions::Declined;
use ak_base::{Memory, Text};
use ak_keep::{KeepFault, Numbers};
use ak_messages::{Give, MetaReply, Reply, Word};
use std::alloc::Global;

/// 200: what was asked is done, and this is given.
pub fn granted(give: Give) -> Reply
    ensures { result ≡ granted give }
{
    Reply {
        status: 200,
        word: Word::Ok,
        seen: 0,
        give,
    }
}

/// The reply to a request that is refused so: it gives nothing.
pub fn declined_reply(why: Declined) -> Reply
    ensures { result ≡ declined_so why }
{
    Reply {
        status: why.status,
        word: why.word,
        seen: why.seen,
        give: Give::Nothing,
    }
}

/// The reply to a request whose host key is no account's.
pub fn unknown_key() -> Reply
    ensures { result ≡ unknown_key }
{
    Reply {
        status: 403,
        word: Word::Key,
        seen: 0,
        give: Give::Nothing,
    }
}

/// The reply if the account's keeper failed, or if memory ran out.
pub fn setback_reply(fault: KeepFault) -> Reply
    ensures { result ≡ setback_reply fault }
{
    match fault {
        KeepFault::Failed => Reply {
            status: 503,
            word: Word::Keeper,
            seen: 0,
            give: Give::Nothing,
        },
        KeepFault::Memory => Reply {
            status: 500,
            word: Word::Memory,
            seen: 0,
            give: Give::Nothing,
        },
    }
}

/// The reply to a meta at a moment in milliseconds, over a committed collection with these numbers.
pub fn meta_reply(alloc: Global, held: &Numbers, now: i64) -> Result<Reply, Memory>
    requires clock { IsClockMoment now }
    ensures { (c : Collection) → IfOk result (λ reply. reply ≡ granted (gives.Meta (meta_reply (numbered held.now c).head now))) }
{
    Ok(granted(Give::Meta(MetaReply {
        scm: held.schema,
        ts: now / 1000,
        moment: held.moment,
        usn: held.usn,
        musn: 0,
        msg: Text::of(alloc, "")?,
        cont: true,
    })))
}
