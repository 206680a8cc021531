ghost use Rattle.std.specs.Prelude.{◌≡◌, false, [], IfOk};
ghost use Rattle.ak_base.specs.Heads.{IsHeadInRange};
ghost use Rattle.ak_keep.specs.Keepers.{all_known, is_marked};
ghost use Rattle.ak_merge.specs.Commits.{IsCommitted};
ghost use Rattle.ak_sync_in_memory.specs.Entries.{collection_in};

use ak_base::{Head, HostKey, List, Text};
use ak_memory::MemoryKeeper;
use ak_openings::{Opening, opening_conf};
use ak_sync_in_memory::{LoggedServer, keeper_with};
use cases_lines::Unread;
use std::alloc::Global;

/// A server whose account holds no row, and was made and changed last at this moment, in milliseconds. Its host key is 32
/// letters `a`.
#[tactic(auto, using(crate::proofs::Empty::are_distinct))]
pub fn empty_account(alloc: Global, at: i64) -> Result<LoggedServer, Unread> {
    let opening = empty_opening(alloc, at)?;
    let name = Text::of(alloc, "account")?;
    Ok(LoggedServer::new(alloc, name, host_key()?, opening)?)
}

/// A keeper of a collection that holds no row, and was made and changed last at this moment, in milliseconds.
#[tactic(auto, using(crate::proofs::Empty::are_distinct))]
pub fn empty_keeper(alloc: Global, at: i64) -> Result<MemoryKeeper, Unread>
    ensures unmarked { IfOk result (λ keeper. is_marked (all_known keeper.kept) ≡ false) }
{
    let opening = empty_opening(alloc, at)?;
    Ok(keeper_with(alloc, opening)?)
}

/// The host key of the one account: 32 letters `a`.
pub fn host_key() -> Result<HostKey, Unread> {
    HostKey::of("aaaaaaaaaaaaaaaaaaaaaaaaaaaaaaaa").ok_or(Unread::Bad)
}

/// A collection without rows.
fn empty_opening(alloc: Global, at: i64) -> Result<Opening, Unread>
    ensures rows { IfOk result (λ it. it.rows ≡ []) }
    ensures range { IfOk result (λ it. IsHeadInRange it.head) }
    ensures committed { IfOk result (λ it. IsCommitted (collection_in it)) }
{
    let head = Head {
        crt: 0,
        moment: at,
        schema: at,
        usn: 1,
        last_sync: 0,
        conf: opening_conf(alloc)?,
        tags: List::new(alloc),
    };
    opening_of(alloc, head)
}

fn opening_of(alloc: Global, head: Head) -> Result<Opening, Unread>
    requires { head.tags ≡ [] }
    ensures rows { IfOk result (λ it. it.rows ≡ []) }
    ensures range { IfOk result (λ it. IsHeadInRange it.head) }
    ensures committed { IfOk result (λ it. IsCommitted (collection_in it)) }
{
    if !head.is_in_range() {
        return Err(Unread::Bad);
    }
    Ok(Opening {
        rows: List::new(alloc),
        head,
    })
}
