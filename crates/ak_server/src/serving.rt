// What an account makes of a request: first it is decided, then done. The kept reply is made before anything is committed.
ghost use Rattle.std.specs.Prelude.{◌≡◌, ◌≢◌, ℤ, true, false, Some, None, Err, IfOk, IfSome, OnOk, OnErr};
ghost use Rattle.ak_io.specs.Arrivals.{IsClockMoment};
ghost use Rattle.ak_faults.specs.Causes.{GoesOn};
ghost use Rattle.ak_keep.specs.Collections.{collection_of};
ghost use Rattle.ak_keep.specs.Keepers.{IsNamedRightly, KeepCause, back, committed, is_marked};
ghost use Rattle.ak_keep.specs.declared.keepers.KeepFault.TheVariants.{Memory as WantOfMemory};
ghost use Rattle.ak_keep.specs.Readings.{ReadsBy};
ghost use Rattle.ak_server_rules.specs.Sessions.{kept_seen};
ghost use Rattle.ak_messages.specs.MessageForms.{is_given_to};
ghost use Rattle.ak_messages.specs.declared.methods.Method.TheVariants as methods;
ghost use Rattle.ak_messages.specs.declared.requests.Ask.TheVariants as asks;
ghost use Rattle.ak_protocol.specs.Accounts.{repeated};
ghost use Rattle.ak_protocol.specs.Replies.{download_reply};
ghost use Rattle.ak_protocol.specs.Serving.{kept_of};
ghost use Rattle.ak_server.specs.Accounts.{IsRight, IsSameAccount, account_seen};
ghost use Rattle.ak_server.specs.Servers.{DoesSo, GivesAgain, IsStruck, IsTested, LeavesCommitted, RepliesAs, ServeCause, StrikesOne};
ghost use Rattle.ak_server.specs.Serving.{Accepts, Does, FindsAgain, IsAccepted, IsDecided, IsGivenAgain, IsOnlyRead, is_bad};
ghost use Rattle.ak_session.specs.Requests.{asks_commit, is_meta};
ghost use Rattle.std.specs.Option.{option_map};

use crate::accounts::Account;
use ak_keep::{KeepFault, Keeper};
use ak_messages::{Ask, Give, Reply, Request, Whole};
use ak_server_rules::{
    Kept, Session, declined_reply, granted, meta_reply, refusal_of, setback_reply,
};
use ak_server_steps::{Answered, Basis, answer, finish, read_whole, upload};
use ak_sync_rows::held_numbers;
use std::alloc::Global;

/// Serves a request at a moment, in milliseconds. If the keeper fails or memory runs out the session is over.
pub(crate) fn serve_account<K: Keeper>(
    alloc: Global,
    account: &mut Account<K>,
    request: &Request,
    now: i64,
) -> Reply
    requires clock { IsClockMoment now }
    requires right { IsRight K.keeping account.old }
    ensures right { IsRight K.keeping account.new }
    ensures same { IsSameAccount account.old account.new }
    ensures serves { IfSome (account_seen K.keeping account.old) (λ s. DoesSo K.keeping s request.now now account.new result) }
    ensures known { result.status ≢ 403 }
    ensures replies { RepliesAs K.keeping account.old request.now result }
    ensures again { GivesAgain (Some account.old) (Some account.new) request.now result }
    ensures struck { StrikesOne K.keeping account.old account.new request.now result }
    ensures cause { ServeCause (K.health account.old.keeper) (K.health account.new.keeper) result }
    ensures spares { K.spares_memory ≡ true → request.now.ask ≡ asks.Finish → result.status ≢ 500 }
{
    match attempt(alloc, account, request, now) {
        Ok(reply) => reply,
        Err(fault) => {
            strike(account, request);
            setback_reply(fault)
        }
    }
}

/// Serves a request, but for setbacks: these may leave the session half done, and the committed collection and the kept
/// reply as they were.
fn attempt<K: Keeper>(
    alloc: Global,
    account: &mut Account<K>,
    request: &Request,
    now: i64,
) -> Result<Reply, KeepFault>
    requires clock { IsClockMoment now }
    requires right { IsRight K.keeping account.old }
    ensures right { OnOk result (IsRight K.keeping account.new) }
    ensures same { IsSameAccount account.old account.new }
    ensures does { IfOk result (λ reply. Does K.keeping account.old request.now now account.new reply) }
    ensures again { FindsAgain (λ reply same. reply ≡ same) account.old account.new request.now result }
    ensures status { IfOk result (λ reply. IsDecided reply) }
    ensures tests { IfOk result (λ reply. IsTested K.keeping account.old request.now reply) }
    ensures err { OnErr result (LeavesCommitted K.keeping account.old account.new) }
    ensures cause { KeepCause (K.health account.old.keeper) (K.health account.new.keeper) result }
    ensures spares { K.spares_memory ≡ true → request.now.ask ≡ asks.Finish → result ≢ Err WantOfMemory }
{
    if let Ask::Meta = request.ask {
        return begin(alloc, account, request, now);
    }
    match repeat(alloc, account, request)? {
        Some(reply) => Ok(reply),
        None => decide(alloc, account, request, now),
    }
}

/// A meta: the session before it and the kept reply are forgotten, and a session of its key begins.
fn begin<K: Keeper>(
    alloc: Global,
    account: &mut Account<K>,
    request: &Request,
    now: i64,
) -> Result<Reply, KeepFault>
    requires clock { IsClockMoment now }
    requires right { IsRight K.keeping account.old }
    requires meta { is_meta request.now.ask ≡ true }
    ensures right { OnOk result (IsRight K.keeping account.new) }
    ensures same { IsSameAccount account.old account.new }
    ensures does { IfOk result (λ reply. Does K.keeping account.old request.now now account.new reply) }
    ensures status { IfOk result (λ reply. reply.status ≡ 200) }
    ensures err { OnErr result (LeavesCommitted K.keeping account.old account.new) }
    ensures cause { KeepCause (K.health account.old.keeper) (K.health account.new.keeper) result }
{
    end_session(account);
    let numbers = held_numbers(&mut account.keeper)?;
    let reply = meta_reply(alloc, &numbers, now)?;
    account.live = Some(Session::begun(request.session.0));
    account.kept = None;
    Ok(reply)
}

/// A setback: the session is over, and after a meta no reply is kept. It takes no memory.
fn strike<K: Keeper>(account: &mut Account<K>, request: &Request)
    ensures same { IsSameAccount account.old account.new }
    ensures struck { IsStruck K.keeping account.old account.new request.now }
    ensures goes { GoesOn (K.health account.old.keeper) (K.health account.new.keeper) }
{
    end_session(account);
    if let Ask::Meta = request.ask {
        account.kept = None;
    }
}

/// Ends the live session, if there is one: the keeper goes back to the mark. It takes no memory.
pub(crate) fn end_session<K: Keeper>(account: &mut Account<K>)
    ensures same { IsSameAccount account.old account.new }
    ensures kept { account.new.kept ≡ account.old.kept }
    ensures live { account.new.live ≡ None }
    ensures back { K.keeping account.new.keeper ≡ back (K.keeping account.old.keeper) }
    ensures goes { GoesOn (K.health account.old.keeper) (K.health account.new.keeper) }
    ensures known { IsNamedRightly (K.keeping account.old.keeper) }
{
    // For the proof alone: it says that an unmarked keeper tells no mark.
    let _known = account.keeper.held();
    if account.keeper.marked() {
        account.keeper.back();
    }
    account.live = None;
}

/// The kept reply, if the request is a repeat of the one that it replied to. A download is read again; any other asks
/// nothing of the keeper. The reply to a finish is copied without memory.
fn repeat<K: Keeper>(
    alloc: Global,
    account: &mut Account<K>,
    request: &Request,
) -> Result<Option<Reply>, KeepFault>
    requires right { IsRight K.keeping account.old }
    ensures same { IsOnlyRead K.keeping account.old account.new }
    ensures none { IfOk result (λ found. found ≡ None → repeated (option_map kept_seen account.old.kept) request.now ≡ None) }
    ensures again { IfOk result (λ found. IfSome found (λ reply. IsGivenAgain K.keeping account.old request.now reply)) }
    ensures kept { FindsAgain (λ found same. found ≡ Some same) account.old account.new request.now result }
    ensures status { IfOk result (λ found. IfSome found (λ reply. reply.status ≡ 200)) }
    ensures cause { KeepCause (K.health account.old.keeper) (K.health account.new.keeper) result }
    ensures spares { request.now.ask ≡ asks.Finish → result ≢ Err WantOfMemory }
{
    let Some(kept) = &account.kept else {
        return Ok(None);
    };
    if !kept.is_of(request) {
        return Ok(None);
    }
    match &kept.reply {
        Some(reply) => Ok(Some(reply.copy()?)),
        None => Ok(Some(read_download(alloc, &mut account.keeper)?)),
    }
}

/// The reply to a download.
fn read_download<K: Keeper>(alloc: Global, keeper: &mut K) -> Result<Reply, KeepFault>
    requires held { (K.keeping keeper.old).headed.current ≡ true }
    ensures reads { ReadsBy K.Lookup keeper.old keeper.new result (λ h reply.
        IfSome (collection_of h) (λ c. reply ≡ download_reply c)) }
    ensures known { IsNamedRightly (K.keeping keeper.old) }
    ensures status { IfOk result (λ reply. reply.status ≡ 200) }
{
    let whole = read_whole(alloc, keeper)?;
    Ok(granted(Give::Whole(whole)))
}

/// Serves a request that is no meta and no repeat: it is refused, or done.
fn decide<K: Keeper>(
    alloc: Global,
    account: &mut Account<K>,
    request: &Request,
    now: i64,
) -> Result<Reply, KeepFault>
    requires clock { IsClockMoment now }
    requires right { IsRight K.keeping account.old }
    requires later { is_meta request.now.ask ≡ false }
    requires first { repeated (option_map kept_seen account.old.kept) request.now ≡ None }
    ensures right { OnOk result (IsRight K.keeping account.new) }
    ensures same { IsSameAccount account.old account.new }
    ensures does { IfOk result (λ reply. Does K.keeping account.old request.now now account.new reply) }
    ensures status { IfOk result (λ reply. IsDecided reply) }
    ensures tests { IfOk result (λ reply. IsTested K.keeping account.old request.now reply) }
    ensures err { OnErr result (LeavesCommitted K.keeping account.old account.new) }
    ensures cause { KeepCause (K.health account.old.keeper) (K.health account.new.keeper) result }
    ensures spares { K.spares_memory ≡ true → request.now.ask ≡ asks.Finish → result ≢ Err WantOfMemory }
{
    let numbers = held_numbers(&mut account.keeper)?;
    if let Some(why) = refusal_of(&numbers, &account.live, request)? {
        return Ok(declined_reply(why));
    }
    let Some(live) = account.live else {
        unreachable!();
    };
    accept(alloc, account, Basis { numbers, live }, request, now)
}

/// Does what an accepted request asks.
fn accept<K: Keeper>(
    alloc: Global,
    account: &mut Account<K>,
    basis: Basis,
    request: &Request,
    now: i64,
) -> Result<Reply, KeepFault>
    requires clock { IsClockMoment now }
    requires right { IsRight K.keeping account.old }
    requires accepted { IsAccepted K.keeping account.old basis request.now }
    ensures right { OnOk result (IsRight K.keeping account.new) }
    ensures same { IsSameAccount account.old account.new }
    ensures does { IfOk result (λ reply. Accepts K.keeping account.old request.now now account.new reply) }
    ensures status { IfOk result (λ reply. reply.status ≡ 200) }
    ensures err { OnErr result (LeavesCommitted K.keeping account.old account.new) }
    ensures cause { KeepCause (K.health account.old.keeper) (K.health account.new.keeper) result }
    ensures spares { K.spares_memory ≡ true → request.now.ask ≡ asks.Finish → result ≢ Err WantOfMemory }
{
    match &request.ask {
        Ask::Upload(whole) => close_upload(account, basis, request, whole, now),
        Ask::Finish => close_sync(account, basis, request, now),
        _ => go_on(alloc, account, basis, request),
    }
}

/// Serves an accepted upload of this collection.
fn close_upload<K: Keeper>(
    account: &mut Account<K>,
    basis: Basis,
    request: &Request,
    whole: &Whole,
    now: i64,
) -> Result<Reply, KeepFault>
    requires clock { IsClockMoment now }
    requires right { IsRight K.keeping account.old }
    requires accepted { IsAccepted K.keeping account.old basis request.now }
    requires asked { request.now.ask ≡ asks.Upload whole.now }
    ensures right { OnOk result (IsRight K.keeping account.new) }
    ensures same { IsSameAccount account.old account.new }
    ensures does { IfOk result (λ reply. Accepts K.keeping account.old request.now now account.new reply) }
    ensures status { IfOk result (λ reply. reply.status ≡ 200) }
    ensures err { OnErr result (LeavesCommitted K.keeping account.old account.new) }
    ensures cause { KeepCause (K.health account.old.keeper) (K.health account.new.keeper) result }
{
    let give = upload(&mut account.keeper, &basis.numbers, whole, now)?;
    commit(account, request, granted(give))
}

/// Serves an accepted finish.
fn close_sync<K: Keeper>(
    account: &mut Account<K>,
    basis: Basis,
    request: &Request,
    now: i64,
) -> Result<Reply, KeepFault>
    requires clock { IsClockMoment now }
    requires right { IsRight K.keeping account.old }
    requires accepted { IsAccepted K.keeping account.old basis request.now }
    requires asked { request.now.ask ≡ asks.Finish }
    ensures right { OnOk result (IsRight K.keeping account.new) }
    ensures same { IsSameAccount account.old account.new }
    ensures does { IfOk result (λ reply. Accepts K.keeping account.old request.now now account.new reply) }
    ensures status { IfOk result (λ reply. reply.status ≡ 200) }
    ensures err { OnErr result (LeavesCommitted K.keeping account.old account.new) }
    ensures cause { KeepCause (K.health account.old.keeper) (K.health account.new.keeper) result }
    ensures spares { K.spares_memory ≡ true → result ≢ Err WantOfMemory }
{
    let give = finish(&mut account.keeper, basis, now)?;
    commit(account, request, granted(give))
}

/// Keeps the reply and what was made, and ends the session. The kept reply is made first, so that nothing can come between.
fn commit<K: Keeper>(
    account: &mut Account<K>,
    request: &Request,
    reply: Reply,
) -> Result<Reply, KeepFault>
    requires marked { is_marked (K.keeping account.old.keeper) ≡ true }
    ensures same { IsSameAccount account.old account.new }
    ensures reply { IfOk result (λ given. given ≡ reply) }
    ensures live { OnOk result (account.new.live ≡ None) }
    ensures kept { OnOk result (option_map kept_seen account.new.kept ≡ Some (kept_of request.now reply)) }
    ensures ok { OnOk result (K.keeping account.new.keeper ≡ committed (K.keeping account.old.keeper)) }
    ensures err { OnErr result (LeavesCommitted K.keeping account.old account.new) }
    ensures cause { KeepCause (K.health account.old.keeper) (K.health account.new.keeper) result }
    ensures spares { K.spares_memory ≡ true → is_given_to methods.Finish reply.give ≡ true → result ≢ Err WantOfMemory }
{
    let kept = Kept::of(request, &reply)?;
    account.keeper.commit()?;
    account.live = None;
    account.kept = Some(kept);
    Ok(reply)
}

/// Serves an accepted request that does not commit. After a bad sanity check the session is over.
fn go_on<K: Keeper>(
    alloc: Global,
    account: &mut Account<K>,
    basis: Basis,
    request: &Request,
) -> Result<Reply, KeepFault>
    requires right { IsRight K.keeping account.old }
    requires accepted { IsAccepted K.keeping account.old basis request.now }
    requires stays { asks_commit request.now.ask ≡ false }
    ensures right { OnOk result (IsRight K.keeping account.new) }
    ensures same { IsSameAccount account.old account.new }
    ensures does { (now : ℤ) → IfOk result (λ reply. Accepts K.keeping account.old request.now now account.new reply) }
    ensures status { IfOk result (λ reply. reply.status ≡ 200) }
    ensures err { OnErr result (LeavesCommitted K.keeping account.old account.new) }
    ensures cause { KeepCause (K.health account.old.keeper) (K.health account.new.keeper) result }
{
    let live = basis.live;
    let Answered { give, done, given } = answer(alloc, &mut account.keeper, basis, &request.ask)?;
    let ends = is_bad(&give);
    let reply = granted(give);
    let kept = Kept::of(request, &reply)?;
    if ends {
        end_session(account);
        account.kept = Some(kept);
        return Ok(reply);
    }
    account.live = Some(live.with(&request.ask, done, given));
    account.kept = Some(kept);
    Ok(reply)
}

/// Whether this is the reply to a bad sanity check.
fn is_bad(give: &Give) -> bool
    ensures { result ≡ is_bad give.now }
{
    match give {
        Give::Sanity(sanity) => !sanity.good,
        _ => false,
    }
}
