// What an accepted request does to the session's tables, and what it is given.
ghost use Rattle.std.specs.Prelude.{◌≡◌, true, false, IfOk, OnOk};
ghost use Rattle.std.specs.Option.{option_map};
ghost use Rattle.ak_keep.specs.Keepers.{KeepCause, WhereHeld, WhereTold, back, changed, is_marked, marked_here};
ghost use Rattle.ak_keep.specs.Readings.{ReadsBy};
ghost use Rattle.ak_keep.specs.declared.keepers.Wanted.TheVariants.{From as From_usn};
ghost use Rattle.ak_messages.specs.declared.requests.Ask.TheVariants as asks;
ghost use Rattle.ak_server_steps.specs.Answers.{Answers, HasNumbers, IsNextChunk, answered, changes_given, expects_mark, held_with, is_chunk, settings_unless_newer, tables_of};
ghost use Rattle.ak_sync_rows.specs.Takes.{MayBeTaken};
ghost use Rattle.ak_session.specs.Asks.{brought};
ghost use Rattle.ak_session.specs.Messages.{grave_ids, newer_of};
ghost use Rattle.ak_session.specs.Slices.{wanted_graves};

use crate::sanity::sanity_of;
use crate::wholes::read_whole;
use ak_base::{Head, Memory, Name};
use ak_keep::{KeepFault, Keeper, Numbers, Wanted};
use ak_merge::Side;
use ak_messages::{Ask, Changes, Chunk, Give, GraveIds, Newer};
use ak_server_rules::Session;
use ak_sync_rows::{
    changes_of, chunk_of, grave_ids, head_of, newer_of, next_rows, take_changes, take_chunk_rows,
    take_given_graves, wanted_changes, wanted_graves, wanted_tags,
};
use std::alloc::Global;

/// What a request was tested against: the numbers of the head that is held, and the live session.
#[derive(Clone, Copy, Debug)]
pub struct Basis {
    pub numbers: Numbers,
    pub live: Session,
}

/// What an accepted request is given, whether it was the last chunk of its direction, and where the next chunk begins.
#[derive(Drop)]
pub struct Answered {
    pub give: Give,
    pub done: bool,
    pub given: Name,
}

/// Answers an accepted request that neither commits nor is a meta. A refusal may leave the session half done. The head is
/// read only for changes and for a download.
pub fn answer<K: Keeper>(
    alloc: Global,
    keeper: &mut K,
    basis: Basis,
    ask: &Ask,
) -> Result<Answered, KeepFault>
    requires held { HasNumbers (K.keeping keeper.old) basis.numbers }
    requires marked { is_marked (K.keeping keeper.old) ≡ expects_mark ask.now }
    requires taken { MayBeTaken (brought ask.now) }
    ensures ok { OnOk result (K.keeping keeper.new ≡ answered ask.now (K.keeping keeper.old)) }
    ensures told { IfOk result (λ it. WhereHeld (K.keeping keeper.old) (λ tables. Answers tables basis.live ask.now it)) }
    ensures given { IfOk result (λ it. is_chunk ask.now ≡ false → it.given ≡ basis.live.given) }
    ensures committed { back (K.keeping keeper.new) ≡ back (K.keeping keeper.old) }
    ensures cause { KeepCause (K.health keeper.old) (K.health keeper.new) result }
{
    let given = basis.live.given;
    match ask {
        Ask::Start { min_usn, .. } => {
            let graves = start(alloc, keeper, *min_usn)?;
            Ok(give_answer(Give::Graves(graves), false, given))
        }
        Ask::ApplyGraves(ids) => {
            apply_graves(keeper, ids, basis.numbers)?;
            Ok(give_answer(Give::Nothing, false, given))
        }
        Ask::ApplyChanges(changes) => {
            let changes = exchange_changes(alloc, keeper, basis.live, changes)?;
            Ok(give_answer(Give::Changes(changes), false, given))
        }
        Ask::Chunk => give_chunk(alloc, keeper, basis.live),
        Ask::ApplyChunk(chunk) => {
            apply_chunk(keeper, chunk, basis.numbers)?;
            Ok(give_answer(Give::Nothing, chunk.done, given))
        }
        Ask::SanityCheck2(counts) => {
            let sanity = sanity_of(keeper, *counts)?;
            Ok(give_answer(Give::Sanity(sanity), false, given))
        }
        Ask::Download => {
            let whole = read_whole(alloc, keeper)?;
            Ok(give_answer(Give::Whole(whole), false, given))
        }
        Ask::Meta => Ok(give_answer(Give::Nothing, false, given)),
        Ask::Finish => Ok(give_answer(Give::Nothing, false, given)),
        Ask::Upload(_) => Ok(give_answer(Give::Nothing, false, given)),
    }
}

/// What is answered.
fn give_answer(give: Give, done: bool, given: Name) -> Answered
    ensures { result ≡ record { give = give; done = done; given = given } }
{
    Answered { give, done, given }
}

/// A start: the graves with at least the usn are given, and the keeper is marked.
#[tactic(auto, using(crate::proofs::Marking::back_stays))]
fn start<K: Keeper>(alloc: Global, keeper: &mut K, min_usn: i64) -> Result<GraveIds, KeepFault>
    requires unmarked { is_marked (K.keeping keeper.old) ≡ false }
    ensures ok { OnOk result (K.keeping keeper.new ≡ marked_here (K.keeping keeper.old)) }
    ensures told { IfOk result (λ ids. WhereTold (K.keeping keeper.old) (λ h. ids ≡ grave_ids (wanted_graves (From_usn min_usn) h.rows))) }
    ensures committed { back (K.keeping keeper.new) ≡ back (K.keeping keeper.old) }
    ensures cause { KeepCause (K.health keeper.old) (K.health keeper.new) result }
{
    let graves = wanted_graves(keeper, Wanted::From(min_usn))?;
    let ids = grave_ids(alloc, graves.as_slice())?;
    keeper.mark()?;
    Ok(ids)
}

/// Takes the graves that came.
fn apply_graves<K: Keeper>(
    keeper: &mut K,
    ids: &GraveIds,
    numbers: Numbers,
) -> Result<(), KeepFault>
    requires held { HasNumbers (K.keeping keeper.old) numbers }
    requires marked { is_marked (K.keeping keeper.old) ≡ true }
    requires taken { MayBeTaken (brought (asks.ApplyGraves ids.now)) }
    ensures ok { OnOk result (K.keeping keeper.new ≡ changed (held_with (brought (asks.ApplyGraves ids.now))) (K.keeping keeper.old)) }
    ensures committed { back (K.keeping keeper.new) ≡ back (K.keeping keeper.old) }
    ensures cause { KeepCause (K.health keeper.old) (K.health keeper.new) result }
{
    take_given_graves(keeper, ids, numbers.usn, Side::Server)
}

/// Gives the server's changes as they were before it takes those that came.
fn exchange_changes<K: Keeper>(
    alloc: Global,
    keeper: &mut K,
    live: Session,
    came: &Changes,
) -> Result<Changes, KeepFault>
    requires held { (K.keeping keeper.old).headed.current ≡ true }
    requires marked { is_marked (K.keeping keeper.old) ≡ true }
    requires taken { MayBeTaken (brought (asks.ApplyChanges came.now)) }
    ensures ok { OnOk result (K.keeping keeper.new ≡ changed (held_with (brought (asks.ApplyChanges came.now))) (K.keeping keeper.old)) }
    ensures told { IfOk result (λ given. WhereHeld (K.keeping keeper.old) (λ tables.
        given ≡ changes_given tables live)) }
    ensures committed { back (K.keeping keeper.new) ≡ back (K.keeping keeper.old) }
    ensures cause { KeepCause (K.health keeper.old) (K.health keeper.new) result }
{
    let head = head_of(keeper)?;
    let given = changes_from(alloc, keeper, &head, &live)?;
    let usn = head.usn;
    take_changes(keeper, came, head, usn, Side::Server)?;
    Ok(given)
}

/// The server's changes: its rows and tags with at least the session's usn, and its settings if it is the newer side.
fn changes_from<K: Keeper>(
    alloc: Global,
    keeper: &mut K,
    head: &Head,
    live: &Session,
) -> Result<Changes, KeepFault>
    ensures reads { ReadsBy K.Lookup keeper.old keeper.new result (λ h given.
        given ≡ changes_given (tables_of head.now h) live.now) }
{
    let want = Wanted::From(live.least_usn);
    let rows = wanted_changes(keeper, want)?;
    let tags = wanted_tags(alloc, head.tags.as_slice(), &want)?;
    let newer = settings_given(head, live)?;
    Ok(changes_of(alloc, rows, tags, newer)?)
}

/// The server's settings, unless the device was changed after the committed collection.
fn settings_given(head: &Head, live: &Session) -> Result<Option<Newer>, Memory>
    ensures { IfOk result (λ newer. newer ≡ option_map newer_of (settings_unless_newer head.now live.now.moment)) }
{
    if head.moment < live.moment {
        return Ok(None);
    }
    Ok(Some(newer_of(head)?))
}

/// Gives the next rows.
fn give_chunk<K: Keeper>(
    alloc: Global,
    keeper: &mut K,
    live: Session,
) -> Result<Answered, KeepFault>
    ensures reads { ReadsBy K.Lookup keeper.old keeper.new result (λ h it. IsNextChunk h.rows live it) }
{
    let (rows, given) = next_rows(alloc, keeper, live.given, Wanted::From(live.least_usn))?;
    let chunk = chunk_of(alloc, rows)?;
    let done = chunk.done;
    Ok(give_answer(Give::Chunk(chunk), done, given))
}

/// Takes the rows of a chunk.
fn apply_chunk<K: Keeper>(keeper: &mut K, chunk: &Chunk, numbers: Numbers) -> Result<(), KeepFault>
    requires held { HasNumbers (K.keeping keeper.old) numbers }
    requires marked { is_marked (K.keeping keeper.old) ≡ true }
    requires taken { MayBeTaken (brought (asks.ApplyChunk chunk.now)) }
    ensures ok { OnOk result (K.keeping keeper.new ≡ changed (held_with (brought (asks.ApplyChunk chunk.now))) (K.keeping keeper.old)) }
    ensures committed { back (K.keeping keeper.new) ≡ back (K.keeping keeper.old) }
    ensures cause { KeepCause (K.health keeper.old) (K.health keeper.new) result }
{
    take_chunk_rows(keeper, chunk, numbers.usn, Side::Server)
}
