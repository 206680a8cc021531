// The two requests that commit. What they make is not kept before `commit`.
ghost use Rattle.std.specs.Int.{int_max};
ghost use Rattle.std.specs.List.{All, IsDistinct};
ghost use Rattle.std.specs.Ordering.{eq_by_cmp};
ghost use Rattle.std.specs.Prelude.{◌≡◌, ◌≢◌, Err, ◌+ℤ◌, ◌≤ℤ◌, pos, true, false, [], map, IfOk, OnOk};
ghost use Rattle.ak_base.specs.Heads.{IsHeadInRange, tag_names};
ghost use Rattle.ak_base.specs.Limits.{last_head_usn, last_moment};
ghost use Rattle.ak_base.specs.Names.{name_cmp};
ghost use Rattle.ak_base.specs.Rows.{IsChecked, name_of};
ghost use Rattle.ak_io.specs.Arrivals.{IsClockMoment};
ghost use Rattle.ak_keep.specs.Collections.{Collection};
ghost use Rattle.ak_keep.specs.HeadNumbers.{AreNumbersInRange, numbered};
ghost use Rattle.ak_keep.specs.Keepers.{IsMarkedAt, KeepCause, back, is_marked, marked_here, moments_set, replaced};
ghost use Rattle.ak_keep.specs.declared.keepers.KeepFault.TheVariants.{Memory as WantOfMemory};
ghost use Rattle.ak_merge.specs.Commits.{uploaded_rows};
ghost use Rattle.ak_merge.specs.Tags.{tags_taken};
ghost use Rattle.ak_messages.specs.declared.replies.Give.TheVariants as gives;
ghost use Rattle.ak_server_steps.specs.Answers.{HasNumbers};
ghost use Rattle.ak_server_steps.specs.Closings.{finished_moment, finished_usn, uploaded_head};
ghost use Rattle.ak_session.specs.Closings.{moment_past};
ghost use Rattle.ak_session.specs.Refusals.{has_last_moment, has_no_next, has_twins, is_whole_in_range, same_names};

use crate::answers::Basis;
use ak_base::{Head, LAST_HEAD_USN, LAST_MOMENT, List, Memory, Row, Tag};
use ak_keep::{KeepFault, Keeper, Numbers};
use ak_merge::take_tags;
use ak_messages::{Give, Whole};
use ak_sync_rows::{tag_names, uploaded_rows};
use std::alloc::Global;

/// A finish: the session's tables get the next usn, and the greatest of now and the moments after the committed one
/// and the device's. It gives that moment, in milliseconds. It reads nothing, and takes no memory but what the keeper takes.
pub fn finish<K: Keeper>(keeper: &mut K, basis: Basis, now: i64) -> Result<Give, KeepFault>
    requires clock { IsClockMoment now }
    requires held { HasNumbers (K.keeping keeper.old) basis.numbers }
    requires marked { is_marked (K.keeping keeper.old) ≡ true }
    requires next { has_no_next basis.live.moment ≡ false }
    ensures gives { IfOk result (λ give. give ≡ gives.Moment (finished_moment basis now)) }
    ensures ok { OnOk result (K.keeping keeper.new
        ≡ moments_set (finished_moment basis now) basis.numbers.schema (finished_usn basis) basis.numbers.last_sync
        (K.keeping keeper.old)) }
    ensures marked { OnOk result (IsMarkedAt (back (K.keeping keeper.old)) (K.keeping keeper.new)) }
    ensures committed { back (K.keeping keeper.new) ≡ back (K.keeping keeper.old) }
    ensures cause { KeepCause (K.health keeper.old) (K.health keeper.new) result }
    ensures spares { K.spares_memory ≡ true → result ≢ Err WantOfMemory }
{
    // A start is refused at the last usn and at the last moment, so a keeper that tells what it holds has neither.
    let moment = finished_moment(&basis, now);
    let usn = finished_usn(&basis);
    keeper.set_moments(moment, basis.numbers.schema, usn, basis.numbers.last_sync)?;
    Ok(Give::Moment(moment))
}

/// The greatest of now and the moments after the committed one and the device's, at most the last one.
fn finished_moment(basis: &Basis, now: i64) -> i64
    requires one { basis.now.numbers.moment ≤ℤ last_moment }
    requires other { basis.now.live.moment ≤ℤ last_moment }
    ensures { result ≡ finished_moment basis.now now }
{
    moment_past(now, basis.numbers.moment, basis.live.moment).min(LAST_MOMENT)
}

/// The next usn, at most the last one.
fn finished_usn(basis: &Basis) -> i64
    requires { basis.now.numbers.usn ≤ℤ last_head_usn }
    ensures { result ≡ finished_usn basis.now }
{
    (basis.numbers.usn + 1).min(LAST_HEAD_USN)
}

/// An upload: its rows but the graves, and its tags, all with the usn 0, its settings, the usn 1, and moments past
/// those of both. The moment of the last sync stays.
pub fn upload<K: Keeper>(
    keeper: &mut K,
    numbers: &Numbers,
    whole: &Whole,
    now: i64,
) -> Result<Give, KeepFault>
    requires clock { IsClockMoment now }
    requires held { HasNumbers (K.keeping keeper.old) numbers.now }
    requires unmarked { is_marked (K.keeping keeper.old) ≡ false }
    requires range { is_whole_in_range whole.now ≡ true }
    requires distinct { has_twins same_names whole.now.rows ≡ false }
    requires next { (c : Collection) → has_last_moment (numbered numbers.now c) whole.now ≡ false }
    ensures gives { IfOk result (λ give. give
        ≡ gives.Uploaded (uploaded_head numbers.now whole.now now).moment (uploaded_head numbers.now whole.now now).schema) }
    ensures ok { OnOk result (K.keeping keeper.new
        ≡ replaced (uploaded_rows whole.now.rows) (uploaded_head numbers.now whole.now now)
        (marked_here (K.keeping keeper.old))) }
    ensures marked { OnOk result (IsMarkedAt (back (K.keeping keeper.old)) (K.keeping keeper.new)) }
    ensures committed { back (K.keeping keeper.new) ≡ back (K.keeping keeper.old) }
    ensures cause { KeepCause (K.health keeper.old) (K.health keeper.new) result }
{
    let made = uploaded_head(numbers, whole, now)?;
    let give = uploaded(&made);
    let rows = uploaded_rows(whole.rows.allocator(), whole.rows.as_slice())?;
    replace_marked(keeper, rows, made)?;
    Ok(give)
}

/// Marks what is held, and puts this collection in its place.
#[tactic(auto, using(crate::proofs::Marking::back_stays))]
fn replace_marked<K: Keeper>(keeper: &mut K, rows: List<Row>, head: Head) -> Result<(), KeepFault>
    requires unmarked { is_marked (K.keeping keeper.old) ≡ false }
    requires checked { All IsChecked rows }
    requires distinct { IsDistinct (eq_by_cmp name_cmp) (map name_of rows) }
    requires range { IsHeadInRange head }
    ensures ok { OnOk result (K.keeping keeper.new ≡ replaced rows head (marked_here (K.keeping keeper.old))) }
    ensures marked { OnOk result (IsMarkedAt (back (K.keeping keeper.old)) (K.keeping keeper.new)) }
    ensures committed { back (K.keeping keeper.new) ≡ back (K.keeping keeper.old) }
    ensures cause { KeepCause (K.health keeper.old) (K.health keeper.new) result }
{
    keeper.mark()?;
    keeper.replace_all(rows, head)?;
    Ok(())
}

/// What an upload is given: the moments of the head that it made.
fn uploaded(made: &Head) -> Give
    ensures { result ≡ gives.Uploaded made.now.moment made.now.schema }
{
    Give::Uploaded {
        moment: made.moment,
        schema: made.schema,
    }
}

/// The head that an upload makes over a committed one with these numbers.
fn uploaded_head(held: &Numbers, whole: &Whole, now: i64) -> Result<Head, Memory>
    requires clock { IsClockMoment now }
    requires held { AreNumbersInRange held.now }
    requires range { is_whole_in_range whole.now ≡ true }
    requires next { (c : Collection) → has_last_moment (numbered held.now c) whole.now ≡ false }
    ensures ok { IfOk result (λ made. made ≡ uploaded_head held.now whole.now now) }
    ensures range { IfOk result IsHeadInRange }
{
    let tags = uploaded_tags(whole.tags.allocator(), whole.tags.as_slice())?;
    let conf = whole.conf.copy()?;
    Ok(Head {
        crt: whole.crt,
        moment: moment_past(now, held.moment, whole.moment),
        schema: moment_past(now, held.schema, whole.schema),
        usn: 1,
        last_sync: held.last_sync,
        conf,
        tags,
    })
}

/// The greatest of now and the moments after these two, in milliseconds.
fn moment_past(now: i64, one: i64, other: i64) -> i64
    requires one { one ≤ℤ last_moment }
    requires other { other ≤ℤ last_moment }
    ensures { result ≡ moment_past now one other }
{
    let past = past_both(one, other);
    now.max(past)
}

/// The greater of the moments after these two, in milliseconds.
fn past_both(one: i64, other: i64) -> i64
    requires one { one ≤ℤ last_moment }
    requires other { other ≤ℤ last_moment }
    ensures { result ≡ int_max (one +ℤ pos 1) (other +ℤ pos 1) }
{
    (one + 1).max(other + 1)
}

/// The tags by the bytes of their names, each with the usn 0.
fn uploaded_tags(alloc: Global, came: &[Tag]) -> Result<List<Tag>, Memory>
    ensures { IfOk result (λ tags. tags ≡ tags_taken (pos 0) (tag_names came.now) []) }
{
    let names = tag_names(alloc, came)?;
    take_tags(List::new(alloc), names.as_slice(), 0)
}
