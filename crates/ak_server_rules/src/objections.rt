// Which requests a session refuses: the tests of each, in their order. They ask no keeper, and all but one take no memory.
ghost use Rattle.std.specs.Prelude.{◌≡◌, ◌||◌, true, cond, IfOk, OnOk, ℕ, List};
ghost use Rattle.std.specs.List.{list_any, list_all};
ghost use Rattle.std.specs.Option.{option_map};
ghost use Rattle.std.specs.Cmp.Lexicographic.{slice_cmp};
ghost use Rattle.std.specs.Ordering.{int_eq, eq_by_cmp, nat_cmp};
ghost use Rattle.ak_base.specs.Names.{name_cmp};
ghost use Rattle.ak_base.specs.declared.names.Name.{Name as Named};
ghost use Rattle.ak_base.specs.Limits.{last_head_usn};
ghost use Rattle.ak_keep.specs.Collections.{Collection};
ghost use Rattle.ak_keep.specs.HeadNumbers.{numbered};
ghost use Rattle.ak_server_rules.specs.Decisions.{objection_in};
ghost use Rattle.ak_session.specs.NextMethods.{methods_after};
ghost use Rattle.ak_session.specs.Refusals.{first_objection, start_tests, grave_tests, change_tests, chunk_tests, upload_tests, is_checked, is_tag_in_range, is_whole_in_range, has_last_moment, has_twins, same_names, same_tags, has_no_next};
ghost use Rattle.ak_session.specs.Requests.{same_method};

use crate::sessions::Session;
use ak_base::{
    LAST_HEAD_USN, LAST_MOMENT, LAST_STAMP, LAST_USN, Memory, Name, Row, Tag, is_within,
};
use ak_keep::Numbers;
use ak_messages::{Changes, Chunk, GraveIds, MOST_ENTRIES, Method, Whole};
use ak_sync_rows::{
    are_changes_in_range, are_graves_in_range, are_rows_checked, is_conf_in_range, is_tag_name,
};
use std::alloc::Global;
use std::collections::BTreeSet;

/// Why a session refuses a request that has its next step.
#[derive(Clone, Copy, Debug, PartialEq, Eq)]
pub enum Cause {
    /// Its method may not come next.
    Method,
    /// It asks for rows from a usn on that is below 0 or over the server's.
    Usn,
    /// A usn or a moment after the last one would be past its range.
    Sequence,
    /// It has over 250 entries.
    Rows,
    /// A row, an id, a name or a setting of it may not be held.
    Row,
    /// It has the settings though its side is not the newer one, or has none though it is.
    Newer,
}

/// Whether the method may come after the last one that the session accepted.
pub fn may_follow(live: &Session, method: Method) -> bool
    ensures { result ≡ list_any (same_method method) (methods_after live.now.method live.now.done) }
{
    match live.method {
        Method::Meta => matches!(method, Method::Start | Method::Upload | Method::Download),
        Method::Start | Method::ApplyGraves => {
            matches!(method, Method::ApplyGraves | Method::ApplyChanges)
        }
        Method::ApplyChanges => matches!(method, Method::Chunk),
        Method::Chunk => {
            if live.done {
                matches!(method, Method::ApplyChunk)
            } else {
                matches!(method, Method::Chunk)
            }
        }
        Method::ApplyChunk => {
            if live.done {
                matches!(method, Method::SanityCheck2)
            } else {
                matches!(method, Method::ApplyChunk)
            }
        }
        Method::SanityCheck2 => matches!(method, Method::Finish),
        Method::Finish | Method::Upload | Method::Download => false,
    }
}

/// Why a start is refused, over a committed collection with these numbers. For the proof alone the numbers are references.
pub fn objection_to_start(held: &Numbers, min_usn: &i64, lmod: &i64) -> Option<Cause>
    ensures { (c : Collection) → option_map objection_in result
        ≡ first_objection (start_tests (numbered held.now c) min_usn.now lmod.now) }
{
    if !is_within(*min_usn, 0, held.usn) {
        return Some(Cause::Usn);
    }
    if has_no_number(held, *lmod) {
        return Some(Cause::Sequence);
    }
    None
}

/// Whether the server's usn is the last one, or a moment of either side is.
fn has_no_number(held: &Numbers, lmod: i64) -> bool
    ensures { result ≡ (int_eq held.now.usn last_head_usn || has_no_next held.now.moment || has_no_next lmod) }
{
    held.usn == LAST_HEAD_USN || has_no_next(held.moment) || has_no_next(lmod)
}

/// Why graves are refused.
pub fn objection_to_graves(ids: &GraveIds) -> Option<Cause>
    ensures { option_map objection_in result ≡ first_objection (grave_tests ids.now) }
{
    if MOST_ENTRIES < ids.entries() {
        return Some(Cause::Rows);
    }
    if !are_graves_in_range(ids) {
        return Some(Cause::Row);
    }
    None
}

/// Why changes are refused. The settings must be there exactly if the device is the newer side.
pub fn objection_to_changes(is_device_newer: bool, changes: &Changes) -> Option<Cause>
    ensures { option_map objection_in result ≡ first_objection (change_tests is_device_newer changes.now) }
{
    if !are_changes_in_range(changes) {
        return Some(Cause::Row);
    }
    if is_device_newer != changes.newer.is_some() {
        return Some(Cause::Newer);
    }
    None
}

/// Why a chunk is refused.
pub fn objection_to_chunk(chunk: &Chunk) -> Option<Cause>
    ensures { option_map objection_in result ≡ first_objection (chunk_tests chunk.now) }
{
    if MOST_ENTRIES < chunk.entries() {
        return Some(Cause::Rows);
    }
    if !are_rows_checked(chunk) {
        return Some(Cause::Row);
    }
    None
}

/// Why an upload is refused, over a committed collection with these numbers. To find two rows or two tags of one name takes memory.
pub fn objection_to_upload(held: &Numbers, whole: &Whole) -> Result<Option<Cause>, Memory>
    ensures { (c : Collection) → IfOk result (λ why. option_map objection_in why
        ≡ first_objection (upload_tests (numbered held.now c) whole.now)) }
{
    if has_last_moment(held, whole) {
        return Ok(Some(Cause::Sequence));
    }
    if !is_whole_in_range(whole) {
        return Ok(Some(Cause::Row));
    }
    if has_twin_rows(whole.rows.allocator(), whole.rows.as_slice())? {
        return Ok(Some(Cause::Row));
    }
    if has_twin_tags(whole.rows.allocator(), whole.tags.as_slice())? {
        return Ok(Some(Cause::Row));
    }
    Ok(None)
}

/// Whether a moment or a schema moment of either side is the last one.
fn has_last_moment(held: &Numbers, whole: &Whole) -> bool
    ensures { (c : Collection) → result ≡ has_last_moment (numbered held.now c) whole.now }
{
    has_no_next(held.moment)
        || has_no_next(held.schema)
        || has_no_next(whole.moment)
        || has_no_next(whole.schema)
}

/// Whether what an upload holds is in its ranges: rows, tags, settings, and the second of creation.
fn is_whole_in_range(whole: &Whole) -> bool
    ensures { result ≡ is_whole_in_range whole.now }
{
    are_checked(whole.rows.as_slice())
        && are_tags_in_range(whole.tags.as_slice())
        && is_conf_in_range(&whole.conf)
        && is_within(whole.crt, 0, LAST_STAMP)
}

/// Whether each of these rows passes its check.
pub fn are_checked(rows: &[Row]) -> bool
    ensures { result ≡ list_all is_checked rows.now }
{
    rows.iter().all(|row| row.check().is_ok())
}

/// Whether each of these tags is in its range.
fn are_tags_in_range(tags: &[Tag]) -> bool
    ensures { result ≡ list_all is_tag_in_range tags.now }
{
    tags.iter().all(|tag| is_tag_name(&tag.name) && is_within(tag.usn, -1, LAST_USN))
}

/// Whether two of these rows share a name.
pub fn has_twin_rows(alloc: Global, rows: &[Row]) -> Result<bool, Memory>
    ensures { IfOk result (λ found. found ≡ has_twins same_names rows.now) }
{
    let mut names = BTreeSet::new(alloc);
    for row in rows {
        if add_name(&mut names, row.name())? {
            return Ok(true);
        }
    }
    Ok(false)
}

/// Adds a name, and answers whether it was there already.
fn add_name(names: &mut BTreeSet<Name>, name: Name) -> Result<bool, Memory>
    ensures found { IfOk result (λ found. found ≡ list_any (eq_by_cmp name_cmp name) names.old.keys) }
    ensures added { OnOk result ((other : Named) → list_any (eq_by_cmp name_cmp other) names.new.keys
        ≡ cond (eq_by_cmp name_cmp name other) true (list_any (eq_by_cmp name_cmp other) names.old.keys)) }
{
    Ok(!names.insert(name)?)
}

/// Whether two of these tags share a name. The names are not copied.
fn has_twin_tags(alloc: Global, tags: &[Tag]) -> Result<bool, Memory>
    ensures { IfOk result (λ found. found ≡ has_twins same_tags tags.now) }
{
    let mut names = BTreeSet::new(alloc);
    for tag in tags {
        if add_tag_name(&mut names, tag.name.as_str())? {
            return Ok(true);
        }
    }
    Ok(false)
}

/// Adds a tag's name, and answers whether it was there already.
fn add_tag_name<'a>(names: &mut BTreeSet<&'a str>, name: &'a str) -> Result<bool, Memory>
    ensures found { IfOk result (λ found. found ≡ list_any (λ key. eq_by_cmp (slice_cmp nat_cmp) name.now key.now) names.old.keys) }
    ensures added { OnOk result ((other : List ℕ) → list_any (λ key. eq_by_cmp (slice_cmp nat_cmp) other key.now) names.new.keys
        ≡ cond (eq_by_cmp (slice_cmp nat_cmp) name.now other) true (list_any (λ key. eq_by_cmp (slice_cmp nat_cmp) other key.now) names.old.keys)) }
{
    Ok(!names.insert(name)?)
}

/// Whether the moment after this one is past the last one.
fn has_no_next(moment: i64) -> bool
    ensures { result ≡ has_no_next moment }
{
    LAST_MOMENT <= moment
}
