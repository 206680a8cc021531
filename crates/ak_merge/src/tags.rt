ghost use Rattle.std.specs.Prelude.{◌≡◌, ◌≤◌, length, IfOk, OnOk};
ghost use Rattle.ak_merge.specs.Exchanges.{settled_tag, settled_tags};
ghost use Rattle.ak_merge.specs.Holdings.{has_tag};
ghost use Rattle.ak_merge.specs.Tags.{tag_place, with_tag, tag_taken, tags_taken};

use crate::tag_maps::{ascend, take_many};
use ak_base::{List, Memory, Tag, Text};

/// At most so many names are looked for among the tags one by one.
const FEW_NAMES: usize = 16;

/// The tags once these names came. A tag that is held stays as it is; each other name is put in before the first
/// that is greater by bytes, with this usn.
pub fn take_tags(tags: List<Tag>, names: &[Text], usn: i64) -> Result<List<Tag>, Memory>
    ensures { IfOk result (λ made. made ≡ tags_taken usn names.now tags) }
{
    if names.len() > FEW_NAMES && ascend(tags.as_slice()) {
        return take_many(tags, names, usn);
    }
    take_each(tags, names, usn)
}

/// The same, name by name.
fn take_each(tags: List<Tag>, names: &[Text], usn: i64) -> Result<List<Tag>, Memory>
    ensures { IfOk result (λ made. made ≡ tags_taken usn names.now tags) }
{
    let mut held = tags.into_vec();
    for name in names {
        take_tag(&mut held, name, usn)?;
    }
    Ok(List::of(held))
}

/// The tags, each that was not sent yet with this usn. It takes no memory.
pub fn settle_tags(tags: List<Tag>, usn: i64) -> List<Tag>
    ensures { result ≡ settled_tags usn tags }
{
    let mut held = tags.into_vec();
    settle_each(held.as_mut_slice(), usn);
    List::of(held)
}

/// Gives each tag that was not sent yet this usn.
fn settle_each(tags: &mut [Tag], usn: i64)
    ensures { tags.new ≡ settled_tags usn tags.old }
{
    for tag in tags.iter_mut() {
        settle_tag(tag, usn);
    }
}

/// Gives the tag this usn if it was not sent yet, which the number -1 says.
fn settle_tag(tag: &mut Tag, usn: i64)
    ensures { tag.new ≡ settled_tag usn tag.old }
{
    if tag.usn == -1 {
        tag.usn = usn;
    }
}

/// Puts a tag of this name in, if none is held.
fn take_tag(tags: &mut Vec<Tag>, name: &Text, usn: i64) -> Result<(), Memory>
    ensures { OnOk result (tags.new.items ≡ tag_taken usn name.now tags.old.items) }
{
    if has_tag(tags.as_slice(), name) {
        return Ok(());
    }
    put_tag(tags, name, usn)
}

/// Whether a tag of this name is held.
fn has_tag(tags: &[Tag], name: &Text) -> bool
    ensures { result ≡ has_tag tags.now name.now }
{
    for tag in tags {
        if tag.name == *name {
            return true;
        }
    }
    false
}

/// Puts a tag of this name in before the first that is greater.
#[tactic(auto, using(crate::proofs::TagPlaces::put_in_place))]
fn put_tag(tags: &mut Vec<Tag>, name: &Text, usn: i64) -> Result<(), Memory>
    ensures { OnOk result (tags.new.items ≡ with_tag (record { name = name.now; usn = usn }) tags.old.items) }
{
    let place = place_of(tags.as_slice(), name);
    let name = name.copy()?;
    tags.insert(place, Tag { name, usn })?;
    Ok(())
}

/// How many tags stand before the first whose name is greater.
fn place_of(tags: &[Tag], name: &Text) -> usize
    ensures place { result ≡ tag_place name.now tags.now }
    ensures within { result ≤ length tags.now }
{
    let mut place = 0;
    for tag in tags {
        if name.as_str() < tag.name.as_str() {
            return place;
        }
        place += 1;
    }
    place
}
