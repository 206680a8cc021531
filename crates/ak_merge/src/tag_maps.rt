// Many tags that come at once: what is held and what comes is put into a map, so that no name is looked for among all tags.
ghost use Rattle.std.specs.Prelude.{◌≡◌, ◌∷◌, true, IfOk, OnOk};
ghost use Rattle.ak_merge.specs.TagMaps.{ascend, precedes, tags_of};
ghost use Rattle.ak_merge.specs.Tags.{tag_taken, tags_taken};

use ak_base::{List, Memory, Tag, Text};
use std::alloc::Global;
use std::collections::BTreeMap;

/// The tags once these names came. The time grows with the tags and the names together, but for the logarithm of their number.
pub(crate) fn take_many(tags: List<Tag>, names: &[Text], usn: i64) -> Result<List<Tag>, Memory>
    requires { ascend tags ≡ true }
    ensures { IfOk result (λ made. made ≡ tags_taken usn names.now tags) }
{
    let alloc = tags.allocator();
    let mut numbers = numbers_of(alloc, tags.into_vec())?;
    for name in names {
        take_name(alloc, &mut numbers, name, usn)?;
    }
    list_tags(alloc, numbers)
}

/// Whether the name of each tag is less by bytes than that of the next.
pub(crate) fn ascend(tags: &[Tag]) -> bool
    ensures { result ≡ ascend tags.now }
{
    let mut rest = tags;
    while let Some((tag, others)) = rest.split_first() {
        if !precedes(&tag.name, others) {
            return false;
        }
        rest = others;
    }
    true
}

/// Whether the name is less by bytes than that of the first tag, if there is one.
fn precedes(name: &Text, tags: &[Tag]) -> bool
    ensures { result ≡ precedes name.now tags.now }
{
    match tags.first() {
        Some(next) => name.as_str() < next.name.as_str(),
        None => true,
    }
}

/// The usn of each tag by its name.
fn numbers_of(alloc: Global, tags: Vec<Tag>) -> Result<BTreeMap<String, i64>, Memory>
    requires { ascend tags.items ≡ true }
    ensures { IfOk result (λ made. tags_of made ≡ tags.items) }
{
    let mut numbers = BTreeMap::new(alloc);
    let mut rest = tags;
    // From the last one on, each comes before those that are there.
    while let Some(tag) = rest.pop() {
        put_first(alloc, &mut numbers, tag)?;
    }
    Ok(numbers)
}

/// Puts a tag in before the others.
fn put_first(alloc: Global, numbers: &mut BTreeMap<String, i64>, tag: Tag) -> Result<(), Memory>
    requires { precedes tag.name (tags_of numbers.old) ≡ true }
    ensures { OnOk result (tags_of numbers.new ≡ tag ∷ tags_of numbers.old) }
{
    let name = String::from_str(alloc, tag.name.as_str())?;
    numbers.insert(name, tag.usn)?;
    Ok(())
}

/// Puts a tag of this name in, if none is there.
fn take_name(
    alloc: Global,
    numbers: &mut BTreeMap<String, i64>,
    name: &Text,
    usn: i64,
) -> Result<(), Memory>
    ensures { OnOk result (tags_of numbers.new ≡ tag_taken usn name.now (tags_of numbers.old)) }
{
    if numbers.contains_key(name.as_str()) {
        return Ok(());
    }
    let name = String::from_str(alloc, name.as_str())?;
    numbers.insert(name, usn)?;
    Ok(())
}

/// The tags in the order of their names.
fn list_tags(alloc: Global, numbers: BTreeMap<String, i64>) -> Result<List<Tag>, Memory>
    ensures { IfOk result (λ made. made ≡ tags_of numbers) }
{
    let mut tags = List::new(alloc);
    let mut rest = numbers;
    while let Some((name, usn)) = rest.pop_first() {
        let name = Text::from(name);
        tags.push(Tag { name, usn })?;
    }
    Ok(tags)
}
