ghost use Rattle.std.specs.Prelude.{◌≡◌, codes, IfOk, IfSome, List as Sequence, Option as Maybe, Some};
ghost use Rattle.std.specs.Cmp.Lexicographic.{slice_cmp};
ghost use Rattle.std.specs.List.{All};
ghost use Rattle.std.specs.List.Sorted.{IsStrictlySortedBy};
ghost use Rattle.std.specs.Ordering.{nat_cmp};
ghost use Rattle.serde_json.specs.Data.{object};
ghost use Rattle.serde_json.specs.Find.{get};
ghost use Rattle.serde_json.specs.View.{members_view, view};
ghost use Rattle.ak_base.specs.Heads.{AreConfNumbersInRange, IsHeadInRange, IsTagInRange, tag_names};
ghost use Rattle.ak_base.specs.declared.heads.Conf.{Conf as AnyConf};
ghost use Rattle.ak_base.specs.declared.heads.Head.{Head as AnyHead};
ghost use Rattle.ak_base.specs.declared.heads.Tag.{Tag as AnyTag};
ghost use Rattle.ak_json.specs.Confs.{conf_json};
ghost use Rattle.ak_json.specs.Written.{integer};
ghost use Rattle.ak_journal_rows.specs.Reads.{IsReadAsOrMemory};
ghost use Rattle.ak_journal_rows.specs.Texts.{head_json, some_head_json, tag_members};

use crate::faults::ChangeFault;
use crate::values::{number_under, under};
use ak_base::{Conf, Head, List, Memory, Tag, Text};
use ak_json::{read_conf, write_conf};
use serde_json::{Map, Value, put};
use std::alloc::Global;

/// The head of which this is the value.
pub(crate) fn read_head(alloc: Global, value: &Value) -> Result<Option<Head>, ChangeFault>
    ensures { (head : Maybe AnyHead) → IfSome head IsHeadInRange → view value.now ≡ head_json head → IsReadAsOrMemory head result }
{
    if value.is_null() {
        return Ok(None);
    }
    Ok(Some(read_some(alloc, value)?))
}

/// The head of which this is the object.
fn read_some(alloc: Global, value: &Value) -> Result<Head, ChangeFault>
    ensures { (head : AnyHead) → IsHeadInRange head → view value.now ≡ some_head_json head → IsReadAsOrMemory head result }
{
    let conf = conf_under(alloc, value)?;
    let tags = tags_under(alloc, value)?;
    Ok(Head {
        crt: number_under(value, "crt")?,
        moment: number_under(value, "mod")?,
        schema: number_under(value, "scm")?,
        usn: number_under(value, "usn")?,
        last_sync: number_under(value, "ls")?,
        conf,
        tags,
    })
}

/// The settings of a head's object.
fn conf_under(alloc: Global, value: &Value) -> Result<Conf, ChangeFault>
    ensures { (conf : AnyConf) → AreConfNumbersInRange conf → get (codes "conf") (view value.now) ≡ Some (conf_json conf) → IsReadAsOrMemory conf result }
{
    match read_conf(alloc, under(value, "conf")?) {
        Ok(conf) => Ok(conf),
        Err(fault) => Err(ChangeFault::from(fault)),
    }
}

/// The tags of a head's object, by the bytes of their names.
fn tags_under(alloc: Global, value: &Value) -> Result<List<Tag>, ChangeFault>
    ensures { (tags : Sequence AnyTag) → All IsTagInRange tags → get (codes "tags") (view value.now) ≡ Some (object (tag_members tags)) → IsReadAsOrMemory tags result }
{
    match under(value, "tags")?.as_object() {
        Some(members) => tags_of(alloc, members),
        None => Err(ChangeFault::NotOfForm),
    }
}

/// The tags of an object of them.
fn tags_of(alloc: Global, members: &Map<String, Value>) -> Result<List<Tag>, ChangeFault>
    ensures { (tags : Sequence AnyTag) → All IsTagInRange tags → members_view members.now.entries ≡ tag_members tags → IsReadAsOrMemory tags result }
{
    let mut tags = List::new(alloc);
    for (name, value) in members {
        let tag = tag_of(alloc, name.as_str(), value)?;
        tags.push(tag)?;
    }
    Ok(tags)
}

/// The tag of this name, with the number that is its value.
fn tag_of(alloc: Global, name: &str, value: &Value) -> Result<Tag, ChangeFault>
    ensures { (tag : AnyTag) → IsTagInRange tag → name.now ≡ tag.name → view value.now ≡ integer tag.usn → IsReadAsOrMemory tag result }
{
    match value.as_i64() {
        Some(usn) => {
            let name = Text::of(alloc, name)?;
            Ok(Tag { name, usn })
        },
        None => Err(ChangeFault::NotOfForm),
    }
}

/// The value of a head; null if there is none.
pub(crate) fn write_head(alloc: Global, head: &Option<Head>) -> Result<Value, Memory>
    ensures { IfOk result (λ value. IfSome head.now IsHeadInRange → view value ≡ head_json head.now) }
{
    match head {
        Some(head) => write_some(alloc, head),
        None => Ok(Value::Null),
    }
}

/// The object of a head.
fn write_some(alloc: Global, head: &Head) -> Result<Value, Memory>
    ensures { IfOk result (λ value. IsHeadInRange head.now → view value ≡ some_head_json head.now) }
{
    let conf = write_conf(alloc, &head.conf)?;
    let tags = write_tags(alloc, head.tags.as_slice())?;
    let mut members = Map::new(alloc);
    put(&mut members, alloc, "conf", conf)?;
    put(&mut members, alloc, "crt", Value::from(head.crt))?;
    put(&mut members, alloc, "ls", Value::from(head.last_sync))?;
    put(&mut members, alloc, "mod", Value::from(head.moment))?;
    put(&mut members, alloc, "scm", Value::from(head.schema))?;
    put(&mut members, alloc, "tags", tags)?;
    put(&mut members, alloc, "usn", Value::from(head.usn))?;
    Ok(Value::Object(members))
}

/// The object of these tags.
fn write_tags(alloc: Global, tags: &[Tag]) -> Result<Value, Memory>
    ensures { IfOk result (λ value. IsStrictlySortedBy (slice_cmp nat_cmp) (tag_names tags.now) → view value ≡ object (tag_members tags.now)) }
{
    let mut members = Map::new(alloc);
    for tag in tags {
        put(&mut members, alloc, tag.name.as_str(), Value::from(tag.usn))?;
    }
    Ok(Value::Object(members))
}
