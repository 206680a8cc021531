ghost use Rattle.std.specs.Prelude.{◌≡◌, ◌≤ℤ◌, pos, true, map, IfOk};
ghost use Rattle.std.specs.List.{All, IsDistinct};
ghost use Rattle.std.specs.Ordering.{eq_by_cmp};
ghost use Rattle.ak_base.specs.Heads.{AreMomentsInRange};
ghost use Rattle.ak_base.specs.Names.{name_cmp};
ghost use Rattle.ak_base.specs.Rows.{IsChecked, name_of};
ghost use Rattle.ak_keep.specs.Keepers.{is_marked};

use crate::faults::{done, failed};
use crate::keepers::{row_of, value_of};
use ak_base::{Conf, Head, LAST_HEAD_USN, LAST_MOMENT, List, Row, Tag, Text, cut};
use ak_json::{read_conf, write_conf};
use ak_keep::{Keeper, Lookup};
use cases_lines::{Unread, list_at, number_at, quoted, text_at, value_text};
use serde_json::Value;
use std::alloc::Global;

/// The head that is held: crt, moment, schema, usn, last sync, the settings and the tags, each with its usn.
pub fn head_text<L: Lookup>(alloc: Global, keeper: &mut L) -> Result<String, Unread> {
    match keeper.head() {
        Ok(Some(head)) => told(alloc, &head),
        Ok(None) => Ok(String::from_str(alloc, "none")?),
        Err(fault) => failed(alloc, fault),
    }
}

fn told(alloc: Global, head: &Head) -> Result<String, Unread> {
    let mut made = numbers_text(alloc, head)?;
    made.push_str(" ")?;
    made.push_str(conf_text(alloc, &head.conf)?.as_str())?;
    for tag in head.tags.as_slice() {
        made.push_str(tag_text(alloc, tag)?.as_str())?;
    }
    Ok(made)
}

fn numbers_text(alloc: Global, head: &Head) -> Result<String, Unread> {
    let [crt, moment, schema] = [head.crt, head.moment, head.schema];
    let [usn, last_sync] = [head.usn, head.last_sync];
    Ok(format!(in alloc; "{crt} {moment} {schema} {usn} {last_sync}")?)
}

fn conf_text(alloc: Global, conf: &Conf) -> Result<String, Unread> {
    let value = write_conf(alloc, conf)?;
    value_text(alloc, &value)
}

fn tag_text(alloc: Global, tag: &Tag) -> Result<String, Unread> {
    let name = quoted(alloc, tag.name.as_str())?;
    let usn = tag.usn;
    Ok(format!(in alloc; " {name} {usn}")?)
}

/// `set-head [CRT, MOMENT, SCHEMA, USN, LAST-SYNC, CONF, TAGS]`, each tag being `[NAME, USN]`.
pub fn set_head<K: Keeper>(alloc: Global, keeper: &mut K, rest: &str) -> Result<String, Unread> {
    if !keeper.marked() {
        return Err(Unread::Bad);
    }
    let head = head_of(alloc, rest)?;
    if !head.is_in_range() {
        return Err(Unread::Bad);
    }
    done(alloc, keeper.set_head(head))
}

fn head_of(alloc: Global, rest: &str) -> Result<Head, Unread> {
    let arguments = value_of(alloc, rest)?;
    head_at(alloc, &arguments)
}

fn head_at(alloc: Global, arguments: &Value) -> Result<Head, Unread> {
    let conf = conf_at(alloc, arguments)?;
    let tags = tags_at(alloc, arguments)?;
    Ok(Head {
        crt: number_at(arguments, 0)?,
        moment: number_at(arguments, 1)?,
        schema: number_at(arguments, 2)?,
        usn: number_at(arguments, 3)?,
        last_sync: number_at(arguments, 4)?,
        conf,
        tags,
    })
}

fn conf_at(alloc: Global, arguments: &Value) -> Result<Conf, Unread> {
    match arguments.get(5) {
        Some(value) => match read_conf(alloc, value) {
            Ok(conf) => Ok(conf),
            Err(_) => Err(Unread::Bad),
        },
        None => Err(Unread::Bad),
    }
}

fn tags_at(alloc: Global, arguments: &Value) -> Result<List<Tag>, Unread> {
    let mut tags = List::new(alloc);
    for value in list_at(arguments, 6)? {
        tags.push(tag_of(alloc, value)?)?;
    }
    Ok(tags)
}

fn tag_of(alloc: Global, value: &Value) -> Result<Tag, Unread> {
    let usn = number_at(value, 1)?;
    let name = Text::of(alloc, text_at(value, 0)?)?;
    Ok(Tag { name, usn })
}

/// `set-moments [MOMENT, SCHEMA, USN, LAST-SYNC]`.
pub fn set_moments<K: Keeper>(alloc: Global, keeper: &mut K, rest: &str) -> Result<String, Unread> {
    let arguments = value_of(alloc, rest)?;
    let moments = moments_at(&arguments)?;
    if !keeper.marked() || !keeper.held() {
        return Err(Unread::Bad);
    }
    done(
        alloc,
        keeper.set_moments(
            moments.moment,
            moments.schema,
            moments.usn,
            moments.last_sync,
        ),
    )
}

/// The moments and the usn of a head.
#[derive(Clone, Copy)]
struct Moments {
    moment: i64,
    schema: i64,
    usn: i64,
    last_sync: i64,
}

fn moments_at(arguments: &Value) -> Result<Moments, Unread>
    ensures { IfOk result (λ m. AreMomentsInRange m.moment m.schema m.usn m.last_sync) }
{
    Ok(Moments {
        moment: within(arguments, 0, LAST_MOMENT)?,
        schema: within(arguments, 1, LAST_MOMENT)?,
        usn: within(arguments, 2, LAST_HEAD_USN)?,
        last_sync: within(arguments, 3, LAST_MOMENT)?,
    })
}

/// The number at a place, from 0 to the most.
fn within(arguments: &Value, place: usize, most: i64) -> Result<i64, Unread>
    ensures { IfOk result (λ number. (pos 0 ≤ℤ number) × (number ≤ℤ most)) }
{
    let number = number_at(arguments, place)?;
    if number < 0 || number > most {
        return Err(Unread::Bad);
    }
    Ok(number)
}

/// `replace HEAD` or `replace HEAD TABLE JSON`: no row, or one. HEAD is the arguments of `set-head`, without a space in it.
pub fn replace<K: Keeper>(alloc: Global, keeper: &mut K, rest: &str) -> Result<String, Unread> {
    if !keeper.marked() {
        return Err(Unread::Bad);
    }
    match cut(rest, " ") {
        Some((head, row)) => replace_by_one(alloc, keeper, head, row),
        None => replace_by_none(alloc, keeper, rest),
    }
}

fn replace_by_none<K: Keeper>(alloc: Global, keeper: &mut K, head: &str) -> Result<String, Unread>
    requires { is_marked (K.keeping keeper.old) ≡ true }
{
    let head = head_of(alloc, head)?;
    if !head.is_in_range() {
        return Err(Unread::Bad);
    }
    done(alloc, keeper.replace_all(List::new(alloc), head))
}

fn replace_by_one<K: Keeper>(
    alloc: Global,
    keeper: &mut K,
    head: &str,
    row: &str,
) -> Result<String, Unread>
    requires { is_marked (K.keeping keeper.old) ≡ true }
{
    let rows = one_row(alloc, row)?;
    replace_by_rows(alloc, keeper, head, rows)
}

fn replace_by_rows<K: Keeper>(
    alloc: Global,
    keeper: &mut K,
    head: &str,
    rows: List<Row>,
) -> Result<String, Unread>
    requires marked { is_marked (K.keeping keeper.old) ≡ true }
    requires checked { All IsChecked rows }
    requires distinct { IsDistinct (eq_by_cmp name_cmp) (map name_of rows) }
{
    let head = head_of(alloc, head)?;
    if !head.is_in_range() {
        return Err(Unread::Bad);
    }
    done(alloc, keeper.replace_all(rows, head))
}

fn one_row(alloc: Global, row: &str) -> Result<List<Row>, Unread>
    ensures checked { IfOk result (λ rows. All IsChecked rows) }
    ensures distinct { IfOk result (λ rows. IsDistinct (eq_by_cmp name_cmp) (map name_of rows)) }
{
    let row = row_of(alloc, row)?;
    if row.check().is_err() {
        return Err(Unread::Bad);
    }
    let mut rows = List::new(alloc);
    rows.push(row)?;
    Ok(rows)
}
