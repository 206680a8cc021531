// The head of a collection, as the row of `col`.
ghost use Rattle.std.specs.Prelude.{◌≡◌, map, IfOk, OnOk};
ghost use Rattle.sqlite_value.specs.Order.{column};
ghost use Rattle.sqlite_value.specs.declared.value.Value.TheVariants.{Int};
ghost use Rattle.sqlite_value.specs.Value.{owned};
ghost use Rattle.ak_sqlite.specs.Columns.{HoldsHead, head_columns};

use crate::cells::text_cell;
use crate::columns::{integer_at, text_at};
use crate::faults::FileFault;
use crate::objects::read_object;
use crate::statements::{INSERT_HEAD, UPDATE_HEAD};
use crate::writes::run;
use ak_base::{Conf, Head, List, Tag, Text};
use ak_json::{read_conf, read_text, write_conf, write_text};
use serde_json::{Map, Value};
use sqlite::types::ValueRef;
use sqlite::{Alter, Row as SqlRow, Transaction};
use std::alloc::Global;

/// The head of the row of `col`, its parts in any range.
pub(crate) fn head_of(alloc: Global, row: &SqlRow) -> Result<Head, FileFault>
    ensures { IfOk result (λ head. HoldsHead row.now head) }
{
    check_number(row, 0, 1)?;
    check_number(row, 4, 11)?;
    check_number(row, 5, 0)?;
    Ok(Head {
        crt: integer_at(row, 1)?,
        moment: integer_at(row, 2)?,
        schema: integer_at(row, 3)?,
        usn: integer_at(row, 6)?,
        last_sync: integer_at(row, 7)?,
        conf: conf_at(alloc, row)?,
        tags: tags_at(alloc, row)?,
    })
}

/// Fails if the column has any other value than this number.
fn check_number(row: &SqlRow, at: usize, wanted: i64) -> Result<(), FileFault>
    ensures { OnOk result (column row.now at ≡ Int wanted) }
{
    let number = integer_at(row, at)?;
    if number == wanted {
        return Ok(());
    }
    Err(FileFault::Failed)
}

/// The settings, in column 8.
fn conf_at(alloc: Global, row: &SqlRow) -> Result<Conf, FileFault> {
    let text = text_at(row, 8)?;
    let value = read_text(alloc, text.as_str().as_bytes())?;
    let conf = read_conf(alloc, &value)?;
    Ok(conf)
}

/// The tags, in column 12: an object from names to usns.
fn tags_at(alloc: Global, row: &SqlRow) -> Result<List<Tag>, FileFault> {
    let text = text_at(row, 12)?;
    let members = read_object(alloc, &text)?;
    tags_of(alloc, &members)
}

/// The tags of an object of them, by the bytes of their names.
fn tags_of(alloc: Global, members: &Map<String, Value>) -> Result<List<Tag>, FileFault> {
    let mut tags = List::new(alloc);
    for (name, value) in members {
        let tag = tag_of(alloc, name.as_str(), value)?;
        tags.push(tag)?;
    }
    Ok(tags)
}

/// The tag of this name, with the number that is its value.
fn tag_of(alloc: Global, name: &str, value: &Value) -> Result<Tag, FileFault> {
    match value.as_i64() {
        Some(usn) => {
            let name = Text::of(alloc, name)?;
            Ok(Tag { name, usn })
        }
        None => Err(FileFault::Failed),
    }
}

/// Writes the head into the row of `col`, which is made if there is none.
pub(crate) fn write_head<S: Alter>(
    transaction: &mut Transaction<'_, S>,
    head: &Head,
) -> Result<(), FileFault>
    ensures same_reference { transaction.new.conn.ghost_name ≡ transaction.old.conn.ghost_name }
{
    let alloc = head.tags.allocator();
    let conf = conf_text(alloc, &head.conf)?;
    let tags = tags_text(alloc, head.tags.as_slice())?;
    let cells = head_cells(head, &conf, &tags);
    let written = run(transaction, UPDATE_HEAD, &cells)?;
    if written == 0 {
        run(transaction, INSERT_HEAD, &cells)?;
    }
    Ok(())
}

/// What is written of a head, with the texts of its settings and of its tags.
fn head_cells<'a>(head: &Head, conf: &'a Text, tags: &'a Text) -> [ValueRef<'a>; 7]
    ensures { map owned result ≡ head_columns head.now conf.now tags.now }
{
    [
        ValueRef::Int(head.crt),
        ValueRef::Int(head.moment),
        ValueRef::Int(head.schema),
        ValueRef::Int(head.usn),
        ValueRef::Int(head.last_sync),
        text_cell(conf),
        text_cell(tags),
    ]
}

/// The text of the object of the settings.
fn conf_text(alloc: Global, conf: &Conf) -> Result<Text, FileFault> {
    let value = write_conf(alloc, conf)?;
    let text = write_text(alloc, &value)?;
    Ok(text)
}

/// The text of the object of these tags, each with its usn.
fn tags_text(alloc: Global, tags: &[Tag]) -> Result<Text, FileFault> {
    let mut members = Map::new(alloc);
    for tag in tags {
        serde_json::put(&mut members, alloc, tag.name.as_str(), Value::from(tag.usn))?;
    }
    let text = write_text(alloc, &Value::Object(members))?;
    Ok(text)
}
