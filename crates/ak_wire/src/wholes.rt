ghost use Rattle.std.specs.Prelude.{◌≡◌, ◌++◌, None, pos, OnOk, IfOk, IfErr};
ghost use Rattle.serde_json.specs.Data.{put, no_members};
ghost use Rattle.serde_json.specs.View.{view, items_view, members_view};
ghost use Rattle.ak_wire.specs.Keys.{key_text};
ghost use Rattle.ak_wire.specs.Written.{with_members, whole_pairs, rows_under, is_under, tags_json, upload_json, download_json};
ghost use Rattle.ak_json.specs.Rows.{ReadsRow};
ghost use Rattle.ak_wire.specs.Faults.{OrMemory, AddsIf, ReadsEach, RefusesEach};
ghost use Rattle.ak_wire.specs.Parts.{RefusesRowOf};
ghost use Rattle.ak_wire.specs.Forms.{upload_form, download_form};
ghost use Rattle.ak_wire.specs.Wholes.{goes_with, listed_code, items_for, rows_after, AddsTable, RefusesIf, TableFault, AddsTables, TablesFault, TakesParts, PartsFault, upload_tables, download_tables, ReadsUpload, ReadsDownload, WholeFault};

use crate::WireFault;
use crate::forms::{DOWNLOAD, UPLOAD};
use crate::keys::Key;
use crate::kinds::{is_after, number_at};
use crate::objects::{check_object, integer_under, items_under, tags_under, value_under};
use crate::written::add;
use ak_base::{List, Memory, Row, Table, Tag};
use ak_json::{read_conf, read_row, write_conf, write_row};
use ak_messages::Whole;
use serde_json::{Map, Value};
use std::alloc::Global;

/// The tables of a whole collection, each with its key. Those of graves come last, and share one.
const TABLES: [(Table, Key); 9] = [
    (Table::Note, Key::Notes),
    (Table::Card, Key::Cards),
    (Table::Review, Key::Revlog),
    (Table::NoteType, Key::Models),
    (Table::Deck, Key::Decks),
    (Table::Options, Key::Options),
    (Table::NoteGrave, Key::Graves),
    (Table::CardGrave, Key::Graves),
    (Table::DeckGrave, Key::Graves),
];

/// How many of the tables a client brings: all but the graves.
const UPLOADED: usize = 6;

/// The whole collection that a client brings. Keys are tested first, then the settings, then the rows, by
/// table and place; after the rows of a table comes whether their ids ascend.
#[tactic(auto, using(crate::proofs::Refusals::form_first, crate::proofs::Refusals::form_later))]
pub(crate) fn read_upload(alloc: Global, value: &Value) -> Result<Whole, WireFault>
    ensures ok { IfOk result (ReadsUpload (view value.now)) }
    ensures err { IfErr result (OrMemory (WholeFault upload_form upload_tables (view value.now))) }
{
    check_object(alloc, &UPLOAD, value)?;
    read_whole(alloc, &TABLES[..UPLOADED], value)
}

/// The whole collection that a server gives, tested in the same order.
#[tactic(auto, using(crate::proofs::Refusals::form_first, crate::proofs::Refusals::form_later))]
pub(crate) fn read_download(alloc: Global, value: &Value) -> Result<Whole, WireFault>
    ensures ok { IfOk result (ReadsDownload (view value.now)) }
    ensures err { IfErr result (OrMemory (WholeFault download_form download_tables (view value.now))) }
{
    check_object(alloc, &DOWNLOAD, value)?;
    let mut whole = read_whole(alloc, &TABLES, value)?;
    whole.usn = integer_under(Key::Usn, value);
    Ok(whole)
}

/// The collection of an object of its form, with the rows of these tables and the usn 0.
#[tactic(auto, using(crate::proofs::Refusals::then_first, crate::proofs::Refusals::then_later, crate::proofs::Tables::all_rows))]
fn read_whole(alloc: Global, tables: &[(Table, Key)], value: &Value) -> Result<Whole, WireFault>
    ensures ok { IfOk result (TakesParts tables.now (view value.now)) }
    ensures usn { IfOk result (λ whole. whole.usn ≡ pos 0) }
    ensures err { IfErr result (OrMemory (PartsFault tables.now (view value.now))) }
{
    let conf = read_conf(alloc, value_under(Key::Conf, value))?;
    let mut rows = List::new(alloc);
    read_tables(alloc, tables, value, &mut rows)?;
    let tags = tags_under(alloc, Key::Tags, value)?;
    Ok(Whole {
        rows,
        crt: integer_under(Key::Crt, value),
        moment: integer_under(Key::Mod, value),
        schema: integer_under(Key::Scm, value),
        usn: 0,
        conf,
        tags,
    })
}

/// Adds the rows of these tables, one table after the other.
#[tactic(auto, using(crate::proofs::Tables::tables_end, crate::proofs::Tables::tables_more, crate::proofs::Tables::table_fails, crate::proofs::Tables::others_fail))]
fn read_tables(
    alloc: Global,
    tables: &[(Table, Key)],
    value: &Value,
    rows: &mut List<Row>,
) -> Result<(), WireFault>
    ensures ok { OnOk result (AddsTables tables.now (view value.now) rows.old rows.new) }
    ensures err { IfErr result (OrMemory (TablesFault tables.now (view value.now))) }
{
    if let Some(((table, key), others)) = tables.split_first() {
        read_table(alloc, *table, items_under(*key, value), rows)?;
        return read_tables(alloc, others, value, rows);
    }
    Ok(())
}

/// Adds the rows of a table, which are those of a list that go with it.
fn read_table(
    alloc: Global,
    table: Table,
    values: &[Value],
    rows: &mut List<Row>,
) -> Result<(), WireFault>
    ensures ok { OnOk result (AddsTable table (items_for table (items_view values.now)) rows.old rows.new) }
    ensures err { IfErr result (OrMemory (TableFault table (items_for table (items_view values.now)))) }
{
    let added = read_rows(alloc, table, values)?;
    if !do_ascend(added.as_slice()) {
        return Err(WireFault::RowOrder(table));
    }
    append(rows, added)?;
    Ok(())
}

/// The rows of the values of a list that go with a table.
fn read_rows(alloc: Global, table: Table, values: &[Value]) -> Result<List<Row>, WireFault>
    ensures ok { IfOk result (ReadsEach (ReadsRow table) (items_for table (items_view values.now))) }
    ensures err { IfErr result (OrMemory (RefusesEach (ReadsRow table) (RefusesRowOf table) (items_for table (items_view values.now)))) }
{
    let mut rows = List::new(alloc);
    for value in values {
        add_row(alloc, table, value, &mut rows)?;
    }
    Ok(rows)
}

/// Adds the row that a value stands for, if the value goes with the table.
fn add_row(
    alloc: Global,
    table: Table,
    value: &Value,
    rows: &mut List<Row>,
) -> Result<(), WireFault>
    ensures ok { OnOk result (AddsIf (goes_with table (view value.now)) (ReadsRow table) (view value.now) rows.old rows.new) }
    ensures err { IfErr result (OrMemory (RefusesIf table (view value.now))) }
{
    if goes_with(table, value) {
        let row = row_of(alloc, table, value)?;
        rows.push(row)?;
    }
    Ok(())
}

/// The row of a table that a value stands for.
fn row_of(alloc: Global, table: Table, value: &Value) -> Result<Row, WireFault>
    ensures ok { IfOk result (ReadsRow table (view value.now)) }
    ensures err { IfErr result (OrMemory (RefusesRowOf table (view value.now))) }
{
    let row = read_row(alloc, table, value)?;
    Ok(row)
}

/// Whether the ids of the rows ascend.
fn do_ascend(rows: &[Row]) -> bool
    ensures { result ≡ rows_after None rows.now }
{
    let mut before = None;
    for row in rows {
        let id = row.name().id;
        if !is_after(before, id) {
            return false;
        }
        before = Some(id);
    }
    true
}

/// Adds rows to others.
fn append(rows: &mut List<Row>, added: List<Row>) -> Result<(), Memory>
    ensures { OnOk result (rows.new ≡ rows.old ++ added) }
{
    for row in added.into_vec() {
        rows.push(row)?;
    }
    Ok(())
}

/// Whether a value of a list goes with this table. Of a list of graves, those of its code do; one of no
/// stored code goes with the graves of decks, which refuse it.
fn goes_with(table: Table, value: &Value) -> bool
    ensures { result ≡ goes_with table (view value.now) }
{
    match table.stored_code() {
        Some(code) => listed_code(number_at(2, value)) == code,
        None => true,
    }
}

/// The stored code that a grave of a list goes by.
fn listed_code(code: Option<i64>) -> i64
    ensures { result ≡ listed_code code }
{
    match code {
        Some(0) => 0,
        Some(1) => 1,
        _ => 2,
    }
}

/// The object of a collection that a client brings.
pub(crate) fn write_upload(alloc: Global, whole: &Whole) -> Result<Value, Memory>
    ensures { IfOk result (λ value. view value ≡ upload_json whole.now) }
{
    let members = write_parts(alloc, whole)?;
    Ok(Value::Object(members))
}

/// The object of a collection that a server gives.
pub(crate) fn write_download(alloc: Global, whole: &Whole) -> Result<Value, Memory>
    ensures { IfOk result (λ value. view value ≡ download_json whole.now) }
{
    let mut members = write_parts(alloc, whole)?;
    add_rows(alloc, Key::Graves, whole, &mut members)?;
    add(alloc, Key::Usn, Value::from(whole.usn), &mut members)?;
    Ok(Value::Object(members))
}

/// The members that both forms of a whole collection have.
fn write_parts(alloc: Global, whole: &Whole) -> Result<Map<String, Value>, Memory>
    ensures { IfOk result (λ members. members_view members.entries ≡ with_members (whole_pairs whole.now) no_members) }
{
    let conf = write_conf(alloc, &whole.conf)?;
    let tags = write_tags(alloc, whole.tags.as_slice())?;
    let mut members = Map::new(alloc);
    add_rows(alloc, Key::Cards, whole, &mut members)?;
    add(alloc, Key::Conf, conf, &mut members)?;
    add(alloc, Key::Crt, Value::from(whole.crt), &mut members)?;
    add_rows(alloc, Key::Decks, whole, &mut members)?;
    add(alloc, Key::Mod, Value::from(whole.moment), &mut members)?;
    add_rows(alloc, Key::Models, whole, &mut members)?;
    add_rows(alloc, Key::Notes, whole, &mut members)?;
    add_rows(alloc, Key::Options, whole, &mut members)?;
    add_rows(alloc, Key::Revlog, whole, &mut members)?;
    add(alloc, Key::Scm, Value::from(whole.schema), &mut members)?;
    add(alloc, Key::Tags, tags, &mut members)?;
    Ok(members)
}

/// Adds the array of the rows that stand under a key.
fn add_rows(
    alloc: Global,
    key: Key,
    whole: &Whole,
    members: &mut Map<String, Value>,
) -> Result<(), Memory>
    ensures { OnOk result (members_view members.new.entries ≡ put (key_text key) (rows_under key whole.now.rows) (members_view members.old.entries)) }
{
    let rows = write_rows(alloc, key, whole.rows.as_slice())?;
    add(alloc, key, rows, members)
}

/// The array of the rows that stand under a key.
fn write_rows(alloc: Global, key: Key, rows: &[Row]) -> Result<Value, Memory>
    ensures { IfOk result (λ value. view value ≡ rows_under key rows.now) }
{
    let mut values = Vec::new(alloc);
    for row in rows {
        if is_under(key, row) {
            let value = write_row(alloc, row)?;
            values.push(value)?;
        }
    }
    Ok(Value::Array(values))
}

/// Whether a row stands under a key.
fn is_under(key: Key, row: &Row) -> bool
    ensures { result ≡ is_under key row.now }
{
    match row {
        Row::Note(_) => matches!(key, Key::Notes),
        Row::Card(_) => matches!(key, Key::Cards),
        Row::Review(_) => matches!(key, Key::Revlog),
        Row::NoteType(_) => matches!(key, Key::Models),
        Row::Deck(_) => matches!(key, Key::Decks),
        Row::Options(_) => matches!(key, Key::Options),
        Row::Grave(_) => matches!(key, Key::Graves),
    }
}

/// The object of these tags, each with its usn.
fn write_tags(alloc: Global, tags: &[Tag]) -> Result<Value, Memory>
    ensures { IfOk result (λ value. view value ≡ tags_json tags.now) }
{
    let mut members = Map::new(alloc);
    for tag in tags {
        serde_json::put(&mut members, alloc, tag.name.as_str(), Value::from(tag.usn))?;
    }
    Ok(Value::Object(members))
}
