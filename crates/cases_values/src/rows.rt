ghost use Rattle.std.specs.Prelude.{◌<◌};

use ak_base::{Row, Table, cut};
use ak_json::{JsonFault, read_conf, read_row, read_text, write_conf};
use cases_lines::{Unread, json_fault, row_at, row_fault, row_text, table_of, text_at, value_text};
use serde_json::Value;
use std::alloc::Global;

/// `row TABLE JSON`: the text of the row that the JSON is read as, or its first fault.
pub fn row(alloc: Global, rest: &str) -> Result<String, Unread> {
    let (table, text) = cut(rest, " ").ok_or(Unread::Bad)?;
    written_again(alloc, table_of(table)?, text)
}

fn written_again(alloc: Global, table: Table, text: &str) -> Result<String, Unread> {
    match read(alloc, table, text) {
        Ok(row) => row_text(alloc, &row),
        Err(fault) => json_fault(alloc, &fault),
    }
}

fn read(alloc: Global, table: Table, text: &str) -> Result<Row, JsonFault> {
    let value = read_text(alloc, text.as_bytes())?;
    read_row(alloc, table, &value)
}

/// `check TABLE JSON`: `ok`, or the first fault of the row.
pub fn check(alloc: Global, rest: &str) -> Result<String, Unread> {
    let (table, text) = cut(rest, " ").ok_or(Unread::Bad)?;
    match read(alloc, table_of(table)?, text) {
        Ok(row) => checked(alloc, &row),
        Err(fault) => json_fault(alloc, &fault),
    }
}

fn checked(alloc: Global, row: &Row) -> Result<String, Unread> {
    match row.check() {
        Ok(()) => Ok(String::from_str(alloc, "ok")?),
        Err(fault) => row_fault(alloc, fault),
    }
}

/// `about TABLE JSON`: the row's name, stamp and usn, and the text of a copy with usn 77.
pub fn about(alloc: Global, rest: &str) -> Result<String, Unread> {
    let (table, text) = cut(rest, " ").ok_or(Unread::Bad)?;
    match read(alloc, table_of(table)?, text) {
        Ok(row) => told_of(alloc, &row),
        Err(fault) => json_fault(alloc, &fault),
    }
}

fn told_of(alloc: Global, row: &Row) -> Result<String, Unread> {
    let copied = copied_text(alloc, row)?;
    let name = row.name();
    let place = name.table.place();
    let id = name.id;
    let stamp = row.stamp();
    let usn = row.usn();
    Ok(format!(in alloc; "table {place} id {id} stamp {stamp} usn {usn} copy {copied}")?)
}

fn copied_text(alloc: Global, row: &Row) -> Result<String, Unread> {
    told_row(alloc, with_usn(row.copy()?))
}

fn with_usn(row: Row) -> Row {
    let mut row = row;
    row.set_usn(77);
    row
}

/// The text of a row that is needed no more: a drop of a row is dear to prove, so it stands here alone.
pub fn told_row(alloc: Global, row: Row) -> Result<String, Unread> {
    row_text(alloc, &row)
}

/// `same [TABLE, ROW, TABLE, ROW]`: whether two rows are equal, and whether their content is.
pub fn same(alloc: Global, arguments: &Value) -> Result<String, Unread> {
    let first = named_row(alloc, arguments, 0)?;
    same_as(alloc, &first, arguments)
}

fn same_as(alloc: Global, first: &Row, arguments: &Value) -> Result<String, Unread> {
    let second = named_row(alloc, arguments, 2)?;
    compared(alloc, first, &second)
}

fn compared(alloc: Global, first: &Row, second: &Row) -> Result<String, Unread> {
    let equal = first == second;
    let content = first.same_content(second);
    let fields = first.same_but_stamp_and_usn(second);
    Ok(format!(in alloc; "equal {equal} content {content} fields {fields}")?)
}

fn named_row(alloc: Global, arguments: &Value, place: usize) -> Result<Row, Unread>
    requires { place < 4 }
{
    let table = table_of(text_at(arguments, place)?)?;
    row_at(alloc, arguments, place + 1, table)
}

/// `conf JSON`: the text of the settings that the JSON is read as, or their first fault.
pub fn conf(alloc: Global, rest: &str) -> Result<String, Unread> {
    match conf_again(alloc, rest) {
        Ok(value) => value_text(alloc, &value),
        Err(fault) => json_fault(alloc, &fault),
    }
}

fn conf_again(alloc: Global, text: &str) -> Result<Value, JsonFault> {
    let value = read_text(alloc, text.as_bytes())?;
    let conf = read_conf(alloc, &value)?;
    Ok(write_conf(alloc, &conf)?)
}
