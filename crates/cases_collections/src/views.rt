ghost use Rattle.std.specs.Prelude.{◌<◌, ◌≤◌, IfOk};

use crate::requests::host_of;
use ak_base::{Head, HostKey, List, Row, Table, cut};
use ak_json::write_conf;
use ak_keep::KeepFault;
use ak_memory::MemoryKeeper;
use ak_server::Server;
use cases_keepers::failed;
use cases_lines::{Unread, quoted, row_text, table_of, value_text};
use std::alloc::Global;

/// `view HOST TABLE PAST LIMIT`: the rows, or `none`.
pub fn view(
    alloc: Global,
    server: &mut Server<MemoryKeeper>,
    rest: &str,
) -> Result<String, Unread> {
    let (host, rest) = cut(rest, " ").ok_or(Unread::Bad)?;
    let (table, rest) = cut(rest, " ").ok_or(Unread::Bad)?;
    let (past, limit) = cut(rest, " ").ok_or(Unread::Bad)?;
    let past = past.parse::<i64>().ok().ok_or(Unread::Bad)?;
    let (host, table, limit) = (host_of(host)?, table_of(table)?, limit_of(limit)?);
    page_text(alloc, server.view(host, table, past, limit))
}

fn limit_of(text: &str) -> Result<usize, Unread>
    ensures { IfOk result (λ limit. (0 < limit) × (limit ≤ 1000)) }
{
    match text.parse::<usize>() {
        Ok(limit) if limit >= 1 && limit <= 1000 => Ok(limit),
        _ => Err(Unread::Bad),
    }
}

/// `view-head HOST`: the head, or `none`.
pub fn view_head(
    alloc: Global,
    server: &mut Server<MemoryKeeper>,
    rest: &str,
) -> Result<String, Unread> {
    match server.view_head(host_of(rest)?) {
        Ok(Some(head)) => head_text(alloc, &head),
        Ok(None) => Ok(String::from_str(alloc, "none")?),
        Err(fault) => failed(alloc, fault),
    }
}

/// `all HOST`: the head, and then the first 1,000 rows of each table.
pub fn all(alloc: Global, server: &mut Server<MemoryKeeper>, rest: &str) -> Result<String, Unread> {
    let host = host_of(rest)?;
    let mut made = view_head(alloc, server, rest)?;
    for table in Table::all() {
        made.push_str(" ")?;
        let page = server.view(host, table, 0, 1000);
        made.push_str(page_text(alloc, page)?.as_str())?;
    }
    Ok(made)
}

fn page_text(alloc: Global, page: Result<Option<List<Row>>, KeepFault>) -> Result<String, Unread> {
    match page {
        Ok(Some(rows)) => rows_text(alloc, rows.as_slice()),
        Ok(None) => Ok(String::from_str(alloc, "none")?),
        Err(fault) => failed(alloc, fault),
    }
}

fn rows_text(alloc: Global, rows: &[Row]) -> Result<String, Unread> {
    let mut made = String::from_str(alloc, "[")?;
    for (place, row) in rows.iter().enumerate() {
        if place > 0 {
            made.push_str(",")?;
        }
        made.push_str(row_text(alloc, row)?.as_str())?;
    }
    made.push_str("]")?;
    Ok(made)
}

/// Crt, moment, schema moment, usn, last sync, the settings, and each tag with its usn.
fn head_text(alloc: Global, head: &Head) -> Result<String, Unread> {
    let mut made = numbers_text(alloc, head)?;
    let conf = write_conf(alloc, &head.conf)?;
    made.push_str(value_text(alloc, &conf)?.as_str())?;
    for tag in head.tags.as_slice() {
        let name = quoted(alloc, tag.name.as_str())?;
        let usn = tag.usn;
        made.push_str(format!(in alloc; " {name} {usn}")?.as_str())?;
    }
    Ok(made)
}

fn numbers_text(alloc: Global, head: &Head) -> Result<String, Unread> {
    let [crt, moment, schema] = [head.crt, head.moment, head.schema];
    let [usn, last_sync] = [head.usn, head.last_sync];
    Ok(format!(in alloc; "{crt} {moment} {schema} {usn} {last_sync} ")?)
}
