use cases_lines::Unread;
use sqlite::types::ValueRef;
use sqlite::{Alter, Connection, Error, Row};
use std::alloc::Global;
use std::rt::HostRuntime;
use std::str;

/// `sql TEXT`: runs the statements over the file at this path.
pub fn ran(alloc: Global, rt: &HostRuntime, path: &str, text: &str) -> Result<String, Unread> {
    let answer = match shown(rt, path, text, false) {
        Ok(_) => "ok",
        Err(_) => "refused",
    };
    Ok(String::from_str(alloc, answer)?)
}

/// `ask TEXT`: the rows that the statement shows.
pub fn asked(alloc: Global, rt: &HostRuntime, path: &str, text: &str) -> Result<String, Unread> {
    match shown(rt, path, text, true) {
        Ok(rows) => rows_text(alloc, rows.as_slice()),
        Err(_) => Ok(String::from_str(alloc, "refused")?),
    }
}

// The one function that owns a connection, and it ends in one way alone while it does: each drop of one is dear to prove.
fn shown(rt: &HostRuntime, path: &str, text: &str, asks: bool) -> Result<Vec<Row>, Error> {
    let mut conn = Connection::open(rt, path)?;
    let rows = rows_by(rt.alloc(), &mut conn, text, asks);
    conn.close()?;
    rows
}

/// The rows that one statement shows, or none of statements that only run.
fn rows_by<S: Alter>(
    alloc: Global,
    conn: &mut Connection<S>,
    text: &str,
    asks: bool,
) -> Result<Vec<Row>, Error> {
    if asks {
        return conn.query_all(text, &[]);
    }
    conn.execute_batch(text)?;
    Ok(Vec::new(alloc))
}

fn rows_text(alloc: Global, rows: &[Row]) -> Result<String, Unread> {
    let mut made = String::new(alloc);
    for row in rows {
        made.push_str(columns_text(alloc, row)?.as_str())?;
        made.push_str(" ")?;
    }
    made.push_str("end")?;
    Ok(made)
}

fn columns_text(alloc: Global, row: &Row) -> Result<String, Unread> {
    let mut made = String::new(alloc);
    for at in 0..row.column_count() {
        if at > 0 {
            made.push_str("|")?;
        }
        made.push_str(value_text(alloc, row, at)?.as_str())?;
    }
    Ok(made)
}

fn value_text(alloc: Global, row: &Row, at: usize) -> Result<String, Unread> {
    match row.get_ref(at) {
        Ok(ValueRef::Int(number)) => Ok(format!(in alloc; "{number}")?),
        Ok(ValueRef::Text(bytes)) => match str::from_utf8(bytes) {
            Ok(text) => Ok(String::from_str(alloc, text)?),
            Err(_) => Err(Unread::Bad),
        },
        _ => Ok(String::from_str(alloc, "other")?),
    }
}
