use crate::Unread;
use ak_base::{Row, RowFault};
use ak_json::{JsonFault, write_row, write_text};
use serde_json::Value;
use std::alloc::Global;

/// A fault of a row in words.
pub fn row_fault(alloc: Global, fault: RowFault) -> Result<String, Unread> {
    match fault {
        RowFault::TooLong { column, length } => {
            Ok(format!(in alloc; "too long: column {column} length {length}")?)
        },
        RowFault::StampRange => Ok(String::from_str(alloc, "stamp range")?),
        RowFault::IdRange => Ok(String::from_str(alloc, "id range")?),
        RowFault::BadCode { column, value } => {
            Ok(format!(in alloc; "bad code: column {column} value {value}")?)
        },
    }
}

/// A fault of a JSON text in words.
pub fn json_fault(alloc: Global, fault: &JsonFault) -> Result<String, Unread> {
    match fault {
        JsonFault::NotJson => Ok(String::from_str(alloc, "no JSON")?),
        JsonFault::Missing(key) => Ok(named(alloc, "missing ", key.as_str())?),
        JsonFault::WrongKind(key) => Ok(named(alloc, "wrong kind ", key.as_str())?),
        JsonFault::Row(fault) => row_fault(alloc, *fault),
        JsonFault::Memory => Err(Unread::Ended),
    }
}

/// Words and a place in a text.
pub fn at_place(alloc: Global, words: &str, place: u64) -> Result<String, Unread> {
    Ok(format!(in alloc; "{words} at {place}")?)
}

/// Two texts as one.
pub fn named(alloc: Global, words: &str, name: &str) -> Result<String, Unread> {
    let mut made = String::from_str(alloc, words)?;
    made.push_str(name)?;
    Ok(made)
}

/// `yes` or `no`.
pub fn truth(alloc: Global, holds: bool) -> Result<String, Unread> {
    let word = if holds { "yes" } else { "no" };
    Ok(String::from_str(alloc, word)?)
}

/// A text as JSON.
pub fn quoted(alloc: Global, text: &str) -> Result<String, Unread> {
    let value = Value::try_from_str(alloc, text)?;
    Ok(value.to_string(alloc)?)
}

/// Numbers in brackets.
pub fn listed(alloc: Global, numbers: &[i64]) -> Result<String, Unread> {
    let mut made = String::from_str(alloc, "[")?;
    for (place, number) in numbers.iter().enumerate() {
        let comma = if place == 0 { "" } else { "," };
        made.push_str(format!(in alloc; "{comma}{number}")?.as_str())?;
    }
    made.push_str("]")?;
    Ok(made)
}

/// How many bytes there are, and each of them.
pub fn bytes_text(alloc: Global, bytes: &[u8]) -> Result<String, Unread> {
    let count = bytes.len();
    let mut made = format!(in alloc; "{count} bytes:")?;
    for byte in bytes {
        made.push_str(format!(in alloc; " {byte}")?.as_str())?;
    }
    Ok(made)
}

/// The JSON text of a row.
pub fn row_text(alloc: Global, row: &Row) -> Result<String, Unread> {
    let value = write_row(alloc, row)?;
    value_text(alloc, &value)
}

/// The JSON text of a value.
pub fn value_text(alloc: Global, value: &Value) -> Result<String, Unread> {
    let text = write_text(alloc, value)?;
    Ok(String::from_str(alloc, text.as_str())?)
}
