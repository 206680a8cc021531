use ak_base::List;
use cases_keepers::value_of;
use cases_lines::Unread;
use serde_json::Value;
use std::alloc::Global;

/// The bytes of a JSON text.
pub fn bytes_in(alloc: Global, text: &str) -> Result<Vec<u8>, Unread> {
    bytes_of(alloc, &value_of(alloc, text)?)
}

/// The bytes of a JSON value that is a text.
pub fn bytes_of(alloc: Global, value: &Value) -> Result<Vec<u8>, Unread> {
    match value.as_str() {
        Some(text) => Ok(Vec::from_slice(alloc, text.as_bytes())?),
        None => Err(Unread::Bad),
    }
}

/// The numbers of a JSON list.
pub fn numbers_in(alloc: Global, text: &str) -> Result<List<u64>, Unread> {
    numbers_of(alloc, &value_of(alloc, text)?)
}

/// The numbers of a JSON value that is a list.
pub fn numbers_of(alloc: Global, value: &Value) -> Result<List<u64>, Unread> {
    let mut numbers = List::new(alloc);
    for number in value.as_array().ok_or(Unread::Bad)? {
        numbers.push(number.as_u64().ok_or(Unread::Bad)?)?;
    }
    Ok(numbers)
}

/// The texts of a JSON list.
pub fn texts_in(alloc: Global, text: &str) -> Result<Vec<String>, Unread> {
    let value = value_of(alloc, text)?;
    let mut texts = Vec::new(alloc);
    for one in value.as_array().ok_or(Unread::Bad)? {
        let text = one.as_str().ok_or(Unread::Bad)?;
        texts.push(String::from_str(alloc, text)?)?;
    }
    Ok(texts)
}
