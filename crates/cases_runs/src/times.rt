use ak_base::List;
use ak_io::{ListChance, ListClock};
use cases_lines::{Unread, list_at};
use serde_json::Value;
use std::alloc::Global;

/// The clock that goes by the moments at a place of the arguments, or stands at 1700000000000 if there are none.
pub fn clock_at(alloc: Global, arguments: &Value, place: usize) -> Result<ListClock, Unread> {
    let mut moments = Vec::new(alloc);
    if arguments.get(place).is_none() {
        moments.push(1_700_000_000_000)?;
    } else {
        for value in list_at(arguments, place)? {
            moments.push(value.as_i64().ok_or(Unread::Bad)?)?;
        }
    }
    let in_range = moments
        .iter()
        .all(|moment| *moment >= 0 && *moment <= 4_294_967_294_999);
    if moments.as_slice().is_empty() || !in_range {
        return Err(Unread::Bad);
    }
    Ok(ListClock::new(List::of(moments)))
}

/// The words of chance at a place of the arguments, or 0 each time if there are none.
pub fn chance_at(alloc: Global, arguments: &Value, place: usize) -> Result<ListChance, Unread> {
    let mut words = Vec::new(alloc);
    if arguments.get(place).is_none() {
        words.push(0)?;
    } else {
        for value in list_at(arguments, place)? {
            words.push(value.as_u64().ok_or(Unread::Bad)?)?;
        }
    }
    if words.as_slice().is_empty() {
        return Err(Unread::Bad);
    }
    Ok(ListChance::new(List::of(words)))
}
