use ak_merge::CheckFault;
use ak_search::SearchFault;
use cases_lines::{Unread, at_place};
use std::alloc::Global;

/// The fault of a collection, or `sound`.
pub fn check_fault(alloc: Global, fault: Option<CheckFault>) -> Result<String, Unread> {
    match fault {
        None => Ok(String::from_str(alloc, "sound")?),
        Some(CheckFault::CardNoNote(id)) => Ok(format!(in alloc; "card {id} has no note")?),
        Some(CheckFault::NoteNoCard(id)) => Ok(format!(in alloc; "note {id} has no card")?),
        Some(CheckFault::NoteNoType(id)) => Ok(format!(in alloc; "note {id} has no type")?),
        Some(CheckFault::CardNoTemplate(id)) => Ok(format!(in alloc; "card {id} has no template")?),
    }
}

/// A fault of a search text in words, with its place.
pub fn search_fault(alloc: Global, fault: SearchFault) -> Result<String, Unread> {
    match fault {
        SearchFault::OpenQuote(place) => at_place(alloc, "open quote", place),
        SearchFault::OpenGroup(place) => at_place(alloc, "open group", place),
        SearchFault::EmptyGroup(place) => at_place(alloc, "empty group", place),
        SearchFault::LoneOr(place) => at_place(alloc, "lone or", place),
        SearchFault::BadValue(place) => at_place(alloc, "bad value", place),
        SearchFault::TooDeep(place) => at_place(alloc, "too deep", place),
        SearchFault::Memory => Err(Unread::Ended),
    }
}
