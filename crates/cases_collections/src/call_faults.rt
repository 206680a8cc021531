use ak_base::Name;
use ak_edit::DeskFault;
use cases_keepers::name_text;
use cases_lines::{Unread, named, row_fault};
use std::alloc::Global;

/// Why a call was refused, in words.
pub fn fault_text(alloc: Global, fault: DeskFault) -> Result<String, Unread> {
    match fault {
        DeskFault::NoSuch(name) => with_name(alloc, "no such ", name),
        DeskFault::InUse(name) => with_name(alloc, "in use: ", name),
        DeskFault::DefaultKept(name) => with_name(alloc, "always kept: ", name),
        DeskFault::Row(fault) => row_fault(alloc, fault),
        DeskFault::StampEnd => Ok(String::from_str(alloc, "stamp end")?),
        DeskFault::IdEnd => Ok(String::from_str(alloc, "id end")?),
        DeskFault::NothingToUndo => Ok(String::from_str(alloc, "nothing to undo")?),
        DeskFault::SchemaAsk => Ok(String::from_str(alloc, "schema ask")?),
        DeskFault::Failed => Ok(String::from_str(alloc, "failed")?),
        DeskFault::FieldCount { want, got } => Ok(format!(in alloc;
            "fields {got}, wanted {want}"
        )?),
        DeskFault::NotAnswerable(queue) => Ok(format!(in alloc; "not answerable: queue {queue}")?),
        DeskFault::BadMap(place) => Ok(format!(in alloc; "bad map at {place}")?),
        DeskFault::Template(_) => Ok(String::from_str(alloc, "template")?),
        DeskFault::Page(_) => Ok(String::from_str(alloc, "page")?),
        DeskFault::Memory => Err(Unread::Ended),
    }
}

fn with_name(alloc: Global, words: &str, name: Name) -> Result<String, Unread> {
    let text = name_text(alloc, Some(name))?;
    Ok(named(alloc, words, text.as_str())?)
}
