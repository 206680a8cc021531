use ak_cardgen::GenFault;
use ak_template::{PageFault, TemplateFault};
use cases_lines::{Unread, at_place, named, quoted};
use std::alloc::Global;

/// Puts a text as JSON behind what is there.
pub fn push_quoted(alloc: Global, made: &mut String, text: &str) -> Result<(), Unread> {
    let text = quoted(alloc, text)?;
    made.push_str(text.as_str())?;
    Ok(())
}

/// A fault of a template in words, with its place.
pub fn template_fault(alloc: Global, fault: TemplateFault) -> Result<String, Unread> {
    match fault {
        TemplateFault::Unclosed(place) => at_place(alloc, "unclosed", place),
        TemplateFault::WrongClose(place) => at_place(alloc, "wrong close", place),
        TemplateFault::EmptyTag(place) => at_place(alloc, "empty tag", place),
        TemplateFault::TooDeep(place) => at_place(alloc, "too deep", place),
        TemplateFault::Memory => Err(Unread::Ended),
    }
}

/// Why the cards of a note can't be told.
pub fn cards_fault(alloc: Global, fault: GenFault) -> Result<String, Unread> {
    match fault {
        GenFault::Template(fault) => template_fault(alloc, fault),
        GenFault::Memory => Err(Unread::Ended),
    }
}

/// Why there is no page.
pub fn page_fault(alloc: Global, fault: &PageFault) -> Result<String, Unread> {
    match fault {
        PageFault::NoField(name) => named(alloc, "no field ", name.as_str()),
        PageFault::NoFilter(name) => named(alloc, "no filter ", name.as_str()),
        PageFault::Memory => Err(Unread::Ended),
    }
}
