ghost use Rattle.std.specs.Prelude.{◌≡◌, ◌<◌, length, true};
ghost use Rattle.ak_template.specs.Pages.{ends_in_cloze};

use ak_base::{List, Text};

/// One step through a template, from front to back.
#[derive(Debug, Drop)]
pub enum Step {
    Words(Text),
    /// The filters, in the order in which they are written, and the field's name.
    Field(List<Text>, Text),
    /// A section begins: it is shown if its field is not empty; an inverted one, if it is.
    Open(bool, Text),
    Close(Text),
}

/// A template that was read. It is kept as its steps; each section that is opened is closed.
#[derive(Debug, Drop)]
pub struct Template {
    pub(crate) steps: List<Step>,
}

impl Template {
    /// Its steps, from front to back.
    pub fn steps(&self) -> &[Step]
        ensures { result.now ≡ self.now.steps }
    {
        self.steps.as_slice()
    }
}

/// Whether the last filter of a field's tag, which is right before the field's name, is `cloze`.
pub fn ends_in_cloze(filters: &[Text]) -> bool
    ensures is { result ≡ ends_in_cloze filters.now }
    ensures some { result ≡ true → 0 < length filters.now }
{
    match filters.last() {
        Some(filter) => filter.as_str() == "cloze",
        None => false,
    }
}
