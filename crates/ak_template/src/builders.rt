ghost use Rattle.std.specs.Prelude.{◌≡◌, ◌⊎◌, ◌++◌, ◌∷◌, [], Some, None, true, false, nat_lt, length, option_to_list, IfOk, OnOk, IfErr};
ghost use Rattle.ak_template.specs.Grammar.{fault_at, opened, outside, unclosed, closes, IsTooDeep, IsWrongClose, RefusesAs};
ghost use Rattle.ak_template.specs.Pieces.{words_step};
ghost use Rattle.ak_template.specs.declared.faults.TemplateFault.TheVariants as faults;

use crate::{Step, Template, TemplateFault};
use ak_base::{List, Memory, Text};
use std::alloc::Global;
use std::collections::VecDeque;

/// A section that is not closed yet.
#[derive(Debug, Drop)]
pub struct Opened {
    pub place: u64,
    pub name: Text,
}

/// What was read of a text so far: its steps, and the sections that are open, the innermost first.
#[derive(Debug, Drop)]
pub struct Builder {
    pub steps: Vec<Step>,
    pub sections: VecDeque<Opened>,
}

/// The most sections that are open inside one another.
const DEEPEST: usize = 32;

impl Builder {
    /// Nothing was read.
    pub fn new(alloc: Global) -> Builder
        ensures steps { result.steps.items ≡ [] }
        ensures sections { result.sections.items ≡ [] }
    {
        Builder {
            steps: Vec::new(alloc),
            sections: VecDeque::new(alloc),
        }
    }

    /// Adds plain words; none if they are empty.
    pub fn add_words(&mut self, alloc: Global, words: &str) -> Result<(), Memory>
        ensures steps { OnOk result (self.new.steps.items ≡ self.old.steps.items ++ words_step words.now) }
        ensures sections { OnOk result (self.new.sections.items ≡ self.old.sections.items) }
    {
        if words.is_empty() {
            return Ok(());
        }
        let words = Text::of(alloc, words)?;
        self.steps.push(Step::Words(words))?;
        Ok(())
    }

    /// Adds a tag at that place; `None` is a tag that is empty.
    pub fn add_tag(&mut self, place: u64, tag: Option<Step>) -> Result<(), TemplateFault>
        ensures none { OnOk result (fault_at self.old.sections.items (place, tag) ≡ None) }
        ensures steps { OnOk result (self.new.steps.items ≡ self.old.steps.items ++ option_to_list tag) }
        ensures sections { OnOk result (self.new.sections.items ≡ opened self.old.sections.items (place, tag)) }
        ensures fault { RefusesAs (fault_at self.old.sections.items (place, tag)) result }
    {
        match tag {
            None => return Err(TemplateFault::EmptyTag(place)),
            Some(Step::Words(words)) => {
                self.steps.push(Step::Words(words))?;
                return Ok(());
            }
            Some(Step::Field(filters, name)) => {
                self.steps.push(Step::Field(filters, name))?;
                return Ok(());
            }
            Some(Step::Open(inverted, name)) => {
                open_section(&mut self.sections, place, &name)?;
                self.steps.push(Step::Open(inverted, name))?;
                return Ok(());
            }
            Some(Step::Close(name)) => {
                close_section(&mut self.sections, place, name.as_str())?;
                self.steps.push(Step::Close(name))?;
                return Ok(());
            }
        }
    }

    /// The template, if no section is open; else the outermost one is unclosed.
    pub fn finish(self) -> Result<Template, TemplateFault>
        ensures steps { IfOk result (λ template. template.steps ≡ self.steps.items) }
        ensures none { OnOk result (unclosed self.sections.items ≡ None) }
        ensures fault { IfErr result (λ fault. unclosed self.sections.items ≡ Some fault) }
    {
        let Builder { steps, sections } = self;
        match sections.back() {
            Some(section) => return Err(TemplateFault::Unclosed(section.place)),
            None => {}
        }
        Ok(Template {
            steps: List::of(steps),
        })
    }
}

/// Opens a section at that place, inside at most 31 others.
fn open_section(
    sections: &mut VecDeque<Opened>,
    place: u64,
    name: &Text,
) -> Result<(), TemplateFault>
    ensures few { OnOk result (nat_lt (length sections.old.items) 32 ≡ true) }
    ensures ok { OnOk result (sections.new.items ≡ record { place = place; name = name.now } ∷ sections.old.items) }
    ensures fault { IfErr result (λ fault. (fault ≡ faults.Memory) ⊎ IsTooDeep sections.old.items place fault) }
{
    if sections.len() >= DEEPEST {
        return Err(TemplateFault::TooDeep(place));
    }
    let name = name.copy()?;
    sections.push_front(Opened { place, name })?;
    Ok(())
}

/// Closes the innermost section, which must have that name.
fn close_section(
    sections: &mut VecDeque<Opened>,
    place: u64,
    name: &str,
) -> Result<(), TemplateFault>
    ensures closes { OnOk result (closes sections.old.items name.now ≡ true) }
    ensures ok { OnOk result (sections.new.items ≡ outside sections.old.items) }
    ensures fault { IfErr result (IsWrongClose sections.old.items name.now place) }
{
    if !is_closed_by(sections, name) {
        return Err(TemplateFault::WrongClose(place));
    }
    sections.pop_front();
    Ok(())
}

/// Whether a close tag of that name closes the innermost open section.
fn is_closed_by(sections: &VecDeque<Opened>, name: &str) -> bool
    ensures { result ≡ closes sections.now.items name.now }
{
    match sections.front() {
        Some(section) => section.name.as_str() == name,
        None => false,
    }
}
