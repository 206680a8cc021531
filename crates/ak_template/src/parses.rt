ghost use Rattle.std.specs.Prelude.{◌≡◌, ◌⊎◌, ◌<◌, length, Some, None, IfOk, OnOk, IfErr};
ghost use Rattle.ak_template.specs.Grammar.{IsTemplate, fault_place, first_fault, PassesTag, AddsTag, RefusesTag};
ghost use Rattle.ak_template.specs.Pieces.{pieces, steps_in};
ghost use Rattle.ak_template.specs.Trees.{Tree, tree_steps};
ghost use Rattle.ak_template.specs.declared.faults.TemplateFault.TheVariants as faults;

use crate::builders::Builder;
use crate::tags::{next_tag, read_tag};
use crate::trims::trim;
use crate::{Template, TemplateFault};
use std::alloc::Global;

/// The template of a text, or its first fault. An unclosed section is found at the end.
pub fn parse(alloc: Global, text: &str) -> Result<Template, TemplateFault>
    // The text has the tree of the template.
    ensures tree { IfOk result (λ template. (tree : Tree) × IsTemplate text.now tree × (template.steps ≡ tree_steps tree)) }

    // A text that has a tree is refused only if memory runs out.
    ensures only { (tree : Tree) → IsTemplate text.now tree → IfErr result (λ fault. fault ≡ faults.Memory) }

    // The place of any other refusal is inside the text.
    ensures within { IfErr result (λ fault. (fault ≡ faults.Memory) ⊎ (fault_place fault < length text.now)) }

    // Any other refusal is the first fault.
    ensures fault { IfErr result (λ fault. (fault ≡ faults.Memory) ⊎ (first_fault text.now ≡ Some fault)) }
{
    read_template(alloc, text)
}

/// The steps of the text's pieces, unless one of them has a fault.
fn read_template(alloc: Global, text: &str) -> Result<Template, TemplateFault>
    ensures none { OnOk result (first_fault text.now ≡ None) }
    ensures steps { IfOk result (λ template. template.steps ≡ steps_in (pieces text.now)) }
    ensures fault { IfErr result (λ fault. (fault ≡ faults.Memory) ⊎ (first_fault text.now ≡ Some fault)) }
{
    let mut builder = Builder::new(alloc);
    let mut rest = text;
    while let Some((before, inside, behind)) = next_tag(rest) {
        let place = (text.len() - rest.len() + before.len()) as u64;
        add_next(&mut builder, alloc, before, place, inside)?;
        rest = behind;
    }
    builder.add_words(alloc, rest)?;
    builder.finish()
}

/// Adds the words before a tag, and the tag, which opens at that place.
fn add_next(
    into: &mut Builder,
    alloc: Global,
    before: &str,
    place: u64,
    inside: &str,
) -> Result<(), TemplateFault>
    ensures faults { OnOk result (PassesTag into.old.sections.items into.new.sections.items before.now place inside.now) }
    ensures steps { OnOk result (AddsTag into.old.steps.items into.new.steps.items before.now place inside.now) }
    ensures fault { RefusesTag into.old.sections.items before.now place inside.now result }
{
    into.add_words(alloc, before)?;
    let tag = read_tag(alloc, trim(inside))?;
    into.add_tag(place, tag)
}
