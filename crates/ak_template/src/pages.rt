// The page of a template, which is made step by step.
ghost use Rattle.std.specs.Prelude.{◌≡◌, ◌⊎◌, ◌+◌, ◌<◌, ◌≤◌, ◌^◌, None, string_bytes, IfOk, IfErr};
ghost use Rattle.ak_template.specs.Pages.{Makes, Refuses, Halts, HaltsOnWay, MakesPage, RefusesPage, HaltsOnPage, HaltsBeforeEnd, SameKinds, Adds, IsMissing, field_value, chain_text, tag_text, field_text, hidden_section, step_page, hidden_after, walk, applied_order, tag_filters, step_filters, walk_filters};
ghost use Rattle.ak_template.specs.declared.faces.PageFault.TheVariants as faults;

use crate::clozes::show_clozes;
use crate::faces::value_of;
use crate::filters::apply_named;
use crate::steps::ends_in_cloze;
use crate::{Face, PageFault, Step, Template};
use ak_base::Text;
use ak_filters::{FieldFilter, is_empty_value};
use std::alloc::Global;

/// The page that the template makes of the fields and the filters. Each filter is applied once for each tag that
/// is shown and names it, from left to right; what is not shown applies none.
pub fn render(
    alloc: Global,
    template: &Template,
    face: &Face,
    filters: &mut Vec<Box<dyn FieldFilter>>,
) -> Result<Text, PageFault>
    // The page of the template's tree, and the filters after it.
    ensures ok { MakesPage (λ b. meaning b) filters.old.items filters.new.items face.now template.now result }

    // Any refusal but that memory ran out is the first fault along the page, and the filters are those at that place.
    ensures fault { RefusesPage (λ b. meaning b) filters.old.items filters.new.items face.now template.now result }

    // If memory ran out, some first ones of the filters that the page shows were applied, and no other.
    ensures memory { HaltsOnPage (λ b. meaning b) filters.old.items filters.new.items face.now template.now result }

    // None was applied then that the page doesn't apply before its first fault.
    ensures onward { HaltsBeforeEnd (λ b. meaning b) filters.old.items filters.new.items face.now template.now result }

    // The filters are the same, in the same order, whatever the answer is.
    ensures kinds { SameKinds (λ b. meaning b) filters.old.items filters.new.items }
{
    render_steps(alloc, face, filters, template.steps.as_slice())
}

/// The page of the steps, from front to back.
fn render_steps(
    alloc: Global,
    face: &Face,
    filters: &mut Vec<Box<dyn FieldFilter>>,
    steps: &[Step],
) -> Result<Text, PageFault>
    ensures ok { Makes (λ b. meaning b) filters.old.items filters.new.items (walk face.now 0 steps.now) result }
    ensures fault { Refuses (λ b. meaning b) filters.old.items filters.new.items (walk face.now 0 steps.now) result }
    ensures memory { Halts (λ b. meaning b) filters.old.items filters.new.items (walk_filters face.now 0 steps.now) result }
    ensures onward { HaltsOnWay (λ b. meaning b) filters.old.items filters.new.items (walk face.now 0 steps.now) result }
{
    let mut made = String::new(alloc);
    let mut hidden = 0;
    for step in steps {
        hidden = add_step(&mut made, alloc, face, filters, hidden, step)?;
    }
    let made = Text::of(alloc, &made)?;
    Ok(made)
}

/// Adds what the step shows below that many hidden sections; the answer is how many there are after it.
fn add_step(
    made: &mut String,
    alloc: Global,
    face: &Face,
    filters: &mut Vec<Box<dyn FieldFilter>>,
    hidden: usize,
    step: &Step,
) -> Result<usize, PageFault>
    requires { hidden + 1 < 2 ^ 64 }
    ensures ok { Adds (λ b. meaning b) filters.old.items filters.new.items (step_page face.now hidden step.now) (string_bytes made.old) (string_bytes made.new) result }
    ensures hidden { IfOk result (λ after. after ≡ hidden_after face.now hidden step.now) }
    ensures bound { IfOk result (λ after. after ≤ hidden + 1) }
    ensures fault { Refuses (λ b. meaning b) filters.old.items filters.new.items (step_page face.now hidden step.now) result }
    ensures memory { Halts (λ b. meaning b) filters.old.items filters.new.items (step_filters hidden step.now) result }
    ensures onward { HaltsOnWay (λ b. meaning b) filters.old.items filters.new.items (step_page face.now hidden step.now) result }
{
    if hidden > 0 {
        match step {
            Step::Words(_) => return Ok(hidden),
            Step::Field(_, _) => return Ok(hidden),
            Step::Open(_, _) => return Ok(hidden + 1),
            Step::Close(_) => return Ok(hidden - 1),
        }
    }
    match step {
        Step::Words(words) => {
            made.push_str(words.as_str())?;
            Ok(0)
        }
        Step::Field(names, name) => {
            let text = field_text(alloc, face, filters, names.as_slice(), name.as_str())?;
            made.push_str(text.as_str())?;
            Ok(0)
        }
        Step::Open(inverted, name) => { open_section(alloc, face, *inverted, name.as_str()) }
        Step::Close(_) => Ok(0),
    }
}

/// How many sections are hidden after the opening of one, if none was before.
fn open_section(alloc: Global, face: &Face, inverted: bool, name: &str) -> Result<usize, PageFault>
    ensures none { IfOk result (λ after. field_value face.now name.now ≡ None → ⊥) }
    ensures hidden { IfOk result (λ after. after ≡ hidden_section (field_value face.now name.now) inverted) }
    ensures bound { IfOk result (λ after. after ≤ 1) }
    ensures fault { IfErr result (λ fault. (fault ≡ faults.Memory) ⊎ IsMissing (field_value face.now name.now) name.now fault) }
{
    match value_of(face, name) {
        Some(value) => {
            let empty = is_empty_value(alloc, value)?;
            if empty == inverted {
                return Ok(0);
            }
            Ok(1)
        }
        None => {
            let name = Text::of(alloc, name)?;
            Err(PageFault::NoField(name))
        }
    }
}

/// The text of a field's tag. A missing field is told before a missing filter.
fn field_text(
    alloc: Global,
    face: &Face,
    filters: &mut Vec<Box<dyn FieldFilter>>,
    names: &[Text],
    name: &str,
) -> Result<Text, PageFault>
    ensures ok { Makes (λ b. meaning b) filters.old.items filters.new.items (field_text face.now names.now name.now) result }
    ensures fault { Refuses (λ b. meaning b) filters.old.items filters.new.items (field_text face.now names.now name.now) result }
    ensures memory { Halts (λ b. meaning b) filters.old.items filters.new.items (tag_filters names.now) result }
    ensures onward { HaltsOnWay (λ b. meaning b) filters.old.items filters.new.items (field_text face.now names.now name.now) result }
{
    match value_of(face, name) {
        Some(value) => { tag_text(alloc, face, filters, names, value) }
        None => {
            let name = Text::of(alloc, name)?;
            Err(PageFault::NoField(name))
        }
    }
}

/// What the filters of a tag make of a field's text. `cloze` right before the field's name is no filter of the list: it needs
/// the card's number.
fn tag_text(
    alloc: Global,
    face: &Face,
    filters: &mut Vec<Box<dyn FieldFilter>>,
    names: &[Text],
    value: &str,
) -> Result<Text, PageFault>
    ensures ok { Makes (λ b. meaning b) filters.old.items filters.new.items (tag_text face.now names.now value.now) result }
    ensures fault { Refuses (λ b. meaning b) filters.old.items filters.new.items (tag_text face.now names.now value.now) result }
    ensures memory { Halts (λ b. meaning b) filters.old.items filters.new.items (tag_filters names.now) result }
    ensures onward { HaltsOnWay (λ b. meaning b) filters.old.items filters.new.items (tag_text face.now names.now value.now) result }
{
    if ends_in_cloze(names) {
        let shown = show_clozes(alloc, face.front.is_some(), face.number, value)?;
        return chain_text(alloc, filters, &names[..names.len() - 1], shown.as_str());
    }
    chain_text(alloc, filters, names, value)
}

/// What the filters of these names make of a text, from the last to the first.
fn chain_text(
    alloc: Global,
    filters: &mut Vec<Box<dyn FieldFilter>>,
    names: &[Text],
    value: &str,
) -> Result<Text, PageFault>
    ensures ok { Makes (λ b. meaning b) filters.old.items filters.new.items (chain_text names.now value.now) result }
    ensures fault { Refuses (λ b. meaning b) filters.old.items filters.new.items (chain_text names.now value.now) result }
    ensures memory { Halts (λ b. meaning b) filters.old.items filters.new.items (applied_order names.now) result }
    ensures onward { HaltsOnWay (λ b. meaning b) filters.old.items filters.new.items (chain_text names.now value.now) result }
{
    let mut text = Text::of(alloc, value)?;
    let mut left = names.len();
    while left > 0 {
        left -= 1;
        text = apply_named(alloc, filters, names[left].as_str(), text.as_str())?;
    }
    Ok(text)
}
