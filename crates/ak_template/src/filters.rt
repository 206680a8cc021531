// The filters of a page, which the caller boxed. What a box means has no name of its own in the invariant of a loop,
// so each call on one box is a function of its own.
ghost use Rattle.std.specs.Prelude.{◌≡◌, ◌<◌, ◌==◌, length, map, IfOk, OnOk, OnErr};
ghost use Rattle.std.specs.Cmp.Lexicographic.{pointwise};
ghost use Rattle.ak_filters.specs.Meanings.{filtered, turned};
ghost use Rattle.ak_template.specs.Pages.{Applies, Makes, Refuses, HaltsAsBefore, filter_text};

use crate::PageFault;
use ak_base::{Memory, Text};
use ak_filters::FieldFilter;
use std::alloc::Global;

/// Applies one filter.
fn apply_box(filter: &mut Box<dyn FieldFilter>, text: &str) -> Result<Text, Memory>
    ensures text { IfOk result (λ made. made ≡ filtered (meaning filter.old) text.now) }
    ensures ok { OnOk result (meaning filter.new ≡ turned (meaning filter.old)) }
    ensures err { OnErr result (meaning filter.new ≡ meaning filter.old) }
{
    filter.apply(text)
}

/// Whether a template that asks for this name means this filter.
fn is_named(filter: &Box<dyn FieldFilter>, name: &str) -> bool
    ensures { result ≡ pointwise ◌==◌ (meaning filter.now).name name.now }
{
    filter.name() == name
}

/// Applies the filter at that place, from 0.
fn apply_at(
    filters: &mut Vec<Box<dyn FieldFilter>>,
    place: usize,
    text: &str,
) -> Result<Text, Memory>
    requires { place < length filters.old.items }
    ensures ok { Applies (λ b. meaning b) filters.old.items filters.new.items place text.now result }
    ensures err { OnErr result (map (λ b. meaning b) filters.new.items ≡ map (λ b. meaning b) filters.old.items) }
{
    apply_box(&mut filters[place], text)
}

/// Applies the first filter of that name. Its turn rises, and it keeps its place in the list.
pub fn apply_named(
    alloc: Global,
    filters: &mut Vec<Box<dyn FieldFilter>>,
    name: &str,
    text: &str,
) -> Result<Text, PageFault>
    ensures ok { Makes (λ b. meaning b) filters.old.items filters.new.items (filter_text name.now text.now) result }
    ensures memory { HaltsAsBefore (λ b. meaning b) filters.old.items filters.new.items result }
    ensures fault { Refuses (λ b. meaning b) filters.old.items filters.new.items (filter_text name.now text.now) result }
{
    for place in 0..filters.len() {
        if is_named(&filters[place], name) {
            let made = apply_at(filters, place, text)?;
            return Ok(made);
        }
    }
    let name = Text::of(alloc, name)?;
    Err(PageFault::NoFilter(name))
}
