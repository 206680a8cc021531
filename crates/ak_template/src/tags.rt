ghost use Rattle.std.specs.Prelude.{◌≡◌, ◌∷◌, ◌+◌, ◌<◌, [], true, false, length, drop, IfOk, IfSome, IfNone};
ghost use Rattle.ak_base.specs.Cuts.{begins};
ghost use Rattle.ak_template.specs.Pieces.{has_tag, before_tag, inside_tag, behind_tag, tag_length, tag_of, field_tag, named};
ghost use Rattle.ak_template.specs.declared.steps.Step.TheVariants as steps;

use crate::Step;
use ak_base::{List, Memory, Text, cut};
use std::alloc::Global;

/// The text before the first tag, the inside of the tag, and the text after it.
pub fn next_tag(text: &str) -> Option<(&str, &str, &str)>
    ensures has { IfSome result (λ parts. has_tag text.now ≡ true) }
    ensures before { IfSome result (λ parts. parts.0.now ≡ before_tag text.now) }
    ensures inside { IfSome result (λ parts. parts.1.now ≡ inside_tag text.now) }
    ensures behind { IfSome result (λ parts. parts.2.now ≡ behind_tag text.now) }
    ensures length { IfSome result (λ parts. tag_length parts.0.now parts.1.now parts.2.now ≡ length text.now) }
    ensures none { IfNone result (has_tag text.now ≡ false) }
{
    let (before, rest) = cut(text, "{{")?;
    let (inside, behind) = cut(rest, "}}")?;
    Some((before, inside, behind))
}

/// The text after a sign, if it begins with it.
pub fn behind_sign(text: &str, sign: char) -> Option<&str>
    requires { (0 < sign) × (sign < 128) }
    ensures begins { IfSome result (λ rest. begins (sign ∷ []) text.now ≡ true) }
    ensures rest { IfSome result (λ rest. rest.now ≡ drop 1 text.now) }
    ensures shorter { IfSome result (λ rest. length rest.now + 1 ≡ length text.now) }
    ensures none { IfNone result (begins (sign ∷ []) text.now ≡ false) }
{
    text.strip_prefix(sign)
}

/// The tag with that inside, which has no spaces at its ends; none if it is empty or lacks its name.
pub fn read_tag(alloc: Global, inside: &str) -> Result<Option<Step>, Memory>
    ensures { IfOk result (λ step. step ≡ tag_of inside.now) }
{
    if let Some(name) = behind_sign(inside, '#') {
        return open_tag(alloc, false, name);
    }
    if let Some(name) = behind_sign(inside, '^') {
        return open_tag(alloc, true, name);
    }
    if let Some(name) = behind_sign(inside, '/') {
        return close_tag(alloc, name);
    }
    read_field(alloc, inside)
}

/// The tag that opens a section of that name.
fn open_tag(alloc: Global, inverted: bool, name: &str) -> Result<Option<Step>, Memory>
    ensures { IfOk result (λ step. step ≡ named (steps.Open inverted) name.now) }
{
    if name.is_empty() {
        return Ok(None);
    }
    let name = Text::of(alloc, name)?;
    Ok(Some(Step::Open(inverted, name)))
}

/// The tag that closes a section of that name.
fn close_tag(alloc: Global, name: &str) -> Result<Option<Step>, Memory>
    ensures { IfOk result (λ step. step ≡ named steps.Close name.now) }
{
    if name.is_empty() {
        return Ok(None);
    }
    let name = Text::of(alloc, name)?;
    Ok(Some(Step::Close(name)))
}

/// The tag of a field. What stands before a colon is a filter, what stands after the last one the field's name.
fn read_field(alloc: Global, inside: &str) -> Result<Option<Step>, Memory>
    ensures { IfOk result (λ step. step ≡ field_tag inside.now) }
{
    let mut filters = List::new(alloc);
    let mut rest = inside;
    while let Some((filter, others)) = cut(rest, ":") {
        if filter.is_empty() {
            return Ok(None);
        }
        let filter = Text::of(alloc, filter)?;
        filters.push(filter)?;
        rest = others;
    }
    if rest.is_empty() {
        return Ok(None);
    }
    let name = Text::of(alloc, rest)?;
    Ok(Some(Step::Field(filters, name)))
}
