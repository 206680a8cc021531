ghost use Rattle.std.specs.Prelude.{◌≡◌, ◌+◌, ◌<◌, ◌≤◌, ◌^◌, IfOk};
ghost use Rattle.ak_template.specs.Pages.{is_filled, shows_in, step_shows, idle_after, walk_shows};
ghost use Rattle.ak_template.specs.Trees.{Tree, tree_steps};

use crate::faces::value_of;
use crate::{Face, Step, Template};
use ak_base::Memory;
use ak_filters::is_empty_value;
use std::alloc::Global;

/// Whether the template shows anything of the note: some field that is not empty, under no inverted section, and
/// only under sections of fields that are not empty.
pub fn shows(alloc: Global, template: &Template, face: &Face) -> Result<bool, Memory>
    ensures { (tree : Tree) → template.now.steps ≡ tree_steps tree → IfOk result (λ shown. shown ≡ shows_in face.now tree) }
{
    shows_steps(alloc, template.steps.as_slice(), face)
}

/// Whether one of the steps shows something.
fn shows_steps(alloc: Global, steps: &[Step], face: &Face) -> Result<bool, Memory>
    ensures { IfOk result (λ shown. shown ≡ walk_shows face.now 0 steps.now) }
{
    let mut idle = 0;
    for step in steps {
        let (shown, after) = read_step(alloc, face, idle, step)?;
        if shown {
            return Ok(true);
        }
        idle = after;
    }
    Ok(false)
}

/// Whether the step shows something of the note, and how many sections count for nothing after it.
fn read_step(alloc: Global, face: &Face, idle: usize, step: &Step) -> Result<(bool, usize), Memory>
    requires { idle + 1 < 2 ^ 64 }
    ensures shows { IfOk result (λ read. read.0 ≡ step_shows face.now idle step.now) }
    ensures idle { IfOk result (λ read. read.1 ≡ idle_after face.now idle step.now) }
    ensures bound { IfOk result (λ read. read.1 ≤ idle + 1) }
{
    if idle > 0 {
        match step {
            Step::Words(_) => return Ok((false, idle)),
            Step::Field(_, _) => return Ok((false, idle)),
            Step::Open(_, _) => return Ok((false, idle + 1)),
            Step::Close(_) => return Ok((false, idle - 1)),
        }
    }
    match step {
        Step::Words(_) => return Ok((false, 0)),
        Step::Close(_) => return Ok((false, 0)),
        Step::Field(_, name) => {
            let filled = is_field_filled(alloc, face, name.as_str())?;
            return Ok((filled, 0));
        }
        Step::Open(inverted, name) => {
            let filled = is_field_filled(alloc, face, name.as_str())?;
            if !*inverted && filled {
                return Ok((false, 0));
            }
            return Ok((false, 1));
        }
    }
}

/// Whether the field is there and not empty.
fn is_field_filled(alloc: Global, face: &Face, name: &str) -> Result<bool, Memory>
    ensures { IfOk result (λ filled. filled ≡ is_filled face.now name.now) }
{
    match value_of(face, name) {
        Some(value) => {
            let empty = is_empty_value(alloc, value)?;
            Ok(!empty)
        }
        None => Ok(false),
    }
}
