ghost use Rattle.std.specs.Prelude.{◌≡◌, false, ◌∷◌, [], ◌++◌, ◌≤◌, ◌<◌, pos, List, IfOk, OnOk, if◌then◌else◌};
ghost use Rattle.std.specs.List.{slice_index_or};
ghost use Rattle.std.specs.Option.{unwrap_or};
ghost use Rattle.ak_cardgen.specs.Generation.{AreMarksOf, MarksOne, TellsClozed, step_numbers, numbers_in, ords_below};
ghost use Rattle.ak_template.specs.Pages.{field_value};

use ak_base::{List, Memory, Text};
use ak_template::{Face, LAST_NUMBER, Step, Template, cloze_numbers, ends_in_cloze, value_of};
use std::alloc::Global;

/// The ords of a note whose clozes the first front names, ascending; none, if there is no front.
pub fn clozed_ords(alloc: Global, face: &Face, fronts: &[Template]) -> Result<List<i64>, Memory>
    ensures { TellsClozed face.now fronts.now result }
{
    match fronts {
        [] => Ok(List::new(alloc)),
        [front, ..] => clozed_by(alloc, face, front.steps()),
    }
}

/// The ords of a note whose clozes the steps of a front name.
fn clozed_by(alloc: Global, face: &Face, steps: &[Step]) -> Result<List<i64>, Memory>
    ensures { IfOk result (λ ords. ords ≡ ords_below 500 (numbers_in face.now steps.now)) }
{
    let numbers = read_numbers(alloc, face, steps)?;
    keep_ords(alloc, LAST_NUMBER, numbers.as_slice())
}

/// The numbers of the clozes in the fields that the steps name with `cloze:`, in that order.
fn read_numbers(alloc: Global, face: &Face, steps: &[Step]) -> Result<Vec<i64>, Memory>
    ensures { IfOk result (λ made. made.items ≡ numbers_in face.now steps.now) }
{
    let mut numbers = Vec::new(alloc);
    for step in steps {
        add_numbers(&mut numbers, alloc, face, step)?;
    }
    Ok(numbers)
}

/// Adds those of one step.
fn add_numbers(
    numbers: &mut Vec<i64>,
    alloc: Global,
    face: &Face,
    step: &Step,
) -> Result<(), Memory>
    ensures { OnOk result (numbers.new.items ≡ numbers.old.items ++ step_numbers face.now step.now) }
{
    if let Step::Field(filters, name) = step {
        if ends_in_cloze(filters.as_slice()) {
            let found = cloze_numbers(alloc, text_of(face, name.as_str()))?;
            numbers.extend_from_slice(found.as_slice())?;
        }
    }
    Ok(())
}

/// The text of a field, or an empty one if there is none of that name.
fn text_of<'a>(face: &'a Face, name: &str) -> &'a str
    ensures { result.now ≡ unwrap_or (field_value face.now name.now) [] }
{
    match value_of(face, name) {
        Some(value) => value,
        None => "",
    }
}

/// Those ords below a bound whose numbers are there.
#[tactic(auto, unfolding(crate::specs::Generation::ords_below))]
fn keep_ords(alloc: Global, bound: u32, numbers: &[i64]) -> Result<List<i64>, Memory>
    requires { bound ≤ 500 }
    ensures { IfOk result (λ ords. ords ≡ ords_below bound numbers.now) }
{
    let marks = marks_of(numbers);
    let mut ords = List::new(alloc);
    for ord in 0..bound {
        add_ord(&mut ords, ord, &marks)?;
    }
    Ok(ords)
}

/// For each ord below 500, whether its number is one of these.
fn marks_of(numbers: &[i64]) -> [bool; 500]
    ensures { AreMarksOf result numbers.now }
{
    let mut marks = [false; 500];
    for number in numbers {
        mark(&mut marks, number);
    }
    marks
}

/// Marks the ord of the number, if it is below 500.
fn mark(marks: &mut [bool; 500], number: &i64)
    ensures { MarksOne number.now marks.old marks.new }
{
    if *number < 1 || *number > 500 {
        return;
    }
    marks[(*number - 1) as usize] = true;
}

/// Adds the ord if it is marked.
fn add_ord(ords: &mut List<i64>, ord: u32, marks: &[bool; 500]) -> Result<(), Memory>
    requires { ord < 500 }
    ensures { OnOk result (ords.new ≡ ords.old ++ (if slice_index_or marks.now ord false then pos ord ∷ [] else [])) }
{
    if !marks[ord as usize] {
        return Ok(());
    }
    ords.push(i64::from(ord))?;
    Ok(())
}
