ghost use Rattle.std.specs.Prelude.{◌≡◌, None, IfErr, IfOk, OnOk};
ghost use Rattle.ak_base.specs.NoteTypes.{IsCheckedNoteType};
ghost use Rattle.ak_edit.specs.Refusals.{AnswersBy};
ghost use Rattle.ak_template.specs.Grammar.{first_fault};
ghost use Rattle.ak_types.specs.GivenTypes.{IsSideFault, RefusesGiven, RefusesSides, as_given, sides_fault, one_fault, with_id};

use ak_base::{CardTemplate, Memory, NoteType};
use ak_edit::DeskFault;
use ak_template::{TemplateFault, parse};
use std::alloc::Global;

/// The type as a call takes it: its stamp and its usn are not looked at.
pub(crate) fn as_given(note_type: NoteType) -> NoteType
    ensures { result ≡ as_given note_type }
{
    let mut given = note_type;
    given.stamp = 0;
    given.usn = -1;
    given
}

/// The type with this id.
pub(crate) fn with_id(note_type: NoteType, id: i64) -> NoteType
    ensures { result ≡ with_id id note_type }
{
    let mut made = note_type;
    made.id = id;
    made
}

/// Refuses a type that was given and is out of its ranges.
pub(crate) fn check_given(note_type: &NoteType) -> Result<(), DeskFault>
    ensures ok { OnOk result (IsCheckedNoteType note_type.now) }
    ensures answers { AnswersBy (RefusesGiven note_type.now) result }
    ensures refused { IfErr result (RefusesGiven note_type.now) }
{
    match note_type.check() {
        Ok(()) => Ok(()),
        Err(fault) => Err(DeskFault::Row(fault)),
    }
}

/// Refuses a type of which a side of a template can't be read: front, then back, of each template in order.
pub(crate) fn check_sides(alloc: Global, note_type: &NoteType) -> Result<(), DeskFault>
    ensures none { OnOk result (sides_fault note_type.now.templates ≡ None) }
    ensures answers { AnswersBy (RefusesSides note_type.now) result }
    ensures listed { IfErr result IsSideFault }
{
    let found = sides_fault(alloc, note_type.templates.as_slice())?;
    match found {
        Some(fault) => Err(DeskFault::Template(fault)),
        None => Ok(()),
    }
}

/// The first fault of the templates.
fn sides_fault(alloc: Global, templates: &[CardTemplate]) -> Result<Option<TemplateFault>, Memory>
    ensures { IfOk result (λ fault. fault ≡ sides_fault templates.now) }
{
    for template in templates {
        if let Some(fault) = one_fault(alloc, template)? {
            return Ok(Some(fault));
        }
    }
    Ok(None)
}

/// The first fault of the front, and then of the back.
fn one_fault(alloc: Global, template: &CardTemplate) -> Result<Option<TemplateFault>, Memory>
    ensures { IfOk result (λ fault. fault ≡ one_fault template.now) }
{
    match side_fault(alloc, template.front.as_str())? {
        Some(fault) => Ok(Some(fault)),
        None => side_fault(alloc, template.back.as_str()),
    }
}

/// The first fault of a side.
fn side_fault(alloc: Global, text: &str) -> Result<Option<TemplateFault>, Memory>
    ensures { IfOk result (λ fault. fault ≡ first_fault text.now) }
{
    match parse(alloc, text) {
        Ok(template) => {
            drop(template);
            Ok(None)
        }
        Err(TemplateFault::Memory) => Err(Memory),
        Err(fault) => Ok(Some(fault)),
    }
}
