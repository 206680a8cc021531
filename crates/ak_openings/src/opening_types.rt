ghost use Rattle.std.specs.Prelude.{◌≡◌, [], ◌∷◌, IfOk, OnOk, ◌++◌, map, codes};
ghost use Rattle.ak_openings.specs.Openings.{IsBasic, IsCloze, IsReversed, cloze_card, field_of, field_texts, forward_card, front_and_back, reversed_card, template_texts};

use ak_base::{CardTemplate, FieldDef, List, Memory, NoteType, Rest, Text};
use std::alloc::Global;

/// Note type 1: a front and a back, asked one way.
pub(crate) fn basic(alloc: Global, second: i64, usn: i64) -> Result<NoteType, Memory>
    ensures { IfOk result (IsBasic second usn) }
{
    let fields = two_fields(alloc, "Front", "Back")?;
    let mut templates = List::new(alloc);
    templates.push(forward_card(alloc)?)?;
    Ok(NoteType {
        id: 1,
        stamp: second,
        usn,
        name: Text::of(alloc, "Basic")?,
        cloze: false,
        sortf: 0,
        fields,
        templates,
        rest: Rest::empty(alloc)?,
    })
}

/// Note type 2: a text with clozes.
pub(crate) fn cloze(alloc: Global, second: i64, usn: i64) -> Result<NoteType, Memory>
    ensures { IfOk result (IsCloze second usn) }
{
    let fields = two_fields(alloc, "Text", "Extra")?;
    let mut templates = List::new(alloc);
    templates.push(cloze_card(alloc)?)?;
    Ok(NoteType {
        id: 2,
        stamp: second,
        usn,
        name: Text::of(alloc, "Cloze")?,
        cloze: true,
        sortf: 0,
        fields,
        templates,
        rest: Rest::empty(alloc)?,
    })
}

/// Note type 3: a front and a back, asked both ways.
pub(crate) fn reversed(alloc: Global, second: i64, usn: i64) -> Result<NoteType, Memory>
    ensures { IfOk result (IsReversed second usn) }
{
    let fields = two_fields(alloc, "Front", "Back")?;
    let mut templates = List::new(alloc);
    templates.push(forward_card(alloc)?)?;
    templates.push(reversed_card(alloc)?)?;
    Ok(NoteType {
        id: 3,
        stamp: second,
        usn,
        name: Text::of(alloc, "Basic (and reversed card)")?,
        cloze: false,
        sortf: 0,
        fields,
        templates,
        rest: Rest::empty(alloc)?,
    })
}

/// Two fields of these names.
fn two_fields(alloc: Global, first: &str, second: &str) -> Result<List<FieldDef>, Memory>
    ensures { IfOk result (λ fields. map field_texts fields ≡ field_of first.now ∷ field_of second.now ∷ []) }
{
    let mut fields = List::new(alloc);
    fields.push(field(alloc, first)?)?;
    fields.push(field(alloc, second)?)?;
    Ok(fields)
}

/// A field of this name.
fn field(alloc: Global, name: &str) -> Result<FieldDef, Memory>
    ensures { IfOk result (λ field. field_texts field ≡ field_of name.now) }
{
    Ok(FieldDef {
        name: Text::of(alloc, name)?,
        rest: Rest::empty(alloc)?,
    })
}

/// The card that asks for the back.
fn forward_card(alloc: Global) -> Result<CardTemplate, Memory>
    ensures { IfOk result (λ template. template_texts template ≡ forward_card) }
{
    Ok(CardTemplate {
        name: Text::of(alloc, "Card 1")?,
        front: Text::of(alloc, "{{Front}}")?,
        back: Text::of(alloc, "{{FrontSide}}<hr id=answer>{{Back}}")?,
        rest: Rest::empty(alloc)?,
    })
}

/// The card that asks for the front.
fn reversed_card(alloc: Global) -> Result<CardTemplate, Memory>
    ensures { IfOk result (λ template. template_texts template ≡ reversed_card) }
{
    Ok(CardTemplate {
        name: Text::of(alloc, "Card 2")?,
        front: Text::of(alloc, "{{Back}}")?,
        back: Text::of(alloc, "{{FrontSide}}<hr id=answer>{{Front}}")?,
        rest: Rest::empty(alloc)?,
    })
}

/// The cards of the clozes in a text.
fn cloze_card(alloc: Global) -> Result<CardTemplate, Memory>
    ensures { IfOk result (λ template. template_texts template ≡ cloze_card) }
{
    Ok(CardTemplate {
        name: Text::of(alloc, "Cloze")?,
        front: Text::of(alloc, "{{cloze:Text}}")?,
        back: Text::of(alloc, "{{cloze:Text}}<br>{{Extra}}")?,
        rest: Rest::empty(alloc)?,
    })
}
