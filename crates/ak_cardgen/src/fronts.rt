ghost use Rattle.std.specs.Prelude.{◌≡◌, [], None, take, pos, IfOk, OnOk};
ghost use Rattle.ak_cardgen.specs.Generation.{AreFronts, AreFrontsOf, IsFrontOf, TellsOrds, TellsShown, AddsPlace, RefusesAs, ord_end, fronts_fault, front_fault, generation_fault};
ghost use Rattle.ak_template.specs.Clozes.{AscendsWithin};
ghost use Rattle.ak_template.specs.Grammar.{first_fault as template_fault};
ghost use Rattle.ak_base.specs.declared.note_types.CardTemplate.{CardTemplate};
ghost use Rattle.ak_base.specs.declared.note_types.NoteType.{NoteType};
ghost use Rattle.ak_cardgen.specs.declared.faults.GenFault.TheVariants as faults;

use crate::GenFault;
use crate::cloze_ords::clozed_ords;
use ak_base::{CardTemplate, List, Memory, NoteType};
use ak_template::{Face, Template, TemplateFault, parse, shows};
use std::alloc::Global;

/// The fronts of a type, read once for any number of notes.
#[derive(Debug, Drop)]
pub struct Fronts {
    pub(crate) cloze: bool,
    pub(crate) fronts: List<Template>,
}

impl Fronts {
    /// Reads all fronts of a standard type, and the first front of a cloze type; no back.
    pub fn of(alloc: Global, note_type: &NoteType) -> Result<Fronts, GenFault>
        ensures ok { IfOk result (AreFrontsOf note_type.now) }
        ensures none { OnOk result (generation_fault note_type.now ≡ None) }
        ensures fault { RefusesAs (generation_fault note_type.now) result }
    {
        let templates = note_type.templates.as_slice();
        if note_type.cloze {
            let fronts = read_first(alloc, templates)?;
            return Ok(Fronts {
                cloze: true,
                fronts,
            });
        }
        let fronts = read_fronts(alloc, templates)?;
        Ok(Fronts {
            cloze: false,
            fronts,
        })
    }

    /// The ords of the cards of a note that is shown by the face, ascending. Those of a standard type are the places
    /// of the templates whose front shows something of the note, from 0; those of a cloze type, the numbers of the
    /// clozes that the first front names, minus 1.
    pub fn ords(&self, alloc: Global, face: &Face) -> Result<List<i64>, Memory>
        ensures ords { TellsOrds face.now self.now result }

        // They ascend, each once, from 0.
        ensures ascending { (note_type : NoteType) → AreFrontsOf note_type self.now → IfOk result (AscendsWithin (pos 0) (pos (ord_end note_type))) }
    {
        self.told_ords(alloc, face)
    }

    /// The same; that they ascend follows from what they are.
    fn told_ords(&self, alloc: Global, face: &Face) -> Result<List<i64>, Memory>
        ensures { TellsOrds face.now self.now result }
    {
        if self.cloze {
            return clozed_ords(alloc, face, self.fronts.as_slice());
        }
        shown_ords(alloc, face, self.fronts.as_slice())
    }
}

/// The first front, if there is one.
fn read_first(alloc: Global, templates: &[CardTemplate]) -> Result<List<Template>, GenFault>
    ensures ok { IfOk result (AreFronts (take 1 templates.now)) }
    ensures none { OnOk result (front_fault templates.now ≡ None) }
    ensures fault { RefusesAs (front_fault templates.now) result }
{
    let mut fronts = List::new(alloc);
    match templates {
        [] => Ok(fronts),
        [template, ..] => {
            let front = read_front(alloc, template.front.as_str())?;
            fronts.push(front)?;
            Ok(fronts)
        }
    }
}

/// Each front, in the order of the templates.
fn read_fronts(alloc: Global, templates: &[CardTemplate]) -> Result<List<Template>, GenFault>
    ensures ok { IfOk result (AreFronts templates.now) }
    ensures none { OnOk result (fronts_fault templates.now ≡ None) }
    ensures fault { RefusesAs (fronts_fault templates.now) result }
{
    let mut fronts = List::new(alloc);
    for template in templates {
        let front = read_front(alloc, template.front.as_str())?;
        fronts.push(front)?;
    }
    Ok(fronts)
}

/// The template of a front.
fn read_front(alloc: Global, text: &str) -> Result<Template, GenFault>
    ensures tree { IfOk result (IsFrontOf text.now) }
    ensures none { OnOk result (template_fault text.now ≡ None) }
    ensures fault { RefusesAs (template_fault text.now) result }
{
    match parse(alloc, text) {
        Ok(template) => Ok(template),
        Err(TemplateFault::Memory) => Err(GenFault::Memory),
        Err(fault) => Err(GenFault::Template(fault)),
    }
}

/// The places of the fronts that show something, from 0.
fn shown_ords(alloc: Global, face: &Face, fronts: &[Template]) -> Result<List<i64>, Memory>
    ensures { TellsShown face.now fronts.now result }
{
    let mut ords = List::new(alloc);
    for place in 0..fronts.len() {
        add_place(&mut ords, alloc, face, &fronts[place], place)?;
    }
    Ok(ords)
}

/// Adds the place of a front if it shows something.
fn add_place(
    ords: &mut List<i64>,
    alloc: Global,
    face: &Face,
    front: &Template,
    place: usize,
) -> Result<(), Memory>
    ensures { AddsPlace ords.old ords.new face.now place front.now result }
{
    if shows(alloc, front, face)? {
        ords.push(ord_at(place)?)?;
    }
    Ok(())
}

/// A place as an ord. More fronts than an ord can count fit in no memory.
fn ord_at(place: usize) -> Result<i64, Memory>
    ensures { IfOk result (λ ord. ord ≡ pos place) }
{
    match i64::try_from(place) {
        Ok(ord) => Ok(ord),
        Err(_) => Err(Memory),
    }
}
