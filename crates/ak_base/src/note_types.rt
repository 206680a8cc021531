ghost use Rattle.std.specs.Prelude.{◌≡◌, IfOk};

use crate::columns::{code_fault, first_fault, id_fault, long_fault, stamp_fault};
use crate::{
    LAST_USN, List, Memory, NAME_BYTES, OfField, OfNoteType, OfTemplate, REST_BYTES, Rest,
    RowFault, TEXT_BYTES, Text, copy_each,
};

/// A field that each note of a type has: an object of the key `flds`.
#[derive(Debug, PartialEq, Drop)]
pub struct FieldDef {
    pub name: Text,
    pub rest: Rest<OfField>,
}

/// How a card is made of a note: an object of the key `tmpls`.
#[derive(Debug, PartialEq, Drop)]
pub struct CardTemplate {
    pub name: Text,
    /// The question's side: the key `qfmt`.
    pub front: Text,
    /// The answer's side: the key `afmt`.
    pub back: Text,
    pub rest: Rest<OfTemplate>,
}

/// What the notes of one kind have, and the cards that are made of them: an object of schema 11's
/// `models`.
#[derive(Debug, PartialEq, Drop)]
pub struct NoteType {
    /// When the type was made, in milliseconds.
    pub id: i64,
    /// When it was changed last, in seconds: the key `mod`.
    pub stamp: i64,
    /// The update sequence number (usn), -1 for a type that was not sent yet.
    pub usn: i64,
    pub name: Text,
    /// Whether cards are made of the clozes in a text, not one of each template: the key `type`.
    pub cloze: bool,
    /// The place of the field that notes are sorted by, from 0.
    pub sortf: i64,
    /// 1 to 100 of them.
    pub fields: List<FieldDef>,
    /// 1 to 100 of them.
    pub templates: List<CardTemplate>,
    pub rest: Rest<OfNoteType>,
}

impl NoteType {
    ghost use Rattle.ak_base.specs.Columns.{first_fault};
    ghost use Rattle.ak_base.specs.NoteTypes.{note_type_faults, title_faults, form_faults, place_fault, entries_fault};

    /// The first column that is out of its range. Columns are counted in the order of the fields.
    #[tactic(auto, using(crate::proofs::FirstFaults::fault_of_front, crate::proofs::FirstFaults::fault_behind))]
    pub fn check(&self) -> Result<(), RowFault>
        ensures { result ≡ first_fault (note_type_faults self.now) }
    {
        self.check_title()?;
        self.check_form()
    }

    /// What the type is called, and when it was changed.
    #[tactic(auto, unfolding(crate::specs::NoteTypes::title_faults))]
    fn check_title(&self) -> Result<(), RowFault>
        ensures { result ≡ first_fault (title_faults self.now) }
    {
        first_fault(&[
            id_fault(self.id),
            stamp_fault(self.stamp),
            code_fault(2, self.usn, -1, LAST_USN),
            long_fault(3, self.name.as_str().len() as u64, NAME_BYTES),
        ])
    }

    /// What notes of the type have, and the rest.
    #[tactic(auto, unfolding(crate::specs::NoteTypes::form_faults))]
    fn check_form(&self) -> Result<(), RowFault>
        ensures { result ≡ first_fault (form_faults self.now) }
    {
        first_fault(&[
            NoteType::place_fault(5, self.sortf, self.fields.as_slice().len() as u64),
            FieldDef::fields_fault(self.fields.as_slice()),
            CardTemplate::templates_fault(self.templates.as_slice()),
            long_fault(8, self.rest.as_str().len() as u64, REST_BYTES),
        ])
    }

    /// The fault of a place in a list of this many entries, if there is one.
    #[tactic(auto, unfolding(crate::specs::NoteTypes::place_fault, crate::specs::Columns::code_fault))]
    fn place_fault(column: u8, place: i64, entries: u64) -> Option<RowFault>
        ensures { result ≡ place_fault column place entries }
    {
        let last = if entries == 0 { 0 } else { entries - 1 };
        if place < 0 || place as u64 > last {
            return Some(RowFault::BadCode {
                column,
                value: place,
            });
        }
        None
    }

    /// The fault of a list of this many entries in a column that holds 1 to 100, if there is one.
    #[tactic(auto, unfolding(crate::specs::NoteTypes::entries_fault))]
    fn entries_fault(column: u8, entries: u64) -> Option<RowFault>
        ensures { result ≡ entries_fault column entries }
    {
        if entries == 0 {
            return Some(RowFault::BadCode { column, value: 0 });
        }
        long_fault(column, entries, 100)
    }

    /// An equal type of its own.
    pub fn copy(&self) -> Result<NoteType, Memory>
        ensures { IfOk result (λ made. made ≡ self.now) }
    {
        Ok(NoteType {
            id: self.id,
            stamp: self.stamp,
            usn: self.usn,
            name: self.name.copy()?,
            cloze: self.cloze,
            sortf: self.sortf,
            fields: copy_each(&self.fields, |field| field.copy())?,
            templates: copy_each(&self.templates, |template| template.copy())?,
            rest: self.rest.copy()?,
        })
    }
}

impl FieldDef {
    ghost use Rattle.ak_base.specs.NoteTypes.{field_fault, bad_field, fields_fault};

    /// An equal field of its own.
    pub fn copy(&self) -> Result<FieldDef, Memory>
        ensures { IfOk result (λ made. made ≡ self.now) }
    {
        Ok(FieldDef {
            name: self.name.copy()?,
            rest: self.rest.copy()?,
        })
    }

    /// The fault of the fields, if there is one.
    fn fields_fault(fields: &[FieldDef]) -> Option<RowFault>
        ensures { result ≡ fields_fault fields.now }
    {
        match NoteType::entries_fault(6, fields.len() as u64) {
            Some(fault) => Some(fault),
            None => FieldDef::bad_field(fields),
        }
    }

    /// The fault of the first field that has one.
    fn bad_field(fields: &[FieldDef]) -> Option<RowFault>
        ensures { result ≡ bad_field fields.now }
    {
        for field in fields {
            if let Some(fault) = field.fault() {
                return Some(fault);
            }
        }
        None
    }

    /// The fault of the field, if there is one.
    fn fault(&self) -> Option<RowFault>
        ensures { result ≡ field_fault self.now }
    {
        match long_fault(6, self.name.as_str().len() as u64, NAME_BYTES) {
            Some(fault) => Some(fault),
            None => long_fault(6, self.rest.as_str().len() as u64, REST_BYTES),
        }
    }
}

impl CardTemplate {
    ghost use Rattle.ak_base.specs.NoteTypes.{template_fault, bad_template, templates_fault};

    /// An equal template of its own.
    pub fn copy(&self) -> Result<CardTemplate, Memory>
        ensures { IfOk result (λ made. made ≡ self.now) }
    {
        Ok(CardTemplate {
            name: self.name.copy()?,
            front: self.front.copy()?,
            back: self.back.copy()?,
            rest: self.rest.copy()?,
        })
    }

    /// The fault of the templates, if there is one.
    fn templates_fault(templates: &[CardTemplate]) -> Option<RowFault>
        ensures { result ≡ templates_fault templates.now }
    {
        match NoteType::entries_fault(7, templates.len() as u64) {
            Some(fault) => Some(fault),
            None => CardTemplate::bad_template(templates),
        }
    }

    /// The fault of the first template that has one.
    fn bad_template(templates: &[CardTemplate]) -> Option<RowFault>
        ensures { result ≡ bad_template templates.now }
    {
        for template in templates {
            if let Some(fault) = template.fault() {
                return Some(fault);
            }
        }
        None
    }

    /// The fault of the template, if there is one: its name, front, back and rest, in this order.
    fn fault(&self) -> Option<RowFault>
        ensures { result ≡ template_fault self.now }
    {
        if let Some(fault) = long_fault(7, self.name.as_str().len() as u64, NAME_BYTES) {
            return Some(fault);
        }
        if let Some(fault) = long_fault(7, self.front.as_str().len() as u64, TEXT_BYTES) {
            return Some(fault);
        }
        match long_fault(7, self.back.as_str().len() as u64, TEXT_BYTES) {
            Some(fault) => Some(fault),
            None => long_fault(7, self.rest.as_str().len() as u64, REST_BYTES),
        }
    }
}
