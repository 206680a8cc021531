ghost use Rattle.std.specs.Prelude.{◌≡◌, not, is_some, find};
ghost use Rattle.std.specs.FinMap.{get};
ghost use Rattle.std.specs.List.{All};
ghost use Rattle.std.specs.Option.{option_map};
ghost use Rattle.ak_keep.specs.Collections.{cards_of};
ghost use Rattle.ak_keep.specs.Readings.{ReadsBy};
ghost use Rattle.ak_merge.specs.CheckLinks.{AreLinksOf, IsGoodIn, bad_link};
ghost use Rattle.ak_merge.specs.Holdings.{name_in};
ghost use Rattle.ak_merge.specs.Soundness.{first_fault, first_bad, is_empty, lacks_template, table_of, type_name, type_under};
ghost use Rattle.ak_base.specs.declared.names.Table.TheVariants as tables;
ghost use Rattle.ak_base.specs.declared.names.Name.{Name as RowName};

use crate::check_links::{Link, Links, read_links};
use crate::takes::is_held;
use ak_base::{Name, Note, Row, Table};
use ak_keep::{KeepFault, Lookup, Readable};

/// Why a collection is not sound, with the id of the first such row.
#[derive(Clone, Copy, Debug, PartialEq, Eq)]
pub enum CheckFault {
    /// The card's note is not held.
    CardNoNote(i64),
    /// The note has no card.
    NoteNoCard(i64),
    /// The note's type is not held.
    NoteNoType(i64),
    /// The card's place is none of the templates of its note's standard type.
    CardNoTemplate(i64),
}

/// A part of the check.
#[derive(Clone, Copy, Debug)]
pub(crate) enum Part {
    CardNote,
    NoteCard,
    NoteType,
    CardTemplate,
}

/// The first fault of the collection, by the order of the faults and then by id: Anki's basic check. It reads each row once, and
/// looks up only what it doesn't see to be good.
pub fn check<R: Readable>(from: &mut R) -> Result<Option<CheckFault>, KeepFault>
    ensures reads { ReadsBy R.Lookup from.old from.new result (λ h fault. fault ≡ first_fault h.rows) }
{
    let links = read_links(from)?;
    if let Some(id) = first_bad(from, Part::CardNote, &links)? {
        return Ok(Some(CheckFault::CardNoNote(id)));
    }
    if let Some(id) = first_bad(from, Part::NoteCard, &links)? {
        return Ok(Some(CheckFault::NoteNoCard(id)));
    }
    if let Some(id) = first_bad(from, Part::NoteType, &links)? {
        return Ok(Some(CheckFault::NoteNoType(id)));
    }
    if let Some(id) = first_bad(from, Part::CardTemplate, &links)? {
        return Ok(Some(CheckFault::CardNoTemplate(id)));
    }
    Ok(None)
}

/// The id of the first row that the part finds bad.
fn first_bad<L: Lookup>(from: &mut L, part: Part, links: &Links) -> Result<Option<i64>, KeepFault>
    ensures reads { ReadsBy L.Lookup from.old from.new result (λ h first. AreLinksOf h.rows links.now → first ≡ option_map (λ (name : RowName). name.id) (first_bad part h.rows)) }
{
    match part {
        Part::CardNote | Part::CardTemplate => bad_among(from, part, &links.cards),
        Part::NoteCard | Part::NoteType => bad_among(from, part, &links.notes),
    }
}

/// The id of the first of these that the part finds bad.
fn bad_among<L: Lookup>(from: &mut L, part: Part, links: &[Link]) -> Result<Option<i64>, KeepFault>
    ensures reads { ReadsBy L.Lookup from.old from.new result (λ h first. All (IsGoodIn (table_of part) h.rows) links.now → first ≡ option_map (λ link. link.id) (find (bad_link part h.rows) links.now)) }
{
    for link in links {
        if is_bad(from, part, link)? {
            return Ok(Some(link.id));
        }
    }
    Ok(None)
}

/// Whether the part finds the row bad. If it is known to be good, it is not asked about.
fn is_bad<L: Lookup>(from: &mut L, part: Part, link: &Link) -> Result<bool, KeepFault>
    ensures reads { ReadsBy L.Lookup from.old from.new result (λ h bad. IsGoodIn (table_of part) h.rows link.now → bad ≡ bad_link part h.rows link.now) }
{
    if link.good {
        return Ok(false);
    }
    ask(from, part, link)
}

/// Asks whether the part finds the row bad.
fn ask<L: Lookup>(from: &mut L, part: Part, link: &Link) -> Result<bool, KeepFault>
    ensures reads { ReadsBy L.Lookup from.old from.new result (λ h bad. bad ≡ bad_link part h.rows link.now) }
{
    match part {
        Part::CardNote => lacks(from, Table::Note, &link.to),
        Part::NoteCard => has_no_card(from, &link.id),
        Part::NoteType => lacks(from, Table::NoteType, &link.to),
        Part::CardTemplate => has_no_template(from, link),
    }
}

/// Whether no row of this id is held in the table.
fn lacks<L: Lookup>(from: &mut L, table: Table, id: &i64) -> Result<bool, KeepFault>
    ensures reads { ReadsBy L.Lookup from.old from.new result (λ h lacks. lacks ≡ not (is_some (get h.rows (name_in table id.now)))) }
{
    let held = is_held(from, Name { table, id: *id })?;
    Ok(!held)
}

/// Whether the note of this id has no card.
fn has_no_card<L: Lookup>(from: &mut L, note: &i64) -> Result<bool, KeepFault>
    ensures reads { ReadsBy L.Lookup from.old from.new result (λ h none. none ≡ is_empty (cards_of note.now h.rows)) }
{
    let cards = from.cards_of(*note)?;
    Ok(cards.as_slice().is_empty())
}

/// Whether the card's place is none of the templates of its note's standard type.
fn has_no_template<L: Lookup>(from: &mut L, card: &Link) -> Result<bool, KeepFault>
    ensures reads { ReadsBy L.Lookup from.old from.new result (λ h none. none ≡ lacks_template card.now.ord (type_under (get h.rows) (name_in tables.Note card.now.to))) }
{
    let held = type_under(from, &card.to)?;
    Ok(lacks_template(&card.ord, &held))
}

/// The type of the note of this id, if both are held.
fn type_under<L: Lookup>(from: &mut L, note: &i64) -> Result<Option<Row>, KeepFault>
    ensures reads { ReadsBy L.Lookup from.old from.new result (λ h held. held ≡ type_under (get h.rows) (name_in tables.Note note.now)) }
{
    let note = from.get(Name {
        table: Table::Note,
        id: *note,
    })?;
    match type_name(&note) {
        Some(name) => from.get(name),
        None => Ok(None),
    }
}

/// The name of the note's type, if it is a note.
fn type_name(note: &Option<Row>) -> Option<Name>
    ensures { result ≡ type_name note.now }
{
    match note {
        Some(Row::Note(note)) => Some(type_of(note)),
        _ => None,
    }
}

/// The name of the note's type.
fn type_of(note: &Note) -> Name
    ensures { result ≡ name_in tables.NoteType note.now.mid }
{
    Name {
        table: Table::NoteType,
        id: note.mid,
    }
}

/// Whether this is a standard type that has no template at the place.
fn lacks_template(ord: &i64, held: &Option<Row>) -> bool
    ensures { result ≡ lacks_template ord.now held.now }
{
    match held {
        Some(Row::NoteType(held)) => {
            !held.cloze && *ord >= held.templates.as_slice().len() as i64
        }
        _ => false,
    }
}
