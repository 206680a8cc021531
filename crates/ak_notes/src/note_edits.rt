ghost use Rattle.std.specs.Prelude.{◌≡◌, true, false, IfErr, IfOk, OnErr, OnOk, Some};
ghost use Rattle.std.specs.List.{AllByRecursion};
ghost use Rattle.ak_base.specs.Heads.{IsConfInRange};
ghost use Rattle.ak_base.specs.declared.names.Table.TheVariants as tables;
ghost use Rattle.ak_edit.specs.Refusals.{AnswersBy, DeskCause};
ghost use Rattle.ak_keep.specs.Keepers.{WhereHeld, WhereTold, is_marked};
ghost use Rattle.ak_keep.specs.Lookups.{note_at, type_of_note};
ghost use Rattle.ak_keep.specs.Readings.{ReadsBy};
ghost use Rattle.ak_merge.specs.Holdings.{name_in};
ghost use Rattle.ak_merge.specs.Tags.{IsTagName};
ghost use Rattle.ak_notes.specs.MadeNotes.{AnswersIn, IsMakingFault, MakesIn, MissesIn};
ghost use Rattle.ak_notes.specs.NoteEdits.{EditsNote, IsChangedFor, IsChangedOf, IsChangedTo, IsChangedWith, IsNoteEditFault, RefusesCards, RefusesForNote, RefusesForType, RefusesLacked, RefusesNoteEdit, RefusesToEdit, lacking_note, type_name};

use crate::given_texts::check_given;
use crate::lacking_notes::{LackingNote, held_cards, missing_cards, next_cards};
use crate::made_notes::{MadeNote, put_made};
use crate::new_cards::told_ords;
use crate::note_rows::with_texts;
use ak_base::{List, Name, Note, NoteType, Table, Text};
use ak_edit::{Change, DeskFault};
use ak_keep::{KeepFault, Keeper, note_at, type_of_note};
use ak_undo::UndoList;
use std::alloc::Global;

/// The fields and the tags that a note gets in place of its own.
#[derive(Debug, Drop)]
pub struct NoteEdit {
    pub note: i64,
    /// One for each field of the note's type, without the byte 0x1F.
    pub fields: List<Text>,
    /// In any order and also more than once, each of 1 to 512 bytes over the space.
    pub tags: List<Text>,
}

/// Gives a note other fields and tags, at a moment in milliseconds, and makes the cards that its fields show and that
/// it lacks. They come into the deck of its card of the least id, or into deck 1 if it has no card, at the next place
/// among the new cards. No card is removed.
///
/// It is refused if the note is not held, then if its type is not; then if the fields are not as many as the type's,
/// for a tag or a field out of its range, for a front that is no template, if too few ids are free, for a made row that
/// fails its check, and for a stamp or a moment that can't rise. If nothing changes, it leaves no step.
pub fn edit_note<K: Keeper>(
    keeper: &mut K,
    steps: &mut UndoList,
    given: &NoteEdit,
    at: i64,
) -> Result<(), DeskFault>
    requires unmarked { is_marked (K.keeping keeper.old) ≡ false }
    requires held { (K.keeping keeper.old).headed.current ≡ true }
    ensures ok { OnOk result (EditsNote K.Lookup keeper.old keeper.new steps.old steps.new at given.now) }
    ensures err { OnErr result (K.keeping keeper.new ≡ K.keeping keeper.old) }
    ensures kept { OnErr result (steps.new ≡ steps.old) }
    ensures stays { (K.keeping keeper.new).headed ≡ (K.keeping keeper.old).headed }
    ensures refused { WhereHeld (K.keeping keeper.old) (λ c. AnswersBy (RefusesNoteEdit at given.now c) result) }
    ensures listed { IfErr result (IsNoteEditFault given.now) }
    ensures cause { DeskCause (K.health keeper.old) (K.health keeper.new) result }
{
    let made = read_edit(keeper, given, at)?;
    let mut change = Change::new(steps.allocator());
    put_made(&mut change, made, &given.tags)?;
    change.finish(keeper, steps, at)
}

/// What is made of the note, refused for the first of its tests that holds. Nothing is put yet, and the tests of rows
/// and stamps are left to the edit's end.
pub fn read_edit<K: Keeper>(
    keeper: &mut K,
    given: &NoteEdit,
    at: i64,
) -> Result<MadeNote, DeskFault>
    requires held { (K.keeping keeper.old).headed.current ≡ true }
    ensures same { K.keeping keeper.new ≡ K.keeping keeper.old }
    ensures made { MakesIn K.Lookup keeper.old result (IsChangedOf at given.now) }
    ensures range { IfOk result (λ made. IsConfInRange made.conf) }
    ensures names { OnOk result (AllByRecursion IsTagName given.now.tags) }
    ensures refused { AnswersIn K.Lookup keeper.old result (RefusesToEdit at given.now) }
    ensures listed { IfErr result (IsNoteEditFault given.now) }
    ensures cause { DeskCause (K.health keeper.old) (K.health keeper.new) result }
{
    let note = held_note(keeper, given.note)?;
    read_for_note(keeper, note, given, at)
}

/// The note of this id, refused if it is not held.
fn held_note<K: Keeper>(keeper: &mut K, id: i64) -> Result<Note, DeskFault>
    ensures same { K.keeping keeper.new ≡ K.keeping keeper.old }
    ensures found { MakesIn K.Lookup keeper.old result (λ found h. note_at h.rows id ≡ Some found) }
    ensures missing { MissesIn K.Lookup keeper.old result (λ rows. note_at rows id) (name_in tables.Note id) }
    ensures cause { DeskCause (K.health keeper.old) (K.health keeper.new) result }
{
    let found = note_at(keeper, id)?;
    match found {
        Some(note) => Ok(note),
        None => Err(DeskFault::NoSuch(Name {
            table: Table::Note,
            id,
        })),
    }
}

/// What is made of this note, refused if its type is not held.
fn read_for_note<K: Keeper>(
    keeper: &mut K,
    note: Note,
    given: &NoteEdit,
    at: i64,
) -> Result<MadeNote, DeskFault>
    requires held { (K.keeping keeper.old).headed.current ≡ true }
    ensures same { K.keeping keeper.new ≡ K.keeping keeper.old }
    ensures made { MakesIn K.Lookup keeper.old result (IsChangedFor at note given.now) }
    ensures range { IfOk result (λ made. IsConfInRange made.conf) }
    ensures names { OnOk result (AllByRecursion IsTagName given.now.tags) }
    ensures refused { AnswersIn K.Lookup keeper.old result (RefusesForNote at given.now note) }
    ensures listed { IfErr result (IsNoteEditFault given.now) }
    ensures cause { DeskCause (K.health keeper.old) (K.health keeper.new) result }
{
    let note_type = held_type_of(keeper, &note)?;
    let editing = Editing {
        note_type: &note_type,
        given,
        at,
    };
    read_for_type(keeper, &editing, note)
}

/// The type of the note, refused if it is not held.
fn held_type_of<K: Keeper>(keeper: &mut K, note: &Note) -> Result<NoteType, DeskFault>
    ensures same { K.keeping keeper.new ≡ K.keeping keeper.old }
    ensures found { MakesIn K.Lookup keeper.old result (λ found h. type_of_note h.rows note.now ≡ Some found) }
    ensures missing { MissesIn K.Lookup keeper.old result (λ rows. type_of_note rows note.now) (type_name note.now) }
    ensures cause { DeskCause (K.health keeper.old) (K.health keeper.new) result }
{
    let found = type_of_note(keeper, note)?;
    match found {
        Some(note_type) => Ok(note_type),
        None => Err(DeskFault::NoSuch(Name {
            table: Table::NoteType,
            id: note.mid,
        })),
    }
}

/// The texts that a note gets, its type, and the moment.
#[derive(Drop)]
struct Editing<'a> {
    note_type: &'a NoteType,
    given: &'a NoteEdit,
    at: i64,
}

/// What is made of this note for its type, refused if the texts are.
fn read_for_type<K: Keeper>(
    keeper: &mut K,
    editing: &Editing,
    note: Note,
) -> Result<MadeNote, DeskFault>
    requires held { (K.keeping keeper.old).headed.current ≡ true }
    ensures same { K.keeping keeper.new ≡ K.keeping keeper.old }
    ensures made { let e = editing.now in MakesIn K.Lookup keeper.old result (IsChangedTo e.at note e.note_type.now e.given.now) }
    ensures range { IfOk result (λ made. IsConfInRange made.conf) }
    ensures names { OnOk result (AllByRecursion IsTagName editing.now.given.now.tags) }
    ensures refused { let e = editing.now in AnswersIn K.Lookup keeper.old result (RefusesForType e.at e.given.now e.note_type.now) }
    ensures listed { IfErr result IsMakingFault }
    ensures cause { DeskCause (K.health keeper.old) (K.health keeper.new) result }
{
    check_given(
        editing.note_type,
        &editing.given.fields,
        &editing.given.tags,
    )?;
    make_edit(keeper, editing, note)
}

/// What is made of this note for its type, refused if a front is no template.
fn make_edit<K: Keeper>(
    keeper: &mut K,
    editing: &Editing,
    note: Note,
) -> Result<MadeNote, DeskFault>
    requires held { (K.keeping keeper.old).headed.current ≡ true }
    ensures same { K.keeping keeper.new ≡ K.keeping keeper.old }
    ensures made { let e = editing.now in MakesIn K.Lookup keeper.old result (IsChangedTo e.at note e.note_type.now e.given.now) }
    ensures range { IfOk result (λ made. IsConfInRange made.conf) }
    ensures refused { let e = editing.now in AnswersIn K.Lookup keeper.old result (RefusesCards e.at e.given.now e.note_type.now) }
    ensures listed { IfErr result IsMakingFault }
    ensures cause { DeskCause (K.health keeper.old) (K.health keeper.new) result }
{
    let shown = told_ords(
        editing.given.fields.allocator(),
        editing.note_type,
        &editing.given.fields,
    )?;
    make_shown(keeper, editing, note, shown)
}

/// What is made of this note, which shows cards of these ords, refused if too few ids are free for those that it lacks.
fn make_shown<K: Keeper>(
    keeper: &mut K,
    editing: &Editing,
    note: Note,
    shown: List<i64>,
) -> Result<MadeNote, DeskFault>
    requires held { (K.keeping keeper.old).headed.current ≡ true }
    ensures same { K.keeping keeper.new ≡ K.keeping keeper.old }
    ensures made { let e = editing.now in MakesIn K.Lookup keeper.old result (IsChangedWith e.at note e.note_type.now e.given.now shown) }
    ensures range { IfOk result (λ made. IsConfInRange made.conf) }
    ensures refused { let e = editing.now in AnswersIn K.Lookup keeper.old result (RefusesLacked e.at e.given.now shown) }
    ensures listed { IfErr result IsMakingFault }
    ensures cause { DeskCause (K.health keeper.old) (K.health keeper.new) result }
{
    let alloc = editing.given.fields.allocator();
    let lacking = lacking_note(keeper, alloc, editing.given.note, shown)?;
    let next = next_cards(keeper, alloc, editing.at)?;
    let changed = with_texts(
        note,
        editing.note_type,
        &editing.given.fields,
        &editing.given.tags,
    )?;
    let made = missing_cards(keeper, &lacking, next)?;
    Ok(MadeNote {
        note: changed,
        cards: made.cards,
        conf: made.next.conf,
    })
}

/// The note of this id with its cards that are held, and with the ords that it shows.
fn lacking_note<K: Keeper>(
    keeper: &mut K,
    alloc: Global,
    note: i64,
    shown: List<i64>,
) -> Result<LackingNote, KeepFault>
    ensures reads { ReadsBy K.Lookup keeper.old keeper.new result (λ h made. made ≡ lacking_note note shown h.rows) }
{
    let held = held_cards(keeper, alloc, note)?;
    Ok(LackingNote {
        note,
        held,
        shown,
        needs_card: false,
    })
}
