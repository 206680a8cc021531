ghost use Rattle.std.specs.Prelude.{◌≡◌, IfOk};
ghost use Rattle.ak_desk.specs.Desks.{IsIdle};
ghost use Rattle.ak_desk_lines.specs.Accepted.{IsChangeOf, answer_with, note_answer, other_fields, other_tags};
ghost use Rattle.ak_desk_lines.specs.LineEnds.{EndsAt};
ghost use Rattle.ak_edit.specs.Refusals.{DeskCause};
ghost use Rattle.ak_base.specs.NoteTexts.{fields_in, tags_in};
ghost use Rattle.ak_keep.specs.Keepers.{WhereTold};
ghost use Rattle.ak_keep.specs.Lookups.{note_at};
ghost use Rattle.ak_desk_language.specs.declared.desk_lines.DeskLine.TheVariants as lines;
ghost use Rattle.ak_notes.specs.MadeNotes.{MissesIn};
ghost use Rattle.ak_merge.specs.Holdings.{name_in};
ghost use Rattle.ak_base.specs.declared.names.Table.TheVariants as tables;

use crate::answers::finished;
use crate::turns::Turn;
use ak_base::{List, Memory, Name, Note, Table, Text, copy_texts};
use ak_desk::Desk;
use ak_desk_texts::DeskAnswer;
use ak_edit::DeskFault;
use ak_keep::{Keeper, note_at};
use ak_notes::{Added, NewNote, NoteEdit};
use std::alloc::Global;

/// `note`: adds a note without tags. Without a name of its own it is called by its id and the word of chance.
pub(crate) fn add_note<K: Keeper>(
    desk: &mut Desk<K>,
    note_type: i64,
    deck: i64,
    fields: List<Text>,
    turn: Turn,
) -> Result<DeskAnswer, DeskFault>
    requires idle { IsIdle (K.keeping desk.old.keeper.now) }
    ensures ends { EndsAt K.Lookup (lines.AddNote note_type deck fields) turn desk.old desk.new result }
    ensures cause { DeskCause (K.health desk.old.keeper.now) (K.health desk.new.keeper.now) result }
    ensures lent { (desk.new.keeper.ghost_name ≡ desk.old.keeper.ghost_name)
        × (desk.new.undo.ghost_name ≡ desk.old.undo.ghost_name) }
{
    let new = NewNote {
        note_type,
        deck,
        guid: None,
        fields,
        tags: List::new(desk.undo.allocator()),
        chance: turn.chance,
    };
    noted(desk.add_note(&new, turn.at))
}

/// The answer for a note that was added: its id and those of its cards.
fn noted(made: Result<Added, DeskFault>) -> Result<DeskAnswer, DeskFault>
    ensures { result ≡ answer_with note_answer made }
{
    let added = made?;
    Ok(DeskAnswer::AddedNote {
        note: added.note,
        cards: added.cards,
    })
}

/// `fields`: gives a note other fields. It keeps its tags.
pub(crate) fn set_fields<K: Keeper>(
    desk: &mut Desk<K>,
    note: i64,
    fields: List<Text>,
    turn: Turn,
) -> Result<DeskAnswer, DeskFault>
    requires idle { IsIdle (K.keeping desk.old.keeper.now) }
    ensures ends { EndsAt K.Lookup (lines.SetFields note fields) turn desk.old desk.new result }
    ensures cause { DeskCause (K.health desk.old.keeper.now) (K.health desk.new.keeper.now) result }
    ensures lent { (desk.new.keeper.ghost_name ≡ desk.old.keeper.ghost_name)
        × (desk.new.undo.ghost_name ≡ desk.old.undo.ghost_name) }
{
    let alloc = desk.undo.allocator();
    let given = fields_edit(alloc, desk.keeper, note, fields)?;
    finished(desk.edit_note(&given, turn.at))
}

/// The edit that gives a note other fields.
fn fields_edit<K: Keeper>(
    alloc: Global,
    keeper: &mut K,
    note: i64,
    fields: List<Text>,
) -> Result<NoteEdit, DeskFault>
    ensures same { K.keeping keeper.new ≡ K.keeping keeper.old }
    ensures made { IfOk result
        (IsChangeOf (K.keeping keeper.old) note (λ held. other_fields held fields)) }
    ensures note { IfOk result (λ given. given.note ≡ note) }
    ensures missing { MissesIn K.Lookup keeper.old result (λ rows. note_at rows note) (name_in tables.Note note) }
    ensures cause { DeskCause (K.health keeper.old) (K.health keeper.new) result }
{
    let held = held_note(keeper, note)?;
    let tags = tags_of(alloc, &held)?;
    Ok(NoteEdit {
        note: held.id,
        fields,
        tags,
    })
}

/// `tags`: gives a note other tags. It keeps its fields.
pub(crate) fn set_tags<K: Keeper>(
    desk: &mut Desk<K>,
    note: i64,
    tags: List<Text>,
    turn: Turn,
) -> Result<DeskAnswer, DeskFault>
    requires idle { IsIdle (K.keeping desk.old.keeper.now) }
    ensures ends { EndsAt K.Lookup (lines.SetTags note tags) turn desk.old desk.new result }
    ensures cause { DeskCause (K.health desk.old.keeper.now) (K.health desk.new.keeper.now) result }
    ensures lent { (desk.new.keeper.ghost_name ≡ desk.old.keeper.ghost_name)
        × (desk.new.undo.ghost_name ≡ desk.old.undo.ghost_name) }
{
    let alloc = desk.undo.allocator();
    let given = tags_edit(alloc, desk.keeper, note, tags)?;
    finished(desk.edit_note(&given, turn.at))
}

/// The edit that gives a note other tags.
fn tags_edit<K: Keeper>(
    alloc: Global,
    keeper: &mut K,
    note: i64,
    tags: List<Text>,
) -> Result<NoteEdit, DeskFault>
    ensures same { K.keeping keeper.new ≡ K.keeping keeper.old }
    ensures made { IfOk result (IsChangeOf (K.keeping keeper.old) note (λ held. other_tags held tags)) }
    ensures note { IfOk result (λ given. given.note ≡ note) }
    ensures missing { MissesIn K.Lookup keeper.old result (λ rows. note_at rows note) (name_in tables.Note note) }
    ensures cause { DeskCause (K.health keeper.old) (K.health keeper.new) result }
{
    let held = held_note(keeper, note)?;
    let fields = fields_of(alloc, &held)?;
    Ok(NoteEdit {
        note: held.id,
        fields,
        tags,
    })
}

/// `delete`: deletes notes with their cards.
pub(crate) fn delete_notes<K: Keeper>(
    desk: &mut Desk<K>,
    notes: &List<i64>,
    turn: Turn,
) -> Result<DeskAnswer, DeskFault>
    requires idle { IsIdle (K.keeping desk.old.keeper.now) }
    ensures ends { EndsAt K.Lookup (lines.DeleteNotes notes.now) turn desk.old desk.new result }
    ensures cause { DeskCause (K.health desk.old.keeper.now) (K.health desk.new.keeper.now) result }
    ensures lent { (desk.new.keeper.ghost_name ≡ desk.old.keeper.ghost_name)
        × (desk.new.undo.ghost_name ≡ desk.old.undo.ghost_name) }
{
    finished(desk.delete_notes(notes.as_slice(), turn.at))
}

/// The note of this id, refused if it is not held.
fn held_note<K: Keeper>(keeper: &mut K, id: i64) -> Result<Note, DeskFault>
    ensures same { K.keeping keeper.new ≡ K.keeping keeper.old }
    ensures named { IfOk result (λ note. note.id ≡ id) }
    ensures found { IfOk result (λ note. WhereTold (K.keeping keeper.old) (λ h. note_at h.rows id ≡ Some note)) }
    ensures missing { MissesIn K.Lookup keeper.old result (λ rows. note_at rows id) (name_in tables.Note id) }
    ensures cause { DeskCause (K.health keeper.old) (K.health keeper.new) result }
{
    match note_at(keeper, id)? {
        Some(note) => Ok(note),
        None => Err(DeskFault::NoSuch(Name {
            table: Table::Note,
            id,
        })),
    }
}

/// The tags of the note.
fn tags_of(alloc: Global, note: &Note) -> Result<List<Text>, Memory>
    ensures { IfOk result (λ tags. tags ≡ tags_in note.now.tags) }
{
    let tags = note.tag_list(alloc)?;
    copy_texts(alloc, tags.as_slice())
}

/// The fields of the note.
fn fields_of(alloc: Global, note: &Note) -> Result<List<Text>, Memory>
    ensures { IfOk result (λ fields. fields ≡ fields_in note.now.flds) }
{
    let fields = note.field_list(alloc)?;
    copy_texts(alloc, fields.as_slice())
}
