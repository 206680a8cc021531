ghost use Rattle.std.specs.Prelude.{◌≡◌, true, false, not, None, IfErr, IfOk, OnErr, OnOk};
ghost use Rattle.ak_base.specs.Heads.{IsConfInRange};
ghost use Rattle.ak_edit.specs.Refusals.{AnswersBy, DeskCause};
ghost use Rattle.ak_keep.specs.Keepers.{WhereHeld, is_marked};
ghost use Rattle.ak_types.specs.GivenTypes.{sides_fault};
ghost use Rattle.ak_types.specs.RetypedCards.{IsRetypedBy};
ghost use Rattle.ak_types.specs.TypeEdits.{DoesEditType, IsEditOver, IsMadeIn, IsTypeEditFault, RefusesCards, RefusesForType, RefusesToEdit, RefusesTypeEdit, keeps_schema, made_over, schema_if_over};

use crate::given_types::as_given;
use crate::retyped_cards::all_missing;
use crate::retyped_notes::{Retyped, retype_notes};
use crate::type_tests::{keeps_schema, test_type};
use ak_base::{List, Memory, NoteType, Row};
use ak_edit::{Change, DeskFault};
use ak_keep::Keeper;
use ak_notes::{MissingCards, NextCards, held_type, next_cards, put_cards};
use ak_undo::UndoList;

/// A note type that takes the place of the one of its id, and which of its fields and templates that one has.
#[derive(Debug, Drop)]
pub struct TypeEdit {
    /// Its stamp and its usn are replaced.
    pub note_type: NoteType,
    /// For each of its fields the place of the old one that it is, from 0, None if it is new.
    pub from_fields: List<Option<u16>>,
    /// The same of its templates.
    pub from_templates: List<Option<u16>>,
    /// Whether the schema may change: it does, unless both maps are the places 0, 1, 2 and so on of the whole old lists.
    pub allow: bool,
}

/// Puts a note type in place of the one of its id, at a moment in milliseconds. Its notes take their fields by the map: missing
/// ones are empty, and those beyond the old type's go. In a standard type the cards of templates that went are deleted, and ords
/// follow the map; in a cloze type the cards stay. Then the missing cards are made, note by note by ascending id: each note gets
/// those that its fields show and that it has not, or one of ord 0 if it has none and shows none, in the deck of its card of the
/// least id or else in deck 1. An id of a card that went is not given again. If the schema changes, the undo list is emptied, and
/// the next sync is a full one.
///
/// It is refused if no type of this id is held, then if the given type is out of its ranges, then for a bad place of the fields'
/// map and of the templates' map (places count the new fields, then the new templates), then if `cloze` differs and a note has the
/// type, then if the schema would change and may not, then for a side of a template that can't be read, then if too few ids are
/// free, then for a row that it makes and that is out of its ranges, and then for a stamp or a moment that can't rise.
pub fn edit_note_type<K: Keeper>(
    keeper: &mut K,
    steps: &mut UndoList,
    given: &TypeEdit,
    at: i64,
) -> Result<(), DeskFault>
    requires unmarked { is_marked (K.keeping keeper.old) ≡ false }
    requires held { (K.keeping keeper.old).headed.current ≡ true }
    ensures ok { OnOk result (DoesEditType at given.now (K.keeping keeper.old) (K.keeping keeper.new)
        steps.old steps.new) }
    ensures err { OnErr result (K.keeping keeper.new ≡ K.keeping keeper.old) }
    ensures kept { OnErr result (steps.new ≡ steps.old) }
    ensures stays { (K.keeping keeper.new).headed ≡ (K.keeping keeper.old).headed }
    ensures refused { WhereHeld (K.keeping keeper.old) (λ c. AnswersBy (RefusesTypeEdit at given.now c) result) }
    ensures listed { IfErr result (IsTypeEditFault given.now.note_type.id) }
    ensures cause { DeskCause (K.health keeper.old) (K.health keeper.new) result }
{
    let change = read_edit(keeper, given, at)?;
    change.finish(keeper, steps, at)
}

/// The changes of the edit, refused for the first of its tests that holds.
fn read_edit<K: Keeper>(keeper: &mut K, given: &TypeEdit, at: i64) -> Result<Change, DeskFault>
    requires held { (K.keeping keeper.old).headed.current ≡ true }
    ensures same { K.keeping keeper.new ≡ K.keeping keeper.old }
    ensures made { IfOk result (λ made. WhereHeld (K.keeping keeper.old) (λ c. IsEditOver at given.now c made)) }
    ensures refused { WhereHeld (K.keeping keeper.old) (λ c. AnswersBy (RefusesToEdit at given.now c) result) }
    ensures listed { IfErr result (IsTypeEditFault given.now.note_type.id) }
    ensures cause { DeskCause (K.health keeper.old) (K.health keeper.new) result }
{
    let old = held_type(keeper, given.note_type.id)?;
    read_for_type(keeper, given, &old, at)
}

/// The changes of the edit with the type that is held, refused for the first of its tests that holds.
fn read_for_type<K: Keeper>(
    keeper: &mut K,
    given: &TypeEdit,
    old: &NoteType,
    at: i64,
) -> Result<Change, DeskFault>
    requires held { (K.keeping keeper.old).headed.current ≡ true }
    ensures same { K.keeping keeper.new ≡ K.keeping keeper.old }
    ensures made { IfOk result (λ made. WhereHeld (K.keeping keeper.old) (IsMadeIn at given.now old.now made)) }
    ensures refused { WhereHeld (K.keeping keeper.old) (λ c. AnswersBy (RefusesForType at given.now c old.now) result) }
    ensures listed { IfErr result (IsTypeEditFault given.now.note_type.id) }
    ensures cause { DeskCause (K.health keeper.old) (K.health keeper.new) result }
{
    test_type(keeper, given, old)?;
    make_edit(keeper, given, old, at)
}

/// The changes of the edit, refused if there are too few ids for the cards that its notes lack.
fn make_edit<K: Keeper>(
    keeper: &mut K,
    given: &TypeEdit,
    old: &NoteType,
    at: i64,
) -> Result<Change, DeskFault>
    requires held { (K.keeping keeper.old).headed.current ≡ true }
    requires sides { sides_fault given.now.note_type.templates ≡ None }
    ensures same { K.keeping keeper.new ≡ K.keeping keeper.old }
    ensures made { IfOk result (λ made. WhereHeld (K.keeping keeper.old) (IsMadeIn at given.now old.now made)) }
    ensures refused { WhereHeld (K.keeping keeper.old) (λ c. AnswersBy (RefusesCards at given.now old.now c) result) }
    ensures listed { IfErr result (IsTypeEditFault given.now.note_type.id) }
    ensures cause { DeskCause (K.health keeper.old) (K.health keeper.new) result }
{
    let next = next_cards(keeper, given.from_fields.allocator(), at)?;
    let notes = retype_notes(keeper, given, old)?;
    let Retyped { change, lacking } = notes;
    let made = all_missing(keeper, &lacking, next)?;
    Ok(put_edit(change, given, old, made)?)
}

/// The changes of the notes with the type, the new cards and the settings, and a change of the schema if it changes.
fn put_edit(
    notes: Change,
    given: &TypeEdit,
    old: &NoteType,
    made: MissingCards,
) -> Result<Change, Memory>
    requires { IsConfInRange made.next.conf }
    ensures { IfOk result (λ change. change ≡ made_over given.now old.now made.cards made.next.conf notes) }
{
    let MissingCards { cards, next } = made;
    let NextCards { first: _, conf } = next;
    let mut change = notes;
    change.put(Row::NoteType(as_given(given.note_type.copy()?)))?;
    change_schema_if(&mut change, !keeps_schema(given, old));
    put_cards(&mut change, cards.into_vec())?;
    change.set_conf(conf);
    Ok(change)
}

/// Changes the schema, if this is so.
fn change_schema_if(change: &mut Change, changes: bool)
    ensures { change.new ≡ schema_if_over changes change.old }
{
    if changes {
        change.change_schema();
    }
}
