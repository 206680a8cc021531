ghost use Rattle.std.specs.Prelude.{◌≡◌, ◌⊎◌, true, false, IfErr, OnOk};
ghost use Rattle.std.specs.FinMap.{get};
ghost use Rattle.ak_base.specs.declared.names.Table.TheVariants as tables;
ghost use Rattle.ak_edit.specs.Refusals.{AnswersBy, DeskCause, IsFromOutside};
ghost use Rattle.ak_edit.specs.declared.desk_faults.DeskFault.TheVariants as faults;
ghost use Rattle.ak_edit_calls.specs.Calls.{ChangesBy, EditsBy, IsMissingOrEnd, RefusesAbsent, RefusesMissing};
ghost use Rattle.ak_keep.specs.Keepers.{KeepCause, WhereTold, is_marked};
ghost use Rattle.ak_notes.specs.Deletions.{RefusesDeletion, deletion, without_cards, without_each, without_note};

use ak_base::{Memory, Name, Table};
use ak_edit::{Change, DeskFault};
use ak_edit_calls::held_row;
use ak_keep::{KeepFault, Keeper};
use ak_undo::UndoList;

/// Deletes notes by their ids, in any order and also more than once, at a moment in milliseconds. Their cards go too, and the
/// reviews of these stay. Each row that goes leaves its grave. It is refused for the first note in the order of the list that
/// is not held, and then for a moment that can't rise.
pub fn delete_notes<K: Keeper>(
    keeper: &mut K,
    steps: &mut UndoList,
    notes: &[i64],
    at: i64,
) -> Result<(), DeskFault>
    requires unmarked { is_marked (K.keeping keeper.old) ≡ false }
    requires held { (K.keeping keeper.old).headed.current ≡ true }
    ensures edits { EditsBy K.Lookup keeper.old keeper.new steps.old steps.new result at
        (deletion notes.now) (RefusesDeletion at notes.now) }
    ensures listed { IfErr result (IsMissingOrEnd tables.Note) }
    ensures cause { DeskCause (K.health keeper.old) (K.health keeper.new) result }
{
    let mut change = Change::new(steps.allocator());
    remove_notes(keeper, &mut change, notes)?;
    change.finish(keeper, steps, at)
}

/// Removes each of the notes with its cards, and refuses the first one that is not held.
fn remove_notes<K: Keeper>(
    keeper: &mut K,
    change: &mut Change,
    notes: &[i64],
) -> Result<(), DeskFault>
    ensures same { K.keeping keeper.new ≡ K.keeping keeper.old }
    ensures ok { OnOk result (ChangesBy K.Lookup keeper.old change.old change.new
        (λ rows. without_each rows notes.now)) }
    ensures refused { WhereTold (K.keeping keeper.old)
        (λ h. AnswersBy (RefusesMissing (get h.rows) tables.Note notes.now) result) }
    ensures listed { IfErr result (IsMissingOrEnd tables.Note) }
    ensures cause { DeskCause (K.health keeper.old) (K.health keeper.new) result }
{
    for id in notes {
        let name = Name {
            table: Table::Note,
            id: *id,
        };
        remove_note(keeper, change, name)?;
    }
    Ok(())
}

/// Removes the note of this name with its cards, as they are held.
fn remove_note<K: Keeper>(keeper: &mut K, change: &mut Change, name: Name) -> Result<(), DeskFault>
    ensures same { K.keeping keeper.new ≡ K.keeping keeper.old }
    ensures ok { OnOk result (ChangesBy K.Lookup keeper.old change.old change.new (λ rows. without_note rows name)) }
    ensures refused { WhereTold (K.keeping keeper.old) (λ h. AnswersBy (RefusesAbsent (get h.rows) name) result) }
    ensures listed { IfErr result (λ fault. IsFromOutside fault ⊎ (fault ≡ faults.NoSuch name)) }
    ensures cause { DeskCause (K.health keeper.old) (K.health keeper.new) result }
{
    let note = held_row(keeper, name)?;
    drop(note);
    remove_held(keeper, change, name)?;
    Ok(())
}

/// Removes the note of this name and its cards, as they are held.
fn remove_held<K: Keeper>(keeper: &mut K, change: &mut Change, name: Name) -> Result<(), KeepFault>
    ensures same { K.keeping keeper.new ≡ K.keeping keeper.old }
    ensures ok { OnOk result (ChangesBy K.Lookup keeper.old change.old change.new (λ rows. without_note rows name)) }
    ensures cause { KeepCause (K.health keeper.old) (K.health keeper.new) result }
{
    let cards = keeper.cards_of(name.id)?;
    change.remove(name)?;
    remove_cards(change, cards.as_slice())?;
    Ok(())
}

/// Removes the cards of these ids.
pub fn remove_cards(change: &mut Change, cards: &[i64]) -> Result<(), Memory>
    ensures { OnOk result (change.new ≡ without_cards cards.now change.old) }
{
    for id in cards {
        let name = Name {
            table: Table::Card,
            id: *id,
        };
        change.remove(name)?;
    }
    Ok(())
}
