ghost use Rattle.std.specs.Prelude.{◌≡◌, ◌⊎◌, true, false, Some, IfErr, OnOk};
ghost use Rattle.std.specs.FinMap.{get};
ghost use Rattle.ak_base.specs.Cards.{IsCheckedCard};
ghost use Rattle.ak_base.specs.Rows.{IsChecked};
ghost use Rattle.ak_base.specs.declared.cards.Card.{Card as CardRow};
ghost use Rattle.ak_base.specs.declared.names.Table.TheVariants as tables;
ghost use Rattle.ak_edit.specs.Refusals.{AnswersBy, DeskCause, IsFromOutside};
ghost use Rattle.ak_edit.specs.declared.desk_faults.DeskFault.TheVariants as faults;
ghost use Rattle.ak_edit_calls.specs.Calls.{ChangesBy, EditsBy, IsMissingOrEnd, RefusesAbsent, RefusesMissing};
ghost use Rattle.ak_edit_calls.specs.CardEdits.{KeepsCards, RefusesCardEdit, card_edit, changed_row, put_changed, put_each};
ghost use Rattle.ak_keep.specs.Keepers.{WhereTold, is_marked};

use crate::held_rows::held_row;
use ak_base::{Card, Name, Row, Table};
use ak_edit::{Change, DeskFault};
use ak_keep::Keeper;
use ak_undo::UndoList;

/// A way to change a card.
pub trait CardChange {
    /// What it makes of a card.
    ghost change: { Self → CardRow → CardRow };

    /// The card after the change. It takes no memory.
    fn apply(&self, card: Card) -> Card
        requires { IsCheckedCard card }
        ensures { result ≡ change self.now card };
}

/// Cards by their ids, in any order and also more than once, and the change that each of them gets.
#[derive(Drop)]
pub struct CardEdit<'a, C> {
    pub cards: &'a [i64],
    pub by: &'a C,
}

/// Changes cards, at a moment in milliseconds. A card that comes twice is changed once, and one that the change leaves as it is
/// keeps its stamp. It is refused for the first card in the order of the list that is not held, and then for a stamp or a moment
/// that can't rise.
pub fn edit_cards<K: Keeper, C: CardChange>(
    keeper: &mut K,
    steps: &mut UndoList,
    edit: &CardEdit<C>,
    at: i64,
) -> Result<(), DeskFault>
    requires unmarked { is_marked (K.keeping keeper.old) ≡ false }
    requires held { (K.keeping keeper.old).headed.current ≡ true }
    requires keeps { KeepsCards (C.change edit.now.by.now) }
    ensures edits { EditsBy K.Lookup keeper.old keeper.new steps.old steps.new result at
        (card_edit (C.change edit.now.by.now) edit.now.cards.now)
        (RefusesCardEdit at (C.change edit.now.by.now) edit.now.cards.now) }
    ensures listed { IfErr result (IsMissingOrEnd tables.Card) }
    ensures cause { DeskCause (K.health keeper.old) (K.health keeper.new) result }
{
    let mut change = Change::new(steps.allocator());
    change_cards(keeper, &mut change, edit.cards, edit.by)?;
    change.finish(keeper, steps, at)
}

/// Changes each of the cards, and refuses the first one that is not held.
fn change_cards<K: Keeper, C: CardChange>(
    keeper: &mut K,
    change: &mut Change,
    cards: &[i64],
    by: &C,
) -> Result<(), DeskFault>
    ensures same { K.keeping keeper.new ≡ K.keeping keeper.old }
    ensures ok { OnOk result (ChangesBy K.Lookup keeper.old change.old change.new
        (λ rows. put_each (C.change by.now) (get rows) cards.now)) }
    ensures refused { WhereTold (K.keeping keeper.old)
        (λ h. AnswersBy (RefusesMissing (get h.rows) tables.Card cards.now) result) }
    ensures listed { IfErr result (IsMissingOrEnd tables.Card) }
    ensures cause { DeskCause (K.health keeper.old) (K.health keeper.new) result }
{
    for id in cards {
        let name = Name {
            table: Table::Card,
            id: *id,
        };
        change_card(keeper, change, name, by)?;
    }
    Ok(())
}

/// Changes the card of this name, as it is held.
fn change_card<K: Keeper, C: CardChange>(
    keeper: &mut K,
    change: &mut Change,
    name: Name,
    by: &C,
) -> Result<(), DeskFault>
    ensures same { K.keeping keeper.new ≡ K.keeping keeper.old }
    ensures ok { OnOk result (ChangesBy K.Lookup keeper.old change.old change.new
        (λ rows. put_changed (C.change by.now) (get rows) name)) }
    ensures refused { WhereTold (K.keeping keeper.old) (λ h. AnswersBy (RefusesAbsent (get h.rows) name) result) }
    ensures listed { IfErr result (λ fault. IsFromOutside fault ⊎ (fault ≡ faults.NoSuch name)) }
    ensures cause { DeskCause (K.health keeper.old) (K.health keeper.new) result }
{
    let row = held_row(keeper, name)?;
    change.put(changed_row(row, by))?;
    Ok(())
}

/// The row after the change, if it is a card.
fn changed_row<C: CardChange>(row: Row, by: &C) -> Row
    requires { IsChecked row }
    ensures { result ≡ changed_row (C.change by.now) row }
{
    match row {
        Row::Card(card) => Row::Card(by.apply(card)),
        other => other,
    }
}
