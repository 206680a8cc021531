// The cards that notes lack after an edit of their type are made, one note after the other.
ghost use Rattle.std.specs.Prelude.{◌≡◌, ◌++◌, IfErr, IfOk, OnOk};
ghost use Rattle.ak_base.specs.declared.cards.Card.{Card as CardRow};
ghost use Rattle.ak_edit.specs.Refusals.{DeskCause};
ghost use Rattle.ak_keep.specs.Keepers.{WhereTold};
ghost use Rattle.ak_notes.specs.LackingNotes.{AreMissing, IsReady, RefusesMissingIds, next_after};
ghost use Rattle.ak_notes.specs.MadeNotes.{AnswersIn};
ghost use Rattle.ak_edit_calls.specs.NewNames.{IsIdFault};
ghost use Rattle.ak_types.specs.RetypedCards.{AreAllMissing, IsNextMissing, RefusesAllIds};

use ak_base::{Card, List, Memory};
use ak_edit::DeskFault;
use ak_keep::Keeper;
use ak_notes::{LackingNote, MissingCards, NextCards, missing_cards};

/// The cards that the notes lack, and where the next ones would go. It is refused if there are too few ids for them.
pub(crate) fn all_missing<K: Keeper>(
    keeper: &mut K,
    lacking: &List<LackingNote>,
    next: NextCards,
) -> Result<MissingCards, DeskFault>
    requires ready { IsReady next }
    ensures same { K.keeping keeper.new ≡ K.keeping keeper.old }
    ensures made { IfOk result (λ made. WhereTold (K.keeping keeper.old)
        (λ h. AreAllMissing h.rows lacking.now next made.cards made.next)) }
    ensures ready { IfOk result (λ made. IsReady made.next) }
    ensures refused { AnswersIn K.Lookup keeper.old result (RefusesAllIds lacking.now next) }
    ensures listed { IfErr result IsIdFault }
    ensures cause { DeskCause (K.health keeper.old) (K.health keeper.new) result }
{
    let mut made = MissingCards {
        cards: List::new(lacking.allocator()),
        next,
    };
    for note in lacking.as_slice() {
        made = add_missing(keeper, note, made)?;
    }
    Ok(made)
}

/// The cards so far and those that the note lacks.
fn add_missing<K: Keeper>(
    keeper: &mut K,
    note: &LackingNote,
    made: MissingCards,
) -> Result<MissingCards, DeskFault>
    requires ready { IsReady made.next }
    ensures same { K.keeping keeper.new ≡ K.keeping keeper.old }
    ensures made { IfOk result (λ now. WhereTold (K.keeping keeper.old) (λ h. IsNextMissing h.rows note.now made now)) }
    ensures ready { IfOk result (λ now. IsReady now.next) }
    ensures refused { AnswersIn K.Lookup keeper.old result (RefusesMissingIds note.now made.next) }
    ensures listed { IfErr result IsIdFault }
    ensures cause { DeskCause (K.health keeper.old) (K.health keeper.new) result }
{
    let MissingCards { cards, next } = made;
    let own = missing_cards(keeper, note, next)?;
    let all = appended(cards, own.cards)?;
    Ok(MissingCards {
        cards: all,
        next: own.next,
    })
}

/// The cards of both lists.
fn appended(cards: List<Card>, others: List<Card>) -> Result<List<Card>, Memory>
    ensures { IfOk result (λ all. all ≡ cards ++ others) }
{
    let mut all = cards;
    for card in others.into_vec() {
        all.push(card)?;
    }
    Ok(all)
}
