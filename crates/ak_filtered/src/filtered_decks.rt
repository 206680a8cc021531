// The filtered deck of an id.
ghost use Rattle.std.specs.Prelude.{◌≡◌, true, IfErr, IfOk};
ghost use Rattle.ak_filtered.specs.Emptyings.{RefusesDeck};
ghost use Rattle.ak_filtered.specs.FilteredDecks.{IsDeckFault, IsFilteredAt};
ghost use Rattle.ak_filtered.specs.FilteredFaults.{FilteredCause, TellsBy};
ghost use Rattle.ak_keep.specs.Keepers.{WhereHeld, WhereTold};

use crate::faults::FilteredFault;
use ak_base::{Deck, Name, Row, Table};
use ak_edit_calls::held_row;
use ak_keep::Keeper;

/// The deck of this id, refused if it is not held, and then if it is not filtered.
pub(crate) fn filtered_deck<K: Keeper>(keeper: &mut K, id: i64) -> Result<Deck, FilteredFault>
    ensures same { K.keeping keeper.new ≡ K.keeping keeper.old }
    ensures held { IfOk result (λ deck. WhereTold (K.keeping keeper.old) (IsFilteredAt id deck)) }
    ensures refused { WhereHeld (K.keeping keeper.old) (λ c. TellsBy (RefusesDeck id c) result) }
    ensures listed { IfErr result (IsDeckFault id) }
    ensures cause { FilteredCause (K.health keeper.old) (K.health keeper.new) result }
{
    let name = Name {
        table: Table::Deck,
        id,
    };
    let deck = match held_row(keeper, name) {
        Ok(Row::Deck(deck)) => deck,
        Ok(_) => unreachable!(),
        Err(fault) => return Err(FilteredFault::from(fault)),
    };
    if !deck.filtered {
        return Err(FilteredFault::NotFiltered(id));
    }
    Ok(deck)
}
