ghost use Rattle.std.specs.Prelude.{◌≡◌, ◌<◌, pos, length, IfErr, IfOk};
ghost use Rattle.ak_edit_calls.specs.NewNames.{IsIdFault};
ghost use Rattle.ak_edit.specs.Refusals.{AnswersBy, DeskCause};
ghost use Rattle.ak_keep.specs.Collections.{IsId};
ghost use Rattle.ak_keep.specs.Keepers.{WhereTold};
ghost use Rattle.ak_deck_paths.specs.Additions.{id_of_last};
ghost use Rattle.ak_deck_paths.specs.NewDecks.{AreNewIn, IsNewDeck, RefusesIds};

use ak_base::{Count, Deck, List, Memory, Name, Rest, Table, Text};
use ak_edit::DeskFault;
use ak_edit_calls::{first_name, next_free};
use ak_keep::Keeper;
use std::alloc::Global;

/// A new deck for each of the paths, at a moment in milliseconds: each has options 1, and the first free id after the one before, the
/// first of them from the moment on. It puts nothing, and is refused if there are too few free ids.
pub fn new_decks<K: Keeper>(
    keeper: &mut K,
    paths: &List<Text>,
    at: i64,
) -> Result<List<Deck>, DeskFault>
    ensures same { K.keeping keeper.new ≡ K.keeping keeper.old }
    ensures made { IfOk result (λ decks. WhereTold (K.keeping keeper.old) (AreNewIn at paths.now decks)) }
    ensures range { IfOk result (λ decks. 0 < length paths.now → IsId (id_of_last (pos 0) decks)) }
    ensures refused { WhereTold (K.keeping keeper.old) (λ h. AnswersBy (RefusesIds at paths.now h.rows) result) }
    ensures listed { IfErr result IsIdFault }
    ensures cause { DeskCause (K.health keeper.old) (K.health keeper.new) result }
{
    let alloc = paths.allocator();
    let mut decks = List::new(alloc);
    let mut first = first_name(Table::Deck, at);
    for path in paths.as_slice() {
        let name = next_free(keeper, first)?;
        let deck = new_deck(alloc, path, name)?;
        decks.push(deck)?;
        first = name.next();
    }
    Ok(decks)
}

/// A new deck of this path under this name.
fn new_deck(alloc: Global, path: &Text, name: Name) -> Result<Deck, Memory>
    ensures { IfOk result (IsNewDeck path.now name.id) }
{
    let none_taken = Count { day: 0, count: 0 };
    let path = path.copy()?;
    let rest = Rest::empty(alloc)?;
    Ok(Deck {
        id: name.id,
        stamp: 0,
        usn: -1,
        name: path,
        options: 1,
        filtered: false,
        new_today: none_taken,
        rev_today: none_taken,
        rest,
    })
}
