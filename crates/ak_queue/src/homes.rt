// The paths of decks by their ids.
ghost use Rattle.std.specs.Prelude.{◌≡◌, ℤ, IfOk, OnOk};
ghost use Rattle.std.specs.BTreeMap.{get};
ghost use Rattle.std.specs.Ordering.{int_cmp};
ghost use Rattle.ak_queue.specs.Homes.{parts_at};
ghost use Rattle.ak_queue.specs.Scopes.{AddsHome};

use crate::paths::Path;
use ak_base::{Deck, Memory};
use std::alloc::Global;
use std::collections::BTreeMap;

/// The paths of the decks, by their ids.
pub(crate) fn homes_of(alloc: Global, decks: &[Deck]) -> Result<BTreeMap<i64, Path>, Memory>
    ensures { IfOk result (λ homes. (id : ℤ) → get int_cmp homes id ≡ parts_at decks.now id) }
{
    let mut homes = BTreeMap::new(alloc);
    let mut rest = decks;
    while let Some((deck, others)) = rest.split_first() {
        add_home(alloc, &mut homes, deck)?;
        rest = others;
    }
    Ok(homes)
}

/// Adds the path of a deck, if none of its id is held.
fn add_home(alloc: Global, homes: &mut BTreeMap<i64, Path>, deck: &Deck) -> Result<(), Memory>
    ensures { OnOk result (AddsHome deck.now homes.old homes.new) }
{
    if homes.contains_key(&deck.id) {
        return Ok(());
    }
    let path = Path::of(alloc, deck.name.as_str())?;
    homes.insert(deck.id, path)?;
    Ok(())
}
