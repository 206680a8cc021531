ghost use Rattle.std.specs.Prelude.{◌≡◌, IfOk, OnOk};
ghost use Rattle.ak_edit.specs.Overlays.{unchanged};
ghost use Rattle.ak_deck_paths.specs.ChangedDecks.{changed_over, decks_over};

use ak_base::{Deck, List, Memory, Row};
use ak_edit::Change;
use std::alloc::Global;

/// The decks that a call puts: those that move, with their new paths, and those that it makes.
#[derive(Drop)]
pub(crate) struct ChangedDecks {
    pub(crate) moved: List<Deck>,
    pub(crate) made: List<Deck>,
}

/// The edit that puts the decks.
pub(crate) fn change_of(alloc: Global, decks: ChangedDecks) -> Result<Change, Memory>
    ensures { IfOk result (λ change. change ≡ changed_over decks unchanged) }
{
    let ChangedDecks { moved, made } = decks;
    let mut change = Change::new(alloc);
    put_decks(&mut change, moved.into_vec())?;
    put_decks(&mut change, made.into_vec())?;
    Ok(change)
}

/// Puts each of the decks, in their order. Only memory can fail.
pub fn put_decks(change: &mut Change, decks: Vec<Deck>) -> Result<(), Memory>
    ensures { OnOk result (change.new ≡ decks_over decks.items change.old) }
{
    for deck in decks {
        change.put(Row::Deck(deck))?;
    }
    Ok(())
}
