// The decks that are held.
ghost use Rattle.std.specs.Prelude.{◌≡◌, ◌++◌, ◌∷◌, [], OnOk};
ghost use Rattle.std.specs.List.{filter_map};
ghost use Rattle.ak_keep.specs.Lookups.{as_deck, decks_in};
ghost use Rattle.ak_keep.specs.Readings.{ReadsBy};

use crate::keepers::KeepFault;
use crate::readables::Readable;
use crate::walks::Walk;
use ak_base::{Deck, List, Memory, Row, Table};
use std::alloc::Global;

/// The decks that are held, by ascending id.
pub fn read_decks<R: Readable>(alloc: Global, from: &mut R) -> Result<List<Deck>, KeepFault>
    ensures reads { ReadsBy R.Lookup from.old from.new result (λ h decks. decks ≡ decks_in h.rows) }
{
    let mut decks = List::new(alloc);
    let mut walk = Walk::over(Table::Deck);
    'pages: while !walk.is_done() {
        let page = walk.next(from)?;
        take_rows(page.as_slice(), &mut decks)?;
    }
    Ok(decks)
}

/// Adds the decks among the rows.
fn take_rows(rows: &[Row], decks: &mut List<Deck>) -> Result<(), Memory>
    ensures { OnOk result (decks.new ≡ decks.old ++ filter_map as_deck rows.now) }
{
    let mut rest = rows;
    while let Some((row, others)) = rest.split_first() {
        take_row(row, decks)?;
        rest = others;
    }
    Ok(())
}

/// Adds the row, if it is a deck.
fn take_row(row: &Row, decks: &mut List<Deck>) -> Result<(), Memory>
    ensures { OnOk result (decks.new ≡ decks.old ++ filter_map as_deck (row.now ∷ [])) }
{
    match row {
        Row::Deck(deck) => {
            let copy = deck.copy()?;
            decks.push(copy)
        }
        _ => Ok(()),
    }
}
