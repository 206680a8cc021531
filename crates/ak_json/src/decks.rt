ghost use Rattle.std.specs.Prelude.{◌≡◌, None, IfOk, IfErr};
ghost use Rattle.serde_json.specs.View.{view};
ghost use Rattle.ak_json.specs.Faults.{Tells};
ghost use Rattle.ak_json.specs.Decks.{IsDeck, deck_json};
ghost use Rattle.ak_json.specs.Rests.{deep_key};
ghost use Rattle.ak_json.specs.Forms.{deck_form};

use crate::JsonFault;
use crate::cells::{count_at, integer_at, text_at};
use crate::forms::DECK;
use crate::rests::{read_rest, write_object};
use crate::written::Cell;
use ak_base::{Deck, Memory};
use serde_json::Value;
use std::alloc::Global;

/// The deck of an object of its form.
pub(crate) fn deck_of(alloc: Global, value: &Value) -> Result<Deck, JsonFault>
    ensures ok { IfOk result (IsDeck (view value.now)) }
    ensures plain { IfOk result (λ made. deep_key deck_form (view value.now) ≡ None) }
    ensures err { IfErr result (Tells (deep_key deck_form (view value.now))) }
{
    let rest = read_rest(alloc, &DECK, value)?;
    let name = text_at(alloc, &DECK, 3, value)?;
    Ok(Deck {
        id: integer_at(&DECK, 0, value),
        stamp: integer_at(&DECK, 1, value),
        usn: integer_at(&DECK, 2, value),
        name,
        options: integer_at(&DECK, 4, value),
        filtered: integer_at(&DECK, 5, value) == 1,
        new_today: count_at(&DECK, 6, value),
        rev_today: count_at(&DECK, 7, value),
        rest,
    })
}

/// The object of a deck.
pub(crate) fn write_deck(alloc: Global, deck: &Deck) -> Result<Value, Memory>
    ensures { IfOk result (λ value. view value ≡ deck_json deck.now) }
{
    write_object(
        alloc,
        &DECK,
        &[
            Cell::Integer(deck.id),
            Cell::Integer(deck.stamp),
            Cell::Integer(deck.usn),
            Cell::Text(&deck.name),
            Cell::Integer(deck.options),
            Cell::Bit(deck.filtered),
            Cell::Pair(deck.new_today),
            Cell::Pair(deck.rev_today),
        ],
        &deck.rest,
    )
}
