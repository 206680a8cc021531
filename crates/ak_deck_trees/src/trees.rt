// What belongs to the subtree of a deck.
ghost use Rattle.std.specs.Prelude.{◌≡◌};
ghost use Rattle.std.specs.List.{list_all};
ghost use Rattle.ak_deck_trees.specs.Trees.{are_in_tree, goes_with, is_card_in_tree, is_held_in_tree, is_in_tree};
ghost use Rattle.ak_keep.specs.Collections.{cards_of};
ghost use Rattle.ak_keep.specs.Readings.{ReadsBy};

use ak_base::{Card, Note, Row, is_in_subtree};
use ak_keep::{KeepFault, Lookup, card_at, deck_at};

/// Whether a row goes with the subtree of a path: a deck of it, a card in such a deck, or a note that has cards and all of
/// them there.
pub(crate) fn goes_with<R: Lookup>(from: &mut R, root: &str, row: &Row) -> Result<bool, KeepFault>
    ensures reads { ReadsBy R.Lookup from.old from.new result (λ h goes. goes ≡ goes_with root.now h.rows row.now) }
{
    match row {
        Row::Deck(deck) => Ok(is_in_subtree(root, deck.name.as_str())),
        Row::Card(card) => is_of_tree(from, root, card),
        Row::Note(note) => has_all_in_tree(from, root, note),
        _ => Ok(false),
    }
}

/// Whether the card's deck is held and is in the subtree of the path.
fn is_of_tree<R: Lookup>(from: &mut R, root: &str, card: &Card) -> Result<bool, KeepFault>
    ensures reads { ReadsBy R.Lookup from.old from.new result (λ h is. is ≡ is_in_tree root.now h.rows card.now.did) }
{
    is_in_tree(from, root, card.did)
}

/// Whether a deck of this id is held and is in the subtree of the path.
pub(crate) fn is_in_tree<R: Lookup>(from: &mut R, root: &str, id: i64) -> Result<bool, KeepFault>
    ensures reads { ReadsBy R.Lookup from.old from.new result (λ h is. is ≡ is_in_tree root.now h.rows id) }
{
    match deck_at(from, id)? {
        Some(deck) => Ok(is_in_subtree(root, deck.name.as_str())),
        None => Ok(false),
    }
}

/// Whether the note has cards, and all of them are in decks of the subtree of the path.
fn has_all_in_tree<R: Lookup>(from: &mut R, root: &str, note: &Note) -> Result<bool, KeepFault>
    ensures reads { ReadsBy R.Lookup from.old from.new result
        (λ h all. all ≡ are_in_tree root.now h.rows (cards_of note.now.id h.rows)) }
{
    let cards = from.cards_of(note.id)?;
    if cards.as_slice().is_empty() {
        return Ok(false);
    }
    all_in_tree(from, root, cards.as_slice())
}

/// Whether all cards of these ids are held, in decks of the subtree of the path.
fn all_in_tree<R: Lookup>(from: &mut R, root: &str, cards: &[i64]) -> Result<bool, KeepFault>
    ensures reads { ReadsBy R.Lookup from.old from.new result
        (λ h all. all ≡ list_all (is_card_in_tree root.now h.rows) cards.now) }
{
    for card in cards {
        if !is_card_in_tree(from, root, card)? {
            return Ok(false);
        }
    }
    Ok(true)
}

/// Whether a card of this id is held, and its deck is in the subtree of the path. The id comes behind a reference since the
/// proof of a loop reads it so as it is.
fn is_card_in_tree<R: Lookup>(from: &mut R, root: &str, id: &i64) -> Result<bool, KeepFault>
    ensures reads { ReadsBy R.Lookup from.old from.new result (λ h is. is ≡ is_card_in_tree root.now h.rows id.now) }
{
    let card = card_at(from, *id)?;
    is_held_in_tree(from, root, card)
}

/// Whether the card is held, and its deck is in the subtree of the path.
fn is_held_in_tree<R: Lookup>(
    from: &mut R,
    root: &str,
    card: Option<Card>,
) -> Result<bool, KeepFault>
    ensures reads { ReadsBy R.Lookup from.old from.new result (λ h is. is ≡ is_held_in_tree root.now h.rows card) }
{
    match card {
        Some(card) => is_of_tree(from, root, &card),
        None => Ok(false),
    }
}
