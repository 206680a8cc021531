// Which of the decks has a path.
ghost use Rattle.std.specs.Prelude.{◌≡◌};
ghost use Rattle.ak_deck_paths.specs.DeckPaths.{first_id, has_path, is_in_way, any_has_path};

use ak_base::{Deck, is_in_subtree};

/// Whether one of the decks has the path.
pub(crate) fn any_has_path(decks: &[Deck], path: &str) -> bool
    ensures { result ≡ any_has_path decks.now path.now }
{
    for deck in decks {
        if deck.name.as_str() == path {
            return true;
        }
    }
    false
}

/// The id of the first of the decks that has the path.
pub(crate) fn id_of_path(decks: &[Deck], path: &str) -> Option<i64>
    ensures { result ≡ first_id (has_path path.now) decks.now }
{
    for deck in decks {
        if deck.name.as_str() == path {
            return Some(deck.id);
        }
    }
    None
}

/// The id of the first of the decks that is outside the subtree of the old path and has the path of one that moves.
pub(crate) fn id_in_way(decks: &[Deck], old: &str, moved: &[Deck]) -> Option<i64>
    ensures { result ≡ first_id (is_in_way old.now moved.now) decks.now }
{
    for deck in decks {
        if is_in_way(deck, old, moved) {
            return Some(deck.id);
        }
    }
    None
}

/// Whether the deck is outside the subtree of the old path and has the path of one that moves.
fn is_in_way(deck: &Deck, old: &str, moved: &[Deck]) -> bool
    ensures { result ≡ is_in_way old.now moved.now deck.now }
{
    !is_in_subtree(old, deck.name.as_str()) && any_has_path(moved, deck.name.as_str())
}
