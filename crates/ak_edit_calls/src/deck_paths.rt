ghost use Rattle.std.specs.Prelude.{◌≡◌};
ghost use Rattle.ak_edit_calls.specs.DeckPaths.{path_of};

use ak_base::Row;

/// The path of a deck: its name. Other rows have the empty one.
pub fn path_of(row: &Row) -> &str
    ensures { result.now ≡ path_of row.now }
{
    match row {
        Row::Deck(deck) => deck.name.as_str(),
        _ => "",
    }
}
