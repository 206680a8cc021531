// What follows for every caller from the rules of the calls on the paths of decks: their edits are admitted, so each keeps links with
// servers, and the undo list suits what it leaves.
ghost use Rattle.std.specs.Prelude.{ℕ, ℤ, List};
ghost use Rattle.ak_base.specs.declared.decks.Deck.{Deck};
ghost use Rattle.ak_keep.specs.Collections.{Collection};
ghost use Rattle.ak_merge.specs.Edits.{Admits};
ghost use Rattle.ak_merge.specs.Holdings.{AreNamed, row_under};
ghost use Rattle.ak_deck_paths.specs.Additions.{AreAdded, addition};
ghost use Rattle.ak_deck_paths.specs.Renames.{AreMadeAbove, renaming};

/// The edit that adds a deck is admitted.
pub fn deck_additions_are_admitted()
    ensures { (at : ℤ) (path : List ℕ) (made : List Deck) (c : Collection) → AreNamed (row_under c)
        → AreAdded at path c.rows made → Admits c (addition made c) }
{}

/// The edit that renames a deck with its subtree is admitted.
pub fn deck_renames_are_admitted()
    ensures { (at : ℤ) (old new : List ℕ) (made : List Deck) (c : Collection) → AreNamed (row_under c)
        → AreMadeAbove at new c.rows made → Admits c (renaming old new made c) }
{}
