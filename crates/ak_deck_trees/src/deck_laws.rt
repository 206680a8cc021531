// What follows for every caller from the rules of the calls on trees of decks.
ghost use Rattle.std.specs.Prelude.{ℤ};
ghost use Rattle.ak_deck_trees.specs.DeckDeletions.{deck_deletion};
ghost use Rattle.ak_keep.specs.Collections.{Collection};
ghost use Rattle.ak_merge.specs.Edits.{Admits};
ghost use Rattle.ak_merge.specs.Holdings.{AreNamed, row_under};

/// The edit that deletes a deck is admitted, so it keeps links with servers and that the undo list suits.
pub fn deck_deletions_are_admitted()
    ensures { (deck : ℤ) (c : Collection) → AreNamed (row_under c) → Admits c (deck_deletion deck c) }
{}
