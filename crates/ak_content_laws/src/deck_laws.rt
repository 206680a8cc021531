// What the calls on decks keep.
ghost use Rattle.std.specs.Prelude.{◌≡◌, Result, Some, ℕ, ℤ, List};
ghost use Rattle.ak_base.specs.declared.decks.Deck.{Deck};
ghost use Rattle.ak_content_laws.specs.KeptContents.{MovesDecks};
ghost use Rattle.ak_content_laws.specs.SoundCalls.{EndsOrStays, HoldsSound};
ghost use Rattle.ak_deck_paths.specs.Additions.{DoesAdd};
ghost use Rattle.ak_deck_paths.specs.Renames.{DoesRename, IsMoved};
ghost use Rattle.ak_deck_trees.specs.DeckDeletions.{RefusesDeckDeletion, deck_deletion};
ghost use Rattle.ak_decks.specs.DeckOptions.{RefusesUse, options_use};
ghost use Rattle.ak_edit.specs.declared.desk_faults.DeskFault.{DeskFault};
ghost use Rattle.ak_edit_calls.specs.Calls.{EndsEdit};
ghost use Rattle.ak_edit_calls.specs.DeckPaths.{path_at};
ghost use Rattle.ak_keep.specs.Collections.{Collection};
ghost use Rattle.ak_keep.specs.Keepers.{Keeping};
ghost use Rattle.ak_keep.specs.Lookups.{deck_at};
ghost use Rattle.ak_undo.specs.declared.steps.Step.{Step};

/// A call that adds a deck, accepted or refused, keeps what is held sound, and each undo.
pub fn added_decks_keep_sound()
    ensures { (at : ℤ) (path : List ℕ) (before now : Keeping) (steps left : List Step) (result : Result ℤ DeskFault)
        → EndsOrStays (DoesAdd at path before now steps left) before now steps left result → HoldsSound before steps → HoldsSound now left }
{}

/// So does one that renames a deck with its subtree.
pub fn renamed_decks_keep_sound()
    ensures { (at deck : ℤ) (path : List ℕ) (before now : Keeping) (steps left : List Step) (result : Result (Unit {0}) DeskFault)
        → EndsOrStays (λ _. DoesRename at deck path before now steps left) before now steps left result → HoldsSound before steps
        → HoldsSound now left }
{}

/// So does one that deletes a deck with its subtree, the cards there and the notes that have no other cards.
pub fn deleted_decks_keep_sound()
    ensures { (at deck : ℤ) (before now : Keeping) (steps left : List Step) (result : Result (Unit {0}) DeskFault)
        → EndsEdit at (deck_deletion deck) (RefusesDeckDeletion at deck) before now steps left result → HoldsSound before steps
        → HoldsSound now left }
{}

/// So does one that gives a deck other options.
pub fn option_uses_keep_sound()
    ensures { (at options deck : ℤ) (before now : Keeping) (steps left : List Step) (result : Result (Unit {0}) DeskFault)
        → EndsEdit at (options_use options deck) (RefusesUse at options deck) before now steps left result → HoldsSound before steps
        → HoldsSound now left }
{}

/// A deck that was renamed stands under its new path, and the decks of its subtree under theirs. Every other deck is as it was.
pub fn renamed_decks_stand_under_their_paths()
    ensures subtree { (at : ℤ) (old new : List ℕ) (c : Collection) (before now : Keeping) (steps left : List Step)
        → (is : IsMoved at old new c before now steps left) → MovesDecks old new c is.done.after }
    ensures own { (at deck : ℤ) (path : List ℕ) (c : Collection) (before now : Keeping) (steps left : List Step) (was : Deck)
        → deck_at c.rows deck ≡ Some was → (is : IsMoved at (path_at c.rows deck) path c before now steps left)
        → (own : Deck) × (deck_at is.done.after.rows deck ≡ Some own) × (own.name ≡ path) }
{}
