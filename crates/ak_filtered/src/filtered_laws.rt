// What follows for every caller from the rules of filtered decks.
ghost use Rattle.std.specs.Prelude.{◌≡◌, ◌∷◌, [], false, Some, ℕ, ℤ, List};
ghost use Rattle.ak_base.specs.declared.decks.Deck.{Deck};
ghost use Rattle.ak_deck_paths.specs.Additions.{addition};
ghost use Rattle.ak_filtered.specs.Builds.{IsBuilt, building};
ghost use Rattle.ak_filtered.specs.ClearedEdits.{IsCleared};
ghost use Rattle.ak_filtered.specs.Emptyings.{IsEmptied, emptying};
ghost use Rattle.ak_filtered.specs.HomeDecks.{sending_home};
ghost use Rattle.ak_filtered.specs.UnmovedCards.{AreAllUnmoved};
ghost use Rattle.ak_filtered.specs.MadeDecks.{ArePut};
ghost use Rattle.ak_filtered.specs.Plans.{IsPlan, plan_of, plan_text};
ghost use Rattle.ak_filtered.specs.declared.deck_makings.NewFiltered.{NewFiltered};
ghost use Rattle.ak_filtered.specs.declared.plans.Plan.{Plan};
ghost use Rattle.ak_keep.specs.Collections.{Collection};
ghost use Rattle.ak_keep.specs.Keepers.{Keeping};
ghost use Rattle.ak_merge.specs.Edits.{Admits, Edit, IsEdited};
ghost use Rattle.ak_merge.specs.Holdings.{AreChecked, AreNamed, row_under};
ghost use Rattle.ak_merge.specs.Undoing.{IsBack, KeepsAll};
ghost use Rattle.ak_undo.specs.declared.steps.Step.{Step};

/// A deck that is built and then emptied leaves every row as it was, but for stamps and usns, and the tags and the
/// settings too, if before it every card lay in a deck that is held and noted no other deck and no other day.
pub fn what_is_built_and_emptied_is_back()
    // What the calls leave.
    ensures calls { (at later deck : ℤ) (c : Collection) (k l m : Keeping) (left end : List Step) (came went : ℕ) → (built : IsBuilt at deck c k l left came)
        → (emptied : IsEmptied later deck built.cleared.after l m end went) → AreAllUnmoved c → IsBack c emptied.cleared.after }

    // What their edits leave.
    ensures edits { (at later deck : ℤ) (chosen : List ℤ) (c built after : Collection) → AreNamed (row_under c) → AreChecked (row_under c)
        → AreAllUnmoved c → IsEdited at c (building deck chosen c) built → IsEdited later built (emptying deck built) after
        → IsBack c after }
{}

/// The text of a plan is read again as the plan.
pub fn plans_are_read_again()
    ensures { (plan : Plan) → IsPlan plan → plan_of (plan_text plan) ≡ Some plan }
{}

/// The edits of the calls are admitted, so each keeps links with servers.
pub fn filtered_edits_are_admitted()
    ensures home { (cards : List ℤ) (c : Collection) → AreNamed (row_under c) → Admits c (sending_home cards c) }
    ensures emptied { (deck : ℤ) (c : Collection) → AreNamed (row_under c) → Admits c (emptying deck c) }
    ensures built { (deck : ℤ) (chosen : List ℤ) (c : Collection) → AreNamed (row_under c) → Admits c (building deck chosen c) }
    ensures made { (at : ℤ) (given : NewFiltered) (decks : List Deck) (c : Collection) → AreNamed (row_under c)
        → ArePut at given c.rows decks → Admits c (addition decks c) }
{}

/// What an edit that clears the undo list keeps, if it was admitted: names, graves, links with servers.
pub fn cleared_edits_keep_all()
    ensures { (at : ℤ) (c : Collection) (edit : Edit) (k l : Keeping) (left : List Step) → (is : IsCleared at c edit k l left)
        → Admits c edit → KeepsAll at c edit is.after }
{}
