// What the calls on filtered decks keep. They clear the undo list.
ghost use Rattle.std.specs.Prelude.{Result, ℕ, ℤ, Bool, List};
ghost use Rattle.ak_content_laws.specs.SoundCalls.{EndsOrStays, HoldsSound};
ghost use Rattle.ak_edit.specs.declared.desk_faults.DeskFault.{DeskFault};
ghost use Rattle.ak_filtered.specs.Builds.{IsBuilt};
ghost use Rattle.ak_filtered.specs.Emptyings.{EndsEmptied, IsEmptied, filtered_below};
ghost use Rattle.ak_filtered.specs.HomeGoings.{EndsSending};
ghost use Rattle.ak_filtered.specs.MadeDecks.{IsMade};
ghost use Rattle.ak_filtered.specs.declared.deck_makings.NewFiltered.{NewFiltered};
ghost use Rattle.ak_filtered.specs.declared.faults.FilteredFault.{FilteredFault};
ghost use Rattle.ak_keep.specs.Keepers.{Keeping, WhereHeld};
ghost use Rattle.ak_undo.specs.declared.steps.Step.{Step};

/// A call that makes a filtered deck, accepted or refused, keeps what is held sound.
pub fn made_decks_keep_sound()
    ensures { (at : ℤ) (given : NewFiltered) (before now : Keeping) (steps left : List Step) (result : Result ℤ FilteredFault)
        → EndsOrStays (λ id. WhereHeld before (λ c. IsMade at given c before now left id)) before now steps left result
        → HoldsSound before steps → HoldsSound now left }
{}

/// So does one that builds a filtered deck.
pub fn built_decks_keep_sound()
    ensures { (at deck : ℤ) (before now : Keeping) (steps left : List Step) (result : Result ℕ FilteredFault)
        → EndsOrStays (λ count. WhereHeld before (λ c. IsBuilt at deck c before now left count)) before now steps left result
        → HoldsSound before steps → HoldsSound now left }
{}

/// So does one that empties it.
pub fn emptied_decks_keep_sound()
    ensures { (at deck : ℤ) (before now : Keeping) (steps left : List Step) (result : Result ℕ FilteredFault)
        → EndsOrStays (λ count. WhereHeld before (λ c. IsEmptied at deck c before now left count)) before now steps left result
        → HoldsSound before steps → HoldsSound now left }
{}

/// So does one that empties the filtered decks in a subtree, however far it came.
pub fn emptied_subtrees_keep_sound()
    ensures { (at deck : ℤ) (before now : Keeping) (steps left : List Step) (result : Result (Unit {0}) DeskFault)
        → WhereHeld before (λ c. EndsEmptied at (filtered_below deck c.rows) before now steps left result)
        → HoldsSound before steps → HoldsSound now left }
{}

/// So does one that sends cards home.
pub fn sent_cards_keep_sound()
    ensures { (at : ℤ) (cards : List ℤ) (before now : Keeping) (steps left : List Step) (result : Result Bool DeskFault)
        → WhereHeld before (λ c. EndsSending at cards c before now steps left result) → HoldsSound before steps → HoldsSound now left }
{}
