// What the calls on cards keep, and answers.
ghost use Rattle.std.specs.Prelude.{Result, ℤ, List};
ghost use Rattle.ak_away_answers.specs.AwayAnswers.{EndsAnyAnswer};
ghost use Rattle.ak_base.specs.declared.cards.Card.{Card};
ghost use Rattle.ak_content_laws.specs.SoundCalls.{EndsOrStays, HoldsSound};
ghost use Rattle.ak_decks.specs.Flags.{RefusesFlag, flagging};
ghost use Rattle.ak_decks.specs.Moves.{RefusesMove, moving};
ghost use Rattle.ak_edit.specs.declared.desk_faults.DeskFault.{DeskFault};
ghost use Rattle.ak_edit_calls.specs.Calls.{EndsEdit};
ghost use Rattle.ak_edit_calls.specs.CardEdits.{RefusesCardEdit, card_edit};
ghost use Rattle.ak_keep.specs.Keepers.{Keeping, WhereHeld};
ghost use Rattle.ak_study.specs.Answers.{Answers};
ghost use Rattle.ak_study.specs.CardPlaces.{buried_by_hand, suspended, unsuspended};
ghost use Rattle.ak_study.specs.DayStarts.{StartsDay};
ghost use Rattle.ak_study.specs.declared.answers.CardAnswer.{CardAnswer};
ghost use Rattle.ak_undo.specs.declared.steps.Step.{Step};

/// A call that gives cards a flag, accepted or refused, keeps what is held sound, and each undo.
pub fn flags_keep_sound()
    ensures { (at value : ℤ) (cards : List ℤ) (before now : Keeping) (steps left : List Step) (result : Result (Unit {0}) DeskFault)
        → EndsEdit at (flagging value cards) (RefusesFlag at value cards) before now steps left result
        → HoldsSound before steps → HoldsSound now left }
{}

/// So does one that moves cards to a deck.
pub fn moves_keep_sound()
    ensures { (at deck : ℤ) (cards : List ℤ) (before now : Keeping) (steps left : List Step) (result : Result (Unit {0}) DeskFault)
        → EndsEdit at (moving deck cards) (RefusesMove at deck cards) before now steps left result
        → HoldsSound before steps → HoldsSound now left }
{}

/// So do those that set cards aside and bring them back.
pub fn places_keep_sound()
    ensures suspended { (at : ℤ) (cards : List ℤ) (before now : Keeping) (steps left : List Step) (result : Result (Unit {0}) DeskFault)
        → EndsEdit at (card_edit suspended cards) (RefusesCardEdit at suspended cards) before now steps left result
        → HoldsSound before steps → HoldsSound now left }
    ensures unsuspended { (at : ℤ) (cards : List ℤ) (before now : Keeping) (steps left : List Step) (result : Result (Unit {0}) DeskFault)
        → EndsEdit at (card_edit unsuspended cards) (RefusesCardEdit at unsuspended cards) before now steps left result
        → HoldsSound before steps → HoldsSound now left }
    ensures buried { (at : ℤ) (cards : List ℤ) (before now : Keeping) (steps left : List Step) (result : Result (Unit {0}) DeskFault)
        → EndsEdit at (card_edit buried_by_hand cards) (RefusesCardEdit at buried_by_hand cards) before now steps left result
        → HoldsSound before steps → HoldsSound now left }
{}

/// So does the start of a day.
pub fn day_starts_keep_sound()
    ensures { (at : ℤ) (before now : Keeping) (steps left : List Step) (result : Result (Unit {0}) DeskFault)
        → EndsOrStays (λ _. StartsDay at before now steps left) before now steps left result → HoldsSound before steps → HoldsSound now left }
{}

/// So does the answer of a card that is at home.
pub fn answers_keep_sound()
    ensures { (at : ℤ) (given : CardAnswer) (before now : Keeping) (steps left : List Step) (result : Result Card DeskFault)
        → EndsOrStays (Answers at given before now steps left) before now steps left result → HoldsSound before steps → HoldsSound now left }
{}

/// So does the answer of any card, also an early one, and one that is refused after the card went home.
pub fn any_answers_keep_sound()
    ensures { (at : ℤ) (given : CardAnswer) (before now : Keeping) (steps left : List Step) (result : Result Card DeskFault)
        → WhereHeld before (λ c. EndsAnyAnswer at given c before now steps left result) → HoldsSound before steps → HoldsSound now left }
{}
