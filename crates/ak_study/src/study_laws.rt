// What follows for every caller from the rules of the calls.
ghost use Rattle.std.specs.Prelude.{ℤ, List};
ghost use Rattle.ak_base.specs.declared.days.Day.{Day};
ghost use Rattle.ak_edit_calls.specs.CardEdits.{card_edit};
ghost use Rattle.ak_keep.specs.Collections.{Collection};
ghost use Rattle.ak_merge.specs.Edits.{Admits};
ghost use Rattle.ak_merge.specs.Holdings.{AreNamed, row_under};
ghost use Rattle.ak_study.specs.Answers.{IsAnswering, answer_edit};
ghost use Rattle.ak_study.specs.CardPlaces.{buried_by_hand, suspended, unsuspended};
ghost use Rattle.ak_study.specs.DayStarts.{day_start};
ghost use Rattle.ak_study.specs.declared.answerings.Answering.{Answering};
ghost use Rattle.ak_study.specs.declared.answers.CardAnswer.{CardAnswer};

/// The edit that starts a day is admitted, so it keeps links with servers and that the undo list suits.
pub fn day_starts_are_admitted()
    ensures { (day : Day) (c : Collection) → AreNamed (row_under c) → Admits c (day_start day c) }
{}

/// The edits that set cards aside and bring them back are admitted, so they keep links with servers and that the undo list suits.
pub fn card_places_are_admitted()
    ensures suspended { (cards : List ℤ) (c : Collection)
        → AreNamed (row_under c) → Admits c (card_edit suspended cards c) }
    ensures unsuspended { (cards : List ℤ) (c : Collection)
        → AreNamed (row_under c) → Admits c (card_edit unsuspended cards c) }
    ensures buried { (cards : List ℤ) (c : Collection)
        → AreNamed (row_under c) → Admits c (card_edit buried_by_hand cards c) }
{}

/// The edit that answers a card is admitted in the same way.
pub fn answers_are_admitted()
    ensures { (at : ℤ) (given : CardAnswer) (day : Day) (a : Answering) (c : Collection) → AreNamed (row_under c)
        → IsAnswering at day given c a → Admits c (answer_edit day a c) }
{}
