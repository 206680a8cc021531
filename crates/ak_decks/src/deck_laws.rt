// What follows for every caller from the rules of the calls on cards and decks.
ghost use Rattle.std.specs.Prelude.{ℤ, List};
ghost use Rattle.ak_decks.specs.DeckOptions.{options_use};
ghost use Rattle.ak_decks.specs.Flags.{flagging};
ghost use Rattle.ak_decks.specs.Moves.{moving};
ghost use Rattle.ak_keep.specs.Collections.{Collection};
ghost use Rattle.ak_merge.specs.Edits.{Admits};
ghost use Rattle.ak_merge.specs.Holdings.{AreNamed, row_under};

/// The edit that gives cards a flag is admitted, so it keeps links with servers and that the undo list suits.
pub fn flag_edits_are_admitted()
    ensures { (value : ℤ) (cards : List ℤ) (c : Collection) → AreNamed (row_under c)
        → Admits c (flagging value cards c) }
{}

/// The edit that moves cards is admitted in the same way.
pub fn moves_are_admitted()
    ensures { (deck : ℤ) (cards : List ℤ) (c : Collection) → AreNamed (row_under c)
        → Admits c (moving deck cards c) }
{}

/// The edit that gives a deck other options is admitted in the same way.
pub fn option_uses_are_admitted()
    ensures { (options deck : ℤ) (c : Collection) → AreNamed (row_under c)
        → Admits c (options_use options deck c) }
{}
