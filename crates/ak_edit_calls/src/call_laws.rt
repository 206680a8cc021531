// What follows for every caller from the rules of the calls.
ghost use Rattle.std.specs.Prelude.{ℤ, List};
ghost use Rattle.ak_base.specs.declared.cards.Card.{Card};
ghost use Rattle.ak_base.specs.declared.names.Name.{Name};
ghost use Rattle.ak_base.specs.declared.rows.Row.{Row};
ghost use Rattle.ak_edit_calls.specs.CardEdits.{KeepsIds, card_edit};
ghost use Rattle.ak_edit_calls.specs.RowEdits.{MayChange, row_change, row_edit};
ghost use Rattle.ak_keep.specs.Collections.{Collection};
ghost use Rattle.ak_merge.specs.EditBuilding.{MayPut};
ghost use Rattle.ak_merge.specs.Edits.{Admits};
ghost use Rattle.ak_merge.specs.Holdings.{AreNamed, row_under};

/// An edit that changes cards one by one is admitted, so it keeps links with servers and that the undo list suits.
pub fn card_edits_are_admitted()
    ensures { (change : Card → Card) (cards : List ℤ) (c : Collection) → KeepsIds change → AreNamed (row_under c)
        → Admits c (card_edit change cards c) }
{}

/// An edit that changes the row of one name is admitted in the same way.
pub fn row_changes_are_admitted()
    ensures { (name : Name) (change : Row → Row) (c : Collection) → MayChange name change → AreNamed (row_under c)
        → Admits c (row_change name change c) }
{}

/// An edit that puts a row is admitted if the row may be put.
pub fn row_edits_are_admitted()
    ensures { (row : Row) (c : Collection) → MayPut c row → AreNamed (row_under c) → Admits c (row_edit row c) }
{}
