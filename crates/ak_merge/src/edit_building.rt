// Each way to build an edit keeps it admitted, and what an edit that is admitted keeps.
ghost use Rattle.std.specs.Prelude.{ℕ, ℤ, Bool, List};
ghost use Rattle.ak_base.specs.declared.heads.Conf.{Conf};
ghost use Rattle.ak_base.specs.declared.names.Name.{Name};
ghost use Rattle.ak_base.specs.declared.rows.Row.{Row};
ghost use Rattle.ak_keep.specs.Collections.{Collection};
ghost use Rattle.ak_merge.specs.EditBuilding.{unedited, with_row, without_row, without_rows, with_rows_mapped, with_tags, with_conf, with_schema, MayPut, MayRemove, MaySweep, MayMap};
ghost use Rattle.ak_merge.specs.Edits.{Edit, Admits};
ghost use Rattle.ak_merge.specs.Holdings.{row_under, AreNamed};
ghost use Rattle.ak_merge.specs.Undoing.{IsEdit, KeepsAll};

/// What an edit keeps: names, graves, links with servers, that steps fit them, and that the undo list suits.
pub fn edits_keep_all()
    ensures { (at : ℤ) (c after : Collection) (edit : Edit) → IsEdit at c edit after → AreNamed (row_under c) → KeepsAll at c edit after }
{}

/// The edit that leaves all as it is is admitted.
pub fn unedited_is_admitted()
    ensures { (c : Collection) → AreNamed (row_under c) → Admits c (unedited c) }
{}

/// An admitted edit stays so with a row put that is held, or is new under a name without a grave.
pub fn puts_are_admitted()
    ensures { (c : Collection) (edit : Edit) (row : Row) → Admits c edit → MayPut c row → Admits c (with_row row edit) }
{}

/// An admitted edit stays so with a row removed.
pub fn removals_are_admitted()
    ensures { (c : Collection) (edit : Edit) (gone : Name) → Admits c edit → MayRemove c edit.schema gone → Admits c (without_row gone edit) }
{}

/// An admitted edit stays so with all rows removed that meet a test.
pub fn sweeps_are_admitted()
    ensures { (c : Collection) (edit : Edit) (gone : Row → Bool) → Admits c edit → MaySweep edit.schema gone → Admits c (without_rows gone edit) }
{}

/// An admitted edit stays so with the rows of many names changed by one function.
pub fn maps_are_admitted()
    ensures { (c : Collection) (edit : Edit) (change : Row → Row) → Admits c edit → MayMap change → Admits c (with_rows_mapped change edit) }
{}

/// An admitted edit stays so with more tags.
pub fn tags_are_admitted()
    ensures { (c : Collection) (edit : Edit) (names : List (List ℕ)) → Admits c edit → Admits c (with_tags names edit) }
{}

/// An admitted edit stays so with other settings.
pub fn settings_are_admitted()
    ensures { (c : Collection) (edit : Edit) (conf : Conf) → Admits c edit → Admits c (with_conf conf edit) }
{}

/// An admitted edit stays so if it changes the schema too.
pub fn schema_changes_are_admitted()
    ensures { (c : Collection) (edit : Edit) → Admits c edit → Admits c (with_schema edit) }
{}
