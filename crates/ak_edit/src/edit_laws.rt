// What follows for every caller from the contracts of an edit's end and of an undo.
ghost use Rattle.std.specs.Prelude.{◌≡◌, [], ◌∷◌, ℕ, ℤ, List};
ghost use Rattle.ak_base.specs.declared.heads.Conf.{Conf};
ghost use Rattle.ak_base.specs.declared.names.Name.{Name};
ghost use Rattle.ak_base.specs.declared.rows.Row.{Row};
ghost use Rattle.ak_keep.specs.Collections.{Collection};
ghost use Rattle.ak_keep.specs.Keepers.{Keeping};
ghost use Rattle.ak_merge.specs.EditBuilding.{unedited, with_conf, with_row, with_schema, with_tags, without_row};
ghost use Rattle.ak_merge.specs.Edits.{Admits, Edit};
ghost use Rattle.ak_merge.specs.Holdings.{row_under};
ghost use Rattle.ak_merge.specs.Undoing.{KeepsAll};
ghost use Rattle.ak_undo.specs.declared.steps.Step.{Step};
ghost use Rattle.ak_edit.specs.Ends.{IsFinished};
ghost use Rattle.ak_edit.specs.Overlays.{Overlay, conf_over, edit_of, put_over, removed_over, row_over, schema_over, tag_over, unchanged};
ghost use Rattle.ak_edit.specs.Undos.{SuitsNow};

/// What a change asks for is built as its calls say: nothing at first, then a row put or removed, settings, a tag, the
/// schema.
pub fn changes_build_edits()
    ensures none { (c : Collection) → edit_of unchanged c ≡ unedited c }
    ensures put { (c : Collection) (o : Overlay) (row : Row) → edit_of (put_over row o) c ≡ with_row row (edit_of o c) }
    ensures removed { (c : Collection) (o : Overlay) (name : Name) → edit_of (removed_over name o) c ≡ without_row name (edit_of o c) }
    ensures conf { (c : Collection) (o : Overlay) (conf : Conf) → edit_of (conf_over conf o) c ≡ with_conf conf (edit_of o c) }
    ensures tag { (c : Collection) (o : Overlay) (name : List ℕ) → edit_of (tag_over name o) c ≡ with_tags (name ∷ []) (edit_of o c) }
    ensures schema { (c : Collection) (o : Overlay) → edit_of (schema_over o) c ≡ with_schema (edit_of o c) }
{}

/// Two edits that ask for the same are one: under each name, of settings, tags and schema.
pub fn same_edits()
    ensures { (e f : Edit) → ((name : Name) → e.rows name ≡ f.rows name) → e.conf ≡ f.conf → e.tags ≡ f.tags → e.schema ≡ f.schema → e ≡ f }
{}

/// For the proofs of callers alone: what a change asks for under each name is what it noted, and else what is held.
pub fn noted_rows_stand_over_held_ones()
    ensures { (c : Collection) (o : Overlay) (name : Name) → (edit_of o c).rows name ≡ row_over o (row_under c) name }
{}

/// What a finished edit keeps, if it was admitted: names, graves, links with servers, that steps fit them.
pub fn finished_edits_keep_all()
    ensures { (at : ℤ) (c : Collection) (edit : Edit) (k l : Keeping) (steps left : List Step) → (is : IsFinished at c edit k l steps left) → Admits c edit → KeepsAll at c edit is.after }
{}

/// The undo list that suited the collection before a finished edit suits it after.
pub fn finished_lists_suit()
    ensures { (at : ℤ) (c : Collection) (edit : Edit) (k l : Keeping) (steps left : List Step) → (is : IsFinished at c edit k l steps left) → Admits c edit → SuitsNow steps c → SuitsNow left is.after }
{}
