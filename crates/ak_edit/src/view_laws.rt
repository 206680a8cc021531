// What a view of an edit under way shows of what the edit leaves.
ghost use Rattle.std.specs.Prelude.{◌≡◌, ℤ, negsuc};
ghost use Rattle.std.specs.FinMap.{get};
ghost use Rattle.ak_base.specs.declared.names.Name.{Name};
ghost use Rattle.ak_keep.specs.Collections.{Collection, cards_of};
ghost use Rattle.ak_merge.specs.Edits.{Admits, IsEdited};
ghost use Rattle.ak_merge.specs.Holdings.{AreNamed, row_under};
ghost use Rattle.ak_merge.specs.Tags.{tags_taken};
ghost use Rattle.ak_edit.specs.Overlays.{Overlay, edit_of};
ghost use Rattle.ak_edit.specs.Views.{head_over, rows_over};

/// A view shows what the edit asks for: under each name, and in the settings and tags of the head. A note has the cards that
/// it has after the edit's end.
pub fn views_show_what_edits_leave()
    ensures rows { (o : Overlay) (c : Collection) (name : Name) → get (rows_over o c.rows) name ≡ (edit_of o c).rows name }
    ensures conf { (o : Overlay) (c : Collection) → (head_over o c.head).conf ≡ (edit_of o c).conf }
    ensures tags { (o : Overlay) (c : Collection) → (head_over o c.head).tags ≡ tags_taken (negsuc 0) (edit_of o c).tags c.head.tags }
    ensures cards { (at note : ℤ) (o : Overlay) (c after : Collection) → AreNamed (row_under c) → Admits c (edit_of o c) → IsEdited at c (edit_of o c) after → cards_of note (rows_over o c.rows) ≡ cards_of note after.rows }
{}
