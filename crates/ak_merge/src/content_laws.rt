// What depends on content alone.
ghost use Rattle.std.specs.Prelude.{◌≡◌, IsTrue};
ghost use Rattle.std.specs.FinMap.{get};
ghost use Rattle.ak_base.specs.declared.names.Name.{Name};
ghost use Rattle.ak_base.specs.declared.names.Table.{Table};
ghost use Rattle.ak_keep.specs.Collections.{Rows, row_count};
ghost use Rattle.ak_keep.specs.Graves.{RowsByName};
ghost use Rattle.ak_merge.specs.Holdings.{Content, same_held, SameContent};
ghost use Rattle.ak_merge.specs.Soundness.{IsSound};

/// To have one content is an equivalence.
pub fn contents_are_equivalent()
    ensures itself { (c : Content) → SameContent c c }
    ensures turned { (a b : Content) → SameContent a b → SameContent b a }
    ensures through { (a b c : Content) → SameContent a b → SameContent b c → SameContent a c }
{}

/// So it is of the rows alone, under each name.
pub fn rows_are_equivalent()
    ensures itself { (a : RowsByName) → (name : Name) → IsTrue (same_held (a name) (a name)) }
    ensures turned { (a b : RowsByName) → ((name : Name) → IsTrue (same_held (a name) (b name))) → (name : Name) → IsTrue (same_held (b name) (a name)) }
    ensures through { (a b c : RowsByName) → ((name : Name) → IsTrue (same_held (a name) (b name))) → ((name : Name) → IsTrue (same_held (b name) (c name))) → (name : Name) → IsTrue (same_held (a name) (c name)) }
{}

/// What has the content of a sound collection is sound.
pub fn sound_by_content()
    ensures { (a b : RowsByName) → ((name : Name) → IsTrue (same_held (a name) (b name))) → IsSound a → IsSound b }
{}

/// Of one content each table has as many rows.
pub fn counts_by_content()
    ensures { (a b : Rows) → ((name : Name) → IsTrue (same_held (get a name) (get b name))) → (table : Table) → row_count table a ≡ row_count table b }
{}
