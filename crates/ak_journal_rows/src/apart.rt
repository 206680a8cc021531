ghost use Rattle.std.specs.Prelude.{◌≡◌, ◌≢◌, is_some, map};
ghost use Rattle.std.specs.Bool.{Decides};
ghost use Rattle.std.specs.List.Sorted.{IsStrictlySortedBy};
ghost use Rattle.std.specs.declared.cmp.Ordering.TheVariants.{Less};
ghost use Rattle.ak_base.specs.Names.{name_cmp};
ghost use Rattle.ak_base.specs.Rows.{name_of};
ghost use Rattle.ak_base.specs.declared.names.Name.{Name as AnyName};
ghost use Rattle.ak_journal_rows.specs.Changes.{AreApart, row_put};
ghost use Rattle.ak_journal_rows.specs.Listed.{IsFrom};

use ak_base::{Name, Row};

/// Whether none of these rows has one of these names. Both ascend: it is one walk over the two.
pub(crate) fn are_apart(cut: &[Name], put: &[Row]) -> bool
    requires cut { IsStrictlySortedBy name_cmp cut.now }
    requires put { IsStrictlySortedBy name_cmp (map name_of put.now) }
    ensures { Decides result (AreApart put.now cut.now) }
{
    let mut names = cut;
    let mut rows = put;
    while let Some((name, behind)) = names.split_first() {
        rows = rows_from(rows, name);
        if is_first(rows, name) {
            return false;
        }
        names = behind;
    }
    true
}

/// The rows from this name on.
fn rows_from<'r>(rows: &'r [Row], name: &Name) -> &'r [Row]
    requires { IsStrictlySortedBy name_cmp (map name_of rows.now) }
    ensures ascend { IsStrictlySortedBy name_cmp (map name_of result.now) }
    ensures from { IsFrom name.now result.now }

    // Of the names from this one on they have the same rows.
    ensures same { (other : AnyName) → name_cmp other name.now ≢ Less → row_put result.now other ≡ row_put rows.now other }
{
    let mut rest = rows;
    while let Some((row, behind)) = rest.split_first() {
        if !is_before(row, name) {
            return rest;
        }
        rest = behind;
    }
    rest
}

/// Whether the row's name is before this one.
fn is_before(row: &Row, name: &Name) -> bool
    ensures { Decides result (name_cmp (name_of row.now) name.now ≡ Less) }
{
    row.name() < *name
}

/// Whether the first of the rows has this name.
fn is_first(rows: &[Row], name: &Name) -> bool
    requires ascend { IsStrictlySortedBy name_cmp (map name_of rows.now) }
    requires from { IsFrom name.now rows.now }
    ensures { result ≡ is_some (row_put rows.now name.now) }
{
    match rows.first() {
        Some(row) => *name == row.name(),
        None => false,
    }
}
