// A page of a table: the rows that are held, by ascending id.
ghost use Rattle.std.specs.Prelude.{◌≡◌, [], ◌++◌, filter, take, IfOk, OnOk};
ghost use Rattle.std.specs.BTreeMap.{IsOrdered};
ghost use Rattle.std.specs.BTreeMap.Range.{entries_between};
ghost use Rattle.std.specs.Option.{option_to_list};
ghost use Rattle.std.specs.declared.ops.Bound.TheVariants.{Excluded, Unbounded};
ghost use Rattle.ak_base.specs.Names.{name_cmp};
ghost use Rattle.ak_keep.specs.Pages.{is_picked};
ghost use Rattle.ak_memory.specs.HeldRows.{held_row};
ghost use Rattle.ak_memory.specs.Places.{held_run, row_at};
ghost use Rattle.ak_memory.specs.declared.versions.Version.TheVariants.{Now};

use crate::by_name::Places;
use crate::held_rows::HeldRow;
use crate::places::Place;
use ak_base::{List, Memory, Name, Row};
use ak_keep::Wanted;
use std::ops::Bound;

/// The rows of the table of `past` that are held and come after it, or the wanted of them, up to `limit`. They are put into an
/// empty page, which may have room for them.
pub(crate) fn page_of(
    empty: List<Row>,
    places: &Places,
    want: &Option<Wanted>,
    past: &Name,
    limit: usize,
) -> Result<List<Row>, Memory>
    requires { empty ≡ [] }
    ensures rows { IfOk result (λ page. page ≡ take limit (filter (is_picked want.now) (held_run past.now.table (entries_between name_cmp (Excluded past.now) Unbounded places.now.entries)))) }
    ensures ordered { IsOrdered name_cmp places.now }
{
    let mut page = empty;
    for (name, place) in places.range((Bound::Excluded(*past), Bound::Unbounded)) {
        if page.as_slice().len() == limit {
            return Ok(page);
        }
        if name.table.place() != past.table.place() {
            return Ok(page);
        }
        push_picked(&mut page, want, place)?;
    }
    Ok(page)
}

/// Adds a copy of the row that the place holds, if there is one and the page takes it.
fn push_picked(page: &mut List<Row>, want: &Option<Wanted>, place: &Place) -> Result<(), Memory>
    ensures ok { OnOk result (page.new ≡ page.old ++ filter (is_picked want.now) (option_to_list (row_at Now place.now))) }
{
    if let Some(row) = place.row() {
        if is_picked(want, row) {
            let copy = row.copy()?;
            return page.push(copy);
        }
    }
    Ok(())
}

/// Whether a page takes the row: any row, or the wanted ones.
fn is_picked(want: &Option<Wanted>, row: &HeldRow) -> bool
    ensures { result ≡ is_picked want.now (held_row row.now) }
{
    match want {
        Some(Wanted::Unsent) => row.usn() == -1,
        Some(Wanted::From(usn)) => row.usn() >= *usn,
        None => true,
    }
}
