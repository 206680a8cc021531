// What an upload leaves of rows and tags, on the server and on the device.
ghost use Rattle.std.specs.Prelude.{◌≡◌, ◌++◌, ◌∷◌, [], IfOk, OnOk};
ghost use Rattle.ak_base.specs.Heads.{tag_names};
ghost use Rattle.ak_merge.specs.Commits.{uploaded_rows};

use ak_base::{List, Memory, Row, Tag, Text};
use std::alloc::Global;

/// Copies of the rows but the graves, each with the usn 0.
pub fn uploaded_rows(alloc: Global, came: &[Row]) -> Result<List<Row>, Memory>
    ensures { IfOk result (λ rows. rows ≡ uploaded_rows came.now) }
{
    let mut rows = List::new(alloc);
    for row in came {
        add_uploaded(&mut rows, row)?;
    }
    Ok(rows)
}

/// Adds a copy of the row with the usn 0, unless it is a grave.
fn add_uploaded(rows: &mut List<Row>, row: &Row) -> Result<(), Memory>
    ensures { OnOk result (rows.new ≡ rows.old ++ uploaded_rows (row.now ∷ [])) }
{
    if row.buried().is_some() {
        return Ok(());
    }
    let mut made = row.copy()?;
    made.set_usn(0);
    rows.push(made)
}

/// The names of the tags.
pub fn tag_names(alloc: Global, tags: &[Tag]) -> Result<List<Text>, Memory>
    ensures { IfOk result (λ names. names ≡ tag_names tags.now) }
{
    let mut names = List::new(alloc);
    for tag in tags {
        names.push(tag.name.copy()?)?;
    }
    Ok(names)
}
