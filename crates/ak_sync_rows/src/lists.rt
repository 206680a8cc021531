ghost use Rattle.std.specs.Prelude.{◌≡◌, ◌++◌, OnOk, OnErr};

use ak_base::{List, Memory, Row};

/// Adds a page of rows at the end.
pub fn append_page(rows: &mut Vec<Row>, page: List<Row>) -> Result<(), Memory>
    ensures ok { OnOk result (rows.new.items ≡ rows.old.items ++ page) }
    ensures err { OnErr result (rows.new.items ≡ rows.old.items) }
{
    let mut page = page.into_vec();
    rows.append(&mut page)?;
    Ok(())
}
