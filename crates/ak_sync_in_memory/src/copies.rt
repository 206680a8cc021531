ghost use Rattle.std.specs.FinMap.{entries};
ghost use Rattle.std.specs.List.{All, IsDistinct};
ghost use Rattle.std.specs.Ordering.{eq_by_cmp};
ghost use Rattle.std.specs.Prelude.{◌≡◌, ◌++◌, Some, map, IfOk, OnOk};
ghost use Rattle.ak_base.specs.Heads.{IsHeadInRange};
ghost use Rattle.ak_base.specs.Names.{name_cmp};
ghost use Rattle.ak_base.specs.Rows.{IsChecked, name_of};
ghost use Rattle.ak_keep.specs.Collections.{Collection};
ghost use Rattle.ak_keep.specs.Keepers.{KeepCause};
ghost use Rattle.ak_server_steps.specs.Wholes.{rows_in};
ghost use Rattle.ak_sync_in_memory.specs.Copies.{IsViewed, committed_in};
ghost use Rattle.ak_sync_in_memory.specs.Entries.{LoggedState, collection_in, health_in};

use crate::LoggedServer;
use crate::table_views::TableViews;
use ak_base::{List, Row, Table};
use ak_keep::KeepFault;
use ak_openings::Opening;
use ak_sync_rows::append_page;
use std::alloc::Global;

/// What a logged server committed, its rows by table and id. It ends the live session.
pub fn view_all(alloc: Global, server: &mut LoggedServer) -> Result<Opening, KeepFault>
    ensures views { IsViewed server.old server.new }
    ensures copy { IfOk result (λ opening. committed_in server.old ≡ Some (collection_in opening)) }
    ensures checked { IfOk result (λ opening. All IsChecked opening.rows) }
    ensures distinct { IfOk result (λ opening.
        IsDistinct (eq_by_cmp name_cmp) (map name_of opening.rows)) }
    ensures range { IfOk result (λ opening. IsHeadInRange opening.head) }
    ensures cause { KeepCause (health_in server.old) (health_in server.new) result }
{
    // For the proof alone: it says that each row stands under its name.
    server.recall();
    let rows = view_rows(alloc, server)?;
    let head = server.view_head()?;
    Ok(Opening { rows, head })
}

/// All rows, by table and id.
fn view_rows(alloc: Global, server: &mut LoggedServer) -> Result<List<Row>, KeepFault>
    ensures views { IsViewed server.old server.new }
    ensures rows { IfOk result (λ rows. (c : Collection) → committed_in server.old ≡ Some c
        → rows ≡ map (λ entry. entry.1) (entries c.rows)) }
    ensures checked { IfOk result (All IsChecked) }
    ensures cause { KeepCause (health_in server.old) (health_in server.new) result }
{
    // For the proof alone: it says that ids are over 0.
    server.recall();
    let mut rows = Vec::new(alloc);
    for table in &Table::all() {
        view_table(server, *table, &mut rows)?;
    }
    Ok(List::of(rows))
}

/// Adds all rows of a table at the end, by id.
fn view_table(server: &mut LoggedServer, table: Table, rows: &mut Vec<Row>) -> Result<(), KeepFault>
    ensures views { IsViewed server.old server.new }
    ensures rows { OnOk result ((c : Collection) → committed_in server.old ≡ Some c
        → rows.new.items ≡ rows.old.items ++ rows_in table c.rows) }
    ensures checked { OnOk result (All IsChecked rows.old.items → All IsChecked rows.new.items) }
    ensures cause { KeepCause (health_in server.old) (health_in server.new) result }
{
    let mut views = TableViews::over(table);
    'pages: while !views.is_done() {
        let page = views.next(server)?;
        append_page(rows, page)?;
    }
    Ok(())
}

/// Views leave what is committed as it is.
pub fn views_keep_the_collection()
    ensures { (old new : LoggedState) → IsViewed old new → committed_in new ≡ committed_in old }
{}
