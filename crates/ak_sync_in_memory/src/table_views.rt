ghost use Rattle.std.specs.List.{All};
ghost use Rattle.std.specs.Prelude.{◌≡◌, ◌<◌, ◌++◌, false, pos, Some, IfOk};
ghost use Rattle.ak_base.specs.Rows.{IsChecked};
ghost use Rattle.ak_keep.specs.Collections.{Collection, last_id};
ghost use Rattle.ak_keep.specs.Keepers.{KeepCause};
ghost use Rattle.ak_sync_in_memory.specs.Copies.{IsViewed, committed_in, most_pages, rows_to_come};
ghost use Rattle.ak_sync_in_memory.specs.Entries.{health_in};

use crate::LoggedServer;
use ak_base::{List, Name, Row, Table};
use ak_keep::{KeepFault, PAGE};

/// Views of the rows of a table, by ascending id and page by page.
#[derive(Clone, Copy, Debug)]
pub(crate) struct TableViews {
    past: Name,
    is_done: bool,
}

impl TableViews {
    /// Views of all rows of the table: an id is at least 1.
    pub(crate) fn over(table: Table) -> TableViews
        ensures { result ≡ record { past = record { table = table; id = pos 0 }; is_done = false } }
    {
        TableViews {
            past: Name { table, id: 0 },
            is_done: false,
        }
    }

    /// Whether no page is to come.
    pub(crate) fn is_done(&self) -> bool
        ensures { result ≡ self.now.is_done }
    {
        self.is_done
    }

    /// The next page. The last one may be empty.
    #[tactic(auto, using(ak_keep::proofs::Walking::fewer_pages))]
    pub(crate) fn next(&mut self, server: &mut LoggedServer) -> Result<List<Row>, KeepFault>
        requires { self.old.is_done ≡ false }
        ensures views { IsViewed server.old server.new }
        ensures rows { IfOk result (λ page. (c : Collection) → committed_in server.old ≡ Some c
            → rows_to_come self.old c.rows ≡ page ++ rows_to_come self.new c.rows) }
        ensures shorter { IfOk result (λ page. most_pages self.new < most_pages self.old) }
        ensures checked { IfOk result (All IsChecked) }
        ensures cause { KeepCause (health_in server.old) (health_in server.new) result }
    {
        let page = server.view(self.past.table, self.past.id, PAGE)?;
        if page.as_slice().len() < PAGE {
            self.is_done = true;
        } else {
            self.pass(page.as_slice());
        }
        Ok(page)
    }

    /// Goes past the last of the rows.
    fn pass(&mut self, rows: &[Row])
        ensures { self.new ≡ record self.old { past = record { table = self.old.past.table; id = last_id self.old.past.id rows.now } } }
    {
        for row in rows {
            self.past.id = row.name().id;
        }
    }
}
