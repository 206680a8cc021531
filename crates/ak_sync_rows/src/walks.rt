ghost use Rattle.std.specs.Prelude.{◌≡◌, ◌<◌, ◌++◌, true, false, pos, IfOk, OnErr};
ghost use Rattle.std.specs.List.{All};
ghost use Rattle.ak_base.specs.Rows.{IsChecked};
ghost use Rattle.ak_keep.specs.Collections.{AscendsPast, last_id, wanted_past};
ghost use Rattle.ak_keep.specs.Readings.{ReadsBy};
ghost use Rattle.ak_sync_rows.specs.Walks.{ahead, most_pages};

use crate::lists::append_page;
use ak_base::{List, Name, Row, Table};
use ak_keep::{KeepFault, Keeper, PAGE, Wanted};

/// A walk over the wanted rows of a table, by ascending id and page by page.
#[derive(Clone, Copy, Debug)]
pub struct WantedWalk {
    past: Name,
    want: Wanted,
    done: bool,
}

impl WantedWalk {
    /// A walk over all wanted rows of the table: an id is at least 1.
    pub fn over(table: Table, want: Wanted) -> WantedWalk
        ensures { result ≡ record { past = record { table = table; id = pos 0 }; want = want; done = false } }
    {
        WantedWalk {
            past: Name { table, id: 0 },
            want,
            done: false,
        }
    }

    /// Whether no page is ahead.
    pub fn is_done(&self) -> bool
        ensures { result ≡ self.now.done }
    {
        self.done
    }

    /// The next page. The last one may be empty. A refused call leaves the walk as it was.
    #[tactic(auto, using(crate::proofs::Walking::shorter))]
    pub fn next<K: Keeper>(&mut self, from: &mut K) -> Result<List<Row>, KeepFault>
        requires { self.old.done ≡ false }
        ensures reads { ReadsBy K.Lookup from.old from.new result (λ h page. ahead self.old h.rows ≡ page ++ ahead self.new h.rows) }
        ensures shorter { IfOk result (λ page. most_pages self.new < most_pages self.old) }
        ensures ascends { IfOk result (λ page. AscendsPast self.old.past.table self.old.past.id page) }
        ensures table { self.new.past.table ≡ self.old.past.table }
        ensures want { self.new.want ≡ self.old.want }
        ensures checked { IfOk result (λ page. All IsChecked page) }
        ensures err { OnErr result (self.new ≡ self.old) }
    {
        let page = from.pending(self.past.table, self.want, self.past.id, PAGE)?;
        if page.as_slice().len() < PAGE {
            self.done = true;
            return Ok(page);
        }
        self.pass(page.as_slice());
        Ok(page)
    }

    /// Goes past the last of the rows.
    fn pass(&mut self, rows: &[Row])
        ensures { self.new ≡ record self.old { past = record { table = self.old.past.table; id = last_id self.old.past.id rows.now } } }
    {
        for row in rows {
            self.past.id = row.name().id;
        }
    }
}

/// All wanted rows of a table, by ascending id.
pub fn rows_from<K: Keeper>(
    from: &mut K,
    table: Table,
    want: Wanted,
) -> Result<List<Row>, KeepFault>
    ensures reads { ReadsBy K.Lookup from.old from.new result (λ h rows. rows ≡ wanted_past table want (pos 0) h.rows) }
    ensures checked { IfOk result (λ rows. All IsChecked rows) }
{
    let mut walk = WantedWalk::over(table, want);
    let mut rows = walk.next(from)?.into_vec();
    'pages: while !walk.is_done() {
        let page = walk.next(from)?;
        append_page(&mut rows, page)?;
    }
    Ok(List::of(rows))
}
