ghost use Rattle.std.specs.Prelude.{◌≡◌, ◌<◌, ◌++◌, true, false, pos, IfOk, OnErr};
ghost use Rattle.std.specs.List.{All};
ghost use Rattle.ak_base.specs.Rows.{IsChecked};
ghost use Rattle.ak_keep.specs.Collections.{AscendsPast, last_id};
ghost use Rattle.ak_keep.specs.Readings.{ReadsBy};
ghost use Rattle.ak_keep.specs.Walks.{ahead, most_pages};

use crate::keepers::KeepFault;
use crate::readables::Readable;
use ak_base::{List, Name, Row, Table};

/// How many rows of a table are read at a time.
pub const PAGE: usize = 1000;

/// A walk over the rows of a table, by ascending id and page by page.
#[derive(Clone, Copy, Debug)]
pub struct Walk {
    past: Name,
    done: bool,
}

impl Walk {
    /// A walk over all rows of the table: an id is at least 1.
    pub fn over(table: Table) -> Walk
        ensures { result ≡ record { past = record { table = table; id = pos 0 }; done = false } }
    {
        Walk::past(Name { table, id: 0 })
    }

    /// A walk over the rows of the name's table with ids over that of the name.
    pub fn past(past: Name) -> Walk
        ensures { result ≡ record { past = past; done = false } }
    {
        Walk { past, done: false }
    }

    /// Whether no page is ahead.
    pub fn is_done(&self) -> bool
        ensures { result ≡ self.now.done }
    {
        self.done
    }

    /// The next page. The last one may be empty. A refused call leaves the walk as it was.
    #[tactic(auto, using(crate::proofs::Walking::fewer_pages))]
    pub fn next<R: Readable>(&mut self, from: &mut R) -> Result<List<Row>, KeepFault>
        requires { self.old.done ≡ false }
        ensures reads { ReadsBy R.Lookup from.old from.new result (λ h page. ahead self.old h.rows ≡ page ++ ahead self.new h.rows) }
        ensures shorter { IfOk result (λ page. most_pages self.new < most_pages self.old) }
        ensures ascends { IfOk result (λ page. AscendsPast self.old.past.table self.old.past.id page) }
        ensures onward { IfOk result (λ page. self.new.done ≡ false → self.new.past.id ≡ last_id self.old.past.id page) }
        ensures checked { R.checks ≡ true → IfOk result (λ page. All IsChecked page) }
        ensures table { self.new.past.table ≡ self.old.past.table }
        ensures err { OnErr result (self.new ≡ self.old) }
    {
        let page = from.page(self.past.table, self.past.id, PAGE)?;
        if page.as_slice().len() < PAGE {
            self.done = true;
        } else {
            self.pass(page.as_slice());
        }
        Ok(page)
    }

    /// Goes past the last of the rows.
    fn pass(&mut self, rows: &[Row])
        ensures { self.new ≡ record self.old { past = record { table = self.old.past.table; id = last_id self.old.past.id rows.now } } }
    {
        for row in rows {
            self.past.id = row.name().id;
        }
    }
}
