ghost use Rattle.std.specs.Prelude.{◌≡◌, true};
ghost use Rattle.ak_journals.specs.Journals.{IsInOrder};
ghost use Rattle.ak_journal_tables.specs.Holdings.{HoldsIfTold, Stores};

use crate::commits::{commit, make_ready};
use ak_base::Head;
use ak_disks::Disk;
use ak_journals::Journal;
use ak_keep::KeepFault;
use ak_memory::MarkedRows;
use ak_tables::{Tables, Touched};
use std::alloc::Global;
use std::marker::Model;

/// The rows and the head of a collection, as the payloads of a journal that lead to them. Seen as the journal.
#[derive(Drop)]
pub struct JournalTables<D: Disk> {
    alloc: Global,
    journal: Journal<D>,
}

impl<D: Disk> Model for JournalTables<D> {
    ghost use Rattle.ak_journals.specs.Journals.{IsInOrder};
    ghost use Rattle.ak_journals.specs.declared.journals.Journal.{Journal as Kind};

    ghost Value = { Kind D };

    ghost view = { λ tables. tables.journal };

    ghost invariant = { λ tables. IsInOrder D.content D.may_leave tables.journal };
}

impl<D: Disk> JournalTables<D> {
    /// Tables over this journal.
    pub(crate) fn over(alloc: Global, journal: Journal<D>) -> JournalTables<D>
        requires { IsInOrder D.content D.may_leave journal }
        ensures { result ≡ journal }
    {
        JournalTables { alloc, journal }
    }

    /// The disk, given back.
    pub fn into_disk(self) -> D
        ensures { result ≡ self.disk }
    {
        let JournalTables { alloc: _, journal } = self;
        journal.into_disk()
    }
}

impl<D: Disk + Drop> Tables for JournalTables<D> {
    ghost stores = { λ journal. Stores D.content journal };

    ghost is_ready = { λ journal. journal.ready };

    ghost health = { λ journal. D.health journal.disk };

    ghost moment = { λ journal. D.moment journal.disk };

    ghost may_have_left = { λ journal. D.may_have_left journal.disk };

    ghost stands_for = { λ journal. HoldsIfTold D.content journal.disk };

    fn faults(&self) -> u64 {
        self.journal.faults()
    }

    fn ready(&mut self) -> Result<(), KeepFault> {
        make_ready(&mut self.journal)
    }

    fn write(
        &mut self,
        rows: &MarkedRows,
        head: &Option<Head>,
        touched: &Touched,
    ) -> Result<(), KeepFault> {
        commit(self.alloc, &mut self.journal, rows, head, touched)
    }
}
