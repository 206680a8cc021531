use crate::disks::CrashDisk;
use ak_journal_tables::{JournalKeeper, open};
use ak_journals::JournalFault;
use cases_lines::Unread;
use std::alloc::Global;

/// A collection in a journal: the disk, or the keeper over it while the journal is open.
#[derive(Drop)]
pub struct CaseJournal<D: CrashDisk> {
    pub disk: Option<D>,
    pub keeper: Option<JournalKeeper<D>>,
}

impl<D: CrashDisk> CaseJournal<D> {
    /// A journal on this disk, which is not open.
    pub fn on(disk: D) -> CaseJournal<D> {
        CaseJournal {
            disk: Some(disk),
            keeper: None,
        }
    }

    /// Opens the journal. If that is refused, it says why, and the disk stays.
    pub fn open(&mut self, alloc: Global) -> Result<Option<JournalFault>, Unread> {
        match self.disk.take() {
            Some(disk) => Ok(self.open_on(alloc, disk)),
            None => Err(Unread::Bad),
        }
    }

    fn open_on(&mut self, alloc: Global, disk: D) -> Option<JournalFault> {
        match open(alloc, disk) {
            Ok(keeper) => {
                self.keeper = Some(keeper);
                None
            },
            Err((fault, disk)) => {
                self.disk = Some(disk);
                Some(fault)
            },
        }
    }

    /// Closes the journal, and says whether it was open.
    pub fn close(&mut self) -> bool {
        match self.keeper.take() {
            Some(keeper) => {
                self.disk = Some(keeper.into_tables().into_disk());
                true
            },
            None => false,
        }
    }

    /// Leaves of the disk the image of a crash that a number picks. The journal is not open then.
    pub fn crash(&mut self, pick: u64) -> Result<(), Unread> {
        self.close();
        let image = match &self.disk {
            Some(disk) => disk.after_crash(pick)?,
            None => return Err(Unread::Bad),
        };
        self.disk = Some(image);
        Ok(())
    }
}
