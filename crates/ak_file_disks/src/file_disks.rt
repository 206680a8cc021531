ghost use Rattle.std.specs.Prelude.{◌≡◌, ◌+◌, ◌^◌, ◌<◌, length, IfOk, OnOk};
ghost use Rattle.std.specs.Io.{ReadsAtMost};
ghost use Rattle.std.specs.Result.{result_ok};
ghost use Rattle.ak_faults.specs.Causes.{HasCause};
ghost use Rattle.ak_io.specs.Ends.{uncertain, untold};
ghost use Rattle.ak_file_disks.specs.FileDisks.{any_image, any_past, at_no_time};

use crate::openings::open_locked;
use crate::retries::read_retrying;
use ak_disks::Disk;
use ak_io::{End, Failed};
use std::fs::File;
use std::io::{self, Error, ErrorKind};
use std::marker::Model;
use std::os::unix::fs::FileExt;

/// A file of the system as a disk, locked for this program. What it holds, and what a crash leaves of it, is told to
/// nobody.
#[derive(Drop)]
pub struct FileDisk {
    /// None if it was not opened, or once a sync was refused.
    file: Option<File>,
    /// At the last `u64` it stays.
    faults: u64,
}

impl Model for FileDisk {
    ghost use Rattle.std.specs.Prelude.{ℕ};

    ghost Value = { ℕ };

    ghost view = { λ disk. disk.faults };
}

impl FileDisk {
    /// The file at this path, which is made if it is not there. If it can't be opened, if another program has it locked,
    /// or if it is a database of SQLite, nothing is written to it, and each call of the disk is refused.
    pub fn open(rt: &HostRuntime, path: &str) -> FileDisk
        ensures { result ≡ 0 }
    {
        FileDisk {
            file: open_locked(rt, path).ok(),
            faults: 0,
        }
    }

    /// What the system answered. A refusal is counted; why it refused is not told further.
    fn counted<T: Drop>(&mut self, answer: io::Result<T>) -> Result<T, Failed>
        ensures same { result_ok result ≡ result_ok answer }
        ensures cause { HasCause (uncertain self.old) (uncertain self.new) result }
        ensures calm { OnOk result (self.new ≡ self.old) }
    {
        match answer {
            Ok(value) => Ok(value),
            Err(_) => {
                self.faults = self.faults.saturating_add(1);
                Err(Failed)
            }
        }
    }

    fn opened(&self) -> io::Result<&File> {
        match &self.file {
            Some(file) => Ok(file),
            None => Err(Error::from(ErrorKind::NotFound)),
        }
    }

    fn size_of_file(&self) -> io::Result<u64> {
        let file = self.opened()?;
        Ok(file.metadata()?.len())
    }

    fn read_file(&self, place: u64, into: &mut [u8]) -> io::Result<usize>
        ensures bound { ReadsAtMost result into.new }
    {
        let file = self.opened()?;
        read_retrying(file, place, into)
    }

    fn write_file(&self, place: u64, from: &[u8]) -> io::Result<()>
        ensures far { OnOk result (place + length from.now < 2 ^ 64) }
    {
        let file = self.opened()?;
        if place.checked_add(from.len() as u64).is_none() {
            return Err(Error::from(ErrorKind::InvalidInput));
        }
        file.write_all_at(from, place)
    }

    fn cut_file(&self, size: u64) -> io::Result<()> {
        let file = self.opened()?;
        file.set_len(size)
    }

    fn sync_file(&self) -> io::Result<()> {
        let file = self.opened()?;
        file.sync_data()
    }
}

impl End for FileDisk {
    ghost health = { uncertain };

    fn faults(&self) -> u64 {
        self.faults
    }
}

impl Disk for FileDisk {
    ghost content = { untold };

    ghost may_leave = { any_image };

    ghost moment = { at_no_time };

    ghost may_have_left = { any_past };

    ghost leaves_content = { λ _. tt };

    ghost counts_now = { λ disk since image later left. tt };

    ghost only_now = { λ disk image left. tt };

    fn size(&mut self) -> Result<u64, Failed> {
        let answer = self.size_of_file();
        self.counted(answer)
    }

    fn read_at(&mut self, place: u64, into: &mut [u8]) -> Result<usize, Failed> {
        let answer = self.read_file(place, into);
        self.counted(answer)
    }

    fn write_at(&mut self, place: u64, from: &[u8]) -> Result<(), Failed> {
        let answer = self.write_file(place, from);
        self.counted(answer)
    }

    fn cut(&mut self, size: u64) -> Result<(), Failed> {
        let answer = self.cut_file(size);
        self.counted(answer)
    }

    fn sync(&mut self) -> Result<(), Failed> {
        let answer = self.sync_file();
        // The system may forget what it could not write, so that a later sync would answer for bytes that are lost.
        if answer.is_err() {
            self.file = None;
        }
        self.counted(answer)
    }
}
