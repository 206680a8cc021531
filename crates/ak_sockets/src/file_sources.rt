ghost use Rattle.std.specs.Prelude.{◌≡◌};
ghost use Rattle.std.specs.Io.{ReadsAtMost};
ghost use Rattle.std.specs.Io.KnownBytes.{ReadConsumes};
ghost use Rattle.ak_faults.specs.Causes.{HasCause};
ghost use Rattle.ak_io.specs.Ends.{uncertain, untold};
ghost use Rattle.ak_sockets.specs.Counts.{faults_after};

use crate::faults::Faults;
use crate::retries::read_retrying;
use ak_io::{End, Failed, Source};
use ak_links::Named;
use std::fs::{File, Files};
use std::io::{self, Error, ErrorKind};
use std::marker::Model;

/// A file of the system, by its name. Until one is opened, each read is refused.
#[derive(Drop)]
pub struct FileSource<'r, R: Files> {
    rt: &'r R,
    file: Option<R::File>,
    faults: Faults,
}

impl<'r, R: Files> Model for FileSource<'r, R> {
    ghost use Rattle.std.specs.Prelude.{ℕ};

    ghost Value = { ℕ };

    ghost view = { λ source. source.faults };
}

impl<'r, R: Files> FileSource<'r, R> {
    /// A source with no file yet.
    pub fn new(rt: &'r R) -> FileSource<'r, R>
        ensures { result ≡ 0 }
    {
        FileSource {
            rt,
            file: None,
            faults: Faults::new(),
        }
    }

    /// A read of the file that is open.
    fn read_file(&mut self, into: &mut [u8]) -> io::Result<usize>
        ensures bound { ReadsAtMost result into.new }
        ensures faults { self.new ≡ self.old }
    {
        match &mut self.file {
            Some(file) => read_retrying(file, into),
            None => Err(Error::from(ErrorKind::NotFound)),
        }
    }
}

impl<'r, R: Files> End for FileSource<'r, R> {
    ghost health = { uncertain };

    fn faults(&self) -> u64 {
        self.faults.count()
    }
}

impl<'r, R: Files> Source for FileSource<'r, R> {
    ghost left = { untold };

    fn read(&mut self, into: &mut [u8]) -> Result<usize, Failed>
        ensures bound { ReadsAtMost result into.new }
        ensures bytes { ReadConsumes (untold self.old) (untold self.new) result into.new }
        ensures cause { HasCause (uncertain self.old) (uncertain self.new) result }

        // A fault is counted only where it is answered.
        ensures count { self.new ≡ faults_after self.old result }
    {
        if into.is_empty() {
            return Ok(0);
        }
        let answer = self.read_file(into);
        self.faults.counted(answer)
    }
}

impl<'r, R: Files> Named for FileSource<'r, R> {
    fn open(&mut self, name: &str) -> Result<(), Failed>
        ensures left { untold self.new ≡ untold self.old }
        ensures cause { HasCause (uncertain self.old) (uncertain self.new) result }
        ensures count { self.new ≡ faults_after self.old result }
    {
        let file = self.faults.counted(File::open(self.rt, name))?;
        self.file = Some(file);
        Ok(())
    }
}
