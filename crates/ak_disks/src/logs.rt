ghost use Rattle.std.specs.Prelude.{◌≡◌, ◌+◌, ◌-◌, ◌/◌, ◌%◌, ◌^◌, ◌<◌, ◌≤◌, [], ◌∷◌, ◌++◌, drop, length, replicate, take, vec_capacity, vec_len, IfOk, OnOk};
ghost use Rattle.ak_disks.specs.Images.{Looked, Shortened, Synced, Wrote, drawn, drawn_write, picked};
ghost use Rattle.ak_disks.specs.Logs.{event_of, happened, replay_of};

use crate::files::{overwrite, part};
use std::alloc::{AllocError, Global};
use std::marker::Model;

/// A call in the record. The bytes of a write stand in the log, so many from that place on.
#[derive(Clone, Copy, Debug)]
pub enum Entry {
    Look,
    Write {
        place: u64,
        from: usize,
        count: usize,
    },
    Cut {
        size: u64,
    },
    Sync,
}

/// The record of a disk's calls. It took its room when it was made.
#[derive(Debug, Drop)]
pub struct Log {
    /// The bytes of all writes, one after the other.
    written: Vec<u8>,
    entries: Vec<Entry>,
    room: usize,
    places: usize,
}

impl Model for Log {
    ghost use Rattle.ak_disks.specs.LogStates.{LogState};

    ghost Value = { LogState };

    ghost use Rattle.ak_disks.specs.Logs.{IsLog, log_state};

    ghost view = { λ log. log_state log.written.items log.entries.items log.room log.places };

    ghost invariant = { λ log. IsLog log.written log.entries log.room log.places };
}

impl Log {
    /// An empty record, with room for so many written bytes and so many calls.
    pub fn new(alloc: Global, room: usize, places: usize) -> Result<Log, AllocError>
        ensures { IfOk result (λ log. log ≡ record { events = []; room = room; places = places }) }
    {
        let written = Vec::with_capacity(alloc, room)?;
        let entries = Vec::with_capacity(alloc, places)?;
        Ok(Log {
            written,
            entries,
            room,
            places,
        })
    }

    /// For how many more written bytes it has room.
    pub fn room(&self) -> usize
        ensures { result ≡ self.now.room }
    {
        self.room
    }

    /// For how many more calls it has room.
    pub fn places(&self) -> usize
        ensures { result ≡ self.now.places }
    {
        self.places
    }

    /// Notes a look at the file.
    pub fn look(&mut self)
        requires { 0 < self.old.places }
        ensures { self.new ≡ record { events = Looked ∷ self.old.events; room = self.old.room; places = self.old.places - 1 } }
    {
        self.places -= 1;
        add(&mut self.entries, Entry::Look);
    }

    /// Notes a cut to this size.
    pub fn cut(&mut self, size: u64)
        requires { 0 < self.old.places }
        ensures { self.new ≡ record { events = Shortened size ∷ self.old.events; room = self.old.room; places = self.old.places - 1 } }
    {
        self.places -= 1;
        add(&mut self.entries, Entry::Cut { size });
    }

    /// Notes a sync.
    pub fn sync(&mut self)
        requires { 0 < self.old.places }
        ensures { self.new ≡ record { events = Synced ∷ self.old.events; room = self.old.room; places = self.old.places - 1 } }
    {
        self.places -= 1;
        add(&mut self.entries, Entry::Sync);
    }

    /// Notes a write of these bytes at this place.
    pub fn write(&mut self, place: u64, bytes: &[u8])
        requires place { 0 < self.old.places }
        requires room { length bytes.now ≤ self.old.room }
        ensures { self.new ≡ record {
          events = Wrote place bytes.now ∷ self.old.events;
          room = self.old.room - length bytes.now;
          places = self.old.places - 1;
        } }
    {
        self.places -= 1;
        self.room -= bytes.len();
        let from = self.written.as_slice().len();
        let count = bytes.len();
        add(&mut self.entries, Entry::Write { place, from, count });
        add_bytes(&mut self.written, bytes);
    }

    /// The image that this number picks of a file that was first so.
    pub fn image(&self, first: &[u8], pick: u64) -> Result<Vec<u8>, AllocError>
        ensures { IfOk result (λ image. image.items ≡ picked first.now pick self.now.events) }
    {
        image_of(
            *self.written.allocator(),
            first,
            &self.written,
            &self.entries,
            pick,
        )
    }
}

/// Adds an entry for which there is room.
fn add(entries: &mut Vec<Entry>, entry: Entry)
    requires { vec_len entries.old < vec_capacity entries.old }
    ensures items { entries.new.items ≡ entries.old.items ++ entry ∷ [] }
    ensures len { vec_len entries.new ≡ vec_len entries.old + 1 }
    ensures capacity { vec_capacity entries.old ≤ vec_capacity entries.new }
{
    match entries.push(entry) {
        Ok(()) => {}
        Err(_) => unreachable!(),
    }
}

/// Adds bytes for which there is room.
fn add_bytes(written: &mut Vec<u8>, bytes: &[u8])
    requires { vec_len written.old + length bytes.now ≤ vec_capacity written.old }
    ensures items { written.new.items ≡ written.old.items ++ bytes.now }
    ensures len { vec_len written.new ≡ vec_len written.old + length bytes.now }
    ensures capacity { vec_capacity written.old ≤ vec_capacity written.new }
{
    match written.extend_from_slice(bytes) {
        Ok(()) => {}
        Err(_) => unreachable!(),
    }
}

/// The file as it is read, an image of it, and what is left of the number that picks the image.
#[derive(Drop)]
struct Replay {
    file: Vec<u8>,
    image: Vec<u8>,
    pick: u64,
}

/// The image that this number picks, by the calls in their order.
#[tactic(auto, using(crate::proofs::Kept::happened_more))]
fn image_of(
    alloc: Global,
    first: &[u8],
    written: &[u8],
    entries: &[Entry],
    pick: u64,
) -> Result<Vec<u8>, AllocError>
    ensures { IfOk result (λ image. image.items ≡ picked first.now pick (happened written.now entries.now)) }
{
    let mut replay = Replay {
        file: Vec::from_slice(alloc, first)?,
        image: Vec::from_slice(alloc, first)?,
        pick,
    };
    for entry in entries {
        replay.go_on(written, *entry, pick)?;
    }
    let Replay {
        file,
        image,
        pick: _,
    } = replay;
    drop(file);
    Ok(image)
}

impl Replay {
    /// Goes on by a call. A sync begins the number anew.
    fn go_on(&mut self, written: &[u8], entry: Entry, pick: u64) -> Result<(), AllocError>
        ensures { OnOk result (replay_of self.new ≡ drawn pick (event_of written.now entry) (replay_of self.old)) }
    {
        match entry {
            Entry::Look => Ok(()),
            Entry::Write { place, from, count } => self.write(
                place as usize,
                part(written, from, count),
            ),
            Entry::Cut { size } => {
                self.cut(size as usize);
                Ok(())
            }
            Entry::Sync => self.sync(pick),
        }
    }

    /// Goes on by a write, of which the image has what the number says.
    fn write(&mut self, place: usize, bytes: &[u8]) -> Result<(), AllocError>
        ensures { OnOk result (replay_of self.new ≡ drawn_write place bytes.now (replay_of self.old)) }
    {
        overwrite(&mut self.file, place, bytes)?;
        if place <= self.image.len() {
            let came = digit(&mut self.pick, bytes.len());
            let wrong = digit(&mut self.pick, bytes.len() - came);
            let value = digit(&mut self.pick, 255) as u8;
            patch(&mut self.image, place, &bytes[..came], wrong, value)?;
        }
        Ok(())
    }

    /// Goes on by a cut, which an even digit leaves undone in the image.
    fn cut(&mut self, size: usize)
        ensures { replay_of self.new ≡ drawn 0 (Shortened size) (replay_of self.old) }
    {
        self.file.truncate(size);
        if digit(&mut self.pick, 1) == 1 {
            self.image.truncate(size);
        }
    }

    /// Goes on by a sync, which leaves the file as it is read.
    fn sync(&mut self, pick: u64) -> Result<(), AllocError>
        ensures { OnOk result (replay_of self.new ≡ drawn pick Synced (replay_of self.old)) }
    {
        self.image.clear();
        self.image.extend_from_slice(&self.file)?;
        self.pick = pick;
        Ok(())
    }
}

/// Takes the least digit of a number, from 0 to this most.
fn digit(number: &mut u64, most: usize) -> usize
    requires { most < 2 ^ 64 - 1 }
    ensures digit { result ≡ number.old % (most + 1) }
    ensures rest { number.new ≡ number.old / (most + 1) }
    ensures bound { result ≤ most }
{
    let base = most as u64 + 1;
    let least = *number % base;
    *number /= base;
    least as usize
}

/// Writes these bytes at this place, and behind them so many of this value.
fn patch(
    image: &mut Vec<u8>,
    place: usize,
    came: &[u8],
    wrong: usize,
    value: u8,
) -> Result<(), AllocError>
    requires place { place ≤ length image.old.items }
    requires fits { length came.now + wrong < 2 ^ 64 }
    ensures { OnOk result (image.new.items ≡ take place image.old.items ++ (came.now ++ replicate wrong value) ++ drop (place + (length came.now + wrong)) image.old.items) }
{
    let mut bytes = Vec::from_slice(*image.allocator(), came)?;
    bytes.resize(came.len() + wrong, value)?;
    overwrite(image, place, &bytes)
}
