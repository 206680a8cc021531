ghost use Rattle.std.specs.Prelude.{◌≡◌, ◌+◌, ◌-◌, ◌^◌, ◌<◌, ◌≤◌, [], ◌∷◌, if◌then◌else◌, true, length, min, not, option_map, drop, take, vec_capacity, vec_len, IfOk, IfSome, None, OnErr, OnOk, Some};
ghost use Rattle.std.specs.Io.{ReadsAtMost};
ghost use Rattle.std.specs.Result.{is_ok, result_ok};
ghost use Rattle.ak_faults.specs.Causes.{HasCause, one_more};
ghost use Rattle.ak_disks.specs.Disks.{Becomes, Elapses, Follows, IsCutOrWhole, IsRead, IsTorn, NoMore, Only, overwritten};
ghost use Rattle.ak_disks.specs.Images.{Looked, Shortened, Synced, Wrote, after_call, after_refusal, after_torn, after_write, content_of, disk_health, file_of, images, images_since, moment_of, new_disk, picked, refuses};
ghost use Rattle.ak_disks.specs.Moments.{counts_now, leaves_file, only_now};

use crate::disks::Disk;
use crate::files::{copy_front, overwrite, rest};
use crate::logs::Log;
use ak_base::{List, Memory};
use ak_faults::Calls;
use ak_io::{End, Failed};
use std::alloc::Global;
use std::marker::Model;

/// A disk in memory that was taken when it was made, of which the calls named fail. A call that it refuses changes
/// nothing, unless it is told to tear writes. It keeps a record of the others, and shows what a crash might leave.
#[derive(Debug, Drop)]
pub struct MemoryDisk {
    first: Vec<u8>,
    file: Vec<u8>,
    log: Log,
    all_room: u64,
    all_places: u64,
    calls: Calls,
    /// Whether a refused write leaves the first half of its bytes.
    tears: bool,
}

impl Model for MemoryDisk {
    ghost use Rattle.std.specs.Prelude.{◌≡◌, ◌≤◌, ◌+◌, vec_len, vec_capacity};
    ghost use Rattle.ak_disks.specs.Images.{DiskState, file_after};

    ghost Value = { DiskState };

    ghost view = { λ disk. record {
      first = disk.first.items;
      events = disk.log.events;
      room = disk.log.room;
      places = disk.log.places;
      all_room = disk.all_room;
      all_places = disk.all_places;
      calls = disk.calls.count;
      fails = disk.calls.fails.items;
      fault_count = disk.calls.faults;
      tears = disk.tears;
    } };

    ghost invariant = { λ disk. (disk.file.items ≡ file_after disk.first.items disk.log.events)
        × (vec_len disk.file + disk.log.room ≤ vec_capacity disk.file) };
}

impl MemoryDisk {
    /// An empty disk, with room for so many written bytes and for so many calls. The calls whose numbers are in
    /// `fails` fail, counted from 0.
    pub fn new(room: u64, calls: u64, fails: List<u64>) -> Result<MemoryDisk, Memory>
        ensures { IfOk result (λ disk. disk ≡ new_disk [] room calls fails) }
    {
        let alloc = fails.allocator();
        MemoryDisk::holding(Vec::new(alloc), room, calls, fails.into_vec())
    }

    /// A disk that holds this file, all of it brought to the disk, with room for so many written bytes and calls more.
    fn holding(first: Vec<u8>, room: u64, calls: u64, fails: Vec<u64>) -> Result<MemoryDisk, Memory>
        ensures { IfOk result (λ disk. disk ≡ new_disk first.items room calls fails.items) }
    {
        let alloc = *first.allocator();
        let file = with_room(&first, room as usize)?;
        let log = Log::new(alloc, room as usize, calls as usize)?;
        Ok(MemoryDisk {
            first,
            file,
            log,
            all_room: room,
            all_places: calls,
            calls: Calls::new(fails),
            tears: false,
        })
    }

    /// The file as it is read.
    pub fn file(&self) -> &[u8]
        ensures { result.now ≡ file_of self.now }
    {
        self.file.as_slice()
    }

    /// A disk that holds an image that a crash now may leave, chosen by this number. It has the room that this one
    /// had when it was made, and none of its calls is named to fail.
    pub fn image(&self, pick: u64) -> Result<MemoryDisk, Memory>
        ensures picked { IfOk result (λ image. image ≡ new_disk (picked self.now.first pick self.now.events) self.now.all_room self.now.all_places []) }
        ensures left { IfOk result (λ image. images self.now (file_of image)) }
    {
        let alloc = *self.first.allocator();
        let image = self.log.image(&self.first, pick)?;
        MemoryDisk::holding(image, self.all_room, self.all_places, Vec::new(alloc))
    }

    /// Counts the calls from 0 again: from now on those of these numbers fail.
    pub fn fail_at(&mut self, fails: List<u64>)
        ensures { self.new ≡ record self.old { calls = 0; fails = fails } }
    {
        self.calls.fail_at(fails.into_vec());
    }

    /// From now on a refused write leaves the first half of its bytes, if there is room for them.
    pub fn tear(&mut self)
        ensures { self.new ≡ record self.old { tears = true } }
    {
        self.tears = true;
    }

    /// Writes these bytes, for which there is room.
    fn put(&mut self, place: u64, from: &[u8])
        requires places { 0 < self.old.places }
        requires room { length from.now ≤ self.old.room }
        ensures { self.new ≡ record self.old {
          events = Wrote place from.now ∷ self.old.events;
          places = self.old.places - 1;
          room = self.old.room - length from.now;
        } }
    {
        self.log.write(place, from);
        match overwrite(&mut self.file, place as usize, from) {
            Ok(()) => {}
            // The room was taken when the disk was made.
            Err(_) => unreachable!(),
        }
    }

    /// Leaves of a refused write what a disk that tears leaves.
    fn put_front(&mut self, place: u64, from: &[u8])
        ensures { self.new ≡ after_torn place from.now self.old }
    {
        let front = &from[..from.len() / 2];
        if self.tears && 0 < self.log.places() && front.len() <= self.log.room() {
            self.put(place, front);
        }
    }

    /// Counts a call that writes so many bytes at this place, and refuses it if it is to fail.
    fn count_call(&mut self, place: u64, count: usize) -> Result<(), Failed>
        ensures only { is_ok result ≡ not (refuses self.old place count) }
        ensures fits { OnOk result (place + count < 2 ^ 64) }
        ensures ok { OnOk result (self.new ≡ record self.old { calls = one_more self.old.calls }) }
        ensures err { OnErr result (self.new ≡ after_refusal self.old) }
        ensures cause { HasCause (disk_health self.old) (disk_health self.new) result }
    {
        let named = self.calls.is_next_named();
        let full = self.log.places() == 0 || self.log.room() < count;
        if named || full || place.checked_add(count as u64).is_none() {
            self.calls.count_fault();
            return Err(Failed);
        }
        Ok(())
    }
}

/// A file that holds these bytes, with room for so many more.
fn with_room(bytes: &Vec<u8>, room: usize) -> Result<Vec<u8>, Memory>
    ensures items { IfOk result (λ file. file.items ≡ bytes.now.items) }
    ensures room { IfOk result (λ file. vec_len file + room ≤ vec_capacity file) }
{
    let all = bytes.len().checked_add(room).ok_or(Memory)?;
    let mut file = Vec::with_capacity(*bytes.allocator(), all)?;
    file.extend_from_slice(bytes.as_slice())?;
    Ok(file)
}

impl End for MemoryDisk {
    ghost health = { disk_health };

    fn faults(&self) -> u64 {
        self.calls.faults
    }
}

impl Disk for MemoryDisk {
    ghost content = { content_of };

    ghost may_leave = { images };

    ghost moment = { moment_of };

    ghost may_have_left = { images_since };

    ghost leaves_content = { λ disk. leaves_file disk.first disk.events };

    ghost counts_now = { λ disk since image later left. counts_now disk.first disk.events since image left };

    ghost only_now = { λ disk image left. only_now disk.first disk.events image left };

    fn size(&mut self) -> Result<u64, Failed>
        ensures told { IfOk result (λ size. IfSome (content_of self.old) (λ file. size ≡ length file)) }
        ensures same { content_of self.new ≡ content_of self.old }
        ensures crash { NoMore (images self.old) (images self.new) }
        ensures time { Elapses (moment_of self.old) (moment_of self.new) (images_since self.old) (images_since self.new) (images self.new) }
        ensures cause { HasCause (disk_health self.old) (disk_health self.new) result }
        ensures calm { OnOk result (disk_health self.new ≡ disk_health self.old) }

        // No other call fails.
        ensures only { is_ok result ≡ not (refuses self.old 0 0) }
        ensures state { self.new ≡ after_call Looked 0 0 self.old }
    {
        self.count_call(0, 0)?;
        self.log.look();
        Ok(self.file.len() as u64)
    }

    fn read_at(&mut self, place: u64, into: &mut [u8]) -> Result<usize, Failed>
        ensures bound { ReadsAtMost result into.new }
        ensures told { IfOk result (λ count. IfSome (content_of self.old) (λ file. IsRead file place count into.new)) }
        ensures same { content_of self.new ≡ content_of self.old }
        ensures crash { NoMore (images self.old) (images self.new) }
        ensures time { Elapses (moment_of self.old) (moment_of self.new) (images_since self.old) (images_since self.new) (images self.new) }
        ensures cause { HasCause (disk_health self.old) (disk_health self.new) result }
        ensures calm { OnOk result (disk_health self.new ≡ disk_health self.old) }

        // No other call fails, and each gives all that fits.
        ensures only { result_ok result ≡ (if refuses self.old 0 0 then None else Some (min (length (drop place (file_of self.old))) (length into.old))) }
        ensures state { self.new ≡ after_call Looked 0 0 self.old }
    {
        self.count_call(0, 0)?;
        self.log.look();
        Ok(copy_front(rest(&self.file, place as usize), into))
    }

    fn write_at(&mut self, place: u64, from: &[u8]) -> Result<(), Failed>
        requires { IfSome (content_of self.old) (λ file. place ≤ length file) }
        ensures written { OnOk result (content_of self.new ≡ option_map (overwritten place from.now) (content_of self.old)) }
        ensures refused { OnErr result (Becomes (IsTorn place (length from.now)) (content_of self.old) (content_of self.new)) }
        ensures crash { Follows (IsTorn place (length from.now)) (images self.old) (images self.new) }
        ensures time { Elapses (moment_of self.old) (moment_of self.new) (images_since self.old) (images_since self.new) (images self.new) }
        ensures far { OnOk result (place + length from.now < 2 ^ 64) }
        ensures cause { HasCause (disk_health self.old) (disk_health self.new) result }
        ensures calm { OnOk result (disk_health self.new ≡ disk_health self.old) }

        // No other call fails.
        ensures only { is_ok result ≡ not (refuses self.old place (length from.now)) }
        ensures state { self.new ≡ after_write place from.now self.old }
    {
        match self.count_call(place, from.len()) {
            Ok(()) => {
                self.put(place, from);
                Ok(())
            }
            Err(Failed) => {
                self.put_front(place, from);
                Err(Failed)
            }
        }
    }

    fn cut(&mut self, size: u64) -> Result<(), Failed>
        ensures shortened { OnOk result (content_of self.new ≡ option_map (take size) (content_of self.old)) }
        ensures refused { OnErr result (Becomes (IsCutOrWhole size) (content_of self.old) (content_of self.new)) }
        ensures crash { Follows (IsCutOrWhole size) (images self.old) (images self.new) }
        ensures time { Elapses (moment_of self.old) (moment_of self.new) (images_since self.old) (images_since self.new) (images self.new) }
        ensures cause { HasCause (disk_health self.old) (disk_health self.new) result }
        ensures calm { OnOk result (disk_health self.new ≡ disk_health self.old) }

        // No other call fails.
        ensures only { is_ok result ≡ not (refuses self.old 0 0) }
        ensures state { self.new ≡ after_call (Shortened size) 0 0 self.old }
    {
        self.count_call(0, 0)?;
        self.log.cut(size);
        self.file.truncate(size as usize);
        Ok(())
    }

    fn sync(&mut self) -> Result<(), Failed>
        ensures durable { OnOk result (IfSome (content_of self.old) (Only (images self.new))) }
        ensures same { content_of self.new ≡ content_of self.old }
        ensures crash { NoMore (images self.old) (images self.new) }
        ensures time { Elapses (moment_of self.old) (moment_of self.new) (images_since self.old) (images_since self.new) (images self.new) }
        ensures cause { HasCause (disk_health self.old) (disk_health self.new) result }
        ensures calm { OnOk result (disk_health self.new ≡ disk_health self.old) }

        // No other call fails.
        ensures only { is_ok result ≡ not (refuses self.old 0 0) }
        ensures state { self.new ≡ after_call Synced 0 0 self.old }
    {
        self.count_call(0, 0)?;
        self.log.sync();
        Ok(())
    }
}
