ghost use Rattle.std.specs.Prelude.{◌≡◌, ◌≤◌, length, IfOk, IfSome, OnOk};
ghost use Rattle.ak_faults.specs.Causes.{GoesOn, HasCause, HasCauseOf};
ghost use Rattle.ak_disks.specs.Disks.{Elapses, NoMore};

use crate::faults::DiskFault;
use ak_disks::Disk;
use ak_io::Failed;
use std::alloc::Global;

/// All bytes of the file.
pub fn read_all<D: Disk>(alloc: Global, disk: &mut D) -> Result<Vec<u8>, DiskFault>
    ensures told { IfOk result (λ bytes. IfSome (D.content disk.old) (λ file. bytes.items ≡ file)) }
    ensures same { D.content disk.new ≡ D.content disk.old }
    ensures crash { NoMore (D.may_leave disk.old) (D.may_leave disk.new) }
    ensures time { Elapses (D.moment disk.old) (D.moment disk.new) (D.may_have_left disk.old) (D.may_have_left disk.new) (D.may_leave disk.old) }
    ensures cause { HasCauseOf DiskFault.Failed (D.health disk.old) (D.health disk.new) result }
    ensures calm { OnOk result (D.health disk.new ≡ D.health disk.old) }
{
    let size = disk.size()?;
    let mut bytes = Vec::new(alloc);
    bytes.resize(size as usize, 0)?;
    let count = fill(disk, bytes.as_mut_slice())?;
    bytes.truncate(count);
    Ok(bytes)
}

/// Reads from the front of the file until these bytes are full or the file ends, and answers how many it read.
fn fill<D: Disk>(disk: &mut D, into: &mut [u8]) -> Result<usize, Failed>
    ensures within { IfOk result (λ count. count ≤ length into.new) }
    ensures told { IfOk result (λ count. IfSome (D.content disk.old) (λ file. length file ≡ length into.old → (count ≡ length into.new) × (into.new ≡ file))) }
    ensures same { D.content disk.new ≡ D.content disk.old }
    ensures crash { NoMore (D.may_leave disk.old) (D.may_leave disk.new) }
    ensures time { Elapses (D.moment disk.old) (D.moment disk.new) (D.may_have_left disk.old) (D.may_have_left disk.new) (D.may_leave disk.old) }
    ensures cause { HasCause (D.health disk.old) (D.health disk.new) result }
    ensures calm { OnOk result (D.health disk.new ≡ D.health disk.old) }
{
    let mut done = 0;
    while done < into.len() {
        let count = disk.read_at(done as u64, &mut into[done..])?;
        if count == 0 {
            return Ok(done);
        }
        done += count;
    }
    Ok(done)
}
