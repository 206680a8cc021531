ghost use Rattle.std.specs.Prelude.{◌≡◌, ◌⊎◌, ◌++◌, ◌∷◌, [], true, Err, None, Some, OnErr, OnOk, option_map};
ghost use Rattle.ak_faults.specs.Causes.{HasCause, HasCauseOf};
ghost use Rattle.ak_journals.specs.Journals.{IsInOrder, StandsAfter, kept, under_way};
ghost use Rattle.ak_journals.specs.Moments.{LeavesOnly};

use crate::faults::DiskFault;
use crate::steps::{cut_synced, write_synced};
use ak_disks::Disk;
use ak_io::Failed;
use ak_journal_forms::{OPEN, SHUT, closed_frame};

/// Payloads on a disk, one frame for each, and behind them a gate that is not open.
#[derive(Drop)]
pub struct Journal<D: Disk> {
    pub(crate) disk: D,
    /// The place of that gate.
    pub(crate) gate: u64,
    /// It is known that a shut gate stands there and nothing behind it, on the disk too.
    pub(crate) ready: bool,
    /// The payload of the commit that was refused since the last mark.
    pub(crate) under_way: Option<Vec<u8>>,
}

impl<D: Disk> Journal<D> {
    /// Whether a commit may come; else a mark comes first.
    pub fn is_ready(&self) -> bool
        ensures { result ≡ self.now.ready }
    {
        self.ready
    }

    /// The count of its disk's faults. It takes no memory.
    pub fn faults(&self) -> u64
        ensures { result ≡ (D.health self.now.disk).faults }
    {
        self.disk.faults()
    }

    /// The disk, given back.
    pub fn into_disk(self) -> D
        ensures { result ≡ self.disk }
    {
        let Journal {
            disk,
            gate: _,
            ready: _,
            under_way,
        } = self;
        drop(under_way);
        disk
    }

    /// Adds a payload. At Ok it is kept, and each later crash leaves it; at Err it is under way until the next mark
    /// that answers Ok.
    pub fn commit(&mut self, payload: Vec<u8>) -> Result<(), DiskFault>
        requires in_order { IsInOrder D.content D.may_leave self.old }
        requires ready { self.old.ready ≡ true }
        ensures in_order { IsInOrder D.content D.may_leave self.new }
        ensures kept { OnOk result (kept D.content self.new ≡ option_map (λ payloads. payloads ++ payload.items ∷ []) (kept D.content self.old)) }
        ensures still_ready { OnOk result (self.new.ready ≡ true) }
        ensures done { OnOk result (self.new.under_way ≡ None) }
        ensures refused { OnErr result (kept D.content self.new ≡ kept D.content self.old) }
        ensures left { OnErr result ((under_way self.new ≡ None) ⊎ (under_way self.new ≡ Some payload.items)) }

        // Where memory runs out, nothing was done.
        ensures memory { result ≡ Err DiskFault.Memory → self.new ≡ self.old }

        // A crash at any moment of the call leaves what was kept, or the payload under way too.
        ensures any_moment { LeavesOnly D.moment D.may_have_left self.old.disk self.new.disk (StandsAfter D.content self.old (Some payload.items)) }
        ensures cause { HasCauseOf DiskFault.Failed (D.health self.old.disk) (D.health self.new.disk) result }
        ensures calm { OnOk result (D.health self.new.disk ≡ D.health self.old.disk) }
    {
        let bytes = payload.as_slice();
        let behind = closed_frame(*payload.allocator(), bytes)?;
        let size = bytes.len() as u64;
        self.ready = false;
        self.under_way = Some(payload);
        write_synced(&mut self.disk, self.gate + 1, behind.as_slice())?;
        write_synced(&mut self.disk, self.gate, &[OPEN])?;
        self.gate += 9 + size;
        self.ready = true;
        self.under_way = None;
        Ok(())
    }

    /// Makes the journal ready for a commit: after it was opened, and after a refused commit, what stands at the gate is
    /// cut off and a shut gate is written.
    pub fn mark(&mut self) -> Result<(), Failed>
        requires { IsInOrder D.content D.may_leave self.old }
        ensures in_order { IsInOrder D.content D.may_leave self.new }
        ensures kept { kept D.content self.new ≡ kept D.content self.old }
        ensures ready { OnOk result (self.new.ready ≡ true) }
        ensures done { OnOk result (self.new.under_way ≡ None) }
        ensures left { OnErr result (self.new.under_way ≡ self.old.under_way) }

        // If it is ready, nothing is done.
        ensures idle { self.old.ready ≡ true → self.new ≡ self.old }

        // A crash at any moment of the call leaves what one before it might have left, or what is kept.
        ensures any_moment { LeavesOnly D.moment D.may_have_left self.old.disk self.new.disk
            (λ image. D.may_leave self.old.disk image ⊎ StandsAfter D.content self.old None image) }
        ensures cause { HasCause (D.health self.old.disk) (D.health self.new.disk) result }
        ensures calm { OnOk result (D.health self.new.disk ≡ D.health self.old.disk) }
    {
        if self.ready {
            return Ok(());
        }
        cut_synced(&mut self.disk, self.gate)?;
        write_synced(&mut self.disk, self.gate, &[SHUT])?;
        self.ready = true;
        self.under_way = None;
        Ok(())
    }
}
