ghost use Rattle.std.specs.Prelude.{◌≡◌, ◌+◌, ◌^◌, ◌<◌, ℕ, Err, None, IfErr, IfOk, IfSome, OnOk, option_map};
ghost use Rattle.std.specs.Option.{ForSome};
ghost use Rattle.ak_faults.specs.Causes.{HasCauseOf, Rose};
ghost use Rattle.ak_disks.specs.Disks.{Elapses, NoMore, Only};
ghost use Rattle.ak_journal_forms.specs.Frames.{IsDamagedAt, StandsFor, StandsTo, frames_length};
ghost use Rattle.ak_base.specs.Bytes.{bytes_of_each};
ghost use Rattle.ak_journals.specs.Journals.{IsInOrder, kept};
ghost use Rattle.ak_journals.specs.Moments.{LeavesOnly};

use crate::faults::DiskFault;
use crate::journals::Journal;
use crate::reads::read_all;
use ak_disks::Disk;
use ak_io::Failed;
use ak_journal_forms::{FormFault, Frames, read_frames};
use std::alloc::Global;

/// Why a disk is not opened as a journal.
#[derive(Clone, Copy, Debug, PartialEq, Eq)]
pub enum JournalFault {
    /// The gate at this place is open, and its payload is cut off.
    Damaged(u64),
    /// The disk refused. It comes only from a call in which the disk's count of faults rose.
    Failed,
    Memory,
}

impl From<DiskFault> for JournalFault {
    ghost use Rattle.std.specs.Prelude.{◌≡◌};
    ghost use Rattle.ak_journals.specs.Faults.{of_disk};

    ghost from_gives = { λ fault made. made ≡ of_disk fault };

    fn from(fault: DiskFault) -> JournalFault {
        match fault {
            DiskFault::Failed => JournalFault::Failed,
            DiskFault::Memory => JournalFault::Memory,
        }
    }
}

impl From<FormFault> for JournalFault {
    ghost use Rattle.std.specs.Prelude.{◌≡◌};
    ghost use Rattle.ak_journals.specs.Faults.{of_form};

    ghost from_gives = { λ fault made. made ≡ of_form fault };

    fn from(fault: FormFault) -> JournalFault {
        match fault {
            FormFault::Damaged(place) => JournalFault::Damaged(place),
            FormFault::Memory => JournalFault::Memory,
        }
    }
}

/// A journal, and the payloads that it kept when it was opened.
#[derive(Drop)]
pub struct Opened<D: Disk> {
    /// It is not ready: a mark comes before its first commit.
    pub journal: Journal<D>,
    /// The oldest first.
    pub payloads: Vec<Vec<u8>>,
}

/// Opens a disk that a crash may have left: brings its file to the disk and reads the payloads for which it stands. It
/// writes nothing: the caller judges the payloads, and then a mark cuts off what is behind them and makes the journal
/// ready. A refusal gives the disk back.
pub fn open<D: Disk>(alloc: Global, disk: D) -> Result<Opened<D>, (JournalFault, D)>
    ensures read { IfOk result (λ opened. ForSome (D.content disk) (StandsFor (bytes_of_each opened.payloads.items))) }
    ensures kept { IfOk result (λ opened. kept D.content opened.journal ≡ option_map (λ _. bytes_of_each opened.payloads.items) (D.content disk)) }
    ensures in_order { IfOk result (λ opened. IsInOrder D.content D.may_leave opened.journal) }
    ensures done { IfOk result (λ opened. opened.journal.under_way ≡ None) }

    // Its gate stands behind the frames of these payloads, so the gate of each stands behind those before it.
    ensures gate { IfOk result (λ opened. opened.journal.gate ≡ frames_length (bytes_of_each opened.payloads.items)) }

    // At the place that is told a gate is open, and its payload is cut off.
    ensures damaged { IfErr result (λ refused. (place : ℕ) → refused.0 ≡ JournalFault.Damaged place → ForSome (D.content disk) (IsDamagedAt place)) }

    // The file stays as it was, and a crash at any moment of the call leaves what one before it might have left.
    ensures same { IfOk result (λ opened. D.content opened.journal.disk ≡ D.content disk) }
    ensures same_err { IfErr result (λ refused. D.content refused.1 ≡ D.content disk) }
    ensures any_moment { IfOk result (λ opened. LeavesOnly D.moment D.may_have_left disk opened.journal.disk (D.may_leave disk)) }
    ensures any_moment_err { IfErr result (λ refused. LeavesOnly D.moment D.may_have_left disk refused.1 (D.may_leave disk)) }
    ensures cause { IfErr result (λ refused. refused.0 ≡ JournalFault.Failed → Rose (D.health disk) (D.health refused.1)) }
    ensures calm { IfOk result (λ opened. D.health opened.journal.disk ≡ D.health disk) }
{
    let mut disk = disk;
    let frames = match read_synced(alloc, &mut disk) {
        Ok(frames) => frames,
        Err(fault) => return Err((fault, disk)),
    };
    let Frames { payloads, gate } = frames;
    let journal = Journal {
        disk,
        gate: gate as u64,
        ready: false,
        under_way: None,
    };
    Ok(Opened { journal, payloads })
}

/// Brings the file to the disk and reads its frames.
fn read_synced<D: Disk>(alloc: Global, disk: &mut D) -> Result<Frames, JournalFault>
    ensures read { IfOk result (λ frames. ForSome (D.content disk.old) (StandsTo (bytes_of_each frames.payloads.items) frames.gate)) }
    ensures fits { IfOk result (λ frames. frames.gate + 1 < 2 ^ 64) }
    ensures gate { IfOk result (λ frames. frames.gate ≡ frames_length (bytes_of_each frames.payloads.items)) }
    ensures durable { OnOk result (ForSome (D.content disk.old) (Only (D.may_leave disk.new))) }
    ensures damaged { (place : ℕ) → result ≡ Err (JournalFault.Damaged place) → ForSome (D.content disk.old) (IsDamagedAt place) }
    ensures same { D.content disk.new ≡ D.content disk.old }
    ensures crash { NoMore (D.may_leave disk.old) (D.may_leave disk.new) }
    ensures time { Elapses (D.moment disk.old) (D.moment disk.new) (D.may_have_left disk.old) (D.may_have_left disk.new) (D.may_leave disk.old) }
    ensures cause { HasCauseOf JournalFault.Failed (D.health disk.old) (D.health disk.new) result }
    ensures calm { OnOk result (D.health disk.new ≡ D.health disk.old) }
{
    match disk.sync() {
        Ok(()) => {}
        Err(_) => return Err(JournalFault::Failed),
    }
    let bytes = read_all(alloc, disk)?;
    Ok(read_frames(alloc, bytes.as_slice())?)
}
