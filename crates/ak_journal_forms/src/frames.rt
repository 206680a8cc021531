ghost use Rattle.std.specs.Prelude.{◌≡◌, ℕ, Err, IfOk};
ghost use Rattle.ak_journal_forms.specs.Frames.{IsDamagedAt, StandsTo, frames_length};
ghost use Rattle.ak_base.specs.Bytes.{bytes_of_each};

use crate::gates::read_gate;
use ak_disks::{part, rest};
use std::alloc::{AllocError, AllocFailed, Global};

/// Why a file is not read as a journal.
#[derive(Clone, Copy, Debug, PartialEq, Eq)]
pub enum FormFault {
    /// The gate at this place is open, and its payload is cut off.
    Damaged(u64),
    Memory,
}

impl From<AllocError> for FormFault {
    ghost use Rattle.ak_journal_forms.specs.declared.frames.FormFault.TheVariants.{Memory as OutOfMemory};

    ghost from_gives = { λ _ fault. fault ≡ OutOfMemory };

    fn from(_error: AllocError) -> FormFault {
        FormFault::Memory
    }
}

impl<T: Drop> From<AllocFailed<T>> for FormFault {
    ghost use Rattle.ak_journal_forms.specs.declared.frames.FormFault.TheVariants.{Memory as OutOfMemory};

    ghost from_gives = { λ _ fault. fault ≡ OutOfMemory };

    fn from(_error: AllocFailed<T>) -> FormFault {
        FormFault::Memory
    }
}

/// The frames of a file, up to the first gate that is not open.
#[derive(Debug, Drop)]
pub struct Frames {
    pub payloads: Vec<Vec<u8>>,
    /// The place of that gate.
    pub gate: usize,
}

/// Reads the frames of a file, up to the first gate that is not open. A length past the file's end takes no memory.
pub fn read_frames(alloc: Global, file: &[u8]) -> Result<Frames, FormFault>
    ensures read { IfOk result (λ frames. StandsTo (bytes_of_each frames.payloads.items) frames.gate file.now) }
    // The gate stands behind the frames that were read.
    ensures gate { IfOk result (λ frames. frames.gate ≡ frames_length (bytes_of_each frames.payloads.items)) }
    ensures damaged { (place : ℕ) → result ≡ Err (FormFault.Damaged place) → IsDamagedAt place file.now }
{
    let mut payloads = Vec::new(alloc);
    let mut gate = 0;
    while let Some(size) = read_gate(rest(file, gate)) {
        if size > rest(file, gate + 9).len() as u64 {
            return Err(FormFault::Damaged(gate as u64));
        }
        let payload = part(file, gate + 9, size as usize);
        payloads.push(Vec::from_slice(alloc, payload)?)?;
        gate += 9 + size as usize;
    }
    Ok(Frames { payloads, gate })
}
