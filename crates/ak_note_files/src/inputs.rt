ghost use Rattle.std.specs.Prelude.{◌≡◌, IfOk};
ghost use Rattle.std.specs.Io.KnownBytes.{IsAtEnd};
ghost use Rattle.ak_faults.specs.Causes.{HasCauseOf};
ghost use Rattle.ak_note_files.specs.Inputs.{ReadsInput, ReadsPiece};
ghost use Rattle.ak_note_files.specs.declared.inputs.InputFault.TheVariants as faults;

use ak_io::{Failed, INPUT_LIMIT, Source};
use std::alloc::{AllocError, Global};

/// How many bytes are read at a time.
const PIECE_SIZE: usize = 4096;

/// Why an input was not read to its end.
#[derive(Clone, Copy, Debug, PartialEq, Eq)]
pub(crate) enum InputFault {
    /// It has more bytes than an input holds.
    TooLong,
    /// The input failed.
    Failed,
    /// Out of memory.
    Memory,
}

/// All that is left of the input. Of one that is too long no more than a piece past the limit is read.
pub(crate) fn read_input<I: Source>(alloc: Global, input: &mut I) -> Result<Vec<u8>, InputFault>
    ensures told { ReadsInput (I.left input.old) result }
    ensures ended { IfOk result (λ bytes. IsAtEnd (I.left input.new)) }
    ensures cause { HasCauseOf faults.Failed (I.health input.old) (I.health input.new) result }
{
    let mut bytes = Vec::new(alloc);
    while bytes.as_slice().len() as u64 <= INPUT_LIMIT {
        let count = read_piece(input, &mut bytes)?;
        if count == 0 {
            return Ok(bytes);
        }
    }
    Err(InputFault::TooLong)
}

/// Reads the next bytes, and adds them to those that were read. No byte is the end.
fn read_piece<I: Source>(input: &mut I, bytes: &mut Vec<u8>) -> Result<usize, InputFault>
    ensures told { ReadsPiece (I.left input.old) (I.left input.new) bytes.old.items bytes.new.items result }
    ensures cause { HasCauseOf faults.Failed (I.health input.old) (I.health input.new) result }
{
    let mut piece = [0u8; PIECE_SIZE];
    let count = input.read(&mut piece)?;
    bytes.extend_from_slice(&piece[..count])?;
    Ok(count)
}

impl From<Failed> for InputFault {
    ghost use Rattle.std.specs.Prelude.{◌≡◌};
    ghost use Rattle.ak_note_files.specs.declared.inputs.InputFault.TheVariants as faults;

    ghost from_gives = { λ failed fault. fault ≡ faults.Failed };

    fn from(_failed: Failed) -> InputFault {
        InputFault::Failed
    }
}

impl From<AllocError> for InputFault {
    ghost use Rattle.std.specs.Prelude.{◌≡◌};
    ghost use Rattle.ak_note_files.specs.declared.inputs.InputFault.TheVariants as faults;

    ghost from_gives = { λ error fault. fault ≡ faults.Memory };

    fn from(_error: AllocError) -> InputFault {
        InputFault::Memory
    }
}
