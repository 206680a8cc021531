ghost use Rattle.std.specs.Prelude.{◌≡◌, ◌++◌, length};
ghost use Rattle.std.specs.Io.KnownBytes.{Consumes};
ghost use Rattle.ak_faults.specs.Causes.{HasCauseOf};
ghost use Rattle.ak_account_keepers.specs.Files.{ReadsFile, ReadsPiece};
ghost use Rattle.ak_account_keepers.specs.declared.files.FileFault.TheVariants as faults;

use ak_base::List;
use ak_io::{Failed, Source};
use ak_links::Named;
use std::alloc::{AllocError, Global};

/// How many bytes a file of accounts has at most.
const FILE_LIMIT: usize = 1_048_576;

/// How many bytes of it are read at a time.
const PIECE_SIZE: usize = 4096;

/// Why a file was not read.
#[derive(Clone, Copy, Debug, PartialEq, Eq)]
pub(crate) enum FileFault {
    /// It has more than 1,048,576 bytes.
    TooLong,
    /// The file failed.
    Failed,
    /// Out of memory.
    Memory,
}

/// The whole file of this name. Of one that is too long no more than a piece past the limit is read.
pub(crate) fn read_file<S: Named>(
    alloc: Global,
    file: &mut S,
    name: &str,
) -> Result<List<u8>, FileFault>
    ensures told { ReadsFile (S.left file.old) result }
    ensures cause { HasCauseOf faults.Failed (S.health file.old) (S.health file.new) result }
{
    file.open(name)?;
    read_all(alloc, file)
}

/// All that is left.
fn read_all<S: Source>(alloc: Global, source: &mut S) -> Result<List<u8>, FileFault>
    ensures told { ReadsFile (S.left source.old) result }
    ensures cause { HasCauseOf faults.Failed (S.health source.old) (S.health source.new) result }
{
    let mut bytes = Vec::new(alloc);
    while bytes.as_slice().len() <= FILE_LIMIT {
        let count = read_piece(source, &mut bytes)?;
        if count == 0 {
            return Ok(List::of(bytes));
        }
    }
    Err(FileFault::TooLong)
}

/// Reads the next bytes, and adds them to those that were read. No byte is the end.
fn read_piece<S: Source>(source: &mut S, bytes: &mut Vec<u8>) -> Result<usize, FileFault>
    ensures told { ReadsPiece (S.left source.old) (S.left source.new) bytes.old.items bytes.new.items result }
    ensures cause { HasCauseOf faults.Failed (S.health source.old) (S.health source.new) result }
{
    let mut piece = [0u8; PIECE_SIZE];
    let count = source.read(&mut piece)?;
    bytes.extend_from_slice(&piece[..count])?;
    Ok(count)
}

impl From<Failed> for FileFault {
    ghost use Rattle.std.specs.Prelude.{◌≡◌};
    ghost use Rattle.ak_account_keepers.specs.declared.files.FileFault.TheVariants as faults;

    ghost from_gives = { λ failed fault. fault ≡ faults.Failed };

    fn from(_failed: Failed) -> FileFault {
        FileFault::Failed
    }
}

impl From<AllocError> for FileFault {
    ghost use Rattle.std.specs.Prelude.{◌≡◌};
    ghost use Rattle.ak_account_keepers.specs.declared.files.FileFault.TheVariants as faults;

    ghost from_gives = { λ error fault. fault ≡ faults.Memory };

    fn from(_error: AllocError) -> FileFault {
        FileFault::Memory
    }
}
