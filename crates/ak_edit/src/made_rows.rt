ghost use Rattle.std.specs.Prelude.{◌≡◌};
ghost use Rattle.ak_edit.specs.MadeRows.{check_of_rows, check_of_write, have_stamps_left, is_stamp_left};

use crate::plans::Write;
use ak_base::{LAST_STAMP, RowFault};

/// The first fault of a row that is made, in the order of the writes. Its stamp is not tested here.
pub(crate) fn check_rows(writes: &[Write]) -> Result<(), RowFault>
    ensures { result ≡ check_of_rows writes.now }
{
    for write in writes {
        check_row(write)?;
    }
    Ok(())
}

/// The first fault of the row that is made, if one is.
fn check_row(write: &Write) -> Result<(), RowFault>
    ensures { result ≡ check_of_write write.now }
{
    match &write.row {
        Some(row) => row.check(),
        None => Ok(()),
    }
}

/// Whether no stamp is past the last one.
pub(crate) fn have_stamps_left(writes: &[Write]) -> bool
    ensures { result ≡ have_stamps_left writes.now }
{
    for write in writes {
        if !is_stamp_left(write) {
            return false;
        }
    }
    true
}

/// Whether the stamp is 0 to the last one.
fn is_stamp_left(write: &Write) -> bool
    ensures { result ≡ is_stamp_left write.now }
{
    0 <= write.stamp && write.stamp <= LAST_STAMP
}
