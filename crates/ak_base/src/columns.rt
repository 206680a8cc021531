ghost use Rattle.std.specs.Prelude.{◌≡◌};
ghost use Rattle.ak_base.specs.Columns.{id_fault, id_or_zero_fault, stamp_fault, code_fault, long_fault, first_fault};

use crate::{LAST_ID, LAST_STAMP, RowFault};

/// The first fault of the columns, given in their order.
pub(crate) fn first_fault(faults: &[Option<RowFault>]) -> Result<(), RowFault>
    ensures { result ≡ first_fault faults.now }
{
    for fault in faults {
        if let Some(found) = fault {
            return Err(*found);
        }
    }
    Ok(())
}

/// The fault of an id column, if there is one.
#[tactic(auto, unfolding(crate::specs::Columns::id_fault))]
pub(crate) fn id_fault(id: i64) -> Option<RowFault>
    ensures { result ≡ id_fault id }
{
    if id < 1 || id > LAST_ID {
        return Some(RowFault::IdRange);
    }
    None
}

/// The fault of an id column in which 0 says that there is no row, if there is one.
#[tactic(auto, unfolding(crate::specs::Columns::id_or_zero_fault))]
pub(crate) fn id_or_zero_fault(id: i64) -> Option<RowFault>
    ensures { result ≡ id_or_zero_fault id }
{
    if id < 0 || id > LAST_ID {
        return Some(RowFault::IdRange);
    }
    None
}

/// The fault of a time of change in seconds, if there is one.
#[tactic(auto, unfolding(crate::specs::Columns::stamp_fault))]
pub(crate) fn stamp_fault(stamp: i64) -> Option<RowFault>
    ensures { result ≡ stamp_fault stamp }
{
    if stamp < 0 || stamp > LAST_STAMP {
        return Some(RowFault::StampRange);
    }
    None
}

/// The fault of a text of this many bytes, or a list of this many entries, in a column that holds `most`.
#[tactic(auto, unfolding(crate::specs::Columns::long_fault))]
pub(crate) fn long_fault(column: u8, length: u64, most: u64) -> Option<RowFault>
    ensures { result ≡ long_fault column length most }
{
    if length > most {
        return Some(RowFault::TooLong { column, length });
    }
    None
}

/// The fault of a column of whole numbers that holds `least` to `most`, if there is one.
#[tactic(auto, unfolding(crate::specs::Columns::code_fault))]
pub(crate) fn code_fault(column: u8, value: i64, least: i64, most: i64) -> Option<RowFault>
    ensures { result ≡ code_fault column value least most }
{
    if value < least || value > most {
        return Some(RowFault::BadCode { column, value });
    }
    None
}
