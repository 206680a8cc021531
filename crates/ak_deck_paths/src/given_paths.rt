ghost use Rattle.std.specs.Prelude.{◌≡◌, None, IfErr, OnOk};
ghost use Rattle.std.specs.List.{list_any};
ghost use Rattle.ak_edit.specs.Refusals.{AnswersBy};
ghost use Rattle.ak_deck_paths.specs.GivenPaths.{IsRowFault, RefusesPath, has_empty_part, is_control, path_fault};

use ak_base::{NAME_BYTES, RowFault, next_part};
use ak_edit::DeskFault;

/// Tests the path that a deck is to have: it has at most 512 bytes, none of them is under a space, and no part of it is empty. It
/// takes no memory.
pub fn check_path(path: &str) -> Result<(), DeskFault>
    ensures refused { AnswersBy (RefusesPath path.now) result }
    ensures given { OnOk result (path_fault path.now ≡ None) }
    ensures listed { IfErr result IsRowFault }
{
    let found = path_fault(path);
    match found {
        Some(fault) => Err(DeskFault::Row(fault)),
        None => Ok(()),
    }
}

/// The fault of a path.
fn path_fault(path: &str) -> Option<RowFault>
    ensures { result ≡ path_fault path.now }
{
    let bytes = path.as_bytes();
    let length = bytes.len() as u64;
    if length > NAME_BYTES {
        return Some(RowFault::TooLong { column: 3, length });
    }
    if has_control(bytes) || has_empty_part(path) {
        return Some(RowFault::BadCode {
            column: 3,
            value: 0,
        });
    }
    None
}

/// Whether one of the bytes is under a space.
fn has_control(bytes: &[u8]) -> bool
    ensures { result ≡ list_any is_control bytes.now }
{
    for byte in bytes {
        if *byte < 32 {
            return true;
        }
    }
    false
}

/// Whether one of the path's parts is empty.
fn has_empty_part(path: &str) -> bool
    ensures { result ≡ has_empty_part path.now }
{
    let mut rest = path;
    while let Some((part, below)) = next_part(rest) {
        if part.is_empty() {
            return true;
        }
        rest = below;
    }
    rest.is_empty()
}
