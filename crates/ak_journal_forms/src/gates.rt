ghost use Rattle.std.specs.Prelude.{◌≡◌, IfOk, MatchOption};
ghost use Rattle.ak_journal_forms.specs.Frames.{IsOpen, IsShut, behind_gate};

use ak_base::Memory;
use std::alloc::Global;

/// The byte of a gate that is open.
pub const OPEN: u8 = 1;

/// The byte of a gate that is shut.
pub const SHUT: u8 = 0;

/// The length of the payload behind the gate at which these bytes begin; none if the gate is not open.
pub fn read_gate(rest: &[u8]) -> Option<u64>
    ensures { MatchOption result (IsShut rest.now) (λ size. IsOpen rest.now size) }
{
    let (gate, behind) = rest.split_first()?;
    let (head, _) = behind.split_first_chunk::<8>()?;
    if *gate == OPEN {
        return Some(u64::from_be_bytes(*head));
    }
    None
}

/// What is written behind a shut gate for this payload: its length, the payload, and the next gate, shut.
pub fn closed_frame(alloc: Global, payload: &[u8]) -> Result<Vec<u8>, Memory>
    ensures { IfOk result (λ bytes. bytes.items ≡ behind_gate payload.now) }
{
    let mut bytes = Vec::from_slice(alloc, (payload.len() as u64).to_be_bytes().as_slice())?;
    bytes.extend_from_slice(payload)?;
    bytes.push(SHUT)?;
    Ok(bytes)
}
