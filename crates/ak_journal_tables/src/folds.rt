ghost use Rattle.std.specs.Prelude.{◌≡◌, ◌≤◌, ◌<◌, ◌^◌, ℕ, [], length, take, None, Err, IfOk};
ghost use Rattle.ak_journal_forms.specs.Frames.{frames_length};
ghost use Rattle.ak_base.specs.Bytes.{bytes_of_each};
ghost use Rattle.ak_journal_rows.specs.Changes.{nothing_held};
ghost use Rattle.ak_journal_rows.specs.Texts.{LeadTo};
ghost use Rattle.ak_journal_tables.specs.Holdings.{IsOtherOf};

use ak_journal_folds::{FoldFault, fold};
use ak_journals::JournalFault;
use ak_memory::MemoryKeeper;
use std::alloc::Global;

/// The collection to which the payloads of a file lead. A payload that is that of no change is told by the place of its gate.
pub(crate) fn collection_of(
    alloc: Global,
    payloads: &[Vec<u8>],
) -> Result<MemoryKeeper, JournalFault>
    requires fits { frames_length (bytes_of_each payloads.now) < 2 ^ 64 }
    ensures led { IfOk result (λ keeper. LeadTo nothing_held (bytes_of_each payloads.now) keeper.kept.current) }
    ensures unmarked { IfOk result (λ keeper. keeper.kept.mark ≡ None) }
    ensures obeys { IfOk result (λ keeper. keeper.fails ≡ []) }
    ensures damaged { (gate : ℕ) → result ≡ Err (JournalFault.Damaged gate) → IsOtherOf gate (bytes_of_each payloads.now) }
    ensures unfailing { result ≡ Err JournalFault.Failed → ⊥ }
{
    match fold(alloc, payloads) {
        Ok(keeper) => Ok(keeper),
        Err(FoldFault::NotOfForm(place)) => Err(JournalFault::Damaged(gate_of(payloads, place))),
        Err(FoldFault::Memory) => Err(JournalFault::Memory),
    }
}

/// The place of the gate of the payload at this place among these.
fn gate_of(payloads: &[Vec<u8>], place: u64) -> u64
    requires within { place ≤ length payloads.now }
    requires fits { frames_length (bytes_of_each payloads.now) < 2 ^ 64 }
    ensures { result ≡ frames_length (bytes_of_each (take place payloads.now)) }
{
    frames_size(front(payloads, place))
}

/// So many of the payloads, from the first on.
fn front(payloads: &[Vec<u8>], count: u64) -> &[Vec<u8>]
    requires { count ≤ length payloads.now }
    ensures { result.now ≡ take count payloads.now }
{
    &payloads[..count as usize]
}

/// How many bytes the frames of these payloads have.
fn frames_size(payloads: &[Vec<u8>]) -> u64
    requires { frames_length (bytes_of_each payloads.now) < 2 ^ 64 }
    ensures { result ≡ frames_length (bytes_of_each payloads.now) }
{
    let mut size = 0;
    for payload in payloads {
        size += 9 + payload.len() as u64;
    }
    size
}
