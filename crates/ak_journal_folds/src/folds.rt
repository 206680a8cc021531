ghost use Rattle.std.specs.Prelude.{◌≡◌, ℕ, [], None, Err, IfOk};
ghost use Rattle.ak_journal_folds.specs.Folds.{IsFirstOther};
ghost use Rattle.ak_base.specs.Bytes.{bytes_of_each};
ghost use Rattle.ak_journal_rows.specs.Changes.{nothing_held};
ghost use Rattle.ak_journal_rows.specs.Texts.{LeadTo};

use crate::applied::{apply, marked};
use ak_journal_rows::{ChangeFault, read_change};
use ak_keep::Keeper;
use ak_memory::MemoryKeeper;
use std::alloc::Global;

/// Why payloads are not read as a collection.
#[derive(Clone, Copy, Debug, PartialEq, Eq)]
pub enum FoldFault {
    /// The payload at this place, from 0, is that of no change. Those before it are.
    NotOfForm(u64),
    Memory,
}

/// The collection to which these payloads lead from nothing.
pub fn fold(alloc: Global, payloads: &[Vec<u8>]) -> Result<MemoryKeeper, FoldFault>
    ensures led { IfOk result (λ keeper. LeadTo nothing_held (bytes_of_each payloads.now) keeper.kept.current) }
    ensures unmarked { IfOk result (λ keeper. keeper.kept.mark ≡ None) }

    // None of its calls is to fail.
    ensures obeys { IfOk result (λ keeper. keeper.fails ≡ []) }
    ensures refused { (place : ℕ) → result ≡ Err (FoldFault.NotOfForm place) → IsFirstOther place (bytes_of_each payloads.now) }
{
    let mut keeper = match marked(alloc) {
        Ok(keeper) => keeper,
        Err(_) => return Err(FoldFault::Memory),
    };
    let mut place = 0;
    for payload in payloads {
        let change = match read_change(alloc, payload.as_slice()) {
            Ok(change) => change,
            Err(ChangeFault::NotOfForm) => return Err(FoldFault::NotOfForm(place)),
            Err(ChangeFault::Memory) => return Err(FoldFault::Memory),
        };
        match apply(alloc, &mut keeper, change) {
            Ok(()) => {},
            Err(_) => return Err(FoldFault::Memory),
        }
        place += 1;
    }
    match keeper.commit() {
        Ok(()) => Ok(keeper),
        Err(_) => Err(FoldFault::Memory),
    }
}
