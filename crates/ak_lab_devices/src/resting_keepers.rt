ghost use Rattle.std.specs.Prelude.{◌≡◌, Some, Ok, Err, IfOk, OnErr};
ghost use Rattle.std.specs.Result.{IsErrOf};
ghost use Rattle.ak_keep.specs.declared.keepers.KeepFault.TheVariants.{Failed, Memory as NoMemory};
ghost use Rattle.ak_lab_devices.specs.RestingKeepers.{IsAtRest};

use ak_base::{Head, Memory};
use ak_keep::{KeepFault, Lookup};
use ak_memory::MemoryKeeper;

/// The head that is held.
pub(crate) fn head_at_rest(keeper: &mut MemoryKeeper) -> Result<Head, Memory>
    requires rest { IsAtRest keeper.old }
    ensures rest { IsAtRest keeper.new }
    ensures head { IfOk result (λ head. keeper.old.kept.current.head ≡ Some head) }
    ensures same { keeper.new.kept ≡ keeper.old.kept }
{
    match unfailed(keeper.head())? {
        Some(head) => Ok(head),
        None => unreachable!(),
    }
}

/// What a keeper answers none of whose calls is to fail: it is refused if memory is out alone.
pub fn unfailed<T>(answer: Result<T, KeepFault>) -> Result<T, Memory>
    requires { IsErrOf answer Failed → ⊥ }
    ensures ok { IfOk result (λ it. answer ≡ Ok it) }
    ensures err { OnErr result (answer ≡ Err NoMemory) }
{
    match answer {
        Ok(it) => Ok(it),
        Err(KeepFault::Memory) => Err(Memory),
        // A calm keeper does not fail.
        Err(KeepFault::Failed) => unreachable!(),
    }
}
