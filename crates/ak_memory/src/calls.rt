ghost use Rattle.std.specs.Prelude.{◌≡◌};
ghost use Rattle.ak_faults.specs.Calls.{is_named};
ghost use Rattle.ak_keep.specs.Keepers.{KeepCause};
ghost use Rattle.ak_keep.specs.MemoryKeepers.{FailsWhere, answer_of, calls_after, calls_health};

use ak_faults::Calls;
use ak_keep::KeepFault;

/// Counts a call of a keeper, and refuses it if it is to fail.
pub(crate) fn next_call(calls: &mut Calls) -> Result<(), KeepFault>
    ensures answer { result ≡ answer_of (is_named calls.old.count calls.old.fails.items) tt }
    ensures fails { FailsWhere (is_named calls.old.count calls.old.fails.items) result }
    ensures cause { KeepCause (calls_health calls.old) (calls_health calls.new) result }
    ensures calls { calls.new ≡ calls_after calls.old }
{
    if calls.is_next_named() {
        calls.count_fault();
        return Err(KeepFault::Failed);
    }
    Ok(())
}
