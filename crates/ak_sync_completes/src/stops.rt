// An end that a server never asks for.
ghost use Rattle.std.specs.Prelude.{◌≡◌, ◌≢◌, ℤ, List, Option, Some};
ghost use Rattle.ak_client.specs.Syncs.{IsSyncEnded};
ghost use Rattle.ak_client.specs.declared.outcomes.Outcome.{Outcome};
ghost use Rattle.ak_client.specs.declared.outcomes.Outcome.TheVariants as outcomes;
ghost use Rattle.ak_client_wire.specs.Wires.{WireState};
ghost use Rattle.ak_exchange.specs.declared.envelopes.Ids.{Ids};
ghost use Rattle.ak_faults.specs.Causes.{Health};
ghost use Rattle.ak_keep.specs.Collections.{Holding};
ghost use Rattle.ak_keep.specs.Keepers.{Keeping};
ghost use Rattle.ak_keep.specs.Marks.{WithMark};
ghost use Rattle.ak_protocol.specs.Logs.{Log};

use ak_client_wire::Wire;

/// Over a wire that tells its log a sync whose keeper tells what it holds never ends as stopped, whatever that is, whatever its host key
/// is and whatever else comes to the server: each meta that is granted lets the sync go on.
pub fn syncs_are_never_stopped<W: Wire>()
    ensures { (ids : Ids) (old : Log) (held : WithMark Holding) (before left : Keeping)
        → (health_before health_now : Health) (wire_before wire_now : WireState W.kind) (moments : Option (List ℤ)) (outcome : Outcome)
        → wire_before.log ≡ Some old → before.told ≡ Some held
        → IsSyncEnded ids before left health_before health_now wire_before wire_now moments outcome
        → outcome ≢ outcomes.Stopped }
{}
