// A sync to whose server nothing else comes meanwhile.
ghost use Rattle.std.specs.Prelude.{◌≡◌, true};
ghost use Rattle.ak_client.specs.Syncs.{IsSync, ends_before_finish, world_at};
ghost use Rattle.ak_client.specs.declared.outcomes.Outcome.{Outcome};
ghost use Rattle.ak_client.specs.declared.outcomes.Outcome.TheVariants as outcomes;
ghost use Rattle.ak_client_wire.specs.Wires.{WireState};
ghost use Rattle.ak_exchange.specs.Asked.{asker};
ghost use Rattle.ak_exchange.specs.declared.envelopes.Ids.{Ids};
ghost use Rattle.ak_faults.specs.Causes.{Health};
ghost use Rattle.ak_keep.specs.Collections.{Collection};
ghost use Rattle.ak_keep.specs.Keepers.{Keeping};
ghost use Rattle.ak_protocol.specs.Accounts.{AccountState};
ghost use Rattle.ak_protocol.specs.Logs.{Log};
ghost use Rattle.ak_sync_completes.specs.Alone.{BeginsAlone, LeavesTheJoin};

use ak_client_wire::Wire;

/// If nothing else comes to the server, a sync that reports that it is finished leaves both sides with the join of what
/// they held before it. One that ended before its finish leaves what is committed.
pub fn syncs_alone_join<W: Wire>()
    ensures finished { (ids : Ids) (c : Collection) (account : AccountState) (old now : Log) (before left : Keeping)
        → (h0 h1 : Health) (w0 w1 : WireState W.kind) → BeginsAlone ids c account old now before w0 w1
        → IsSync ids before left h0 h1 w0 w1 outcomes.Finished
        → LeavesTheJoin c (world_at (asker ids) account old) (world_at (asker ids) account now) left }
    ensures early { (ids : Ids) (c : Collection) (account : AccountState) (old now : Log) (before left : Keeping)
        → (h0 h1 : Health) (w0 w1 : WireState W.kind) (outcome : Outcome) → BeginsAlone ids c account old now before w0 w1
        → IsSync ids before left h0 h1 w0 w1 outcome → ends_before_finish outcome ≡ true
        → (world_at (asker ids) account now).state.committed ≡ (world_at (asker ids) account old).state.committed }
{}
