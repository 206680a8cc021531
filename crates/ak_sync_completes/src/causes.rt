// Why a sync ends over a wire that tells its log, also if others use the server meanwhile.
ghost use Rattle.std.specs.Prelude.{◌≡◌};
ghost use Rattle.ak_client.specs.Outcomes.{HasOutcomeCause};
ghost use Rattle.ak_client.specs.declared.outcomes.Outcome.{Outcome};
ghost use Rattle.ak_client.specs.declared.outcomes.Outcome.TheVariants as outcomes;
ghost use Rattle.ak_exchange.specs.declared.envelopes.Ids.{Ids};
ghost use Rattle.ak_keep.specs.Collections.{Collection};
ghost use Rattle.ak_merge.specs.Holdings.{row_under};
ghost use Rattle.ak_merge.specs.Joins.{joined_under};
ghost use Rattle.ak_merge.specs.Soundness.{IsLeastFault};
ghost use Rattle.ak_merge.specs.declared.checks.CheckFault.{CheckFault};
ghost use Rattle.ak_protocol.specs.Accounts.{AccountState};
ghost use Rattle.ak_sync_completes.specs.Causes.{IsSyncTold};
ghost use Rattle.ak_sync_completes.specs.Completing.{SyncEnds};

use ak_client_wire::Wire;

/// Whoever else uses the server, a sync whose keeper and wire tell what they hold ends at a bad reply only if the wire counted one that
/// can't be read, and never over a wire that is known to read all. A bad row that it shows is the first fault of the join of the device
/// and what was committed at its meta. So it is if the sync may begin (its host key is a lawful account's, its session key is unused, the
/// device is linked), and if no upload meanwhile gives just the device's schema moment.
pub fn told_ends_have_causes<W: Wire>()
    ensures unread { (ids : Ids) (c : Collection) (account : AccountState) (before after : SyncEnds W.kind) (outcome : Outcome)
        → IsSyncTold ids c account before after outcome
        → HasOutcomeCause outcomes.BadReply before.wire.reading after.wire.reading outcome }
    ensures first { (ids : Ids) (c : Collection) (account : AccountState) (before after : SyncEnds W.kind) (outcome : Outcome)
        → (it : IsSyncTold ids c account before after outcome) → (fault : CheckFault) → outcome ≡ outcomes.BadRow fault
        → IsLeastFault (joined_under (row_under c) (row_under it.synced.base)) fault }
{}
