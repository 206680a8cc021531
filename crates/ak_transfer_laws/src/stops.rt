// An end that a server never asks for.
ghost use Rattle.std.specs.Prelude.{◌≡◌, ◌≢◌, Bool, Some};
ghost use Rattle.ak_client.specs.declared.outcomes.Outcome.{Outcome};
ghost use Rattle.ak_client.specs.declared.outcomes.Outcome.TheVariants as outcomes;
ghost use Rattle.ak_exchange.specs.declared.envelopes.Ids.{Ids};
ghost use Rattle.ak_keep.specs.Keepers.{Keeping};
ghost use Rattle.ak_protocol.specs.Logs.{Log};
ghost use Rattle.ak_transfers.specs.Greetings.{TransferOutside};
ghost use Rattle.ak_transfers.specs.Transfers.{IsDownload, IsUpload};

use ak_client_wire::Wire;

/// Over a wire that tells its log no upload and no download ends as stopped, whatever its host key is, whatever the keeper holds and whatever
/// else comes to the server: each meta that is granted lets the session go on.
pub fn transfers_are_never_stopped<W: Wire>()
    ensures uploads { (spares : Bool) (ids : Ids) (old : Log) (before left : Keeping) (was now : TransferOutside W.kind) (outcome : Outcome)
        → was.line.wire.log ≡ Some old → IsUpload spares ids before left was now outcome → outcome ≢ outcomes.Stopped }
    ensures downloads { (ids : Ids) (old : Log) (before left : Keeping) (was now : TransferOutside W.kind) (outcome : Outcome)
        → was.line.wire.log ≡ Some old → IsDownload ids before left was now outcome → outcome ≢ outcomes.Stopped }
{}
