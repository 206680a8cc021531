// What the end of an upload or of a download tells whoever reads it.
ghost use Rattle.std.specs.Prelude.{◌≡◌, ◌≢◌, ◌⊎◌, ℕ, Bool, List, [], ◌∷◌, ◌++◌, Option, Some, codes};
ghost use Rattle.ak_base.specs.declared.keys.HostKey.{HostKey};
ghost use Rattle.ak_sync_runs.specs.SyncRuns.{SyncOutside};
ghost use Rattle.ak_transfer_runs.specs.TransferRuns.{CommitsNothing, CommitsUploadOnce, EndsDownload, EndsUpload, HasDownloaded, HasUploaded, OfNext};

use ak_client_wire::Wire;

/// If an upload ends with status 0, then its session committed the device's content without its graves, once, and the device holds
/// that collection.
pub fn a_printed_upload_is_committed<W: Wire>()
    ensures { (spares : Bool) (host : HostKey) (before after : SyncOutside W.kind) (old new : Option (List ℕ))
        → EndsUpload spares host 0 before after old new → OfNext HasUploaded host before after }
{}

/// If a download ends with status 0, then the device holds what was committed where the download was served.
pub fn a_printed_download_is_the_committed<W: Wire>()
    ensures { (host : HostKey) (before after : SyncOutside W.kind) (old new : Option (List ℕ))
        → EndsDownload host 0 before after old new → OfNext HasDownloaded host before after }
{}

/// If the status is neither 0 nor 5, the device is as it was. With 5 it is so too, or as after status 0: the output failed in the line
/// that tells which.
pub fn other_ends_keep_the_device<W: Wire>()
    ensures uploads { (spares : Bool) (host : HostKey) (status : ℕ) (before after : SyncOutside W.kind) (old new : Option (List ℕ))
        → EndsUpload spares host status before after old new → status ≢ 0 → status ≢ 5 → after.keeping ≡ before.keeping }
    ensures downloads { (host : HostKey) (status : ℕ) (before after : SyncOutside W.kind) (old new : Option (List ℕ))
        → EndsDownload host status before after old new → status ≢ 0 → status ≢ 5 → after.keeping ≡ before.keeping }
    ensures untold_upload { (spares : Bool) (host : HostKey) (before after : SyncOutside W.kind) (old new : Option (List ℕ))
        → EndsUpload spares host 5 before after old new
        → (after.keeping ≡ before.keeping) ⊎ OfNext HasUploaded host before after }
    ensures untold_download { (host : HostKey) (before after : SyncOutside W.kind) (old new : Option (List ℕ))
        → EndsDownload host 5 before after old new
        → (after.keeping ≡ before.keeping) ⊎ OfNext HasDownloaded host before after }
{}

/// Whatever the status, the session of an upload committed at most once.
pub fn an_upload_commits_once<W: Wire>()
    ensures { (spares : Bool) (host : HostKey) (status : ℕ) (before after : SyncOutside W.kind) (old new : Option (List ℕ))
        → EndsUpload spares host status before after old new
        → (after ≡ before) ⊎ OfNext CommitsUploadOnce host before after }
{}

/// Whatever the status, the session of a download committed nothing.
pub fn a_download_never_commits<W: Wire>()
    ensures { (host : HostKey) (status : ℕ) (before after : SyncOutside W.kind) (old new : Option (List ℕ))
        → EndsDownload host status before after old new
        → (after ≡ before) ⊎ OfNext CommitsNothing host before after }
{}
