// What a user may rely on in a lab: a sync that finished leaves both sides with the join of what they held, and any other what they held.
ghost use Rattle.std.specs.List.{AllByRecursion};
ghost use Rattle.std.specs.Prelude.{◌≡◌, ◌≢◌, ◌+◌, ◌+ℤ◌, ◌<◌, ◌∷◌, [], ℕ, ℤ, Bool, List, Option as Maybe, codes, false, length, true};
ghost use Rattle.ak_client.specs.declared.outcomes.Outcome.{Outcome};
ghost use Rattle.ak_client.specs.declared.outcomes.Outcome.TheVariants as outcomes;
ghost use Rattle.ak_exchange.specs.Phases.{held_by};
ghost use Rattle.ak_faults.specs.Calls.{names_none};
ghost use Rattle.ak_faults.specs.Causes.{one_more};
ghost use Rattle.ak_io.specs.declared.lines.Line.{Line};
ghost use Rattle.ak_keep.specs.Collections.{Collection, IsWellFormed};
ghost use Rattle.ak_lab_joins.specs.LabJoins.{
  Agrees,
  AllGoFresh,
  AllGoUncrossed,
  AreUnlike,
  DeviceHolds,
  LeavesDownload,
  Finishes,
  GoFresh,
  HasFreshCheck,
  HasFreshCommits,
  HasNoUpload,
  HasNoPlans,
  HasOrderedSchemas,
  HasSession,
  IsFinish,
  IsLevelFresh,
  IsLinkedLab,
  KeepsCommitted,
  KeepsSides,
  KeepsTransferSides,
  PlansNothing,
  RunsToSync,
  SaysNoAct,
  SaysNoUpload,
  SaysPlain,
  TakesFreshSchemas,
  LeavesUpload,
  committed_of,
  device_names,
  lab_world,
};
ghost use Rattle.ak_lab_joins.specs.EachCrossed.{HoldsOfEachCrossed};
ghost use Rattle.ak_lab_joins.specs.LabCrossings.{
  CrossedLeavesJoin,
  FinishesOver,
  HasReviewsOf,
  HasSameReviews,
  IsCrossedFresh,
  KeepsCrossed,
  LeadsOn,
  SyncJoinsLate,
};
ghost use Rattle.ak_lab_joins.specs.LabBreaks.{
  BreaksNot,
  FailsNot,
  FaultsInLine,
  GoByBreaks,
  HasBreak,
  HasCalmServer,
  HasNoBreak,
  RunFaultsByBreaks,
  StandsSo,
};
ghost use Rattle.ak_lab_joins.specs.LabMishaps.{DisturbsNothing, EndsInLosses, LosesNothing, MeetsNoFault};
ghost use Rattle.ak_lab_joins.specs.LabWords.{
  GoesUnbroken,
  PrintsCommit,
  ServesNoCommit,
  SyncCommitsAsTold,
  UploadCommitsAsTold,
  hides_commit,
};
ghost use Rattle.ak_lab.specs.LabPlans.{Resends};
ghost use Rattle.ak_lab.specs.LabRuns.{IsLabOpening, RunsLab};
ghost use Rattle.ak_lab.specs.LabStates.{LabState, at_line, opened_lab};
ghost use Rattle.ak_lab.specs.LabSyncs.{EndsLabSession, EndsSync, EndsTransfer};
ghost use Rattle.ak_lab.specs.LineOutcomes.{EndsAs, Says};
ghost use Rattle.ak_lab_devices.specs.declared.devices.Device.{Device};
ghost use Rattle.ak_lab_lines.specs.LabTexts.{ending_text, sync_text};
ghost use Rattle.ak_lab_lines.specs.declared.lab_lines.Direction.{Direction};
ghost use Rattle.ak_lab_lines.specs.declared.lab_lines.Direction.TheVariants as directions;
ghost use Rattle.ak_lab_lines.specs.declared.lab_lines.LabLine.TheVariants as lines;
ghost use Rattle.ak_lab_wires.specs.CrossedSyncs.{SyncsCrossed};
ghost use Rattle.ak_lab_wires.specs.LabSessions.{fails_in};
ghost use Rattle.ak_lab_wires.specs.declared.lab_sessions.SessionKind.{SessionKind};
ghost use Rattle.ak_lab_wires.specs.declared.lab_sessions.SessionKind.TheVariants as kinds;
ghost use Rattle.ak_line_runs.specs.LineRuns.{Accepted, AllGo};
ghost use Rattle.ak_line_runs.specs.declared.command_ends.CommandEnd.{CommandEnd};
ghost use Rattle.ak_openings.specs.declared.whole_collections.Opening.{Opening};
ghost use Rattle.ak_protocol.specs.Accounts.{AccountState};
ghost use Rattle.ak_protocol.specs.Commits.{EachNewer};
ghost use Rattle.ak_protocol.specs.Logs.{World};
ghost use Rattle.ak_sync_in_memory.specs.Entries.{LoggedState, account_opened};
ghost use Rattle.ak_sync_in_memory.specs.declared.logs.Entry.{Entry};

use ak_any_lines::any_lines_are_steps;
use ak_lab_wires::Crossings;
use ak_sync_completes::told_ends_have_causes;
use ak_sync_in_memory::LoopWire;

/// The server of a lab that was opened is one with which devices can be linked. There is none yet.
pub fn opened_labs_are_linked()
    ensures linked { (opening : Opening) → IsLabOpening opening → IsLinkedLab (account_opened opening) (opened_lab opening) }
    ensures ordered { (opening : Opening) → IsLabOpening opening
        → HasOrderedSchemas (account_opened opening) (opened_lab opening) }
{}

/// Each accepted line leaves all devices linked with the server: another clock, a new device, which is a copy, new reviews, a line of
/// the desk, a sync, whatever is lost or repeated, an upload and a download however they end, requests that are sent again, what is
/// planned, and what only looks. A sync leaves its own device so, those that crossed it by whole syncs, and all others. A schema moment
/// that a line takes must be fresh, and the count of sessions may not have reached the last `u64`. If anything comes between the calls
/// of a sync, no upload may be committed in it: two uploads that come again there can take one schema moment for two contents.
pub fn lines_keep_labs_linked()
    ensures { (account : AccountState) (number : ℕ) (line : Line) (s t : LabState) (printed : List (List ℕ))
        → IsLinkedLab account s → HasSession s → EndsAs number line s t (Accepted printed)
        → TakesFreshSchemas account number line s t → IsLinkedLab account t }
{
    // For the proof alone.
    any_lines_are_steps();
}

/// As long as nothing is uploaded, each schema moment that a line takes is fresh: a device's is at least the server's, which stays. So the
/// laws hold of a script without an upload, whatever its clocks are and whatever it loses, repeats, crosses and sends again. Once something
/// was uploaded, they hold of lines that plan nothing between calls and send nothing again.
pub fn lines_without_uploads_take_fresh_schemas()
    ensures lines { (account : AccountState) (number : ℕ) (line : Line) (s t : LabState) (printed : List (List ℕ))
        → IsLinkedLab account s → HasSession s → HasOrderedSchemas account s → HasNoPlans s → SaysPlain line
        → EndsAs number line s t (Accepted printed)
        → TakesFreshSchemas account number line s t × HasOrderedSchemas account t × HasNoPlans t }
    ensures syncs { (account : AccountState) (name : List ℕ) (s t : LabState) (crossed : List (List ℕ)) (outcome : Outcome)
        → IsLinkedLab account s → HasSession s → HasOrderedSchemas account s → PlansNothing name s
        → EndsSync name s t crossed outcome
        → HasFreshCheck account name s t outcome }
    ensures unloaded { (account : AccountState) (number : ℕ) (line : Line) (s t : LabState) (printed : List (List ℕ))
        → IsLinkedLab account s → HasSession s → HasOrderedSchemas account s → HasNoUpload s.server → SaysNoUpload line
        → EndsAs number line s t (Accepted printed)
        → TakesFreshSchemas account number line s t × HasOrderedSchemas account t × HasNoUpload t.server }
    ensures runs { (opening : Opening) (all : List Line) (s : LabState) (printed : List (List ℕ)) → IsLabOpening opening
        → HasSession s → AllByRecursion SaysNoUpload all → AllGo EndsAs 1 all (opened_lab opening) s printed
        → AllGoFresh (account_opened opening) 1 all (opened_lab opening) s printed
        × HasOrderedSchemas (account_opened opening) s × HasNoUpload s.server }
{
    // For the proof alone.
    any_lines_are_steps();
}

/// Between the calls of a sync something comes only if a line `cross` or `replay` planned it.
pub fn only_lines_plan()
    ensures lines { (number : ℕ) (line : Line) (s t : LabState) (printed : List (List ℕ)) → HasNoPlans s → SaysNoAct line
        → EndsAs number line s t (Accepted printed) → HasNoPlans t }
    ensures runs { (opening : Opening) (all : List Line) (s : LabState) (printed : List (List ℕ)) → AllByRecursion SaysNoAct all
        → AllGo EndsAs 1 all (opened_lab opening) s printed → HasNoPlans s }
{}

/// Whatever lines come and whatever comes between the calls of a sync: what is committed is committed over what was committed before.
pub fn commits_lead_on()
    ensures lines { (account : AccountState) (number : ℕ) (line : Line) (s t : LabState) (printed : List (List ℕ))
        → EndsAs number line s t (Accepted printed) → LeadsOn account s t }
    ensures runs { (account : AccountState) (number : ℕ) (all : List Line) (s t : LabState) (printed : List (List ℕ))
        → AllGo EndsAs number all s t printed → LeadsOn account s t }
{}

/// A review that is committed stays as it is, until an upload is committed: whatever lines come, whatever they lose, repeat and cross.
pub fn committed_reviews_stay()
    ensures lines { (account : AccountState) (number : ℕ) (line : Line) (s t : LabState) (printed : List (List ℕ))
        → IsLinkedLab account s → EndsAs number line s t (Accepted printed)
        → EachNewer IsFinish (lab_world account s) (lab_world account t)
        → HasSameReviews (committed_of account s) (committed_of account t) }
    ensures runs { (account : AccountState) (number : ℕ) (all : List Line) (s t : LabState) (printed : List (List ℕ))
        → IsLinkedLab account s → AllGo EndsAs number all s t printed
        → EachNewer IsFinish (lab_world account s) (lab_world account t)
        → HasSameReviews (committed_of account s) (committed_of account t) }
{}

/// As long as nothing was uploaded, requests that are sent again take no schema moment: each commit of theirs is a finish.
pub fn resends_leave_schemas()
    ensures { (account : AccountState) (from count : ℕ) (s t : LabState) (printed : List (List ℕ))
        → IsLinkedLab account s → HasNoUpload s.server → Resends from count s t printed → HasFreshCommits account s t }
{}

/// So all devices are linked with the server after any lines that were accepted one after another, if the schema moments that they took
/// from the first upload on were fresh, and a session key is left.
pub fn runs_keep_labs_linked()
    ensures { (opening : Opening) (all : List Line) (s : LabState) (printed : List (List ℕ)) → IsLabOpening opening
        → HasSession s → GoFresh opening all s printed → IsLinkedLab (account_opened opening) s }
{
    // For the proof alone.
    any_lines_are_steps();
}

/// A sync of a device that finished leaves device and server with one content, the join of what they held, at a new moment and with a new
/// number, and linked. The server committed once, and all else is as it was, but that nothing is to undo on the device. Whether memory
/// sufficed for the line of the sync makes no difference.
pub fn finished_syncs_join()
    ensures { (account : AccountState) (name : List ℕ) (s t : LabState) (crossed : List (List ℕ)) → IsLinkedLab account s
        → HasSession s → PlansNothing name s → EndsSync name s t crossed outcomes.Finished → Finishes account name s t }
{}

/// A sync that found nothing to sync was between a device and a server of one content. So both still are, by the next law.
pub fn unchanged_syncs_agree()
    ensures { (account : AccountState) (name : List ℕ) (s t : LabState) (crossed : List (List ℕ)) → IsLinkedLab account s
        → HasSession s → PlansNothing name s → EndsSync name s t crossed outcomes.NoChanges → Agrees account name s }
{}

/// A sync that came to another outcome leaves what the device held, but that its moments rise after a bad sanity check, and what the
/// server had committed. Only if the last request was refused or lost, or its reply was no good, or the device's keeper failed, the server
/// may hold the join already. All devices are linked with the server, and nothing is to undo on the device. The schema moment that a bad
/// sanity check takes must be fresh.
pub fn other_syncs_keep_sides()
    ensures { (account : AccountState) (name : List ℕ) (s t : LabState) (crossed : List (List ℕ)) (outcome : Outcome)
        → IsLinkedLab account s → HasSession s → PlansNothing name s → outcome ≢ outcomes.Finished
        → outcome ≢ outcomes.Memory → EndsSync name s t crossed outcome
        → HasFreshCheck account name s t outcome → KeepsSides account name s t outcome }
{}

/// An upload of a device that finished leaves the server with the device's content without its graves, which it committed once, and a
/// download what the server had committed. The device holds what the server has committed then.
pub fn finished_transfers_replace()
    ensures upload { (account : AccountState) (name : List ℕ) (s t : LabState) → IsLinkedLab account s → HasSession s
        → EndsTransfer directions.Upload name s t outcomes.Finished → LeavesUpload account name s t }
    ensures download { (account : AccountState) (name : List ℕ) (s t : LabState) → IsLinkedLab account s → HasSession s
        → EndsTransfer directions.Download name s t outcomes.Finished → LeavesDownload account name s t }
{}

/// An upload or a download that came to another outcome leaves what the device held, and nothing is to undo on it. What the server has
/// committed is as it was; only if the last request of an upload was refused, its reply was no good or memory ran out, it may be the upload.
pub fn other_transfers_keep_sides()
    ensures { (direction : Direction) (account : AccountState) (name : List ℕ) (s t : LabState) (outcome : Outcome)
        → IsLinkedLab account s → HasSession s → outcome ≢ outcomes.Finished → EndsTransfer direction name s t outcome
        → KeepsTransferSides direction account name s t outcome }
{}

/// If nothing comes between the calls of a sync and no break stands, its outcome tells whether the server committed, whatever is lost and
/// repeated: if it finished, both sides hold the join, which was committed once, and else the server has committed what it had. Only two
/// kinds of outcome don't tell it: `lost`, and that memory ran out.
pub fn outcomes_tell_commits()
    ensures syncs { (account : AccountState) (name : List ℕ) (s t : LabState) (crossed : List (List ℕ)) (outcome : Outcome)
        → GoesUnbroken account name s → StandsSo false s → EndsSync name s t crossed outcome → hides_commit outcome ≡ false
        → SyncCommitsAsTold account name s t outcome }
    ensures unlost { (name : List ℕ) (s t : LabState) (crossed : List (List ℕ)) (outcome : Outcome) → LosesNothing name s
        → EndsSync name s t crossed outcome → outcome ≢ outcomes.Lost }

    // If nothing is lost or repeated, every outcome tells it, and a break of the server makes no difference. So the printed line tells it too.
    ensures undisturbed { (account : AccountState) (name : List ℕ) (s t : LabState) (crossed : List (List ℕ)) (outcome : Outcome)
        → GoesUnbroken account name s → DisturbsNothing name s → EndsSync name s t crossed outcome
        → SyncCommitsAsTold account name s t outcome }
    ensures printed { (account : AccountState) (number : ℕ) (line : Line) (name text : List ℕ) (s t : LabState)
        → GoesUnbroken account name s → DisturbsNothing name s → Says line (lines.Sync name)
        → EndsAs number line s t (Accepted (sync_text name text ∷ [])) → PrintsCommit account name s t text }

    // The messages of an upload are never lost and never repeated.
    ensures uploads { (account : AccountState) (name : List ℕ) (s t : LabState) (outcome : Outcome) → IsLinkedLab account s → HasSession s
        → EndsTransfer directions.Upload name s t outcome → UploadCommitsAsTold account name s t outcome }
{}

/// No sync ends as a bad reply, whatever is lost and repeated and whatever breaks: each answer of the server can be read, and one with status
/// 200 has the form of what was asked. The device must hold what a keeper may hold.
pub fn syncs_get_no_bad_reply()
    // If nothing is planned between its calls.
    ensures alone { (account : AccountState) (name : List ℕ) (s t : LabState) (c : Collection) (crossed : List (List ℕ))
        → (outcome : Outcome) → IsLinkedLab account s → HasSession s → PlansNothing name s → DeviceHolds name s c
        → IsWellFormed (held_by c) → EndsSync name s t crossed outcome → outcome ≢ outcomes.BadReply }

    // Others may have crossed it too. Then the schema moments that commits took meanwhile must be fresh.
    ensures others_cross { (account : AccountState) (name : List ℕ) (s t : LabState) (c : Collection) (crossed : List (List ℕ))
        → (outcome : Outcome) → IsLinkedLab account s → HasSession s → DeviceHolds name s c → IsWellFormed (held_by c)
        → (ended : EndsSync name s t crossed outcome)
        → IsCrossedFresh ended.runs.d (lab_world account s) (lab_world account t) → outcome ≢ outcomes.BadReply }
{
    // For the proof alone.
    told_ends_have_causes::<LoopWire<Crossings>>();
}

/// Whatever is lost, repeated, crossed and broken: if no finish and no upload was served, what the server has committed is as it was.
pub fn only_served_requests_commit()
    ensures sessions { (account : AccountState) (kind : SessionKind) (name : List ℕ) (s t : LabState) (crossed : List (List ℕ))
        → (outcome : Outcome) → EndsLabSession kind name s t crossed outcome → ServesNoCommit s.server t.server
        → KeepsCommitted (lab_world account s) (lab_world account t) }
    ensures lines { (account : AccountState) (number : ℕ) (line : Line) (s t : LabState) (printed : List (List ℕ))
        → EndsAs number line s t (Accepted printed) → ServesNoCommit s.server t.server
        → KeepsCommitted (lab_world account s) (lab_world account t) }
    ensures runs { (account : AccountState) (number : ℕ) (all : List Line) (s t : LabState) (printed : List (List ℕ))
        → AllGo EndsAs number all s t printed → ServesNoCommit s.server t.server
        → KeepsCommitted (lab_world account s) (lab_world account t) }
{}

/// A sync that others may have crossed, by whole syncs and by requests of the log again: if it finished, its session committed once, over
/// what was committed just before, and that commit and the device hold the join of this and of what the device held when the sync
/// began. Otherwise the device holds what it held, but for its moments. The schema moments that commits took meanwhile must be fresh, as they
/// are if each commit is a finish. If each is, and the server's schema moment is not the last one, each sync that crosses this one leaves
/// the same, and whatever comes later, its session commits at most once. So it is as long as nothing was uploaded.
pub fn crossed_syncs_join()
    ensures finished { (account : AccountState) (name : List ℕ) (s t : LabState) (crossed : List (List ℕ))
        → IsLinkedLab account s → HasSession s → (ended : EndsSync name s t crossed outcomes.Finished)
        → IsCrossedFresh ended.runs.d (lab_world account s) (lab_world account t)
        → FinishesOver (one_more s.sessions) ended.runs.d ended.runs.made (lab_world account s) (lab_world account t) }
    ensures others { (account : AccountState) (name : List ℕ) (s t : LabState) (crossed : List (List ℕ)) (outcome : Outcome)
        → IsLinkedLab account s → HasSession s → outcome ≢ outcomes.Finished
        → (ended : EndsSync name s t crossed outcome)
        → IsCrossedFresh ended.runs.d (lab_world account s) (lab_world account t)
        → KeepsCrossed (s.clock +ℤ ended.runs.d.shift) ended.runs.d ended.runs.made (lab_world account s) (lab_world account t) outcome }
    ensures fresh { (d : Device) (before now : World) → EachNewer IsFinish before now → IsCrossedFresh d before now }
    ensures unloaded { (account : AccountState) (name : List ℕ) (s t : LabState) (crossed : List (List ℕ)) (outcome : Outcome)
        → IsLinkedLab account s → HasOrderedSchemas account s → HasNoUpload s.server → EndsSync name s t crossed outcome
        → IsLevelFresh account s t }
    ensures crossers { (account : AccountState) (name : List ℕ) (s t : LabState) (crossed : List (List ℕ)) (outcome : Outcome)
        → IsLinkedLab account s → HasSession s → IsLevelFresh account s t → (ended : EndsSync name s t crossed outcome)
        → HoldsOfEachCrossed (CrossedLeavesJoin account) kinds.Sync name s t crossed outcome ended }
{}

/// Once such a sync finished, what it committed has a review under each id under which the device held one when the sync began.
pub fn finished_syncs_send_reviews()
    ensures { (key : ℕ) (d made : Device) (before now : World) → (over : FinishesOver key d made before now)
        → HasReviewsOf over.c over.after }
{}

/// Whatever comes to the server after such a sync, also its own requests again: its session commits at most once, that join.
pub fn late_finishes_join()
    ensures { (account : AccountState) (name : List ℕ) (s t : LabState) (crossed : List (List ℕ)) (outcome : Outcome)
        → IsLinkedLab account s → HasSession s → (ended : EndsSync name s t crossed outcome)
        → IsCrossedFresh ended.runs.d (lab_world account s) (lab_world account t)
        → SyncJoinsLate account name s t crossed outcome ended }
{}

/// A sync that ended as lost, crossed or not, ended with the three tries of one request, whose messages lines planned to lose.
pub fn lost_syncs_met_three_losses()
    ensures syncs { (name : List ℕ) (s t : LabState) (crossed : List (List ℕ)) (ended : EndsSync name s t crossed outcomes.Lost)
        → EndsInLosses ended.runs.session.calls ended.runs.d.mishaps }
    ensures crossings { (line key : ℕ) (at : ℤ) (moments : List ℤ) (d made : Device) (old new : LoggedState)
        → (sync : SyncsCrossed line key at moments d made old new outcomes.Lost) → EndsInLosses sync.session.calls d.mishaps }
{}

/// A keeper fails only in a sync for which a break of it stands: a device's in its own, the server's in the next of any device, and in what
/// crosses this.
pub fn keepers_fail_by_breaks_alone()
    // A device's: in no upload and no download, and in a sync, crossed or not, only if a break of it stands.
    ensures devices { (kind : SessionKind) (name : List ℕ) (s t : LabState) (crossed : List (List ℕ))
        → EndsLabSession kind name s t crossed outcomes.Keep → (kind ≡ kinds.Sync) × HasBreak name s }
    ensures crossings { (line key : ℕ) (at : ℤ) (moments : List ℤ) (d made : Device) (old new : LoggedState)
        → SyncsCrossed line key at moments d made old new outcomes.Keep → d.fails ≢ [] }
    ensures crossers { (kind : SessionKind) (name other : List ℕ) (s t : LabState) (crossed : List (List ℕ)) (outcome : Outcome)
        → other ≢ [] → HasNoBreak other s → (ended : EndsLabSession kind name s t crossed outcome)
        → HoldsOfEachCrossed (FailsNot other) kind name s t crossed outcome ended }

    // The server's: whatever is lost, repeated, crossed or served again.
    ensures sessions { (kind : SessionKind) (name : List ℕ) (s t : LabState) (crossed : List (List ℕ)) (outcome : Outcome)
        → names_none (fails_in kind s.fails) ≡ true → EndsLabSession kind name s t crossed outcome
        → MeetsNoFault s.server t.server }
    ensures resends { (from count : ℕ) (s t : LabState) (printed : List (List ℕ)) → HasCalmServer s
        → Resends from count s t printed → MeetsNoFault s.server t.server }
    ensures lines { (number : ℕ) (line : Line) (s t : LabState) (printed : List (List ℕ)) (stood : Bool)
        → StandsSo stood s → HasCalmServer s → EndsAs number line s t (Accepted printed)
        → (stands : Bool) × FaultsInLine line stood stands s t × StandsSo stands t × HasCalmServer t }

    // And so it is of whole scripts and runs, line by line: a line `break server` plans a break, and a line `sync` uses it up. When a lab is
    // opened none stands.
    ensures scripts { (number : ℕ) (all : List Line) (s t : LabState) (printed : List (List ℕ)) (stood : Bool)
        → StandsSo stood s → HasCalmServer s → AllGo EndsAs number all s t printed → GoByBreaks number all stood s t printed }
    ensures opened { (opening : Opening) → StandsSo false (opened_lab opening) × HasCalmServer (opened_lab opening) }
    ensures runs { (end : CommandEnd) (all : Maybe (List Line)) (entries : List Entry) (old new : Maybe (List ℕ))
        → (it : RunsLab end all entries old new)
        → RunFaultsByBreaks it.run.gone it.run.left (opened_lab it.opening) it.run.reached it.last it.run.printed }
{}

/// A break of a device stands only if a line `break` planned it.
pub fn only_lines_break()
    ensures none { (name : List ℕ) (s : LabState) → HasNoBreak name s → HasBreak name s → ⊥ }
    ensures lines { (name : List ℕ) (number : ℕ) (line : Line) (s t : LabState) (printed : List (List ℕ)) → name ≢ []
        → HasNoBreak name s → BreaksNot name line → EndsAs number line s t (Accepted printed) → HasNoBreak name t }
    ensures runs { (name : List ℕ) (number : ℕ) (all : List Line) (s t : LabState) (printed : List (List ℕ)) → name ≢ []
        → HasNoBreak name s → AllByRecursion (BreaksNot name) all → AllGo EndsAs number all s t printed → HasNoBreak name t }
    ensures opened { (name : List ℕ) (opening : Opening) → HasNoBreak name (opened_lab opening) }
{}

/// A sync uses up a break of its device and one of the server, whether it reached them or not, and a sync that crosses it one of its own
/// device. No two devices of a script's lab have one name.
pub fn syncs_use_up_breaks()
    ensures devices { (name : List ℕ) (s t : LabState) (crossed : List (List ℕ)) (outcome : Outcome)
        → AreUnlike (device_names s.devices) → EndsSync name s t crossed outcome → HasNoBreak name t }
    ensures servers { (name : List ℕ) (s t : LabState) (crossed : List (List ℕ)) (outcome : Outcome)
        → EndsSync name s t crossed outcome → t.fails ≡ [] }
    ensures crossings { (line key : ℕ) (at : ℤ) (moments : List ℤ) (d made : Device) (old new : LoggedState) (outcome : Outcome)
        → SyncsCrossed line key at moments d made old new outcome → made.fails ≡ [] }
    ensures unlike { (opening : Opening) (all : List Line) (s : LabState) (printed : List (List ℕ))
        → AllGo EndsAs 1 all (opened_lab opening) s printed → AreUnlike (device_names s.devices) }
{}

/// Fewer lines than session keys leave one, if nothing comes between the calls of their syncs. So it is if no line plans anything there. A
/// sync that others cross takes a key for each of them.
pub fn few_lines_leave_a_session_key()
    ensures uncrossed { (opening : Opening) (all : List Line) (s : LabState) (printed : List (List ℕ))
        → length all < 18_446_744_073_709_551_615 → AllGoUncrossed 1 all (opened_lab opening) s printed → HasSession s }
    ensures unplanned { (opening : Opening) (all : List Line) (s : LabState) (printed : List (List ℕ)) → AllByRecursion SaysNoAct all
        → AllGo EndsAs 1 all (opened_lab opening) s printed → AllGoUncrossed 1 all (opened_lab opening) s printed }
{}

/// So it is of each sync of a script, whatever lines came before it, if the schema moments that were taken from the first upload on were
/// fresh.
pub fn script_syncs_join()
    ensures finished { (opening : Opening) (all : List Line) (name : List ℕ) (s t : LabState)
        → RunsToSync opening all name s t outcomes.Finished → Finishes (account_opened opening) name s t }
    ensures others { (opening : Opening) (all : List Line) (name : List ℕ) (s t : LabState) (outcome : Outcome)
        → RunsToSync opening all name s t outcome → outcome ≢ outcomes.Finished → outcome ≢ outcomes.Memory
        → KeepsSides (account_opened opening) name s t outcome }
{
    // For the proof alone.
    any_lines_are_steps();
}

/// A script's line `sync <device>` that printed `sync <device>: finished` is such a sync.
pub fn printed_syncs_join()
    ensures { (opening : Opening) (all : List Line) (earlier : List (List ℕ)) (line : Line) (name : List ℕ)
        → (s t : LabState) → IsLabOpening opening → HasSession s
        → GoFresh opening all s earlier → PlansNothing name s → Says line (lines.Sync name)
        → EndsAs (length all + 1) line s t (Accepted (sync_text name (codes "finished") ∷ []))
        → Finishes (account_opened opening) name s t }
{
    // For the proof alone.
    any_lines_are_steps();
}

/// So it is of each upload and download of a script, whatever lines came before it, if the schema moments that were taken from the first
/// upload on were fresh.
pub fn script_transfers_replace()
    ensures uploads { (opening : Opening) (all : List Line) (name : List ℕ) (s t : LabState) (printed : List (List ℕ))
        → IsLabOpening opening → HasSession s → GoFresh opening all s printed
        → EndsTransfer directions.Upload name (at_line (length all + 1) s) t outcomes.Finished
        → LeavesUpload (account_opened opening) name s t }
    ensures downloads { (opening : Opening) (all : List Line) (name : List ℕ) (s t : LabState) (printed : List (List ℕ))
        → IsLabOpening opening → HasSession s → GoFresh opening all s printed
        → EndsTransfer directions.Download name (at_line (length all + 1) s) t outcomes.Finished
        → LeavesDownload (account_opened opening) name s t }
    ensures others { (opening : Opening) (all : List Line) (name : List ℕ) (s t : LabState) (printed : List (List ℕ))
        → IsLabOpening opening → HasSession s → GoFresh opening all s printed
        → (direction : Direction) (outcome : Outcome) → outcome ≢ outcomes.Finished
        → EndsTransfer direction name (at_line (length all + 1) s) t outcome
        → KeepsTransferSides direction (account_opened opening) name s t outcome }
{
    // For the proof alone.
    any_lines_are_steps();
}

/// A script's line that printed `upload <device>: finished` or `download <device>: finished` is such an upload or download.
pub fn printed_transfers_replace()
    ensures uploads { (opening : Opening) (all : List Line) (earlier : List (List ℕ)) (line : Line) (name : List ℕ)
        → (s t : LabState) → IsLabOpening opening → HasSession s
        → GoFresh opening all s earlier → Says line (lines.Transfer directions.Upload name)
        → EndsAs (length all + 1) line s t (Accepted (ending_text (codes "upload") name (codes "finished") ∷ []))
        → LeavesUpload (account_opened opening) name s t }
    ensures downloads { (opening : Opening) (all : List Line) (earlier : List (List ℕ)) (line : Line) (name : List ℕ)
        → (s t : LabState) → IsLabOpening opening → HasSession s
        → GoFresh opening all s earlier → Says line (lines.Transfer directions.Download name)
        → EndsAs (length all + 1) line s t (Accepted (ending_text (codes "download") name (codes "finished") ∷ []))
        → LeavesDownload (account_opened opening) name s t }
{
    // For the proof alone.
    any_lines_are_steps();
}
