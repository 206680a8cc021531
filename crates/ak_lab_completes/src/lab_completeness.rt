// How a sync of a lab ends that nothing hinders, and that it heals what an earlier one left.
ghost use Rattle.std.specs.Prelude.{◌≡◌, ◌≢◌, ℕ, List, false, true};
ghost use Rattle.ak_client.specs.declared.outcomes.Outcome.{Outcome};
ghost use Rattle.ak_client.specs.declared.outcomes.Outcome.TheVariants as outcomes;
ghost use Rattle.ak_exchange.specs.Phases.{held_by};
ghost use Rattle.ak_io.specs.declared.lines.Line.{Line};
ghost use Rattle.ak_keep.specs.Collections.{Collection, IsWellFormed};
ghost use Rattle.ak_lab.specs.LabRuns.{IsLabOpening};
ghost use Rattle.ak_lab.specs.LabStates.{LabState, at_line};
ghost use Rattle.ak_lab.specs.LabSyncs.{EndsSync};
ghost use Rattle.ak_lab.specs.LineOutcomes.{EndsAs, Says};
ghost use Rattle.ak_lab_completes.specs.LabCompleting.{
  AcceptsSync,
  BeginsLeftAlone,
  BeginsUnhindered,
  EndedUnfinished,
  EndsAndLeaves,
  EndsWithTheirJoin,
  GoesLeftAlone,
  HasNearClock,
  HasRoomOnceMore,
  LabEndsOrIsLost,
  LabEndsWith,
  PrintsEnd,
};
ghost use Rattle.ak_lab_devices.specs.Devices.{as_downloaded};
ghost use Rattle.ak_lab_joins.specs.LabBreaks.{StandsSo};
ghost use Rattle.ak_lab_joins.specs.LabJoins.{DeviceHolds, GoFresh, HasSession, IsLinkedLab, committed_of};
ghost use Rattle.ak_lab_joins.specs.LabMishaps.{LosesNothing};
ghost use Rattle.ak_lab_lines.specs.declared.lab_lines.LabLine.TheVariants as lines;
ghost use Rattle.ak_line_runs.specs.LineRuns.{Accepted};
ghost use Rattle.ak_merge.specs.Commits.{IsCopyOf};
ghost use Rattle.ak_merge.specs.Exchanges.{HoldsJoin};
ghost use Rattle.ak_openings.specs.declared.whole_collections.Opening.{Opening};
ghost use Rattle.ak_protocol.specs.Accounts.{AccountState};
ghost use Rattle.ak_sync_completes.specs.Completing.{AreJoinable, have_nothing_to_sync};
ghost use Rattle.ak_sync_in_memory.specs.Entries.{account_opened};

use ak_lab_joins::{
    finished_syncs_join, keepers_fail_by_breaks_alone, lines_keep_labs_linked, only_lines_break,
    other_syncs_keep_sides, runs_keep_labs_linked, syncs_use_up_breaks,
};
use ak_lab_wires::Crossings;
use ak_sync_completes::syncs_complete;
use ak_sync_in_memory::{LoopWire, views_keep_the_collection};
use ak_transfer_laws::{
    copies_have_nothing_to_sync, equal_sides_have_nothing_to_sync, other_schemas_need_a_whole,
};

/// How a sync of a lab ends that nothing hinders but lost messages. If the two collections may be joined by their rows (`AreJoinable`), it is
/// finished. If there is nothing to sync, as with a copy of what is committed, it finds no changes. If their schema moments differ, it needs
/// the whole collection. Or it is lost, or memory runs out, on the device or at the server. Of other collections nothing is said.
/// Nothing hinders it if the lab is linked, a session key is left, and the device holds what a keeper may hold. Besides, nothing is to come
/// between its calls, no break stands, of the device or of the server, and the clocks are within 300 seconds. It is lost only if the
/// three tries of one request were to be lost, by a law of `ak_lab_joins`.
pub fn left_alone_syncs_complete()
    ensures finished { (account : AccountState) (name : List ℕ) (s t : LabState) (c : Collection) (crossed : List (List ℕ))
        → (outcome : Outcome) → BeginsLeftAlone account name s c → AreJoinable c (committed_of account s)
        → EndsSync name s t crossed outcome → LabEndsOrIsLost outcomes.Finished s t outcome }
    ensures unchanged { (account : AccountState) (name : List ℕ) (s t : LabState) (c : Collection) (crossed : List (List ℕ))
        → (outcome : Outcome) → BeginsLeftAlone account name s c → have_nothing_to_sync c (committed_of account s) ≡ true
        → EndsSync name s t crossed outcome → LabEndsOrIsLost outcomes.NoChanges s t outcome }
    ensures copies { (account : AccountState) (name : List ℕ) (s t : LabState) (c : Collection) (crossed : List (List ℕ))
        → (outcome : Outcome) → BeginsLeftAlone account name s c → IsCopyOf (committed_of account s) c
        → EndsSync name s t crossed outcome → LabEndsOrIsLost outcomes.NoChanges s t outcome }
    ensures schemas { (account : AccountState) (name : List ℕ) (s t : LabState) (c : Collection) (crossed : List (List ℕ))
        → (outcome : Outcome) → BeginsLeftAlone account name s c → c.head.schema ≢ (committed_of account s).head.schema
        → EndsSync name s t crossed outcome
        → LabEndsOrIsLost (outcomes.FullSchema c.head.schema (committed_of account s).head.schema) s t outcome }
{
    // For the proof alone.
    keepers_fail_by_breaks_alone();
    only_lines_break();
    syncs_complete::<LoopWire<Crossings>>();
    equal_sides_have_nothing_to_sync::<LoopWire<Crossings>>();
    copies_have_nothing_to_sync::<LoopWire<Crossings>>();
    other_schemas_need_a_whole::<LoopWire<Crossings>>();
}

/// If none of its messages is to be lost, such a sync is not lost.
pub fn unhindered_syncs_complete()
    ensures finished { (account : AccountState) (name : List ℕ) (s t : LabState) (c : Collection) (crossed : List (List ℕ))
        → (outcome : Outcome) → BeginsUnhindered account name s c → AreJoinable c (committed_of account s)
        → EndsSync name s t crossed outcome → LabEndsWith outcomes.Finished s t outcome }
    ensures unchanged { (account : AccountState) (name : List ℕ) (s t : LabState) (c : Collection) (crossed : List (List ℕ))
        → (outcome : Outcome) → BeginsUnhindered account name s c → have_nothing_to_sync c (committed_of account s) ≡ true
        → EndsSync name s t crossed outcome → LabEndsWith outcomes.NoChanges s t outcome }
    ensures copies { (account : AccountState) (name : List ℕ) (s t : LabState) (c : Collection) (crossed : List (List ℕ))
        → (outcome : Outcome) → BeginsUnhindered account name s c → IsCopyOf (committed_of account s) c
        → EndsSync name s t crossed outcome → LabEndsWith outcomes.NoChanges s t outcome }
    ensures schemas { (account : AccountState) (name : List ℕ) (s t : LabState) (c : Collection) (crossed : List (List ℕ))
        → (outcome : Outcome) → BeginsUnhindered account name s c → c.head.schema ≢ (committed_of account s).head.schema
        → EndsSync name s t crossed outcome
        → LabEndsWith (outcomes.FullSchema c.head.schema (committed_of account s).head.schema) s t outcome }
{
    // For the proof alone.
    left_alone_syncs_complete();
}

/// What the line of such a sync prints, if it is accepted: one line. It says that the sync ended so; or that it was refused, if the server's
/// memory ran out meanwhile. The device's memory does not run out in an accepted line.
pub fn unhindered_syncs_print()
    ensures finished { (account : AccountState) (name : List ℕ) (number : ℕ) (s t : LabState) (c : Collection)
        → (printed : List (List ℕ)) → BeginsUnhindered account name (at_line number s) c → AreJoinable c (committed_of account s)
        → AcceptsSync number name s t printed → PrintsEnd outcomes.Finished name (at_line number s) t printed }
    ensures unchanged { (account : AccountState) (name : List ℕ) (number : ℕ) (s t : LabState) (c : Collection)
        → (printed : List (List ℕ)) → BeginsUnhindered account name (at_line number s) c
        → have_nothing_to_sync c (committed_of account s) ≡ true
        → AcceptsSync number name s t printed → PrintsEnd outcomes.NoChanges name (at_line number s) t printed }
    ensures schemas { (account : AccountState) (name : List ℕ) (number : ℕ) (s t : LabState) (c : Collection)
        → (printed : List (List ℕ)) → BeginsUnhindered account name (at_line number s) c
        → c.head.schema ≢ (committed_of account s).head.schema → AcceptsSync number name s t printed
        → PrintsEnd (outcomes.FullSchema c.head.schema (committed_of account s).head.schema) name (at_line number s) t printed }
{
    // For the proof alone.
    unhindered_syncs_complete();
}

/// What the next sync of a device comes to, if one of it neither finished nor ran out of memory, and its check was not bad. This first one may
/// have been refused or lost, or its keeper may have failed. Nothing was planned between its calls. The next line is a sync of the device that
/// nothing hinders. If both collections may then be joined by their rows, it is finished, or memory runs out. Finished, both sides hold the
/// join of what they held before the first, also if the first had committed it already. If there is nothing to sync then, it finds no
/// changes, or memory runs out. If it finds none, both sides hold what they held before the first. If the schema moments differ then, it
/// needs the whole collection, or memory runs out. If it needs that, the device holds what it held before the first, and the server has
/// committed what it had before the second.
pub fn next_syncs_heal()
    ensures joined { (account : AccountState) (name : List ℕ) (s t u : LabState) (number : ℕ) (c d : Collection) (again : List (List ℕ))
        → (first second : Outcome) → EndedUnfinished account name c s t first → BeginsUnhindered account name (at_line number t) d
        → AreJoinable d (committed_of account t)
        → EndsSync name (at_line number t) u again second
        → EndsWithTheirJoin account name c (committed_of account s) (at_line number t) u second }
    ensures unchanged { (account : AccountState) (name : List ℕ) (s t u : LabState) (number : ℕ) (c d : Collection) (again : List (List ℕ))
        → (first second : Outcome) → EndedUnfinished account name c s t first → BeginsUnhindered account name (at_line number t) d
        → have_nothing_to_sync d (committed_of account t) ≡ true
        → EndsSync name (at_line number t) u again second
        → EndsAndLeaves outcomes.NoChanges account name c (committed_of account s) (at_line number t) u second }
    ensures schemas { (account : AccountState) (name : List ℕ) (s t u : LabState) (number : ℕ) (c d : Collection) (again : List (List ℕ))
        → (first second : Outcome) → EndedUnfinished account name c s t first → BeginsUnhindered account name (at_line number t) d
        → d.head.schema ≢ (committed_of account t).head.schema
        → EndsSync name (at_line number t) u again second
        → let wanted = outcomes.FullSchema d.head.schema (committed_of account t).head.schema in
        EndsAndLeaves wanted account name c (committed_of account t) (at_line number t) u second }
{
    // For the proof alone.
    finished_syncs_join();
    other_syncs_keep_sides();
    unhindered_syncs_complete();
}

/// Nothing hinders that next sync: the first used up what was planned for it, and the breaks. The clocks must have been within 300 seconds
/// before the first, a session key must be left, and the device must hold what a keeper may hold.
pub fn next_syncs_begin_unhindered()
    ensures { (account : AccountState) (name : List ℕ) (s t : LabState) (number : ℕ) (c : Collection) (first : Outcome)
        → EndedUnfinished account name c s t first → IsWellFormed (held_by c) → HasNearClock name s → HasSession t
        → BeginsUnhindered account name (at_line number t) c }
{
    // For the proof alone.
    other_syncs_keep_sides();
    syncs_use_up_breaks();
}

/// Two collections that may be joined by their rows may be joined so again, once the server has committed their join, if there is room for
/// one commit more.
pub fn joins_stay_joinable()
    ensures { (c s now : Collection) → AreJoinable c s → HoldsJoin c s now → HasRoomOnceMore c now → AreJoinable c now }
{}

/// A retry heals, mostly by what is known before the first sync. The two collections could be joined by their rows then, and the clocks were within
/// 300 seconds. The first neither finished nor ran out of memory, its check was not bad, and nothing was planned between its calls. Then the
/// retry in the next line is finished, or memory runs out. Finished, both sides hold the join of what they held before the first. After the
/// first a session key must be left. What is committed then must have room for one commit more, and the device's schema moment.
pub fn retries_heal()
    ensures { (account : AccountState) (name : List ℕ) (s t u : LabState) (number : ℕ) (c : Collection) (again : List (List ℕ))
        → (first second : Outcome) → EndedUnfinished account name c s t first → HasNearClock name s → HasSession t
        → AreJoinable c (committed_of account s) → HasRoomOnceMore c (committed_of account t)
        → EndsSync name (at_line number t) u again second
        → EndsWithTheirJoin account name c (committed_of account s) (at_line number t) u second }
{
    // For the proof alone.
    joins_stay_joinable();
    next_syncs_begin_unhindered();
    next_syncs_heal();
    other_syncs_keep_sides();
}

/// Nothing hinders a sync in the line after any lines of a script; or nothing but lost messages does. The law adds that the lab is linked, if
/// the schema moments that the lines took from the first upload on were fresh. All else stays a premise: no line planned anything that hinders
/// the sync, a session key is left, the clocks are near, and the device holds what a keeper may hold.
pub fn scripts_begin_unhindered()
    ensures alone { (opening : Opening) (all : List Line) (printed : List (List ℕ)) (number : ℕ) (name : List ℕ) (s : LabState)
        → (c : Collection) → IsLabOpening opening → GoFresh opening all s printed → GoesLeftAlone name s → DeviceHolds name s c
        → IsWellFormed (held_by c) → BeginsLeftAlone (account_opened opening) name (at_line number s) c }
    ensures unhindered { (opening : Opening) (all : List Line) (printed : List (List ℕ)) (number : ℕ) (name : List ℕ) (s : LabState)
        → (c : Collection) → IsLabOpening opening → GoFresh opening all s printed → GoesLeftAlone name s → LosesNothing name s
        → DeviceHolds name s c → IsWellFormed (held_by c) → BeginsUnhindered (account_opened opening) name (at_line number s) c }
{
    // For the proof alone.
    runs_keep_labs_linked();
}

/// Nothing hinders a sync of a new device in the line right after its line `device <name>`. That line was accepted in a linked lab, a session
/// key is left, and no break of the server stands. The device holds a copy of what the server has committed, as after a download. So this
/// sync finds no changes, or memory runs out. The two lines have any numbers.
pub fn new_devices_begin_unhindered()
    ensures begins { (account : AccountState) (number next : ℕ) (line : Line) (name : List ℕ) (s t : LabState) (printed : List (List ℕ))
        → IsLinkedLab account s → HasSession s → StandsSo false s → Says line (lines.Device name)
        → EndsAs number line s t (Accepted printed)
        → BeginsUnhindered account name (at_line next t) (as_downloaded (committed_of account t)) }
    ensures unchanged { (account : AccountState) (number next : ℕ) (line : Line) (name : List ℕ) (s t u : LabState)
        → (printed crossed : List (List ℕ)) (outcome : Outcome) → IsLinkedLab account s → HasSession s → StandsSo false s
        → Says line (lines.Device name) → EndsAs number line s t (Accepted printed)
        → EndsSync name (at_line next t) u crossed outcome → LabEndsWith outcomes.NoChanges (at_line next t) u outcome }
{
    // For the proof alone.
    lines_keep_labs_linked();
    views_keep_the_collection();
    unhindered_syncs_complete();
}
