// What a server's commit keeps.
ghost use Rattle.ak_keep.specs.Collections.{Collection};
ghost use Rattle.ak_merge.specs.Commits.{Received, IsCommitOf, IsInRange, IsCommitted};
ghost use Rattle.ak_merge.specs.Edits.{Reversal};
ghost use Rattle.ak_merge.specs.Holdings.{row_under, AreNamed};
ghost use Rattle.ak_merge.specs.Links.{AreLinked};
ghost use Rattle.ak_merge.specs.Undoing.{StepFits};
ghost use Rattle.std.specs.Prelude.{pos, ◌≤ℤ◌};

/// Whatever a server takes and commits, each device that was linked with it stays linked.
pub fn commits_keep_links()
    ensures { (came : Received) (c s t : Collection) → IsCommitOf came s t → AreNamed (row_under s) → pos 0 ≤ℤ s.head.usn → AreLinked c s → AreLinked c t }
{}

/// A step that fits a server's collection still does after the server took whatever came and committed it.
pub fn commits_keep_fits()
    ensures { (came : Received) (c s t : Collection) (step : Reversal) → IsCommitOf came s t → StepFits c step s → StepFits c step t }
{}

/// If what a server takes is in its ranges, its collection stays one that a server may hold, with its head in
/// its ranges.
pub fn commits_stay_lawful()
    ensures { (came : Received) (s t : Collection) → IsCommitOf came s t → IsInRange came s t.head.moment → IsCommitted s → IsCommitted t }
{}
