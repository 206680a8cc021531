// How a device and a server come to be linked, and when that means that they have one content.
ghost use Rattle.std.specs.Prelude.{◌≡◌, ◌≢◌, ◌≤ℤ◌, ◌⊎◌};
ghost use Rattle.ak_base.specs.Heads.{IsHeadInRange};
ghost use Rattle.ak_keep.specs.Collections.{Collection};
ghost use Rattle.ak_merge.specs.Commits.{IsCommitted, IsCopyOf, IsOpening, IsUploadOf, IsWholeInRange, Whole};
ghost use Rattle.ak_merge.specs.Edits.{Reversal};
ghost use Rattle.ak_merge.specs.Holdings.{row_under, AreNamed, AreChecked, content_of, SameContent};
ghost use Rattle.ak_merge.specs.Links.{AreLinkedParts, AreLinked, IsAllSent};
ghost use Rattle.ak_merge.specs.Undoing.{StepFits};

/// What a download leaves is linked with the committed collection, and has its content.
pub fn copies_are_linked()
    ensures linked { (s c : Collection) → IsCommitted s → IsCopyOf s c → AreLinkedParts c s }
    ensures content { (s c : Collection) → IsCopyOf s c → SameContent (content_of c) (content_of s) }
{}

/// A collection that no device has synced with, all usns 0 and no graves under the usn 1, is what a server may
/// hold.
pub fn openings_are_lawful()
    ensures { (s : Collection) → AreNamed (row_under s) → AreChecked (row_under s) → IsHeadInRange s.head → IsOpening s → IsCommitted s }
{}

/// If an upload is in its ranges, what it leaves is what a server may hold.
pub fn uploads_are_lawful()
    ensures { (came : Whole) (s t : Collection) → IsUploadOf came s t → IsWholeInRange came t.head.schema t.head.moment → IsCommitted s → IsCommitted t }
{}

/// After an upload each device that has a schema moment of at most the server's or the upload's is linked with the
/// server, and each step fits. The two are then of different schemas.
pub fn uploads_keep_links()
    ensures linked { (came : Whole) (c s t : Collection) → IsUploadOf came s t → (c.head.schema ≤ℤ s.head.schema) ⊎ (c.head.schema ≤ℤ came.schema) → AreLinked c t }
    ensures fits { (came : Whole) (c s t : Collection) (step : Reversal) → IsUploadOf came s t → (c.head.schema ≤ℤ s.head.schema) ⊎ (c.head.schema ≤ℤ came.schema) → StepFits c step t }
{}

/// A device is linked with every collection that has another schema moment than its own.
pub fn fresh_schemas_link()
    ensures { (c s : Collection) → c.head.schema ≢ s.head.schema → AreLinked c s }
{}

/// If a device is linked with a server's collection, has its usn and its moment and nothing to send, a sync has
/// nothing to do: the two have one content.
#[tactic(auto, using(crate::proofs::EqualHeads::equal_heads_are_equal_contents))]
pub fn equal_heads_are_equal_contents()
    ensures { (c s : Collection) → AreLinkedParts c s → c.head.usn ≡ s.head.usn → c.head.moment ≡ s.head.moment → IsAllSent c → SameContent (content_of c) (content_of s) }
{}
