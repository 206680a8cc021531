ghost use Rattle.std.specs.Prelude.{◌≡◌, ◌↔◌, None, Some};
ghost use Rattle.std.specs.FinMap.{get};
ghost use Rattle.ak_base.specs.declared.names.Name.{Name};
ghost use Rattle.ak_keep.specs.Collections.{Rows};
ghost use Rattle.ak_merge.specs.Holdings.{AreNamed, AreChecked};
ghost use Rattle.ak_merge.specs.Joins.{AreApart};
ghost use Rattle.ak_merge.specs.Conflicts.{IsLeastConflict, first_conflict};
ghost use Rattle.ak_merge.specs.declared.checks.CheckFault.{CheckFault};
ghost use Rattle.ak_merge.specs.Soundness.{IsSound, IsLeastFault, first_fault};

/// The basic check finds no fault exactly if the collection is sound.
#[tactic(auto, using(crate::proofs::SoundLaws::sound_has_no_fault))]
pub fn sound_has_no_fault()
    ensures { (held : Rows) → AreNamed (get held) → AreChecked (get held) → (first_fault held ≡ None) ↔ IsSound (get held) }
{}

/// The fault that the basic check answers is the first of all that the collection has, by their kind and then by id.
pub fn first_fault_is_least()
    ensures { (held : Rows) (fault : CheckFault) → AreNamed (get held) → AreChecked (get held) → first_fault held ≡ Some fault → IsLeastFault (get held) fault }
{}

/// The walk for two rows of one name and stamp that differ finds none exactly if the two collections
/// are apart. The rows of the first alone need be named and in their ranges.
#[tactic(auto, using(crate::proofs::ConflictLaws::apart_has_no_tie))]
pub fn apart_has_no_tie()
    ensures { (a b : Rows) → AreNamed (get a) → AreChecked (get a) → (first_conflict a b ≡ None) ↔ AreApart (get a) (get b) }
{}

/// The name that this walk answers is the least under which the two hold rows with equal stamps that
/// are not equal, usns aside.
pub fn first_conflict_is_least()
    ensures { (a b : Rows) (name : Name) → AreNamed (get a) → AreChecked (get a) → first_conflict a b ≡ Some name → IsLeastConflict (get a) (get b) name }
{}
