// What the file of a journal holds, as the contracts of functions that do nothing.
ghost use Rattle.std.specs.Prelude.{◌≡◌, ◌⊎◌, ◌≤◌, ℕ, List};
ghost use Rattle.ak_journal_forms.specs.Frames.{IsDamagedAt};
ghost use Rattle.ak_keep.specs.Collections.{Holding};
ghost use Rattle.ak_journal_tables.specs.Holdings.{HoldsOf, IsOtherAt};

use ak_disks::Disk;

/// A file stands for one collection at most.
pub fn a_file_holds_one_collection()
    ensures { (one other : Holding) (file : List ℕ) → HoldsOf one file → HoldsOf other file → one ≡ other }
{}

/// An image that stands for what was committed, or for the commit under way, is opened as one of the two.
pub fn what_is_opened_was_committed_or_under_way()
    ensures { (was now opened : Holding) (image : List ℕ) → HoldsOf was image ⊎ HoldsOf now image → HoldsOf opened image → (opened ≡ was) ⊎ (opened ≡ now) }
{}

/// A file that stands for a collection is not damaged: no payload of it is cut off, and each is that of a change.
pub fn no_image_of_a_collection_is_damaged()
    ensures cut_off { (held : Holding) (file : List ℕ) (place : ℕ) → HoldsOf held file → IsDamagedAt place file → ⊥ }
    ensures other { (held : Holding) (file : List ℕ) (place : ℕ) → HoldsOf held file → IsOtherAt place file → ⊥ }
{}

/// What a crash leaves now, one might have left since any moment before: between two calls a crash leaves nothing that is not named
/// by what the call before says of its moments.
pub fn what_is_left_now_might_have_been_left_since<D: Disk>()
    ensures { (disk : D) (since : ℕ) (image : List ℕ) → since ≤ D.moment disk → D.may_have_left disk (D.moment disk) image → D.may_have_left disk since image }
{}
