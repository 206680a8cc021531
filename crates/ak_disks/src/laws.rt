// Laws of what a crash may leave of a disk in memory, over every record of its calls.
ghost use Rattle.std.specs.Prelude.{ℕ, List};
ghost use Rattle.ak_disks.specs.Images.{Event, MayLeave, file_after, picked};

/// The file as it is read is one of the images that may be left.
#[tactic(auto, using(crate::specs::Moments::leaves_file))]
pub fn what_is_read_may_be_left()
    ensures { (first : List ℕ) (events : List Event) → MayLeave first events (file_after first events) }
{}

/// So is each image that a number picks.
#[tactic(auto, using(crate::proofs::Draws::picked_may_be_left))]
pub fn a_picked_image_may_be_left()
    ensures { (first : List ℕ) (pick : ℕ) (events : List Event) → MayLeave first events (picked first pick events) }
{}
