ghost use Rattle.std.specs.Prelude.{◌≡◌, ◌+◌, ◌^◌, ◌<◌, ◌≤◌, ℕ, List, Option, length, take, option_map, IfOk, IfSome, OnErr, OnOk};
ghost use Rattle.std.specs.Io.{ReadsAtMost};
ghost use Rattle.ak_faults.specs.Causes.{HasCause};
ghost use Rattle.ak_disks.specs.Disks.{Becomes, Elapses, Follows, IsCutOrWhole, IsRead, IsTorn, NoMore, Only, overwritten};

use ak_io::{End, Failed};

/// One file, and what a crash may leave of it. After a refused call it can be used on. A call that is answered counts
/// no fault.
pub trait Disk: End {
    /// What a read gives, where the disk tells it.
    ghost content: { Self → Option (List ℕ) };

    /// The images that a crash now may leave.
    ghost may_leave: { Self → List ℕ → Type 0 };

    /// A number that does not fall: what its calls so far make of the time.
    ghost moment: { Self → ℕ };

    /// The images that a crash at some moment from that one on might have left, in a call or between two.
    ghost may_have_left: { Self → ℕ → List ℕ → Type 0 };

    /// How many bytes the file has.
    fn size(&mut self) -> Result<u64, Failed>
        ensures told { IfOk result (λ size. IfSome (content self.old) (λ file. size ≡ length file)) }
        ensures same { content self.new ≡ content self.old }
        ensures crash { NoMore (may_leave self.old) (may_leave self.new) }
        ensures time { Elapses (moment self.old) (moment self.new) (may_have_left self.old) (may_have_left self.new) (may_leave self.new) }
        ensures cause { HasCause (Self.health self.old) (Self.health self.new) result }
        ensures calm { OnOk result (Self.health self.new ≡ Self.health self.old) };

    /// Reads from this place on into the front of `into`, and answers how many bytes it read. 0 for an `into` that is
    /// not empty is the end of the file.
    fn read_at(&mut self, place: u64, into: &mut [u8]) -> Result<usize, Failed>
        ensures bound { ReadsAtMost result into.new }
        ensures told { IfOk result (λ count. IfSome (content self.old) (λ file. IsRead file place count into.new)) }
        ensures same { content self.new ≡ content self.old }
        ensures crash { NoMore (may_leave self.old) (may_leave self.new) }
        ensures time { Elapses (moment self.old) (moment self.new) (may_have_left self.old) (may_have_left self.new) (may_leave self.new) }
        ensures cause { HasCause (Self.health self.old) (Self.health self.new) result }
        ensures calm { OnOk result (Self.health self.new ≡ Self.health self.old) };

    /// Writes these bytes over what stands from this place on, and past the end.
    fn write_at(&mut self, place: u64, from: &[u8]) -> Result<(), Failed>
        requires { IfSome (content self.old) (λ file. place ≤ length file) }
        ensures written { OnOk result (content self.new ≡ option_map (overwritten place from.now) (content self.old)) }

        // After a refusal any bytes may stand in the range, and until a sync a crash may leave any there.
        ensures refused { OnErr result (Becomes (IsTorn place (length from.now)) (content self.old) (content self.new)) }
        ensures crash { Follows (IsTorn place (length from.now)) (may_leave self.old) (may_leave self.new) }
        ensures time { Elapses (moment self.old) (moment self.new) (may_have_left self.old) (may_have_left self.new) (may_leave self.new) }

        // A write whose end would pass the last `u64` is refused.
        ensures far { OnOk result (place + length from.now < 2 ^ 64) }
        ensures cause { HasCause (Self.health self.old) (Self.health self.new) result }
        ensures calm { OnOk result (Self.health self.new ≡ Self.health self.old) };

    /// Cuts the file to this size.
    fn cut(&mut self, size: u64) -> Result<(), Failed>
        requires { IfSome (content self.old) (λ file. size ≤ length file) }
        ensures shortened { OnOk result (content self.new ≡ option_map (take size) (content self.old)) }

        // After a refusal the file may be cut or not, and until a sync a crash may leave either.
        ensures refused { OnErr result (Becomes (IsCutOrWhole size) (content self.old) (content self.new)) }
        ensures crash { Follows (IsCutOrWhole size) (may_leave self.old) (may_leave self.new) }
        ensures time { Elapses (moment self.old) (moment self.new) (may_have_left self.old) (may_have_left self.new) (may_leave self.new) }
        ensures cause { HasCause (Self.health self.old) (Self.health self.new) result }
        ensures calm { OnOk result (Self.health self.new ≡ Self.health self.old) };

    /// Brings the file to the disk. A refusal changes nothing.
    fn sync(&mut self) -> Result<(), Failed>
        // After it a crash leaves what a read gives.
        ensures durable { OnOk result (IfSome (content self.old) (Only (may_leave self.new))) }
        ensures same { content self.new ≡ content self.old }
        ensures crash { NoMore (may_leave self.old) (may_leave self.new) }
        ensures time { Elapses (moment self.old) (moment self.new) (may_have_left self.old) (may_have_left self.new) (may_leave self.new) }
        ensures cause { HasCause (Self.health self.old) (Self.health self.new) result }
        ensures calm { OnOk result (Self.health self.new ≡ Self.health self.old) };

    /// The file as it is read is one of its images.
    ghost leaves_content: { (disk : Self) → IfSome (content disk) (may_leave disk) };

    /// This moment is one of those since an earlier one.
    ghost counts_now: { (disk : Self) (since : ℕ) (image : List ℕ) → since ≤ moment disk → may_leave disk image → may_have_left disk since image };

    /// Since this moment there is no other.
    ghost only_now: { (disk : Self) (image : List ℕ) → may_have_left disk (moment disk) image → may_leave disk image };
}
