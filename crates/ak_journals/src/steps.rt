ghost use Rattle.std.specs.Prelude.{◌≡◌, ◌+◌, ◌^◌, ◌<◌, ◌≤◌, length, option_map, take, IfSome, OnErr, OnOk};
ghost use Rattle.ak_faults.specs.Causes.{HasCause};
ghost use Rattle.ak_disks.specs.Disks.{Becomes, Elapses, Follows, IsCutOrWhole, IsTorn, Only, overwritten};
ghost use Rattle.ak_journals.specs.Moments.{LedBy};

use ak_disks::Disk;
use ak_io::Failed;

/// Writes these bytes and brings them to the disk.
pub fn write_synced<D: Disk>(disk: &mut D, place: u64, from: &[u8]) -> Result<(), Failed>
    requires { IfSome (D.content disk.old) (λ file. place ≤ length file) }
    ensures written { OnOk result (D.content disk.new ≡ option_map (overwritten place from.now) (D.content disk.old)) }
    ensures durable { OnOk result (IfSome (D.content disk.new) (Only (D.may_leave disk.new))) }
    ensures refused { OnErr result (Becomes (IsTorn place (length from.now)) (D.content disk.old) (D.content disk.new)) }
    ensures crash { Follows (IsTorn place (length from.now)) (D.may_leave disk.old) (D.may_leave disk.new) }
    ensures time { Elapses (D.moment disk.old) (D.moment disk.new) (D.may_have_left disk.old) (D.may_have_left disk.new)
        (LedBy (IsTorn place (length from.now)) (D.may_leave disk.old)) }
    ensures far { OnOk result (place + length from.now < 2 ^ 64) }
    ensures cause { HasCause (D.health disk.old) (D.health disk.new) result }
    ensures calm { OnOk result (D.health disk.new ≡ D.health disk.old) }
{
    disk.write_at(place, from)?;
    disk.sync()?;
    Ok(())
}

/// Cuts the file and brings that to the disk.
pub fn cut_synced<D: Disk>(disk: &mut D, size: u64) -> Result<(), Failed>
    requires { IfSome (D.content disk.old) (λ file. size ≤ length file) }
    ensures shortened { OnOk result (D.content disk.new ≡ option_map (take size) (D.content disk.old)) }
    ensures durable { OnOk result (IfSome (D.content disk.new) (Only (D.may_leave disk.new))) }
    ensures refused { OnErr result (Becomes (IsCutOrWhole size) (D.content disk.old) (D.content disk.new)) }
    ensures crash { Follows (IsCutOrWhole size) (D.may_leave disk.old) (D.may_leave disk.new) }
    ensures time { Elapses (D.moment disk.old) (D.moment disk.new) (D.may_have_left disk.old) (D.may_have_left disk.new)
        (LedBy (IsCutOrWhole size) (D.may_leave disk.old)) }
    ensures cause { HasCause (D.health disk.old) (D.health disk.new) result }
    ensures calm { OnOk result (D.health disk.new ≡ D.health disk.old) }
{
    disk.cut(size)?;
    disk.sync()?;
    Ok(())
}
