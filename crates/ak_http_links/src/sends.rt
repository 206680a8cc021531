ghost use Rattle.std.specs.Prelude.{◌≡◌, OnOk, OnErr};
ghost use Rattle.std.specs.Io.KnownBytes.{Appends};
ghost use Rattle.ak_faults.specs.Causes.{HasCause};
ghost use Rattle.ak_http_links.specs.LinkWrites.{AppendsFront};

use ak_io::Failed;
use ak_links::Link;

/// Writes all of the bytes, in as many writes as the link takes them in. It takes no memory.
pub(crate) fn send_all<L: Link>(link: &mut L, bytes: &[u8]) -> Result<(), Failed>
    ensures ok { OnOk result (Appends (L.written link.old) (L.written link.new) bytes.now) }
    ensures part { OnErr result (AppendsFront (L.written link.old) (L.written link.new) bytes.now) }
    ensures apart { L.left link.new ≡ L.left link.old }
    ensures cause { HasCause (L.health link.old) (L.health link.new) result }
{
    let mut rest = bytes;
    while !rest.is_empty() {
        let count = link.send(rest)?;
        if count == 0 {
            return Err(Failed);
        }
        rest = &rest[count..];
    }
    Ok(())
}
