ghost use Rattle.std.specs.Prelude.{[], ◌∷◌, ◌++◌, OnOk, OnErr};
ghost use Rattle.std.specs.Io.KnownBytes.{Appends};
ghost use Rattle.ak_faults.specs.Causes.{HasCause};
ghost use Rattle.ak_io.specs.Scripts.{AppendsPart};

use crate::traits::{Failed, Sink};

/// Writes all of the bytes, in as many writes as the sink takes them in. It is refused if a write is, or takes nothing;
/// a fault that only a flush met shows in the count of faults alone. It takes no memory.
pub fn write_all<O: Sink>(out: &mut O, bytes: &[u8]) -> Result<(), Failed>
    ensures ok { OnOk result (Appends (O.written out.old) (O.written out.new) bytes.now) }
    ensures part { OnErr result (AppendsPart (O.written out.old) (O.written out.new) bytes.now) }
    ensures cause { HasCause (O.health out.old) (O.health out.new) result }
{
    let mut rest = bytes;
    while !rest.is_empty() {
        let count = out.write(rest)?;
        if count == 0 {
            return Err(Failed);
        }
        rest = &rest[count..];
    }
    Ok(())
}

/// Writes the line and a line feed. It takes no memory.
#[tactic(auto, using(crate::proofs::Scripts::part_longer))]
pub fn print_line<O: Sink>(out: &mut O, line: &[u8]) -> Result<(), Failed>
    ensures ok { OnOk result (Appends (O.written out.old) (O.written out.new) (line.now ++ 10 ∷ [])) }
    ensures part { OnErr result (AppendsPart (O.written out.old) (O.written out.new) (line.now ++ 10 ∷ [])) }
    ensures cause { HasCause (O.health out.old) (O.health out.new) result }
{
    write_all(out, line)?;
    write_all(out, b"\n")
}
