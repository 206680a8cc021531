ghost use Rattle.std.specs.Prelude.{◌≡◌, IfOk, string_bytes};
ghost use Rattle.ak_io.specs.Endings.{IsEndCaused, PrintsRefusal};
ghost use Rattle.ak_io.specs.Scripts.{refusal_line};

use crate::traits::{Failed, Sink};
use crate::writes::print_line;
use ak_base::{Memory, Text};
use std::alloc::Global;

/// How a script ends.
#[derive(Clone, Copy, Debug, PartialEq, Eq)]
pub enum ScriptEnd {
    /// The input was read to its end.
    Done,
    /// A line was refused, and its text printed.
    Refused,
    /// The input failed.
    ReadFailed,
    /// The output failed.
    WriteFailed,
    /// Out of memory.
    Memory,
}

/// Prints the text of a refused line, after the line's number: the last line of a run that is refused.
pub fn print_refusal<O: Sink>(alloc: Global, number: u64, text: &Text, out: &mut O) -> ScriptEnd
    ensures printed { PrintsRefusal result number text.now (O.written out.old) (O.written out.new) }
    ensures cause { IsEndCaused (O.health out.old) (O.health out.new) result }
{
    let line = match refusal_line(alloc, number, text.as_str()) {
        Ok(line) => line,
        Err(Memory) => return ScriptEnd::Memory,
    };
    match print_line(out, line.as_bytes()) {
        Ok(()) => ScriptEnd::Refused,
        Err(Failed) => ScriptEnd::WriteFailed,
    }
}

/// `line <number>: <text>`.
fn refusal_line(alloc: Global, number: u64, text: &str) -> Result<String, Memory>
    ensures { IfOk result (λ line. string_bytes line ≡ refusal_line (number, text.now)) }
{
    let line = format!(in alloc; "line {number}: {text}")?;
    Ok(line)
}
