ghost use Rattle.std.specs.Prelude.{◌++◌, ◌∷◌, []};
ghost use Rattle.ak_line_runs.specs.CommandEnds.{IsOutputCaused, IsRefusedWith};

use ak_io::{Failed, Sink, print_line};

/// How a command ends.
#[derive(Clone, Copy, Debug, PartialEq, Eq)]
pub enum CommandEnd {
    /// The work is done: the input, if there is one, was read to its end.
    Done,
    /// It was refused, and why was printed.
    Refused,
    /// The input failed.
    ReadFailed,
    /// The output failed.
    WriteFailed,
    /// The keeper failed.
    KeeperFailed,
    /// Out of memory.
    Memory,
}

/// Prints the text as a line, which is all that a refused command prints.
pub fn refuse_command<O: Sink>(out: &mut O, text: &str) -> CommandEnd
    ensures told { IsRefusedWith text.now result (O.written out.old) (O.written out.new) }
    ensures cause { IsOutputCaused (O.health out.old) (O.health out.new) result }
{
    match print_line(out, text.as_bytes()) {
        Ok(()) => CommandEnd::Refused,
        Err(Failed) => CommandEnd::WriteFailed,
    }
}
