// What is written of a line: what it prints, or why it is refused.
ghost use Rattle.std.specs.Prelude.{◌≡◌, Err, IfOk, OnErr, OnOk};
ghost use Rattle.std.specs.Io.KnownBytes.{Appends};
ghost use Rattle.ak_faults.specs.Causes.{HasCause, HasCauseOf};
ghost use Rattle.ak_io.specs.Scripts.{AppendsPart, written_lines};
ghost use Rattle.ak_line_runs.specs.CommandEnds.{IsOutputCaused};
ghost use Rattle.ak_line_runs.specs.LinePrints.{printed_by, printed_lines};
ghost use Rattle.ak_line_runs.specs.RunSteps.{IsCamePrinted, IsRefusalPrinted};
ghost use Rattle.ak_line_runs.specs.declared.command_ends.CommandEnd.TheVariants as ends;

use crate::answer_pieces::print_answer_line;
use crate::command_ends::CommandEnd;
use crate::line_prints::LinePrint;
use crate::line_stops::LineStop;
use ak_base::{Memory, Text};
use ak_io::{Failed, ScriptEnd, Sink, print_line, print_refusal, write_all};
use std::alloc::Global;

/// How many lines are written at a time.
const LINES_AT_ONCE: usize = 1000;

/// Prints what the line of this number came to, and tells whether the run goes on. After a line that was accepted it never ends for
/// lack of memory.
pub fn print_came<O: Sink>(
    alloc: Global,
    number: u64,
    came: &Result<LinePrint, LineStop>,
    out: &mut O,
) -> Result<bool, CommandEnd>
    ensures printed { IsCamePrinted number (printed_by came.now) result (O.written out.old) (O.written out.new) }
    ensures cause { HasCauseOf ends.WriteFailed (O.health out.old) (O.health out.new) result }
{
    match came {
        Ok(print) => match print_accepted(alloc, print, out) {
            Ok(()) => Ok(true),
            Err(Failed) => Err(CommandEnd::WriteFailed),
        },
        Err(LineStop::Refused(why)) => Err(print_refused(alloc, number, why, out)),
        Err(LineStop::Failed) => Err(CommandEnd::KeeperFailed),
        Err(LineStop::Memory) => Err(CommandEnd::Memory),
    }
}

/// Prints what an accepted line prints.
fn print_accepted<O: Sink>(alloc: Global, print: &LinePrint, out: &mut O) -> Result<(), Failed>
    ensures ok { OnOk result (Appends (O.written out.old) (O.written out.new) (written_lines (printed_lines print.now))) }
    ensures part { OnErr result (AppendsPart (O.written out.old) (O.written out.new) (written_lines (printed_lines print.now))) }
    ensures cause { HasCause (O.health out.old) (O.health out.new) result }
{
    match print {
        LinePrint::Lines(lines) => print_lines(alloc, lines.as_slice(), out),
        LinePrint::Answer(answer) => print_answer_line(alloc, answer, out),
    }
}

/// Prints the lines, up to a thousand of them at a time.
fn print_lines<O: Sink>(alloc: Global, lines: &[Text], out: &mut O) -> Result<(), Failed>
    ensures ok { OnOk result (Appends (O.written out.old) (O.written out.new) (written_lines lines.now)) }
    ensures part { OnErr result (AppendsPart (O.written out.old) (O.written out.new) (written_lines lines.now)) }
    ensures cause { HasCause (O.health out.old) (O.health out.new) result }
{
    let mut rest = lines;
    while !rest.is_empty() {
        let count = rest.len().min(LINES_AT_ONCE);
        print_together(alloc, &rest[..count], out)?;
        rest = &rest[count..];
    }
    Ok(())
}

/// Prints the lines at once, or one by one if memory is out for their bytes.
fn print_together<O: Sink>(alloc: Global, lines: &[Text], out: &mut O) -> Result<(), Failed>
    ensures ok { OnOk result (Appends (O.written out.old) (O.written out.new) (written_lines lines.now)) }
    ensures part { OnErr result (AppendsPart (O.written out.old) (O.written out.new) (written_lines lines.now)) }
    ensures cause { HasCause (O.health out.old) (O.health out.new) result }
{
    match bytes_of(alloc, lines) {
        Ok(bytes) => write_all(out, bytes.as_slice()),
        Err(Memory) => print_each(lines, out),
    }
}

/// The bytes of the lines, each with its line feed.
fn bytes_of(alloc: Global, lines: &[Text]) -> Result<Vec<u8>, Memory>
    ensures { IfOk result (λ bytes. bytes.items ≡ written_lines lines.now) }
{
    let mut bytes = Vec::new(alloc);
    for line in lines {
        bytes.extend_from_slice(line.as_str().as_bytes())?;
        bytes.push(b'\n')?;
    }
    Ok(bytes)
}

/// Prints the lines one by one. It takes no memory.
fn print_each<O: Sink>(lines: &[Text], out: &mut O) -> Result<(), Failed>
    ensures ok { OnOk result (Appends (O.written out.old) (O.written out.new) (written_lines lines.now)) }
    ensures part { OnErr result (AppendsPart (O.written out.old) (O.written out.new) (written_lines lines.now)) }
    ensures cause { HasCause (O.health out.old) (O.health out.new) result }
{
    for line in lines {
        print_line(out, line.as_str().as_bytes())?;
    }
    Ok(())
}

/// Prints why the line of this number is refused: the last line of a run that is refused.
fn print_refused<O: Sink>(alloc: Global, number: u64, why: &Text, out: &mut O) -> CommandEnd
    ensures printed { IsRefusalPrinted number why.now (Err result) (O.written out.old) (O.written out.new) }
    ensures cause { IsOutputCaused (O.health out.old) (O.health out.new) result }
{
    match print_refusal(alloc, number, why, out) {
        ScriptEnd::Refused => CommandEnd::Refused,
        ScriptEnd::WriteFailed => CommandEnd::WriteFailed,
        // A refusal that is not printed: for the text of a refused line there are no other ends.
        ScriptEnd::Done | ScriptEnd::ReadFailed | ScriptEnd::Memory => CommandEnd::Memory,
    }
}
