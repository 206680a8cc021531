ghost use Rattle.std.specs.Prelude.{◌≡◌, ◌≢◌, ◌⊎◌, ◌+◌, ◌<◌, ◌≤◌, true, false, Ok, Err, IfOk};
ghost use Rattle.std.specs.Io.KnownBytes.{IsAtEnd, Keeps};
ghost use Rattle.ak_faults.specs.Causes.{HasCauseOf};
ghost use Rattle.ak_io.specs.Lines.{lines_left};
ghost use Rattle.ak_lab.specs.LabRuns.{RunsLab};
ghost use Rattle.ak_lab.specs.LabStates.{IsReady, state_of};
ghost use Rattle.ak_lab.specs.LineOutcomes.{EndsAs};
ghost use Rattle.ak_line_runs.specs.CommandEnds.{IsScriptCaused};
ghost use Rattle.ak_line_runs.specs.LinePrints.{printed_by};
ghost use Rattle.ak_line_runs.specs.LineRuns.{IsLineRun, came_to, input_lines};
ghost use Rattle.ak_line_runs.specs.RunSteps.{Steps};
ghost use Rattle.ak_line_runs.specs.declared.command_ends.CommandEnd.TheVariants as ends;

use crate::lab_lines::obey;
use crate::labs::Lab;
use ak_base::{List, Memory};
use ak_io::{Line, LineReader, ReadFault, Sink, Source};
use ak_lab_lines::{LabLineFault, read_lab_line};
use ak_line_runs::{
    CommandEnd, LinePrint, LineStop, is_skipped_line, print_came, stop_by, text_of,
};
use ak_sync_in_memory::Log;
use std::alloc::Global;

/// Runs the lines of a lab's script one by one, until the input ends or a line is refused, and prints what each prints.
/// The log becomes that of all that came to the lab's server.
pub fn run_lab<I: Source, O: Sink>(
    alloc: Global,
    input: &mut I,
    out: &mut O,
    log: &mut Log,
) -> CommandEnd
    // What the lines come to, what is written for them, and what came to the server. If memory is out before the first
    // line, nothing is done.
    ensures runs { RunsLab result (input_lines (I.left input.old)) log.new.entries
        (O.written out.old) (O.written out.new)
        ⊎ (result ≡ ends.Memory) × Keeps (O.written out.old) (O.written out.new) × (log.new ≡ log.old) }
    ensures ended { result ≡ ends.Done → IsAtEnd (I.left input.new) }

    // Why it ends with a failure: it is never that of a keeper.
    ensures cause { IsScriptCaused (I.health input.old) (I.health input.new) (O.health out.old) (O.health out.new) result }
    ensures unkept { result ≢ ends.KeeperFailed }
{
    let mut reader = match LineReader::new(alloc) {
        Ok(reader) => reader,
        Err(Memory) => return CommandEnd::Memory,
    };
    let lab = match Lab::open(alloc) {
        Ok(lab) => lab,
        Err(Memory) => return CommandEnd::Memory,
    };
    let (lab, end) = run_lines(lab, &mut reader, input, out);
    *log = lab.into_log();
    end
}

/// Runs the lines that are left to the reader, and hands back the lab after them.
fn run_lines<I: Source, O: Sink>(
    lab: Lab,
    reader: &mut LineReader,
    input: &mut I,
    out: &mut O,
) -> (Lab, CommandEnd)
    requires ready { IsReady (state_of lab) }
    requires number { reader.old.number ≡ 0 }
    ensures runs { IsLineRun EndsAs result.1 (lines_left reader.old (I.left input.old)) (state_of lab) (state_of result.0)
        (O.written out.old) (O.written out.new) }
    ensures ended { result.1 ≡ ends.Done → IsAtEnd (I.left input.new) }
    ensures cause { IsScriptCaused (I.health input.old) (I.health input.new) (O.health out.old) (O.health out.new) result.1 }
    ensures unkept { result.1 ≢ ends.KeeperFailed }
{
    let mut lab = lab;
    'lines: loop {
        let (next, went) = run_line(lab, reader, input, out);
        match went {
            Ok(true) => lab = next,
            Ok(false) => return (next, CommandEnd::Done),
            Err(end) => return (next, end),
        }
    }
}

/// Runs the next line. False if there is none, and the input was read to its end.
fn run_line<I: Source, O: Sink>(
    lab: Lab,
    reader: &mut LineReader,
    input: &mut I,
    out: &mut O,
) -> (Lab, Result<bool, CommandEnd>)
    requires ready { IsReady (state_of lab) }
    requires number { reader.old.number ≤ 1_073_741_824 }
    ensures steps { Steps EndsAs (lines_left reader.old (I.left input.old)) (lines_left reader.new (I.left input.new))
        (reader.old.number + 1) (state_of lab) (state_of result.0) (O.written out.old) (O.written out.new) result.1 }
    ensures counts { result.1 ≡ Ok true → (reader.new.number ≡ reader.old.number + 1)
        × (reader.new.number ≤ 1_073_741_824) × (reader.new.room < reader.old.room) }
    ensures ended { result.1 ≡ Ok false → IsAtEnd (I.left input.new) }
    ensures ready { result.1 ≡ Ok true → IsReady (state_of result.0) }
    ensures not_done { result.1 ≢ Err ends.Done }
    ensures unkept { result.1 ≢ Err ends.KeeperFailed }
    ensures read { HasCauseOf ends.ReadFailed (I.health input.old) (I.health input.new) result.1 }
    ensures written { HasCauseOf ends.WriteFailed (O.health out.old) (O.health out.new) result.1 }
{
    let line = match reader.next(input) {
        Ok(Some(line)) => line,
        Ok(None) => return (lab, Ok(false)),
        Err(ReadFault::Failed) => return (lab, Err(CommandEnd::ReadFailed)),
        Err(ReadFault::Memory) => return (lab, Err(CommandEnd::Memory)),
    };
    let number = reader.number();
    let (lab, came) = obey_line(lab, number, &line);
    let went = print_came(lab.alloc, number, &came, out);
    (lab, went)
}

/// Does what the line of this number says, and gives what it prints.
fn obey_line(lab: Lab, number: u64, line: &Line) -> (Lab, Result<LinePrint, LineStop>)
    requires ready { IsReady (state_of lab) }
    ensures ends { EndsAs number line.now (state_of lab) (state_of result.0) (came_to (printed_by result.1)) }
    ensures ready { IfOk result.1 (λ printed. IsReady (state_of result.0)) }
{
    let alloc = lab.alloc;
    let mut lab = lab;
    lab.at_line(number);
    if is_skipped_line(line) {
        return (lab, Ok(LinePrint::Lines(List::new(alloc))));
    }
    let text = match text_of(line) {
        Ok(text) => text,
        Err(why) => return (lab, Err(stop_by(alloc, why))),
    };
    match read_lab_line(alloc, text) {
        Ok(said) => obey(lab, said),
        Err(LabLineFault::BadLine) => (lab, Err(stop_by(alloc, "bad line"))),
        Err(LabLineFault::Memory) => (lab, Err(LineStop::Memory)),
    }
}
