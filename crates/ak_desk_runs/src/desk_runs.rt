ghost use Rattle.std.specs.Prelude.{◌≡◌, ◌≢◌, ◌+◌, ◌<◌, ◌≤◌, map, true, false, Ok, Err};
ghost use Rattle.std.specs.Io.KnownBytes.{IsAtEnd};
ghost use Rattle.ak_desk.specs.Desks.{IsIdle};
ghost use Rattle.ak_desk_runs.specs.DeskRuns.{EndsDesk, IsDeskRun};
ghost use Rattle.ak_desk_runs.specs.LineOutcomes.{DeskEnds};
ghost use Rattle.ak_desk_runs.specs.RunStates.{outside_of, state_with};
ghost use Rattle.ak_io.specs.Lines.{lines_left};
ghost use Rattle.ak_keep.specs.Keepers.{is_marked};
ghost use Rattle.ak_line_runs.specs.CommandEnds.{IsInputCaused, IsKeeperCaused, IsOutputCaused};
ghost use Rattle.ak_line_runs.specs.LineRuns.{input_lines};
ghost use Rattle.ak_line_runs.specs.RunSteps.{StepCause, Steps};
ghost use Rattle.ak_line_runs.specs.declared.command_ends.CommandEnd.TheVariants as ends;

use crate::obeyed_lines::obey_line;
use crate::progress::Progress;
use ak_base::Memory;
use ak_filters::FieldFilter;
use ak_io::{Chance, Clock, LineReader, ReadFault, Sink, Source};
use ak_keep::Keeper;
use ak_line_runs::{CommandEnd, print_came, refuse_command};
use ak_undo::UndoList;
use std::alloc::Global;

/// Runs the desk lines of the input one by one over the collection that is held, until the input ends or a line is
/// refused, and prints the answer of each. The steps that `undo` goes back to are those of this run.
pub fn run_desk<K: Keeper, C: Clock, R: Chance, I: Source, O: Sink>(
    alloc: Global,
    keeper: &mut K,
    clock: &mut C,
    chance: &mut R,
    filters: &mut Vec<Box<dyn FieldFilter>>,
    input: &mut I,
    out: &mut O,
) -> CommandEnd
    requires unmarked { is_marked (K.keeping keeper.old) ≡ false }

    // What the lines leave, and what is written for them.
    ensures ends { EndsDesk result (input_lines (I.left input.old))
        (outside_of (K.keeping keeper.old) (map (λ b. meaning b) filters.old.items)
        (C.to_come clock.old) (R.to_come chance.old))
        (outside_of (K.keeping keeper.new) (map (λ b. meaning b) filters.new.items)
        (C.to_come clock.new) (R.to_come chance.new))
        (O.written out.old) (O.written out.new) }
    ensures ended { result ≡ ends.Done → IsAtEnd (I.left input.new) }
    ensures stays { (K.keeping keeper.new).headed ≡ (K.keeping keeper.old).headed }

    // Why it ends with a failure.
    ensures kept { IsKeeperCaused (K.health keeper.old) (K.health keeper.new) result }
    ensures read { IsInputCaused (I.health input.old) (I.health input.new) result }
    ensures written { IsOutputCaused (O.health out.old) (O.health out.new) result }
{
    if !keeper.held() {
        return refuse_command(out, "no collection");
    }
    run_lines(alloc, keeper, clock, chance, filters, input, out)
}

/// The same over a keeper that holds a collection.
fn run_lines<K: Keeper, C: Clock, R: Chance, I: Source, O: Sink>(
    alloc: Global,
    keeper: &mut K,
    clock: &mut C,
    chance: &mut R,
    filters: &mut Vec<Box<dyn FieldFilter>>,
    input: &mut I,
    out: &mut O,
) -> CommandEnd
    requires idle { IsIdle (K.keeping keeper.old) }
    ensures ends { IsDeskRun result (input_lines (I.left input.old))
        (outside_of (K.keeping keeper.old) (map (λ b. meaning b) filters.old.items)
        (C.to_come clock.old) (R.to_come chance.old))
        (outside_of (K.keeping keeper.new) (map (λ b. meaning b) filters.new.items)
        (C.to_come clock.new) (R.to_come chance.new))
        (O.written out.old) (O.written out.new) }
    ensures ended { result ≡ ends.Done → IsAtEnd (I.left input.new) }
    ensures stays { (K.keeping keeper.new).headed ≡ (K.keeping keeper.old).headed }
    ensures kept { IsKeeperCaused (K.health keeper.old) (K.health keeper.new) result }
    ensures read { IsInputCaused (I.health input.old) (I.health input.new) result }
    ensures written { IsOutputCaused (O.health out.old) (O.health out.new) result }
{
    let undo = match UndoList::new(alloc) {
        Ok(undo) => undo,
        Err(Memory) => return CommandEnd::Memory,
    };
    let mut reader = match LineReader::new(alloc) {
        Ok(reader) => reader,
        Err(Memory) => return CommandEnd::Memory,
    };
    let mut progress = Progress {
        alloc,
        undo,
        done: 0,
    };
    'lines: loop {
        match run_line(
            &mut progress,
            &mut reader,
            keeper,
            clock,
            chance,
            filters,
            input,
            out,
        ) {
            Ok(true) => {}
            Ok(false) => return CommandEnd::Done,
            Err(end) => return end,
        }
    }
}

/// Runs the next line. False if there is none, and the input was read to its end.
fn run_line<K: Keeper, C: Clock, R: Chance, I: Source, O: Sink>(
    progress: &mut Progress,
    reader: &mut LineReader,
    keeper: &mut K,
    clock: &mut C,
    chance: &mut R,
    filters: &mut Vec<Box<dyn FieldFilter>>,
    input: &mut I,
    out: &mut O,
) -> Result<bool, CommandEnd>
    requires idle { IsIdle (K.keeping keeper.old) }
    requires number { reader.old.number ≤ 1_073_741_824 }
    ensures steps { Steps DeskEnds (lines_left reader.old (I.left input.old)) (lines_left reader.new (I.left input.new))
        (reader.old.number + 1)
        (state_with (outside_of (K.keeping keeper.old) (map (λ b. meaning b) filters.old.items)
        (C.to_come clock.old) (R.to_come chance.old)) progress.old)
        (state_with (outside_of (K.keeping keeper.new) (map (λ b. meaning b) filters.new.items)
        (C.to_come clock.new) (R.to_come chance.new)) progress.new)
        (O.written out.old) (O.written out.new) result }
    ensures counts { result ≡ Ok true → (reader.new.number ≡ reader.old.number + 1)
        × (reader.new.number ≤ 1_073_741_824) × (reader.new.room < reader.old.room) }
    ensures ended { result ≡ Ok false → IsAtEnd (I.left input.new) }
    ensures not_done { result ≢ Err ends.Done }
    ensures stays { (K.keeping keeper.new).headed ≡ (K.keeping keeper.old).headed }
    ensures cause { StepCause result (K.health keeper.old) (K.health keeper.new)
        (I.health input.old) (I.health input.new) (O.health out.old) (O.health out.new) }
{
    let line = match reader.next(input) {
        Ok(Some(line)) => line,
        Ok(None) => return Ok(false),
        Err(ReadFault::Failed) => return Err(CommandEnd::ReadFailed),
        Err(ReadFault::Memory) => return Err(CommandEnd::Memory),
    };
    let number = reader.number();
    let came = obey_line(progress, &line, keeper, clock, chance, filters);
    print_came(progress.alloc, number, &came, out)
}
