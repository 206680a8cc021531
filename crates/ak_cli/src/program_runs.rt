ghost use Rattle.std.specs.Prelude.{◌≡◌, ◌⊎◌, ◌<◌, ◌≤◌, ℕ, map, false, true, [], None, Some};
ghost use Rattle.std.specs.Io.KnownBytes.{Appends, IsAtEnd};
ghost use Rattle.ak_cli.specs.ProgramEnds.{EndsBy, LeavesBy, program_outside, reads_input, uses_keeper};
ghost use Rattle.ak_cli.specs.Programs.{command_of, named_by, usage_line, Tells};
ghost use Rattle.ak_faults.specs.Causes.{GoesOn, Rose};
ghost use Rattle.ak_io.specs.Scripts.{AppendsPart};
ghost use Rattle.ak_keep.specs.Keepers.{is_marked};

use crate::program_commands::{ProgramCommand, command_of};
use crate::statuses::{READ_FAILED, USAGE, WRITE_FAILED, command_status};
use ak_client_wire::Wire;
use ak_csv_runs::{run_export, run_import};
use ak_desk_runs::{init_collection, run_desk};
use ak_filters::FieldFilter;
use ak_io::{Chance, Clock, Failed, Sink, Source, write_all};
use ak_keep::Keeper;
use ak_lab::run_lab;
use ak_makes::make;
use ak_outcomes::KEEPER_FAILED;
use ak_sync_in_memory::Log;
use ak_sync_runs::run_sync;
use ak_transfer_runs::{run_download, run_upload};
use std::alloc::Global;

/// Does the command that the words name, and answers the status with which the program ends. All but `lab` and `make` work on the collection
/// of the keeper, and `sync`, `upload` and `download` on the server to which the wire leads; `lab` and `make` have collections of their
/// own, and `lab` hands out the log of what came to its server.
pub fn run<I: Source, O: Sink, K: Keeper, W: Wire, C: Clock, R: Chance>(
    alloc: Global,
    words: &[String],
    input: &mut I,
    out: &mut O,
    keeper: &mut K,
    wire: &mut W,
    clock: &mut C,
    chance: &mut R,
    log: &mut Log,
    filters: &mut Vec<Box<dyn FieldFilter>>,
) -> u8
    requires unmarked { is_marked (K.keeping keeper.old) ≡ false }
    requires empty { log.old.entries ≡ [] }

    // What the command does and prints, and the status that tells it: 5, 6 or 4 in its place if the output, the keeper or the input
    // counted a fault meanwhile, also one that the command did not tell. Of words that name no command `usage` is printed.
    ensures ends { (status : ℕ) × EndsBy K.spares_memory (command_of words.now) status
        (program_outside (I.left input.old) (O.written out.old) (K.keeping keeper.old) (W.health wire.old) (W.state wire.old)
        (C.to_come clock.old) (R.to_come chance.old) log.old.entries (map (λ b. meaning b) filters.old.items))
        (program_outside (I.left input.new) (O.written out.new) (K.keeping keeper.new) (W.health wire.new) (W.state wire.new)
        (C.to_come clock.new) (R.to_come chance.new) log.new.entries (map (λ b. meaning b) filters.new.items))
        × Tells status result }
    ensures faulted { (O.health out.old).faults < (O.health out.new).faults → result ≡ 5 }
    ensures failed_keeper { (K.health keeper.old).faults < (K.health keeper.new).faults → (result ≡ 6) ⊎ (result ≡ 5) }
    ensures failed_input { (I.health input.old).faults < (I.health input.new).faults → (result ≡ 4) ⊎ (result ≡ 5) ⊎ (result ≡ 6) }

    // What it leaves alone: also, an input or a keeper that is not used counts no fault.
    ensures leaves { LeavesBy (command_of words.now)
        (program_outside (I.left input.old) (O.written out.old) (K.keeping keeper.old) (W.health wire.old) (W.state wire.old)
        (C.to_come clock.old) (R.to_come chance.old) log.old.entries (map (λ b. meaning b) filters.old.items))
        (program_outside (I.left input.new) (O.written out.new) (K.keeping keeper.new) (W.health wire.new) (W.state wire.new)
        (C.to_come clock.new) (R.to_come chance.new) log.new.entries (map (λ b. meaning b) filters.new.items)) }
    ensures unread { reads_input (command_of words.now) ≡ false → I.health input.new ≡ I.health input.old }
    ensures unused { uses_keeper (command_of words.now) ≡ false → K.health keeper.new ≡ K.health keeper.old }
    ensures unmarked { is_marked (K.keeping keeper.new) ≡ false }

    // Words that name no command, and they alone, end with status 2, unless the output failed.
    ensures usage { result ≡ 2 → command_of words.now ≡ None }
    ensures only_usage { command_of words.now ≡ None → (result ≡ 2) ⊎ (result ≡ 5) }

    // Why it ends with the other statuses. The status 8 has no cause: memory ran out, or `make` came to something else.
    ensures ended { result ≡ 0 → reads_input (command_of words.now) ≡ true → IsAtEnd (I.left input.new) }
    ensures read { result ≡ 4 → Rose (I.health input.old) (I.health input.new) }
    ensures write { result ≡ 5 → Rose (O.health out.old) (O.health out.new) }
    ensures keep { result ≡ 6 → Rose (K.health keeper.old) (K.health keeper.new) }
    ensures keeps { GoesOn (K.health keeper.old) (K.health keeper.new) }
    ensures lose { result ≡ 7 → Rose (W.health wire.old) (W.health wire.new) }
{
    let read = input.faults();
    let kept = keeper.faults();
    let printed = out.faults();
    let status = run_words(
        alloc, words, input, out, keeper, wire, clock, chance, log, filters,
    );
    let after_input = told(read, input.faults(), status, READ_FAILED);
    let after_keeper = told(kept, keeper.faults(), after_input, KEEPER_FAILED);
    told(printed, out.faults(), after_keeper, WRITE_FAILED)
}

/// The status, or this code if an end counted a fault meanwhile.
fn told(before: u64, now: u64, status: u8, code: u8) -> u8
    ensures rose { before < now → result ≡ code }
    ensures kept { now ≤ before → result ≡ status }
    ensures either { (result ≡ status) ⊎ (result ≡ code) × (before < now) }
{
    if before < now {
        return code;
    }
    status
}

/// Does the command that the words name, or prints `usage` if they name none. A fault in a flush of a command is not told.
fn run_words<I: Source, O: Sink, K: Keeper, W: Wire, C: Clock, R: Chance>(
    alloc: Global,
    words: &[String],
    input: &mut I,
    out: &mut O,
    keeper: &mut K,
    wire: &mut W,
    clock: &mut C,
    chance: &mut R,
    log: &mut Log,
    filters: &mut Vec<Box<dyn FieldFilter>>,
) -> u8
    requires unmarked { is_marked (K.keeping keeper.old) ≡ false }
    ensures ends { EndsBy K.spares_memory (command_of words.now) result
        (program_outside (I.left input.old) (O.written out.old) (K.keeping keeper.old) (W.health wire.old) (W.state wire.old)
        (C.to_come clock.old) (R.to_come chance.old) log.old.entries (map (λ b. meaning b) filters.old.items))
        (program_outside (I.left input.new) (O.written out.new) (K.keeping keeper.new) (W.health wire.new) (W.state wire.new)
        (C.to_come clock.new) (R.to_come chance.new) log.new.entries (map (λ b. meaning b) filters.new.items)) }
    ensures leaves { LeavesBy (command_of words.now)
        (program_outside (I.left input.old) (O.written out.old) (K.keeping keeper.old) (W.health wire.old) (W.state wire.old)
        (C.to_come clock.old) (R.to_come chance.old) log.old.entries (map (λ b. meaning b) filters.old.items))
        (program_outside (I.left input.new) (O.written out.new) (K.keeping keeper.new) (W.health wire.new) (W.state wire.new)
        (C.to_come clock.new) (R.to_come chance.new) log.new.entries (map (λ b. meaning b) filters.new.items)) }
    ensures unread { reads_input (command_of words.now) ≡ false → I.health input.new ≡ I.health input.old }
    ensures unused { uses_keeper (command_of words.now) ≡ false → K.health keeper.new ≡ K.health keeper.old }
    ensures unmarked { is_marked (K.keeping keeper.new) ≡ false }
    ensures usage { result ≡ 2 → command_of words.now ≡ None }
    ensures only_usage { command_of words.now ≡ None → (result ≡ 2) ⊎ (result ≡ 5) }
    ensures ended { result ≡ 0 → reads_input (command_of words.now) ≡ true → IsAtEnd (I.left input.new) }
    ensures read { result ≡ 4 → Rose (I.health input.old) (I.health input.new) }
    ensures write { result ≡ 5 → Rose (O.health out.old) (O.health out.new) }
    ensures keep { result ≡ 6 → Rose (K.health keeper.old) (K.health keeper.new) }
    ensures keeps { GoesOn (K.health keeper.old) (K.health keeper.new) }
    ensures lose { result ≡ 7 → Rose (W.health wire.old) (W.health wire.new) }
    ensures goes { GoesOn (O.health out.old) (O.health out.new) }
{
    match command_of(words) {
        Some(command) => run_command(
            alloc, command, input, out, keeper, wire, clock, chance, log, filters,
        ),
        None => print_usage(out),
    }
}

/// Does the command. A fault in a flush is not told.
fn run_command<I: Source, O: Sink, K: Keeper, W: Wire, C: Clock, R: Chance>(
    alloc: Global,
    command: ProgramCommand,
    input: &mut I,
    out: &mut O,
    keeper: &mut K,
    wire: &mut W,
    clock: &mut C,
    chance: &mut R,
    log: &mut Log,
    filters: &mut Vec<Box<dyn FieldFilter>>,
) -> u8
    requires unmarked { is_marked (K.keeping keeper.old) ≡ false }
    ensures ends { EndsBy K.spares_memory (Some (named_by command)) result
        (program_outside (I.left input.old) (O.written out.old) (K.keeping keeper.old) (W.health wire.old) (W.state wire.old)
        (C.to_come clock.old) (R.to_come chance.old) log.old.entries (map (λ b. meaning b) filters.old.items))
        (program_outside (I.left input.new) (O.written out.new) (K.keeping keeper.new) (W.health wire.new) (W.state wire.new)
        (C.to_come clock.new) (R.to_come chance.new) log.new.entries (map (λ b. meaning b) filters.new.items)) }
    ensures leaves { LeavesBy (Some (named_by command))
        (program_outside (I.left input.old) (O.written out.old) (K.keeping keeper.old) (W.health wire.old) (W.state wire.old)
        (C.to_come clock.old) (R.to_come chance.old) log.old.entries (map (λ b. meaning b) filters.old.items))
        (program_outside (I.left input.new) (O.written out.new) (K.keeping keeper.new) (W.health wire.new) (W.state wire.new)
        (C.to_come clock.new) (R.to_come chance.new) log.new.entries (map (λ b. meaning b) filters.new.items)) }
    ensures unread { reads_input (Some (named_by command)) ≡ false → I.health input.new ≡ I.health input.old }
    ensures unused { uses_keeper (Some (named_by command)) ≡ false → K.health keeper.new ≡ K.health keeper.old }
    ensures unmarked { is_marked (K.keeping keeper.new) ≡ false }
    ensures usage { (result ≡ 2) → ⊥ }
    ensures ended { result ≡ 0 → reads_input (Some (named_by command)) ≡ true → IsAtEnd (I.left input.new) }
    ensures read { result ≡ 4 → Rose (I.health input.old) (I.health input.new) }
    ensures write { result ≡ 5 → Rose (O.health out.old) (O.health out.new) }
    ensures keep { result ≡ 6 → Rose (K.health keeper.old) (K.health keeper.new) }
    ensures keeps { GoesOn (K.health keeper.old) (K.health keeper.new) }
    ensures lose { result ≡ 7 → Rose (W.health wire.old) (W.health wire.new) }
    ensures goes { GoesOn (O.health out.old) (O.health out.new) }
{
    match command {
        ProgramCommand::Lab => command_status(run_lab(alloc, input, out, log)),
        ProgramCommand::Init => command_status(init_collection(alloc, keeper, clock, out)),
        ProgramCommand::Desk => {
            let end = run_desk(alloc, keeper, clock, chance, filters, input, out);
            command_status(end)
        }
        ProgramCommand::Sync(host) => run_sync(alloc, keeper, wire, clock, chance, host, out),
        ProgramCommand::Upload(host) => run_upload(alloc, keeper, wire, clock, chance, host, out),
        ProgramCommand::Download(host) => {
            run_download(alloc, keeper, wire, clock, chance, host, out)
        }
        ProgramCommand::Import(place) => run_import(alloc, keeper, clock, &place, input, out),
        ProgramCommand::Export(note_type) => run_export(alloc, keeper, clock, note_type, out),
        ProgramCommand::Make(plan) => make(alloc, plan, out),
    }
}

/// Prints `usage`, and answers 2, or 5 if the output counted a fault meanwhile, also one that only a flush met.
pub fn print_usage<O: Sink>(out: &mut O) -> u8
    ensures either { (result ≡ 2) × Appends (O.written out.old) (O.written out.new) usage_line ⊎ (result ≡ 5) × AppendsPart (O.written out.old) (O.written out.new) usage_line }
    ensures faulted { (O.health out.old).faults < (O.health out.new).faults → result ≡ 5 }
    ensures cause { result ≡ 5 → Rose (O.health out.old) (O.health out.new) }
    ensures goes { GoesOn (O.health out.old) (O.health out.new) }
{
    let before = out.faults();
    let printed = match write_all(out, b"usage\n") {
        Ok(()) => USAGE,
        Err(Failed) => WRITE_FAILED,
    };
    told(before, out.faults(), printed, WRITE_FAILED)
}
