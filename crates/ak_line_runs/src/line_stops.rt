ghost use Rattle.std.specs.Prelude.{◌≡◌};
ghost use Rattle.ak_line_runs.specs.LineStops.{IsLineStop, IsRefusalStop, IsStopBy};

use ak_base::{Memory, Text};
use ak_desk_language::LineFault;
use ak_desk_texts::{LineRefusal, write_line_fault, write_refusal};
use ak_edit::DeskFault;
use std::alloc::{AllocFailed, Global};

/// Why a line does not go.
#[derive(Debug, Drop)]
pub enum LineStop {
    /// It is refused by this text.
    Refused(Text),
    /// The keeper failed.
    Failed,
    /// Out of memory.
    Memory,
}

impl From<Memory> for LineStop {
    ghost use Rattle.std.specs.Prelude.{◌≡◌};
    ghost use Rattle.ak_line_runs.specs.declared.line_stops.LineStop.TheVariants as stops;

    ghost from_gives = { λ _ stop. stop ≡ stops.Memory };

    fn from(_memory: Memory) -> LineStop {
        LineStop::Memory
    }
}

impl<T: Drop> From<AllocFailed<T>> for LineStop {
    ghost use Rattle.std.specs.Prelude.{◌≡◌};
    ghost use Rattle.ak_line_runs.specs.declared.line_stops.LineStop.TheVariants as stops;

    ghost from_gives = { λ _ stop. stop ≡ stops.Memory };

    fn from(_error: AllocFailed<T>) -> LineStop {
        LineStop::Memory
    }
}

/// The stop for the text.
pub fn stop_by(alloc: Global, text: &str) -> LineStop
    ensures { IsStopBy text.now result }
{
    match Text::of(alloc, text) {
        Ok(text) => LineStop::Refused(text),
        Err(Memory) => LineStop::Memory,
    }
}

/// The stop for a text that says no line of the desk.
pub fn line_stop(alloc: Global, fault: &LineFault) -> LineStop
    ensures { IsLineStop fault.now result }
{
    match write_line_fault(alloc, fault) {
        Ok(Some(text)) => LineStop::Refused(text),
        Ok(None) => LineStop::Memory,
        Err(Memory) => LineStop::Memory,
    }
}

/// The stop for a line that the desk refuses. A refusal without a text, but that of the keeper, is that memory was out.
pub fn refusal_stop(alloc: Global, refusal: &LineRefusal) -> LineStop
    ensures { IsRefusalStop refusal.now result }
{
    if let LineRefusal::Desk(DeskFault::Failed) = refusal {
        return LineStop::Failed;
    }
    match write_refusal(alloc, refusal) {
        Ok(Some(text)) => LineStop::Refused(text),
        Ok(None) => LineStop::Memory,
        Err(Memory) => LineStop::Memory,
    }
}
