ghost use Rattle.std.specs.Prelude.{◌≡◌};
ghost use Rattle.ak_line_runs.specs.LinePrints.{printed_by};

use crate::line_stops::LineStop;
use ak_base::{List, Text};
use ak_desk_texts::DeskAnswer;

/// What a line that is accepted prints.
#[derive(Debug, Drop)]
pub enum LinePrint {
    /// These lines.
    Lines(List<Text>),
    /// The answer of a line of the desk: it has no text yet, since memory may be out for that.
    Answer(DeskAnswer),
}

/// What a line came to that prints lines.
pub fn as_lines(came: Result<List<Text>, LineStop>) -> Result<LinePrint, LineStop>
    ensures { printed_by result ≡ came }
{
    let lines = came?;
    Ok(LinePrint::Lines(lines))
}
