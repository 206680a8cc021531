ghost use Rattle.std.specs.Prelude.{IfOk};
ghost use Rattle.ak_io.specs.Arrivals.{IsClockMoment};

use cases_lines::{Unread, number_at};
use serde_json::Value;

/// The moment of a clock at a place of the arguments, in milliseconds.
pub fn moment_at(arguments: &Value, place: usize) -> Result<i64, Unread>
    ensures { IfOk result IsClockMoment }
{
    let moment = number_at(arguments, place)?;
    if moment < 0 || moment > 4_294_967_294_999 {
        return Err(Unread::Bad);
    }
    Ok(moment)
}
