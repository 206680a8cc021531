ghost use Rattle.std.specs.Prelude.{◌<◌, length, IfOk};
ghost use Rattle.ak_io.specs.Arrivals.{IsClockMoment};

use ak_base::{List, cut};
use ak_io::ListClock;
use cases_lines::Unread;
use std::alloc::Global;

/// The moment that a line begins with, in milliseconds, and the rest of the line.
pub fn moment_in(rest: &str) -> Result<(i64, &str), Unread>
    ensures { IfOk result (λ read. IsClockMoment read.0) }
{
    let (word, rest) = cut(rest, " ").ok_or(Unread::Bad)?;
    Ok((moment_of(word)?, rest))
}

/// The moment of a word.
pub fn moment_of(word: &str) -> Result<i64, Unread>
    ensures { IfOk result IsClockMoment }
{
    match word.parse::<i64>() {
        Ok(moment) if moment >= 0 && moment <= 4_294_967_294_999 => Ok(moment),
        _ => Err(Unread::Bad),
    }
}

/// The number that a line begins with, and the rest of the line.
pub fn number_in(rest: &str) -> Result<(u64, &str), Unread> {
    let (word, rest) = cut(rest, " ").ok_or(Unread::Bad)?;
    match word.parse::<u64>() {
        Ok(number) => Ok((number, rest)),
        Err(_) => Err(Unread::Bad),
    }
}

/// A clock that stays at a moment.
pub fn clock_at(alloc: Global, moment: i64) -> Result<ListClock, Unread>
    requires { IsClockMoment moment }
{
    let mut moments = List::new(alloc);
    moments.push(moment)?;
    Ok(ListClock::new(moments))
}
