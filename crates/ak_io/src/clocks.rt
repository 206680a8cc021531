ghost use Rattle.std.specs.Prelude.{◌≡◌, ℤ, pos, ◌<◌, Option, List, length, Some, None};
ghost use Rattle.std.specs.List.{All};
ghost use Rattle.ak_io.specs.Arrivals.{GivesNext, IsClockMoment};

use ak_base::{LAST_CLOCK_MOMENT, List};
use std::marker::Model;
use std::time::{self, SystemTime};

/// What time it is. It can't fail.
pub trait Clock {
    /// The moments to come, if the clock tells them.
    ghost to_come: { Self → Option (List ℤ) };

    /// The moment, in milliseconds from 1970 on: 0 to 4,294,967,294,999.
    fn now(&mut self) -> i64
        ensures range { IsClockMoment result }
        ensures given { GivesNext (to_come self.old) (to_come self.new) result };
}

/// A clock that goes by a list of moments, and stays at the last.
#[derive(Debug, Drop)]
pub struct ListClock {
    moments: Vec<i64>,
    place: usize,
}

impl Model for ListClock {
    ghost use Rattle.std.specs.Prelude.{ℤ, ◌<◌, List, length, drop};
    ghost use Rattle.std.specs.List.{All};
    ghost use Rattle.ak_io.specs.Arrivals.{IsClockMoment};

    ghost Value = { List ℤ };

    ghost view = { λ clock. drop clock.place clock.moments.items };

    ghost invariant = { λ clock. (clock.place < length clock.moments.items) × All IsClockMoment clock.moments.items };
}

impl ListClock {
    /// A clock of these moments, of which there is at least one.
    pub fn new(moments: List<i64>) -> ListClock
        requires some { 0 < length moments }
        requires range { All IsClockMoment moments }
        ensures { result ≡ moments }
    {
        ListClock {
            moments: moments.into_vec(),
            place: 0,
        }
    }
}

impl Clock for ListClock {
    ghost to_come = { λ clock. Some clock };

    fn now(&mut self) -> i64 {
        let moment = self.moments[self.place];
        if self.place + 1 < self.moments.as_slice().len() {
            self.place += 1;
        }
        moment
    }
}

/// The clock of the system, cut to the promised range. If it can't be read it answers what it did last, at first 0.
#[derive(Drop)]
pub struct StdClock<C> {
    system: C,
    last: i64,
}

impl<C> Model for StdClock<C> {
    ghost use Rattle.std.specs.Prelude.{ℤ};
    ghost use Rattle.ak_io.specs.Arrivals.{IsClockMoment};

    ghost Value = { C × ℤ };

    ghost view = { λ clock. (clock.system, clock.last) };

    ghost invariant = { λ clock. IsClockMoment clock.last };
}

impl<C> StdClock<C> {
    /// A clock over that of the system, as the runtime gives it.
    pub fn new(system: C) -> StdClock<C>
        ensures { result ≡ (system, pos 0) }
    {
        StdClock { system, last: 0 }
    }
}

impl<C: time::Clock> Clock for StdClock<C> {
    ghost to_come = { λ clock. None };

    fn now(&mut self) -> i64
        ensures range { IsClockMoment result }
        ensures given { GivesNext {T = ℤ} None None result }

        // It is what is answered again if the system's clock can't be read.
        ensures last { self.new.1 ≡ result }
    {
        if let Ok(time) = SystemTime::now(&self.system) {
            self.last = moment_of(time);
        }
        self.last
    }
}

/// The milliseconds since 1970, cut to the promised range.
fn moment_of(time: SystemTime) -> i64
    ensures range { IsClockMoment result }
{
    match time.duration_since(SystemTime::UNIX_EPOCH) {
        Ok(since) => since.as_millis().min(LAST_CLOCK_MOMENT as u128) as i64,
        Err(_) => 0,
    }
}
