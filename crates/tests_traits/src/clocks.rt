// The clock of the system: cut to the promised range, and what it answered last where it can't be read.
use ak_io::{Clock, StdClock};
use std::cell::Cell;
use std::io::{Error, ErrorKind, Result as IoResult};
use std::time::{self, Duration};

/// A clock of the system that shows so many milliseconds since 1970, or can't be read.
#[derive(Drop)]
struct Shown {
    reading: Cell<u32>,
}

// What the clock shows at its readings, and what is answered then.
const READINGS: [(Option<u64>, i64); 8] = [
    (None, 0),
    (Some(1_700_000_000_123), 1_700_000_000_123),
    (None, 1_700_000_000_123),
    (Some(4_294_967_294_999), 4_294_967_294_999),
    (Some(4_294_967_295_000), 4_294_967_294_999),
    (Some(0), 0),
    (Some(18_446_744_073_709_551_615), 4_294_967_294_999),
    (None, 4_294_967_294_999),
];

impl time::Clock for Shown {
    fn monotonic(&self) -> IoResult<Duration> {
        Err(Error::from(ErrorKind::Other))
    }

    fn since_1970(&self) -> IoResult<Duration> {
        let place = self.reading.get();
        self.reading.set(place.saturating_add(1));
        match READINGS.get(place as usize) {
            Some((Some(millis), _)) => Ok(Duration::from_millis(*millis)),
            _ => Err(Error::from(ErrorKind::Other)),
        }
    }
}

#[test]
fn the_clock_of_the_system_stays_in_its_range(rt: HostRuntime) {
    let mut clock = StdClock::new(Shown {
        reading: Cell::new(0),
    });
    for (_, wanted) in READINGS {
        assert!(rt; clock.now() == wanted);
    }
}
