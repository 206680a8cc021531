ghost use Rattle.std.specs.Prelude.{◌≡◌, pos, negsuc, ◌≤ℤ◌, ◌<ℤ◌, ◌+ℤ◌, ◌*ℤ◌};
ghost use Rattle.ak_base.specs.Days.{IsDay, IsDayOf};

/// How long a day of the scheduler is, in seconds.
pub const DAY_SECONDS: i64 = 86_400;

/// How many days before the collection a moment may lie.
const DAYS_BEFORE: i64 = 49_711;

/// A moment as the scheduler sees it. Its days are counted from when the collection was made, in
/// blocks of 86,400 seconds: this project's profile knows no time zones.
#[derive(Clone, Copy, Debug, PartialEq, Eq)]
pub struct Day {
    /// The moment, in seconds.
    pub now: i64,
    /// The day that it lies in, 0 being the day that begins with the collection.
    pub number: i64,
    /// The second at which the next day begins.
    pub cutoff: i64,
}

impl Day {
    /// The day of a moment in milliseconds, for a collection that was made at second `crt`. The moment
    /// may lie before that.
    pub fn of(crt: i64, now: i64) -> Day
        requires crt_low { pos 0 ≤ℤ crt }
        requires crt_high { crt ≤ℤ pos 4_294_967_295 }
        requires now_low { pos 0 ≤ℤ now }
        requires now_high { now ≤ℤ pos 4_294_967_294_999 }
        ensures day { IsDayOf crt now result }
        ensures lawful { IsDay result }
    {
        let seconds = (now as u64 / 1000) as i64;
        let number = number_at(crt, seconds);
        Day {
            now: seconds,
            number,
            cutoff: cutoff_of(crt, number),
        }
    }
}

/// The day that a second lies in.
fn number_at(crt: i64, seconds: i64) -> i64
    requires crt_low { pos 0 ≤ℤ crt }
    requires crt_high { crt ≤ℤ pos 4_294_967_295 }
    requires now_low { pos 0 ≤ℤ seconds }
    requires now_high { seconds ≤ℤ pos 4_294_967_294 }
    ensures begun { (crt +ℤ (result *ℤ pos 86_400)) ≤ℤ seconds }
    ensures lasts { seconds <ℤ ((crt +ℤ (result *ℤ pos 86_400)) +ℤ pos 86_400) }
{
    // Counted from a whole number of days before the collection, so that no number is negative.
    let since = (seconds + DAYS_BEFORE * DAY_SECONDS - crt) as u64;
    (since / DAY_SECONDS as u64) as i64 - DAYS_BEFORE
}

/// The second at which the next day begins.
fn cutoff_of(crt: i64, number: i64) -> i64
    requires crt_low { pos 0 ≤ℤ crt }
    requires crt_high { crt ≤ℤ pos 4_294_967_295 }
    requires number_low { negsuc 49_710 ≤ℤ number }
    requires number_high { number ≤ℤ pos 49_710 }
    ensures { result ≡ (crt +ℤ (number *ℤ pos 86_400)) +ℤ pos 86_400 }
{
    crt + number * DAY_SECONDS + DAY_SECONDS
}
