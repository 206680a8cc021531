ghost use Rattle.std.specs.Prelude.{◌≡◌, ◌≤◌, ◌+◌, ◌*◌, pos, ◌≤ℤ◌};
ghost use Rattle.ak_sched.specs.Counts.{clamped_to_zero};
ghost use Rattle.ak_sched.specs.Fuzzes.{around, fuzz_range, fuzzed};

use crate::counts::clamped_to_zero;

/// The first and the last number of days that an interval is fuzzed to. An interval under two days,
/// also a negative one, stays one day.
pub fn fuzz_range(ivl: i64) -> (i64, i64)
    requires { ivl ≤ℤ pos 1_000_000_000 }
    ensures { result ≡ (pos (fuzz_range (clamped_to_zero ivl)).0, pos (fuzz_range (clamped_to_zero ivl)).1) }
{
    let (low, high) = range_of(clamped_to_zero(ivl));
    (low as i64, high as i64)
}

/// The day of the range that a word of chance picks.
pub(crate) fn fuzzed(days: u64, word: u64) -> u64
    requires { days ≤ 1_000_000_000 }
    ensures value { result ≡ fuzzed days word }
    ensures low { 1 ≤ result }
    ensures high { result ≤ 2 * days + 1 }
{
    let (low, high) = range_of(days);
    low + word % (high - low + 1)
}

/// The range that an interval is fuzzed in: this project's table.
fn range_of(days: u64) -> (u64, u64)
    requires { days ≤ 1_000_000_000 }
    ensures range { result ≡ fuzz_range days }
    ensures low { 1 ≤ result.0 }
    ensures order { result.0 ≤ result.1 }
    ensures high { result.1 ≤ 2 * days + 1 }
{
    match days {
        0 | 1 => (1, 1),
        2 => (2, 3),
        3..=6 => around(days, (days / 4).max(1)),
        7..=29 => around(days, (days * 15 / 100).max(2)),
        _ => around(days, (days * 5 / 100).max(4)),
    }
}

/// The days to either side of a number of days.
fn around(days: u64, spread: u64) -> (u64, u64)
    requires least { spread ≤ days }
    requires most { days ≤ 1_000_000_000 }
    ensures { result ≡ around days spread }
{
    (days - spread, days + spread)
}
