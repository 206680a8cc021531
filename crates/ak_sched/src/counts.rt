ghost use Rattle.std.specs.Prelude.{◌≡◌};
ghost use Rattle.ak_sched.specs.Counts.{clamped_to_zero, next_count};

use ak_base::LAST_COUNT;

/// A stored number that is counted from 0.
pub(crate) fn clamped_to_zero(value: i64) -> u64
    ensures { result ≡ clamped_to_zero value }
{
    if value < 0 {
        return 0;
    }
    value as u64
}

/// A count after one more.
pub(crate) fn next_count(count: u64) -> u64
    ensures { result ≡ next_count count }
{
    let last = LAST_COUNT as u64;
    if count < last { count + 1 } else { last }
}
