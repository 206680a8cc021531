ghost use Rattle.std.specs.Prelude.{◌≡◌, ◌≤◌, ◌<◌, ◌+◌, ◌*◌, length, get_or};
ghost use Rattle.ak_sched.specs.Counts.{clamped_to_zero};
ghost use Rattle.ak_sched.specs.Steps.{delays, delay_at, hard_delay, IsStepsToday, IsLeft};
ghost use Rattle.ak_sched.specs.Ranges.{AreSteps};

use crate::counts::clamped_to_zero;

/// The column `left` if that many steps are left.
pub(crate) fn left_of(steps: &[i64], seconds_left: u64, left: u64) -> u64
    requires steps { AreSteps steps.now }
    requires seconds_left { seconds_left ≤ 86_400 }
    requires left { left < 1_000 }
    ensures left { IsLeft (delays steps.now) seconds_left left result }
    ensures high { result ≤ 50_999 }
{
    left + 1_000 * steps_today(steps, seconds_left, left)
}

/// How many of the steps that are left fit into the seconds: at least one.
fn steps_today(steps: &[i64], seconds_left: u64, left: u64) -> u64
    requires steps { AreSteps steps.now }
    requires seconds_left { seconds_left ≤ 86_400 }
    ensures today { IsStepsToday (delays steps.now) seconds_left left result }
    ensures high { result ≤ 50 }
{
    let count = count_of(steps);
    let most = left.min(count).max(1);
    let mut total = 0;
    for done in 0..most {
        total += delay_of(steps, count - most + done);
        if total > seconds_left {
            return done.max(1);
        }
    }
    most
}

/// How many steps there are. An empty list counts as one.
pub(crate) fn count_of(steps: &[i64]) -> u64
    requires { length steps.now ≤ 50 }
    ensures value { result ≡ length (delays steps.now) }
    ensures low { 1 ≤ result }
    ensures high { result ≤ 50 }
{
    if steps.is_empty() {
        1
    } else {
        steps.len() as u64
    }
}

/// The delay of the step at a place, from 0, in seconds. An empty list is one delay of 60 seconds.
fn delay_of(steps: &[i64], place: u64) -> u64
    requires steps { AreSteps steps.now }
    requires place { place < length (delays steps.now) }
    ensures value { result ≡ get_or (delays steps.now) place 0 }
    ensures high { result ≤ 60_000_000 }
{
    if steps.is_empty() {
        60
    } else {
        clamped_to_zero(steps[place as usize])
    }
}

/// The delay if that many steps are left. The options may have changed since, so that there are not as many: then it
/// is the first step's.
pub(crate) fn delay_at(steps: &[i64], left: u64) -> u64
    requires { AreSteps steps.now }
    ensures value { result ≡ delay_at (delays steps.now) left }
    ensures high { result ≤ 60_000_000 }
{
    let count = count_of(steps);
    if 1 <= left && left <= count {
        delay_of(steps, count - left)
    } else {
        delay_of(steps, 0)
    }
}

/// The delay of Hard: halfway to the next step's. This project's rule.
pub(crate) fn hard_delay(steps: &[i64], left: u64) -> u64
    requires { AreSteps steps.now }
    ensures value { result ≡ hard_delay (delays steps.now) left }
    ensures high { result ≤ 90_000_000 }
{
    let delay = delay_at(steps, left);
    let next = if count_of(steps) <= 1 {
        2 * delay
    } else {
        delay_at(steps, left.saturating_sub(1))
    };
    (delay + delay.max(next)) / 2
}
