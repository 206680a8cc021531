ghost use Rattle.std.specs.Prelude.{◌≡◌, ◌≤◌, ◌+◌, ◌-◌, min, IfSome};
ghost use Rattle.ak_base.specs.Days.{IsDay};
ghost use Rattle.ak_sched.specs.Counts.{clamped_to_zero};
ghost use Rattle.ak_sched.specs.Answers.{end_of, put_off, step_queue, step_due, queue_after, due_after};

use crate::counts::clamped_to_zero;
use ak_base::{DAY_SECONDS, Day};

/// In which queue a card waits, and until when: a second in queue 1, else a day.
#[derive(Clone, Copy, Debug)]
pub(crate) struct Place {
    pub queue: i64,
    pub due: i64,
}

/// Where a card waits: for a step, or for its days.
pub(crate) fn place_of(day: Day, word: u64, days: u64, suspended: bool, delay: Option<u64>) -> Place
    requires day { IsDay day }
    requires days { days ≤ 1_000_000 }
    requires delay { IfSome delay (λ d. d ≤ 90_000_000) }
    ensures queue { result.queue ≡ queue_after day suspended delay }
    ensures due { result.due ≡ due_after day word days delay }
{
    match delay {
        Some(delay) => step_place(day, word, delay),
        None => Place {
            queue: if suspended { -1 } else { 2 },
            due: day.number + days as i64,
        },
    }
}

/// Where a card waits for a step.
fn step_place(day: Day, word: u64, delay: u64) -> Place
    requires day { IsDay day }
    requires delay { delay ≤ 90_000_000 }
    ensures queue { result.queue ≡ step_queue day delay }
    ensures due { result.due ≡ step_due day word delay }
{
    let end = clamped_to_zero(day.now) + delay;
    let cutoff = clamped_to_zero(day.cutoff);
    if end < cutoff {
        return Place {
            queue: 1,
            due: put_off(day, word, delay) as i64,
        };
    }
    Place {
        queue: 3,
        due: day.number + ((end - cutoff) / DAY_SECONDS as u64 + 1) as i64,
    }
}

/// The second at which a step's delay ends, put off by a word of chance, but not past the day.
fn put_off(day: Day, word: u64, delay: u64) -> u64
    requires day { IsDay day }
    requires delay { delay ≤ 90_000_000 }
    ensures value { result ≡ min (clamped_to_zero day.cutoff - 1) (end_of day delay + put_off delay word) }
    ensures high { result ≤ 4_295_053_694 }
{
    let end = clamped_to_zero(day.now) + delay;
    let extra = word % (delay / 4).min(300).max(1);
    (end + extra).min(clamped_to_zero(day.cutoff) - 1)
}
