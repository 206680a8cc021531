ghost use Rattle.std.specs.Prelude.{IsTrue, ◌↔◌};
ghost use Rattle.ak_sched.specs.Counts.{clamped_to_zero};
ghost use Rattle.ak_sched.specs.Leeches.{IsLeech};

use crate::counts::clamped_to_zero;

/// Whether a card is a leech at its last lapse: at `fails` lapses, and then after half as many each time. With `fails`
/// at 0 or below no card is.
pub fn is_leech(lapses: i64, fails: i64) -> bool
    ensures { IsTrue result ↔ IsLeech (clamped_to_zero lapses) (clamped_to_zero fails) }
{
    is_met(clamped_to_zero(lapses), clamped_to_zero(fails))
}

/// The same for counts.
pub(crate) fn is_met(lapses: u64, fails: u64) -> bool
    ensures { IsTrue result ↔ IsLeech lapses fails }
{
    fails > 0 && lapses >= fails && (lapses - fails) % (fails / 2).max(1) == 0
}
