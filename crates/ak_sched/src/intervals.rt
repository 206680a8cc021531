ghost use Rattle.std.specs.Prelude.{◌≡◌, ◌≤◌, ◌<◌, ◌+◌, ◌*◌, ◌/◌, ◌^◌};
ghost use Rattle.ak_sched.specs.Counts.{clamped_to_zero};
ghost use Rattle.ak_sched.specs.Intervals.{IsWhole, IsHard, IsGood, IsEasy, limited, bounded_factor, lapse_ivl};
ghost use Rattle.ak_sched.specs.Ranges.{AreOptions, IsInRange};

use crate::card_states::CardState;
use crate::counts::clamped_to_zero;
use crate::fuzzes::fuzzed;
use ak_base::Options;

/// The most days that an interval is fuzzed from.
const MOST_DAYS: u128 = 1_000_000_000;

/// The days of Hard at a review.
pub(crate) fn hard(options: &Options, word: u64, state: CardState) -> u64
    requires options { AreOptions options.now }
    requires state { IsInRange state }
    ensures days { IsHard options.now word state result }
    ensures high { result ≤ 100_000 }
{
    let factor = clamped_to_zero(options.hard_factor);
    let raw = from_millionths(scaled_by_two(state.ivl, factor, clamped_to_zero(options.ivl_fct)));
    let below = if factor > 1_000 { state.ivl } else { 0 };
    limited(options, word, below, raw)
}

/// The days of Good at a review: half of the days late count.
pub(crate) fn good(options: &Options, word: u64, state: CardState) -> u64
    requires options { AreOptions options.now }
    requires state { IsInRange state }
    ensures days { IsGood options.now word state result }
    ensures high { result ≤ 100_000 }
{
    let days = state.ivl + state.late / 2;
    let raw = from_millionths(scaled_by_two(days, state.factor, clamped_to_zero(options.ivl_fct)));
    limited(options, word, hard(options, word, state), raw)
}

/// The days of Easy at a review: all days late count.
pub(crate) fn easy(options: &Options, word: u64, state: CardState) -> u64
    requires options { AreOptions options.now }
    requires state { IsInRange state }
    ensures days { IsEasy options.now word state result }
    ensures high { result ≤ 100_000 }
{
    let days = state.ivl + state.late;
    let product = scaled_by_three(
        days,
        state.factor,
        clamped_to_zero(options.ease4),
        clamped_to_zero(options.ivl_fct),
    );
    let raw = from_billionths(product);
    limited(options, word, good(options, word, state), raw)
}

/// The days times two permilles: millionths of a day.
fn scaled_by_two(days: u64, first: u64, second: u64) -> u128
    requires days { days < 2 ^ 32 }
    requires first { first < 2 ^ 32 }
    requires second { second < 2 ^ 32 }
    ensures value { result ≡ days * first * second }
    ensures high { result < 2 ^ 96 }
{
    days as u128 * first as u128 * second as u128
}

/// The days times three permilles: thousand millionths of a day.
fn scaled_by_three(days: u64, first: u64, second: u64, third: u64) -> u128
    requires days { days < 2 ^ 32 }
    requires first { first < 2 ^ 32 }
    requires second { second < 2 ^ 32 }
    requires third { third < 2 ^ 32 }
    ensures { result ≡ days * first * second * third }
{
    scaled_by_two(days, first, second) * third as u128
}

/// Millionths of a day as whole days, at most 1,000,000,000.
fn from_millionths(product: u128) -> u64
    ensures days { IsWhole product 1_000_000 result }
    ensures high { result ≤ 1_000_000_000 }
{
    (product / 1_000_000).min(MOST_DAYS) as u64
}

/// Thousand millionths of a day as whole days, at most 1,000,000,000.
fn from_billionths(product: u128) -> u64
    ensures days { IsWhole product 1_000_000_000 result }
    ensures high { result ≤ 1_000_000_000 }
{
    (product / 1_000_000_000).min(MOST_DAYS) as u64
}

/// The days that an answer sets: fuzzed, over those of the button below, and at most the options' limit.
fn limited(options: &Options, word: u64, below: u64, raw: u64) -> u64
    requires raw { raw ≤ 1_000_000_000 }
    requires below { below ≤ 1_000_000 }
    ensures value { result ≡ limited options.now word below raw }
    ensures high { result ≤ clamped_to_zero options.now.max_ivl }
{
    fuzzed(raw, word)
        .max(below + 1)
        .min(clamped_to_zero(options.max_ivl))
}

/// A factor within its bounds, in permille.
pub(crate) fn bounded_factor(factor: u64) -> u64
    ensures value { result ≡ bounded_factor factor }
    ensures low { 1_300 ≤ result }
    ensures high { result ≤ 100_000 }
{
    factor.max(1_300).min(100_000)
}

/// The days of a card that was forgotten: the options' share of them, and at least one.
pub(crate) fn lapse_ivl(options: &Options, days: u64) -> u64
    requires options { AreOptions options.now }
    requires days { days ≤ 1_000_000 }
    ensures value { result ≡ lapse_ivl options.now days }
    ensures high { result ≤ 1_000_000 }
{
    let kept = days * clamped_to_zero(options.mult) / 1_000;
    clamped_to_zero(options.min_int).max(kept).max(1)
}
