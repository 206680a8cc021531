// The days to the next review after an early answer.
ghost use Rattle.std.specs.Prelude.{◌≡◌, ◌≤◌, ◌≤ℤ◌, ◌<◌, ◌^◌, ◌*◌, ◌+ℤ◌, ◌-ℤ◌, negsuc, pos};
ghost use Rattle.ak_base.specs.Days.{IsDay};
ghost use Rattle.ak_away_answers.specs.EarlyAnswers.{days_passed, early_days, early_factor, early_ivl, factor_change, good_thousandths, half_bonus, hard_thousandths};
ghost use Rattle.ak_away_answers.specs.EarlyEdits.{AreEarlyColumns};
ghost use Rattle.ak_sched.specs.Counts.{clamped_to_zero, next_count};
ghost use Rattle.ak_sched.specs.Ranges.{AreOptions};

use ak_base::{Card, Day, LAST_COUNT, Options};

/// The new interval of a card that is answered early, in days: at least 1, and at most what the options allow.
pub(crate) fn early_ivl(options: &Options, day: Day, button: u8, card: &Card) -> u64
    requires options { AreOptions options.now }
    requires day { IsDay day }
    requires card { AreEarlyColumns card.now }
    ensures value { result ≡ early_ivl options.now day button card.now }
    ensures high { result ≤ 100_000 }
{
    let most = clamped_to_zero(options.max_ivl);
    let days = early_days(options, day, button, card).max(1);
    days.min(most as u128) as u64
}

/// The days before limits. The products need more than 64 bits.
fn early_days(options: &Options, day: Day, button: u8, card: &Card) -> u128
    requires options { AreOptions options.now }
    requires day { IsDay day }
    requires card { AreEarlyColumns card.now }
    ensures { result ≡ early_days options.now day button card.now }
{
    let growth = clamped_to_zero(options.ivl_fct);
    match button {
        2 => grown(hard_thousandths(options, day, card), growth) / 1_000_000,
        3 => grown(good_thousandths(day, card), growth) / 1_000_000,
        _ => grown(with_bonus(options, day, card), growth) / 1_000_000_000,
    }
}

/// What Good makes of the interval with the bonus of Easy, in millionths of a day.
fn with_bonus(options: &Options, day: Day, card: &Card) -> u128
    requires options { AreOptions options.now }
    requires day { IsDay day }
    requires card { AreEarlyColumns card.now }
    ensures value { result ≡ good_thousandths day card.now * half_bonus options.now }
    ensures high { result < 2 ^ 96 }
{
    good_thousandths(day, card) * half_bonus(options)
}

/// A product times a permille.
fn grown(product: u128, permille: u64) -> u128
    requires product { product < 2 ^ 96 }
    requires permille { permille < 2 ^ 32 }
    ensures { result ≡ product * permille }
{
    product * permille as u128
}

/// What Hard makes of the interval, in thousandths of a day.
fn hard_thousandths(options: &Options, day: Day, card: &Card) -> u128
    requires options { AreOptions options.now }
    requires day { IsDay day }
    requires card { AreEarlyColumns card.now }
    ensures value { result ≡ hard_thousandths options.now day card.now }
    ensures high { result < 2 ^ 64 }
{
    let factor = clamped_to_zero(options.hard_factor);
    let passed = scaled(days_passed(day, card), factor);
    let half = scaled(clamped_to_zero(card.ivl), factor) / 2;
    passed.max(half.max(1_000))
}

/// What Good makes of the interval, in thousandths of a day.
fn good_thousandths(day: Day, card: &Card) -> u128
    requires day { IsDay day }
    requires card { AreEarlyColumns card.now }
    ensures value { result ≡ good_thousandths day card.now }
    ensures high { result < 2 ^ 64 }
{
    let passed = scaled(days_passed(day, card), clamped_to_zero(card.factor));
    let whole = scaled(clamped_to_zero(card.ivl), 1_000);
    passed.max(whole.max(1_000))
}

/// Half of the bonus of Easy, in permille.
fn half_bonus(options: &Options) -> u128
    requires { AreOptions options.now }
    ensures value { result ≡ half_bonus options.now }
    ensures high { result < 2 ^ 32 }
{
    (clamped_to_zero(options.ease4) as u128 + 1_000) / 2
}

/// Days times permilles.
fn scaled(days: u64, permille: u64) -> u128
    requires days { days < 2 ^ 32 }
    requires permille { permille < 2 ^ 32 }
    ensures value { result ≡ days * permille }
    ensures high { result < 2 ^ 64 }
{
    days as u128 * permille as u128
}

/// How many days of the interval have passed; 0 if it has not begun.
fn days_passed(day: Day, card: &Card) -> u64
    requires day { IsDay day }
    requires card { AreEarlyColumns card.now }
    ensures value { result ≡ days_passed day card.now }
    ensures high { result < 2 ^ 32 }
{
    clamped_to_zero(days_since(day, card))
}

/// How many days ago the interval began, below 0 if it has not begun.
fn days_since(day: Day, card: &Card) -> i64
    requires day { IsDay day }
    requires card { AreEarlyColumns card.now }
    ensures value { result ≡ card.now.ivl -ℤ (card.now.odue -ℤ day.number) }
    ensures high { result ≤ℤ pos 2_149_000_000 }
{
    card.ivl - (card.odue - day.number)
}

/// The number, and 0 if it is below.
pub(crate) fn clamped_to_zero(number: i64) -> u64
    ensures { result ≡ clamped_to_zero number }
{
    if number < 0 {
        return 0;
    }
    number as u64
}

/// One answer more, up to the last count.
pub(crate) fn one_more(count: i64) -> i64
    ensures { result ≡ pos (next_count (clamped_to_zero count)) }
{
    clamped_to_zero(count)
        .saturating_add(1)
        .min(LAST_COUNT as u64) as i64
}

/// The factor after an early answer: Hard takes 150 from it, Easy adds 150, and it stays from 1,300 to 100,000.
pub(crate) fn early_factor(button: u8, card: &Card) -> i64
    requires { AreEarlyColumns card.now }
    ensures { result ≡ early_factor button card.now }
{
    changed_factor(button, card).max(1_300).min(100_000)
}

/// The factor before it is bounded.
fn changed_factor(button: u8, card: &Card) -> i64
    requires { AreEarlyColumns card.now }
    ensures { result ≡ card.now.factor +ℤ factor_change button }
{
    card.factor + factor_change(button)
}

/// By how much the factor changes.
fn factor_change(button: u8) -> i64
    ensures value { result ≡ factor_change button }
    ensures low { negsuc 149 ≤ℤ result }
    ensures high { result ≤ℤ pos 150 }
{
    match button {
        2 => -150,
        3 => 0,
        _ => 150,
    }
}
