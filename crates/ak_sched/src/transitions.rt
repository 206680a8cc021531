ghost use Rattle.std.specs.Prelude.{◌≡◌, ◌≢◌, ◌⊎◌, ◌≤◌, ◌<◌, ℕ, IfSome, IsTrue, ◌↔◌, pos};
ghost use Rattle.ak_base.specs.Days.{IsDay};
ghost use Rattle.ak_sched.specs.Steps.{delays};
ghost use Rattle.ak_sched.specs.Transitions.{seconds_left_today, steps_of, steps_left, on_step, graduated, reviewed, forgotten, IsRestart, IsStep, IsLapse, IsTransition};
ghost use Rattle.ak_sched.specs.Ranges.{AreSteps, AreOptions, IsInRange, IsMade};
ghost use Rattle.ak_sched.specs.Intervals.{bounded_factor};

use crate::card_states::{Button, CardState, Kind, Outcome};
use crate::counts::{clamped_to_zero, next_count};
use crate::fuzzes::fuzzed;
use crate::intervals::{bounded_factor, easy, good, hard, lapse_ivl};
use crate::leeches::is_met;
use crate::steps::{count_of, delay_at, hard_delay, left_of};
use ak_base::{Day, Options};

/// What an answer makes of a card in this state.
pub(crate) fn transition(
    options: &Options,
    day: Day,
    word: u64,
    state: CardState,
    button: Button,
) -> Outcome
    requires options { AreOptions options.now }
    requires day { IsDay day }
    requires state { IsInRange state }
    ensures value { IsTransition state.kind button options.now day word state result }
    ensures made { IsMade state result }
{
    match button {
        Button::Again => on_again(options, day, state),
        Button::Hard => on_hard(options, day, word, state),
        Button::Good => on_good(options, day, word, state),
        Button::Easy => on_easy(options, day, word, state),
    }
}

/// Again.
fn on_again(options: &Options, day: Day, state: CardState) -> Outcome
    requires options { AreOptions options.now }
    requires day { IsDay day }
    requires state { IsInRange state }
    ensures value { (word : ℕ) → IsTransition state.kind Button.Again options.now day word state result }
    ensures made { IsMade state result }
{
    match state.kind {
        Kind::Review => lapse(options, day, state),
        Kind::Learning => restart(
            options.new_steps.as_slice(),
            seconds_left_today(day),
            state,
            state.ivl,
        ),
        Kind::Relearning => {
            let days = lapse_ivl(options, state.ivl);
            restart(
                options.lapse_steps.as_slice(),
                seconds_left_today(day),
                state,
                days,
            )
        }
    }
}

/// Again at a review.
fn lapse(options: &Options, day: Day, state: CardState) -> Outcome
    requires options { AreOptions options.now }
    requires day { IsDay day }
    requires state { IsInRange state }
    ensures value { IsLapse options.now day state result }
    ensures made { IsMade state result }
{
    let leech = is_met(
        next_count(state.lapses),
        clamped_to_zero(options.leech_fails),
    );
    if suspends(options, leech) {
        return forgotten(options, state, Kind::Review, 0, leech, true, None);
    }
    let steps = options.lapse_steps.as_slice();
    if steps.is_empty() {
        return forgotten(options, state, Kind::Review, 0, leech, false, None);
    }
    let count = count_of(steps);
    let left = left_of(steps, seconds_left_today(day), count);
    let delay = Some(delay_at(steps, count));
    forgotten(options, state, Kind::Relearning, left, leech, false, delay)
}

/// Whether a leech is suspended: the options' action 0.
fn suspends(options: &Options, leech: bool) -> bool
    ensures { IsTrue result ↔ (IsTrue leech × (options.now.leech_action ≡ pos 0)) }
{
    leech && options.leech_action == 0
}

/// The card was forgotten at its review.
fn forgotten(
    options: &Options,
    state: CardState,
    kind: Kind,
    left: u64,
    leech: bool,
    suspended: bool,
    delay: Option<u64>,
) -> Outcome
    requires options { AreOptions options.now }
    requires state { IsInRange state }
    requires left { left ≤ 999_999 }
    requires delay { IfSome delay (λ d. d ≤ 90_000_000) }
    ensures value { result ≡ forgotten options.now state kind left leech suspended delay }
    ensures made { IsMade state result }
{
    Outcome {
        kind,
        left,
        ivl: lapse_ivl(options, state.ivl),
        factor: bounded_factor(state.factor.saturating_sub(200)),
        lapses: next_count(state.lapses),
        leech,
        suspended,
        delay,
    }
}

/// Again on a step: all steps are left.
fn restart(steps: &[i64], seconds_left: u64, state: CardState, days: u64) -> Outcome
    requires steps { AreSteps steps.now }
    requires seconds_left { seconds_left ≤ 86_400 }
    requires state { IsInRange state }
    requires days { days ≤ 1_000_000 }
    requires kind { state.kind ≢ Kind.Review }
    ensures value { IsRestart (delays steps.now) seconds_left state days result }
    ensures made { IsMade state result }
{
    let count = count_of(steps);
    let left = left_of(steps, seconds_left, count);
    on_step(state, left, days, delay_at(steps, count))
}

/// Hard.
fn on_hard(options: &Options, day: Day, word: u64, state: CardState) -> Outcome
    requires options { AreOptions options.now }
    requires state { IsInRange state }
    ensures value { IsTransition state.kind Button.Hard options.now day word state result }
    ensures made { IsMade state result }
{
    match state.kind {
        Kind::Review => {
            let days = hard(options, word, state);
            reviewed(
                state,
                days,
                bounded_factor(state.factor.saturating_sub(150)),
            )
        }
        kind => {
            let delay = hard_delay(steps_of(options, kind), state.left % 1_000);
            on_step(state, state.left, state.ivl, delay)
        }
    }
}

/// Good.
fn on_good(options: &Options, day: Day, word: u64, state: CardState) -> Outcome
    requires options { AreOptions options.now }
    requires day { IsDay day }
    requires state { IsInRange state }
    ensures value { IsTransition state.kind Button.Good options.now day word state result }
    ensures made { IsMade state result }
{
    let last = state.left % 1_000 <= 1;
    match state.kind {
        Kind::Review => {
            let days = good(options, word, state);
            reviewed(state, days, bounded_factor(state.factor))
        }
        Kind::Learning if last => {
            let days = fuzzed(clamped_to_zero(options.grad_ivl), word);
            graduated(state, days, clamped_to_zero(options.initial_factor))
        }
        Kind::Relearning if last => graduated(state, state.ivl, state.factor),
        kind => step(steps_of(options, kind), seconds_left_today(day), state),
    }
}

/// Good on a step that is not the last: one step less is left.
fn step(steps: &[i64], seconds_left: u64, state: CardState) -> Outcome
    requires steps { AreSteps steps.now }
    requires seconds_left { seconds_left ≤ 86_400 }
    requires state { IsInRange state }
    requires more { 1 < steps_left state }
    requires kind { state.kind ≢ Kind.Review }
    ensures value { IsStep (delays steps.now) seconds_left state result }
    ensures made { IsMade state result }
{
    let next = state.left % 1_000 - 1;
    let left = left_of(steps, seconds_left, next);
    on_step(state, left, state.ivl, delay_at(steps, next))
}

/// Easy.
fn on_easy(options: &Options, day: Day, word: u64, state: CardState) -> Outcome
    requires options { AreOptions options.now }
    requires state { IsInRange state }
    ensures value { IsTransition state.kind Button.Easy options.now day word state result }
    ensures made { IsMade state result }
{
    match state.kind {
        Kind::Review => {
            let days = easy(options, word, state);
            reviewed(state, days, bounded_factor(state.factor + 150))
        }
        Kind::Learning => {
            let days = fuzzed(clamped_to_zero(options.easy_ivl), word);
            graduated(state, days, clamped_to_zero(options.initial_factor))
        }
        Kind::Relearning => {
            let days = (state.ivl + 1).min(1_000_000);
            graduated(state, days, state.factor)
        }
    }
}

/// The card waits for a step.
fn on_step(state: CardState, left: u64, days: u64, delay: u64) -> Outcome
    requires state { IsInRange state }
    requires left { left ≤ 999_999 }
    requires days { days ≤ 1_000_000 }
    requires delay { delay ≤ 90_000_000 }
    requires kind { state.kind ≢ Kind.Review }
    ensures value { result ≡ on_step state left days delay }
    ensures made { IsMade state result }
{
    Outcome {
        kind: state.kind,
        left,
        ivl: days,
        factor: state.factor,
        lapses: state.lapses,
        leech: false,
        suspended: false,
        delay: Some(delay),
    }
}

/// The card has no steps any more: it waits for its days.
fn graduated(state: CardState, days: u64, factor: u64) -> Outcome
    requires state { IsInRange state }
    requires days { days ≤ 1_000_000 }
    requires factor_high { factor ≤ 100_000 }
    requires factor_low { (1_300 ≤ factor) ⊎ (factor ≡ state.factor) }
    requires kind { state.kind ≢ Kind.Review }
    ensures value { result ≡ graduated state days factor }
    ensures made { IsMade state result }
{
    Outcome {
        kind: Kind::Review,
        left: 0,
        ivl: days,
        factor,
        lapses: state.lapses,
        leech: false,
        suspended: false,
        delay: None,
    }
}

/// The card was known at its review.
fn reviewed(state: CardState, days: u64, factor: u64) -> Outcome
    requires state { IsInRange state }
    requires days { days ≤ 1_000_000 }
    requires factor_low { 1_300 ≤ factor }
    requires factor_high { factor ≤ 100_000 }
    ensures value { result ≡ reviewed state days factor }
    ensures made { IsMade state result }
{
    Outcome {
        kind: Kind::Review,
        left: state.left,
        ivl: days,
        factor,
        lapses: state.lapses,
        leech: false,
        suspended: false,
        delay: None,
    }
}

/// The steps that a card of this kind takes.
pub(crate) fn steps_of(options: &Options, kind: Kind) -> &[i64]
    ensures { result.now ≡ steps_of options.now kind }
{
    match kind {
        Kind::Learning => options.new_steps.as_slice(),
        Kind::Relearning | Kind::Review => options.lapse_steps.as_slice(),
    }
}

/// The seconds that are left of the day.
pub(crate) fn seconds_left_today(day: Day) -> u64
    requires { IsDay day }
    ensures value { result ≡ seconds_left_today day }
    ensures high { result ≤ 86_400 }
{
    clamped_to_zero(day.cutoff - day.now)
}
