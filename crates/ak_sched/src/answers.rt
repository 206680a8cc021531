ghost use Rattle.std.specs.Prelude.{◌≡◌, ◌≢◌, ◌≤◌, ◌*◌, ◌⊎◌, ◌≤ℤ◌, ◌-ℤ◌, pos, negsuc, min, IsTrue};
ghost use Rattle.ak_base.specs.Columns.{id_fault};
ghost use Rattle.ak_base.specs.Cards.{IsCheckedCard};
ghost use Rattle.ak_base.specs.Reviews.{IsCheckedReview};
ghost use Rattle.ak_base.specs.OptionGroups.{IsCheckedOptions};
ghost use Rattle.ak_base.specs.Days.{IsDay};
ghost use Rattle.ak_sched.specs.Counts.{clamped_to_zero};
ghost use Rattle.ak_sched.specs.Steps.{HasAllLeft};
ghost use Rattle.ak_sched.specs.Transitions.{seconds_left_today};
ghost use Rattle.ak_sched.specs.Ranges.{AreColumns, AreOptions, IsInRange, IsMade, IsLogged};
ghost use Rattle.ak_sched.specs.Answers.{can_answer, button_of, kind_of, kind_code, log_kind, logged, logged_before, card_after, review_after, IsCardState, IsAnswer, IsOnlyAnswer, IsSameButSchedule, IsRowOf};

use crate::card_states::{Button, CardState, Kind, Outcome};
use crate::counts::{clamped_to_zero, next_count};
use crate::places::place_of;
use crate::steps::{count_of, delay_at, left_of};
use crate::transitions::{seconds_left_today, steps_of, transition};
use ak_base::{Card, Day, Options, Review};

/// What an answer leaves besides the card.
#[derive(Clone, Copy, Debug, PartialEq, Eq)]
pub struct Answered {
    /// The row of the review log, not sent yet.
    pub review: Review,
    /// Whether the card was forgotten once too often.
    pub leech: bool,
}

/// Whether a card can be answered: it is in its own deck, and in a queue that the scheduler gives its kind.
pub fn can_answer(card: &Card) -> bool
    ensures { result ≡ can_answer card.now }
{
    if card.odid != 0 {
        return false;
    }
    matches!(
        (card.queue, card.kind),
        (0, 0) | (1, 1) | (1, 3) | (3, 1) | (3, 3) | (2, 2)
    )
}

/// Answers a card by the rules of Anki's version 2 scheduler, with the exact intervals of this
/// project's profile. The word of chance puts a step off and picks the day of a fuzzed interval; the
/// time taken is in milliseconds.
pub fn answer(
    card: &mut Card,
    options: &Options,
    button: u8,
    day: Day,
    word: u64,
    taken: u32,
    review_id: i64,
) -> Answered
    requires can { IsTrue (can_answer card.old) }
    requires card { IsCheckedCard card.old }
    requires options { IsCheckedOptions options.now }
    requires button_low { 1 ≤ button }
    requires button_high { button ≤ 4 }
    requires day { IsDay day }
    // The card, the row and the leech are those of the rules, and no others are.
    ensures answer { IsAnswer card.old options.now button day word taken review_id card.new result }
    ensures only { IsOnlyAnswer card.old options.now button day word taken review_id card.new result }

    // The card passes its check again, and so does the row if its id is one.
    ensures card { IsCheckedCard card.new }
    ensures review { id_fault review_id ≡ None → IsCheckedReview result.review }

    // A factor is at least 1300, or what it was; that of a review card is at least 1300.
    ensures factor { (pos 1_300 ≤ℤ card.new.factor) ⊎ (card.new.factor ≡ card.old.factor) }
    ensures review_factor { card.old.kind ≡ pos 2 → pos 1_300 ≤ℤ card.new.factor }

    // Of the card's columns the eight of the schedule alone change.
    ensures others { IsSameButSchedule card.old card.new }

    // The row is this card's, with the id that was given, and was not sent yet.
    ensures row { IsRowOf card.old.id review_id result.review }
{
    let state = state_of(card, options, day);
    let outcome = transition(options, day, word, state, button_of(button));
    apply_outcome(card, day, word, state, outcome);
    Answered {
        review: log_row(review_id, card.id, button, options, taken, state, outcome),
        leech: outcome.leech,
    }
}

/// What the answer reads of a card.
fn state_of(card: &Card, options: &Options, day: Day) -> CardState
    requires card { AreColumns card.now }
    requires options { AreOptions options.now }
    requires day { IsDay day }
    ensures value { IsCardState card.now options.now day result }
    ensures high { IsInRange result }
{
    CardState {
        kind: kind_of(card.kind),
        left: left_before(card, options, day),
        ivl: clamped_to_zero(card.ivl),
        factor: clamped_to_zero(card.factor),
        lapses: clamped_to_zero(card.lapses),
        late: days_late(day, card.due),
    }
}

/// What a card with this column `type` is once it was shown: a new one is learned.
fn kind_of(kind: i64) -> Kind
    ensures { result ≡ kind_of kind }
{
    match kind {
        2 => Kind::Review,
        3 => Kind::Relearning,
        _ => Kind::Learning,
    }
}

/// The column `left` before the answer: a new card has all its steps left.
fn left_before(card: &Card, options: &Options, day: Day) -> u64
    requires card { AreColumns card.now }
    requires options { AreOptions options.now }
    requires day { IsDay day }
    ensures new { card.now.kind ≡ pos 0 → HasAllLeft options.now.new_steps (seconds_left_today day) result }
    ensures begun { card.now.kind ≢ pos 0 → result ≡ clamped_to_zero card.now.left }
    ensures high { result ≤ 999_999 }
{
    if card.kind != 0 {
        return clamped_to_zero(card.left);
    }
    let steps = options.new_steps.as_slice();
    left_of(steps, seconds_left_today(day), count_of(steps))
}

/// How many days ago a card was due; 0 if it is due today or later.
fn days_late(day: Day, due: i64) -> u64
    requires day { IsDay day }
    requires low { negsuc 2_147_483_647 ≤ℤ due }
    requires high { due ≤ℤ pos 1_099_511_627_776 }
    ensures value { result ≡ clamped_to_zero (day.number -ℤ due) }
    ensures high { result ≤ 2_147_533_358 }
{
    clamped_to_zero(day.number - due)
}

/// The button of a number: 1 Again, 2 Hard, 3 Good, 4 Easy.
fn button_of(button: u8) -> Button
    ensures { result ≡ button_of button }
{
    match button {
        0 | 1 => Button::Again,
        2 => Button::Hard,
        3 => Button::Good,
        _ => Button::Easy,
    }
}

/// Writes what an answer makes of a card into its eight columns.
fn apply_outcome(card: &mut Card, day: Day, word: u64, state: CardState, outcome: Outcome)
    requires day { IsDay day }
    requires made { IsMade state outcome }
    ensures { card.new ≡ card_after card.old day word outcome }
{
    let place = place_of(day, word, outcome.ivl, outcome.suspended, outcome.delay);
    card.kind = kind_code(outcome.kind);
    card.queue = place.queue;
    card.due = place.due;
    card.ivl = outcome.ivl as i64;
    card.factor = outcome.factor as i64;
    card.reps = next_count(clamped_to_zero(card.reps)) as i64;
    card.lapses = outcome.lapses as i64;
    card.left = outcome.left as i64;
}

/// The column `type`.
fn kind_code(kind: Kind) -> i64
    ensures { result ≡ kind_code kind }
{
    match kind {
        Kind::Learning => 1,
        Kind::Review => 2,
        Kind::Relearning => 3,
    }
}

/// The row of the review log, not sent yet.
fn log_row(
    id: i64,
    cid: i64,
    button: u8,
    options: &Options,
    taken: u32,
    state: CardState,
    outcome: Outcome,
) -> Review
    requires options { AreOptions options.now }
    requires button { button ≤ 4 }
    requires state { IsInRange state }
    requires made { IsMade state outcome }
    ensures value { result ≡ review_after id cid button options.now taken state outcome }
    ensures logged { IsLogged result }
{
    Review {
        id,
        cid,
        usn: -1,
        ease: button as i64,
        ivl: interval_after(state, outcome),
        last_ivl: interval_before(options, state),
        factor: outcome.factor as i64,
        time: counted_time(options, taken),
        kind: log_kind(state.kind),
    }
}

/// The interval after the answer, as the log has it.
fn interval_after(state: CardState, outcome: Outcome) -> i64
    requires { IsMade state outcome }
    ensures value { result ≡ logged outcome.ivl outcome.delay }
    ensures low { negsuc 99_999_999 ≤ℤ result }
    ensures high { result ≤ℤ pos 1_000_000 }
{
    match outcome.delay {
        Some(delay) => -(delay as i64),
        None => outcome.ivl as i64,
    }
}

/// The interval before the answer, as the log has it: days, or minus the seconds of the step.
fn interval_before(options: &Options, state: CardState) -> i64
    requires options { AreOptions options.now }
    requires state { IsInRange state }
    ensures value { result ≡ logged_before options.now state state.kind }
    ensures low { negsuc 99_999_999 ≤ℤ result }
    ensures high { result ≤ℤ pos 1_000_000 }
{
    match state.kind {
        Kind::Review => state.ivl as i64,
        kind => -(delay_at(steps_of(options, kind), state.left % 1_000) as i64),
    }
}

/// The milliseconds of an answer that count: at most those that the options allow.
fn counted_time(options: &Options, taken: u32) -> i64
    requires { AreOptions options.now }
    ensures value { result ≡ pos (min taken (1_000 * clamped_to_zero options.now.max_taken)) }
    ensures high { result ≤ℤ pos 86_400_000 }
{
    (taken as u64).min(1_000 * clamped_to_zero(options.max_taken)) as i64
}

/// The kind of the review log, by what the card was before the answer.
fn log_kind(kind: Kind) -> i64
    ensures value { result ≡ log_kind kind }
    ensures low { pos 0 ≤ℤ result }
    ensures high { result ≤ℤ pos 3 }
{
    match kind {
        Kind::Learning => 0,
        Kind::Review => 1,
        Kind::Relearning => 2,
    }
}
