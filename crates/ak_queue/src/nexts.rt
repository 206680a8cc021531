// The next card of a day.
ghost use Rattle.std.specs.Prelude.{◌≡◌, Some, IfOk, slice_get};
ghost use Rattle.ak_queue.specs.Nexts.{first_if, first_of, is_due_by_spread, is_time_for_new, mixing_in, next_in, next_of, new_card_period};
ghost use Rattle.ak_queue.specs.Readings.{AsksFor};

use crate::day_queues::DayQueue;
use crate::faults::QueueFault;
use crate::queues::{ahead_in, queue_ahead_of};
use ak_base::{Day, Head, List};
use ak_keep::Readable;
use std::alloc::Global;

/// How far a learner is on a day.
#[derive(Clone, Copy, Debug, PartialEq, Eq)]
pub struct Progress {
    pub day: Day,
    /// How many answers the caller counts so far: a desk those of its run, a lab those of the device.
    pub done: u64,
}

/// How the settings mix the lists of a day.
#[derive(Clone, Copy, Debug)]
pub(crate) struct Mixing {
    /// 0 if new cards come among reviews, 1 if after them, 2 if before them.
    spread: i64,
    /// Whether cards that are learned over days come before reviews.
    day_learn_first: bool,
}

/// The next card of the deck and its subtree, None if all lists of the day are empty.
pub fn next<R: Readable>(
    alloc: Global,
    from: &mut R,
    deck: i64,
    progress: Progress,
) -> Result<Option<i64>, QueueFault>
    ensures { AsksFor R.Lookup deck from.old from.new result (λ h card. next_in h progress deck ≡ Some card) }
{
    let head = from.head()?;
    let ahead = ahead_in(progress.day, &head, true);
    let queue = queue_ahead_of(alloc, from, deck, ahead)?;
    Ok(next_of(mixing_in(&head), progress.done, &queue))
}

/// How the settings mix the lists. Without a head new cards come among reviews.
fn mixing_in(head: &Option<Head>) -> Mixing
    ensures { result ≡ mixing_in head.now }
{
    match head {
        Some(head) => Mixing {
            spread: head.conf.new_spread,
            day_learn_first: head.conf.day_learn_first,
        },
        None => Mixing {
            spread: 0,
            day_learn_first: false,
        },
    }
}

/// The next card of a queue, after a number of answers.
fn next_of(mixing: Mixing, done: u64, queue: &DayQueue) -> Option<i64>
    ensures { result ≡ next_of mixing done queue.now }
{
    let in_turn = is_time_for_new(mixing.spread, done, queue);
    first_of(&[
        first_if(true, &queue.learning),
        first_if(in_turn, &queue.new_cards),
        first_if(mixing.day_learn_first, &queue.day_learning),
        first_if(true, &queue.reviews),
        first_if(true, &queue.day_learning),
        first_if(true, &queue.new_cards),
        first_if(true, &queue.soon),
    ])
}

/// The first that is there.
fn first_of(ids: &[Option<i64>]) -> Option<i64>
    ensures { result ≡ first_of ids.now }
{
    for id in ids {
        if id.is_some() {
            return *id;
        }
    }
    None
}

/// The first of a list, if its time has come.
fn first_if(comes: bool, ids: &List<i64>) -> Option<i64>
    ensures { result ≡ first_if comes ids.now }
{
    if comes {
        ids.as_slice().first().copied()
    } else {
        None
    }
}

/// Whether it is time for a new card.
#[tactic(auto, unfolding(crate::specs::Nexts::is_time_for_new))]
fn is_time_for_new(spread: i64, done: u64, queue: &DayQueue) -> bool
    ensures { result ≡ is_time_for_new spread done queue.now }
{
    let new_cards = queue.new_cards.as_slice().len() as u64;
    let reviews = queue.reviews.as_slice().len() as u64;
    if new_cards == 0 {
        return false;
    }
    let least = if reviews == 0 { 1 } else { 2 };
    let turn = ((new_cards + reviews) / new_cards).max(least);
    spread == 2 || (spread == 0 && done > 0 && done % turn == 0)
}
