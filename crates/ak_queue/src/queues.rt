// The queue of a deck on a day, and how many cards it has.
ghost use Rattle.std.specs.Prelude.{◌≡◌, Some, IfOk};
ghost use Rattle.ak_keep.specs.Readings.{ReadsBy};
ghost use Rattle.ak_queue.specs.Queues.{queue_of, queue_ahead, queue_ahead_of, queue_asked, queue_within, queue_by, scope_at, ahead_in, counts_in, needed_reviews};
ghost use Rattle.ak_queue.specs.Readings.{AsksFor};
ghost use Rattle.ak_queue.specs.Scopes.{queue_seen, scope_seen};

use crate::choices::first_choice;
use crate::day_queues::{Counts, DayQueue};
use crate::faults::QueueFault;
use crate::gathered::{Gathered, first_ids, gather, gather_reviews, ids_of};
use crate::homes::homes_of;
use crate::limits::{DeckLimits, most_reviews, read_deck, read_limits};
use crate::paths::Path;
use crate::scopes::Scope;
use ak_base::{Day, Deck, Head, List, Memory};
use ak_keep::{KeepFault, Readable, deck_at, read_decks};
use std::alloc::Global;

/// How many cards of the deck and its subtree the day asks for.
pub fn counts<R: Readable>(
    alloc: Global,
    from: &mut R,
    deck: i64,
    day: Day,
) -> Result<Counts, QueueFault>
    ensures { AsksFor R.Lookup deck from.old from.new result (λ h counts. counts_in h day deck ≡ Some counts) }
{
    let queue = queue_of(alloc, from, deck, day)?;
    Ok(queue.counts())
}

/// The cards of the deck and its subtree that the day asks for: one pass over the decks, and one over the cards that wait in each
/// queue, those of every deck, by when they are due and no further than the day asks.
pub fn queue_of<R: Readable>(
    alloc: Global,
    from: &mut R,
    deck: i64,
    day: Day,
) -> Result<DayQueue, QueueFault>
    ensures { AsksFor R.Lookup deck from.old from.new result (λ h queue. queue_of h day deck ≡ Some queue) }
{
    let head = from.head()?;
    queue_ahead_of(alloc, from, deck, ahead_in(day, &head, false))
}

/// The queue of the deck of this id, as far as it is asked for.
pub(crate) fn queue_ahead_of<R: Readable>(
    alloc: Global,
    from: &mut R,
    deck: i64,
    ahead: LookAhead,
) -> Result<DayQueue, QueueFault>
    ensures { AsksFor R.Lookup deck from.old from.new result (λ h queue. queue_ahead_of h ahead deck ≡ Some queue) }
{
    match read_queue(alloc, from, deck, ahead)? {
        Some(queue) => Ok(queue),
        None => Err(QueueFault::NoDeck(deck)),
    }
}

/// The queue of the deck of this id, as far as it is asked for, None if it is not held.
fn read_queue<R: Readable>(
    alloc: Global,
    from: &mut R,
    deck: i64,
    ahead: LookAhead,
) -> Result<Option<DayQueue>, KeepFault>
    ensures reads { ReadsBy R.Lookup from.old from.new result (λ h queue. queue ≡ queue_ahead_of h ahead deck) }
{
    let found = deck_at(from, deck)?;
    match found {
        Some(deck) => {
            let queue = queue_of_deck(alloc, from, &deck, ahead)?;
            Ok(Some(queue))
        }
        None => Ok(None),
    }
}

/// The queue of a deck that is held, as far as it is asked for.
fn queue_of_deck<R: Readable>(
    alloc: Global,
    from: &mut R,
    deck: &Deck,
    ahead: LookAhead,
) -> Result<DayQueue, KeepFault>
    ensures reads { ReadsBy R.Lookup from.old from.new result (λ h queue. queue ≡ queue_ahead h ahead deck.now) }
{
    let decks = read_decks(alloc, from)?;
    let scope = scope_of(alloc, deck, &decks, ahead)?;
    queue_within(&scope, deck, decks.as_slice(), from)
}

/// The queue of a deck, by what it looks at and by the decks that are held.
fn queue_within<R: Readable>(
    scope: &Scope,
    deck: &Deck,
    decks: &[Deck],
    from: &mut R,
) -> Result<DayQueue, KeepFault>
    ensures reads { ReadsBy R.Lookup from.old from.new result (λ h queue. queue ≡ queue_asked scope.now.for_next (queue_within h (scope_seen scope.now) deck.now decks.now)) }
{
    let own = read_deck(scope.alloc, from, scope.day, deck)?;
    let limits = read_limits(scope, decks, from)?;
    queue_under(scope, &own, limits.as_slice(), from)
}

/// The queue of the cards that are held, under these limits.
fn queue_under<R: Readable>(
    scope: &Scope,
    own: &DeckLimits,
    limits: &[DeckLimits],
    from: &mut R,
) -> Result<DayQueue, KeepFault>
    ensures reads { ReadsBy R.Lookup from.old from.new result (λ h queue. queue ≡ queue_seen h scope.now own.now limits.now) }
{
    let most = most_reviews(&scope.root, own, limits);
    let mut gathered = gather(scope, most, from)?;
    let new_cards = first_choice(scope.alloc, limits, &gathered.new_cards)?;
    gathered.most = needed_reviews(scope.for_next, most, &new_cards);
    gather_reviews(&mut gathered, scope, from)?;
    let queue = assembled(scope.alloc, &gathered, new_cards)?;
    Ok(queue)
}

/// How many of at most `most` reviews are looked for. The next card depends on their number only if new cards come among them.
fn needed_reviews(for_next: bool, most: u64, new_cards: &List<i64>) -> u64
    ensures { result ≡ needed_reviews for_next most new_cards.now }
{
    if for_next && new_cards.as_slice().is_empty() {
        most.min(1)
    } else {
        most
    }
}

/// What the queue of a deck looks at.
fn scope_of(
    alloc: Global,
    deck: &Deck,
    decks: &List<Deck>,
    ahead: LookAhead,
) -> Result<Scope, Memory>
    ensures seen { IfOk result (λ scope. scope_seen scope ≡ scope_at ahead deck.now decks.now) }
    ensures asked { IfOk result (λ scope. scope.for_next ≡ ahead.for_next) }
{
    let root = Path::of(alloc, deck.name.as_str())?;
    let homes = homes_of(alloc, decks.as_slice())?;
    Ok(Scope {
        alloc,
        day: ahead.day,
        collapse: ahead.collapse,
        for_next: ahead.for_next,
        root,
        homes,
    })
}

/// The lists of what was gathered, with the new cards that were chosen.
fn assembled(alloc: Global, gathered: &Gathered, new_cards: List<i64>) -> Result<DayQueue, Memory>
    ensures { IfOk result (λ queue. queue ≡ queue_by gathered.now new_cards) }
{
    Ok(DayQueue {
        learning: ids_of(alloc, &gathered.learning)?,
        soon: ids_of(alloc, &gathered.soon)?,
        new_cards,
        day_learning: ids_of(alloc, &gathered.day_learning)?,
        reviews: first_ids(alloc, &gathered.reviews, gathered.most)?,
    })
}

/// The moment, and how far a queue of it is asked for. Without a head no learning card may come ahead of its time.
pub(crate) fn ahead_in(day: Day, head: &Option<Head>, for_next: bool) -> LookAhead
    ensures { result ≡ ahead_in day head.now for_next }
{
    let collapse = match head {
        Some(head) => head.conf.collapse,
        None => 0,
    };
    LookAhead {
        day,
        collapse,
        for_next,
    }
}

/// The moment that a queue is of, and how far it is asked for.
#[derive(Clone, Copy, Debug)]
pub(crate) struct LookAhead {
    day: Day,
    /// How many seconds ahead a learning card may come.
    collapse: i64,
    /// Whether only the next card is asked for: then the first review is enough if no new card is taken.
    for_next: bool,
}
