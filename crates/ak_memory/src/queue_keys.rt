// The keys by which waiting cards are found, and what is read by them.
ghost use Rattle.std.specs.Prelude.{◌≡◌, ◌++◌, take, IfOk, OnOk};
ghost use Rattle.std.specs.List.Sorted.{IsStrictlySortedBy};
ghost use Rattle.std.specs.Option.{option_and_then, option_to_list};
ghost use Rattle.ak_keep.specs.Lookups.{as_card};
ghost use Rattle.ak_keep.specs.WaitingCards.{is_due_by};
ghost use Rattle.ak_memory.specs.QueueKeys.{card_of_key, if_due_at, is_asked, keys_after, queue_key_cmp, queue_run, start_of};
ghost use Rattle.ak_memory.specs.Places.{row_under};
ghost use Rattle.ak_memory.specs.declared.versions.Version.TheVariants.{Now};

use crate::by_name::{Places, row_of};
use ak_base::{Card, List, Memory, Name, Table};
use ak_keep::Waiting;
use std::alloc::Global;
use std::collections::BTreeSet;
use std::ops::Bound;

/// What a waiting card is found by: its queue, its due and its name. With no due and name it comes before all cards of the
/// queue.
pub(crate) type QueueKey = (i64, Option<(i64, Name)>);

/// The first `limit` of the cards that are asked for: a step for each key, after the first is found.
pub(crate) fn waiting_of(
    alloc: Global,
    keys: &BTreeSet<QueueKey>,
    places: &Places,
    waiting: &Waiting,
    limit: usize,
) -> Result<List<Card>, Memory>
    ensures cards { IfOk result (λ page. page ≡ take limit (queue_run waiting.now places.now.entries (keys_after (start_of waiting.now) keys.now.keys))) }
    ensures ordered { IsStrictlySortedBy queue_key_cmp keys.now.keys }
{
    let start = start_of(waiting);
    let page = waiting_after(alloc, keys, places, waiting, &start, limit)?;
    Ok(page)
}

/// The first `limit` of the cards that are asked for, by the keys after this one.
fn waiting_after(
    alloc: Global,
    keys: &BTreeSet<QueueKey>,
    places: &Places,
    waiting: &Waiting,
    start: &QueueKey,
    limit: usize,
) -> Result<List<Card>, Memory>
    ensures cards { IfOk result (λ page. page ≡ take limit (queue_run waiting.now places.now.entries (keys_after start.now keys.now.keys))) }
    ensures ordered { IsStrictlySortedBy queue_key_cmp keys.now.keys }
{
    let mut page = List::new(alloc);
    for key in keys.range((Bound::Excluded(*start), Bound::Unbounded)) {
        if page.as_slice().len() == limit {
            return Ok(page);
        }
        if !is_asked(waiting, key) {
            return Ok(page);
        }
        push_waiting(&mut page, places, key)?;
    }
    Ok(page)
}

/// The key that the cards come after.
fn start_of(waiting: &Waiting) -> QueueKey
    ensures { result ≡ start_of waiting.now }
{
    match waiting.past {
        Some((due, id)) => {
            let name = Name {
                table: Table::Card,
                id,
            };
            (waiting.queue, Some((due, name)))
        }
        None => (waiting.queue, None),
    }
}

/// Whether the key is in the queue, and due in time.
fn is_asked(waiting: &Waiting, key: &QueueKey) -> bool
    ensures { result ≡ is_asked waiting.now key.now }
{
    match &key.1 {
        Some((due, _)) => key.0 == waiting.queue && is_due_by(&waiting.last, due),
        None => false,
    }
}

/// Whether a due is not over the last one, if there is a last one.
fn is_due_by(last: &Option<i64>, due: &i64) -> bool
    ensures { result ≡ is_due_by last.now due.now }
{
    match last {
        Some(last) => due <= last,
        None => true,
    }
}

/// Adds a copy of the card of the key, if it is held and waits there.
fn push_waiting(page: &mut List<Card>, places: &Places, key: &QueueKey) -> Result<(), Memory>
    ensures { OnOk result (page.new ≡ page.old ++ option_to_list (card_of_key places.now.entries key.now)) }
{
    match &key.1 {
        Some((due, name)) => push_due(page, places, &key.0, due, name),
        None => Ok(()),
    }
}

/// Adds a copy of the card of this name, if it is held and waits in this queue and is due at this number.
fn push_due(
    page: &mut List<Card>,
    places: &Places,
    queue: &i64,
    due: &i64,
    name: &Name,
) -> Result<(), Memory>
    ensures { OnOk result (page.new ≡ page.old ++ option_to_list (option_and_then (if_due_at queue.now due.now) (option_and_then as_card (row_under Now places.now.entries name.now)))) }
{
    match row_of(places, name) {
        Some(row) => match row.card() {
            Some(card) => push_if_due(page, queue, due, card),
            None => Ok(()),
        },
        None => Ok(()),
    }
}

/// Adds a copy of the card, if it waits in this queue and is due at this number.
fn push_if_due(page: &mut List<Card>, queue: &i64, due: &i64, card: &Card) -> Result<(), Memory>
    ensures { OnOk result (page.new ≡ page.old ++ option_to_list (if_due_at queue.now due.now card.now)) }
{
    if card.queue == *queue && card.due == *due {
        let copy = card.copy()?;
        return page.push(copy);
    }
    Ok(())
}
