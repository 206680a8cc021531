// Which new cards are taken: the first lawful choice along their order.
ghost use Rattle.std.specs.Prelude.{◌≡◌, ◌++◌, ◌∷◌, [], map, IfOk};
ghost use Rattle.ak_queue.specs.Choices.{first_choice};
ghost use Rattle.ak_queue.specs.Rooms.{has_room, less_one, room_after, rooms_of};

use crate::limits::DeckLimits;
use crate::paths::Path;
use ak_base::{List, Memory};
use std::alloc::Global;
use std::collections::BTreeSet;

/// The ids of the new cards that are taken, in their order. What each deck still takes is kept, so that a card is tested
/// by its deck and those above it alone.
pub(crate) fn first_choice(
    alloc: Global,
    limits: &[DeckLimits],
    cards: &BTreeSet<(Path, i64, i64)>,
) -> Result<List<i64>, Memory>
    ensures { IfOk result (λ ids. ids ≡ map (λ card. card.2) (first_choice limits.now cards.now.keys)) }
{
    let mut ids = List::new(alloc);
    let mut rooms = rooms_of(alloc, limits)?;
    for (path, _, id) in cards {
        if has_room(limits, rooms.as_slice(), path) {
            rooms = less_one(limits, rooms.as_slice(), path, alloc)?;
            ids.push(*id)?;
        }
    }
    Ok(ids)
}

/// How many new cards each deck takes.
fn rooms_of(alloc: Global, limits: &[DeckLimits]) -> Result<Vec<u64>, Memory>
    ensures { IfOk result (λ rooms. rooms.items ≡ rooms_of limits.now) }
{
    let mut rooms = Vec::new(alloc);
    for limit in limits {
        rooms.push(limit.new_cards)?;
    }
    Ok(rooms)
}

/// Whether each deck that the path is in the subtree of has room for one more.
fn has_room(limits: &[DeckLimits], rooms: &[u64], path: &Path) -> bool
    ensures { result ≡ has_room limits.now rooms.now path.now }
{
    let mut limits = limits;
    let mut rooms = rooms;
    while let (Some((limit, others)), Some((room, more))) = (
        limits.split_first(),
        rooms.split_first(),
    ) {
        if *room == 0 && limit.parts.leads_to(path) {
            return false;
        }
        limits = others;
        rooms = more;
    }
    true
}

/// The room that is left after one more card of that path.
fn less_one(
    limits: &[DeckLimits],
    rooms: &[u64],
    path: &Path,
    alloc: Global,
) -> Result<Vec<u64>, Memory>
    ensures { IfOk result (λ left. left.items ≡ less_one limits.now rooms.now path.now) }
{
    let mut left = Vec::new(alloc);
    let mut limits = limits;
    let mut rooms = rooms;
    while let (Some((limit, others)), Some((room, more))) = (
        limits.split_first(),
        rooms.split_first(),
    ) {
        left.push(room_after(limit, *room, path))?;
        limits = others;
        rooms = more;
    }
    Ok(left)
}

/// The room that a deck has after one more card of that path.
fn room_after(limit: &DeckLimits, room: u64, path: &Path) -> u64
    ensures { result ≡ room_after limit.now room path.now }
{
    if limit.parts.leads_to(path) {
        room.saturating_sub(1)
    } else {
        room
    }
}
