// The cards that a filtered deck is built of, gathered in one pass over the cards.
ghost use Rattle.std.specs.Prelude.{◌≡◌, ◌∷◌, [], map, take, IfOk, OnOk};
ghost use Rattle.std.specs.BTreeSet.{insert_key};
ghost use Rattle.ak_filtered.specs.Candidates.{candidates, key_cmp, key_of, may_move};
ghost use Rattle.ak_filtered.specs.Gathering.{PutsCards, PutsHome, PutsRows, SievesBy};
ghost use Rattle.ak_filtered.specs.HomeDecks.{flags_of};
ghost use Rattle.ak_filtered.specs.Builds.{cards_emptied};
ghost use Rattle.ak_keep.specs.Readings.{ReadsBy};
ghost use Rattle.ak_search.specs.Searching.{SearchStays};

use crate::held_decks::HeldDecks;
use crate::plans::Order;
use crate::refills::is_away_in;
use ak_base::{Card, List, Memory, Row, Table};
use ak_keep::{KeepFault, Lookup, Readable, Walk};
use ak_search::Search;
use std::alloc::Global;
use std::collections::BTreeSet;

/// Where a card stands in an order: two numbers, the first of which decides before the second, and the card's id, which decides last.
pub(crate) type CardKey = (i64, i64, i64);

/// What a card is tested by, besides the search, and where it stands.
#[derive(Drop)]
pub(crate) struct Sieve<'a> {
    /// The deck that is emptied first.
    pub(crate) deck: i64,
    pub(crate) decks: &'a HeldDecks,
    pub(crate) order: Order,
}

/// The candidates among all cards, as they are once the deck was emptied, in the order.
pub(crate) fn gather<R: Readable>(
    alloc: Global,
    from: &mut R,
    sieve: &Sieve<'_>,
    search: &mut Search<'_>,
) -> Result<BTreeSet<CardKey>, KeepFault>
    ensures reads { ReadsBy R.Lookup from.old from.new result (λ h keys. SievesBy sieve.now h.rows → SearchStays search.old search.new h.rows (λ day tree.
        keys.keys ≡ candidates h.rows day tree sieve.now.order (cards_emptied sieve.now.deck h.rows))) }
{
    let mut keys = BTreeSet::new(alloc);
    let mut walk = Walk::over(Table::Card);
    'pages: while !walk.is_done() {
        let page = walk.next(from)?;
        add_rows(from, sieve, search, page.as_slice(), &mut keys)?;
    }
    Ok(keys)
}

/// Adds the candidates among the rows.
fn add_rows<R: Lookup>(
    from: &mut R,
    sieve: &Sieve<'_>,
    search: &mut Search<'_>,
    rows: &[Row],
    keys: &mut BTreeSet<CardKey>,
) -> Result<(), KeepFault>
    ensures reads { ReadsBy R.Lookup from.old from.new result (λ h _. SievesBy sieve.now h.rows →
        SearchStays search.old search.new h.rows (λ day tree. PutsRows sieve.now h.rows day tree rows.now keys.old.keys keys.new.keys)) }
{
    let mut rest = rows;
    while let Some((row, others)) = rest.split_first() {
        add_if_card(from, sieve, search, row, keys)?;
        rest = others;
    }
    Ok(())
}

/// Adds the row, if it is a card and a candidate.
fn add_if_card<R: Lookup>(
    from: &mut R,
    sieve: &Sieve<'_>,
    search: &mut Search<'_>,
    row: &Row,
    keys: &mut BTreeSet<CardKey>,
) -> Result<(), KeepFault>
    ensures reads { ReadsBy R.Lookup from.old from.new result (λ h _. SievesBy sieve.now h.rows →
        SearchStays search.old search.new h.rows (λ day tree. PutsRows sieve.now h.rows day tree (row.now ∷ []) keys.old.keys keys.new.keys)) }
{
    match row {
        Row::Card(card) => add_card(from, sieve, search, card, keys),
        _ => Ok(()),
    }
}

/// Adds the card, if it is a candidate once the deck was emptied.
fn add_card<R: Lookup>(
    from: &mut R,
    sieve: &Sieve<'_>,
    search: &mut Search<'_>,
    card: &Card,
    keys: &mut BTreeSet<CardKey>,
) -> Result<(), KeepFault>
    ensures reads { ReadsBy R.Lookup from.old from.new result (λ h _. SievesBy sieve.now h.rows →
        SearchStays search.old search.new h.rows (λ day tree. PutsCards sieve.now h.rows day tree (card.now ∷ []) keys.old.keys keys.new.keys)) }
{
    if is_away_in(sieve.deck, card) {
        let home = sieve.decks.gone_home(card.copy()?);
        return add_candidate(from, sieve, search, &home, keys);
    }
    add_candidate(from, sieve, search, card, keys)
}

/// Adds the card as it is once the deck was emptied, if it is a candidate.
fn add_candidate<R: Lookup>(
    from: &mut R,
    sieve: &Sieve<'_>,
    search: &mut Search<'_>,
    card: &Card,
    keys: &mut BTreeSet<CardKey>,
) -> Result<(), KeepFault>
    ensures reads { ReadsBy R.Lookup from.old from.new result (λ h _. SievesBy sieve.now h.rows →
        SearchStays search.old search.new h.rows (λ day tree. PutsHome sieve.now h.rows day tree card.now keys.old.keys keys.new.keys)) }
{
    if !sieve.may_move(card) {
        return Ok(());
    }
    if search.meets(from, card)? {
        put_key(keys, key_of(sieve.order, card))?;
    }
    Ok(())
}

/// Puts the key in at its place.
fn put_key(keys: &mut BTreeSet<CardKey>, key: CardKey) -> Result<(), Memory>
    ensures { OnOk result (keys.new.keys ≡ insert_key key_cmp keys.old.keys key) }
{
    keys.insert(key)?;
    Ok(())
}

impl<'a> Sieve<'a> {
    /// Whether the card may move in: it is a new one or a review, at home, and its deck is not filtered.
    fn may_move(&self, card: &Card) -> bool
        ensures { result ≡ may_move (flags_of self.now.decks.now) card.now }
    {
        (card.queue == 0 || card.queue == 2) && card.odid == 0 && !self.decks.is_in_filtered(card)
    }
}

/// Where the card stands in the order. A number that comes the greatest first counts down from -1, which can't overflow.
fn key_of(order: Order, card: &Card) -> CardKey
    ensures { result ≡ key_of order card.now }
{
    match order {
        Order::ShortestInterval => (card.ivl, 0, card.id),
        Order::LongestInterval => (-1 - card.ivl, 0, card.id),
        Order::MostLapses => (-1 - card.lapses, 0, card.id),
        Order::OldestNote => (card.nid, card.ord, card.id),
        Order::Due => (card.due, 0, card.id),
        Order::NewestNote => (-1 - card.nid, card.ord, card.id),
    }
}

/// The ids of the first of the cards, at most `most`, in their order.
pub(crate) fn first_ids(
    alloc: Global,
    keys: &BTreeSet<CardKey>,
    most: u64,
) -> Result<List<i64>, Memory>
    ensures { IfOk result (λ ids. ids ≡ take most (map (λ key. key.2) keys.now.keys)) }
{
    let mut ids = List::new(alloc);
    for (_, _, id) in keys {
        if ids.as_slice().len() as u64 == most {
            return Ok(ids);
        }
        ids.push(*id)?;
    }
    Ok(ids)
}
