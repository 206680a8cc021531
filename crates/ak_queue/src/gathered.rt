// The cards that a day asks for, gathered from the queues in which they wait.
ghost use Rattle.std.specs.Prelude.{◌≡◌, ◌<◌, ◌≤◌, ◌∷◌, [], pos, map, length, take, true, IfOk, OnOk};
ghost use Rattle.std.specs.BTreeSet.{insert_key};
ghost use Rattle.ak_keep.specs.Readings.{ReadsBy};
ghost use Rattle.ak_keep.specs.WaitingCards.{IsOneOf};
ghost use Rattle.ak_queue.specs.Gathering.{AddsFirstReviews, Gathers, GathersOver, HasAllButReviews, HasNone, PutsDue, PutsFirst, PutsNew, PutsUnder};
ghost use Rattle.ak_queue.specs.Homes.{cards_in};
ghost use Rattle.ak_queue.specs.Orders.{due_cmp};
ghost use Rattle.ak_queue.specs.Scopes.{scope_seen};

use crate::paths::Path;
use crate::scopes::Scope;
use ak_base::{Card, List, Memory};
use ak_keep::{KeepFault, QueueWalk, Readable};
use std::alloc::Global;
use std::cmp::Ordering;
use std::collections::BTreeSet;

/// How many cards are read at a time.
const PAGE: usize = 100;

/// At least so many reviews are read at first: some may lie outside of the deck.
const FEW: u64 = 10;

/// What waits, in order: when it is due, and the card's id.
type DueKeys = BTreeSet<(i64, i64)>;

/// The cards that a day asks for, before limits, but of the reviews only the first.
#[derive(Debug, Drop)]
pub(crate) struct Gathered {
    /// How many reviews are looked for.
    pub(crate) most: u64,
    pub(crate) learning: DueKeys,
    pub(crate) soon: DueKeys,
    pub(crate) day_learning: DueKeys,
    /// The first `most` of the reviews. That there are no others is promised by no contract.
    pub(crate) reviews: DueKeys,
    /// New cards, by the path of their deck, their place among new cards, and their id.
    pub(crate) new_cards: BTreeSet<(Path, i64, i64)>,
}

/// The cards that the day asks for, queue by queue, but no reviews yet; of these at most `most` are looked for.
pub(crate) fn gather<R: Readable>(
    scope: &Scope,
    most: u64,
    from: &mut R,
) -> Result<Gathered, KeepFault>
    ensures most { IfOk result (λ gathered. gathered.most ≡ most) }
    ensures reads { ReadsBy R.Lookup from.old from.new result (λ h gathered. HasAllButReviews (scope_seen scope.now) (cards_in h.rows) gathered) }
{
    let mut gathered = Gathered::new(scope.alloc, most);
    let learning = QueueWalk::over(1, scope.last_learning());
    let over_days = QueueWalk::over(3, Some(scope.day.number));
    gather_over(&mut gathered, scope, learning, from)?;
    gather_over(&mut gathered, scope, over_days, from)?;
    gather_over(&mut gathered, scope, QueueWalk::over(0, None), from)?;
    Ok(gathered)
}

/// Adds the first of the reviews, as many as are looked for.
pub(crate) fn gather_reviews<R: Readable>(
    gathered: &mut Gathered,
    scope: &Scope,
    from: &mut R,
) -> Result<(), KeepFault>
    ensures most { OnOk result (gathered.new.most ≡ gathered.old.most) }
    ensures reads { ReadsBy R.Lookup from.old from.new result (λ h _. AddsFirstReviews (scope_seen scope.now) (cards_in h.rows) gathered.old gathered.new) }
{
    let reviews = QueueWalk::over(2, Some(scope.day.number));
    gather_over(gathered, scope, reviews, from)
}

/// Adds the cards that the walk goes over, a page at a time. Once as many reviews are found as are looked for, no further page is read.
fn gather_over<R: Readable>(
    gathered: &mut Gathered,
    scope: &Scope,
    over: QueueWalk,
    from: &mut R,
) -> Result<(), KeepFault>
    ensures most { OnOk result (gathered.new.most ≡ gathered.old.most) }
    ensures reads { ReadsBy R.Lookup from.old from.new result (λ h _. GathersOver (scope_seen scope.now) (IsOneOf (cards_in h.rows)) over gathered.old gathered.new) }
{
    let queue = over.queue();
    let mut limit = gathered.first_limit(queue);
    let mut walk = over;
    'pages: while !walk.is_done() {
        if gathered.has_enough(queue) {
            return Ok(());
        }
        let page = walk.next(from, limit)?;
        gathered.add_cards(scope, page.as_slice())?;
        // What is looked for may come far on, if few of the cards lie in the deck.
        limit = PAGE;
    }
    Ok(())
}

impl Gathered {
    /// No cards, and at most so many reviews are looked for.
    fn new(alloc: Global, most: u64) -> Gathered
        ensures { HasNone most result }
    {
        Gathered {
            most,
            learning: BTreeSet::new(alloc),
            soon: BTreeSet::new(alloc),
            day_learning: BTreeSet::new(alloc),
            reviews: BTreeSet::new(alloc),
            new_cards: BTreeSet::new(alloc),
        }
    }

    /// Adds those of the cards that the day asks for.
    fn add_cards(&mut self, scope: &Scope, cards: &[Card]) -> Result<(), Memory>
        ensures { OnOk result (Gathers (scope_seen scope.now) cards.now self.old self.new) }
    {
        let mut rest = cards;
        while let Some((card, others)) = rest.split_first() {
            self.add_card(scope, card)?;
            rest = others;
        }
        Ok(())
    }

    /// Whether it is the queue of reviews, and as many were found as are looked for.
    fn has_enough(&self, queue: i64) -> bool
        ensures queue { result ≡ true → queue ≡ pos 2 }
        ensures most { result ≡ true → self.now.most ≤ length self.now.reviews.keys }
    {
        queue == 2 && self.most <= self.reviews.len() as u64
    }

    /// How many cards of the queue the first page has room for: of reviews about as many as are looked for.
    fn first_limit(&self, queue: i64) -> usize
        ensures low { 0 < result }
        ensures high { result ≤ 1000 }
    {
        if queue == 2 {
            self.most.clamp(FEW, PAGE as u64) as usize
        } else {
            PAGE
        }
    }

    /// Adds the card, if the day asks for it.
    fn add_card(&mut self, scope: &Scope, card: &Card) -> Result<(), Memory>
        ensures { OnOk result (Gathers (scope_seen scope.now) (card.now ∷ []) self.old self.new) }
    {
        let inside = scope.is_inside(card);
        add_due(&mut self.learning, inside && scope.is_learning(card), card)?;
        add_due(&mut self.soon, inside && scope.is_soon(card), card)?;
        add_due(
            &mut self.day_learning,
            inside && scope.is_day_learning(card),
            card,
        )?;
        add_first(
            &mut self.reviews,
            self.most,
            inside && scope.is_due_review(card),
            card,
        )?;
        add_new(&mut self.new_cards, scope, card)
    }
}

/// Adds the card by when it is due, if it passes.
fn add_due(keys: &mut DueKeys, passes: bool, card: &Card) -> Result<(), Memory>
    ensures { OnOk result (PutsDue passes card.now keys.old.keys keys.new.keys) }
{
    if passes {
        keys.insert((card.due, card.id))?;
    }
    Ok(())
}

/// Adds the card by when it is due, if it passes and is among the first `most` of them then.
fn add_first(keys: &mut DueKeys, most: u64, passes: bool, card: &Card) -> Result<(), Memory>
    ensures { OnOk result (PutsFirst most passes card.now keys.old.keys keys.new.keys) }
{
    if passes {
        put_first(keys, most, (card.due, card.id))?;
    }
    Ok(())
}

/// Puts the key in, but for one that comes after the first `most`; one that it pushes past them goes.
fn put_first(keys: &mut DueKeys, most: u64, key: (i64, i64)) -> Result<(), Memory>
    ensures { OnOk result (take most keys.new.keys ≡ take most (insert_key due_cmp keys.old.keys key)) }
{
    if comes_after(keys, most, &key) {
        return Ok(());
    }
    keys.insert(key)?;
    cut(keys, most);
    Ok(())
}

/// True only if `most` of them come before the key.
fn comes_after(keys: &DueKeys, most: u64, key: &(i64, i64)) -> bool
    ensures { result ≡ true → take most keys.now.keys ≡ take most (insert_key due_cmp keys.now.keys key.now) }
{
    match keys.last() {
        Some(last) => most <= keys.len() as u64 && last.cmp(key) == Ordering::Less,
        None => false,
    }
}

/// Takes out the last key, if there are more than `most`.
fn cut(keys: &mut DueKeys, most: u64)
    ensures { take most keys.new.keys ≡ take most keys.old.keys }
{
    if most < keys.len() as u64 {
        keys.pop_last();
    }
}

/// Adds the card by the path of its deck, if it is a new one inside.
fn add_new(keys: &mut BTreeSet<(Path, i64, i64)>, scope: &Scope, card: &Card) -> Result<(), Memory>
    ensures { OnOk result (PutsNew (scope_seen scope.now) card.now keys.old.keys keys.new.keys) }
{
    if !scope.is_new(card) {
        return Ok(());
    }
    match scope.path_of_card(card) {
        Some(home) => add_under(keys, &scope.root, home, card),
        None => Ok(()),
    }
}

/// Adds the card by this path, if the path is in the subtree of the other.
fn add_under(
    keys: &mut BTreeSet<(Path, i64, i64)>,
    root: &Path,
    home: &Path,
    card: &Card,
) -> Result<(), Memory>
    ensures { OnOk result (PutsUnder root.now home.now card.now keys.old.keys keys.new.keys) }
{
    if root.leads_to(home) {
        let path = home.copy()?;
        keys.insert((path, card.due, card.id))?;
    }
    Ok(())
}

/// The ids of the first of them, at most `most`.
pub(crate) fn first_ids(alloc: Global, keys: &DueKeys, most: u64) -> Result<List<i64>, Memory>
    ensures { IfOk result (λ ids. ids ≡ take most (map (λ key. key.1) keys.now.keys)) }
{
    let mut ids = List::new(alloc);
    for (_, id) in keys {
        if ids.as_slice().len() as u64 == most {
            return Ok(ids);
        }
        ids.push(*id)?;
    }
    Ok(ids)
}

/// The ids of all of them.
pub(crate) fn ids_of(alloc: Global, keys: &DueKeys) -> Result<List<i64>, Memory>
    ensures { IfOk result (λ ids. ids ≡ map (λ key. key.1) keys.now.keys) }
{
    let mut ids = List::new(alloc);
    for (_, id) in keys {
        ids.push(*id)?;
    }
    Ok(ids)
}
