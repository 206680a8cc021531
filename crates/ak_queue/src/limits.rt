// How many cards a deck still takes on a day.
ghost use Rattle.std.specs.Prelude.{◌≡◌, ◌++◌, ◌∷◌, [], ℤ, pos, map, filter, min, if◌then◌else◌, IfOk, OnOk};
ghost use Rattle.std.specs.Int.{int_gap};
ghost use Rattle.ak_base.specs.Paths.{parts_of};
ghost use Rattle.ak_keep.specs.Readings.{ReadsBy};
ghost use Rattle.ak_queue.specs.Limits.{is_ancestor, is_related, remaining, limits_by, limits_of, most_reviews, new_per_day, reviews_per_day, count_today};
ghost use Rattle.ak_queue.specs.Scopes.{limits_seen};

use crate::paths::Path;
use crate::scopes::Scope;
use ak_base::{Count, Day, Deck, List, Memory, Options};
use ak_keep::{KeepFault, Lookup, options_of_deck};
use std::alloc::Global;

/// The new cards and the reviews that a day takes if no options are held: those that a collection opens with.
const OPENING_NEW_PER_DAY: i64 = 20;

const OPENING_REVIEWS_PER_DAY: i64 = 200;

/// What a deck still takes on a day.
#[derive(Debug, Drop)]
pub(crate) struct DeckLimits {
    /// The deck's path.
    pub(crate) parts: Path,
    /// How many new cards it takes, those of its subtree counted.
    pub(crate) new_cards: u64,
    /// How many reviews it takes.
    pub(crate) reviews: u64,
}

/// What each deck takes that is in the subtree of the chosen deck, or above it.
pub(crate) fn read_limits<R: Lookup>(
    scope: &Scope,
    decks: &[Deck],
    from: &mut R,
) -> Result<List<DeckLimits>, KeepFault>
    ensures reads { ReadsBy R.Lookup from.old from.new result (λ h limits. limits ≡ limits_seen h scope.now decks.now) }
{
    let mut limits = List::new(scope.alloc);
    let mut rest = decks;
    while let Some((deck, others)) = rest.split_first() {
        take_deck(scope, deck, from, &mut limits)?;
        rest = others;
    }
    Ok(limits)
}

/// Adds what the deck takes, if it is in the subtree of the chosen deck, or above it.
fn take_deck<R: Lookup>(
    scope: &Scope,
    deck: &Deck,
    from: &mut R,
    limits: &mut List<DeckLimits>,
) -> Result<(), KeepFault>
    ensures reads { ReadsBy R.Lookup from.old from.new result (λ h _. limits.new ≡ limits.old ++ limits_seen h scope.now (deck.now ∷ [])) }
{
    let path = Path::of(scope.alloc, deck.name.as_str())?;
    if !is_related(&scope.root, &path) {
        return Ok(());
    }
    let taken = read_deck(scope.alloc, from, scope.day, deck)?;
    limits.push(taken)?;
    Ok(())
}

/// What a deck takes.
pub(crate) fn read_deck<R: Lookup>(
    alloc: Global,
    from: &mut R,
    day: Day,
    deck: &Deck,
) -> Result<DeckLimits, KeepFault>
    ensures reads { ReadsBy R.Lookup from.old from.new result (λ h limits. limits ≡ limits_of h.rows day deck.now) }
{
    let options = options_of_deck(from, deck)?;
    let limits = limits_by(alloc, &options, day, deck)?;
    Ok(limits)
}

/// What a deck takes by these options.
fn limits_by(
    alloc: Global,
    options: &Option<Options>,
    day: Day,
    deck: &Deck,
) -> Result<DeckLimits, Memory>
    ensures { IfOk result (λ limits. limits ≡ limits_by options.now day deck.now) }
{
    let parts = Path::of(alloc, deck.name.as_str())?;
    Ok(DeckLimits {
        parts,
        new_cards: remaining(new_per_day(options), day, deck.new_today),
        reviews: remaining(reviews_per_day(options), day, deck.rev_today),
    })
}

/// How many new cards a day takes by the options.
fn new_per_day(options: &Option<Options>) -> i64
    ensures { result ≡ new_per_day options.now }
{
    match options {
        Some(options) => options.new_per_day,
        None => OPENING_NEW_PER_DAY,
    }
}

/// How many reviews a day takes by the options.
fn reviews_per_day(options: &Option<Options>) -> i64
    ensures { result ≡ reviews_per_day options.now }
{
    match options {
        Some(options) => options.rev_per_day,
        None => OPENING_REVIEWS_PER_DAY,
    }
}

/// How many are left of a number a day.
fn remaining(per_day: i64, day: Day, count: Count) -> u64
    ensures { result ≡ remaining per_day day count }
{
    gap(count_today(day, count), per_day)
}

/// How many of a kind were taken today. A count of another day says nothing.
fn count_today(day: Day, count: Count) -> i64
    ensures { result ≡ count_today day count }
{
    if count.day == day.number {
        count.count
    } else {
        0
    }
}

/// By how much a number is below another, and 0 if it is not.
fn gap(low: i64, high: i64) -> u64
    ensures { result ≡ int_gap low high }
{
    if low < high { high.abs_diff(low) } else { 0 }
}

/// Whether a path is in the subtree of the other, or the other way round.
fn is_related(root: &Path, path: &Path) -> bool
    ensures { result ≡ is_related root.now path.now }
{
    root.leads_to(path) || path.leads_to(root)
}

/// How many reviews the chosen deck takes: the least of its limit and of those of its ancestors.
pub(crate) fn most_reviews(root: &Path, own: &DeckLimits, limits: &[DeckLimits]) -> u64
    ensures { result ≡ most_reviews root.now own.now limits.now }
{
    let mut most = own.reviews;
    let mut rest = limits;
    while let Some((limit, others)) = rest.split_first() {
        most = with_limit(root, most, limit);
        rest = others;
    }
    most
}

/// The lesser of a number and of what a deck above the path takes.
fn with_limit(root: &Path, most: u64, limit: &DeckLimits) -> u64
    ensures { result ≡ (if is_ancestor limit.now.parts root.now then min most limit.now.reviews else most) }
{
    if is_ancestor(&limit.parts, root) {
        most.min(limit.reviews)
    } else {
        most
    }
}

/// Whether a path is an ancestor of the other.
fn is_ancestor(above: &Path, path: &Path) -> bool
    ensures { result ≡ is_ancestor above.now path.now }
{
    above.leads_to(path) && !path.leads_to(above)
}
