// Which cards of a note are buried, and where a buried card goes back to.
ghost use Rattle.std.specs.Prelude.{◌≡◌, ◌≢◌, ◌≤ℤ◌, pos, true, ◌++◌, ◌∷◌, [], if◌then◌else◌, int_lt, not, ◌&&◌, IfOk, OnOk};
ghost use Rattle.std.specs.List.{All};
ghost use Rattle.std.specs.List.Sorted.{IsStrictlySortedBy};
ghost use Rattle.std.specs.Ordering.{int_cmp};
ghost use Rattle.ak_keep.specs.Collections.{IsId};
ghost use Rattle.ak_keep.specs.Readings.{ReadsBy};
ghost use Rattle.ak_queue.specs.Burials.{burial_of, bury_list, is_buried, is_other_buried, restored_queue, TakesBuried, TakesOther};

use ak_base::{Card, Day, List, Memory, Options};
use ak_keep::{KeepFault, Lookup, card_at};

/// The first second that a due can name: below it, a due is a day.
const FIRST_DUE_SECOND: i64 = 1_000_000_001;

/// What is buried when a card was answered.
#[derive(Clone, Copy, Debug)]
pub(crate) struct Burial {
    /// The card that was answered.
    answered: i64,
    /// Whether new cards are buried.
    new_cards: bool,
    /// Whether reviews are buried.
    reviews: bool,
    day: Day,
}

/// The other cards of the answered card's note that its options bury, by ascending id. The card itself stays out, however it
/// was changed.
pub fn bury_list<R: Lookup>(
    from: &mut R,
    card: &Card,
    options: &Options,
    day: Day,
) -> Result<List<i64>, KeepFault>
    ensures reads { ReadsBy R.Lookup from.old from.new result (λ h ids. ids ≡ bury_list h.rows card.now options.now day) }

    // Whatever is told: each once, and never the card that was answered.
    ensures ascend { IfOk result (λ ids. IsStrictlySortedBy int_cmp ids) }
    ensures others { IfOk result (λ ids. All (λ id. id ≢ card.now.id) ids) }
    ensures range { R.checks ≡ true → IfOk result (λ ids. All IsId ids) }
{
    let burial = burial_of(card, options, day);
    let ids = from.cards_of(card.nid)?;
    let mut buried = List::new(ids.allocator());
    let mut rest = ids.as_slice();
    while let Some((id, others)) = rest.split_first() {
        take_sibling(from, burial, *id, &mut buried)?;
        rest = others;
    }
    Ok(buried)
}

/// What is buried when this card was answered, by its options, on this day.
fn burial_of(card: &Card, options: &Options, day: Day) -> Burial
    ensures { result ≡ burial_of card.now options.now day }
{
    Burial {
        answered: card.id,
        new_cards: options.new_bury,
        reviews: options.rev_bury,
        day,
    }
}

/// Adds the card of this id, if it is buried.
fn take_sibling<R: Lookup>(
    from: &mut R,
    burial: Burial,
    id: i64,
    buried: &mut List<i64>,
) -> Result<(), KeepFault>
    ensures reads { ReadsBy R.Lookup from.old from.new result (λ h _. TakesBuried burial h.rows id buried.old buried.new) }
    ensures taken { OnOk result (TakesOther burial.answered id buried.old buried.new) }
{
    let found = card_at(from, id)?;
    let taken = burial.takes(id, &found);
    push_if(taken, id, buried)?;
    Ok(())
}

/// Adds the id, if it is taken.
fn push_if(taken: bool, id: i64, buried: &mut List<i64>) -> Result<(), Memory>
    ensures { OnOk result (buried.new ≡ buried.old ++ (if taken then id ∷ [] else [])) }
{
    if taken {
        return buried.push(id);
    }
    Ok(())
}

impl Burial {
    /// Whether the card of this id is buried: it is another one, it is held, and the options bury it.
    fn takes(self, id: i64, found: &Option<Card>) -> bool
        ensures buried { result ≡ is_other_buried self id found.now }
        ensures other { result ≡ true → id ≢ self.answered }
    {
        match found {
            Some(card) => id != self.answered && self.buries(card),
            None => false,
        }
    }

    /// Whether a card is buried: a new one, or a review whose day has come.
    #[tactic(auto, unfolding(crate::specs::Burials::is_buried))]
    fn buries(self, card: &Card) -> bool
        ensures { result ≡ is_buried self card.now }
    {
        if card.queue == 0 {
            return self.new_cards;
        }
        card.queue == 2 && self.buries_due(card.due)
    }

    /// Whether a review that is due on a day is buried.
    fn buries_due(self, due: i64) -> bool
        ensures { result ≡ (not (int_lt self.day.number due) && self.reviews) }
    {
        due <= self.day.number && self.reviews
    }
}

/// The queue that a buried or suspended card goes back to. It takes no memory.
pub fn restored_queue(card: &Card) -> i64
    ensures queue { result ≡ restored_queue card.now }
    ensures low { pos 0 ≤ℤ card.now.kind → pos 0 ≤ℤ result }
    ensures high { card.now.kind ≤ℤ pos 3 → result ≤ℤ pos 3 }
{
    if card.kind != 1 && card.kind != 3 {
        return card.kind;
    }
    if card.due < FIRST_DUE_SECOND { 3 } else { 1 }
}
