// The cards of a filtered deck: which go home, and where others move in.
ghost use Rattle.std.specs.Prelude.{◌≡◌, ◌≤◌, ◌||◌, is_some, IfOk, OnOk, length};
ghost use Rattle.ak_base.specs.declared.rows.Row.TheVariants as rows;
ghost use Rattle.ak_filtered.specs.Builds.{due_in, moved_in, refilled};
ghost use Rattle.ak_filtered.specs.Emptyings.{emptied, is_away_in};
ghost use Rattle.ak_filtered.specs.HomeDecks.{flags_of};
ghost use Rattle.ak_filtered.specs.Refills.{NotesDue, dues_of, no_dues, refill, refilled_row};
ghost use Rattle.ak_keep.specs.Readings.{ReadsBy};

use crate::held_decks::{HeldDecks, is_away};
use ak_base::{Card, Memory, Row, Table};
use ak_edit::Change;
use ak_keep::{KeepFault, Readable};
use ak_study::{RowChange, change_rows};
use std::alloc::Global;
use std::collections::BTreeMap;

/// The due of the first card that moves in. Those after it count up, and the limit of a plan keeps them below 0.
const FIRST_DUE: i64 = -100_000;

/// The dues of the cards that move in, by their ids.
#[derive(Debug, Drop)]
pub(crate) struct Dues {
    pub(crate) by_card: BTreeMap<i64, i64>,
}

impl Dues {
    /// No cards.
    pub(crate) fn none(alloc: Global) -> Dues
        ensures { dues_of result ≡ no_dues }
    {
        Dues {
            by_card: BTreeMap::new(alloc),
        }
    }

    /// The dues of these cards in their order.
    pub(crate) fn of(alloc: Global, cards: &[i64]) -> Result<Dues, Memory>
        requires { length cards.now ≤ 99_999 }
        ensures { IfOk result (λ dues. dues_of dues ≡ due_in cards.now) }
    {
        let mut dues = Dues::none(alloc);
        let mut due = FIRST_DUE;
        let mut rest = cards;
        while let Some((id, others)) = rest.split_first() {
            dues.note(id, due)?;
            due += 1;
            rest = others;
        }
        Ok(dues)
    }

    /// Notes the due of a card, if none of it is noted.
    fn note(&mut self, id: &i64, due: i64) -> Result<(), Memory>
        ensures { OnOk result (NotesDue id.now due self.old self.new) }
    {
        if self.by_card.contains_key(id) {
            return Ok(());
        }
        self.by_card.insert(*id, due)?;
        Ok(())
    }

    /// The due of the card of this id, if it moves in.
    fn at(&self, id: i64) -> Option<i64>
        ensures { result ≡ dues_of self.now id }
    {
        match self.by_card.get(&id) {
            Some(due) => Some(*due),
            None => None,
        }
    }
}

/// The change that sends the cards of a deck home, and moves those that have a due into it.
#[derive(Drop)]
pub(crate) struct Refill<'a> {
    pub(crate) deck: i64,
    pub(crate) decks: &'a HeldDecks,
    pub(crate) dues: &'a Dues,
}

/// Puts all cards that the refill changes.
pub(crate) fn put_refilled<R: Readable>(
    from: &mut R,
    change: &mut Change,
    by: &Refill<'_>,
) -> Result<(), KeepFault>
    ensures reads { ReadsBy R.Lookup from.old from.new result (λ h _.
        change.new ≡ refill by.now.deck (flags_of by.now.decks.now) (dues_of by.now.dues.now) h.rows change.old) }
{
    change_rows(from, change, Table::Card, by)
}

impl<'a> RowChange for Refill<'a> {
    ghost use Rattle.ak_filtered.specs.HomeDecks.{flags_of};
    ghost use Rattle.ak_filtered.specs.Refills.{dues_of, refilled_row};

    ghost change = { λ by. refilled_row by.deck (flags_of by.decks.now) (dues_of by.dues.now) };

    fn apply(&self, row: &Row) -> Result<Option<Row>, Memory> {
        match row {
            Row::Card(card) => self.refilled_row(card),
            _ => Ok(None),
        }
    }
}

impl<'a> Refill<'a> {
    /// The card after the refill, if that changes it.
    fn refilled_row(&self, card: &Card) -> Result<Option<Row>, Memory>
        ensures { IfOk result (λ made. made ≡ refilled_row self.now.deck (flags_of self.now.decks.now) (dues_of self.now.dues.now) (rows.Card card.now)) }
    {
        let due = self.dues.at(card.id);
        if !self.changes(card, due) {
            return Ok(None);
        }
        let copy = card.copy()?;
        Ok(Some(Row::Card(self.refilled(copy, due))))
    }

    /// Whether the refill changes the card, which has this due.
    fn changes(&self, card: &Card, due: Option<i64>) -> bool
        ensures { result ≡ (is_away_in self.now.deck card.now || is_some due) }
    {
        is_away_in(self.deck, card) || due.is_some()
    }

    /// The card at home if it was away in the deck, and then in the deck if it has a due.
    fn refilled(&self, card: Card, due: Option<i64>) -> Card
        requires { due ≡ dues_of self.now.dues.now card.id }
        ensures { result ≡ refilled self.now.deck (flags_of self.now.decks.now) (dues_of self.now.dues.now) card }
    {
        let home = emptied(self.deck, self.decks, card);
        match due {
            Some(due) => moved_in(self.deck, due, home),
            None => home,
        }
    }
}

/// The card once the deck was emptied.
fn emptied(deck: i64, decks: &HeldDecks, card: Card) -> Card
    ensures { result ≡ emptied deck (flags_of decks.now) card }
{
    if is_away_in(deck, &card) {
        return decks.gone_home(card);
    }
    card
}

/// Whether the card lies in the deck and is away from home.
pub(crate) fn is_away_in(deck: i64, card: &Card) -> bool
    ensures { result ≡ is_away_in deck card.now }
{
    card.did == deck && is_away(card)
}

/// The card in the deck, with this due. It notes where it came from.
fn moved_in(deck: i64, due: i64, card: Card) -> Card
    ensures { result ≡ moved_in deck due card }
{
    let mut made = card;
    made.odid = made.did;
    made.odue = made.due;
    made.did = deck;
    made.due = due;
    made
}
