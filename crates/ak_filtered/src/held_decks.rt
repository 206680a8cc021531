// Which decks are held, and which of them are filtered.
ghost use Rattle.std.specs.Prelude.{◌≡◌, if◌then◌else◌, pos, IfOk, OnOk, is_some, false};
ghost use Rattle.std.specs.Option.{unwrap_or};
ghost use Rattle.ak_filtered.specs.HeldDecks.{NotesDeck, flags_in};
ghost use Rattle.ak_filtered.specs.HomeDecks.{filtered_at, flags_of, gone_home, is_away, is_in_filtered};
ghost use Rattle.ak_keep.specs.Readings.{ReadsBy};

use ak_base::{Card, Deck, Memory};
use ak_keep::{KeepFault, Keeper, read_decks};
use std::alloc::Global;
use std::collections::BTreeMap;

/// Of each deck that is held whether it is filtered, by its id.
#[derive(Debug, Drop)]
pub struct HeldDecks {
    pub(crate) flags: BTreeMap<i64, bool>,
}

impl HeldDecks {
    /// The decks that are held, read once.
    pub fn read<K: Keeper>(alloc: Global, keeper: &mut K) -> Result<HeldDecks, KeepFault>
        ensures reads { ReadsBy K.Lookup keeper.old keeper.new result (λ h decks. flags_of decks ≡ filtered_at h.rows) }
    {
        // For the proof alone: they say that what the keeper tells is well formed.
        let _checks = keeper.marked();
        let _formed = keeper.held();
        let decks = read_decks(alloc, keeper)?;
        let held = HeldDecks::of(alloc, decks.as_slice())?;
        Ok(held)
    }

    /// These decks. Each id comes once.
    fn of(alloc: Global, decks: &[Deck]) -> Result<HeldDecks, Memory>
        ensures { IfOk result (λ made. flags_of made ≡ flags_in decks.now) }
    {
        let mut made = HeldDecks {
            flags: BTreeMap::new(alloc),
        };
        let mut rest = decks;
        while let Some((deck, others)) = rest.split_first() {
            made.note(deck)?;
            rest = others;
        }
        Ok(made)
    }

    /// Notes the deck, if none of its id is noted.
    fn note(&mut self, deck: &Deck) -> Result<(), Memory>
        ensures { OnOk result (NotesDeck deck.now self.old self.new) }
    {
        if self.flags.contains_key(&deck.id) {
            return Ok(());
        }
        self.flags.insert(deck.id, deck.filtered)?;
        Ok(())
    }

    /// Whether a deck of this id is held.
    fn has(&self, id: i64) -> bool
        ensures { result ≡ is_some (flags_of self.now id) }
    {
        self.flags.contains_key(&id)
    }

    /// Whether the card lies in a filtered deck. One whose deck is not held counts as in deck 1.
    pub(crate) fn is_in_filtered(&self, card: &Card) -> bool
        ensures { result ≡ is_in_filtered (flags_of self.now) card.now }
    {
        match self.flags.get(&card.did) {
            Some(filtered) => *filtered,
            None => self.is_filtered(1),
        }
    }

    /// Whether a deck of this id is held and filtered.
    fn is_filtered(&self, id: i64) -> bool
        ensures { result ≡ unwrap_or (flags_of self.now id) false }
    {
        match self.flags.get(&id) {
            Some(filtered) => *filtered,
            None => false,
        }
    }

    /// The deck of this id if it is held, deck 1 if not.
    fn home_of(&self, id: i64) -> i64
        ensures { result ≡ if is_some (flags_of self.now id) then id else pos 1 }
    {
        if self.has(id) {
            return id;
        }
        1
    }

    /// The card at home, by these decks.
    pub fn gone_home(&self, card: Card) -> Card
        ensures { result ≡ gone_home (flags_of self.now) card }
    {
        if !is_away(&card) {
            return card;
        }
        let mut home = card;
        home.did = self.home_of(home.odid);
        home.due = home.odue;
        home.odue = 0;
        home.odid = 0;
        home
    }
}

/// Whether the card is away from home: it notes the deck that it came from, whatever deck it lies in.
pub fn is_away(card: &Card) -> bool
    ensures { result ≡ is_away card.now }
{
    card.odid > 0
}
