// The cards that a note lacks are made: for each call that changes what a note shows.
ghost use Rattle.std.specs.Prelude.{◌≡◌, ◌++◌, true, IfErr, IfOk, IfSome, OnOk};
ghost use Rattle.ak_base.specs.Heads.{IsConfInRange};
ghost use Rattle.ak_base.specs.declared.names.Table.TheVariants as tables;
ghost use Rattle.ak_edit.specs.Refusals.{DeskCause};
ghost use Rattle.ak_edit_calls.specs.Calls.{has_id};
ghost use Rattle.ak_edit_calls.specs.NewNames.{IsIdFault, first_name};
ghost use Rattle.ak_keep.specs.Lookups.{card_at};
ghost use Rattle.ak_keep.specs.Readings.{ReadsBy};
ghost use Rattle.ak_notes.specs.LackingNotes.{AreMissingIn, IsReady, RefusesMissingIds, cards_held, deck_in, first_deck, held_ord, held_ords, lacked_ords, missing_from, missing_place, next_after, next_at, or_first};
ghost use Rattle.ak_notes.specs.MadeNotes.{AnswersIn, MakesIn};

use crate::new_cards::{CardPlace, at_least_one, conf_after, held_conf, new_cards};
use ak_base::{Card, Conf, List, Memory, Name, Table};
use ak_edit::DeskFault;
use ak_edit_calls::first_name;
use ak_keep::{KeepFault, Keeper, Lookup, card_at};
use std::alloc::Global;

/// A note as an edit has it so far, and what its fields show.
#[derive(Debug, Drop)]
pub struct LackingNote {
    pub note: i64,
    pub held: HeldCards,
    /// The ords of the cards that its fields show.
    pub shown: List<i64>,
    /// Whether it gets a card of ord 0 if it has none and shows none.
    pub needs_card: bool,
}

/// The cards of a note: their ords, and the deck for those that it lacks.
#[derive(Debug, Drop)]
pub struct HeldCards {
    pub ords: List<i64>,
    pub deck: i64,
}

/// Where the next new cards of an edit go.
#[derive(Debug, Drop)]
pub struct NextCards {
    /// The name from which on the first of them looks for its own.
    pub first: Name,
    /// The settings as the edit has them so far, with the next place among the new cards.
    pub conf: Conf,
}

/// The cards that were made for a note, and where the next ones go.
#[derive(Debug, Drop)]
pub struct MissingCards {
    pub cards: List<Card>,
    pub next: NextCards,
}

/// Makes the cards that a note lacks, by ord, all at one place among the new cards, and refuses if too few ids are free
/// for them. It looks for ids in the keeper: one whose row the edit removes is not free before the edit's end.
pub fn missing_cards<K: Keeper>(
    keeper: &mut K,
    lacking: &LackingNote,
    next: NextCards,
) -> Result<MissingCards, DeskFault>
    requires ready { IsReady next }
    ensures same { K.keeping keeper.new ≡ K.keeping keeper.old }
    ensures made { MakesIn K.Lookup keeper.old result (AreMissingIn lacking.now next) }
    ensures next { IfOk result (λ made. made.next ≡ next_after made.cards next) }
    ensures ready { IfOk result (λ made. IsReady made.next) }
    ensures refused { AnswersIn K.Lookup keeper.old result (RefusesMissingIds lacking.now next) }
    ensures listed { IfErr result IsIdFault }
    ensures cause { DeskCause (K.health keeper.old) (K.health keeper.new) result }
{
    let ords = lacked_ords(lacking)?;
    let place = missing_place(lacking, &next);
    let NextCards { first, conf } = next;
    let made = new_cards(keeper, &ords, place, first)?;
    let conf = conf_after(made.cards.as_slice(), conf);
    Ok(MissingCards {
        cards: made.cards,
        next: NextCards {
            first: made.next,
            conf,
        },
    })
}

/// The ords of the cards that the note lacks.
fn lacked_ords(lacking: &LackingNote) -> Result<List<i64>, Memory>
    ensures { IfOk result (λ ords. ords ≡ lacked_ords lacking.now) }
{
    let there = lacking.held.ords.as_slice();
    let missing = missing_from(lacking.shown.allocator(), there, lacking.shown.as_slice())?;
    or_first(lacking.needs_card, there, missing)
}

/// The ords that are missing from those that are there.
fn missing_from(alloc: Global, there: &[i64], ords: &[i64]) -> Result<List<i64>, Memory>
    ensures { IfOk result (λ made. made ≡ missing_from there.now ords.now) }
{
    let mut missing = List::new(alloc);
    for ord in ords {
        if !has_id(there, *ord) {
            missing.push(*ord)?;
        }
    }
    Ok(missing)
}

/// Whether a number is one of these.
fn has_id(ids: &[i64], id: i64) -> bool
    ensures { result ≡ has_id ids.now id }
{
    for other in ids {
        if *other == id {
            return true;
        }
    }
    false
}

/// The missing ords, and ord 0 if a card is needed and there is none.
fn or_first(needs: bool, there: &[i64], missing: List<i64>) -> Result<List<i64>, Memory>
    ensures { IfOk result (λ made. made ≡ or_first needs there.now missing) }
{
    if needs && there.is_empty() {
        return at_least_one(missing);
    }
    Ok(missing)
}

/// The place of the cards that the note lacks.
fn missing_place(lacking: &LackingNote, next: &NextCards) -> CardPlace
    ensures { result ≡ missing_place lacking.now next.now }
{
    CardPlace {
        note: lacking.note,
        deck: lacking.held.deck,
        due: next.conf.next_pos,
    }
}

/// Where the new cards of an edit at this moment go at first, with the settings that are held.
pub fn next_cards<K: Keeper>(keeper: &mut K, alloc: Global, at: i64) -> Result<NextCards, KeepFault>
    requires held { (K.keeping keeper.old).headed.current ≡ true }
    ensures reads { ReadsBy K.Lookup keeper.old keeper.new result (λ h next. IfSome h.head (λ head. next ≡ next_at at head.conf)) }

    // Where they look for their ids is known of a keeper that does not tell too.
    ensures first { IfOk result (λ next. next.first ≡ first_name tables.Card at) }
    ensures ready { IfOk result IsReady }
{
    let conf = held_conf(keeper, alloc)?;
    Ok(next_at(at, conf))
}

/// Where new cards go at this moment, with these settings.
fn next_at(at: i64, conf: Conf) -> NextCards
    requires { IsConfInRange conf }
    ensures next { result ≡ next_at at conf }
    ensures ready { IsReady result }
{
    NextCards {
        first: first_name(Table::Card, at),
        conf,
    }
}

/// The ords of the cards of a note, and the deck of the one of the least id, deck 1 if it has none.
pub fn held_cards<R: Lookup>(from: &mut R, alloc: Global, note: i64) -> Result<HeldCards, KeepFault>
    ensures reads { ReadsBy R.Lookup from.old from.new result (λ h made. made ≡ cards_held h.rows note) }
{
    let ids = from.cards_of(note)?;
    let ords = held_ords(from, alloc, ids.as_slice())?;
    let deck = first_deck(from, ids.as_slice())?;
    Ok(HeldCards { ords, deck })
}

/// The ords of the cards of these ids.
fn held_ords<R: Lookup>(from: &mut R, alloc: Global, ids: &[i64]) -> Result<List<i64>, KeepFault>
    ensures reads { ReadsBy R.Lookup from.old from.new result (λ h ords. ords ≡ held_ords h.rows ids.now) }
{
    let mut ords = List::new(alloc);
    for id in ids {
        add_ord(from, &mut ords, *id)?;
    }
    Ok(ords)
}

/// Adds the ord of the card of this id, if it is held.
fn add_ord<R: Lookup>(from: &mut R, ords: &mut List<i64>, id: i64) -> Result<(), KeepFault>
    ensures reads { ReadsBy R.Lookup from.old from.new result (λ h _. ords.new ≡ ords.old ++ held_ord (card_at h.rows id)) }
{
    let found = card_at(from, id)?;
    add_found(ords, found)?;
    Ok(())
}

/// Adds the ord of the card, if there is one.
fn add_found(ords: &mut List<i64>, found: Option<Card>) -> Result<(), Memory>
    ensures { OnOk result (ords.new ≡ ords.old ++ held_ord found) }
{
    match found {
        Some(card) => ords.push(card.ord),
        None => Ok(()),
    }
}

/// The deck of the card of the first of these ids, deck 1 if there is none.
fn first_deck<R: Lookup>(from: &mut R, ids: &[i64]) -> Result<i64, KeepFault>
    ensures reads { ReadsBy R.Lookup from.old from.new result (λ h deck. deck ≡ first_deck h.rows ids.now) }
{
    match ids.first() {
        Some(id) => deck_of(from, *id),
        None => Ok(1),
    }
}

/// The deck of the card of this id, deck 1 if there is none.
fn deck_of<R: Lookup>(from: &mut R, id: i64) -> Result<i64, KeepFault>
    ensures reads { ReadsBy R.Lookup from.old from.new result (λ h deck. deck ≡ deck_in (card_at h.rows id)) }
{
    let found = card_at(from, id)?;
    Ok(deck_in(&found))
}

/// The deck of the card, deck 1 if there is none.
fn deck_in(found: &Option<Card>) -> i64
    ensures { result ≡ deck_in found.now }
{
    match found {
        Some(card) => card.did,
        None => 1,
    }
}
