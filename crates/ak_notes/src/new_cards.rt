ghost use Rattle.std.specs.Prelude.{◌≡◌, ◌≤ℤ◌, pos, length, true, IfErr, IfOk, IfSome};
ghost use Rattle.ak_base.specs.Heads.{IsConfInRange, IsWithin};
ghost use Rattle.ak_cardgen.specs.Generation.{AreOrds};
ghost use Rattle.ak_edit.specs.Refusals.{AnswersBy, DeskCause};
ghost use Rattle.ak_edit_calls.specs.Calls.{AnswersFrom};
ghost use Rattle.ak_edit_calls.specs.NewNames.{IsIdFault, RefusesIdsFrom};
ghost use Rattle.ak_keep.specs.Keepers.{WhereTold};
ghost use Rattle.ak_keep.specs.Readings.{ReadsBy};
ghost use Rattle.ak_notes.specs.MadeNotes.{IsGivenFault};
ghost use Rattle.ak_notes.specs.NewCards.{AreNewIn, RefusesFronts, at_least_one, conf_after, first_after, new_card, place_after};

use ak_base::{Card, Conf, LAST_COUNT, List, Memory, Name, NoteType, Text};
use ak_cardgen::{GenFault, ords_of};
use ak_edit::{Change, DeskFault};
use ak_edit_calls::next_free;
use ak_keep::{KeepFault, Keeper};
use std::alloc::Global;

/// Of which note new cards are, in which deck, and at which place among the new cards.
#[derive(Clone, Copy, Debug)]
pub(crate) struct CardPlace {
    pub(crate) note: i64,
    pub(crate) deck: i64,
    pub(crate) due: i64,
}

/// The ords of the cards that a note of the type has, refused if a front is no template.
pub fn told_ords(
    alloc: Global,
    note_type: &NoteType,
    fields: &List<Text>,
) -> Result<List<i64>, DeskFault>
    ensures ords { IfOk result (AreOrds note_type.now fields.now) }
    ensures refused { AnswersBy (RefusesFronts note_type.now) result }
    ensures listed { IfErr result IsGivenFault }
{
    match ords_of(alloc, note_type, fields) {
        Ok(ords) => Ok(ords),
        Err(GenFault::Template(fault)) => Err(DeskFault::Template(fault)),
        Err(GenFault::Memory) => Err(DeskFault::Memory),
    }
}

/// New cards, and the name from which on the next one looks for its own.
#[derive(Drop)]
pub(crate) struct MadeCards {
    pub(crate) cards: List<Card>,
    pub(crate) next: Name,
}

/// These ords, and ord 0 if there are none.
pub(crate) fn at_least_one(ords: List<i64>) -> Result<List<i64>, Memory>
    ensures { IfOk result (λ made. made ≡ at_least_one ords) }
{
    let mut made = ords;
    if made.as_slice().is_empty() {
        made.push(0)?;
    }
    Ok(made)
}

/// A new card for each of the ords, the first with the first free id from `start` on and each other with the first free one
/// after the one before, refused if there are too few.
pub(crate) fn new_cards<K: Keeper>(
    keeper: &mut K,
    ords: &List<i64>,
    place: CardPlace,
    start: Name,
) -> Result<MadeCards, DeskFault>
    requires { pos 1 ≤ℤ start.id }
    ensures same { K.keeping keeper.new ≡ K.keeping keeper.old }
    ensures made { IfOk result (λ made. WhereTold (K.keeping keeper.old) (AreNewIn place start ords.now made.cards)) }
    ensures next { IfOk result (λ made. made.next ≡ first_after made.cards start) }
    ensures table { IfOk result (λ made. made.next.table ≡ start.table) }
    ensures id { IfOk result (λ made. pos 1 ≤ℤ made.next.id) }
    ensures refused { AnswersFrom K.Lookup keeper.old result (RefusesIdsFrom start (length ords.now)) }
    ensures listed { IfErr result IsIdFault }
    ensures cause { DeskCause (K.health keeper.old) (K.health keeper.new) result }
{
    let alloc = ords.allocator();
    let mut cards = List::new(alloc);
    let mut first = start;
    for ord in ords.as_slice() {
        let name = next_free(keeper, first)?;
        let card = new_card(alloc, place, *ord, name)?;
        cards.push(card)?;
        first = name.next();
    }
    Ok(MadeCards { cards, next: first })
}

/// A new card of this ord under this name.
fn new_card(alloc: Global, place: CardPlace, ord: i64, name: Name) -> Result<Card, Memory>
    ensures { IfOk result (λ card. card ≡ new_card place ord name.id) }
{
    let extra = Text::of(alloc, "")?;
    Ok(Card {
        id: name.id,
        nid: place.note,
        did: place.deck,
        ord,
        stamp: 0,
        usn: -1,
        kind: 0,
        queue: 0,
        due: place.due,
        ivl: 0,
        factor: 0,
        reps: 0,
        lapses: 0,
        left: 0,
        odue: 0,
        odid: 0,
        flags: 0,
        extra,
    })
}

/// The settings that are held.
pub(crate) fn held_conf<K: Keeper>(keeper: &mut K, alloc: Global) -> Result<Conf, KeepFault>
    requires held { (K.keeping keeper.old).headed.current ≡ true }
    ensures reads { ReadsBy K.Lookup keeper.old keeper.new result (λ h conf. IfSome h.head (λ head. conf ≡ head.conf)) }
    ensures range { IfOk result IsConfInRange }
{
    // For the proof alone: it says that what the keeper gives passes its check.
    let _checks = keeper.marked();
    Change::new(alloc).conf(keeper)
}

/// The settings after these cards came at the next place among the new cards.
pub(crate) fn conf_after(cards: &[Card], conf: Conf) -> Conf
    requires { IsConfInRange conf }
    ensures conf { result ≡ conf_after cards.now conf }
    ensures range { IsConfInRange result }
{
    match cards {
        [] => conf,
        [_, ..] => {
            let mut after = conf;
            after.next_pos = place_after(after.next_pos);
            after
        }
    }
}

/// The next place, which at the last one stays.
fn place_after(place: i64) -> i64
    requires { IsWithin (pos 0) (pos 2_147_483_647) place }
    ensures place { result ≡ place_after place }
    ensures range { IsWithin (pos 0) (pos 2_147_483_647) result }
{
    if place < LAST_COUNT {
        return place + 1;
    }
    place
}
