ghost use Rattle.std.specs.Prelude.{◌≡◌, true, false, IfErr, IfOk, OnErr, OnOk, Some, map};
ghost use Rattle.std.specs.List.{AllByRecursion};
ghost use Rattle.ak_base.specs.Heads.{IsConfInRange};
ghost use Rattle.ak_base.specs.declared.cards.Card.{Card as CardRow};
ghost use Rattle.ak_base.specs.declared.names.Table.TheVariants as tables;
ghost use Rattle.ak_edit.specs.Refusals.{AnswersBy, DeskCause};
ghost use Rattle.ak_keep.specs.Keepers.{WhereHeld, WhereTold, is_marked};
ghost use Rattle.ak_keep.specs.Lookups.{deck_at, note_type_at};
ghost use Rattle.ak_merge.specs.Holdings.{name_in};
ghost use Rattle.ak_merge.specs.Tags.{IsTagName};
ghost use Rattle.ak_notes.specs.Additions.{DoesAdd, IsAddFault, IsMadeFor, IsMadeOf, IsMadeUnder, IsMadeWith, RefusesAddition, RefusesForDeck, RefusesMaking, RefusesOfType, RefusesShown, RefusesToAdd, added_row};
ghost use Rattle.ak_notes.specs.MadeNotes.{AnswersIn, IsMakingFault, IsMissingIn};
ghost use Rattle.ak_notes.specs.NewCards.{RefusesIds, at_least_one};

use crate::given_texts::check_given;
use crate::made_notes::{MadeNote, put_made};
use crate::new_cards::{CardPlace, at_least_one, conf_after, held_conf, new_cards, told_ords};
use crate::note_rows::{blank_note, guid_of, with_texts};
use ak_base::{Conf, Deck, List, Memory, Name, Note, NoteType, Table, Text};
use ak_edit::{Change, DeskFault};
use ak_edit_calls::{first_name, new_name};
use ak_keep::{Keeper, deck_at, note_type_at};
use ak_undo::UndoList;
use std::alloc::Global;

/// A note that is to be added.
#[derive(Debug, Drop)]
pub struct NewNote {
    pub note_type: i64,
    /// The deck of its cards.
    pub deck: i64,
    /// What it is called on every device. If none is given, one is made of the note's id and of `chance`.
    pub guid: Option<Text>,
    /// One for each field of the type, without the byte 0x1F.
    pub fields: List<Text>,
    /// In any order and also more than once, each of 1 to 512 bytes over the space.
    pub tags: List<Text>,
    pub chance: u64,
}

/// The ids of a note that was added and of its cards, by ord.
#[derive(Debug, Drop)]
pub struct Added {
    pub note: i64,
    pub cards: List<i64>,
}

/// Adds a note and its cards, at a moment in milliseconds. The cards are those that its type makes of its fields, and one of
/// ord 0 if the type makes none. They come into the deck at the next place among the new cards.
///
/// It is refused if the type is not held, then if the deck is not; then if the fields are not as many as the type's, for a tag
/// or a field out of its range, if no id is free for the note, for a front that is no template, if too few ids are free for the
/// cards, for a made row that fails its check, and for a stamp or a moment that can't rise.
pub fn add_note<K: Keeper>(
    keeper: &mut K,
    steps: &mut UndoList,
    new: &NewNote,
    at: i64,
) -> Result<Added, DeskFault>
    requires unmarked { is_marked (K.keeping keeper.old) ≡ false }
    requires held { (K.keeping keeper.old).headed.current ≡ true }
    ensures ok { IfOk result (DoesAdd at new.now (K.keeping keeper.old) (K.keeping keeper.new) steps.old steps.new) }
    ensures err { OnErr result (K.keeping keeper.new ≡ K.keeping keeper.old) }
    ensures kept { OnErr result (steps.new ≡ steps.old) }
    ensures stays { (K.keeping keeper.new).headed ≡ (K.keeping keeper.old).headed }
    ensures refused { WhereHeld (K.keeping keeper.old) (λ c. AnswersBy (RefusesAddition at new.now c) result) }
    ensures listed { IfErr result (IsAddFault new.now) }
    ensures cause { DeskCause (K.health keeper.old) (K.health keeper.new) result }
{
    let made = read_addition(keeper, new, at)?;
    let added = added_of(steps.allocator(), &made)?;
    let mut change = Change::new(steps.allocator());
    put_made(&mut change, made, &new.tags)?;
    change.finish(keeper, steps, at)?;
    Ok(added)
}

/// The ids of the note and of its cards.
fn added_of(alloc: Global, made: &MadeNote) -> Result<Added, Memory>
    ensures note { IfOk result (λ added. added.note ≡ made.now.note.id) }
    ensures cards { IfOk result (λ added. added.cards ≡ map (λ (card : CardRow). card.id) made.now.cards) }
{
    let mut cards = List::new(alloc);
    for card in made.cards.as_slice() {
        cards.push(card.id)?;
    }
    Ok(Added {
        note: made.note.id,
        cards,
    })
}

/// What is made of the note, refused for the first of its tests that holds. Nothing is put yet, and the tests of rows
/// and stamps are left to the edit's end.
pub fn read_addition<K: Keeper>(
    keeper: &mut K,
    new: &NewNote,
    at: i64,
) -> Result<MadeNote, DeskFault>
    requires held { (K.keeping keeper.old).headed.current ≡ true }
    ensures same { K.keeping keeper.new ≡ K.keeping keeper.old }
    ensures made { IfOk result (λ made. WhereTold (K.keeping keeper.old) (IsMadeOf at new.now made)) }
    ensures range { IfOk result (λ made. IsConfInRange made.conf) }
    ensures names { OnOk result (AllByRecursion IsTagName new.now.tags) }
    ensures refused { AnswersIn K.Lookup keeper.old result (RefusesToAdd at new.now) }
    ensures listed { IfErr result (IsAddFault new.now) }
    ensures cause { DeskCause (K.health keeper.old) (K.health keeper.new) result }
{
    let note_type = held_type(keeper, new.note_type)?;
    read_for_type(keeper, &note_type, new, at)
}

/// The note type of this id, refused if it is not held.
pub fn held_type<K: Keeper>(keeper: &mut K, id: i64) -> Result<NoteType, DeskFault>
    ensures same { K.keeping keeper.new ≡ K.keeping keeper.old }
    ensures found { IfOk result (λ found. WhereTold (K.keeping keeper.old) (λ h. note_type_at h.rows id ≡ Some found)) }
    ensures missing { IfErr result (IsMissingIn (K.keeping keeper.old) (λ rows. note_type_at rows id) (name_in tables.NoteType id)) }
    ensures cause { DeskCause (K.health keeper.old) (K.health keeper.new) result }
{
    let found = note_type_at(keeper, id)?;
    match found {
        Some(note_type) => Ok(note_type),
        None => Err(DeskFault::NoSuch(Name {
            table: Table::NoteType,
            id,
        })),
    }
}

/// What is made of the note for its type, refused if the deck is not held.
fn read_for_type<K: Keeper>(
    keeper: &mut K,
    note_type: &NoteType,
    new: &NewNote,
    at: i64,
) -> Result<MadeNote, DeskFault>
    requires held { (K.keeping keeper.old).headed.current ≡ true }
    ensures same { K.keeping keeper.new ≡ K.keeping keeper.old }
    ensures made { IfOk result (λ made. WhereTold (K.keeping keeper.old) (IsMadeFor at note_type.now new.now made)) }
    ensures range { IfOk result (λ made. IsConfInRange made.conf) }
    ensures names { OnOk result (AllByRecursion IsTagName new.now.tags) }
    ensures refused { AnswersIn K.Lookup keeper.old result (RefusesForDeck at new.now note_type.now) }
    ensures listed { IfErr result (IsAddFault new.now) }
    ensures cause { DeskCause (K.health keeper.old) (K.health keeper.new) result }
{
    let deck = held_deck(keeper, new.deck)?;
    drop(deck);
    read_for_deck(keeper, note_type, new, at)
}

/// The deck of this id, refused if it is not held.
fn held_deck<K: Keeper>(keeper: &mut K, id: i64) -> Result<Deck, DeskFault>
    ensures same { K.keeping keeper.new ≡ K.keeping keeper.old }
    ensures found { IfOk result (λ found. WhereTold (K.keeping keeper.old) (λ h. deck_at h.rows id ≡ Some found)) }
    ensures missing { IfErr result (IsMissingIn (K.keeping keeper.old) (λ rows. deck_at rows id) (name_in tables.Deck id)) }
    ensures cause { DeskCause (K.health keeper.old) (K.health keeper.new) result }
{
    let found = deck_at(keeper, id)?;
    match found {
        Some(deck) => Ok(deck),
        None => Err(DeskFault::NoSuch(Name {
            table: Table::Deck,
            id,
        })),
    }
}

/// What is made of the note for its type and its deck, refused if its texts are.
fn read_for_deck<K: Keeper>(
    keeper: &mut K,
    note_type: &NoteType,
    new: &NewNote,
    at: i64,
) -> Result<MadeNote, DeskFault>
    requires held { (K.keeping keeper.old).headed.current ≡ true }
    ensures same { K.keeping keeper.new ≡ K.keeping keeper.old }
    ensures made { IfOk result (λ made. WhereTold (K.keeping keeper.old) (IsMadeFor at note_type.now new.now made)) }
    ensures range { IfOk result (λ made. IsConfInRange made.conf) }
    ensures names { OnOk result (AllByRecursion IsTagName new.now.tags) }
    ensures refused { AnswersIn K.Lookup keeper.old result (RefusesOfType at new.now note_type.now) }
    ensures listed { IfErr result IsMakingFault }
    ensures cause { DeskCause (K.health keeper.old) (K.health keeper.new) result }
{
    check_given(note_type, &new.fields, &new.tags)?;
    make_addition(keeper, note_type, new, at)
}

/// What is made of the note, refused if there is no id for it.
fn make_addition<K: Keeper>(
    keeper: &mut K,
    note_type: &NoteType,
    new: &NewNote,
    at: i64,
) -> Result<MadeNote, DeskFault>
    requires held { (K.keeping keeper.old).headed.current ≡ true }
    ensures same { K.keeping keeper.new ≡ K.keeping keeper.old }
    ensures made { IfOk result (λ made. WhereTold (K.keeping keeper.old) (IsMadeFor at note_type.now new.now made)) }
    ensures range { IfOk result (λ made. IsConfInRange made.conf) }
    ensures refused { AnswersIn K.Lookup keeper.old result (RefusesMaking at new.now note_type.now) }
    ensures listed { IfErr result IsMakingFault }
    ensures cause { DeskCause (K.health keeper.old) (K.health keeper.new) result }
{
    let name = new_name(keeper, Table::Note, at)?;
    make_named(keeper, &Making { note_type, new, at }, name)
}

/// A note that is to be added, its type, and the moment.
#[derive(Drop)]
struct Making<'a> {
    note_type: &'a NoteType,
    new: &'a NewNote,
    at: i64,
}

/// What is made of the note under this name, refused if a front is no template.
fn make_named<K: Keeper>(keeper: &mut K, making: &Making, name: Name) -> Result<MadeNote, DeskFault>
    requires held { (K.keeping keeper.old).headed.current ≡ true }
    ensures same { K.keeping keeper.new ≡ K.keeping keeper.old }
    ensures made { IfOk result (λ made. WhereTold (K.keeping keeper.old) (IsMadeUnder making.now.at making.now.note_type.now making.now.new.now name made)) }
    ensures range { IfOk result (λ made. IsConfInRange made.conf) }
    ensures refused { AnswersIn K.Lookup keeper.old result (RefusesShown making.now.at making.now.new.now making.now.note_type.now) }
    ensures listed { IfErr result IsMakingFault }
    ensures cause { DeskCause (K.health keeper.old) (K.health keeper.new) result }
{
    let told = told_ords(
        making.new.fields.allocator(),
        making.note_type,
        &making.new.fields,
    )?;
    make_told(keeper, making, name, told)
}

/// What is made of the note under this name whose cards have these ords, refused if there are too few ids for them.
fn make_told<K: Keeper>(
    keeper: &mut K,
    making: &Making,
    name: Name,
    told: List<i64>,
) -> Result<MadeNote, DeskFault>
    requires held { (K.keeping keeper.old).headed.current ≡ true }
    ensures same { K.keeping keeper.new ≡ K.keeping keeper.old }
    ensures made { IfOk result (λ made. WhereTold (K.keeping keeper.old) (IsMadeWith making.now.at making.now.note_type.now making.now.new.now name told made)) }
    ensures range { IfOk result (λ made. IsConfInRange made.conf) }
    ensures refused { AnswersIn K.Lookup keeper.old result (RefusesIds making.now.at (at_least_one told)) }
    ensures listed { IfErr result IsMakingFault }
    ensures cause { DeskCause (K.health keeper.old) (K.health keeper.new) result }
{
    let alloc = making.new.fields.allocator();
    let ords = at_least_one(told)?;
    let before = held_conf(keeper, alloc)?;
    let place = place_for(making.new, name, &before);
    let note = note_of(alloc, making.note_type, making.new, name)?;
    let start = first_name(Table::Card, making.at);
    let made = new_cards(keeper, &ords, place, start)?;
    let cards = made.cards;
    let conf = conf_after(cards.as_slice(), before);
    Ok(MadeNote { note, cards, conf })
}

/// The place of the cards of the note of this name.
fn place_for(new: &NewNote, name: Name, before: &Conf) -> CardPlace
    ensures { result ≡ record { note = name.id; deck = new.now.deck; due = before.now.next_pos } }
{
    CardPlace {
        note: name.id,
        deck: new.deck,
        due: before.next_pos,
    }
}

/// The note of this name with its texts.
fn note_of(alloc: Global, note_type: &NoteType, new: &NewNote, name: Name) -> Result<Note, Memory>
    ensures { IfOk result (λ note. note ≡ added_row note_type.now new.now name.id) }
{
    let guid = guid_of(alloc, &new.guid, name.id, new.chance)?;
    let blank = blank_note(alloc, name.id, new.note_type, guid)?;
    let note = with_texts(blank, note_type, &new.fields, &new.tags)?;
    Ok(note)
}
