// What an edit of a note type makes of the notes of the type and of the cards that they have.
ghost use Rattle.std.specs.Prelude.{◌≡◌, ◌++◌, [], ◌∷◌, map, None, IfOk, OnOk};
ghost use Rattle.std.specs.List.{flat_map, slice_index_or};
ghost use Rattle.ak_base.specs.declared.cards.Card.{Card as CardRow};
ghost use Rattle.ak_cardgen.specs.Generation.{AreFrontsOf};
ghost use Rattle.ak_keep.specs.Keepers.{KeepCause, WhereTold};
ghost use Rattle.ak_keep.specs.Lookups.{card_at};
ghost use Rattle.ak_keep.specs.Readings.{ReadsBy};
ghost use Rattle.ak_notes.specs.Deletions.{without_cards};
ghost use Rattle.ak_notes.specs.MadeNotes.{cards_over};
ghost use Rattle.ak_types.specs.GivenTypes.{sides_fault};
ghost use Rattle.ak_types.specs.RetypedCards.{IsLackingWith, IsRetypedBy, RetypesBy, RetypesHeld, deck_of, note_of, seen_cards};
ghost use Rattle.ak_types.specs.RetypedRows.{kept_card, kept_cards, kept_with, moved_field, moved_fields, ord_after, with_ord};

use crate::place_maps::moved_ord;
use crate::type_edits::TypeEdit;
use crate::type_tests::templates_map;
use ak_base::{Card, List, Memory, Note, NoteType, Row, Table, Text};
use ak_cardgen::{Fronts, GenFault, face_of};
use ak_edit::Change;
use ak_keep::{KeepFault, Keeper, Walk, card_at};
use ak_notes::{HeldCards, LackingNote, put_cards, remove_cards, with_fields};
use std::alloc::Global;

/// The changes of the notes of a type and of the cards that they have, and what each of these notes then lacks.
#[derive(Drop)]
pub(crate) struct Retyped {
    pub(crate) change: Change,
    pub(crate) lacking: List<LackingNote>,
}

/// An edit of a note type, the type that is held, and the fronts of the given one, read.
#[derive(Drop)]
struct Retyping<'a> {
    given: &'a TypeEdit,
    old: &'a NoteType,
    fronts: Fronts,
}

/// Makes the changes of all notes of the type, by ascending id. The sides of the given type can be read.
pub(crate) fn retype_notes<K: Keeper>(
    keeper: &mut K,
    given: &TypeEdit,
    old: &NoteType,
) -> Result<Retyped, KeepFault>
    requires sides { sides_fault given.now.note_type.templates ≡ None }
    ensures same { K.keeping keeper.new ≡ K.keeping keeper.old }
    ensures made { IfOk result (λ made. WhereTold (K.keeping keeper.old)
        (λ h. IsRetypedBy given.now old.now h.rows made)) }
    ensures cause { KeepCause (K.health keeper.old) (K.health keeper.new) result }
{
    let alloc = given.from_fields.allocator();
    let fronts = read_fronts(alloc, &given.note_type)?;
    let mut made = Retyped {
        change: Change::new(alloc),
        lacking: List::new(alloc),
    };
    retype_held(keeper, &mut made, &Retyping { given, old, fronts })?;
    Ok(made)
}

/// The fronts of a type whose sides can be read.
fn read_fronts(alloc: Global, note_type: &NoteType) -> Result<Fronts, Memory>
    requires { sides_fault note_type.now.templates ≡ None }
    ensures { IfOk result (AreFrontsOf note_type.now) }
{
    match Fronts::of(alloc, note_type) {
        Ok(fronts) => Ok(fronts),
        Err(GenFault::Memory) => Err(Memory),
        Err(GenFault::Template(_)) => unreachable!(),
    }
}

/// Makes the changes of the notes of the type that are held.
fn retype_held<K: Keeper>(
    keeper: &mut K,
    made: &mut Retyped,
    retyping: &Retyping,
) -> Result<(), KeepFault>
    requires fronts { AreFrontsOf retyping.now.given.now.note_type retyping.now.fronts }
    ensures same { K.keeping keeper.new ≡ K.keeping keeper.old }
    ensures ok { OnOk result (RetypesHeld K.Lookup keeper.old retyping.now.given.now retyping.now.old.now
        made.old made.new) }
    ensures cause { KeepCause (K.health keeper.old) (K.health keeper.new) result }
{
    let mut walk = Walk::over(Table::Note);
    'pages: while !walk.is_done() {
        let page = walk.next(keeper)?;
        retype_rows(keeper, made, retyping, page.into_vec())?;
    }
    Ok(())
}

/// Makes the changes of those of the rows that are notes of the type.
fn retype_rows<K: Keeper>(
    keeper: &mut K,
    made: &mut Retyped,
    retyping: &Retyping,
    rows: Vec<Row>,
) -> Result<(), KeepFault>
    requires fronts { AreFrontsOf retyping.now.given.now.note_type retyping.now.fronts }
    ensures same { K.keeping keeper.new ≡ K.keeping keeper.old }
    ensures ok { OnOk result (RetypesBy K.Lookup keeper.old retyping.now.given.now retyping.now.old.now
        (flat_map (note_of retyping.now.given.now.note_type.id) rows.items) made.old made.new) }
    ensures cause { KeepCause (K.health keeper.old) (K.health keeper.new) result }
{
    for row in rows {
        retype_row(keeper, made, retyping, row)?;
    }
    Ok(())
}

/// Makes the changes of the row, if it is a note of the type.
fn retype_row<K: Keeper>(
    keeper: &mut K,
    made: &mut Retyped,
    retyping: &Retyping,
    row: Row,
) -> Result<(), KeepFault>
    requires fronts { AreFrontsOf retyping.now.given.now.note_type retyping.now.fronts }
    ensures same { K.keeping keeper.new ≡ K.keeping keeper.old }
    ensures ok { OnOk result (RetypesBy K.Lookup keeper.old retyping.now.given.now retyping.now.old.now
        (note_of retyping.now.given.now.note_type.id row) made.old made.new) }
    ensures cause { KeepCause (K.health keeper.old) (K.health keeper.new) result }
{
    match row {
        Row::Note(note) => {
            if note.mid == retyping.given.note_type.id {
                return retype_note(keeper, made, retyping, note);
            }
            Ok(())
        }
        other => {
            drop(other);
            Ok(())
        }
    }
}

/// Makes the changes of a note of the type and of its cards, and notes what it lacks.
fn retype_note<K: Keeper>(
    keeper: &mut K,
    made: &mut Retyped,
    retyping: &Retyping,
    note: Note,
) -> Result<(), KeepFault>
    requires fronts { AreFrontsOf retyping.now.given.now.note_type retyping.now.fronts }
    ensures same { K.keeping keeper.new ≡ K.keeping keeper.old }
    ensures ok { OnOk result (RetypesBy K.Lookup keeper.old retyping.now.given.now retyping.now.old.now
        (note ∷ []) made.old made.new) }
    ensures cause { KeepCause (K.health keeper.old) (K.health keeper.new) result }
{
    let fields = moved_fields(retyping.given, &note)?;
    let ids = keeper.cards_of(note.id)?;
    let kept = kept_cards(keeper, retyping, ids.as_slice())?;
    let lacking = lacking_note(retyping, &fields, note.id, kept.as_slice())?;
    made.lacking.push(lacking)?;
    made.change.put(Row::Note(with_fields(note, &retyping.given.note_type, &fields)?))?;
    put_kept(&mut made.change, ids.as_slice(), kept)?;
    Ok(())
}

/// The fields of the note after the edit.
fn moved_fields(given: &TypeEdit, note: &Note) -> Result<List<Text>, Memory>
    ensures { IfOk result (λ fields. fields ≡ moved_fields given.now note.now) }
{
    let alloc = given.from_fields.allocator();
    let old = note.field_list(alloc)?;
    let mut fields = List::new(alloc);
    for from in given.from_fields.as_slice() {
        fields.push(moved_field(alloc, old.as_slice(), *from)?)?;
    }
    Ok(fields)
}

/// The text of a new field: that of the old one that it is, an empty one if it is new or if the note has no such field.
fn moved_field(alloc: Global, fields: &[&str], from: Option<u16>) -> Result<Text, Memory>
    ensures { IfOk result (λ text. text ≡ moved_field (map (λ field. field.now) fields.now) from) }
{
    match from {
        Some(place) => Text::of(alloc, field_at(fields, place as usize)),
        None => Text::of(alloc, ""),
    }
}

/// The field at a place, an empty one if there is none.
fn field_at<'a>(fields: &[&'a str], place: usize) -> &'a str
    ensures { result.now ≡ slice_index_or (map (λ field. field.now) fields.now) place [] }
{
    match fields.get(place) {
        Some(field) => *field,
        None => "",
    }
}

/// The cards of these ids that stay, as they are after the edit.
fn kept_cards<K: Keeper>(
    keeper: &mut K,
    retyping: &Retyping,
    ids: &[i64],
) -> Result<List<Card>, KeepFault>
    ensures reads { ReadsBy K.Lookup keeper.old keeper.new result
        (λ h cards. cards ≡ kept_cards retyping.now.given.now retyping.now.old.now h.rows ids.now) }
{
    let mut kept = List::new(retyping.given.from_fields.allocator());
    for id in ids {
        add_kept(keeper, &mut kept, retyping, *id)?;
    }
    Ok(kept)
}

/// Adds the card of this id as it is after the edit, if it is held and stays.
fn add_kept<K: Keeper>(
    keeper: &mut K,
    kept: &mut List<Card>,
    retyping: &Retyping,
    id: i64,
) -> Result<(), KeepFault>
    ensures reads { ReadsBy K.Lookup keeper.old keeper.new result (λ h _. kept.new ≡ kept.old
        ++ kept_card retyping.now.given.now retyping.now.old.now (card_at h.rows id)) }
{
    if let Some(card) = card_at(keeper, id)? {
        let ord = ord_after(retyping.given, retyping.old, card.ord);
        add_with(kept, card, ord)?;
    }
    Ok(())
}

/// The ord of a card after the edit, None if its template went. The ords of a cloze type are no templates, and stay.
fn ord_after(given: &TypeEdit, old: &NoteType, ord: i64) -> Option<i64>
    ensures { result ≡ ord_after given.now old.now ord }
{
    if given.note_type.cloze {
        return Some(ord);
    }
    moved_ord(&templates_map(given, old), ord)
}

/// Adds the card with this ord, if there is one.
fn add_with(kept: &mut List<Card>, card: Card, ord: Option<i64>) -> Result<(), Memory>
    ensures { OnOk result (kept.new ≡ kept.old ++ kept_with card ord) }
{
    if let Some(ord) = ord {
        kept.push(with_ord(card, ord))?;
    }
    Ok(())
}

/// The card with this ord.
fn with_ord(card: Card, ord: i64) -> Card
    ensures { result ≡ with_ord card ord }
{
    let mut made = card;
    made.ord = ord;
    made
}

/// What a note of this id lacks that has these fields and cards after the edit.
fn lacking_note(
    retyping: &Retyping,
    fields: &List<Text>,
    note: i64,
    kept: &[Card],
) -> Result<LackingNote, Memory>
    requires fronts { AreFrontsOf retyping.now.given.now.note_type retyping.now.fronts }
    ensures { IfOk result (IsLackingWith retyping.now.given.now.note_type fields.now note kept.now) }
{
    let alloc = fields.allocator();
    let face = face_of(alloc, &retyping.given.note_type, fields)?;
    let shown = retyping.fronts.ords(alloc, &face)?;
    let held = seen_cards(alloc, kept)?;
    Ok(LackingNote {
        note,
        held,
        shown,
        needs_card: true,
    })
}

/// The cards of a note, by ascending id, as a new card looks at them.
fn seen_cards(alloc: Global, cards: &[Card]) -> Result<HeldCards, Memory>
    ensures { IfOk result (λ seen. seen ≡ seen_cards cards.now) }
{
    let ords = ords_of(alloc, cards)?;
    let deck = deck_of(cards);
    Ok(HeldCards { ords, deck })
}

/// The ords of the cards.
fn ords_of(alloc: Global, cards: &[Card]) -> Result<List<i64>, Memory>
    ensures { IfOk result (λ ords. ords ≡ map (λ (card : CardRow). card.ord) cards.now) }
{
    let mut ords = List::new(alloc);
    for card in cards {
        ords.push(card.ord)?;
    }
    Ok(ords)
}

/// The deck of the first card, deck 1 if there is none.
fn deck_of(cards: &[Card]) -> i64
    ensures { result ≡ deck_of cards.now }
{
    match cards.first() {
        Some(card) => card.did,
        None => 1,
    }
}

/// Removes the cards of these ids, and puts those that stay again.
fn put_kept(change: &mut Change, ids: &[i64], kept: List<Card>) -> Result<(), Memory>
    ensures { OnOk result (change.new ≡ cards_over kept (without_cards ids.now change.old)) }
{
    remove_cards(change, ids)?;
    put_cards(change, kept.into_vec())
}
