ghost use Rattle.std.specs.Prelude.{◌≡◌, ◌∷◌, ◌++◌, ◌+ℤ◌, ◌≤ℤ◌, pos, [], IfOk, OnOk, codes};
ghost use Rattle.std.specs.List.{join_by};
ghost use Rattle.ak_base.specs.Cards.{IsCheckedCard};
ghost use Rattle.ak_base.specs.NoteTexts.{fields_in, tags_in};
ghost use Rattle.ak_base.specs.Paths.{parts_of};
ghost use Rattle.ak_pages.specs.CardFaces.{card_face, deck_name, last_part, named, told_of};

use ak_base::{
    Card, CardTemplate, Deck, List, Memory, Note, NoteType, Text, copy_texts, path_parts,
};
use ak_cardgen::face_of;
use ak_template::{Face, Pair};
use std::alloc::Global;

/// What the card is shown with on a front: the fields of its note, then what is told beside them.
pub(crate) fn card_face(
    card: &Card,
    note: &Note,
    note_type: &NoteType,
    deck: Option<Deck>,
    template: &CardTemplate,
) -> Result<Face, Memory>
    requires checked { IsCheckedCard card.now }
    ensures { IfOk result (λ face. face ≡ card_face card.now note.now note_type.now deck template.now) }
{
    let alloc = note_type.fields.allocator();
    let fields = field_texts(alloc, note)?;
    let mut face = face_of(alloc, note_type, &fields)?;
    let tags = tag_text(alloc, note)?;
    let deck = deck_name(alloc, deck)?;
    add_told(&mut face.fields, alloc, tags, note_type, deck, template)?;
    face.number = number_of(card);
    Ok(face)
}

/// The fields of the note, as texts of their own.
fn field_texts(alloc: Global, note: &Note) -> Result<List<Text>, Memory>
    ensures { IfOk result (λ texts. texts ≡ fields_in note.now.flds) }
{
    let fields = note.field_list(alloc)?;
    copy_texts(alloc, fields.as_slice())
}

/// The tags of the note with one space between.
#[tactic(auto, using(crate::proofs::Joining::joined_words))]
fn tag_text(alloc: Global, note: &Note) -> Result<Text, Memory>
    ensures { IfOk result (λ text. text ≡ join_by (λ tag. tag) (codes " ") (tags_in note.now.tags)) }
{
    let tags = note.tag_list(alloc)?;
    let joined = tags.as_slice().join(alloc, " ")?;
    Text::of(alloc, &joined)
}

/// The name of the deck, empty if there is none.
fn deck_name(alloc: Global, deck: Option<Deck>) -> Result<Text, Memory>
    ensures { IfOk result (λ name. name ≡ deck_name deck) }
{
    match deck {
        Some(deck) => Ok(deck.name),
        None => Text::of(alloc, ""),
    }
}

/// Adds the pairs of what is told beside the fields.
fn add_told(
    pairs: &mut List<Pair>,
    alloc: Global,
    tags: Text,
    note_type: &NoteType,
    deck: Text,
    template: &CardTemplate,
) -> Result<(), Memory>
    ensures { OnOk result (pairs.new ≡ pairs.old ++ told_of tags note_type.now.name deck template.now.name) }
{
    let subdeck = last_part(alloc, deck.as_str())?;
    add_pair(pairs, alloc, "Tags", tags)?;
    add_pair(pairs, alloc, "Type", note_type.name.copy()?)?;
    add_pair(pairs, alloc, "Deck", deck)?;
    add_pair(pairs, alloc, "Subdeck", subdeck)?;
    add_pair(pairs, alloc, "Card", template.name.copy()?)?;
    Ok(())
}

/// Adds a name and its value.
fn add_pair(pairs: &mut List<Pair>, alloc: Global, name: &str, value: Text) -> Result<(), Memory>
    ensures { OnOk result (pairs.new ≡ pairs.old ++ named name.now value ∷ []) }
{
    let name = Text::of(alloc, name)?;
    pairs.push(Pair { name, value })?;
    Ok(())
}

/// The last part of a path.
#[tactic(auto, using(crate::proofs::Joining::last_word, crate::proofs::Joining::no_word))]
fn last_part(alloc: Global, path: &str) -> Result<Text, Memory>
    ensures { IfOk result (λ part. part ≡ last_part (parts_of path.now)) }
{
    let parts = path_parts(alloc, path)?;
    match parts.as_slice().last() {
        Some(part) => Text::of(alloc, part),
        None => Text::of(alloc, ""),
    }
}

/// The number of a card among those of its note, from 1.
#[tactic(auto, using(crate::proofs::CheckedOrds::ord_fits))]
fn number_of(card: &Card) -> i64
    requires checked { IsCheckedCard card.now }
    ensures { result ≡ card.now.ord +ℤ pos 1 }
{
    number_after(card.ord)
}

/// The number of an ord.
fn number_after(ord: i64) -> i64
    requires { ord ≤ℤ pos 499 }
    ensures { result ≡ ord +ℤ pos 1 }
{
    ord + 1
}
