ghost use Rattle.std.specs.Prelude.{◌≡◌, ◌⊎◌, IfErr, IfNone, IfOk, IfSome, None, Ok, Some, slice_get};
ghost use Rattle.ak_base.specs.Cards.{IsCheckedCard};
ghost use Rattle.ak_edit.specs.Refusals.{DeskCause, IsFromOutside};
ghost use Rattle.ak_edit.specs.declared.desk_faults.DeskFault.TheVariants as faults;
ghost use Rattle.ak_keep.specs.Keepers.{WhereTold};
ghost use Rattle.ak_keep.specs.Lookups.{deck_of_card, note_at, note_type_at};
ghost use Rattle.ak_keep.specs.Readings.{ReadsBy};
ghost use Rattle.ak_merge.specs.Holdings.{name_in};
ghost use Rattle.ak_pages.specs.CardFaces.{card_face, named, shown_by, shown_card, shown_of_note, shown_of_type};
ghost use Rattle.ak_pages.specs.CardPages.{AnswersAs, IsMissingRow};
ghost use Rattle.ak_search.specs.CardFacts.{template_at, template_of};

use crate::card_faces::card_face;
use ak_base::{Card, CardTemplate, Name, Note, NoteType, Table};
use ak_edit::DeskFault;
use ak_keep::{KeepFault, Keeper, card_at, deck_of_card, note_at, note_type_at};
use ak_template::Face;

/// What a card is shown with.
#[derive(Debug, Drop)]
pub(crate) struct ShownCard {
    /// The names that its template may show, on a front.
    pub(crate) face: Face,
    pub(crate) template: CardTemplate,
}

/// What the card of this id is shown with. It is refused for the first row that is not held of the card, its note and the note's
/// type, and with that type's name if the type lacks the card's template.
pub(crate) fn shown_card<K: Keeper>(keeper: &mut K, id: i64) -> Result<ShownCard, DeskFault>
    ensures same { K.keeping keeper.new ≡ K.keeping keeper.old }
    ensures shown { WhereTold (K.keeping keeper.old) (λ h. AnswersAs (shown_card h.rows id) result) }
    ensures listed { IfErr result (λ fault. IsFromOutside fault ⊎ IsMissingRow fault) }
    ensures cause { DeskCause (K.health keeper.old) (K.health keeper.new) result }
{
    // For the proof alone: it says that what the keeper gives passes its check.
    let _checks = keeper.marked();
    match card_at(keeper, id)? {
        Some(card) => shown_of_note(keeper, &card),
        None => Err(missing(Table::Card, id)),
    }
}

/// The same of a card, by its note.
fn shown_of_note<K: Keeper>(keeper: &mut K, card: &Card) -> Result<ShownCard, DeskFault>
    requires checked { IsCheckedCard card.now }
    ensures same { K.keeping keeper.new ≡ K.keeping keeper.old }
    ensures shown { WhereTold (K.keeping keeper.old)
        (λ h. AnswersAs (shown_of_note h.rows card.now (note_at h.rows card.now.nid)) result) }
    ensures listed { IfErr result (λ fault. IsFromOutside fault ⊎ IsMissingRow fault) }
    ensures cause { DeskCause (K.health keeper.old) (K.health keeper.new) result }
{
    match note_at(keeper, card.nid)? {
        Some(note) => shown_of_type(keeper, card, &note),
        None => Err(missing(Table::Note, card.nid)),
    }
}

/// The same, by the type of its note.
fn shown_of_type<K: Keeper>(
    keeper: &mut K,
    card: &Card,
    note: &Note,
) -> Result<ShownCard, DeskFault>
    requires checked { IsCheckedCard card.now }
    ensures same { K.keeping keeper.new ≡ K.keeping keeper.old }
    ensures shown { WhereTold (K.keeping keeper.old)
        (λ h. AnswersAs (shown_of_type h.rows card.now note.now (note_type_at h.rows note.now.mid)) result) }
    ensures listed { IfErr result (λ fault. IsFromOutside fault ⊎ IsMissingRow fault) }
    ensures cause { DeskCause (K.health keeper.old) (K.health keeper.new) result }
{
    match note_type_at(keeper, note.mid)? {
        Some(note_type) => shown_by(keeper, card, note, &note_type),
        None => Err(missing(Table::NoteType, note.mid)),
    }
}

/// The same, by its template in the type.
fn shown_by<K: Keeper>(
    keeper: &mut K,
    card: &Card,
    note: &Note,
    note_type: &NoteType,
) -> Result<ShownCard, DeskFault>
    requires checked { IsCheckedCard card.now }
    ensures same { K.keeping keeper.new ≡ K.keeping keeper.old }
    ensures shown { WhereTold (K.keeping keeper.old)
        (λ h. AnswersAs (shown_by h.rows card.now note.now note_type.now (template_of note_type.now card.now)) result) }
    ensures listed { IfErr result (λ fault. IsFromOutside fault ⊎ IsMissingRow fault) }
    ensures cause { DeskCause (K.health keeper.old) (K.health keeper.new) result }
{
    match template_of(note_type, card) {
        Some(template) => {
            let shown = shown_with(keeper, card, note, note_type, template)?;
            Ok(shown)
        }
        None => Err(missing(Table::NoteType, note_type.id)),
    }
}

/// The same, with this template.
fn shown_with<K: Keeper>(
    keeper: &mut K,
    card: &Card,
    note: &Note,
    note_type: &NoteType,
    template: &CardTemplate,
) -> Result<ShownCard, KeepFault>
    requires checked { IsCheckedCard card.now }
    ensures reads { ReadsBy K.Lookup keeper.old keeper.new result
        (λ h shown. shown_by h.rows card.now note.now note_type.now (Some template.now) ≡ Ok shown) }
{
    let deck = deck_of_card(keeper, card)?;
    let face = card_face(card, note, note_type, deck, template)?;
    let template = template.copy()?;
    Ok(ShownCard { face, template })
}

/// The template of a card in a type. A type of clozes has one template for all its cards.
fn template_of<'a>(note_type: &'a NoteType, card: &Card) -> Option<&'a CardTemplate>
    ensures some { IfSome result (λ template. template_of note_type.now card.now ≡ Some template.now) }
    ensures none { IfNone result (template_of note_type.now card.now ≡ None) }
{
    let place = if note_type.cloze { 0 } else { card.ord };
    template_at(note_type.templates.as_slice(), place)
}

/// The template at a place from 0.
fn template_at(templates: &[CardTemplate], place: i64) -> Option<&CardTemplate>
    ensures some { IfSome result (λ template. template_at templates.now place ≡ Some template.now) }
    ensures none { IfNone result (template_at templates.now place ≡ None) }
{
    if place < 0 {
        return None;
    }
    nth(templates, place as usize)
}

/// The template at a place that is not negative.
fn nth(templates: &[CardTemplate], place: usize) -> Option<&CardTemplate>
    ensures some { IfSome result (λ template. slice_get templates.now place ≡ Some template.now) }
    ensures none { IfNone result (slice_get templates.now place ≡ None) }
{
    templates.get(place)
}

/// The refusal for a row that is not held.
fn missing(table: Table, id: i64) -> DeskFault
    ensures { result ≡ faults.NoSuch (name_in table id) }
{
    DeskFault::NoSuch(Name { table, id })
}
