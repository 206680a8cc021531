// Rows read by their kind, and the rows that a note or a card belongs to.
ghost use Rattle.std.specs.Prelude.{◌≡◌, true, IfOk, IfSome};
ghost use Rattle.std.specs.Option.{option_and_then};
ghost use Rattle.ak_base.specs.Cards.{IsCheckedCard};
ghost use Rattle.ak_base.specs.Decks.{IsCheckedDeck};
ghost use Rattle.ak_base.specs.NoteTypes.{IsCheckedNoteType};
ghost use Rattle.ak_base.specs.Notes.{IsCheckedNote};
ghost use Rattle.ak_base.specs.OptionGroups.{IsCheckedOptions};
ghost use Rattle.ak_base.specs.Rows.{IsChecked, name_of};
ghost use Rattle.ak_base.specs.declared.names.Name.{Name as Named};
ghost use Rattle.ak_keep.specs.Lookups.{as_note, as_card, as_note_type, as_deck, as_options, row_of_id, note_at, card_at, note_type_at, deck_at, options_at, type_of_note, deck_of_card, options_of_card, options_of, options_of_deck};
ghost use Rattle.ak_keep.specs.Readings.{ReadsBy};

use crate::keepers::KeepFault;
use crate::readables::Lookup;
use ak_base::{Card, Deck, Name, Note, NoteType, Options, Row, Table};

/// The type of a note, None if it is not held.
pub fn type_of_note<R: Lookup>(from: &mut R, note: &Note) -> Result<Option<NoteType>, KeepFault>
    ensures reads { ReadsBy R.Lookup from.old from.new result (λ h found. found ≡ type_of_note h.rows note.now) }
    ensures checked { R.checks ≡ true → IfOk result (λ found. IfSome found IsCheckedNoteType) }
    ensures named { IfOk result (λ found. IfSome found (λ note_type. note_type.id ≡ note.now.mid)) }
{
    note_type_at(from, note.mid)
}

/// The deck of a card, deck 1 if that is not held, and None if deck 1 is not held either. The options of a card are
/// not those of this deck: see `options_of_card`.
pub fn deck_of_card<R: Lookup>(from: &mut R, card: &Card) -> Result<Option<Deck>, KeepFault>
    ensures reads { ReadsBy R.Lookup from.old from.new result (λ h found. found ≡ deck_of_card h.rows card.now) }
    ensures checked { R.checks ≡ true → IfOk result (λ found. IfSome found IsCheckedDeck) }
{
    match deck_at(from, card.did)? {
        Some(deck) => Ok(Some(deck)),
        None => deck_at(from, 1),
    }
}

/// The options of a card: those of its deck, and options 1 if its deck is not held.
pub fn options_of_card<R: Lookup>(from: &mut R, card: &Card) -> Result<Option<Options>, KeepFault>
    ensures reads { ReadsBy R.Lookup from.old from.new result (λ h found. found ≡ options_of_card h.rows card.now) }
    ensures checked { R.checks ≡ true → IfOk result (λ found. IfSome found IsCheckedOptions) }
{
    let deck = deck_at(from, card.did)?;
    options_of(from, deck)
}

/// The options of this deck, and options 1 if there is no deck.
fn options_of<R: Lookup>(from: &mut R, deck: Option<Deck>) -> Result<Option<Options>, KeepFault>
    ensures reads { ReadsBy R.Lookup from.old from.new result (λ h found. found ≡ options_of h.rows deck) }
    ensures checked { R.checks ≡ true → IfOk result (λ found. IfSome found IsCheckedOptions) }
{
    match deck {
        Some(deck) => options_of_deck(from, &deck),
        None => options_at(from, 1),
    }
}

/// The options of a deck, options 1 if those are not held, and None if options 1 are not held either.
pub fn options_of_deck<R: Lookup>(from: &mut R, deck: &Deck) -> Result<Option<Options>, KeepFault>
    ensures reads { ReadsBy R.Lookup from.old from.new result (λ h found. found ≡ options_of_deck h.rows deck.now) }
    ensures checked { R.checks ≡ true → IfOk result (λ found. IfSome found IsCheckedOptions) }
{
    match own_options(from, deck)? {
        Some(options) => Ok(Some(options)),
        None => options_at(from, 1),
    }
}

/// The options that the deck names.
fn own_options<R: Lookup>(from: &mut R, deck: &Deck) -> Result<Option<Options>, KeepFault>
    ensures reads { ReadsBy R.Lookup from.old from.new result (λ h found. found ≡ options_at h.rows deck.now.options) }
    ensures checked { R.checks ≡ true → IfOk result (λ found. IfSome found IsCheckedOptions) }
{
    options_at(from, deck.options)
}

/// The note of this id.
pub fn note_at<R: Lookup>(from: &mut R, id: i64) -> Result<Option<Note>, KeepFault>
    ensures reads { ReadsBy R.Lookup from.old from.new result (λ h found. found ≡ note_at h.rows id) }
    ensures checked { R.checks ≡ true → IfOk result (λ found. IfSome found IsCheckedNote) }
    ensures named { IfOk result (λ found. IfSome found (λ note. note.id ≡ id)) }
{
    let row = row_of_id(from, Table::Note, id)?;
    Ok(as_note(row))
}

/// The card of this id.
pub fn card_at<R: Lookup>(from: &mut R, id: i64) -> Result<Option<Card>, KeepFault>
    ensures reads { ReadsBy R.Lookup from.old from.new result (λ h found. found ≡ card_at h.rows id) }
    ensures checked { R.checks ≡ true → IfOk result (λ found. IfSome found IsCheckedCard) }
    ensures named { IfOk result (λ found. IfSome found (λ card. card.id ≡ id)) }
{
    let row = row_of_id(from, Table::Card, id)?;
    Ok(as_card(row))
}

/// The note type of this id.
pub fn note_type_at<R: Lookup>(from: &mut R, id: i64) -> Result<Option<NoteType>, KeepFault>
    ensures reads { ReadsBy R.Lookup from.old from.new result (λ h found. found ≡ note_type_at h.rows id) }
    ensures checked { R.checks ≡ true → IfOk result (λ found. IfSome found IsCheckedNoteType) }
    ensures named { IfOk result (λ found. IfSome found (λ note_type. note_type.id ≡ id)) }
{
    let row = row_of_id(from, Table::NoteType, id)?;
    Ok(as_note_type(row))
}

/// The deck of this id.
pub fn deck_at<R: Lookup>(from: &mut R, id: i64) -> Result<Option<Deck>, KeepFault>
    ensures reads { ReadsBy R.Lookup from.old from.new result (λ h found. found ≡ deck_at h.rows id) }
    ensures checked { R.checks ≡ true → IfOk result (λ found. IfSome found IsCheckedDeck) }
    ensures named { IfOk result (λ found. IfSome found (λ deck. deck.id ≡ id)) }
{
    let row = row_of_id(from, Table::Deck, id)?;
    Ok(as_deck(row))
}

/// The options of this id.
pub fn options_at<R: Lookup>(from: &mut R, id: i64) -> Result<Option<Options>, KeepFault>
    ensures reads { ReadsBy R.Lookup from.old from.new result (λ h found. found ≡ options_at h.rows id) }
    ensures checked { R.checks ≡ true → IfOk result (λ found. IfSome found IsCheckedOptions) }
    ensures named { IfOk result (λ found. IfSome found (λ options. options.id ≡ id)) }
{
    let row = row_of_id(from, Table::Options, id)?;
    Ok(as_options(row))
}

/// The row of a table under this id.
fn row_of_id<R: Lookup>(from: &mut R, table: Table, id: i64) -> Result<Option<Row>, KeepFault>
    ensures reads { ReadsBy R.Lookup from.old from.new result (λ h found. found ≡ row_of_id h.rows table id) }
    ensures checked { R.checks ≡ true → IfOk result (λ found. IfSome found IsChecked) }
    ensures named { IfOk result (λ found. IfSome found (λ row. name_of row ≡ record { table = table; id = id })) }
{
    from.get(Name { table, id })
}

/// The row, if it is a note.
fn as_note(row: Option<Row>) -> Option<Note>
    ensures kind { result ≡ option_and_then as_note row }
    ensures checked { IfSome row IsChecked → IfSome result IsCheckedNote }
    ensures named { (name : Named) → IfSome row (λ row. name_of row ≡ name) → IfSome result (λ found. found.id ≡ name.id) }
{
    match row {
        Some(Row::Note(note)) => Some(note),
        other => {
            drop(other);
            None
        }
    }
}

/// The row, if it is a card.
fn as_card(row: Option<Row>) -> Option<Card>
    ensures kind { result ≡ option_and_then as_card row }
    ensures checked { IfSome row IsChecked → IfSome result IsCheckedCard }
    ensures named { (name : Named) → IfSome row (λ row. name_of row ≡ name) → IfSome result (λ found. found.id ≡ name.id) }
{
    match row {
        Some(Row::Card(card)) => Some(card),
        other => {
            drop(other);
            None
        }
    }
}

/// The row, if it is a note type.
fn as_note_type(row: Option<Row>) -> Option<NoteType>
    ensures kind { result ≡ option_and_then as_note_type row }
    ensures checked { IfSome row IsChecked → IfSome result IsCheckedNoteType }
    ensures named { (name : Named) → IfSome row (λ row. name_of row ≡ name) → IfSome result (λ found. found.id ≡ name.id) }
{
    match row {
        Some(Row::NoteType(note_type)) => Some(note_type),
        other => {
            drop(other);
            None
        }
    }
}

/// The row, if it is a deck.
fn as_deck(row: Option<Row>) -> Option<Deck>
    ensures kind { result ≡ option_and_then as_deck row }
    ensures checked { IfSome row IsChecked → IfSome result IsCheckedDeck }
    ensures named { (name : Named) → IfSome row (λ row. name_of row ≡ name) → IfSome result (λ found. found.id ≡ name.id) }
{
    match row {
        Some(Row::Deck(deck)) => Some(deck),
        other => {
            drop(other);
            None
        }
    }
}

/// The row, if it is a group of options.
fn as_options(row: Option<Row>) -> Option<Options>
    ensures kind { result ≡ option_and_then as_options row }
    ensures checked { IfSome row IsChecked → IfSome result IsCheckedOptions }
    ensures named { (name : Named) → IfSome row (λ row. name_of row ≡ name) → IfSome result (λ found. found.id ≡ name.id) }
{
    match row {
        Some(Row::Options(options)) => Some(options),
        other => {
            drop(other);
            None
        }
    }
}
