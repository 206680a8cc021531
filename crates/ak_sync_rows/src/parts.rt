// Rows as a reply brings them: by their kinds, each kind in the order of the rows.
ghost use Rattle.std.specs.Prelude.{◌≡◌, ◌++◌, [], ◌∷◌, nat_lt, length, IfOk, OnOk};
ghost use Rattle.std.specs.List.{filter_map};
ghost use Rattle.ak_keep.specs.Lookups.{as_note, as_card, as_note_type, as_deck, as_options};
ghost use Rattle.ak_session.specs.Messages.{grave_ids, ids_in, chunk_of, as_review};

use ak_base::{Card, Deck, List, Memory, Note, NoteType, Options, Review, Row, Table, Text};
use ak_messages::{Changes, Chunk, GraveIds, MOST_ENTRIES, Newer};
use std::alloc::Global;

/// The ids of the deleted rows whose graves these are.
pub fn grave_ids(alloc: Global, graves: &[Row]) -> Result<GraveIds, Memory>
    ensures { IfOk result (λ ids. ids ≡ grave_ids graves.now) }
{
    Ok(GraveIds {
        cards: ids_in(alloc, Table::CardGrave, graves)?,
        notes: ids_in(alloc, Table::NoteGrave, graves)?,
        decks: ids_in(alloc, Table::DeckGrave, graves)?,
    })
}

/// The ids of the rows of a table.
fn ids_in(alloc: Global, table: Table, rows: &[Row]) -> Result<List<i64>, Memory>
    ensures { IfOk result (λ ids. ids ≡ ids_in table rows.now) }
{
    let mut ids = List::new(alloc);
    for row in rows {
        let name = row.name();
        if name.table == table {
            ids.push(name.id)?;
        }
    }
    Ok(ids)
}

/// The chunk of these rows: it is done exactly if they are fewer than 250.
pub fn chunk_of(alloc: Global, rows: Vec<Row>) -> Result<Chunk, Memory>
    ensures { IfOk result (λ chunk. chunk ≡ chunk_of rows.items) }
{
    let done = is_short(rows.as_slice());
    let mut reviews = List::new(alloc);
    let mut cards = List::new(alloc);
    let mut notes = List::new(alloc);
    for row in rows {
        add_to_chunk(row, &mut reviews, &mut cards, &mut notes)?;
    }
    Ok(Chunk {
        done,
        reviews,
        cards,
        notes,
    })
}

/// Whether a chunk of these rows is the last one: it is not full.
fn is_short(rows: &[Row]) -> bool
    ensures { result ≡ nat_lt (length rows.now) 250 }
{
    (rows.len() as u64) < MOST_ENTRIES
}

/// Adds a row to those of its kind.
fn add_to_chunk(
    row: Row,
    reviews: &mut List<Review>,
    cards: &mut List<Card>,
    notes: &mut List<Note>,
) -> Result<(), Memory>
    ensures reviews { OnOk result (reviews.new ≡ reviews.old ++ filter_map as_review (row ∷ [])) }
    ensures cards { OnOk result (cards.new ≡ cards.old ++ filter_map as_card (row ∷ [])) }
    ensures notes { OnOk result (notes.new ≡ notes.old ++ filter_map as_note (row ∷ [])) }
{
    match row {
        Row::Review(review) => reviews.push(review),
        Row::Card(card) => cards.push(card),
        Row::Note(note) => notes.push(note),
        _ => Ok(()),
    }
}

/// The changes of the note types, decks and groups of options among these rows, each in their order, with these tags and settings.
pub fn changes_of(
    alloc: Global,
    rows: Vec<Row>,
    tags: List<Text>,
    newer: Option<Newer>,
) -> Result<Changes, Memory>
    ensures { IfOk result (λ changes. changes ≡ record {
      models = filter_map as_note_type rows.items;
      decks = filter_map as_deck rows.items;
      options = filter_map as_options rows.items;
      tags = tags;
      newer = newer;
    }) }
{
    let Changed {
        models,
        decks,
        options,
    } = changed_of(alloc, rows)?;
    Ok(Changes {
        models,
        decks,
        options,
        tags,
        newer,
    })
}

/// Note types, decks and groups of options, each in their order.
#[derive(Drop)]
struct Changed {
    models: List<NoteType>,
    decks: List<Deck>,
    options: List<Options>,
}

/// The note types, decks and groups of options among these rows.
fn changed_of(alloc: Global, rows: Vec<Row>) -> Result<Changed, Memory>
    ensures models { IfOk result (λ made. made.models ≡ filter_map as_note_type rows.items) }
    ensures decks { IfOk result (λ made. made.decks ≡ filter_map as_deck rows.items) }
    ensures options { IfOk result (λ made. made.options ≡ filter_map as_options rows.items) }
{
    let mut models = List::new(alloc);
    let mut decks = List::new(alloc);
    let mut options = List::new(alloc);
    for row in rows {
        add_to_changes(row, &mut models, &mut decks, &mut options)?;
    }
    Ok(Changed {
        models,
        decks,
        options,
    })
}

/// Adds a row to those of its kind.
fn add_to_changes(
    row: Row,
    models: &mut List<NoteType>,
    decks: &mut List<Deck>,
    options: &mut List<Options>,
) -> Result<(), Memory>
    ensures models { OnOk result (models.new ≡ models.old ++ filter_map as_note_type (row ∷ [])) }
    ensures decks { OnOk result (decks.new ≡ decks.old ++ filter_map as_deck (row ∷ [])) }
    ensures options { OnOk result (options.new ≡ options.old ++ filter_map as_options (row ∷ [])) }
{
    match row {
        Row::NoteType(model) => models.push(model),
        Row::Deck(deck) => decks.push(deck),
        Row::Options(group) => options.push(group),
        _ => Ok(()),
    }
}
