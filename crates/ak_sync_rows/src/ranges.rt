// Whether what a message brings is in its ranges. It takes no memory.
ghost use Rattle.std.specs.Prelude.{◌≡◌, ◌++◌, true};
ghost use Rattle.std.specs.List.{list_all};
ghost use Rattle.std.specs.Option.{option_map_or};
ghost use Rattle.ak_base.specs.declared.rows.Row.TheVariants as rows;
ghost use Rattle.ak_session.specs.Messages.{chunk_rows, change_rows};
ghost use Rattle.ak_session.specs.Refusals.{is_checked, is_conf_in_range, is_id, is_newer_in_range, are_changes_in_range};
ghost use Rattle.ak_base.specs.Heads.{is_tag_name};

use ak_base::{
    Card, Conf, Deck, LAST_ID, LAST_STAMP, NAME_BYTES, Note, NoteType, Options, Review, Text,
    is_within,
};
use ak_messages::{Changes, Chunk, GraveIds, Newer};

/// Whether the ids of all graves are ids of rows.
pub fn are_graves_in_range(ids: &GraveIds) -> bool
    ensures { result ≡ list_all is_id (ids.now.cards ++ (ids.now.notes ++ ids.now.decks)) }
{
    are_ids(ids.cards.as_slice()) && are_ids(ids.notes.as_slice()) && are_ids(ids.decks.as_slice())
}

/// Whether all of these are ids of rows.
fn are_ids(ids: &[i64]) -> bool
    ensures { result ≡ list_all is_id ids.now }
{
    ids.iter().all(|id| is_id(*id))
}

/// Whether each row of a chunk passes its check.
#[tactic(auto, using(crate::proofs::Checks::checked_three))]
pub fn are_rows_checked(chunk: &Chunk) -> bool
    ensures { result ≡ list_all is_checked (chunk_rows chunk.now) }
{
    are_reviews_checked(chunk.reviews.as_slice())
        && are_cards_checked(chunk.cards.as_slice())
        && are_notes_checked(chunk.notes.as_slice())
}

/// Whether each of these reviews passes its check.
fn are_reviews_checked(reviews: &[Review]) -> bool
    ensures { result ≡ list_all (λ (row : Review). is_checked (rows.Review row)) reviews.now }
{
    reviews.iter().all(|row| row.check().is_ok())
}

/// Whether each of these cards passes its check.
fn are_cards_checked(cards: &[Card]) -> bool
    ensures { result ≡ list_all (λ (row : Card). is_checked (rows.Card row)) cards.now }
{
    cards.iter().all(|row| row.check().is_ok())
}

/// Whether each of these notes passes its check.
fn are_notes_checked(notes: &[Note]) -> bool
    ensures { result ≡ list_all (λ (row : Note). is_checked (rows.Note row)) notes.now }
{
    notes.iter().all(|row| row.check().is_ok())
}

/// Whether what changes hold is in its ranges: rows, names of tags, and settings if there are some.
pub fn are_changes_in_range(changes: &Changes) -> bool
    ensures { result ≡ are_changes_in_range changes.now }
{
    are_changed_rows_checked(changes)
        && are_tag_names(changes.tags.as_slice())
        && is_newer_in_range(&changes.newer)
}

/// Whether each row of changes passes its check.
#[tactic(auto, using(crate::proofs::Checks::checked_three))]
fn are_changed_rows_checked(changes: &Changes) -> bool
    ensures { result ≡ list_all is_checked (change_rows changes.now) }
{
    are_types_checked(changes.models.as_slice())
        && are_decks_checked(changes.decks.as_slice())
        && are_options_checked(changes.options.as_slice())
}

/// Whether each of these note types passes its check.
fn are_types_checked(types: &[NoteType]) -> bool
    ensures { result ≡ list_all (λ (row : NoteType). is_checked (rows.NoteType row)) types.now }
{
    types.iter().all(|row| row.check().is_ok())
}

/// Whether each of these decks passes its check.
fn are_decks_checked(decks: &[Deck]) -> bool
    ensures { result ≡ list_all (λ (row : Deck). is_checked (rows.Deck row)) decks.now }
{
    decks.iter().all(|row| row.check().is_ok())
}

/// Whether each of these groups of options passes its check.
fn are_options_checked(options: &[Options]) -> bool
    ensures { result ≡ list_all (λ (row : Options). is_checked (rows.Options row)) options.now }
{
    options.iter().all(|row| row.check().is_ok())
}

/// Whether each of these is the name of a tag: 1 to 512 bytes.
fn are_tag_names(names: &[Text]) -> bool
    ensures { result ≡ list_all is_tag_name names.now }
{
    names.iter().all(|name| is_tag_name(name))
}

/// Whether this is the name of a tag.
pub fn is_tag_name(name: &Text) -> bool
    ensures { result ≡ is_tag_name name.now }
{
    let bytes = name.as_str().len() as u64;
    1 <= bytes && bytes <= NAME_BYTES
}

/// Whether the settings and the second of creation, if they are there, are in their ranges.
fn is_newer_in_range(newer: &Option<Newer>) -> bool
    ensures { result ≡ option_map_or is_newer_in_range newer.now true }
{
    match newer {
        Some(newer) => is_conf_in_range(&newer.conf) && is_within(newer.crt, 0, LAST_STAMP),
        None => true,
    }
}

/// Whether the settings are in their ranges.
pub fn is_conf_in_range(conf: &Conf) -> bool
    ensures { result ≡ is_conf_in_range conf.now }
{
    conf.is_in_range()
}

/// Whether a number is an id of a row.
pub fn is_id(id: i64) -> bool
    ensures { result ≡ is_id id }
{
    is_within(id, 1, LAST_ID)
}
