// How many rows of each kind a side holds: what a sanity check compares.
ghost use Rattle.std.specs.Prelude.{◌≡◌, ◌+◌};
ghost use Rattle.ak_base.specs.declared.names.Table.TheVariants as tables;
ghost use Rattle.ak_keep.specs.Collections.{row_count};
ghost use Rattle.ak_keep.specs.Readings.{ReadsBy};
ghost use Rattle.ak_session.specs.Answers.{counts_of, same_counts};

use ak_base::Table;
use ak_keep::{KeepFault, Readable};
use ak_messages::SanityCounts;

/// How many rows of each kind are held.
pub fn counts_of<R: Readable>(from: &mut R) -> Result<SanityCounts, KeepFault>
    ensures reads { ReadsBy R.Lookup from.old from.new result (λ h counts. counts ≡ counts_of h.rows) }
{
    let cards = from.count(Table::Card)?;
    let notes = from.count(Table::Note)?;
    let reviews = from.count(Table::Review)?;
    let graves = count_of_graves(from)?;
    let models = from.count(Table::NoteType)?;
    let decks = from.count(Table::Deck)?;
    let options = from.count(Table::Options)?;
    Ok(SanityCounts {
        cards,
        notes,
        reviews,
        graves,
        models,
        decks,
        options,
    })
}

/// How many graves are held. A sum that no `u64` holds is more than memory holds.
fn count_of_graves<R: Readable>(from: &mut R) -> Result<u64, KeepFault>
    ensures reads { ReadsBy R.Lookup from.old from.new result (λ h count.
        count ≡ row_count tables.NoteGrave h.rows + row_count tables.CardGrave h.rows
        + row_count tables.DeckGrave h.rows) }
{
    let notes = from.count(Table::NoteGrave)?;
    let cards = from.count(Table::CardGrave)?;
    let decks = from.count(Table::DeckGrave)?;
    match (notes + cards).checked_add(decks) {
        Some(graves) => Ok(graves),
        None => Err(KeepFault::Memory),
    }
}

/// Whether the seven counts are the same.
pub fn same_counts(a: SanityCounts, b: SanityCounts) -> bool
    ensures { result ≡ same_counts a b }
{
    a.cards == b.cards
        && a.notes == b.notes
        && a.reviews == b.reviews
        && a.graves == b.graves
        && a.models == b.models
        && a.decks == b.decks
        && a.options == b.options
}
