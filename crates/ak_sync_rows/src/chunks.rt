// The rows that a session is given by chunks, from where the last chunk ended: no row is read twice.
ghost use Rattle.std.specs.Prelude.{◌≡◌, ◌≤◌, ◌⊎◌, ◌++◌, length, IfOk, OnOk};
ghost use Rattle.ak_keep.specs.Collections.{last_id};
ghost use Rattle.ak_keep.specs.Readings.{ReadsBy};
ghost use Rattle.ak_sync_rows.specs.Chunks.{AreChunked, ahead_of, is_chunked, table_after, place_after, IsSlice};

use crate::lists::append_page;
use ak_base::{Name, Row, Table};
use ak_keep::{KeepFault, Keeper, Wanted};
use ak_messages::MOST_ENTRIES;
use std::alloc::Global;

/// The next rows that a chunk gives, and the place where the chunk after it begins: at most 250, reviews before cards
/// before notes, each by ascending id. Fewer come only if none are left.
pub fn next_rows<K: Keeper>(
    alloc: Global,
    from: &mut K,
    given: Name,
    want: Wanted,
) -> Result<(Vec<Row>, Name), KeepFault>
    ensures reads { ReadsBy K.Lookup from.old from.new result (λ h next.
        IsSlice (ahead_of want given h.rows) next.0.items (ahead_of want next.1 h.rows)) }
    ensures short { IfOk result (λ next. length next.0.items ≤ 250) }
    ensures chunked { IfOk result (λ next. AreChunked next.0.items) }
{
    let mut rows = Vec::new(alloc);
    let given = read_more(from, &mut rows, given, want)?;
    let given = read_more(from, &mut rows, given, want)?;
    let given = read_more(from, &mut rows, given, want)?;
    Ok((rows, given))
}

/// Reads on in one table, up to 250 rows in all, and gives the place after the last one: in the next table if this one has
/// no more.
#[tactic(auto, using(crate::proofs::Placing::page_moves_on))]
fn read_more<K: Keeper>(
    from: &mut K,
    rows: &mut Vec<Row>,
    given: Name,
    want: Wanted,
) -> Result<Name, KeepFault>
    requires { length rows.old.items ≤ 250 }
    ensures reads { ReadsBy K.Lookup from.old from.new result (λ h after.
        rows.old.items ++ ahead_of want given h.rows ≡ rows.new.items ++ ahead_of want after h.rows) }
    ensures moved { IfOk result (λ after. (length rows.new.items ≡ 250) ⊎ (after.table ≡ table_after given.table)) }
    ensures short { OnOk result (length rows.new.items ≤ 250) }
    ensures longer { OnOk result (length rows.old.items ≤ length rows.new.items) }
    ensures chunked { OnOk result (AreChunked rows.old.items → AreChunked rows.new.items) }
{
    if !is_chunked(given.table) {
        return Ok(Name {
            table: Table::NoteGrave,
            id: 0,
        });
    }
    let limit = MOST_ENTRIES as usize - rows.as_slice().len();
    if limit == 0 {
        return Ok(given);
    }
    let page = from.pending(given.table, want, given.id, limit)?;
    let after = place_after(given, page.as_slice(), limit);
    append_page(rows, page)?;
    Ok(after)
}

/// Whether rows of this table are given by chunks.
fn is_chunked(table: Table) -> bool
    ensures { result ≡ is_chunked table }
{
    match table {
        Table::Review | Table::Card | Table::Note => true,
        Table::NoteType | Table::Deck | Table::Options => false,
        Table::NoteGrave | Table::CardGrave | Table::DeckGrave => false,
    }
}

/// The place after a page of at most `limit` rows: in the next table if the page is not full.
fn place_after(given: Name, page: &[Row], limit: usize) -> Name
    ensures { result ≡ place_after given page.now limit }
{
    if page.len() < limit {
        return Name {
            table: table_after(given.table),
            id: 0,
        };
    }
    Name {
        table: given.table,
        id: last_id(given.id, page),
    }
}

/// The id of the last of the rows, or this one if there is none.
fn last_id(past: i64, rows: &[Row]) -> i64
    ensures { result ≡ last_id past rows.now }
{
    let mut past = past;
    for row in rows {
        past = row.name().id;
    }
    past
}

/// The table whose rows come after those of a table; after the notes that of their graves, which no chunk gives.
fn table_after(table: Table) -> Table
    ensures { result ≡ table_after table }
{
    match table {
        Table::Review => Table::Card,
        Table::Card => Table::Note,
        Table::Note | Table::NoteType | Table::Deck | Table::Options => Table::NoteGrave,
        Table::NoteGrave | Table::CardGrave | Table::DeckGrave => Table::NoteGrave,
    }
}
