// What a side has of what is wanted, by tables: graves, changes, and names of tags.
ghost use Rattle.std.specs.Prelude.{◌≡◌, ◌++◌, IfOk, OnOk};
ghost use Rattle.std.specs.List.{All};
ghost use Rattle.ak_base.specs.Rows.{IsChecked};
ghost use Rattle.ak_keep.specs.Readings.{ReadsBy};
ghost use Rattle.ak_merge.specs.Exchanges.{is_wanted_number, wanted_tags};
ghost use Rattle.ak_session.specs.Slices.{wanted_changes, wanted_graves, wanted_in_chunks, wanted_of};

use crate::lists::append_page;
use crate::walks::rows_from;
use ak_base::{List, Memory, Row, Table, Tag, Text};
use ak_keep::{KeepFault, Keeper, Wanted};
use std::alloc::Global;

/// The wanted graves: of notes, then of cards, then of decks.
pub fn wanted_graves<K: Keeper>(keeper: &mut K, want: Wanted) -> Result<Vec<Row>, KeepFault>
    ensures reads { ReadsBy K.Lookup keeper.old keeper.new result (λ h rows. rows.items ≡ wanted_graves want h.rows) }
    ensures checked { IfOk result (λ rows. All IsChecked rows.items) }
{
    wanted_of(
        keeper,
        Table::NoteGrave,
        Table::CardGrave,
        Table::DeckGrave,
        want,
    )
}

/// The wanted rows that are not given by chunks: note types, then decks, then options.
pub fn wanted_changes<K: Keeper>(keeper: &mut K, want: Wanted) -> Result<Vec<Row>, KeepFault>
    ensures reads { ReadsBy K.Lookup keeper.old keeper.new result (λ h rows. rows.items ≡ wanted_changes want h.rows) }
    ensures checked { IfOk result (λ rows. All IsChecked rows.items) }
{
    wanted_of(keeper, Table::NoteType, Table::Deck, Table::Options, want)
}

/// The wanted rows that are given by chunks: reviews, then cards, then notes.
pub fn wanted_in_chunks<K: Keeper>(keeper: &mut K, want: Wanted) -> Result<Vec<Row>, KeepFault>
    ensures reads { ReadsBy K.Lookup keeper.old keeper.new result (λ h rows. rows.items ≡ wanted_in_chunks want h.rows) }
    ensures checked { IfOk result (λ rows. All IsChecked rows.items) }
{
    wanted_of(keeper, Table::Review, Table::Card, Table::Note, want)
}

/// The wanted rows of one table, then of another, then of a third, by id.
fn wanted_of<K: Keeper>(
    keeper: &mut K,
    one: Table,
    two: Table,
    three: Table,
    want: Wanted,
) -> Result<Vec<Row>, KeepFault>
    ensures reads { ReadsBy K.Lookup keeper.old keeper.new result (λ h rows.
        rows.items ≡ wanted_of one two three want h.rows) }
    ensures checked { IfOk result (λ rows. All IsChecked rows.items) }
{
    let mut rows = rows_from(keeper, one, want)?.into_vec();
    let second = rows_from(keeper, two, want)?;
    let third = rows_from(keeper, three, want)?;
    append_pages(&mut rows, second, third)?;
    Ok(rows)
}

/// Adds two pages of rows at the end.
fn append_pages(rows: &mut Vec<Row>, one: List<Row>, other: List<Row>) -> Result<(), Memory>
    ensures rows { OnOk result (rows.new.items ≡ rows.old.items ++ (one ++ other)) }
    ensures checked { OnOk result (All IsChecked rows.old.items → All IsChecked one → All IsChecked other
        → All IsChecked rows.new.items) }
{
    append_page(rows, one)?;
    append_page(rows, other)
}

/// The names of the tags whose usn is wanted, in their order.
pub fn wanted_tags(alloc: Global, tags: &[Tag], want: &Wanted) -> Result<List<Text>, Memory>
    ensures { IfOk result (λ names. names ≡ wanted_tags want.now tags.now) }
{
    let mut names = List::new(alloc);
    for tag in tags {
        if is_wanted_number(want, &tag.usn) {
            names.push(tag.name.copy()?)?;
        }
    }
    Ok(names)
}

/// Whether a usn is wanted. That it takes a reference is for the proof alone.
fn is_wanted_number(want: &Wanted, number: &i64) -> bool
    ensures { result ≡ is_wanted_number want.now number.now }
{
    match want {
        Wanted::Unsent => *number == -1,
        Wanted::From(usn) => *usn <= *number,
    }
}
