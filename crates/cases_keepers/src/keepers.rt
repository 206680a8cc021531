ghost use Rattle.std.specs.Prelude.{◌≡◌, ◌<◌, ◌≤◌, true, IfOk};
ghost use Rattle.ak_keep.specs.Keepers.{is_marked};

use crate::faults::{done, failed, name_text};
use crate::heads::{head_text, replace, set_head, set_moments};
use crate::related::related;
use ak_base::{List, Name, Row, Table, cut};
use ak_json::{read_row, read_text};
use ak_keep::{KeepFault, Keeper, Lookup, Readable, Wanted};
use cases_lines::{Unread, listed, number_at, row_text, table_of};
use serde_json::Value;
use std::alloc::Global;

/// The answer to a command that any keeper can follow alone.
pub fn answer_of_keeper<K: Keeper>(
    alloc: Global,
    keeper: &mut K,
    word: &str,
    rest: &str,
) -> Result<String, Unread> {
    match word {
        "mark" => mark(alloc, keeper),
        "back" => back(alloc, keeper),
        "commit" => commit(alloc, keeper),
        "state" => state(alloc, keeper),
        "head" => head_text(alloc, keeper),
        "set-head" => set_head(alloc, keeper, rest),
        "set-moments" => set_moments(alloc, keeper, rest),
        "replace" => replace(alloc, keeper, rest),
        _ => answer_of_rows(alloc, keeper, word, rest),
    }
}

fn answer_of_rows<K: Keeper>(
    alloc: Global,
    keeper: &mut K,
    word: &str,
    rest: &str,
) -> Result<String, Unread> {
    match word {
        "put" => put(alloc, keeper, rest),
        "put-cards" => put_cards(alloc, keeper, rest),
        "get" => get(alloc, keeper, rest),
        "remove" => remove(alloc, keeper, rest),
        "page" => page(alloc, keeper, rest),
        "unsent" => unsent(alloc, keeper, rest),
        "from" => from(alloc, keeper, rest),
        "cards-of" => cards_of(alloc, keeper, rest),
        "count" => count(alloc, keeper, rest),
        "free" => free(alloc, keeper, rest),
        "type-of" | "deck-of" | "options-of" | "options-of-deck" => {
            related(alloc, keeper, word, rest)
        },
        _ => Err(Unread::Bad),
    }
}

fn mark<K: Keeper>(alloc: Global, keeper: &mut K) -> Result<String, Unread> {
    if keeper.marked() {
        return Err(Unread::Bad);
    }
    done(alloc, keeper.mark())
}

fn back<K: Keeper>(alloc: Global, keeper: &mut K) -> Result<String, Unread> {
    if !keeper.marked() {
        return Err(Unread::Bad);
    }
    keeper.back();
    Ok(String::from_str(alloc, "ok")?)
}

fn commit<K: Keeper>(alloc: Global, keeper: &mut K) -> Result<String, Unread> {
    if !keeper.marked() {
        return Err(Unread::Bad);
    }
    done(alloc, keeper.commit())
}

/// The faults so far, whether it is marked, and whether a head is held.
fn state<K: Keeper>(alloc: Global, keeper: &K) -> Result<String, Unread> {
    let faults = keeper.faults();
    let marked = keeper.marked();
    let held = keeper.held();
    Ok(format!(in alloc; "faults {faults} marked {marked} held {held}")?)
}

// ---- rows

/// `put TABLE JSON`.
fn put<K: Keeper>(alloc: Global, keeper: &mut K, rest: &str) -> Result<String, Unread> {
    if !keeper.marked() {
        return Err(Unread::Bad);
    }
    let row = row_of(alloc, rest)?;
    put_row(alloc, keeper, row)
}

fn put_row<K: Keeper>(alloc: Global, keeper: &mut K, row: Row) -> Result<String, Unread>
    requires { is_marked (K.keeping keeper.old) ≡ true }
{
    if row.check().is_err() {
        return Err(Unread::Bad);
    }
    done(alloc, keeper.put(row))
}

/// The row of a text `TABLE JSON`.
pub fn row_of(alloc: Global, rest: &str) -> Result<Row, Unread> {
    let (table, text) = cut(rest, " ").ok_or(Unread::Bad)?;
    row_of_text(alloc, table_of(table)?, text)
}

fn row_of_text(alloc: Global, table: Table, text: &str) -> Result<Row, Unread> {
    let value = value_of(alloc, text)?;
    match read_row(alloc, table, &value) {
        Ok(row) => Ok(row),
        Err(_) => Err(Unread::Bad),
    }
}

/// The value of a JSON text.
pub fn value_of(alloc: Global, text: &str) -> Result<Value, Unread> {
    match read_text(alloc, text.as_bytes()) {
        Ok(value) => Ok(value),
        Err(_) => Err(Unread::Bad),
    }
}

/// `put-cards [FIRST, COUNT, NOTE]`: so many new cards of a note, with the ids from the first on.
fn put_cards<K: Keeper>(alloc: Global, keeper: &mut K, rest: &str) -> Result<String, Unread> {
    let arguments = value_of(alloc, rest)?;
    let first = number_at(&arguments, 0)?;
    let count = number_at(&arguments, 1)?;
    let note = number_at(&arguments, 2)?;
    if first < 1 || first > 1_000_000_000 || count > 10_000 {
        return Err(Unread::Bad);
    }
    for place in 0..count {
        put_card(alloc, keeper, first + place, note)?;
    }
    Ok(String::from_str(alloc, "ok")?)
}

fn put_card<K: Keeper>(alloc: Global, keeper: &mut K, id: i64, note: i64) -> Result<(), Unread> {
    let text = format!(in alloc; "card [{id},{note},1,0,0,-1,0,0,1,0,0,0,0,0,0,0,0,\"\"]")?;
    put(alloc, keeper, text.as_str())?;
    Ok(())
}

fn name_of(arguments: &str) -> Result<Name, Unread> {
    let (table, id) = cut(arguments, " ").ok_or(Unread::Bad)?;
    Ok(Name {
        table: table_of(table)?,
        id: whole(id)?,
    })
}

fn whole(text: &str) -> Result<i64, Unread> {
    match text.parse::<i64>() {
        Ok(number) => Ok(number),
        Err(_) => Err(Unread::Bad),
    }
}

/// `get TABLE ID`.
fn get<K: Keeper>(alloc: Global, keeper: &mut K, rest: &str) -> Result<String, Unread> {
    let name = name_of(rest)?;
    match keeper.get(name) {
        Ok(row) => row_or_none(alloc, row),
        Err(fault) => failed(alloc, fault),
    }
}

fn row_or_none(alloc: Global, row: Option<Row>) -> Result<String, Unread> {
    match row {
        Some(row) => row_text(alloc, &row),
        None => Ok(String::from_str(alloc, "none")?),
    }
}

/// `remove TABLE ID`.
fn remove<K: Keeper>(alloc: Global, keeper: &mut K, rest: &str) -> Result<String, Unread> {
    if !keeper.marked() {
        return Err(Unread::Bad);
    }
    let name = name_of(rest)?;
    done(alloc, keeper.remove(name))
}

/// What a page begins after, and its limit.
#[derive(Clone, Copy)]
struct Span {
    table: Table,
    past: i64,
    limit: usize,
}

fn span_of(rest: &str) -> Result<Span, Unread>
    ensures { IfOk result (λ span. (0 < span.limit) × (span.limit ≤ 1000)) }
{
    let (table, numbers) = cut(rest, " ").ok_or(Unread::Bad)?;
    let (past, limit) = cut(numbers, " ").ok_or(Unread::Bad)?;
    let limit = whole(limit)?;
    if limit < 1 || limit > 1000 {
        return Err(Unread::Bad);
    }
    Ok(Span {
        table: table_of(table)?,
        past: whole(past)?,
        limit: limit as usize,
    })
}

/// `page TABLE PAST LIMIT`: the ids of the rows.
fn page<K: Keeper>(alloc: Global, keeper: &mut K, rest: &str) -> Result<String, Unread> {
    let span = span_of(rest)?;
    paged(alloc, keeper.page(span.table, span.past, span.limit))
}

fn paged(alloc: Global, page: Result<List<Row>, KeepFault>) -> Result<String, Unread> {
    match page {
        Ok(rows) => ids_text(alloc, rows.as_slice()),
        Err(fault) => failed(alloc, fault),
    }
}

fn ids_text(alloc: Global, rows: &[Row]) -> Result<String, Unread> {
    let mut ids = Vec::new(alloc);
    for row in rows {
        ids.push(row.name().id)?;
    }
    listed(alloc, ids.as_slice())
}

/// `unsent TABLE PAST LIMIT`: the ids of the rows that were not sent yet.
fn unsent<K: Keeper>(alloc: Global, keeper: &mut K, rest: &str) -> Result<String, Unread> {
    let span = span_of(rest)?;
    paged(
        alloc,
        keeper.pending(span.table, Wanted::Unsent, span.past, span.limit),
    )
}

/// `from USN TABLE PAST LIMIT`: the ids of the rows with at least this usn.
fn from<K: Keeper>(alloc: Global, keeper: &mut K, rest: &str) -> Result<String, Unread> {
    let (usn, rest) = cut(rest, " ").ok_or(Unread::Bad)?;
    let want = Wanted::From(whole(usn)?);
    let span = span_of(rest)?;
    paged(
        alloc,
        keeper.pending(span.table, want, span.past, span.limit),
    )
}

/// `cards-of NOTE`.
fn cards_of<K: Keeper>(alloc: Global, keeper: &mut K, rest: &str) -> Result<String, Unread> {
    let note = whole(rest)?;
    match keeper.cards_of(note) {
        Ok(ids) => listed(alloc, ids.as_slice()),
        Err(fault) => failed(alloc, fault),
    }
}

/// `count TABLE`.
fn count<K: Keeper>(alloc: Global, keeper: &mut K, rest: &str) -> Result<String, Unread> {
    let table = table_of(rest)?;
    match keeper.count(table) {
        Ok(count) => Ok(format!(in alloc; "{count}")?),
        Err(fault) => failed(alloc, fault),
    }
}

/// `free TABLE ID`.
fn free<K: Keeper>(alloc: Global, keeper: &mut K, rest: &str) -> Result<String, Unread> {
    let first = name_of(rest)?;
    if first.id < 1 {
        return Err(Unread::Bad);
    }
    match keeper.free_name(first) {
        Ok(name) => name_text(alloc, name),
        Err(fault) => failed(alloc, fault),
    }
}
