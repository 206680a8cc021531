ghost use Rattle.std.specs.Fmt.{signed_decimal};
ghost use Rattle.std.specs.Prelude.{◌≡◌, ◌++◌, Some, IfOk, decimal};
ghost use Rattle.ak_desk_texts.specs.FaultTexts.{desk_fault_text, refusal_text, field_count_text, row_fault_text, template_fault_text, page_fault_text, line_fault_text, json_fault_text, search_fault_text, name_text, table_text};

use crate::line_refusals::LineRefusal;
use crate::pieces::{id_after, joined, number_after};
use ak_base::{Memory, Name, RowFault, Table, Text};
use ak_desk_language::LineFault;
use ak_edit::DeskFault;
use ak_json::JsonFault;
use ak_search::SearchFault;
use ak_template::{PageFault, TemplateFault};
use std::alloc::Global;

/// The text of a refusal of the desk, without the number of its line. None if a keeper failed or memory
/// ran out: these end a run and have a status in place of a text.
pub fn write_desk_fault(alloc: Global, fault: &DeskFault) -> Result<Option<Text>, Memory>
    ensures { IfOk result (λ text. text ≡ desk_fault_text fault.now) }
{
    match fault {
        DeskFault::NoSuch(name) => name_after(alloc, "no such ", *name),
        DeskFault::FieldCount { want, got } => write_field_count(alloc, *want, *got),
        DeskFault::DefaultKept(_) => plain(alloc, "default kept"),
        DeskFault::StampEnd => plain(alloc, "stamp end"),
        DeskFault::IdEnd => plain(alloc, "id end"),
        DeskFault::Row(fault) => write_row_fault(alloc, *fault),
        DeskFault::Template(fault) => write_template_fault(alloc, *fault),
        DeskFault::NotAnswerable(queue) => {
            let text = format!(in alloc; "not answerable: queue {queue}")?;
            Ok(Some(Text::from(text)))
        },
        DeskFault::NothingToUndo => plain(alloc, "nothing to undo"),
        DeskFault::SchemaAsk => plain(alloc, "schema change not allowed"),
        DeskFault::InUse(name) => name_after(alloc, "in use: ", *name),
        DeskFault::BadMap(place) => told_number(alloc, "bad map at ", *place),
        DeskFault::Page(fault) => write_page_fault(alloc, fault),
        DeskFault::Failed | DeskFault::Memory => Ok(None),
    }
}

/// The text of a refusal of a line at the desk, without the number of the line. None as for a fault of the desk.
pub fn write_refusal(alloc: Global, refusal: &LineRefusal) -> Result<Option<Text>, Memory>
    ensures { IfOk result (λ text. text ≡ refusal_text refusal.now) }
{
    match refusal {
        LineRefusal::Desk(fault) => write_desk_fault(alloc, fault),
        LineRefusal::NotFiltered(deck) => told_id(alloc, "not filtered: ", *deck),
        LineRefusal::BadPlan(deck) => told_id(alloc, "bad plan: ", *deck),
        LineRefusal::Search(fault) => write_search_fault(alloc, *fault),
    }
}

/// The words, and the id behind them.
fn told_id(alloc: Global, words: &str, id: i64) -> Result<Option<Text>, Memory>
    ensures { IfOk result (λ made. made ≡ Some (words.now ++ signed_decimal id)) }
{
    let text = id_after(alloc, words, id)?;
    Ok(Some(text))
}

/// The text of a wrong number of fields.
fn write_field_count(alloc: Global, want: u64, got: u64) -> Result<Option<Text>, Memory>
    ensures { IfOk result (λ made. made ≡ Some (field_count_text want got)) }
{
    let text = format!(in alloc; "fields {got}, wanted {want}")?;
    Ok(Some(Text::from(text)))
}

/// The text.
fn plain(alloc: Global, text: &str) -> Result<Option<Text>, Memory>
    ensures { IfOk result (λ made. made ≡ Some text.now) }
{
    let text = Text::of(alloc, text)?;
    Ok(Some(text))
}

/// The words, and the number behind them.
fn told_number(alloc: Global, words: &str, number: u64) -> Result<Option<Text>, Memory>
    ensures { IfOk result (λ made. made ≡ Some (words.now ++ decimal number)) }
{
    let text = number_after(alloc, words, number)?;
    Ok(Some(text))
}

/// The words, and the name of a row behind them.
fn name_after(alloc: Global, words: &str, name: Name) -> Result<Option<Text>, Memory>
    ensures { IfOk result (λ made. made ≡ Some (words.now ++ name_text name)) }
{
    let table = table_text(name.table);
    let id = name.id;
    let text = format!(in alloc; "{words}{table} {id}")?;
    Ok(Some(Text::from(text)))
}

/// The word for a row of a table.
pub fn table_text(table: Table) -> &'static str
    ensures { result.now ≡ table_text table }
{
    match table {
        Table::Note => "note",
        Table::Card => "card",
        Table::Review => "review",
        Table::NoteType => "type",
        Table::Deck => "deck",
        Table::Options => "options",
        Table::NoteGrave => "note grave",
        Table::CardGrave => "card grave",
        Table::DeckGrave => "deck grave",
    }
}

/// The text of a row that is out of its range.
fn write_row_fault(alloc: Global, fault: RowFault) -> Result<Option<Text>, Memory>
    ensures { IfOk result (λ made. made ≡ Some (row_fault_text fault)) }
{
    match fault {
        RowFault::TooLong { column, .. } => told_number(alloc, "row fault 1 at ", column as u64),
        RowFault::StampRange => plain(alloc, "row fault 2 at 0"),
        RowFault::IdRange => plain(alloc, "row fault 3 at 0"),
        RowFault::BadCode { column, .. } => told_number(alloc, "row fault 4 at ", column as u64),
    }
}

/// The text of a side of a template that can't be read.
fn write_template_fault(alloc: Global, fault: TemplateFault) -> Result<Option<Text>, Memory>
    ensures { IfOk result (λ text. text ≡ template_fault_text fault) }
{
    match fault {
        TemplateFault::Unclosed(place) => told_number(alloc, "template fault 1 at ", place),
        TemplateFault::WrongClose(place) => told_number(alloc, "template fault 2 at ", place),
        TemplateFault::EmptyTag(place) => told_number(alloc, "template fault 3 at ", place),
        TemplateFault::TooDeep(place) => told_number(alloc, "template fault 4 at ", place),
        TemplateFault::Memory => Ok(None),
    }
}

/// The text of a page that can't be made.
fn write_page_fault(alloc: Global, fault: &PageFault) -> Result<Option<Text>, Memory>
    ensures { IfOk result (λ text. text ≡ page_fault_text fault.now) }
{
    match fault {
        PageFault::NoField(name) => text_after(alloc, "no field ", name.as_str()),
        PageFault::NoFilter(name) => text_after(alloc, "no filter ", name.as_str()),
        PageFault::Memory => Ok(None),
    }
}

/// The words, and the name behind them.
fn text_after(alloc: Global, words: &str, name: &str) -> Result<Option<Text>, Memory>
    ensures { IfOk result (λ made. made ≡ Some (words.now ++ name.now)) }
{
    let text = joined(alloc, words, name)?;
    Ok(Some(text))
}

/// The text of a refusal of a text that is no line of the desk. None if memory ran out.
pub fn write_line_fault(alloc: Global, fault: &LineFault) -> Result<Option<Text>, Memory>
    ensures { IfOk result (λ text. text ≡ line_fault_text fault.now) }
{
    match fault {
        LineFault::BadLine => plain(alloc, "bad line"),
        LineFault::Json(fault) => write_json_fault(alloc, fault),
        LineFault::Search(fault) => write_search_fault(alloc, *fault),
        LineFault::Memory => Ok(None),
    }
}

/// The text of a JSON text that is not read.
fn write_json_fault(alloc: Global, fault: &JsonFault) -> Result<Option<Text>, Memory>
    ensures { IfOk result (λ text. text ≡ json_fault_text fault.now) }
{
    match fault {
        JsonFault::NotJson => plain(alloc, "json fault 1"),
        JsonFault::Missing(_) => plain(alloc, "json fault 2"),
        JsonFault::WrongKind(_) => plain(alloc, "json fault 3"),
        JsonFault::Row(_) => plain(alloc, "json fault 4"),
        JsonFault::Memory => Ok(None),
    }
}

/// The text of a text that is no search.
fn write_search_fault(alloc: Global, fault: SearchFault) -> Result<Option<Text>, Memory>
    ensures { IfOk result (λ text. text ≡ search_fault_text fault) }
{
    match fault {
        SearchFault::OpenQuote(place) => told_number(alloc, "search fault 1 at ", place),
        SearchFault::OpenGroup(place) => told_number(alloc, "search fault 2 at ", place),
        SearchFault::EmptyGroup(place) => told_number(alloc, "search fault 3 at ", place),
        SearchFault::LoneOr(place) => told_number(alloc, "search fault 4 at ", place),
        SearchFault::BadValue(place) => told_number(alloc, "search fault 5 at ", place),
        SearchFault::TooDeep(place) => told_number(alloc, "search fault 6 at ", place),
        SearchFault::Memory => Ok(None),
    }
}
