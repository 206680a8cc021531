ghost use Rattle.std.specs.Prelude.{◌≡◌, ◌⊎◌, ◌==◌, [], None, Some, true, false, drop, length, map, slice_index_or, IfErr, IfOk, OnOk};
ghost use Rattle.std.specs.BTreeSet.{contains_text};
ghost use Rattle.std.specs.List.{slice_split};
ghost use Rattle.csv.specs.Records.{fields_of};
ghost use Rattle.ak_csv.specs.CsvTexts.{IsReadAs, IsRefusedFor};
ghost use Rattle.ak_csv.specs.RecordRows.{IsShaped, guid_of, has_columns, record_of, row_fault, rows_fault, tags_between};
ghost use Rattle.ak_csv.specs.declared.csv_faults.CsvFault.TheVariants as faults;

use crate::csv_faults::CsvFault;
use crate::record_rules::RecordRules;
use crate::rows::rows_of;
use ak_base::{List, Memory, Text, copy_texts};
use ak_imports::Record;
use csv::{ByteRecord, StringRecord};
use std::alloc::Global;

/// Reads the records of a text, or tells the first one that breaks a rule. A byte order mark at the start is taken off.
pub fn read_records(
    alloc: Global,
    text: &[u8],
    rules: &RecordRules,
) -> Result<List<Record>, CsvFault>
    ensures read { IfOk result (IsReadAs rules.now.fields (contains_text rules.now.others) text.now) }

    // It is refused for the first record that breaks a rule, or memory was out.
    ensures refused { IfErr result (λ fault. (fault ≡ faults.Memory)
        ⊎ IsRefusedFor rules.now.fields (contains_text rules.now.others) text.now fault) }
{
    match rows_of(alloc, text) {
        Ok(rows) => records_of(alloc, rows, rules),
        Err(Memory) => Err(CsvFault::Memory),
    }
}

/// The records of the rows, or the first fault.
fn records_of(
    alloc: Global,
    rows: Vec<ByteRecord>,
    rules: &RecordRules,
) -> Result<List<Record>, CsvFault>
    ensures read { IfOk result (λ records. (rows_fault rules.now.fields (contains_text rules.now.others) 1 (map fields_of rows.items) ≡ None)
        × (records ≡ map record_of (map fields_of rows.items))) }
    ensures refused { IfErr result (λ fault. (fault ≡ faults.Memory)
        ⊎ (rows_fault rules.now.fields (contains_text rules.now.others) 1 (map fields_of rows.items) ≡ Some fault)) }
{
    let mut records = List::new(alloc);
    let mut number = 0;
    for row in rows {
        number += 1;
        records.push(record_of(alloc, row, number, rules)?)?;
    }
    Ok(records)
}

/// The record of the row of this number, or its fault.
fn record_of(
    alloc: Global,
    row: ByteRecord,
    number: u64,
    rules: &RecordRules,
) -> Result<Record, CsvFault>
    ensures read { IfOk result (λ made. (row_fault rules.now.fields (contains_text rules.now.others) number (fields_of row) ≡ None)
        × (made ≡ record_of (fields_of row))) }
    ensures refused { IfErr result (λ fault. (fault ≡ faults.Memory)
        ⊎ (row_fault rules.now.fields (contains_text rules.now.others) number (fields_of row) ≡ Some fault)) }
{
    check_shape(&row, number, rules)?;
    match StringRecord::from_byte_record(row) {
        Ok(texts) => record_of_texts(alloc, &texts, number, rules),
        Err(_) => Err(CsvFault::Csv(number)),
    }
}

/// Tests the number of the columns, and that there is a guid.
fn check_shape(row: &ByteRecord, number: u64, rules: &RecordRules) -> Result<(), CsvFault>
    ensures shaped { OnOk result (IsShaped rules.now.fields (fields_of row.now)) }
    ensures refused { IfErr result (λ fault. row_fault rules.now.fields (contains_text rules.now.others) number (fields_of row.now) ≡ Some fault) }
{
    if !has_columns(rules.fields, row.len()) {
        return Err(CsvFault::Columns(number));
    }
    if is_unnamed(row) {
        return Err(CsvFault::NoGuid(number));
    }
    Ok(())
}

/// Whether a row may have so many columns.
fn has_columns(fields: Option<u64>, columns: usize) -> bool
    ensures { result ≡ has_columns fields columns }
{
    match fields {
        Some(fields) => columns >= 2 && columns as u64 - 2 == fields,
        None => columns >= 2,
    }
}

/// Whether a row has no guid.
fn is_unnamed(row: &ByteRecord) -> bool
    ensures { result ≡ (length (guid_of (fields_of row.now)) == 0) }
{
    match row.get(0) {
        Some(guid) => guid.is_empty(),
        None => true,
    }
}

/// The record of a row of texts, unless another type has its guid.
fn record_of_texts(
    alloc: Global,
    row: &StringRecord,
    number: u64,
    rules: &RecordRules,
) -> Result<Record, CsvFault>
    ensures read { IfOk result (λ made. (contains_text rules.now.others (guid_of (fields_of row.now)) ≡ false)
        × (made ≡ record_of (fields_of row.now))) }
    ensures refused { IfErr result (λ fault. (fault ≡ faults.Memory)
        ⊎ (contains_text rules.now.others (guid_of (fields_of row.now)) ≡ true) × (fault ≡ faults.OtherType number)) }
{
    let guid = column(row, 0);
    if rules.others.contains(guid) {
        return Err(CsvFault::OtherType(number));
    }
    let guid = Text::of(alloc, guid)?;
    let tags = tags_between(alloc, column(row, 1))?;
    let fields = fields_of_row(alloc, row)?;
    Ok(Record { guid, tags, fields })
}

/// The column of this place, empty if there is none.
fn column(row: &StringRecord, place: usize) -> &str
    ensures { result.now ≡ slice_index_or (fields_of row.now) place [] }
{
    match row.get(place) {
        Some(column) => column,
        None => "",
    }
}

/// The columns after the guid and the tags.
fn fields_of_row(alloc: Global, row: &StringRecord) -> Result<List<Text>, Memory>
    ensures { IfOk result (λ fields. fields ≡ drop 2 (fields_of row.now)) }
{
    let mut fields = List::new(alloc);
    for place in 2..row.len() {
        fields.push(Text::of(alloc, column(row, place))?)?;
    }
    Ok(fields)
}

/// The tags of a column.
fn tags_between(alloc: Global, column: &str) -> Result<List<Text>, Memory>
    ensures { IfOk result (λ tags. tags ≡ tags_between column.now) }
{
    if column.is_empty() {
        return Ok(List::new(alloc));
    }
    let words = words_of(alloc, column)?;
    copy_texts(alloc, words.as_slice())
}

/// The words between spaces, empty ones too.
fn words_of(alloc: Global, text: &str) -> Result<Vec<&str>, Memory>
    ensures { IfOk result (λ words. map (λ word. word.now) words.items ≡ slice_split (λ byte. byte == 32) text.now) }
{
    let words: Vec<&str> = text.split(' ').collect(alloc)?;
    Ok(words)
}
