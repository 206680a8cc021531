ghost use Rattle.std.specs.Prelude.{map, IfOk};
ghost use Rattle.csv.specs.Records.{fields_of};
ghost use Rattle.ak_csv.specs.CsvTexts.{AreRows};

use ak_base::Memory;
use csv::{ByteRecord, ReaderBuilder};
use std::alloc::Global;

/// The rows of a text. It is refused only if memory runs out: a read of bytes has no other fault.
pub(crate) fn rows_of(alloc: Global, text: &[u8]) -> Result<Vec<ByteRecord>, Memory>
    ensures { IfOk result (λ rows. AreRows text.now (map fields_of rows.items)) }
{
    let reader = ReaderBuilder::new()
        .has_headers(false)
        .flexible(true)
        .from_reader(alloc, text);
    let mut rows = Vec::new(alloc);
    for row in reader.into_byte_records() {
        match row {
            Ok(row) => rows.push(row)?,
            Err(_) => return Err(Memory),
        }
    }
    Ok(rows)
}
