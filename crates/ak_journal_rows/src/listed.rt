ghost use Rattle.std.specs.Prelude.{◌≡◌, List as Sequence, IfOk, Some, map};
ghost use Rattle.std.specs.Bool.{Decides};
ghost use Rattle.std.specs.List.{All};
ghost use Rattle.serde_json.specs.Find.{get};
ghost use Rattle.serde_json.specs.View.{items_of, items_view, view};
ghost use Rattle.ak_journal_rows.specs.Changes.{AreListed};
ghost use Rattle.ak_journal_rows.specs.Listed.{IsBeforeFirst};
ghost use Rattle.ak_journal_rows.specs.Reads.{IsReadAsOrMemory};
ghost use Rattle.ak_journal_rows.specs.Texts.{list_json};

use crate::entries::Entry;
use crate::faults::ChangeFault;
use crate::values::under;
use ak_base::{List, Memory};
use serde_json::Value;
use std::alloc::Global;

/// Whether each of these has what is asked of it, and their names ascend.
pub(crate) fn are_listed<E: Entry>(entries: &[E]) -> bool
    ensures { Decides result (AreListed E.fits E.named entries.now) }
{
    let mut rest = entries;
    while let Some((entry, others)) = rest.split_first() {
        if !(entry.fits() & is_before_first(entry, others)) {
            return false;
        }
        rest = others;
    }
    true
}

/// Whether its name is before that of the first of the others; true if there is no other.
fn is_before_first<E: Entry>(entry: &E, others: &[E]) -> bool
    ensures { Decides result (IsBeforeFirst E.named entry.now others.now) }
{
    match others.first() {
        Some(next) => entry.named() < next.named(),
        None => true,
    }
}

/// The entries of the list under a key.
pub(crate) fn list_under<E: Entry>(
    alloc: Global,
    value: &Value,
    key: &str,
) -> Result<List<E>, ChangeFault>
    ensures { (entries : Sequence E) → All E.fits entries → get key.now (view value.now) ≡ Some (list_json E.json entries) → IsReadAsOrMemory entries result }
{
    let found = under(value, key)?;
    match found.as_array() {
        Some(values) => read_each(alloc, values.as_slice()),
        None => Err(ChangeFault::NotOfForm),
    }
}

/// The entries of these values.
fn read_each<E: Entry>(alloc: Global, values: &[Value]) -> Result<List<E>, ChangeFault>
    ensures { (entries : Sequence E) → All E.fits entries → items_view values.now ≡ items_of (map E.json entries) → IsReadAsOrMemory entries result }
{
    let mut entries = List::new(alloc);
    let mut rest = values;
    while let Some((value, others)) = rest.split_first() {
        let entry = E::read(alloc, value)?;
        entries.push(entry)?;
        rest = others;
    }
    Ok(entries)
}

/// The array of these entries.
pub(crate) fn write_list<E: Entry>(alloc: Global, entries: &[E]) -> Result<Value, Memory>
    ensures { IfOk result (λ value. view value ≡ list_json E.json entries.now) }
{
    let mut values = Vec::new(alloc);
    for entry in entries {
        let value = entry.write(alloc)?;
        values.push(value)?;
    }
    Ok(Value::Array(values))
}
