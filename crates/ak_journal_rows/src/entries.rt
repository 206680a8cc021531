ghost use Rattle.std.specs.Prelude.{◌≡◌, IfOk, Some};
ghost use Rattle.std.specs.Bool.{Decides};
ghost use Rattle.serde_json.specs.Data.{Data};
ghost use Rattle.serde_json.specs.Find.{at};
ghost use Rattle.serde_json.specs.View.{view};
ghost use Rattle.ak_base.specs.Rows.{IsChecked, name_of};
ghost use Rattle.ak_base.specs.declared.names.Name.{Name as AnyName};
ghost use Rattle.ak_base.specs.declared.names.Table.{Table as AnyTable};
ghost use Rattle.ak_base.specs.declared.rows.Row.{Row as AnyRow};
ghost use Rattle.ak_json.specs.Rows.{row_json};
ghost use Rattle.ak_journal_rows.specs.Changes.{HasWordId, own_name};
ghost use Rattle.ak_journal_rows.specs.Reads.{IsReadAsOrMemory};
ghost use Rattle.ak_journal_rows.specs.Texts.{both, entry_json, name_json, table_json};

use crate::faults::ChangeFault;
use ak_base::{Memory, Name, Row, Table};
use ak_json::{read_row, write_row};
use serde_json::Value;
use std::alloc::Global;

/// What a list of a change holds: a name that is cut, or a row that is put.
pub(crate) trait Entry: Sized + Drop {
    ghost named: { Self → AnyName };

    ghost fits: { Self → Type 0 };

    ghost json: { Self → Data };

    /// The name by which it is listed.
    fn named(&self) -> Name
        ensures { result ≡ named self.now };

    /// Whether it has what is asked of it. It takes no memory.
    fn fits(&self) -> bool
        ensures { Decides result (fits self.now) };

    /// What a value is the entry of.
    fn read(alloc: Global, value: &Value) -> Result<Self, ChangeFault>
        ensures { (one : Self) → fits one → view value.now ≡ json one → IsReadAsOrMemory one result };

    /// The value of its entry.
    fn write(&self, alloc: Global) -> Result<Value, Memory>
        ensures { IfOk result (λ value. view value ≡ json self.now) };
}

impl Entry for Name {
    ghost named = { own_name };

    ghost fits = { HasWordId };

    ghost json = { name_json };

    fn named(&self) -> Name {
        *self
    }

    fn fits(&self) -> bool {
        // It never answers false: the proof needs the fact.
        i64::MIN <= self.id && self.id <= i64::MAX
    }

    fn read(_alloc: Global, value: &Value) -> Result<Name, ChangeFault> {
        match name_at(value) {
            Some(name) => Ok(name),
            None => Err(ChangeFault::NotOfForm),
        }
    }

    fn write(&self, alloc: Global) -> Result<Value, Memory> {
        write_pair(alloc, self.table, Value::from(self.id))
    }
}

impl Entry for Row {
    ghost named = { name_of };

    ghost fits = { IsChecked };

    ghost json = { entry_json };

    fn named(&self) -> Name {
        self.name()
    }

    fn fits(&self) -> bool {
        self.check().is_ok()
    }

    fn read(alloc: Global, value: &Value) -> Result<Row, ChangeFault> {
        match table_at(value) {
            Some(table) => row_at(alloc, table, value),
            None => Err(ChangeFault::NotOfForm),
        }
    }

    fn write(&self, alloc: Global) -> Result<Value, Memory> {
        let row = write_row(alloc, self)?;
        write_pair(alloc, self.name().table, row)
    }
}

/// The name of which a value is the entry.
fn name_at(value: &Value) -> Option<Name>
    ensures { (name : AnyName) → HasWordId name → view value.now ≡ name_json name → result ≡ Some name }
{
    let table = table_at(value)?;
    let id = value.get(1_usize).and_then(Value::as_i64)?;
    Some(Name { table, id })
}

/// The table whose number is the first of an array.
fn table_at(value: &Value) -> Option<Table>
    ensures { (table : AnyTable) → at 0 (view value.now) ≡ Some (table_json table) → result ≡ Some table }
{
    match value.get(0_usize) {
        Some(number) => table_of(number),
        None => None,
    }
}

/// The table of which this is the number.
fn table_of(number: &Value) -> Option<Table>
    ensures { (table : AnyTable) → view number.now ≡ table_json table → result ≡ Some table }
{
    match number.as_u64() {
        Some(place) => Table::all().get(place as usize).copied(),
        None => None,
    }
}

/// The row of that table that is the second of an array.
fn row_at(alloc: Global, table: Table, value: &Value) -> Result<Row, ChangeFault>
    ensures { (row : AnyRow) → IsChecked row → table ≡ (name_of row).table → at 1 (view value.now) ≡ Some (row_json row) → IsReadAsOrMemory row result }
{
    match value.get(1_usize) {
        Some(found) => row_of(alloc, table, found),
        None => Err(ChangeFault::NotOfForm),
    }
}

/// The row of that table that a value stands for.
fn row_of(alloc: Global, table: Table, value: &Value) -> Result<Row, ChangeFault>
    ensures { (row : AnyRow) → IsChecked row → table ≡ (name_of row).table → view value.now ≡ row_json row → IsReadAsOrMemory row result }
{
    match read_row(alloc, table, value) {
        Ok(row) => Ok(row),
        Err(fault) => Err(ChangeFault::from(fault)),
    }
}

/// The array of a table's number and this value.
fn write_pair(alloc: Global, table: Table, value: Value) -> Result<Value, Memory>
    ensures { IfOk result (λ pair. view pair ≡ both (table_json table) (view value)) }
{
    let number = Value::from(table.place() as u64);
    Ok(Value::Array(vec![in alloc; number, value]?))
}
