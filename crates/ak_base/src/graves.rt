ghost use Rattle.std.specs.Prelude.{◌≡◌};
ghost use Rattle.ak_base.specs.Columns.{first_fault};
ghost use Rattle.ak_base.specs.Graves.{grave_faults, grave_table, buried_by, buried_table};

use crate::columns::{code_fault, first_fault, id_fault};
use crate::{LAST_USN, Name, RowFault, Table};

/// That a row was deleted, as schema 11's `graves` keeps it.
#[derive(Clone, Copy, Debug, PartialEq, Eq)]
pub struct Grave {
    /// The update sequence number (usn), -1 for a grave that was not sent yet.
    pub usn: i64,
    /// The id of the row that was deleted.
    pub oid: i64,
    /// 0 card, 1 note, 2 deck: the column `type`.
    pub kind: i64,
}

impl Grave {
    /// The first column that is out of its range.
    pub fn check(&self) -> Result<(), RowFault>
        ensures { result ≡ first_fault (grave_faults self.now) }
    {
        first_fault(&[
            code_fault(0, self.usn, -1, LAST_USN),
            id_fault(self.oid),
            code_fault(2, self.kind, 0, 2),
        ])
    }

    /// The name of the row that was deleted.
    pub fn buried(&self) -> Name
        ensures { result ≡ buried_by self.now }
    {
        Name {
            table: self.buried_table(),
            id: self.oid,
        }
    }

    /// The table of the row that was deleted.
    fn buried_table(&self) -> Table
        ensures { result ≡ buried_table self.now.kind }
    {
        match Table::of_grave_code(self.kind) {
            Some(table) => table,
            None => Table::Deck,
        }
    }

    /// The table of graves that it stands in.
    pub(crate) fn table(&self) -> Table
        ensures { result ≡ grave_table self.now.kind }
    {
        match Table::of_grave_code(self.kind) {
            Some(table) => match table.graves() {
                Some(graves) => graves,
                None => Table::DeckGrave,
            },
            None => Table::DeckGrave,
        }
    }
}
