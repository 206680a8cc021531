ghost use Rattle.std.specs.Bool.{Decides};
ghost use Rattle.std.specs.Prelude.{IfSome};
ghost use Rattle.ak_base.specs.Heads.{IsHeadInRange};
ghost use Rattle.ak_journal_rows.specs.Changes.{IsOfForm};

use crate::apart::are_apart;
use crate::listed::are_listed;
use ak_base::{Head, List, Name, Row};

/// What a commit changed of a collection.
#[derive(Debug, Drop)]
pub struct Change {
    /// Whether all rows were replaced. Then those that are put are all that there are.
    pub all: bool,
    /// The names under which no row is held any more, by table and then by id.
    pub cut: List<Name>,
    /// The head, if it was set.
    pub head: Option<Head>,
    /// The rows that are held now, by table and then by id.
    pub put: List<Row>,
}

impl Change {
    /// Whether names and rows ascend, no name is both cut and put, rows and head are in their ranges, and a head was set if all
    /// rows were replaced. It takes no memory.
    pub fn is_of_form(&self) -> bool
        ensures { Decides result (IsOfForm self.now) }
    {
        let cut = self.cut.as_slice();
        let put = self.put.as_slice();
        if !(are_listed(cut) & are_listed(put)) {
            return false;
        }
        are_apart(cut, put) & is_in_range(&self.head) & (!self.all | self.head.is_some())
    }
}

/// Whether a head is in its range, if there is one.
fn is_in_range(head: &Option<Head>) -> bool
    ensures { Decides result (IfSome head.now IsHeadInRange) }
{
    match head {
        Some(head) => head.is_in_range(),
        None => true,
    }
}
