// The places of rows, each with its row as it is now and as it was at the mark.
ghost use Rattle.std.specs.Prelude.{◌≡◌, true, false, not, ◌&&◌, None, is_some};
ghost use Rattle.std.specs.Option.{option_and_then, option_copied};
ghost use Rattle.ak_memory.specs.FoundBy.{found_by};
ghost use Rattle.ak_memory.specs.NoteKeys.{note_of_card};
ghost use Rattle.ak_memory.specs.HeldRows.{held_in, row_in};
ghost use Rattle.ak_memory.specs.Places.{is_changed, row_at, row_before, row_now};
ghost use Rattle.ak_memory.specs.declared.versions.Version.{Version as WhichVersion};
ghost use Rattle.ak_memory.specs.declared.versions.Version.TheVariants.{Mark, Now};

use crate::held_rows::{FoundBy, HeldRow, Replacement};
use crate::versions::Version;
use std::mem;

/// What is held under a name now, and what was held there at the mark. Most places have one row, which is held in both
/// or in one of them. So only a row that replaced another has room for both, and that in a box.
#[derive(Debug, Drop)]
pub(crate) enum Place {
    /// Nothing is held, and nothing was.
    Empty,
    /// Nothing is held, and nothing was, but it counts as changed.
    Opened,
    /// This row is held, and was at the mark.
    Same(HeldRow),
    /// This row is held, and none was at the mark.
    Added(HeldRow),
    /// No row is held, and this one was at the mark.
    Removed(HeldRow),
    /// A row is held in place of what was at the mark.
    Replaced(Box<Replacement>),
}

/// What was under a name before it was changed.
#[derive(Clone, Copy, Debug)]
pub(crate) struct Change {
    /// Whether it was not changed since the mark.
    pub first: bool,
    /// Whether a row was held.
    pub held: bool,
    /// What the row was found by, if it was a card.
    pub card: Option<FoundBy>,
}

impl Place {
    /// A place that holds nothing, and held nothing at the mark. It counts as changed.
    pub(crate) fn opened() -> Place
        ensures now { row_at Now result ≡ None }
        ensures mark { row_at Mark result ≡ None }
        ensures changed { is_changed result ≡ true }
    {
        Place::Opened
    }

    /// The row that is held now.
    pub(crate) fn row(&self) -> Option<&HeldRow>
        ensures { held_in (option_copied result) ≡ row_at Now self.now }
    {
        match self {
            Place::Same(row) => Some(row),
            Place::Added(row) => Some(row),
            Place::Replaced(both) => Some(&both.row),
            Place::Empty | Place::Opened | Place::Removed(_) => None,
        }
    }

    /// The note that its row is a card of, now or at the mark.
    pub(crate) fn note(&self, version: Version) -> Option<i64>
        ensures { result ≡ option_and_then note_of_card (row_at version self.now) }
    {
        match self.row_of(version) {
            Some(row) => row.note(),
            None => None,
        }
    }

    /// What its row, now or at the mark, is found by, if it is a card.
    pub(crate) fn found_by(&self, version: Version) -> Option<FoundBy>
        ensures { result ≡ option_and_then found_by (row_at version self.now) }
    {
        match self.row_of(version) {
            Some(row) => row.found_by(),
            None => None,
        }
    }

    /// The row that is held now, or that was held at the mark.
    fn row_of(&self, version: Version) -> Option<&HeldRow>
        ensures { held_in (option_copied result) ≡ row_at version self.now }
    {
        match version {
            Version::Now => self.row(),
            Version::Mark => self.row_before(),
        }
    }

    /// The row that was held at the mark.
    fn row_before(&self) -> Option<&HeldRow>
        ensures { held_in (option_copied result) ≡ row_at Mark self.now }
    {
        match self {
            Place::Same(row) => Some(row),
            Place::Removed(row) => Some(row),
            Place::Replaced(both) => both.before.as_ref(),
            Place::Empty | Place::Opened | Place::Added(_) => None,
        }
    }

    /// Whether a row is held now.
    pub(crate) fn is_held(&self) -> bool
        ensures { result ≡ is_some (row_at Now self.now) }
    {
        match self {
            Place::Same(_) | Place::Added(_) | Place::Replaced(_) => true,
            Place::Empty | Place::Opened | Place::Removed(_) => false,
        }
    }

    /// Whether it was not changed since the mark.
    pub(crate) fn is_unchanged(&self) -> bool
        ensures { result ≡ not (is_changed self.now) }
    {
        match self {
            Place::Empty | Place::Same(_) => true,
            Place::Opened | Place::Added(_) | Place::Removed(_) | Place::Replaced(_) => false,
        }
    }

    /// Whether it holds nothing, held nothing at the mark, and does not count as changed.
    pub(crate) fn is_empty(&self) -> bool
        ensures { result ≡ (not (is_changed self.now) && not (is_some (row_at Now self.now))) }
    {
        match self {
            Place::Empty => true,
            Place::Opened | Place::Same(_) | Place::Added(_) => false,
            Place::Removed(_) | Place::Replaced(_) => false,
        }
    }

    /// Holds this row from now on, or none. It takes no memory.
    pub(crate) fn hold(&mut self, row: Option<Box<Replacement>>) -> Change
        ensures now { row_at Now self.new ≡ row_in row }
        ensures mark { row_at Mark self.new ≡ row_at Mark self.old }
        ensures changed { is_changed self.new ≡ true }
        ensures first { result.first ≡ not (is_changed self.old) }
        ensures held { result.held ≡ is_some (row_at Now self.old) }
        ensures card { result.card ≡ option_and_then found_by (row_at Now self.old) }
    {
        let change = Change {
            first: self.is_unchanged(),
            held: self.is_held(),
            card: self.found_by(Version::Now),
        };
        let before = mem::replace(self, Place::Empty).into_row(Version::Mark);
        *self = Place::changed(row, before);
        change
    }

    /// A changed place that holds this row, or none, and held this row at the mark, or none. It takes no memory.
    fn changed(row: Option<Box<Replacement>>, before: Option<HeldRow>) -> Place
        ensures now { row_at Now result ≡ row_in row }
        ensures mark { row_at Mark result ≡ held_in before }
        ensures changed { is_changed result ≡ true }
    {
        match (row, before) {
            (None, None) => Place::Opened,
            (None, Some(before)) => Place::Removed(before),
            (Some(row), None) => Place::Added(Box::into_inner(row).row),
            (Some(row), Some(before)) => {
                let mut row = row;
                row.before = Some(before);
                Place::Replaced(row)
            }
        }
    }

    /// Holds from now on what it holds, or what it held at the mark, and is not changed. It takes no memory.
    pub(crate) fn settle(&mut self, version: Version)
        ensures row { (each : WhichVersion) → row_at each self.new ≡ row_at version self.old }
        ensures changed { is_changed self.new ≡ false }
    {
        match mem::replace(self, Place::Empty).into_row(version) {
            Some(row) => *self = Place::Same(row),
            None => {}
        }
    }

    /// The row that it holds, or that it held at the mark.
    fn into_row(self, version: Version) -> Option<HeldRow>
        ensures { held_in result ≡ row_at version self }
    {
        match version {
            Version::Now => self.into_row_now(),
            Version::Mark => self.into_row_before(),
        }
    }

    /// The row that it holds.
    fn into_row_now(self) -> Option<HeldRow>
        ensures { held_in result ≡ row_now self }
    {
        match self {
            Place::Same(row) => Some(row),
            Place::Added(row) => Some(row),
            Place::Replaced(both) => Some(Box::into_inner(both).row),
            Place::Empty | Place::Opened | Place::Removed(_) => None,
        }
    }

    /// The row that it held at the mark.
    fn into_row_before(self) -> Option<HeldRow>
        ensures { held_in result ≡ row_before self }
    {
        match self {
            Place::Same(row) => Some(row),
            Place::Removed(row) => Some(row),
            Place::Replaced(both) => Box::into_inner(both).before,
            Place::Empty | Place::Opened | Place::Added(_) => None,
        }
    }
}
