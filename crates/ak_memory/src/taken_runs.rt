// The ids of each table that were found to be taken, so that nobody walks over them again to find a free one.
ghost use Rattle.std.specs.Prelude.{◌≡◌, ◌≤ℤ◌, false, if◌then◌else◌};
ghost use Rattle.ak_base.specs.Limits.{last_id};
ghost use Rattle.ak_memory.specs.TakenRuns.{IsRun, is_used_under, kept_run, no_run, no_runs, run_before, run_of, run_reaching, runs_before, with_run};

use crate::by_name::{Places, is_used};
use ak_base::{LAST_ID, Name, Table};

/// For each table a run of ids that are taken. A table of graves has none, since nobody makes up ids for its rows.
#[derive(Clone, Copy, Debug)]
pub(crate) struct TakenRuns {
    note: TakenRun,
    card: TakenRun,
    review: TakenRun,
    note_type: TakenRun,
    deck: TakenRun,
    options: TakenRun,
}

/// The ids from `from` on and before `end`.
#[derive(Clone, Copy, Debug)]
pub(crate) struct TakenRun {
    pub from: i64,
    pub end: i64,
}

impl TakenRuns {
    /// No ids in any table.
    pub(crate) fn none() -> TakenRuns
        ensures { result ≡ no_runs }
    {
        TakenRuns {
            note: TakenRun::none(),
            card: TakenRun::none(),
            review: TakenRun::none(),
            note_type: TakenRun::none(),
            deck: TakenRun::none(),
            options: TakenRun::none(),
        }
    }

    /// The run of the table.
    pub(crate) fn of(self, table: Table) -> TakenRun
        ensures { result ≡ run_of table self }
    {
        match table {
            Table::Note => self.note,
            Table::Card => self.card,
            Table::Review => self.review,
            Table::NoteType => self.note_type,
            Table::Deck => self.deck,
            Table::Options => self.options,
            Table::NoteGrave | Table::CardGrave | Table::DeckGrave => TakenRun::none(),
        }
    }

    /// Keeps this run for the table, if it has an id. One without any tells nothing, so the run that is known stays.
    pub(crate) fn keep(&mut self, table: Table, run: TakenRun)
        ensures { self.new ≡ kept_run table run self.old }
    {
        if run.from < run.end {
            self.set(table, run);
        }
    }

    /// Puts this run in place of the table's.
    fn set(&mut self, table: Table, run: TakenRun)
        ensures { self.new ≡ with_run table run self.old }
    {
        match table {
            Table::Note => self.note = run,
            Table::Card => self.card = run,
            Table::Review => self.review = run,
            Table::NoteType => self.note_type = run,
            Table::Deck => self.deck = run,
            Table::Options => self.options = run,
            Table::NoteGrave | Table::CardGrave | Table::DeckGrave => {}
        }
    }

    /// Ends each run before the id of this name, which may be free from now on. A grave bears the id of a row of another
    /// table, so the runs of all tables end there.
    pub(crate) fn end_before(&mut self, name: Name)
        ensures { self.new ≡ runs_before name.id self.old }
    {
        self.note = self.note.before(name);
        self.card = self.card.before(name);
        self.review = self.review.before(name);
        self.note_type = self.note_type.before(name);
        self.deck = self.deck.before(name);
        self.options = self.options.before(name);
    }
}

impl TakenRun {
    /// No ids.
    fn none() -> TakenRun
        ensures { result ≡ no_run }
    {
        TakenRun { from: 0, end: 0 }
    }

    /// The run up to the id of this name, if the id is in it.
    fn before(self, name: Name) -> TakenRun
        ensures { result ≡ run_before name.id self }
    {
        if self.from <= name.id && name.id < self.end {
            return TakenRun {
                from: self.from,
                end: name.id,
            };
        }
        self
    }

    /// The run, if the id of this name is in it or comes right after it, and else an empty one at the id.
    pub(crate) fn reaching(self, name: Name) -> TakenRun
        ensures { result ≡ run_reaching name.id self }
    {
        if self.from <= name.id && name.id <= self.end {
            return self;
        }
        TakenRun {
            from: name.id,
            end: name.id,
        }
    }

    /// The run with the ids after it that are taken, up to one that is free or past the last id: a step for each.
    pub(crate) fn extended(self, places: &Places, table: Table) -> TakenRun
        requires { IsRun (is_used_under places.now.entries) table self }
        ensures run { IsRun (is_used_under places.now.entries) table result }
        ensures from { result.from ≡ self.from }
        ensures ahead { self.end ≤ℤ result.end }
        ensures free { result.end ≤ℤ last_id → is_used_under places.now.entries (record { table = table; id = result.end }) ≡ false }
    {
        let mut name = Name {
            table,
            id: self.end,
        };
        while name.id <= LAST_ID && is_used(places, name) {
            name = name.next();
        }
        TakenRun {
            from: self.from,
            end: name.id,
        }
    }
}
