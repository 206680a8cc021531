ghost use Rattle.std.specs.Prelude.{◌≡◌, ◌≤ℤ◌};
ghost use Rattle.ak_base.specs.Limits.{last_id};
ghost use Rattle.ak_base.specs.Names.{table_place, name_cmp, next_name};
ghost use Rattle.ak_base.specs.Tables.{all_tables, buried_in, buried_name, grave_code, grave_name, graves_of, of_grave_code, stored_code};

use std::cmp::Ordering;

/// The kinds of rows, in the order in which a collection lists them.
#[derive(Clone, Copy, Debug, PartialEq, Eq)]
pub enum Table {
    Note,
    Card,
    Review,
    NoteType,
    Deck,
    Options,
    NoteGrave,
    CardGrave,
    DeckGrave,
}

impl Table {
    /// Every table, in their order.
    pub fn all() -> [Table; 9]
        ensures { result ≡ all_tables }
    {
        [
            Table::Note,
            Table::Card,
            Table::Review,
            Table::NoteType,
            Table::Deck,
            Table::Options,
            Table::NoteGrave,
            Table::CardGrave,
            Table::DeckGrave,
        ]
    }

    /// The table of the graves that its rows leave. Only notes, cards and decks leave graves.
    pub fn graves(self) -> Option<Table>
        ensures { result ≡ graves_of self }
    {
        match self {
            Table::Note => Some(Table::NoteGrave),
            Table::Card => Some(Table::CardGrave),
            Table::Deck => Some(Table::DeckGrave),
            Table::Review | Table::NoteType | Table::Options => None,
            Table::NoteGrave | Table::CardGrave | Table::DeckGrave => None,
        }
    }

    /// The table of the rows whose graves it holds: the inverse of `graves`.
    pub fn buried(self) -> Option<Table>
        ensures { result ≡ buried_in self }
    {
        match self {
            Table::NoteGrave => Some(Table::Note),
            Table::CardGrave => Some(Table::Card),
            Table::DeckGrave => Some(Table::Deck),
            Table::Note | Table::Card | Table::Deck => None,
            Table::Review | Table::NoteType | Table::Options => None,
        }
    }

    /// The stored code of the graves that its rows leave: 0 for cards, 1 for notes, 2 for decks.
    pub fn grave_code(self) -> Option<i64>
        ensures { result ≡ grave_code self }
    {
        match self {
            Table::Card => Some(0),
            Table::Note => Some(1),
            Table::Deck => Some(2),
            Table::Review | Table::NoteType | Table::Options => None,
            Table::NoteGrave | Table::CardGrave | Table::DeckGrave => None,
        }
    }

    /// The stored code of the graves that it holds: 0 for cards, 1 for notes, 2 for decks.
    pub fn stored_code(self) -> Option<i64>
        ensures { result ≡ stored_code self }
    {
        match self.buried() {
            Some(table) => table.grave_code(),
            None => None,
        }
    }

    /// The table whose rows leave graves with a stored code: the inverse of `grave_code`.
    pub fn of_grave_code(code: i64) -> Option<Table>
        ensures { result ≡ of_grave_code code }
    {
        match code {
            0 => Some(Table::Card),
            1 => Some(Table::Note),
            2 => Some(Table::Deck),
            _ => None,
        }
    }

    /// Where the table stands in their order, from 0.
    pub fn place(self) -> u8
        ensures { result ≡ table_place self }
    {
        match self {
            Table::Note => 0,
            Table::Card => 1,
            Table::Review => 2,
            Table::NoteType => 3,
            Table::Deck => 4,
            Table::Options => 5,
            Table::NoteGrave => 6,
            Table::CardGrave => 7,
            Table::DeckGrave => 8,
        }
    }
}

/// What a row is called: its table and its id there, in milliseconds of when it was made. Names go by
/// table, then by id. A grave bears the id of the row that was deleted.
#[derive(Clone, Copy, Debug)]
pub struct Name {
    pub table: Table,
    pub id: i64,
}

impl Name {
    /// The name of the next id in its table.
    pub fn next(self) -> Name
        requires { self.id ≤ℤ last_id }
        ensures { result ≡ next_name self }
    {
        Name {
            table: self.table,
            id: self.id + 1,
        }
    }

    /// The name of the grave that a row of this name leaves.
    pub fn grave(self) -> Option<Name>
        ensures { result ≡ grave_name self }
    {
        match self.table.graves() {
            Some(table) => Some(Name { table, id: self.id }),
            None => None,
        }
    }

    /// The name of the row whose grave has this name: the inverse of `grave`.
    pub fn buried(self) -> Option<Name>
        ensures { result ≡ buried_name self }
    {
        match self.table.buried() {
            Some(table) => Some(Name { table, id: self.id }),
            None => None,
        }
    }
}

impl PartialEq for Name {
    ghost use Rattle.std.specs.Ordering.{eq_by_cmp};
    ghost use Rattle.std.specs.Cmp.{partial_equiv_from_equiv, eq_by_cmp_equiv};
    ghost use Rattle.ak_base.specs.Names.{name_cmp, names_total};

    ghost eq = { eq_by_cmp name_cmp };

    ghost laws = { partial_equiv_from_equiv (eq_by_cmp_equiv names_total) };

    fn eq(&self, other: &Name) -> bool {
        self.table.place() == other.table.place() && self.id == other.id
    }
}

impl Eq for Name {
    ghost use Rattle.std.specs.Cmp.{eq_by_cmp_equiv};
    ghost use Rattle.ak_base.specs.Names.{names_total};

    ghost laws = { eq_by_cmp_equiv names_total };
}

impl PartialOrd for Name {
    ghost use Rattle.std.specs.Ordering.{as_partial_cmp};
    ghost use Rattle.std.specs.Cmp.Rules.{comparing};
    ghost use Rattle.std.proofs.Common.{rules};
    ghost use Rattle.ak_base.specs.Names.{name_cmp, names_total};

    ghost partial_cmp = { as_partial_cmp name_cmp };

    ghost laws = { Prim.search (comparing, rules, names_total) };

    fn partial_cmp(&self, other: &Name) -> Option<Ordering> {
        Some(self.cmp(other))
    }
}

impl Ord for Name {
    ghost use Rattle.std.specs.Cmp.Rules.{comparing};
    ghost use Rattle.std.proofs.Common.{rules};
    ghost use Rattle.ak_base.specs.Names.{name_cmp, names_total};

    ghost cmp = { name_cmp };

    ghost total = { names_total };

    ghost matches_partial_cmp = { Prim.search (comparing, rules) };

    ghost matches_eq = { Prim.search (comparing, rules) };

    fn cmp(&self, other: &Name) -> Ordering {
        match self.table.place().cmp(&other.table.place()) {
            Ordering::Equal => self.id.cmp(&other.id),
            unequal => unequal,
        }
    }
}
