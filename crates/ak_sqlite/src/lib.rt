// A collection in a SQLite file with the tables of Anki's schema 11.
#![tactic(auto)]

mod cells;
mod columns;
mod faults;
mod heads;
mod layouts;
mod objects;
mod reads;
mod statements;
mod tables;
mod writes;

use ak_tables::TableKeeper;
pub use tables::SqliteTables;

/// A keeper whose collection stays in a SQLite file.
pub type SqliteKeeper = TableKeeper<SqliteTables>;
