// The texts of all statements. Columns go in the order of the tables.

/// The tables, made in a file that has none. A file with tables of other texts is refused, so that each column has its
/// name, its place and its type. The sort text is declared a text, since SQLite would turn one such as `007` into a number in a
/// column of integers.
pub(crate) const MAKE_TABLES: [&str; 5] = [
    "CREATE TABLE col (id integer primary key, crt integer not null, mod integer not null, scm integer not null, ver integer not null, dty integer not null, usn integer not null, ls integer not null, conf text not null, models text not null, decks text not null, dconf text not null, tags text not null)",
    "CREATE TABLE notes (id integer primary key, guid text not null, mid integer not null, mod integer not null, usn integer not null, tags text not null, flds text not null, sfld text not null, csum integer not null, flags integer not null, data text not null)",
    "CREATE TABLE cards (id integer primary key, nid integer not null, did integer not null, ord integer not null, mod integer not null, usn integer not null, type integer not null, queue integer not null, due integer not null, ivl integer not null, factor integer not null, reps integer not null, lapses integer not null, left integer not null, odue integer not null, odid integer not null, flags integer not null, data text not null)",
    "CREATE TABLE revlog (id integer primary key, cid integer not null, usn integer not null, ease integer not null, ivl integer not null, lastIvl integer not null, factor integer not null, time integer not null, type integer not null)",
    "CREATE TABLE graves (usn integer not null, oid integer not null, type integer not null, unique (oid, type))",
];

/// What the file has besides rows: its tables, indexes, views and triggers, each with its text.
pub(crate) const READ_LAYOUT: &str = "SELECT type, name, sql FROM sqlite_schema";

pub(crate) const READ_COL: &str = "SELECT * FROM col ORDER BY id";

pub(crate) const READ_NOTES: &str = "SELECT * FROM notes ORDER BY id";

pub(crate) const READ_CARDS: &str = "SELECT * FROM cards ORDER BY id";

pub(crate) const READ_REVIEWS: &str = "SELECT * FROM revlog ORDER BY id";

pub(crate) const READ_GRAVES: &str = "SELECT * FROM graves ORDER BY oid";

/// Empties all tables.
pub(crate) const CLEAR: [&str; 5] = [
    "DELETE FROM col",
    "DELETE FROM notes",
    "DELETE FROM cards",
    "DELETE FROM revlog",
    "DELETE FROM graves",
];

pub(crate) const DELETE_NOTE: &str = "DELETE FROM notes WHERE id = ?1";

pub(crate) const DELETE_CARD: &str = "DELETE FROM cards WHERE id = ?1";

pub(crate) const DELETE_REVIEW: &str = "DELETE FROM revlog WHERE id = ?1";

pub(crate) const DELETE_GRAVE: &str = "DELETE FROM graves WHERE oid = ?1 AND type = ?2";

pub(crate) const INSERT_NOTE: &str =
    "INSERT INTO notes (id, guid, mid, mod, usn, tags, flds, sfld, csum, flags, data) VALUES (?1, ?2, ?3, ?4, ?5, ?6, ?7, ?8, ?9, ?10, ?11)";

pub(crate) const INSERT_CARD: &str =
    "INSERT INTO cards (id, nid, did, ord, mod, usn, type, queue, due, ivl, factor, reps, lapses, left, odue, odid, flags, data) VALUES (?1, ?2, ?3, ?4, ?5, ?6, ?7, ?8, ?9, ?10, ?11, ?12, ?13, ?14, ?15, ?16, ?17, ?18)";

pub(crate) const INSERT_REVIEW: &str =
    "INSERT INTO revlog (id, cid, usn, ease, ivl, lastIvl, factor, time, type) VALUES (?1, ?2, ?3, ?4, ?5, ?6, ?7, ?8, ?9)";

pub(crate) const INSERT_GRAVE: &str = "INSERT INTO graves (usn, oid, type) VALUES (?1, ?2, ?3)";

/// The one row of `col`, with no note types, decks and options yet.
pub(crate) const INSERT_HEAD: &str =
    "INSERT INTO col (id, crt, mod, scm, ver, dty, usn, ls, conf, models, decks, dconf, tags) VALUES (1, ?1, ?2, ?3, 11, 0, ?4, ?5, ?6, '{}', '{}', '{}', ?7)";

pub(crate) const UPDATE_HEAD: &str =
    "UPDATE col SET crt = ?1, mod = ?2, scm = ?3, usn = ?4, ls = ?5, conf = ?6, tags = ?7";

pub(crate) const UPDATE_MODELS: &str = "UPDATE col SET models = ?1";

pub(crate) const UPDATE_DECKS: &str = "UPDATE col SET decks = ?1";

pub(crate) const UPDATE_OPTIONS: &str = "UPDATE col SET dconf = ?1";
