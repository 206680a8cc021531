// What stands under each key of a message, by the bytes of the keys, which is the order in which faults are told.
use crate::keys::Key;
use crate::kinds::Kind;
use ak_base::{LAST_HEAD_USN, LAST_MOMENT, LAST_STAMP};

/// The body of a start.
pub(crate) const START: [(Key, Kind); 2] = [
    (Key::Lmod, Kind::Integer),
    (Key::MinUsn, Kind::Integer),
];

/// A body that brings a chunk, or graves under the same key.
pub(crate) const HOLDS_CHUNK: [(Key, Kind); 1] = [(Key::Chunk, Kind::Members)];

/// A body that brings changes.
pub(crate) const HOLDS_CHANGES: [(Key, Kind); 1] = [(Key::Changes, Kind::Members)];

/// A body that brings the counts of a side.
pub(crate) const HOLDS_COUNTS: [(Key, Kind); 1] = [(Key::Client, Kind::Counts)];

/// Ids of graves.
pub(crate) const GRAVES: [(Key, Kind); 3] = [
    (Key::Cards, Kind::Ids),
    (Key::Decks, Kind::Ids),
    (Key::Notes, Kind::Ids),
];

/// A chunk.
pub(crate) const CHUNK: [(Key, Kind); 4] = [
    (Key::Cards, Kind::Values),
    (Key::Done, Kind::Bool),
    (Key::Notes, Kind::Values),
    (Key::Revlog, Kind::Values),
];

/// Changes, but for the settings of the newer side.
pub(crate) const CHANGES: [(Key, Kind); 3] = [
    (Key::Decks, Kind::TwoLists),
    (Key::Models, Kind::Values),
    (Key::Tags, Kind::TagNames),
];

/// The settings of the newer side.
pub(crate) const NEWER: [(Key, Kind); 2] = [
    (Key::Conf, Kind::Members),
    (Key::Crt, Kind::Within(0, LAST_STAMP)),
];

/// The reply to a meta.
pub(crate) const META: [(Key, Kind); 7] = [
    (Key::Cont, Kind::Bool),
    (Key::Mod, Kind::Within(0, LAST_MOMENT)),
    (Key::Msg, Kind::Text),
    (Key::Musn, Kind::Integer),
    (Key::Scm, Kind::Within(0, LAST_MOMENT)),
    (Key::Ts, Kind::Integer),
    (Key::Usn, Kind::Within(0, LAST_HEAD_USN)),
];

/// The reply to a check of counts.
pub(crate) const STATUS: [(Key, Kind); 1] = [(Key::Status, Kind::Status)];

/// What tells of a bad check.
pub(crate) const BAD: [(Key, Kind); 3] = [
    (Key::C, Kind::Counts),
    (Key::Row, Kind::Fault),
    (Key::S, Kind::Counts),
];

/// The reply to a finish.
pub(crate) const MOMENT: [(Key, Kind); 1] = [(Key::Mod, Kind::Within(0, LAST_MOMENT))];

/// The reply to an upload.
pub(crate) const UPLOADED: [(Key, Kind); 2] = [
    (Key::Mod, Kind::Within(0, LAST_MOMENT)),
    (Key::Scm, Kind::Within(0, LAST_MOMENT)),
];

/// A reply that is no 200.
pub(crate) const REFUSED: [(Key, Kind); 2] = [(Key::Seen, Kind::Integer), (Key::Word, Kind::Word)];

/// A whole collection that a client brings.
pub(crate) const UPLOAD: [(Key, Kind); 11] = [
    (Key::Cards, Kind::Values),
    (Key::Conf, Kind::Members),
    (Key::Crt, Kind::Within(0, LAST_STAMP)),
    (Key::Decks, Kind::Values),
    (Key::Mod, Kind::Within(0, LAST_MOMENT)),
    (Key::Models, Kind::Values),
    (Key::Notes, Kind::Values),
    (Key::Options, Kind::Values),
    (Key::Revlog, Kind::Values),
    (Key::Scm, Kind::Within(0, LAST_MOMENT)),
    (Key::Tags, Kind::Tags),
];

/// A whole collection that a server gives.
pub(crate) const DOWNLOAD: [(Key, Kind); 13] = [
    (Key::Cards, Kind::Values),
    (Key::Conf, Kind::Members),
    (Key::Crt, Kind::Within(0, LAST_STAMP)),
    (Key::Decks, Kind::Values),
    (Key::Graves, Kind::Values),
    (Key::Mod, Kind::Within(0, LAST_MOMENT)),
    (Key::Models, Kind::Values),
    (Key::Notes, Kind::Values),
    (Key::Options, Kind::Values),
    (Key::Revlog, Kind::Values),
    (Key::Scm, Kind::Within(0, LAST_MOMENT)),
    (Key::Tags, Kind::Tags),
    (Key::Usn, Kind::Within(0, LAST_HEAD_USN)),
];
