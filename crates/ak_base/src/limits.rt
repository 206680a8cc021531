// The limits that several values share. The definitions hold each as a literal, so the proofs pin them.

/// The last number that fits 64 bits with its sign.
pub const LAST_I64: u64 = 9_223_372_036_854_775_807;

/// The last id of a row: the last whole number that a double holds exactly. The first is 1.
pub const LAST_ID: i64 = 9_007_199_254_740_991;

/// The last usn of a row or a tag. -1 says that it was not sent yet.
pub const LAST_USN: i64 = 2_147_483_647;

/// The last usn of a head. The first is 0.
pub const LAST_HEAD_USN: i64 = 2_147_483_646;

/// The last time of change of a row, in seconds. The first is 0.
pub const LAST_STAMP: i64 = 4_294_967_295;

/// The last moment of a head, in milliseconds. The first is 0.
pub const LAST_MOMENT: i64 = 4_294_967_295_999;

/// The last moment that a clock tells, in milliseconds: a second before the last one of a head, so that what follows it
/// is a moment too.
pub const LAST_CLOCK_MOMENT: i64 = 4_294_967_294_999;

/// The longest step of an option group, in seconds. The shortest is 1.
pub const LONGEST_STEP: i64 = 60_000_000;

/// The first day that a column can name, counted from the day that begins with the collection.
pub const FIRST_DAY: i64 = -10_000_000;

/// The last day that a column can name.
pub const LAST_DAY: i64 = 100_000_000;

/// The last number of what is counted one by one, and of a place of a new card.
pub const LAST_COUNT: i64 = 2_147_483_647;

/// The last place of a card among the cards of its note. The first is 0.
pub const LAST_ORD: i64 = 499;

/// The most bytes of a name: of a tag, a deck, an option group, a note type, its fields and its templates.
pub const NAME_BYTES: u64 = 512;

/// The most bytes of the tags of a note, as they are stored.
pub const TAGS_BYTES: u64 = 8_192;

/// The most bytes of the fields of a note, joined; of the text that it is sorted by; of a template's side.
pub const TEXT_BYTES: u64 = 65_536;

/// The most bytes of the column `data` of a note or a card.
pub const EXTRA_BYTES: u64 = 32_768;

/// The most bytes of the text of the keys that this project does not know.
pub const REST_BYTES: u64 = 262_144;
