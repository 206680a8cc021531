use crate::keys::{Key, Place};
use crate::kinds::Kind;
use ak_base::{DAY_SECONDS, FIRST_DAY, LAST_COUNT, LAST_DAY};

/// A note: `[id,guid,mid,mod,usn,tags,flds,sfld,csum,flags,data]`.
pub(crate) const NOTE: [(Place, Kind); 11] = [
    (Place::At(0), Kind::Integer),
    (Place::At(1), Kind::Text),
    (Place::At(2), Kind::Integer),
    (Place::At(3), Kind::Integer),
    (Place::At(4), Kind::Integer),
    (Place::At(5), Kind::Text),
    (Place::At(6), Kind::Text),
    (Place::At(7), Kind::Text),
    (Place::At(8), Kind::Integer),
    (Place::At(9), Kind::Integer),
    (Place::At(10), Kind::Text),
];

/// A card: `[id,nid,did,ord,mod,usn,type,queue,due,ivl,factor,reps,lapses,left,odue,odid,flags,data]`.
pub(crate) const CARD: [(Place, Kind); 18] = [
    (Place::At(0), Kind::Integer),
    (Place::At(1), Kind::Integer),
    (Place::At(2), Kind::Integer),
    (Place::At(3), Kind::Integer),
    (Place::At(4), Kind::Integer),
    (Place::At(5), Kind::Integer),
    (Place::At(6), Kind::Integer),
    (Place::At(7), Kind::Integer),
    (Place::At(8), Kind::Integer),
    (Place::At(9), Kind::Integer),
    (Place::At(10), Kind::Integer),
    (Place::At(11), Kind::Integer),
    (Place::At(12), Kind::Integer),
    (Place::At(13), Kind::Integer),
    (Place::At(14), Kind::Integer),
    (Place::At(15), Kind::Integer),
    (Place::At(16), Kind::Integer),
    (Place::At(17), Kind::Text),
];

/// A review: `[id,cid,usn,ease,ivl,lastIvl,factor,time,type]`.
pub(crate) const REVIEW: [(Place, Kind); 9] = [
    (Place::At(0), Kind::Integer),
    (Place::At(1), Kind::Integer),
    (Place::At(2), Kind::Integer),
    (Place::At(3), Kind::Integer),
    (Place::At(4), Kind::Integer),
    (Place::At(5), Kind::Integer),
    (Place::At(6), Kind::Integer),
    (Place::At(7), Kind::Integer),
    (Place::At(8), Kind::Integer),
];

/// A grave: `[usn,oid,type]`.
pub(crate) const GRAVE: [(Place, Kind); 3] = [
    (Place::At(0), Kind::Integer),
    (Place::At(1), Kind::Integer),
    (Place::At(2), Kind::Integer),
];

/// A deck.
pub(crate) const DECK: [(Place, Kind); 8] = [
    (Place::Key(Key::Id), Kind::Integer),
    (Place::Key(Key::Mod), Kind::Integer),
    (Place::Key(Key::Usn), Kind::Integer),
    (Place::Key(Key::Name), Kind::Text),
    (Place::Key(Key::Conf), Kind::Integer),
    (Place::Key(Key::Dyn), Kind::Within(0, 1)),
    (Place::Key(Key::NewToday), Kind::Pair),
    (Place::Key(Key::RevToday), Kind::Pair),
];

/// The settings of a collection, each number in its range.
pub(crate) const CONF: [(Place, Kind); 5] = [
    (Place::Key(Key::NewSpread), Kind::Within(0, 2)),
    (Place::Key(Key::CollapseTime), Kind::Within(0, DAY_SECONDS)),
    (Place::Key(Key::DayLearnFirst), Kind::Bool),
    (Place::Key(Key::NextPos), Kind::Within(0, LAST_COUNT)),
    (
        Place::Key(Key::LastUnburied),
        Kind::Within(FIRST_DAY, LAST_DAY),
    ),
];

/// A note type.
pub(crate) const NOTE_TYPE: [(Place, Kind); 8] = [
    (Place::Key(Key::Id), Kind::Integer),
    (Place::Key(Key::Mod), Kind::Integer),
    (Place::Key(Key::Usn), Kind::Integer),
    (Place::Key(Key::Name), Kind::Text),
    (Place::Key(Key::Type), Kind::Within(0, 1)),
    (Place::Key(Key::Sortf), Kind::Integer),
    (Place::Key(Key::Flds), Kind::Fields),
    (Place::Key(Key::Tmpls), Kind::Templates),
];

/// A field of a note type. Its place is written, and not read.
pub(crate) const FIELD: [(Place, Kind); 2] = [
    (Place::Key(Key::Name), Kind::Text),
    (Place::Key(Key::Ord), Kind::Ignored),
];

/// A template of a note type. Its place is written, and not read.
pub(crate) const TEMPLATE: [(Place, Kind); 4] = [
    (Place::Key(Key::Name), Kind::Text),
    (Place::Key(Key::Qfmt), Kind::Text),
    (Place::Key(Key::Afmt), Kind::Text),
    (Place::Key(Key::Ord), Kind::Ignored),
];

/// An option group.
pub(crate) const OPTIONS: [(Place, Kind); 8] = [
    (Place::Key(Key::Id), Kind::Integer),
    (Place::Key(Key::Mod), Kind::Integer),
    (Place::Key(Key::Usn), Kind::Integer),
    (Place::Key(Key::Name), Kind::Text),
    (Place::Key(Key::MaxTaken), Kind::Integer),
    (Place::Key(Key::New), Kind::New),
    (Place::Key(Key::Rev), Kind::Rev),
    (Place::Key(Key::Lapse), Kind::Lapse),
];

/// What an option group has for new cards. `ints` are the days after the last step and after Easy. `delays` is in no such
/// object, since it marks version 1; it stands here so that no rest keeps it.
pub(crate) const NEW: [(Place, Kind); 6] = [
    (Place::Key(Key::Steps), Kind::Steps),
    (Place::Key(Key::Ints), Kind::Pair),
    (Place::Key(Key::InitialFactor), Kind::Integer),
    (Place::Key(Key::PerDay), Kind::Integer),
    (Place::Key(Key::Bury), Kind::Bool),
    (Place::Key(Key::Delays), Kind::Ignored),
];

/// What an option group has for reviews.
pub(crate) const REV: [(Place, Kind); 6] = [
    (Place::Key(Key::PerDay), Kind::Integer),
    (Place::Key(Key::Ease4), Kind::Decimal),
    (Place::Key(Key::IvlFct), Kind::Decimal),
    (Place::Key(Key::MaxIvl), Kind::Integer),
    (Place::Key(Key::HardFactor), Kind::Decimal),
    (Place::Key(Key::Bury), Kind::Bool),
];

/// What an option group has for cards that were forgotten.
pub(crate) const LAPSE: [(Place, Kind); 5] = [
    (Place::Key(Key::Steps), Kind::Steps),
    (Place::Key(Key::Mult), Kind::Decimal),
    (Place::Key(Key::MinInt), Kind::Integer),
    (Place::Key(Key::LeechFails), Kind::Integer),
    (Place::Key(Key::LeechAction), Kind::Integer),
];

/// An option group of version 1.
pub(crate) const OLD_OPTIONS: [(Place, Kind); 8] = [
    (Place::Key(Key::Id), Kind::Integer),
    (Place::Key(Key::Mod), Kind::Integer),
    (Place::Key(Key::Usn), Kind::Integer),
    (Place::Key(Key::Name), Kind::Text),
    (Place::Key(Key::MaxTaken), Kind::Integer),
    (Place::Key(Key::New), Kind::OldNew),
    (Place::Key(Key::Rev), Kind::OldRev),
    (Place::Key(Key::Lapse), Kind::OldLapse),
];

/// What it has for new cards. What stands under a key of version 2 is not read, and not kept.
pub(crate) const OLD_NEW: [(Place, Kind); 6] = [
    (Place::Key(Key::Delays), Kind::Steps),
    (Place::Key(Key::Ints), Kind::Pair),
    (Place::Key(Key::InitialFactor), Kind::Integer),
    (Place::Key(Key::PerDay), Kind::Integer),
    (Place::Key(Key::Bury), Kind::Bool),
    (Place::Key(Key::Steps), Kind::Ignored),
];

/// What it has for reviews. What stands under a key of version 2 is not read, and not kept.
pub(crate) const OLD_REV: [(Place, Kind); 9] = [
    (Place::Key(Key::PerDay), Kind::Integer),
    (Place::Key(Key::Ease4Pm), Kind::Integer),
    (Place::Key(Key::IvlFctPm), Kind::Integer),
    (Place::Key(Key::MaxIvl), Kind::Integer),
    (Place::Key(Key::HardFactorPm), Kind::Integer),
    (Place::Key(Key::Bury), Kind::Bool),
    (Place::Key(Key::Ease4), Kind::Ignored),
    (Place::Key(Key::IvlFct), Kind::Ignored),
    (Place::Key(Key::HardFactor), Kind::Ignored),
];

/// What it has for cards that were forgotten. What stands under a key of version 2 is not read, and not kept.
pub(crate) const OLD_LAPSE: [(Place, Kind); 7] = [
    (Place::Key(Key::Delays), Kind::Steps),
    (Place::Key(Key::MultPm), Kind::Integer),
    (Place::Key(Key::MinInt), Kind::Integer),
    (Place::Key(Key::LeechFails), Kind::Integer),
    (Place::Key(Key::LeechAction), Kind::Integer),
    (Place::Key(Key::Steps), Kind::Ignored),
    (Place::Key(Key::Mult), Kind::Ignored),
];
