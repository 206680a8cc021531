ghost use Rattle.std.specs.Prelude.{◌≡◌, option_map, IfOk};
ghost use Rattle.serde_json.specs.View.{view};
ghost use Rattle.ak_json.specs.Keys.{key_text, find, place_text};

use ak_base::{Memory, Text};
use serde_json::Value;
use std::alloc::Global;

/// The keys of the objects that are read and written.
#[derive(Clone, Copy)]
pub(crate) enum Key {
    Afmt,
    Bury,
    CollapseTime,
    Conf,
    DayLearnFirst,
    Delays,
    Dyn,
    Ease4,
    Ease4Pm,
    Flds,
    HardFactor,
    HardFactorPm,
    Id,
    InitialFactor,
    Ints,
    IvlFct,
    IvlFctPm,
    Lapse,
    LastUnburied,
    LeechAction,
    LeechFails,
    MaxIvl,
    MaxTaken,
    MinInt,
    Mod,
    Mult,
    MultPm,
    Name,
    New,
    NewSpread,
    NewToday,
    NextPos,
    Ord,
    PerDay,
    Qfmt,
    Rev,
    RevToday,
    Sortf,
    Steps,
    Tmpls,
    Type,
    Usn,
}

impl Key {
    /// The key as it stands in the object.
    pub(crate) fn text(self) -> &'static str
        ensures { result.now ≡ key_text self }
    {
        match self {
            Key::Afmt => "afmt",
            Key::Bury => "bury",
            Key::CollapseTime => "collapseTime",
            Key::Conf => "conf",
            Key::DayLearnFirst => "dayLearnFirst",
            Key::Delays => "delays",
            Key::Dyn => "dyn",
            Key::Ease4 => "ease4",
            Key::Ease4Pm => "ease4Pm",
            Key::Flds => "flds",
            Key::HardFactor => "hardFactor",
            Key::HardFactorPm => "hardFactorPm",
            Key::Id => "id",
            Key::InitialFactor => "initialFactor",
            Key::Ints => "ints",
            Key::IvlFct => "ivlFct",
            Key::IvlFctPm => "ivlFctPm",
            Key::Lapse => "lapse",
            Key::LastUnburied => "lastUnburied",
            Key::LeechAction => "leechAction",
            Key::LeechFails => "leechFails",
            Key::MaxIvl => "maxIvl",
            Key::MaxTaken => "maxTaken",
            Key::MinInt => "minInt",
            Key::Mod => "mod",
            Key::Mult => "mult",
            Key::MultPm => "multPm",
            Key::Name => "name",
            Key::New => "new",
            Key::NewSpread => "newSpread",
            Key::NewToday => "newToday",
            Key::NextPos => "nextPos",
            Key::Ord => "ord",
            Key::PerDay => "perDay",
            Key::Qfmt => "qfmt",
            Key::Rev => "rev",
            Key::RevToday => "revToday",
            Key::Sortf => "sortf",
            Key::Steps => "steps",
            Key::Tmpls => "tmpls",
            Key::Type => "type",
            Key::Usn => "usn",
        }
    }
}

/// Where a column stands in the value of a row.
#[derive(Clone, Copy)]
pub(crate) enum Place {
    /// An element of the array.
    At(usize),
    /// A member of the object.
    Key(Key),
}

impl Place {
    /// What a fault there is told by: the number of the column, or the key.
    pub(crate) fn text(self, alloc: Global) -> Result<Text, Memory>
        ensures { IfOk result (λ text. text ≡ place_text self) }
    {
        match self {
            Place::At(place) => {
                let digits = format!(in alloc; "{place}")?;
                Text::of(alloc, digits.as_str())
            },
            Place::Key(key) => Text::of(alloc, key.text()),
        }
    }

    /// What stands there, if anything does.
    pub(crate) fn find(self, value: &Value) -> Option<&Value>
        ensures { option_map (λ found. view found.now) result ≡ find self (view value.now) }
    {
        match self {
            Place::At(place) => value.get(place),
            Place::Key(key) => value.get(key.text()),
        }
    }
}
