// The filters for readings. Each has a name and shows one part of each reading.
ghost use Rattle.std.specs.Prelude.{◌≡◌, codes};
ghost use Rattle.ak_filters.specs.Meanings.{Kanji, Kana, Furigana};

use crate::FieldFilter;
use crate::readings::{ReadingPart, show_readings};
use ak_base::{Memory, Text};
use std::alloc::Global;

/// The filter `kanji`, which shows the bases of readings.
#[derive(Debug, Drop)]
pub struct KanjiFilter {
    alloc: Global,
    turn: u64,
}

impl KanjiFilter {
    /// At turn 0.
    pub fn new(alloc: Global) -> KanjiFilter
        ensures { ⟦<KanjiFilter as FieldFilter>⟧.meaning result ≡ record { name = codes "kanji"; form = Kanji; turn = 0 } }
    {
        KanjiFilter { alloc, turn: 0 }
    }
}

impl FieldFilter for KanjiFilter {
    ghost use Rattle.std.specs.Prelude.{codes};
    ghost use Rattle.ak_filters.specs.Meanings.{Kanji};

    ghost meaning = { λ filter. record { name = codes "kanji"; form = Kanji; turn = filter.turn } };

    fn name(&self) -> &str {
        "kanji"
    }

    fn apply(&mut self, text: &str) -> Result<Text, Memory> {
        let made = show_readings(self.alloc, ReadingPart::Base, text)?;
        self.turn = self.turn.saturating_add(1);
        Ok(made)
    }
}

/// The filter `kana`, which shows the insides of readings.
#[derive(Debug, Drop)]
pub struct KanaFilter {
    alloc: Global,
    turn: u64,
}

impl KanaFilter {
    /// At turn 0.
    pub fn new(alloc: Global) -> KanaFilter
        ensures { ⟦<KanaFilter as FieldFilter>⟧.meaning result ≡ record { name = codes "kana"; form = Kana; turn = 0 } }
    {
        KanaFilter { alloc, turn: 0 }
    }
}

impl FieldFilter for KanaFilter {
    ghost use Rattle.std.specs.Prelude.{codes};
    ghost use Rattle.ak_filters.specs.Meanings.{Kana};

    ghost meaning = { λ filter. record { name = codes "kana"; form = Kana; turn = filter.turn } };

    fn name(&self) -> &str {
        "kana"
    }

    fn apply(&mut self, text: &str) -> Result<Text, Memory> {
        let made = show_readings(self.alloc, ReadingPart::Inside, text)?;
        self.turn = self.turn.saturating_add(1);
        Ok(made)
    }
}

/// The filter `furigana`, which shows the bases of readings with their insides above them.
#[derive(Debug, Drop)]
pub struct FuriganaFilter {
    alloc: Global,
    turn: u64,
}

impl FuriganaFilter {
    /// At turn 0.
    pub fn new(alloc: Global) -> FuriganaFilter
        ensures { ⟦<FuriganaFilter as FieldFilter>⟧.meaning result ≡ record { name = codes "furigana"; form = Furigana; turn = 0 } }
    {
        FuriganaFilter { alloc, turn: 0 }
    }
}

impl FieldFilter for FuriganaFilter {
    ghost use Rattle.std.specs.Prelude.{codes};
    ghost use Rattle.ak_filters.specs.Meanings.{Furigana};

    ghost meaning = { λ filter. record { name = codes "furigana"; form = Furigana; turn = filter.turn } };

    fn name(&self) -> &str {
        "furigana"
    }

    fn apply(&mut self, text: &str) -> Result<Text, Memory> {
        let made = show_readings(self.alloc, ReadingPart::Ruby, text)?;
        self.turn = self.turn.saturating_add(1);
        Ok(made)
    }
}
