ghost use Rattle.std.specs.Prelude.{◌≡◌, IfOk};
ghost use Rattle.std.specs.Bool.{Decides};
ghost use Rattle.ak_base.specs.Heads.{AreConfNumbersInRange, AreHeadNumbersInRange, AreTagsInRange, IsBeforeFirst, IsConfInRange, IsHeadInRange, IsTagInRange, IsWithin, is_within};

use crate::{
    DAY_SECONDS, FIRST_DAY, LAST_COUNT, LAST_DAY, LAST_HEAD_USN, LAST_MOMENT, LAST_STAMP, LAST_USN,
    List, Memory, NAME_BYTES, OfConf, REST_BYTES, Rest, Text, copy_each,
};

/// The settings of a collection: the column `conf` of schema 11's `col`.
#[derive(Debug, PartialEq, Drop)]
pub struct Conf {
    /// 0 if new cards come among reviews, 1 if after them, 2 if before them.
    pub new_spread: i64,
    /// How many seconds ahead a learning card may come if nothing else is due, 0 to 86,400.
    pub collapse: i64,
    /// Whether learning cards of a later day come before reviews.
    pub day_learn_first: bool,
    /// The place of the next new card.
    pub next_pos: i64,
    /// The day on which buried cards came back last.
    pub last_unburied: i64,
    pub rest: Rest<OfConf>,
}

/// A tag that notes of the collection have or had.
#[derive(Debug, PartialEq, Drop)]
pub struct Tag {
    /// 1 to 512 bytes.
    pub name: Text,
    /// The update sequence number (usn), -1 for a tag that was not sent yet.
    pub usn: i64,
}

/// What a collection has besides its rows: the one row of schema 11's `col`.
#[derive(Debug, PartialEq, Drop)]
pub struct Head {
    /// The second at which the collection's first day begins.
    pub crt: i64,
    /// When the collection was changed last, in milliseconds: the column `mod`.
    pub moment: i64,
    /// When its schema was changed last, in milliseconds: the column `scm`.
    pub schema: i64,
    /// The usn that the next sync gives.
    pub usn: i64,
    /// When it was synced last, in milliseconds, or 0: the column `ls`.
    pub last_sync: i64,
    pub conf: Conf,
    /// Distinct, by the bytes of their names.
    pub tags: List<Tag>,
}

impl Head {
    /// Whether each part of the head is in its range, and the tags ascend. It takes no memory.
    pub fn is_in_range(&self) -> bool
        ensures { Decides result (IsHeadInRange self.now) }
    {
        // The parts are joined without a branch, so that the proof has one exit.
        self.has_numbers_in_range()
            & self.conf.is_in_range()
            & are_tags_in_range(self.tags.as_slice())
    }

    /// Whether the second of the creation, the moments and the usn are in their ranges.
    fn has_numbers_in_range(&self) -> bool
        ensures { Decides result (AreHeadNumbersInRange self.now) }
    {
        is_within(self.crt, 0, LAST_STAMP)
            & is_within(self.moment, 0, LAST_MOMENT)
            & is_within(self.schema, 0, LAST_MOMENT)
            & is_within(self.usn, 0, LAST_HEAD_USN)
            & is_within(self.last_sync, 0, LAST_MOMENT)
    }

    /// An equal head of its own.
    pub fn copy(&self) -> Result<Head, Memory>
        ensures { IfOk result (λ made. made ≡ self.now) }
    {
        Ok(Head {
            crt: self.crt,
            moment: self.moment,
            schema: self.schema,
            usn: self.usn,
            last_sync: self.last_sync,
            conf: self.conf.copy()?,
            tags: copy_each(&self.tags, |tag| tag.copy())?,
        })
    }
}

impl Conf {
    /// Whether the settings are in the range that a head has. It takes no memory.
    pub fn is_in_range(&self) -> bool
        ensures { Decides result (IsConfInRange self.now) }
    {
        self.has_numbers_in_range() & (self.rest.as_str().len() as u64 <= REST_BYTES)
    }

    /// Whether the numbers are in their ranges.
    fn has_numbers_in_range(&self) -> bool
        ensures { Decides result (AreConfNumbersInRange self.now) }
    {
        is_within(self.new_spread, 0, 2)
            & is_within(self.collapse, 0, DAY_SECONDS)
            & is_within(self.next_pos, 0, LAST_COUNT)
            & is_within(self.last_unburied, FIRST_DAY, LAST_DAY)
    }

    /// Equal settings of their own.
    pub fn copy(&self) -> Result<Conf, Memory>
        ensures { IfOk result (λ made. made ≡ self.now) }
    {
        Ok(Conf {
            new_spread: self.new_spread,
            collapse: self.collapse,
            day_learn_first: self.day_learn_first,
            next_pos: self.next_pos,
            last_unburied: self.last_unburied,
            rest: self.rest.copy()?,
        })
    }
}

impl Tag {
    /// Whether the name and the usn are in their ranges. It takes no memory.
    pub fn is_in_range(&self) -> bool
        ensures { Decides result (IsTagInRange self.now) }
    {
        let bytes = self.name.as_str().len() as u64;
        1 <= bytes && bytes <= NAME_BYTES && is_within(self.usn, -1, LAST_USN)
    }

    /// An equal tag of its own.
    pub fn copy(&self) -> Result<Tag, Memory>
        ensures { IfOk result (λ made. made ≡ self.now) }
    {
        Ok(Tag {
            name: self.name.copy()?,
            usn: self.usn,
        })
    }
}

/// Whether every tag is in its range, and each name is before the next one, by bytes.
fn are_tags_in_range(tags: &[Tag]) -> bool
    ensures { Decides result (AreTagsInRange tags.now) }
{
    let mut rest = tags;
    while let Some((tag, others)) = rest.split_first() {
        if !(tag.is_in_range() & is_before_first(tag, others)) {
            return false;
        }
        rest = others;
    }
    true
}

/// Whether the tag's name is before that of the first of the others, by bytes; true if there is no other.
fn is_before_first(tag: &Tag, others: &[Tag]) -> bool
    ensures { Decides result (IsBeforeFirst tag.now others.now) }
{
    match others.first() {
        Some(next) => tag.name.as_str() < next.name.as_str(),
        None => true,
    }
}

/// Whether a number is one from the least to the most.
pub fn is_within(number: i64, least: i64, most: i64) -> bool
    ensures test { result ≡ is_within least most number }
    ensures decides { Decides result (IsWithin least most number) }
{
    least <= number && number <= most
}
