// What a search can ask of a card.
use crate::PatternItem;
use ak_base::{List, Text};

/// A state that a card may be in.
#[derive(Clone, Copy, Debug, PartialEq, Eq)]
pub enum State {
    New,
    Learn,
    Review,
    Due,
    Suspended,
    Buried,
    BuriedManually,
    BuriedSibling,
}

/// A number of a card.
#[derive(Clone, Copy, Debug, PartialEq, Eq)]
pub enum Property {
    Interval,
    Reps,
    Lapses,
    /// In permille.
    Ease,
    /// In days from today.
    Due,
    /// The place among the new cards.
    Position,
}

/// How a number of a card compares with the one that is asked for.
#[derive(Clone, Copy, Debug, PartialEq, Eq)]
pub enum Comparison {
    Equal,
    Differs,
    Below,
    Above,
    AtMost,
    AtLeast,
}

/// What is asked of a card.
#[derive(Debug, Drop)]
pub enum Term {
    /// A pattern that the stripped text of some field matches, with `Any` at both ends.
    Contains(List<PatternItem>),
    /// A pattern that the stripped text of some field matches between two spaces.
    Word(List<PatternItem>),
    /// A field's name, and a pattern that its stripped text matches.
    Field(Text, List<PatternItem>),
    Deck(List<PatternItem>),
    Tag(List<PatternItem>),
    Untagged,
    NoteType(List<PatternItem>),
    /// A pattern that the template's name matches, or its place from 1.
    Template(List<PatternItem>),
    InState(State),
    Prop(Property, Comparison, i64),
    Flag(i64),
    /// Answered in so many days.
    Rated(i64),
    /// Answered in so many days with that ease.
    RatedWith(i64, i64),
    Added(i64),
    Edited(i64),
    NoteIds(List<i64>),
    CardIds(List<i64>),
}
