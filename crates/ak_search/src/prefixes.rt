// What may stand before the colon of a term, and the words that are known behind it.
ghost use Rattle.std.specs.Prelude.{◌≡◌};
ghost use Rattle.ak_search.specs.Terms.{prefix_of, value_prefix_of, state_of, buried_state_of, property_of};

use crate::{Property, State};

/// What stands before the colon of a term.
#[derive(Clone, Copy, Debug, PartialEq, Eq)]
pub(crate) enum Prefix {
    Word,
    Deck,
    Tag,
    NoteType,
    Template,
    InState,
    Prop,
    Flag,
    Rated,
    Added,
    Edited,
    NoteIds,
    CardIds,
    /// The name of a field.
    Field,
}

/// The prefix of that name.
pub(crate) fn prefix_of(name: &str) -> Prefix
    ensures { result ≡ prefix_of name.now }
{
    match name {
        "w" => Prefix::Word,
        "deck" => Prefix::Deck,
        "tag" => Prefix::Tag,
        "note" => Prefix::NoteType,
        "card" => Prefix::Template,
        _ => value_prefix_of(name),
    }
}

/// The same of those whose value is no pattern.
fn value_prefix_of(name: &str) -> Prefix
    ensures { result ≡ value_prefix_of name.now }
{
    match name {
        "is" => Prefix::InState,
        "prop" => Prefix::Prop,
        "flag" => Prefix::Flag,
        "rated" => Prefix::Rated,
        "added" => Prefix::Added,
        "edited" => Prefix::Edited,
        "nid" => Prefix::NoteIds,
        "cid" => Prefix::CardIds,
        _ => Prefix::Field,
    }
}

/// The state of that name.
pub(crate) fn state_of(word: &str) -> Option<State>
    ensures { result ≡ state_of word.now }
{
    match word {
        "new" => Some(State::New),
        "learn" => Some(State::Learn),
        "review" => Some(State::Review),
        "due" => Some(State::Due),
        "suspended" => Some(State::Suspended),
        _ => buried_state_of(word),
    }
}

/// The same of the three that say how a card is hidden.
fn buried_state_of(word: &str) -> Option<State>
    ensures { result ≡ buried_state_of word.now }
{
    match word {
        "buried" => Some(State::Buried),
        "buried-manually" => Some(State::BuriedManually),
        "buried-sibling" => Some(State::BuriedSibling),
        _ => None,
    }
}

/// The number of a card of that name.
pub(crate) fn property_of(word: &str) -> Option<Property>
    ensures { result ≡ property_of word.now }
{
    match word {
        "ivl" => Some(Property::Interval),
        "reps" => Some(Property::Reps),
        "lapses" => Some(Property::Lapses),
        "ease" => Some(Property::Ease),
        "due" => Some(Property::Due),
        "pos" => Some(Property::Position),
        _ => None,
    }
}
