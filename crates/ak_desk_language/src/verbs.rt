ghost use Rattle.std.specs.Prelude.{◌≡◌};
ghost use Rattle.ak_desk_language.specs.AnyReading.{filtered_verb_of};
ghost use Rattle.ak_desk_language.specs.Reading.{verb_of, deck_verb_of, study_verb_of, lone_verb_of, allowed_verb_of};

/// The word with which a desk line begins, but for an `allow` before it.
#[derive(Clone, Copy, Debug, PartialEq, Eq)]
pub(crate) enum Verb {
    Note,
    Fields,
    Tags,
    Delete,
    Drop,
    Rename,
    Move,
    Adopt,
    Spread,
    Deck,
    Options,
    Type,
    Retype,
    Untype,
    Unoptions,
    Answer,
    Next,
    Counts,
    Find,
    Page,
    Mute,
    Suspend,
    Unsuspend,
    Bury,
    Flag,
    Undo,
    Check,
}

/// The verb of this word, if arguments follow it.
pub(crate) fn verb_of(word: &str) -> Option<Verb>
    ensures { result ≡ verb_of word.now }
{
    match word {
        "note" => Some(Verb::Note),
        "fields" => Some(Verb::Fields),
        "tags" => Some(Verb::Tags),
        "delete" => Some(Verb::Delete),
        "type" => Some(Verb::Type),
        "retype" => Some(Verb::Retype),
        "untype" => Some(Verb::Untype),
        _ => deck_verb_of(word),
    }
}

/// The same of the verbs of decks and option groups, and of study.
fn deck_verb_of(word: &str) -> Option<Verb>
    ensures { result ≡ deck_verb_of word.now }
{
    match word {
        "drop" => Some(Verb::Drop),
        "rename" => Some(Verb::Rename),
        "move" => Some(Verb::Move),
        "adopt" => Some(Verb::Adopt),
        "spread" => Some(Verb::Spread),
        "deck" => Some(Verb::Deck),
        "options" => Some(Verb::Options),
        "unoptions" => Some(Verb::Unoptions),
        _ => study_verb_of(word),
    }
}

/// The same of the verbs of study.
fn study_verb_of(word: &str) -> Option<Verb>
    ensures { result ≡ study_verb_of word.now }
{
    match word {
        "answer" => Some(Verb::Answer),
        "next" => Some(Verb::Next),
        "counts" => Some(Verb::Counts),
        "find" => Some(Verb::Find),
        "page" => Some(Verb::Page),
        "mute" => Some(Verb::Mute),
        "suspend" => Some(Verb::Suspend),
        "unsuspend" => Some(Verb::Unsuspend),
        "bury" => Some(Verb::Bury),
        "flag" => Some(Verb::Flag),
        _ => None,
    }
}

/// The verb of this word, if nothing follows it.
pub(crate) fn lone_verb_of(word: &str) -> Option<Verb>
    ensures { result ≡ lone_verb_of word.now }
{
    match word {
        "undo" => Some(Verb::Undo),
        "check" => Some(Verb::Check),
        _ => None,
    }
}

/// The verb of this word, if `allow` may stand before it.
pub(crate) fn allowed_verb_of(word: &str) -> Option<Verb>
    ensures { result ≡ allowed_verb_of word.now }
{
    match word {
        "retype" => Some(Verb::Retype),
        "untype" => Some(Verb::Untype),
        "unoptions" => Some(Verb::Unoptions),
        _ => None,
    }
}

/// The word with which a line about filtered decks begins. Arguments follow it.
#[derive(Clone, Copy, Debug, PartialEq, Eq)]
pub(crate) enum FilteredVerb {
    Filter,
    Build,
    Empty,
}

/// The verb of this word, if it begins a line about filtered decks.
pub(crate) fn filtered_verb_of(word: &str) -> Option<FilteredVerb>
    ensures { result ≡ filtered_verb_of word.now }
{
    match word {
        "filter" => Some(FilteredVerb::Filter),
        "build" => Some(FilteredVerb::Build),
        "empty" => Some(FilteredVerb::Empty),
        _ => None,
    }
}
