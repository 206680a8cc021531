ghost use Rattle.std.specs.Prelude.{◌≡◌};
ghost use Rattle.std.specs.Option.{option_map};
ghost use Rattle.ak_cli.specs.Programs.{command_named, command_of, command_with, id_of, import_named, make_named, named_by, size_named, three_named, valued_named};

use ak_base::{HostKey, LAST_I64, read_number};
use ak_csv_runs::ImportPlace;
use ak_desk_language::number_in;
use ak_made_collections::{MakePlan, MakeSize};

/// A command of the program.
#[derive(Clone, Copy, Debug, PartialEq, Eq)]
pub enum ProgramCommand {
    /// `lab`: a script over collections of its own.
    Lab,
    /// `init`: puts the opening collection.
    Init,
    /// `desk`: lines over the collection that is held.
    Desk,
    /// `sync KEY`: a sync of the collection that is held with the account of the key.
    Sync(HostKey),
    /// `upload KEY`: the collection that is held takes the place of the account's.
    Upload(HostKey),
    /// `download KEY`: the account's collection takes the place of the one that is held.
    Download(HostKey),
    /// `import TYPE DECK`: notes from the input.
    Import(ImportPlace),
    /// `export TYPE`: the notes of a type to the output.
    Export(i64),
    /// `make SEED SIZE`: a collection that is made, answered and synced, and one line on it.
    Make(MakePlan),
}

/// The command that the words name.
pub(crate) fn command_of(words: &[String]) -> Option<ProgramCommand>
    ensures { option_map named_by result ≡ command_of words.now }
{
    let (word, others) = words.split_first()?;
    match others.split_first() {
        None => command_named(word.as_str()),
        Some((value, more)) => command_with(word.as_str(), value.as_str(), more),
    }
}

/// The command of a single word.
fn command_named(word: &str) -> Option<ProgramCommand>
    ensures { option_map named_by result ≡ command_named word.now }
{
    if word == "lab" {
        return Some(ProgramCommand::Lab);
    }
    if word == "init" {
        return Some(ProgramCommand::Init);
    }
    if word == "desk" {
        return Some(ProgramCommand::Desk);
    }
    None
}

/// The command of two words, and maybe a third.
fn command_with(word: &str, value: &str, more: &[String]) -> Option<ProgramCommand>
    ensures { option_map named_by result ≡ command_with word.now value.now more.now }
{
    match more.split_first() {
        None => valued_named(word, value),
        Some((second, others)) => {
            if others.is_empty() {
                three_named(word, value, second.as_str())
            } else {
                None
            }
        }
    }
}

/// The command of two words: `sync`, `upload` or `download` and a host key, or `export` and an id.
fn valued_named(word: &str, value: &str) -> Option<ProgramCommand>
    ensures { option_map named_by result ≡ valued_named word.now value.now }
{
    if word == "sync" {
        let host = HostKey::of(value)?;
        return Some(ProgramCommand::Sync(host));
    }
    if word == "upload" {
        let host = HostKey::of(value)?;
        return Some(ProgramCommand::Upload(host));
    }
    if word == "download" {
        let host = HostKey::of(value)?;
        return Some(ProgramCommand::Download(host));
    }
    if word == "export" {
        let note_type = id_of(value)?;
        return Some(ProgramCommand::Export(note_type));
    }
    None
}

/// The command of three words: `import` and two ids, or `make`, a seed and a size.
fn three_named(word: &str, first: &str, second: &str) -> Option<ProgramCommand>
    ensures { option_map named_by result ≡ three_named word.now first.now second.now }
{
    if word == "make" {
        return make_named(first, second);
    }
    import_named(word, first, second)
}

/// `make`, a seed and a size.
fn make_named(seed: &str, size: &str) -> Option<ProgramCommand>
    ensures { option_map named_by result ≡ make_named seed.now size.now }
{
    let seed = read_number(seed, u64::MAX)?;
    let size = size_named(size)?;
    Some(ProgramCommand::Make(MakePlan { seed, size }))
}

/// The size that the whole word is.
fn size_named(word: &str) -> Option<MakeSize>
    ensures { option_map (λ size. size.notes) result ≡ size_named word.now }
{
    let notes = read_number(word, u64::MAX)?;
    MakeSize::of(notes)
}

/// `import` and two ids.
fn import_named(word: &str, note_type: &str, deck: &str) -> Option<ProgramCommand>
    ensures { option_map named_by result ≡ import_named word.now note_type.now deck.now }
{
    if word == "import" {
        let note_type = id_of(note_type)?;
        let deck = id_of(deck)?;
        return Some(ProgramCommand::Import(ImportPlace { note_type, deck }));
    }
    None
}

/// The id that the whole word is.
fn id_of(word: &str) -> Option<i64>
    ensures { result ≡ id_of word.now }
{
    number_in(0, LAST_I64, word)
}
