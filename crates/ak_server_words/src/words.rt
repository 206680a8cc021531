ghost use Rattle.std.specs.Prelude.{◌≡◌, ◌≢◌, ℕ, List, [], Some, codes, unwrap_or, IfOk, IfErr, OnOk};
ghost use Rattle.std.specs.Str.Parse.{digits_value, without_leading_plus};
ghost use Rattle.clap.specs.Faults.{fault_of};
ghost use Rattle.clap.specs.Matches.{first_value, found_of, one_text};
ghost use Rattle.clap.specs.Simple.{matches_of};
ghost use Rattle.clap.specs.Walk.{rows_of};
ghost use Rattle.clap.specs.Values.{IsUnsignedIn};
ghost use Rattle.ak_server_words.specs.Words.{Says, ankid, word_texts};

use crate::commands::command;
use ak_base::{Memory, Text};
use clap::ArgMatches;
use clap::error::ErrorKind;
use std::alloc::Global;

/// What the words of a server program say.
#[derive(Debug, Drop)]
pub struct ServerWords {
    /// The address to listen at, as `127.0.0.1:27701`.
    pub listen: Text,
    /// The name of the file that lists the accounts.
    pub accounts: Text,
    /// How many connections are served before the program ends: 1 to 1,000,000,000.
    pub turns: u64,
}

/// Why the words of a server program were not read.
#[derive(Clone, Copy, Debug, PartialEq, Eq)]
pub enum WordsFault {
    /// They are none that the program takes. A call for help is among these.
    Usage,
    /// Out of memory.
    Memory,
}

impl From<Memory> for WordsFault {
    ghost use Rattle.ak_server_words.specs.declared.words.WordsFault.TheVariants as faults;

    ghost from_gives = { λ memory fault. fault ≡ faults.Memory };

    fn from(_memory: Memory) -> WordsFault {
        WordsFault::Memory
    }
}

/// What the words say, which come without the program's name: `--listen ADDRESS --accounts FILE [--turns N]`, in any order.
pub fn server_words(alloc: Global, words: &[String]) -> Result<ServerWords, WordsFault>
    ensures ok { IfOk result (Says (word_texts words.now)) }

    // Words that are taken are refused only if memory runs out.
    ensures usage { IfErr result (λ fault. fault ≡ WordsFault.Usage → fault_of ankid (word_texts words.now) ≢ []) }
{
    let matches = matches_in(alloc, words)?;
    said(alloc, &matches)
}

/// What `clap` finds in the words.
fn matches_in<'a>(alloc: Global, words: &'a [String]) -> Result<ArgMatches<'a>, WordsFault>
    ensures taken { OnOk result (fault_of ankid (word_texts words.entry.now) ≡ []) }
    ensures rows { IfOk result (λ matches. rows_of (found_of matches) ≡ matches_of ankid (word_texts words.entry.now)) }
    ensures usage { IfErr result (λ fault. fault ≡ WordsFault.Usage → fault_of ankid (word_texts words.entry.now) ≢ []) }
{
    let ankid = match command(alloc) {
        Ok(ankid) => ankid,
        Err(_) => return Err(WordsFault::Memory),
    };
    match ankid.try_get_matches_from(words) {
        Ok(matches) => Ok(matches),
        Err(error) if error.kind() == ErrorKind::OutOfMemory => Err(WordsFault::Memory),
        Err(_) => Err(WordsFault::Usage),
    }
}

/// What the matches say.
fn said(alloc: Global, matches: &ArgMatches<'_>) -> Result<ServerWords, WordsFault>
    ensures listen { IfOk result (λ said. said.listen ≡ unwrap_or (first_value (found_of matches.now) (codes "listen")) []) }
    ensures accounts { IfOk result (λ said. said.accounts ≡ unwrap_or (first_value (found_of matches.now) (codes "accounts")) []) }
    ensures turns { IfOk result (λ said. (text : List ℕ) → one_text (found_of matches.now) (codes "turns") ≡ Some text
        → IsUnsignedIn 1 1_000_000_000 text → said.turns ≡ digits_value 10 (without_leading_plus text)) }
    ensures memory { IfErr result (λ fault. fault ≡ WordsFault.Memory) }
{
    Ok(ServerWords {
        listen: Text::of(alloc, matches.get_str("listen").unwrap_or(""))?,
        accounts: Text::of(alloc, matches.get_str("accounts").unwrap_or(""))?,
        turns: matches.get_one::<u64>("turns").unwrap_or(0),
    })
}
