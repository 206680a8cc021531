ghost use Rattle.std.specs.Prelude.{◌≡◌, ℕ, ◌<◌, Option, List, length, Some, None};
ghost use Rattle.ak_io.specs.Arrivals.{GivesNext};
ghost use Rattle.ak_io.specs.Generator.{next_state, word_of};

use ak_base::List;
use std::marker::Model;

/// Words by chance. It can't fail. No security rests on it.
pub trait Chance {
    /// The words to come, if they are told.
    ghost to_come: { Self → Option (List ℕ) };

    /// The next word: any 64 bits.
    fn word(&mut self) -> u64
        ensures given { GivesNext (to_come self.old) (to_come self.new) result };
}

/// Chance that goes by a list of words, and stays at the last.
#[derive(Debug, Drop)]
pub struct ListChance {
    words: Vec<u64>,
    place: usize,
}

impl Model for ListChance {
    ghost use Rattle.std.specs.Prelude.{ℕ, ◌<◌, List, length, drop};

    ghost Value = { List ℕ };

    ghost view = { λ chance. drop chance.place chance.words.items };

    ghost invariant = { λ chance. chance.place < length chance.words.items };
}

impl ListChance {
    /// Chance of these words, of which there is at least one.
    pub fn new(words: List<u64>) -> ListChance
        requires { 0 < length words }
        ensures { result ≡ words }
    {
        ListChance {
            words: words.into_vec(),
            place: 0,
        }
    }
}

impl Chance for ListChance {
    ghost to_come = { λ chance. Some chance };

    fn word(&mut self) -> u64 {
        let word = self.words[self.place];
        if self.place + 1 < self.words.as_slice().len() {
            self.place += 1;
        }
        word
    }
}

/// The generator splitmix64, from a seed.
#[derive(Clone, Copy, Debug, Drop)]
pub struct StdChance {
    state: u64,
}

impl StdChance {
    /// The seed is best the moment of a clock.
    pub fn new(seed: u64) -> StdChance
        ensures { result ≡ record { state = seed } }
    {
        StdChance { state: seed }
    }
}

impl Chance for StdChance {
    ghost to_come = { λ chance. None };

    fn word(&mut self) -> u64
        ensures given { GivesNext {T = ℕ} None None result }
        ensures state { self.new.state ≡ next_state self.old.state }
        ensures word { result ≡ word_of self.new.state }
    {
        self.state = self.state.wrapping_add(0x9E37_79B9_7F4A_7C15);
        let word = (self.state ^ (self.state >> 30)).wrapping_mul(0xBF58_476D_1CE4_E5B9);
        let word = (word ^ (word >> 27)).wrapping_mul(0x94D0_49BB_1331_11EB);
        word ^ (word >> 31)
    }
}
