ghost use Rattle.std.specs.Prelude.{◌≡◌};
ghost use Rattle.ak_made_collections.specs.SeedWords.{nth_word};

use ak_io::{Chance, StdChance};

/// What the generator adds to its state for each word.
const STEP: u64 = 0x9E37_79B9_7F4A_7C15;

/// The word of this number, counted from 0, that the generator gives from a seed.
#[tactic(auto, unfolding(crate::specs::SeedWords::nth_word))]
pub fn nth_word(seed: u64, number: u64) -> u64
    ensures { result ≡ nth_word seed number }
{
    // So that each row can be made by itself, whatever rows were made before it.
    let before = seed.wrapping_add(number.wrapping_mul(STEP));
    let mut chance = StdChance::new(before);
    chance.word()
}
