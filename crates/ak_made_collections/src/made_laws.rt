// Laws of the definitions by which a collection is made.
ghost use Rattle.std.specs.Prelude.{◌≡◌, ◌↔◌, ◌<◌, ◌+◌, ◌*◌, ◌/◌, ◌%◌, ◌^◌, ℕ, pos, negsuc, Some};
ghost use Rattle.ak_io.specs.Generator.{next_state};
ghost use Rattle.ak_made_collections.specs.MadeLaws.{card_count};
ghost use Rattle.ak_made_collections.specs.RowNumbers.{cards_before, note_of_card, place_of_card, words_before_card, words_before_note, words_before_review};
ghost use Rattle.ak_made_collections.specs.MadeCards.{due_of, factor_of, ivl_of, made_review};
ghost use Rattle.ak_made_collections.specs.Sizes.{IsSize, size_in};
ghost use Rattle.ak_made_collections.specs.SeedWords.{nth_word, state_after};

/// A number is how many notes a collection has exactly if it is from 1 to 20,000.
#[tactic(auto, using(crate::proofs::SizeLaws::sizes_exactly))]
pub fn sizes_are_from_1_to_20000()
    ensures { (notes : ℕ) → IsSize notes ↔ (size_in notes ≡ Some notes) }
{}

/// The words of a seed are those of one generator, one after the other: its state begins as the seed.
pub fn words_come_in_turn()
    ensures first { (seed : ℕ) → seed < 2 ^ 64 → state_after seed 0 ≡ seed }
    ensures next { (seed count : ℕ) → state_after seed (count + 1) ≡ next_state (state_after seed count) }
{}

/// The cards of the notes follow one another: the first note has the first of them, and each note those after the ones before it.
pub fn cards_follow_their_notes()
    ensures none { cards_before 0 ≡ 0 }
    ensures next { (note : ℕ) → cards_before (note + 1) ≡ cards_before note + card_count note }
    ensures place { (card : ℕ) → cards_before (note_of_card card) + place_of_card card ≡ card }
    ensures few { (card : ℕ) → place_of_card card < card_count (note_of_card card) }
{}

/// No word is left out, and none is used twice: those of a note come first, then those of each of its cards, each with its reviews,
/// and then those of the next note.
pub fn words_follow_one_another()
    ensures first { words_before_note 0 ≡ 0 }
    ensures card { (note : ℕ) → words_before_card (cards_before note) ≡ words_before_note note + 2 }
    ensures sibling { (card : ℕ) → note_of_card (card + 1) ≡ note_of_card card
        → words_before_card (card + 1) ≡ words_before_card card + 11 }
    ensures review { (card : ℕ) → words_before_review (4 * card) ≡ words_before_card card + 3 }
    ensures other { (review : ℕ) → (review + 1) / 4 ≡ review / 4
        → words_before_review (review + 1) ≡ words_before_review review + 2 }
    ensures note { (note : ℕ) → words_before_note (note + 1) ≡ words_before_note note + 2 + 11 * card_count note }
{}

/// The first words of the seed 7 are those that any splitmix64 gives, and so is what is made of them: the back of the first note, and columns
/// of cards and reviews.
#[tactic(auto, unfolding(crate::specs::SeedWords::nth_word))]
pub fn seed_seven_makes_these()
    ensures first { nth_word 7 0 ≡ 0x63CB_E1E4_5932_0DD7 }
    ensures second { nth_word 7 1 ≡ 0x044C_3CD7_F43C_661C }
    ensures third { nth_word 7 2 ≡ 0xE698_4080_BAB1_2A02 }
    ensures back { nth_word 7 0 % 1_000 ≡ 487 }
    ensures ivl { ivl_of 7 0 ≡ pos 47 }
    ensures due { due_of 7 1 ≡ negsuc 6 }
    ensures factor { factor_of 7 2 ≡ pos 1_800 }
    ensures ease { (made_review 7 0).ease ≡ pos 2 }
    ensures time { (made_review 7 11).time ≡ pos 7_968 }
{}
