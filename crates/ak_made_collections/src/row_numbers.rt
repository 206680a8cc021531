// Which cards a note has, and which words of a seed each row is made of. All numbers count from 0.
ghost use Rattle.std.specs.Prelude.{◌≡◌, ◌≤◌, ◌<◌, pos};
ghost use Rattle.ak_made_collections.specs.RowNumbers.{cards_before, note_of_card, place_of_card, words_before_card, words_before_note, words_before_review};

/// How many reviews each card has.
pub const REVIEWS_OF_A_CARD: u64 = 4;

/// How many cards the notes before one have.
pub fn cards_before(note: u64) -> u64
    requires { note ≤ 20_000 }
    ensures count { result ≡ cards_before note }
    ensures few { result < 40_000 }
{
    2 * note - (note + 2) / 3
}

/// The note of a card.
pub(crate) fn note_of_card(card: u64) -> u64
    requires { card < 40_000 }
    ensures note { result ≡ note_of_card card }
    ensures few { result < 40_000 }
{
    3 * (card / 5) + (card % 5 + 1) / 2
}

/// The place of a card among those of its note.
pub(crate) fn place_of_card(card: u64) -> i64
    ensures place { result ≡ pos (place_of_card card) }
{
    if card % 5 == 2 || card % 5 == 4 { 1 } else { 0 }
}

/// How many words come before those of a note.
pub fn words_before_note(note: u64) -> u64
    requires { note ≤ 20_000 }
    ensures count { result ≡ words_before_note note }
    ensures few { result < 1_000_000 }
{
    2 * note + 11 * cards_before(note)
}

/// How many words come before those of a card.
pub(crate) fn words_before_card(card: u64) -> u64
    requires { card < 40_000 }
    ensures count { result ≡ words_before_card card }
    ensures few { result < 1_000_000 }
{
    2 * (note_of_card(card) + 1) + 11 * card
}

/// How many words come before those of a review.
pub(crate) fn words_before_review(review: u64) -> u64
    requires { review < 160_000 }
    ensures count { result ≡ words_before_review review }
    ensures few { result < 2_000_000 }
{
    words_before_card(review / REVIEWS_OF_A_CARD) + 3 + 2 * (review % REVIEWS_OF_A_CARD)
}
