// The cards of a seed, and their reviews. A number of a row counts from 0.
ghost use Rattle.std.specs.Prelude.{◌≡◌, ◌<◌, IfOk};
ghost use Rattle.ak_made_collections.specs.MadeCards.{due_of, factor_of, ivl_of, made_card, made_review};

use crate::row_ids::{STAMP, made_id, made_review_id};
use crate::row_numbers::{
    REVIEWS_OF_A_CARD, note_of_card, place_of_card, words_before_card, words_before_review,
};
use crate::seed_words::nth_word;
use ak_base::{Card, Memory, Review, Text};
use std::alloc::Global;

/// The card of this number.
pub(crate) fn made_card(alloc: Global, seed: u64, number: u64) -> Result<Card, Memory>
    requires { number < 40_000 }
    ensures { IfOk result (λ card. card ≡ made_card seed number) }
{
    let extra = Text::of(alloc, "")?;
    Ok(Card {
        id: made_id(number),
        nid: made_id(note_of_card(number)),
        did: 1,
        ord: place_of_card(number),
        stamp: STAMP,
        usn: 0,
        kind: 2,
        queue: 2,
        due: due_of(seed, number),
        ivl: ivl_of(seed, number),
        factor: factor_of(seed, number),
        reps: REVIEWS_OF_A_CARD as i64,
        lapses: 0,
        left: 0,
        odue: 0,
        odid: 0,
        flags: 0,
        extra,
    })
}

/// The review of this number.
pub(crate) fn made_review(seed: u64, number: u64) -> Review
    requires { number < 160_000 }
    ensures { result ≡ made_review seed number }
{
    let card = number / REVIEWS_OF_A_CARD;
    let words = words_before_review(number);
    Review {
        id: made_review_id(number),
        cid: made_id(card),
        usn: 0,
        ease: (2 + nth_word(seed, words) % 3) as i64,
        ivl: ivl_of(seed, card),
        last_ivl: 1,
        factor: factor_of(seed, card),
        time: (1_000 + nth_word(seed, words + 1) % 9_000) as i64,
        kind: 1,
    }
}

/// How many days lie between the reviews of a card.
fn ivl_of(seed: u64, card: u64) -> i64
    requires { card < 40_000 }
    ensures { result ≡ ivl_of seed card }
{
    (1 + nth_word(seed, words_before_card(card)) % 100) as i64
}

/// The day on which a card is due.
fn due_of(seed: u64, card: u64) -> i64
    requires { card < 40_000 }
    ensures { result ≡ due_of seed card }
{
    -((nth_word(seed, words_before_card(card) + 1) % 10) as i64)
}

/// The factor of a card, in permille.
fn factor_of(seed: u64, card: u64) -> i64
    requires { card < 40_000 }
    ensures { result ≡ factor_of seed card }
{
    (1_300 + 50 * (nth_word(seed, words_before_card(card) + 2) % 25)) as i64
}
