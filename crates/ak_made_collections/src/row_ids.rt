// The ids of the rows that are made of a seed.
ghost use Rattle.std.specs.Prelude.{◌≡◌, ◌<◌};
ghost use Rattle.ak_made_collections.specs.RowIds.{made_id, made_review_id};

/// The id of the first note and of the first card: a moment in milliseconds.
const FIRST_ID: u64 = 1_500_000_000_000;

/// The id of the first review.
const FIRST_REVIEW_ID: u64 = 1_600_000_000_000;

/// When each note and card was changed last, in seconds.
pub(crate) const STAMP: i64 = 1_600_000_000;

/// The id of a note or a card.
pub fn made_id(number: u64) -> i64
    requires { number < 40_000 }
    ensures { result ≡ made_id number }
{
    (FIRST_ID + number) as i64
}

/// The id of a review.
pub(crate) fn made_review_id(number: u64) -> i64
    requires { number < 160_000 }
    ensures { result ≡ made_review_id number }
{
    (FIRST_REVIEW_ID + number) as i64
}
