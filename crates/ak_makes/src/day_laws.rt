// Laws of the definitions by which a day of work is done and told.
ghost use Rattle.std.specs.Prelude.{◌≡◌, ◌+◌, ℕ};
ghost use Rattle.ak_made_collections.specs.RowNumbers.{cards_before, words_before_note};
ghost use Rattle.ak_makes.specs.Days.{answer_count, words_before_answer, words_before_new_note};
ghost use Rattle.ak_makes.specs.MakeLines.{call_count};

/// The words of the day follow those of the collection, in turn: two for each answer, and then one for each new note.
pub fn words_of_the_day_follow()
    ensures first { (size : ℕ) → words_before_answer size 0 ≡ words_before_note size }
    ensures answer { (size number : ℕ) → words_before_answer size (number + 1) ≡ words_before_answer size number + 2 }
    ensures note { (size : ℕ) → words_before_new_note size 0 ≡ words_before_answer size (answer_count size) }
    ensures next { (size number : ℕ) → words_before_new_note size (number + 1) ≡ words_before_new_note size number + 1 }
{}

/// What the line of 3,000 notes and that of the largest size come to.
pub fn lines_of_the_largest_sizes()
    ensures cards { cards_before 3_000 ≡ 5_000 }
    ensures answers { answer_count 3_000 ≡ 180 }
    ensures calls { call_count 3_000 ≡ 8 }
    ensures most_cards { cards_before 20_000 ≡ 33_333 }
    ensures most_calls { call_count 20_000 ≡ 8 }
{}
