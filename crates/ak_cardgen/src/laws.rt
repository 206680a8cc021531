// What holds of the cards of a note, apart from the program.
ghost use Rattle.ak_cardgen.specs.Generation.{EmptyNotesHaveNoCards};

/// A note of a standard type whose values are all empty has no cards.
#[tactic(auto, using(crate::proofs::Emptiness::no_cards))]
pub fn empty_notes_have_no_cards()
    ensures { EmptyNotesHaveNoCards }
{}
