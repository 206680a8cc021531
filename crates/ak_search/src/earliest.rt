// From which review on a search asks for answers.
ghost use Rattle.std.specs.Prelude.{◌≡◌, ◌∷◌, [], true, false};
ghost use Rattle.ak_search.specs.Earliest.{AsksFrom, AsksFromTerm, LowersTo};
ghost use Rattle.ak_search.specs.Grammar.{pieces_in};
ghost use Rattle.ak_search.specs.Passes.{asks_before, needs_answers, some_term};

use crate::Term;
use crate::states::id_back;
use crate::tokens::{Piece, Token};
use ak_base::Day;

/// The least id that a review may have to matter to some term, if a term asks for answers.
#[derive(Clone, Copy, Debug)]
pub(crate) struct Earliest {
    pub(crate) asked: bool,
    pub(crate) least: i128,
}

/// From which id on the terms ask for answers on that day.
pub(crate) fn earliest_asked(day: Day, tokens: &[Token]) -> Earliest
    ensures asked { result.asked ≡ some_term needs_answers (pieces_in tokens.now) }
    ensures least { result.asked ≡ true → some_term (asks_before day result.least) (pieces_in tokens.now) ≡ false }
{
    let mut earliest = Earliest {
        asked: false,
        least: 0,
    };
    for token in tokens {
        earliest.take(day, &token.piece);
    }
    earliest
}

impl Earliest {
    /// Takes in a piece.
    fn take(&mut self, day: Day, piece: &Piece)
        ensures { AsksFrom day self.old self.new (piece.now ∷ []) }
    {
        if let Piece::Test(_, term) = piece {
            self.take_term(day, term);
        }
    }

    /// Takes in a term.
    fn take_term(&mut self, day: Day, term: &Term)
        ensures { AsksFromTerm day self.old self.new term.now }
    {
        match term {
            Term::Rated(days) => self.lower(id_back(day, days)),
            Term::RatedWith(days, _) => self.lower(id_back(day, days)),
            _ => {}
        }
    }

    /// One more id that a term asks from.
    fn lower(&mut self, least: i128)
        ensures { LowersTo least self.old self.new }
    {
        if self.asked && self.least <= least {
            return;
        }
        self.asked = true;
        self.least = least;
    }
}
