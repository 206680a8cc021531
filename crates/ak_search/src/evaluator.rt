// What is known of a card while the pieces of an expression are gone through.
ghost use Rattle.std.specs.Prelude.{◌≡◌, ◌≤◌, ◌∷◌, ◌&&◌, ◌||◌, not, Bool, true, false, [], List, length, Some, OnOk, IfSome};
ghost use Rattle.ak_search.specs.Grammar.{pieces_in};
ghost use Rattle.ak_search.specs.Meanings.{negated_by, walk};
ghost use Rattle.ak_search.specs.Passes.{Tells, behind_group, evaluated_from};
ghost use Rattle.ak_search.specs.declared.terms.Term.{Term as Asked};
ghost use Rattle.ak_search.specs.declared.tokens.Piece.{Piece as Part};
ghost use Rattle.ak_search.specs.declared.tokens.Piece.TheVariants as pieces;

use crate::tokens::{Piece, Token};
use ak_base::Memory;
use std::alloc::Global;
use std::collections::VecDeque;

/// A group that is open: whether it is negated, and what was known of the card before it.
#[derive(Clone, Copy, Debug, PartialEq, Eq)]
pub(crate) struct Group {
    pub(crate) negated: bool,
    pub(crate) either: bool,
    pub(crate) all: bool,
}

/// What is known of a card so far, while the pieces of an expression are gone through: whether it meets some
/// alternative before the last `or`, whether all parts behind that, and the groups that are open.
#[derive(Debug, Drop)]
pub(crate) struct Evaluator {
    pub(crate) outer: VecDeque<Group>,
    pub(crate) either: bool,
    pub(crate) all: bool,
}

impl Evaluator {
    /// Before the first piece.
    pub(crate) fn new(alloc: Global) -> Evaluator
        ensures outer { result.outer.items ≡ [] }
        ensures either { result.either ≡ false }
        ensures all { result.all ≡ true }
    {
        Evaluator {
            outer: VecDeque::new(alloc),
            either: false,
            all: true,
        }
    }

    /// Whether the card meets what is walked through.
    pub(crate) fn holds(&self) -> bool
        ensures { result ≡ (self.now.either || self.now.all) }
    {
        self.either || self.all
    }

    /// Whether no term or group matters before the group ends or an `or` comes: an alternative was met, or a part failed.
    fn is_settled(&self) -> bool
        ensures { result ≡ (self.now.either || not self.now.all) }
    {
        self.either || !self.all
    }

    /// What is left behind the piece, with the rest of its group, if it is a term or a group that no longer matters.
    pub(crate) fn skip<'a>(&self, piece: &Piece, others: &'a [Token]) -> Option<&'a [Token]>
        ensures same { IfSome result (λ rest. (holds : Asked → Bool) → evaluated_from self.now holds (piece.now ∷ pieces_in others.now) ≡ evaluated_from self.now holds (pieces_in rest.now)) }
        ensures shorter { IfSome result (λ rest. length rest.now ≤ length others.now) }
    {
        if !self.is_settled() {
            return None;
        }
        match piece {
            Piece::Test(_, _) => Some(others),
            Piece::Open(_) => past_group(others),
            _ => None,
        }
    }

    /// Goes past the piece. If it is a term, `does` says whether it holds of the card.
    pub(crate) fn take(&mut self, piece: &Piece, does: bool) -> Result<(), Memory>
        ensures { OnOk result ((holds : Asked → Bool) (ps : List Part) → Tells piece.now holds does → evaluated_from self.old holds (piece.now ∷ ps) ≡ evaluated_from self.new holds ps) }
    {
        match piece {
            Piece::Test(negated, _) => self.test(*negated, does),
            Piece::Open(negated) => self.open(*negated)?,
            Piece::Close => self.close(),
            Piece::Or => self.or(),
            Piece::And => {}
            Piece::BadValue => {}
            Piece::OpenQuote => {}
        }
        Ok(())
    }

    /// A term, and whether the card meets it.
    fn test(&mut self, negated: bool, holds: bool)
        ensures { self.new ≡ record self.old { all = self.old.all && negated_by negated holds } }
    {
        self.all = self.all && negated_by(negated, holds);
    }

    /// A group begins.
    fn open(&mut self, negated: bool) -> Result<(), Memory>
        ensures outer { OnOk result (self.new.outer.items ≡ record { negated = negated; either = self.old.either; all = self.old.all } ∷ self.old.outer.items) }
        ensures either { OnOk result (self.new.either ≡ false) }
        ensures all { OnOk result (self.new.all ≡ true) }
    {
        self.outer.push_front(Group {
            negated,
            either: self.either,
            all: self.all,
        })?;
        self.either = false;
        self.all = true;
        Ok(())
    }

    /// The innermost open group ends. Without one, nothing happens.
    fn close(&mut self)
        ensures { (holds : Asked → Bool) (ps : List Part) → walk holds self.old.outer.items self.old.either self.old.all (pieces.Close ∷ ps) ≡ walk holds self.new.outer.items self.new.either self.new.all ps }
    {
        if let Some(group) = self.outer.pop_front() {
            let inside = self.either || self.all;
            self.either = group.either;
            self.all = group.all && negated_by(group.negated, inside);
        }
    }

    /// An `or`: what was met before it is enough.
    fn or(&mut self)
        ensures { self.new ≡ record self.old { either = self.old.either || self.old.all; all = true } }
    {
        self.either = self.either || self.all;
        self.all = true;
    }
}

/// Whether a term or group is met, by its sign.
pub(crate) fn negated_by(negated: bool, holds: bool) -> bool
    ensures { result ≡ negated_by negated holds }
{
    if negated { !holds } else { holds }
}

/// What is left behind the group that opens before these tokens, if it is closed.
fn past_group(tokens: &[Token]) -> Option<&[Token]>
    ensures behind { IfSome result (λ rest. behind_group 0 (pieces_in tokens.now) ≡ Some (pieces_in rest.now)) }
    ensures shorter { IfSome result (λ rest. length rest.now ≤ length tokens.now) }
{
    let mut depth = 0usize;
    let mut rest = tokens;
    while let Some((token, others)) = rest.split_first() {
        match token.piece {
            Piece::Open(_) => depth += 1,
            Piece::Close => {
                if depth == 0 {
                    return Some(others);
                }
                depth -= 1;
            }
            _ => {}
        }
        rest = others;
    }
    None
}
