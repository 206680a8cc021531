// What is known of a card before its note or its deck is looked up. Where no `or` stands outside groups, a term there that fails by that
// settles the whole expression.
ghost use Rattle.std.specs.Prelude.{◌≡◌, true, false};
ghost use Rattle.ak_keep.specs.Collections.{Rows};
ghost use Rattle.ak_search.specs.AtOnce.{is_known_at_once, fails_at_once, holds_at_once, some_term_fails};
ghost use Rattle.ak_search.specs.Grammar.{pieces_in};
ghost use Rattle.ak_search.specs.Passes.{asked, tested};

use crate::Term;
use crate::evaluator::negated_by;
use crate::holds::SearchContext;
use crate::related::{needs_deck, needs_note};
use crate::states::{has_flag, id_back, is_in_state, is_listed, is_since, meets_bound};
use crate::tokens::{Piece, Token};
use ak_base::Card;

/// True only if it is known at once that the card does not meet the tokens. A single token is not tried: it is asked anyway.
pub(crate) fn fails_unseen(context: &SearchContext, tokens: &[Token], card: &Card) -> bool
    ensures { result ≡ true → (held : Rows) → asked (pieces_in tokens.now) (tested context.now held card.now) ≡ false }
{
    tokens.len() > 1 && some_term_fails(context, tokens, card)
}

/// Whether no `or` stands outside all groups, some term there fails at once, and each group is closed.
fn some_term_fails(context: &SearchContext, tokens: &[Token], card: &Card) -> bool
    ensures { result ≡ some_term_fails (fails_at_once context.now.day context.now.answers card.now) 0 false (pieces_in tokens.now) }
{
    let mut depth = 0usize;
    let mut failed = false;
    let mut rest = tokens;
    while let Some((token, others)) = rest.split_first() {
        match &token.piece {
            Piece::Test(negated, term) => {
                if depth == 0 {
                    failed = failed || context.fails_at_once(card, *negated, term);
                }
            }
            Piece::Open(_) => depth += 1,
            Piece::Close => depth = depth.saturating_sub(1),
            Piece::Or => {
                if depth == 0 {
                    return false;
                }
            }
            Piece::And => {}
            Piece::BadValue => {}
            Piece::OpenQuote => {}
        }
        rest = others;
    }
    depth == 0 && failed
}

impl SearchContext {
    /// Whether the term, which may be negated, needs neither note nor deck and fails.
    fn fails_at_once(&self, card: &Card, negated: bool, term: &Term) -> bool
        ensures { result ≡ fails_at_once self.now.day self.now.answers card.now negated term.now }
    {
        is_known_at_once(term) && !negated_by(negated, self.holds_at_once(card, term))
    }

    /// Whether the term holds of the card by its own numbers and the answers. No term does that needs its note or its deck.
    pub(crate) fn holds_at_once(&self, card: &Card, term: &Term) -> bool
        ensures { result ≡ holds_at_once self.now.day self.now.answers card.now term.now }
    {
        match term {
            Term::InState(state) => is_in_state(self.day, *state, card),
            Term::Prop(what, comparison, bound) => meets_bound(
                self.day,
                *what,
                *comparison,
                bound,
                card,
            ),
            Term::Flag(number) => has_flag(card, number),
            Term::Rated(days) => self.is_rated(card, days),
            Term::RatedWith(days, ease) => self.is_answered(card, days, ease),
            Term::Added(days) => is_since(&card.id, &id_back(self.day, days)),
            Term::NoteIds(ids) => is_listed(&card.nid, ids.as_slice()),
            Term::CardIds(ids) => is_listed(&card.id, ids.as_slice()),
            Term::Contains(_) | Term::Word(_) | Term::Field(_, _) | Term::Deck(_) => false,
            Term::Tag(_) | Term::Untagged | Term::Edited(_) => false,
            Term::NoteType(_) | Term::Template(_) => false,
        }
    }
}

/// Whether a term needs neither the note nor the deck of a card.
fn is_known_at_once(term: &Term) -> bool
    ensures { result ≡ is_known_at_once term.now }
{
    !needs_note(term) && !needs_deck(term)
}
