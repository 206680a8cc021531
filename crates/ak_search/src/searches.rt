// Which cards meet an expression: a search that is asked card by card, and one pass over the cards of a keeper.
ghost use Rattle.std.specs.Prelude.{◌≡◌, ◌++◌, [], ◌∷◌, if◌then◌else◌, ℤ, Some, None, IfOk, OnErr, OnOk, IsTrue};
ghost use Rattle.std.specs.List.Sorted.{IsStrictlySortedBy};
ghost use Rattle.std.specs.Ordering.{int_cmp};
ghost use Rattle.ak_base.specs.Rows.{name_of};
ghost use Rattle.ak_base.specs.declared.names.Table.TheVariants as tables;
ghost use Rattle.ak_keep.specs.Collections.{AscendsPast, is_past, last_id};
ghost use Rattle.ak_keep.specs.Keepers.{WhereTold};
ghost use Rattle.ak_keep.specs.Readings.{ReadsBy};
ghost use Rattle.ak_search.specs.ByNote.{known_of, verdict_of};
ghost use Rattle.ak_search.specs.CardFacts.{seen};
ghost use Rattle.ak_search.specs.Grammar.{pieces_in};
ghost use Rattle.ak_search.specs.Holds.{asked_by, holds, hits, is_hit, ids_of_hits};
ghost use Rattle.ak_search.specs.Meanings.{meets};
ghost use Rattle.ak_search.specs.Passes.{AreAnswersFor, Stays, Tells, TakesFrom, asked, tested};
ghost use Rattle.ak_search.specs.Searching.{SearchStays, SearchesBy, StillSearches};
ghost use Rattle.ak_search.specs.Trees.{Tree, pieces_of};

use crate::answers::{Answers, read_answers};
use crate::at_once::fails_unseen;
use crate::by_note::ask_notes_alone;
use crate::earliest::earliest_asked;
use crate::evaluator::Evaluator;
use crate::holds::SearchContext;
use crate::related::Latest;
use crate::tokens::{Piece, Token};
use crate::{Expr, Term};
use ak_base::{Card, Day, List, Row, Table};
use ak_keep::{KeepFault, Lookup, Readable, Walk};
use std::alloc::Global;

/// The ids of the cards that meet the expression on that day, in one pass over the cards. Reviews are read once, from the first
/// on that matters, and only for an expression that asks for answers.
pub fn find<R: Readable>(
    alloc: Global,
    expr: &Expr,
    from: &mut R,
    day: Day,
) -> Result<List<i64>, KeepFault>
    // All hits of the tree that was read, and no others.
    ensures reads { ReadsBy R.Lookup from.old from.new result (λ h ids. (tree : Tree) → pieces_in expr.now.tokens.items ≡ pieces_of tree → ids ≡ hits h.rows day tree) }
    ensures ascend { IfOk result (λ ids. IsStrictlySortedBy int_cmp ids) }
{
    let mut search = Search::over(alloc, expr, from, day)?;
    let mut found = List::new(alloc);
    let mut walk = Walk::over(Table::Card);
    'pages: while !walk.is_done() {
        let page = walk.next(from)?;
        take_rows(&mut search, from, page.as_slice(), &mut found)?;
    }
    Ok(found)
}

/// A search that is asked card by card: an expression, and the answers that it asks for. It keeps what it looked up
/// last, so cards of one note, type or deck are best asked one after the other: an expression that asks for notes alone is asked
/// once then for all cards of a note. The collection must stay as it was.
#[derive(Debug, Drop)]
pub struct Search<'a> {
    pub(crate) tokens: &'a [Token],
    pub(crate) context: SearchContext,
    pub(crate) latest: Latest,
    /// Whether the expression asks for notes alone.
    pub(crate) by_note: bool,
    /// What was found last of a note, if the expression asks for notes alone.
    pub(crate) verdict: Option<Verdict>,
}

/// Whether the cards of a note meet an expression that asks for notes alone.
#[derive(Clone, Copy, Debug)]
pub(crate) struct Verdict {
    pub(crate) note: i64,
    pub(crate) does: bool,
}

impl<'a> Search<'a> {
    /// A search over the expression on that day. Reviews are read here, and only for an expression that asks for answers.
    pub fn over<R: Readable>(
        alloc: Global,
        expr: &'a Expr,
        from: &mut R,
        day: Day,
    ) -> Result<Search<'a>, KeepFault>
        // It searches by the tree that was read.
        ensures reads { ReadsBy R.Lookup from.old from.new result
            (λ h search. (tree : Tree) → pieces_in expr.now.tokens.items ≡ pieces_of tree → SearchesBy search h.rows day tree) }
    {
        let tokens: &'a [Token] = &expr.tokens;
        let answers = answers_for(alloc, tokens, from, day)?;
        Ok(Search {
            tokens,
            context: SearchContext {
                alloc,
                day,
                answers,
            },
            latest: Latest::nothing(alloc),
            by_note: ask_notes_alone(tokens),
            verdict: None,
        })
    }

    /// Whether the card meets the expression. It need not be held itself.
    pub fn meets<R: Lookup>(&mut self, from: &mut R, card: &Card) -> Result<bool, KeepFault>
        ensures reads { ReadsBy R.Lookup from.old from.new result
            (λ h does. SearchStays self.old self.new h.rows
            (λ day tree. does ≡ meets (holds day (seen h.rows card.now)) tree)) }

        // After a refusal it can be asked again.
        ensures err { OnErr result (WhereTold (R.keeping from.old) (λ h. StillSearches self.old self.new h.rows)) }
    {
        if let Some(does) = self.known(card) {
            return Ok(does);
        }
        match meets(&self.context, self.tokens, from, &mut self.latest, card) {
            Ok(does) => {
                self.keep_verdict(card, does);
                Ok(does)
            }
            Err(fault) => {
                self.latest = Latest::nothing(self.context.alloc);
                Err(fault)
            }
        }
    }
}

impl Search<'_> {
    /// Whether the card meets the expression, if that was found last of its note.
    fn known(&self, card: &Card) -> Option<bool>
        ensures { result ≡ known_of self.now.verdict card.now.nid }
    {
        match self.verdict {
            Some(verdict) => {
                if verdict.note == card.nid {
                    Some(verdict.does)
                } else {
                    None
                }
            }
            None => None,
        }
    }

    /// Keeps what was found of the card, if the expression asks for notes alone.
    fn keep_verdict(&mut self, card: &Card, does: bool)
        ensures { self.new ≡ record self.old { verdict = if self.old.by_note then Some (verdict_of card.now.nid does) else None } }
    {
        self.verdict = if self.by_note {
            Some(Verdict {
                note: card.nid,
                does,
            })
        } else {
            None
        };
    }
}

/// The answers in the reviews from the first on that some term asks about. If no term asks for answers, no review is read.
fn answers_for<R: Readable>(
    alloc: Global,
    tokens: &[Token],
    from: &mut R,
    day: Day,
) -> Result<Answers, KeepFault>
    ensures reads { ReadsBy R.Lookup from.old from.new result (λ h answers. AreAnswersFor day (pieces_in tokens.now) answers h.rows) }
{
    let earliest = earliest_asked(day, tokens);
    if earliest.asked {
        read_answers(alloc, from, &earliest.least)
    } else {
        Ok(Answers::new(alloc))
    }
}

/// Adds the ids of the hits among the rows.
fn take_rows<R: Lookup>(
    search: &mut Search<'_>,
    from: &mut R,
    rows: &[Row],
    found: &mut List<i64>,
) -> Result<(), KeepFault>
    ensures reads { ReadsBy R.Lookup from.old from.new result (λ h _. SearchStays search.old search.new h.rows (λ day tree. found.new ≡ found.old ++ ids_of_hits (asked_by tree) h.rows day rows.now)) }
    ensures ascend { OnOk result ((past : ℤ) → AscendsPast tables.Card past rows.now → TakesFrom found.old past → TakesFrom found.new (last_id past rows.now)) }
{
    let mut rest = rows;
    while let Some((row, others)) = rest.split_first() {
        take_row(search, from, row, found)?;
        rest = others;
    }
    Ok(())
}

/// Adds the id of the row, if it is a hit.
fn take_row<R: Lookup>(
    search: &mut Search<'_>,
    from: &mut R,
    row: &Row,
    found: &mut List<i64>,
) -> Result<(), KeepFault>
    ensures reads { ReadsBy R.Lookup from.old from.new result (λ h _. SearchStays search.old search.new h.rows (λ day tree. found.new ≡ found.old ++ ids_of_hits (asked_by tree) h.rows day (row.now ∷ []))) }
    ensures ascend { OnOk result ((past : ℤ) → IsTrue (is_past tables.Card past (name_of row.now)) → TakesFrom found.old past → TakesFrom found.new (name_of row.now).id) }
{
    if is_hit(search, from, row)? {
        found.push(row.name().id)?;
    }
    Ok(())
}

/// Whether the row is a card that meets the search.
fn is_hit<R: Lookup>(search: &mut Search<'_>, from: &mut R, row: &Row) -> Result<bool, KeepFault>
    ensures reads { ReadsBy R.Lookup from.old from.new result (λ h is. SearchStays search.old search.new h.rows (λ day tree. is ≡ is_hit (asked_by tree) h.rows day row.now)) }
{
    match row {
        Row::Card(card) => search.meets(from, card),
        _ => Ok(false),
    }
}

/// Whether the card meets the tokens. What is known at once comes first.
fn meets<R: Lookup>(
    context: &SearchContext,
    tokens: &[Token],
    from: &mut R,
    latest: &mut Latest,
    card: &Card,
) -> Result<bool, KeepFault>
    ensures reads { ReadsBy R.Lookup from.old from.new result (λ h does. Stays latest.old latest.new h.rows (does ≡ asked (pieces_in tokens.now) (tested context.now h.rows card.now))) }
{
    if fails_unseen(context, tokens, card) {
        return Ok(false);
    }
    meets_by_pieces(context, tokens, from, latest, card)
}

/// The same, piece by piece. What no longer matters is not asked, and not looked up.
fn meets_by_pieces<R: Lookup>(
    context: &SearchContext,
    tokens: &[Token],
    from: &mut R,
    latest: &mut Latest,
    card: &Card,
) -> Result<bool, KeepFault>
    ensures reads { ReadsBy R.Lookup from.old from.new result (λ h does. Stays latest.old latest.new h.rows (does ≡ asked (pieces_in tokens.now) (tested context.now h.rows card.now))) }
{
    let mut evaluator = Evaluator::new(context.alloc);
    let mut rest = tokens;
    while let Some((token, others)) = rest.split_first() {
        match evaluator.skip(&token.piece, others) {
            Some(behind) => rest = behind,
            None => {
                let does = tells(context, from, latest, card, &token.piece)?;
                evaluator.take(&token.piece, does)?;
                rest = others;
            }
        }
    }
    Ok(evaluator.holds())
}

/// What the piece does of the card, if it is a term.
fn tells<R: Lookup>(
    context: &SearchContext,
    from: &mut R,
    latest: &mut Latest,
    card: &Card,
    piece: &Piece,
) -> Result<bool, KeepFault>
    ensures reads { ReadsBy R.Lookup from.old from.new result (λ h does. Stays latest.old latest.new h.rows (Tells piece.now (tested context.now h.rows card.now) does)) }
{
    match piece {
        Piece::Test(_, term) => holds_of(context, from, latest, card, term),
        _ => Ok(false),
    }
}

/// Whether the term holds of the card.
fn holds_of<R: Lookup>(
    context: &SearchContext,
    from: &mut R,
    latest: &mut Latest,
    card: &Card,
    term: &Term,
) -> Result<bool, KeepFault>
    ensures reads { ReadsBy R.Lookup from.old from.new result (λ h does. Stays latest.old latest.new h.rows (does ≡ tested context.now h.rows card.now term.now)) }
{
    latest.turn_to(context.alloc, from, card, term)?;
    let does = context.holds(card, latest, term)?;
    Ok(does)
}
