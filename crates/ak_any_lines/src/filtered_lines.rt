// Lines about filtered decks.
ghost use Rattle.std.specs.Prelude.{◌≡◌};
ghost use Rattle.ak_any_lines.specs.AnyEnds.{EndsAnyAt};
ghost use Rattle.ak_any_lines.specs.LineResults.{RefusalCause, by_call, line_refusal};
ghost use Rattle.ak_desk.specs.Desks.{IsIdle};
ghost use Rattle.ak_desk_language.specs.declared.any_lines.AnyLine.TheVariants as lines;
ghost use Rattle.ak_desk_texts.specs.declared.answers.DeskAnswer.TheVariants as answers;
ghost use Rattle.ak_study.specs.DayStarts.{IsInDay};

use crate::filtered_calls::{build, empty, make_filtered};
use ak_base::Text;
use ak_desk::Desk;
use ak_desk_lines::Turn;
use ak_desk_texts::{DeskAnswer, LineRefusal};
use ak_edit::DeskFault;
use ak_filtered::{FilteredFault, NewFiltered};
use ak_keep::Keeper;

/// `filter`: makes a filtered deck.
pub(crate) fn make_deck<K: Keeper>(
    desk: &mut Desk<K>,
    name: &Text,
    search: &Text,
    limit: i64,
    order: i64,
    turn: Turn,
) -> Result<DeskAnswer, LineRefusal>
    requires idle { IsIdle (K.keeping desk.old.keeper.now) }
    ensures ends { EndsAnyAt K.Lookup (lines.Filter name.now search.now limit order) turn desk.old desk.new result }
    ensures stays { (K.keeping desk.new.keeper.now).headed ≡ (K.keeping desk.old.keeper.now).headed }
    ensures cause { RefusalCause (K.health desk.old.keeper.now) (K.health desk.new.keeper.now) result }
    ensures lent { (desk.new.keeper.ghost_name ≡ desk.old.keeper.ghost_name)
        × (desk.new.undo.ghost_name ≡ desk.old.undo.ghost_name) }
{
    let given = NewFiltered {
        path: name.as_str(),
        search: search.as_str(),
        limit,
        order,
    };
    made(make_filtered(desk, &given, turn.at))
}

/// The answer for a filtered deck that was made: its id.
fn made(called: Result<i64, FilteredFault>) -> Result<DeskAnswer, LineRefusal>
    ensures { result ≡ by_call answers.AddedDeck called }
{
    match called {
        Ok(deck) => Ok(DeskAnswer::AddedDeck(deck)),
        Err(fault) => Err(line_refusal(fault)),
    }
}

/// `build`: fills a filtered deck anew.
pub(crate) fn build_deck<K: Keeper>(
    desk: &mut Desk<K>,
    deck: i64,
    turn: Turn,
) -> Result<DeskAnswer, LineRefusal>
    requires idle { IsIdle (K.keeping desk.old.keeper.now) }
    requires moment { IsInDay turn.at }
    ensures ends { EndsAnyAt K.Lookup (lines.Build deck) turn desk.old desk.new result }
    ensures stays { (K.keeping desk.new.keeper.now).headed ≡ (K.keeping desk.old.keeper.now).headed }
    ensures cause { RefusalCause (K.health desk.old.keeper.now) (K.health desk.new.keeper.now) result }
    ensures lent { (desk.new.keeper.ghost_name ≡ desk.old.keeper.ghost_name)
        × (desk.new.undo.ghost_name ≡ desk.old.undo.ghost_name) }
{
    built(build(desk, deck, turn.at))
}

/// The answer for a filtered deck that was built: how many cards came.
fn built(called: Result<u64, FilteredFault>) -> Result<DeskAnswer, LineRefusal>
    ensures { result ≡ by_call answers.Built called }
{
    match called {
        Ok(count) => Ok(DeskAnswer::Built(count)),
        Err(fault) => Err(line_refusal(fault)),
    }
}

/// `empty`: sends the cards of a filtered deck home.
pub(crate) fn empty_deck<K: Keeper>(
    desk: &mut Desk<K>,
    deck: i64,
    turn: Turn,
) -> Result<DeskAnswer, LineRefusal>
    requires idle { IsIdle (K.keeping desk.old.keeper.now) }
    ensures ends { EndsAnyAt K.Lookup (lines.Empty deck) turn desk.old desk.new result }
    ensures stays { (K.keeping desk.new.keeper.now).headed ≡ (K.keeping desk.old.keeper.now).headed }
    ensures cause { RefusalCause (K.health desk.old.keeper.now) (K.health desk.new.keeper.now) result }
    ensures lent { (desk.new.keeper.ghost_name ≡ desk.old.keeper.ghost_name)
        × (desk.new.undo.ghost_name ≡ desk.old.undo.ghost_name) }
{
    emptied(empty(desk, deck, turn.at))
}

/// The answer for a filtered deck that was emptied: how many cards went.
fn emptied(called: Result<u64, FilteredFault>) -> Result<DeskAnswer, LineRefusal>
    ensures { result ≡ by_call answers.Emptied called }
{
    match called {
        Ok(count) => Ok(DeskAnswer::Emptied(count)),
        Err(fault) => Err(line_refusal(fault)),
    }
}

/// A fault of a call on filtered decks as a refusal of a line.
fn line_refusal(fault: FilteredFault) -> LineRefusal
    ensures { result ≡ line_refusal fault }
{
    match fault {
        FilteredFault::Desk(fault) => LineRefusal::Desk(fault),
        FilteredFault::NotFiltered(deck) => LineRefusal::NotFiltered(deck),
        FilteredFault::Search(fault) => LineRefusal::Search(fault),
        FilteredFault::BadPlan(deck) => LineRefusal::BadPlan(deck),
        FilteredFault::Memory => LineRefusal::Desk(DeskFault::Memory),
    }
}
