// The calls on filtered decks, at a desk.
ghost use Rattle.std.specs.Prelude.{◌≡◌, IfErr, IfOk};
ghost use Rattle.ak_any_lines.specs.FilteredCalls.{EndsAnswering, EndsBuilding, EndsEmptying, EndsMaking};
ghost use Rattle.ak_desk.specs.Desks.{IsIdle};
ghost use Rattle.ak_desk_lines.specs.DeskStates.{state_of};
ghost use Rattle.ak_edit.specs.Refusals.{DeskCause};
ghost use Rattle.ak_filtered.specs.Building.{IsBuildFault};
ghost use Rattle.ak_filtered.specs.EmptyFaults.{IsEmptyFault};
ghost use Rattle.ak_filtered.specs.FilteredFaults.{FilteredCause};
ghost use Rattle.ak_filtered.specs.MakingFaults.{IsMakingFault};
ghost use Rattle.ak_keep.specs.Collections.{IsId};
ghost use Rattle.ak_study.specs.Answers.{IsAnswerFault, IsButton};
ghost use Rattle.ak_study.specs.DayStarts.{IsInDay};

use ak_base::Card;
use ak_desk::Desk;
use ak_edit::DeskFault;
use ak_filtered::{FilteredFault, NewFiltered};
use ak_keep::Keeper;
use ak_study::CardAnswer;

/// Makes a filtered deck at a moment in milliseconds, and gives its id. It is refused as `ak_filtered::make_filtered` is.
pub fn make_filtered<K: Keeper>(
    desk: &mut Desk<K>,
    given: &NewFiltered<'_>,
    at: i64,
) -> Result<i64, FilteredFault>
    requires idle { IsIdle (K.keeping desk.old.keeper.now) }
    ensures ends { EndsMaking at given.now (state_of K.Lookup desk.old) (state_of K.Lookup desk.new) result }
    ensures range { IfOk result IsId }
    ensures listed { IfErr result IsMakingFault }
    ensures cause { FilteredCause (K.health desk.old.keeper.now) (K.health desk.new.keeper.now) result }
    ensures lent { (desk.new.keeper.ghost_name ≡ desk.old.keeper.ghost_name)
        × (desk.new.undo.ghost_name ≡ desk.old.undo.ghost_name) }
{
    ak_filtered::make_filtered(desk.keeper, desk.undo, given, at)
}

/// Builds a filtered deck at a moment in milliseconds, and tells how many cards came. It is refused as `ak_filtered::build` is.
pub fn build<K: Keeper>(desk: &mut Desk<K>, deck: i64, at: i64) -> Result<u64, FilteredFault>
    requires idle { IsIdle (K.keeping desk.old.keeper.now) }
    requires moment { IsInDay at }
    ensures ends { EndsBuilding at deck (state_of K.Lookup desk.old) (state_of K.Lookup desk.new) result }
    ensures listed { IfErr result (IsBuildFault deck) }
    ensures cause { FilteredCause (K.health desk.old.keeper.now) (K.health desk.new.keeper.now) result }
    ensures lent { (desk.new.keeper.ghost_name ≡ desk.old.keeper.ghost_name)
        × (desk.new.undo.ghost_name ≡ desk.old.undo.ghost_name) }
{
    ak_filtered::build(desk.keeper, desk.undo, deck, at)
}

/// Empties a filtered deck at a moment in milliseconds, and tells how many cards went home. It is refused as `ak_filtered::empty` is.
pub fn empty<K: Keeper>(desk: &mut Desk<K>, deck: i64, at: i64) -> Result<u64, FilteredFault>
    requires idle { IsIdle (K.keeping desk.old.keeper.now) }
    ensures ends { EndsEmptying at deck (state_of K.Lookup desk.old) (state_of K.Lookup desk.new) result }
    ensures listed { IfErr result (IsEmptyFault deck) }
    ensures cause { FilteredCause (K.health desk.old.keeper.now) (K.health desk.new.keeper.now) result }
    ensures lent { (desk.new.keeper.ghost_name ≡ desk.old.keeper.ghost_name)
        × (desk.new.undo.ghost_name ≡ desk.old.undo.ghost_name) }
{
    ak_filtered::empty(desk.keeper, desk.undo, deck, at)
}

/// Answers a card, at home or away, at a moment in milliseconds, and gives it as it is after its answer. It is refused as
/// `ak_away_answers::answer_any` is.
pub fn answer_any<K: Keeper>(
    desk: &mut Desk<K>,
    given: &CardAnswer,
    at: i64,
) -> Result<Card, DeskFault>
    requires idle { IsIdle (K.keeping desk.old.keeper.now) }
    requires moment { IsInDay at }
    requires button { IsButton given.now.button }
    ensures ends { EndsAnswering at given.now (state_of K.Lookup desk.old) (state_of K.Lookup desk.new) result }
    ensures listed { IfErr result (IsAnswerFault given.now.card) }
    ensures cause { DeskCause (K.health desk.old.keeper.now) (K.health desk.new.keeper.now) result }
    ensures lent { (desk.new.keeper.ghost_name ≡ desk.old.keeper.ghost_name)
        × (desk.new.undo.ghost_name ≡ desk.old.undo.ghost_name) }
{
    ak_away_answers::answer_any(desk.keeper, desk.undo, given, at)
}
