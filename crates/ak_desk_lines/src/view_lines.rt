ghost use Rattle.std.specs.Prelude.{◌≡◌, true, map, IfErr, IfOk, IfSome};
ghost use Rattle.ak_desk.specs.Desks.{IsIdle};
ghost use Rattle.ak_desk_language.specs.declared.desk_lines.DeskLine.TheVariants as lines;
ghost use Rattle.ak_desk_lines.specs.Accepted.{AreFound, answer_with};
ghost use Rattle.ak_desk_lines.specs.LineEnds.{EndsAt, EndsMute, EndsPage};
ghost use Rattle.ak_desk_texts.specs.declared.answers.DeskAnswer.TheVariants as answers;
ghost use Rattle.ak_edit.specs.Refusals.{DeskCause, IsFromOutside};
ghost use Rattle.ak_keep.specs.Keepers.{WhereTold};
ghost use Rattle.ak_study.specs.DayStarts.{IsInDay};

use crate::asking_lines::day_of;
use crate::turns::Turn;
use ak_base::{List, Text};
use ak_desk::Desk;
use ak_desk_texts::DeskAnswer;
use ak_edit::DeskFault;
use ak_filters::{FieldFilter, drop_filter};
use ak_keep::Keeper;
use ak_pages::card_page;
use ak_search::{Expr, find};
use ak_template::PageFault;
use std::alloc::Global;

/// `find`: gives the cards that meet a search on the day of the moment. It starts no day.
pub(crate) fn find_cards<K: Keeper>(
    desk: &mut Desk<K>,
    search: &Expr,
    turn: Turn,
) -> Result<DeskAnswer, DeskFault>
    requires idle { IsIdle (K.keeping desk.old.keeper.now) }
    requires moment { IsInDay turn.at }
    ensures ends { EndsAt K.Lookup (lines.Find search.now) turn desk.old desk.new result }
    ensures cause { DeskCause (K.health desk.old.keeper.now) (K.health desk.new.keeper.now) result }
    ensures lent { (desk.new.keeper.ghost_name ≡ desk.old.keeper.ghost_name)
        × (desk.new.undo.ghost_name ≡ desk.old.undo.ghost_name) }
{
    let alloc = desk.undo.allocator();
    found(found_at(alloc, desk.keeper, search, turn.at))
}

/// The answer for cards that were searched.
fn found(made: Result<List<i64>, DeskFault>) -> Result<DeskAnswer, DeskFault>
    ensures { result ≡ answer_with answers.Found made }
{
    Ok(DeskAnswer::Found(made?))
}

/// The cards that meet a search on the day of a moment in milliseconds.
fn found_at<K: Keeper>(
    alloc: Global,
    keeper: &mut K,
    search: &Expr,
    at: i64,
) -> Result<List<i64>, DeskFault>
    requires held { (K.keeping keeper.old).headed.current ≡ true }
    requires moment { IsInDay at }
    ensures told { IfOk result (λ ids. WhereTold (K.keeping keeper.old)
        (λ h. IfSome h.head (λ head. AreFound at search.now h.rows head ids))) }
    ensures same { K.keeping keeper.new ≡ K.keeping keeper.old }
    ensures listed { IfErr result IsFromOutside }
    ensures cause { DeskCause (K.health keeper.old) (K.health keeper.new) result }
{
    let day = day_of(keeper, at)?;
    let found = find(alloc, search, keeper, day)?;
    Ok(found)
}

/// `page`: gives the page of a side of a card, through the filters. The turn is for the clause alone.
pub(crate) fn show_page<K: Keeper>(
    desk: &mut Desk<K>,
    card: i64,
    back: bool,
    filters: &mut Vec<Box<dyn FieldFilter>>,
    turn: Turn,
) -> Result<DeskAnswer, DeskFault>
    requires idle { IsIdle (K.keeping desk.old.keeper.now) }
    ensures ends { EndsAt K.Lookup (lines.Page card back) turn desk.old desk.new result }
    ensures shows { EndsPage (K.keeping desk.old.keeper.now) card back
        (map (λ b. meaning b) filters.old.items) (map (λ b. meaning b) filters.new.items) result }
    ensures cause { DeskCause (K.health desk.old.keeper.now) (K.health desk.new.keeper.now) result }
    ensures lent { (desk.new.keeper.ghost_name ≡ desk.old.keeper.ghost_name)
        × (desk.new.undo.ghost_name ≡ desk.old.undo.ghost_name) }
{
    shown(card_page(desk.keeper, card, back, filters))
}

/// The answer for a page.
fn shown(made: Result<Text, DeskFault>) -> Result<DeskAnswer, DeskFault>
    ensures { result ≡ answer_with answers.Page made }
{
    Ok(DeskAnswer::Page(made?))
}

/// `mute`: drops the first filter of that name. The desk and the turn are for the clauses alone; the desk is as it was.
pub(crate) fn mute_filter<K: Keeper>(
    desk: &mut Desk<K>,
    filter: Text,
    filters: &mut Vec<Box<dyn FieldFilter>>,
    turn: Turn,
) -> Result<DeskAnswer, DeskFault>
    requires idle { IsIdle (K.keeping desk.old.keeper.now) }
    ensures ends { EndsAt K.Lookup (lines.Mute filter) turn desk.old desk.new result }
    ensures drops { EndsMute filter
        (map (λ b. meaning b) filters.old.items) (map (λ b. meaning b) filters.new.items) result }
    ensures cause { DeskCause (K.health desk.old.keeper.now) (K.health desk.new.keeper.now) result }
    ensures lent { (desk.new.keeper.ghost_name ≡ desk.old.keeper.ghost_name)
        × (desk.new.undo.ghost_name ≡ desk.old.undo.ghost_name) }
{
    if drop_filter(filters, filter.as_str()) {
        return Ok(DeskAnswer::Done);
    }
    Err(DeskFault::Page(PageFault::NoFilter(filter)))
}
