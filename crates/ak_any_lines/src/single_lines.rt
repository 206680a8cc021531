// Lines that are one call, after what comes before them.
ghost use Rattle.std.specs.Prelude.{◌≡◌, map, IfSome};
ghost use Rattle.ak_any_lines.specs.AnyEnds.{AnswersGiven, EndsAfterFirst, EndsSingle, given_in};
ghost use Rattle.ak_desk.specs.Desks.{IsIdle};
ghost use Rattle.ak_desk_language.specs.DeskLines.{IsInRange};
ghost use Rattle.ak_desk_lines.specs.DeskStates.{state_of};
ghost use Rattle.ak_desk_lines.specs.LineEnds.{AppliesFilters};
ghost use Rattle.ak_edit.specs.Refusals.{DeskCause};
ghost use Rattle.ak_study.specs.Answers.{IsButton};
ghost use Rattle.ak_study.specs.DayStarts.{IsInDay};

use crate::filtered_calls::answer_any;
use crate::first_things::go_first;
use ak_desk::Desk;
use ak_desk_language::DeskLine;
use ak_desk_lines::{Turn, answered, obey};
use ak_desk_texts::DeskAnswer;
use ak_edit::DeskFault;
use ak_filters::FieldFilter;
use ak_keep::Keeper;
use ak_study::CardAnswer;

/// Does a line that is one call. The answer of a card that is away is not that of a card at home, and before any other line comes
/// what goes first.
pub(crate) fn obey_single<K: Keeper>(
    desk: &mut Desk<K>,
    line: DeskLine,
    turn: Turn,
    filters: &mut Vec<Box<dyn FieldFilter>>,
) -> Result<DeskAnswer, DeskFault>
    requires idle { IsIdle (K.keeping desk.old.keeper.now) }
    requires moment { IsInDay turn.at }
    requires range { IsInRange line }
    ensures ends { EndsSingle line turn (state_of K.Lookup desk.old) (state_of K.Lookup desk.new) result }
    ensures filters { AppliesFilters line (K.keeping desk.old.keeper.now)
        (map (λ b. meaning b) filters.old.items) (map (λ b. meaning b) filters.new.items) result }
    ensures stays { (K.keeping desk.new.keeper.now).headed ≡ (K.keeping desk.old.keeper.now).headed }
    ensures cause { DeskCause (K.health desk.old.keeper.now) (K.health desk.new.keeper.now) result }
    ensures lent { (desk.new.keeper.ghost_name ≡ desk.old.keeper.ghost_name)
        × (desk.new.undo.ghost_name ≡ desk.old.undo.ghost_name) }
{
    match given_in(&line, turn) {
        Some(given) => answer_card(desk, &given, turn.at),
        None => obey_after_first(desk, line, turn, filters),
    }
}

/// The answer that a line gives, if it is one.
fn given_in(line: &DeskLine, turn: Turn) -> Option<CardAnswer>
    requires range { IsInRange line.now }
    ensures given { result ≡ given_in line.now turn }
    ensures button { IfSome result (λ given. IsButton given.button) }
{
    match line {
        DeskLine::Answer {
            card,
            button,
            taken,
        } => Some(CardAnswer {
            card: *card,
            button: *button,
            taken: *taken,
            word: turn.chance,
        }),
        _ => None,
    }
}

/// Answers a card, at home or away.
fn answer_card<K: Keeper>(
    desk: &mut Desk<K>,
    given: &CardAnswer,
    at: i64,
) -> Result<DeskAnswer, DeskFault>
    requires idle { IsIdle (K.keeping desk.old.keeper.now) }
    requires moment { IsInDay at }
    requires button { IsButton given.now.button }
    ensures ends { AnswersGiven at given.now (state_of K.Lookup desk.old) (state_of K.Lookup desk.new) result }
    ensures stays { (K.keeping desk.new.keeper.now).headed ≡ (K.keeping desk.old.keeper.now).headed }
    ensures cause { DeskCause (K.health desk.old.keeper.now) (K.health desk.new.keeper.now) result }
    ensures lent { (desk.new.keeper.ghost_name ≡ desk.old.keeper.ghost_name)
        × (desk.new.undo.ghost_name ≡ desk.old.undo.ghost_name) }
{
    answered(answer_any(desk, given, at))
}

/// Does what goes first, and then the line. If the first is refused, so is the line.
fn obey_after_first<K: Keeper>(
    desk: &mut Desk<K>,
    line: DeskLine,
    turn: Turn,
    filters: &mut Vec<Box<dyn FieldFilter>>,
) -> Result<DeskAnswer, DeskFault>
    requires idle { IsIdle (K.keeping desk.old.keeper.now) }
    requires moment { IsInDay turn.at }
    requires range { IsInRange line }
    ensures ends { EndsAfterFirst line turn (state_of K.Lookup desk.old) (state_of K.Lookup desk.new) result }
    ensures filters { AppliesFilters line (K.keeping desk.old.keeper.now)
        (map (λ b. meaning b) filters.old.items) (map (λ b. meaning b) filters.new.items) result }
    ensures stays { (K.keeping desk.new.keeper.now).headed ≡ (K.keeping desk.old.keeper.now).headed }
    ensures cause { DeskCause (K.health desk.old.keeper.now) (K.health desk.new.keeper.now) result }
    ensures lent { (desk.new.keeper.ghost_name ≡ desk.old.keeper.ghost_name)
        × (desk.new.undo.ghost_name ≡ desk.old.undo.ghost_name) }
{
    go_first(desk, &line, turn)?;
    obey(desk, line, turn, filters)
}
