ghost use Rattle.std.specs.Prelude.{◌≡◌, map};
ghost use Rattle.ak_any_lines.specs.AnyEnds.{AppliesToAny, EndsAnyLine};
ghost use Rattle.ak_any_lines.specs.LineResults.{RefusalCause};
ghost use Rattle.ak_desk.specs.Desks.{IsIdle};
ghost use Rattle.ak_desk_language.specs.AnyLines.{IsAnyInRange};
ghost use Rattle.ak_desk_runs.specs.LineOutcomes.{EndsAs};
ghost use Rattle.ak_desk_runs.specs.RunStates.{line_state_of, outside_of, state_with};
ghost use Rattle.ak_desk_runs.specs.TextStops.{SaidComesOut, TextComesOut};
ghost use Rattle.ak_line_runs.specs.LinePrints.{printed_by};
ghost use Rattle.ak_line_runs.specs.LineRuns.{came_to};
ghost use Rattle.ak_line_runs.specs.LineStops.{StopCause};
ghost use Rattle.ak_study.specs.DayStarts.{IsInDay};

use crate::progress::Progress;
use crate::turn_takings::take_turn;
use ak_any_lines::obey_any;
use ak_base::List;
use ak_desk::Desk;
use ak_desk_language::{AnyLine, read_line};
use ak_desk_lines::{Turn, counted};
use ak_desk_texts::{DeskAnswer, LineRefusal};
use ak_filters::FieldFilter;
use ak_io::{Chance, Clock, Line};
use ak_keep::Keeper;
use ak_line_runs::{
    LinePrint, LineStop, is_skipped_line, line_stop, refusal_stop, stop_by, text_of,
};
use ak_undo::UndoList;

/// Does what a line of the input says, and gives what it prints: its answer, or nothing if the line is skipped.
pub(crate) fn obey_line<K: Keeper, C: Clock, R: Chance>(
    progress: &mut Progress,
    line: &Line,
    keeper: &mut K,
    clock: &mut C,
    chance: &mut R,
    filters: &mut Vec<Box<dyn FieldFilter>>,
) -> Result<LinePrint, LineStop>
    requires idle { IsIdle (K.keeping keeper.old) }
    ensures ends { EndsAs line.now
        (state_with (outside_of (K.keeping keeper.old) (map (λ b. meaning b) filters.old.items)
        (C.to_come clock.old) (R.to_come chance.old)) progress.old)
        (state_with (outside_of (K.keeping keeper.new) (map (λ b. meaning b) filters.new.items)
        (C.to_come clock.new) (R.to_come chance.new)) progress.new) (came_to (printed_by result)) }
    ensures stays { (K.keeping keeper.new).headed ≡ (K.keeping keeper.old).headed }
    ensures cause { StopCause (K.health keeper.old) (K.health keeper.new) result }
{
    if is_skipped_line(line) {
        return Ok(LinePrint::Lines(List::new(progress.alloc)));
    }
    let turn = take_turn(line, progress.done, clock, chance);
    let text = match text_of(line) {
        Ok(text) => text,
        Err(why) => return Err(stop_by(progress.alloc, why)),
    };
    let answer = obey_text(progress, text, turn, keeper, filters)?;
    Ok(LinePrint::Answer(answer))
}

/// Does what a text says, in its turn.
fn obey_text<K: Keeper>(
    progress: &mut Progress,
    text: &str,
    turn: Turn,
    keeper: &mut K,
    filters: &mut Vec<Box<dyn FieldFilter>>,
) -> Result<DeskAnswer, LineStop>
    requires idle { IsIdle (K.keeping keeper.old) }
    requires moment { IsInDay turn.at }
    ensures ends { TextComesOut text.now turn
        (line_state_of (K.keeping keeper.old) (map (λ b. meaning b) filters.old.items) progress.old)
        (line_state_of (K.keeping keeper.new) (map (λ b. meaning b) filters.new.items) progress.new) result }
    ensures stays { (K.keeping keeper.new).headed ≡ (K.keeping keeper.old).headed }
    ensures cause { StopCause (K.health keeper.old) (K.health keeper.new) result }
{
    match read_line(progress.alloc, text) {
        Ok(said) => obey_said(progress, said, turn, keeper, filters),
        Err(fault) => Err(line_stop(progress.alloc, &fault)),
    }
}

/// Does a line of the desk in its turn, and counts it if it is an answer that is accepted.
fn obey_said<K: Keeper>(
    progress: &mut Progress,
    said: AnyLine,
    turn: Turn,
    keeper: &mut K,
    filters: &mut Vec<Box<dyn FieldFilter>>,
) -> Result<DeskAnswer, LineStop>
    requires idle { IsIdle (K.keeping keeper.old) }
    requires moment { IsInDay turn.at }
    requires range { IsAnyInRange said }
    ensures ends { SaidComesOut said turn
        (line_state_of (K.keeping keeper.old) (map (λ b. meaning b) filters.old.items) progress.old)
        (line_state_of (K.keeping keeper.new) (map (λ b. meaning b) filters.new.items) progress.new) result }
    ensures stays { (K.keeping keeper.new).headed ≡ (K.keeping keeper.old).headed }
    ensures cause { StopCause (K.health keeper.old) (K.health keeper.new) result }
{
    match obey_at(keeper, &mut progress.undo, said, turn, filters) {
        Ok(answer) => {
            progress.done = counted(&answer, progress.done);
            Ok(answer)
        }
        Err(refusal) => Err(refusal_stop(progress.alloc, &refusal)),
    }
}

/// Does a line at a desk over the keeper and the list.
fn obey_at<K: Keeper>(
    keeper: &mut K,
    undo: &mut UndoList,
    said: AnyLine,
    turn: Turn,
    filters: &mut Vec<Box<dyn FieldFilter>>,
) -> Result<DeskAnswer, LineRefusal>
    requires idle { IsIdle (K.keeping keeper.old) }
    requires moment { IsInDay turn.at }
    requires range { IsAnyInRange said }
    ensures ends { EndsAnyLine said turn
        (record { keeping = K.keeping keeper.old; steps = undo.old })
        (record { keeping = K.keeping keeper.new; steps = undo.new }) result }
    ensures filters { AppliesToAny said (K.keeping keeper.old)
        (map (λ b. meaning b) filters.old.items) (map (λ b. meaning b) filters.new.items) result }
    ensures stays { (K.keeping keeper.new).headed ≡ (K.keeping keeper.old).headed }
    ensures cause { RefusalCause (K.health keeper.old) (K.health keeper.new) result }
{
    let mut desk = Desk::over(keeper, undo);
    obey_any(&mut desk, said, turn, filters)
}
