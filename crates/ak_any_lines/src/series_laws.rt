// What follows for every caller from the ends of any lines.
ghost use Rattle.std.specs.Prelude.{Result};
ghost use Rattle.ak_any_lines.specs.AnyEnds.{EndsAnyLine};
ghost use Rattle.ak_any_lines.specs.LineSeries.{IsInSteps};
ghost use Rattle.ak_desk_language.specs.declared.any_lines.AnyLine.{AnyLine};
ghost use Rattle.ak_desk_lines.specs.DeskStates.{DeskState};
ghost use Rattle.ak_desk_lines.specs.LineSteps.{KeepsLinks};
ghost use Rattle.ak_desk_lines.specs.declared.turns.Turn.{Turn};
ghost use Rattle.ak_desk_texts.specs.declared.answers.DeskAnswer.{DeskAnswer};
ghost use Rattle.ak_desk_texts.specs.declared.line_refusals.LineRefusal.{LineRefusal};
ghost use Rattle.ak_edit.specs.Undos.{SuitsNow};
ghost use Rattle.ak_keep.specs.Keepers.{WhereHeld};

use ak_away_answers::early_answers_are_admitted;
use ak_desk_lines::lines_are_single_steps;
use ak_filtered::filtered_edits_are_admitted;

/// A line, accepted or refused, does edits one after another that are admitted, leave the schema and clear the undo list, if it does
/// any; and then at most one step as a line that is one call does. So what `ak_edit` says of a finished edit and of an undo holds of
/// each step of every line: names, graves, links with servers.
pub fn any_lines_are_steps()
    ensures { (line : AnyLine) (t : Turn) (was now : DeskState) (result : Result DeskAnswer LineRefusal)
        → EndsAnyLine line t was now result → WhereHeld was.keeping (λ c. IsInSteps t.at c was now) }
{
    // Laws of the calls, for the proof alone.
    lines_are_single_steps();
    filtered_edits_are_admitted();
    early_answers_are_admitted();
}

/// The undo list that suited the collection before a line suits it after.
pub fn undo_lists_suit_after_any_lines()
    ensures { (line : AnyLine) (t : Turn) (was now : DeskState) (result : Result DeskAnswer LineRefusal)
        → EndsAnyLine line t was now result
        → WhereHeld was.keeping (λ c. SuitsNow was.steps c → WhereHeld now.keeping (SuitsNow now.steps)) }
{
    // For the proof alone.
    any_lines_are_steps();
}

/// A collection that is linked with one of a server stays so after a line, and the steps of its undo list go on to fit that, unless
/// the line changes the schema.
pub fn any_lines_keep_links()
    ensures { (line : AnyLine) (t : Turn) (was now : DeskState) (result : Result DeskAnswer LineRefusal)
        → EndsAnyLine line t was now result
        → WhereHeld was.keeping (λ c. SuitsNow was.steps c → KeepsLinks c was now) }
{
    // For the proof alone.
    any_lines_are_steps();
}
