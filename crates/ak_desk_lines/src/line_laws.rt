// What follows for every caller from the ends of lines.
ghost use Rattle.std.specs.Prelude.{Result};
ghost use Rattle.ak_desk_language.specs.declared.desk_lines.DeskLine.{DeskLine};
ghost use Rattle.ak_desk_lines.specs.DeskStates.{DeskState};
ghost use Rattle.ak_desk_lines.specs.LineEnds.{EndsLine};
ghost use Rattle.ak_desk_lines.specs.LineSteps.{IsOneStep, KeepsLinks};
ghost use Rattle.ak_desk_lines.specs.declared.turns.Turn.{Turn};
ghost use Rattle.ak_desk_texts.specs.declared.answers.DeskAnswer.{DeskAnswer};
ghost use Rattle.ak_edit.specs.Undos.{SuitsNow};
ghost use Rattle.ak_edit.specs.declared.desk_faults.DeskFault.{DeskFault};
ghost use Rattle.ak_keep.specs.Keepers.{WhereHeld};

use ak_deck_paths::{deck_additions_are_admitted, deck_renames_are_admitted};

/// A line, accepted or refused, leaves all as it was, or does one edit that is admitted, or undoes the latest step. So
/// what `ak_edit` says of a finished edit and of an undo holds of every line: names, graves, links with servers.
pub fn lines_are_single_steps()
    ensures { (line : DeskLine) (t : Turn) (was now : DeskState) (result : Result DeskAnswer DeskFault)
        → EndsLine line t was now result → WhereHeld was.keeping (λ c. IsOneStep t.at c was now) }
{
    // Laws of the calls, for the proof alone.
    deck_additions_are_admitted();
    deck_renames_are_admitted();
}

/// The undo list that suited the collection before a line suits it after.
pub fn undo_lists_suit_after_lines()
    ensures { (line : DeskLine) (t : Turn) (was now : DeskState) (result : Result DeskAnswer DeskFault)
        → EndsLine line t was now result
        → WhereHeld was.keeping (λ c. SuitsNow was.steps c → WhereHeld now.keeping (SuitsNow now.steps)) }
{
    // For the proof alone.
    lines_are_single_steps();
}

/// A collection that is linked with one of a server stays so after a line, and the steps of its undo list go on to fit that,
/// unless the line changes the schema.
pub fn lines_keep_links()
    ensures { (line : DeskLine) (t : Turn) (was now : DeskState) (result : Result DeskAnswer DeskFault)
        → EndsLine line t was now result
        → WhereHeld was.keeping (λ c. SuitsNow was.steps c → KeepsLinks c was now) }
{
    // For the proof alone.
    lines_are_single_steps();
}
