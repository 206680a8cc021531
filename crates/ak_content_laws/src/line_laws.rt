// What the commands of the desk begin with and keep, and what its lines keep.
ghost use Rattle.std.specs.Prelude.{◌≡◌, Result, [], ℕ, ℤ, true, is_some, List, Option as Maybe};
ghost use Rattle.ak_any_lines.specs.AnyEnds.{EndsAnyLine};
ghost use Rattle.ak_content_laws.specs.SoundCalls.{HoldsSound};
ghost use Rattle.ak_desk_language.specs.declared.any_lines.AnyLine.{AnyLine};
ghost use Rattle.ak_desk_lines.specs.DeskStates.{DeskState};
ghost use Rattle.ak_desk_lines.specs.declared.turns.Turn.{Turn};
ghost use Rattle.ak_desk_runs.specs.DeskRuns.{EndsDesk};
ghost use Rattle.ak_desk_runs.specs.Inits.{EndsInit};
ghost use Rattle.ak_desk_runs.specs.RunStates.{Outside};
ghost use Rattle.ak_desk_texts.specs.declared.answers.DeskAnswer.{DeskAnswer};
ghost use Rattle.ak_desk_texts.specs.declared.line_refusals.LineRefusal.{LineRefusal};
ghost use Rattle.ak_io.specs.declared.lines.Line.{Line};
ghost use Rattle.ak_keep.specs.Keepers.{Keeping};
ghost use Rattle.ak_line_runs.specs.declared.command_ends.CommandEnd.{CommandEnd};
ghost use Rattle.ak_line_runs.specs.declared.command_ends.CommandEnd.TheVariants.{Done};

/// The collection that the command `init` puts into a keeper that tells what it holds is sound.
pub fn init_begins_sound()
    ensures { (at : ℤ) (before after : Keeping) (old new : Maybe (List ℕ)) → EndsInit at Done before after old new
        → is_some before.told ≡ true → HoldsSound after [] }
{}

/// Each line of the desk, accepted or refused, keeps what is held sound, and each undo.
pub fn lines_keep_sound()
    ensures { (line : AnyLine) (t : Turn) (was now : DeskState) (result : Result DeskAnswer LineRefusal)
        → EndsAnyLine line t was now result → HoldsSound was.keeping was.steps → HoldsSound now.keeping now.steps }
{}

/// So the command `desk` leaves a sound collection, whatever its lines are and however it ends.
pub fn runs_keep_sound()
    ensures { (end : CommandEnd) (all : Maybe (List Line)) (before after : Outside) (old new : Maybe (List ℕ))
        → EndsDesk end all before after old new → HoldsSound before.keeping [] → HoldsSound after.keeping [] }
{}
