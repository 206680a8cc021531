// What the calls on options keep.
ghost use Rattle.std.specs.Prelude.{Result, ℤ, Bool, List};
ghost use Rattle.ak_base.specs.declared.option_groups.Options.{Options};
ghost use Rattle.ak_content_laws.specs.SoundCalls.{HoldsSound};
ghost use Rattle.ak_edit.specs.declared.desk_faults.DeskFault.{DeskFault};
ghost use Rattle.ak_edit_calls.specs.Additions.{EndsAddition};
ghost use Rattle.ak_edit_calls.specs.Calls.{EndsEdit};
ghost use Rattle.ak_keep.specs.Keepers.{Keeping};
ghost use Rattle.ak_options.specs.OptionDeletions.{RefusesDeletion, options_deletion};
ghost use Rattle.ak_options.specs.OptionGroups.{RefusesChange, given_group, options_change};
ghost use Rattle.ak_options.specs.Spreads.{RefusesSpread, spreading};
ghost use Rattle.ak_undo.specs.declared.steps.Step.{Step};

/// A call that adds a group of options, accepted or refused, keeps what is held sound, and each undo.
pub fn added_options_keep_sound()
    ensures { (at : ℤ) (options : Options) (before now : Keeping) (steps left : List Step) (result : Result ℤ DeskFault)
        → EndsAddition (given_group at options) before now steps left result
        → HoldsSound before steps → HoldsSound now left }
{}

/// So does one that puts a group in place of another.
pub fn changed_options_keep_sound()
    ensures { (at : ℤ) (options : Options) (before now : Keeping) (steps left : List Step) (result : Result (Unit {0}) DeskFault)
        → EndsEdit at (options_change options) (RefusesChange at options) before now steps left result
        → HoldsSound before steps → HoldsSound now left }
{}

/// So does one that deletes a group.
pub fn deleted_options_keep_sound()
    ensures { (at options : ℤ) (allow : Bool) (before now : Keeping) (steps left : List Step) (result : Result (Unit {0}) DeskFault)
        → EndsEdit at (options_deletion options) (RefusesDeletion at options allow) before now steps left result
        → HoldsSound before steps → HoldsSound now left }
{}

/// So does one that sets where new cards come.
pub fn spreads_keep_sound()
    ensures { (at value : ℤ) (before now : Keeping) (steps left : List Step) (result : Result (Unit {0}) DeskFault)
        → EndsEdit at (spreading value) (RefusesSpread at value) before now steps left result
        → HoldsSound before steps → HoldsSound now left }
{}
