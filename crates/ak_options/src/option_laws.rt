// What follows for every caller from the rules of these calls: their edits are admitted, so each keeps links with servers and
// that the undo list suits.
ghost use Rattle.std.specs.Prelude.{ℤ};
ghost use Rattle.ak_base.specs.declared.option_groups.Options.{Options};
ghost use Rattle.ak_keep.specs.Collections.{Collection};
ghost use Rattle.ak_merge.specs.Edits.{Admits};
ghost use Rattle.ak_merge.specs.Holdings.{AreNamed, row_under};
ghost use Rattle.ak_options.specs.OptionDeletions.{options_deletion};
ghost use Rattle.ak_options.specs.OptionGroups.{options_addition, options_change};
ghost use Rattle.ak_options.specs.Spreads.{spreading};

/// The edit that puts a group of options in place of another is admitted.
pub fn changes_are_admitted()
    ensures { (options : Options) (c : Collection) → AreNamed (row_under c) → Admits c (options_change options c) }
{}

/// The edit that adds a group of options is admitted: groups leave no graves, so any id will do.
pub fn additions_are_admitted()
    ensures { (options : Options) (id : ℤ) (c : Collection) → AreNamed (row_under c) → Admits c (options_addition options id c) }
{}

/// The edit that deletes a group of options is admitted.
pub fn deletions_are_admitted()
    ensures { (options : ℤ) (c : Collection) → AreNamed (row_under c) → Admits c (options_deletion options c) }
{}

/// The edit that sets where new cards come is admitted.
pub fn spreads_are_admitted()
    ensures { (value : ℤ) (c : Collection) → AreNamed (row_under c) → Admits c (spreading value c) }
{}
