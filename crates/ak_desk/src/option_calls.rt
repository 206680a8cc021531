ghost use Rattle.std.specs.Prelude.{◌≡◌, pos, IfErr, IfOk};
ghost use Rattle.ak_base.specs.Heads.{IsWithin};
ghost use Rattle.ak_desk.specs.Desks.{EditsAt, IsIdle};
ghost use Rattle.ak_edit.specs.Refusals.{DeskCause, IsEndFault};
ghost use Rattle.ak_edit_calls.specs.Additions.{AddsBy};
ghost use Rattle.ak_keep.specs.Collections.{IsId};
ghost use Rattle.ak_options.specs.OptionDeletions.{IsDeletionFault, RefusesDeletion, options_deletion};
ghost use Rattle.ak_options.specs.OptionGroups.{IsAdditionFault, IsChangeFault, RefusesChange, given_group, options_change};
ghost use Rattle.ak_options.specs.Spreads.{RefusesSpread, spreading};

use crate::desks::Desk;
use ak_base::Options;
use ak_edit::DeskFault;
use ak_keep::Keeper;
use ak_options::{DeleteOptions, add_options, delete_options, set_options, set_spread};

impl<'a, K: Keeper> Desk<'a, K> {
    /// Adds a group of options, at a moment in milliseconds, and gives its id. It is refused as
    /// `ak_options::add_options` is.
    pub fn add_options(&mut self, options: Options, at: i64) -> Result<i64, DeskFault>
        requires idle { IsIdle (K.keeping self.old.keeper.now) }
        ensures adds { AddsBy K.Lookup self.old.keeper.now self.new.keeper.now self.old.undo.now self.new.undo.now
            result (given_group at options) }
        ensures range { IfOk result IsId }
        ensures listed { IfErr result IsAdditionFault }
        ensures cause { DeskCause (K.health self.old.keeper.now) (K.health self.new.keeper.now) result }
        ensures lent { (self.new.keeper.ghost_name ≡ self.old.keeper.ghost_name)
            × (self.new.undo.ghost_name ≡ self.old.undo.ghost_name) }
    {
        add_options(self.keeper, self.undo, options, at)
    }

    /// Puts a group of options in place of the one of its id, at a moment in milliseconds. It is refused as
    /// `ak_options::set_options` is.
    pub fn set_options(&mut self, options: Options, at: i64) -> Result<(), DeskFault>
        requires idle { IsIdle (K.keeping self.old.keeper.now) }
        ensures edits { EditsAt K.Lookup self.old self.new result at
            (options_change options) (RefusesChange at options) }
        ensures listed { IfErr result (IsChangeFault options.id) }
        ensures cause { DeskCause (K.health self.old.keeper.now) (K.health self.new.keeper.now) result }
        ensures lent { (self.new.keeper.ghost_name ≡ self.old.keeper.ghost_name)
            × (self.new.undo.ghost_name ≡ self.old.undo.ghost_name) }
    {
        set_options(self.keeper, self.undo, options, at)
    }

    /// Deletes a group of options, at a moment in milliseconds: the schema changes, and the undo list is emptied. It is
    /// refused as `ak_options::delete_options` is.
    pub fn delete_options(&mut self, deleted: &DeleteOptions, at: i64) -> Result<(), DeskFault>
        requires idle { IsIdle (K.keeping self.old.keeper.now) }
        ensures edits { EditsAt K.Lookup self.old self.new result at
            (options_deletion deleted.now.options) (RefusesDeletion at deleted.now.options deleted.now.allow) }
        ensures listed { IfErr result (IsDeletionFault deleted.now.options) }
        ensures cause { DeskCause (K.health self.old.keeper.now) (K.health self.new.keeper.now) result }
        ensures lent { (self.new.keeper.ghost_name ≡ self.old.keeper.ghost_name)
            × (self.new.undo.ghost_name ≡ self.old.undo.ghost_name) }
    {
        delete_options(self.keeper, self.undo, deleted, at)
    }

    /// Sets where new cards come, at a moment in milliseconds: 0 among reviews, 1 after them, 2 before them. It is
    /// refused as `ak_options::set_spread` is.
    pub fn set_spread(&mut self, value: i64, at: i64) -> Result<(), DeskFault>
        requires idle { IsIdle (K.keeping self.old.keeper.now) }
        requires value { IsWithin (pos 0) (pos 2) value }
        ensures edits { EditsAt K.Lookup self.old self.new result at
            (spreading value) (RefusesSpread at value) }
        ensures listed { IfErr result IsEndFault }
        ensures cause { DeskCause (K.health self.old.keeper.now) (K.health self.new.keeper.now) result }
        ensures lent { (self.new.keeper.ghost_name ≡ self.old.keeper.ghost_name)
            × (self.new.undo.ghost_name ≡ self.old.undo.ghost_name) }
    {
        set_spread(self.keeper, self.undo, value, at)
    }
}
