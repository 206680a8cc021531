ghost use Rattle.std.specs.Prelude.{◌≡◌, None, IfErr, IfOk, OnErr, OnOk};
ghost use Rattle.ak_deck_paths.specs.Additions.{DoesAdd, RefusesAddition};
ghost use Rattle.ak_deck_paths.specs.ChangedDecks.{IsPathFault};
ghost use Rattle.ak_deck_paths.specs.GivenPaths.{path_fault};
ghost use Rattle.ak_deck_paths.specs.Renames.{DoesRename, IsRenameFault, RefusesRename};
ghost use Rattle.ak_deck_trees.specs.DeckDeletions.{IsDeckDeletionFault, RefusesDeckDeletion, deck_deletion};
ghost use Rattle.ak_decks.specs.DeckOptions.{IsUseFault, RefusesUse, options_use};
ghost use Rattle.ak_desk.specs.Desks.{EditsAt, IsIdle};
ghost use Rattle.ak_edit.specs.Refusals.{AnswersBy, DeskCause};
ghost use Rattle.ak_keep.specs.Collections.{IsId};
ghost use Rattle.ak_keep.specs.Keepers.{WhereHeld};

use crate::desks::Desk;
use ak_deck_paths::{RenameDeck, add_deck, rename_deck};
use ak_deck_trees::delete_deck;
use ak_decks::{UseOptions, use_options};
use ak_edit::DeskFault;
use ak_keep::Keeper;

impl<'a, K: Keeper> Desk<'a, K> {
    /// Adds a deck with the decks that are missing above it, at a moment in milliseconds, and gives its id. It is
    /// refused as `ak_deck_paths::add_deck` is.
    pub fn add_deck(&mut self, path: &str, at: i64) -> Result<i64, DeskFault>
        requires idle { IsIdle (K.keeping self.old.keeper.now) }
        ensures ok { IfOk result (DoesAdd at path.now (K.keeping self.old.keeper.now) (K.keeping self.new.keeper.now)
            self.old.undo.now self.new.undo.now) }
        ensures given { OnOk result (path_fault path.now ≡ None) }
        ensures range { IfOk result IsId }
        ensures err { OnErr result (K.keeping self.new.keeper.now ≡ K.keeping self.old.keeper.now) }
        ensures kept { OnErr result (self.new.undo.now ≡ self.old.undo.now) }
        ensures stays { (K.keeping self.new.keeper.now).headed ≡ (K.keeping self.old.keeper.now).headed }
        ensures refused { WhereHeld (K.keeping self.old.keeper.now)
            (λ c. AnswersBy (RefusesAddition at path.now c) result) }
        ensures listed { IfErr result IsPathFault }
        ensures cause { DeskCause (K.health self.old.keeper.now) (K.health self.new.keeper.now) result }
        ensures lent { (self.new.keeper.ghost_name ≡ self.old.keeper.ghost_name)
            × (self.new.undo.ghost_name ≡ self.old.undo.ghost_name) }
    {
        add_deck(self.keeper, self.undo, path, at)
    }

    /// Renames a deck with its subtree, at a moment in milliseconds. It is refused as `ak_deck_paths::rename_deck` is.
    pub fn rename_deck(&mut self, rename: &RenameDeck, at: i64) -> Result<(), DeskFault>
        requires idle { IsIdle (K.keeping self.old.keeper.now) }
        ensures ok { OnOk result (DoesRename at rename.now.deck rename.now.path.now
            (K.keeping self.old.keeper.now) (K.keeping self.new.keeper.now) self.old.undo.now self.new.undo.now) }
        ensures given { OnOk result (path_fault rename.now.path.now ≡ None) }
        ensures err { OnErr result (K.keeping self.new.keeper.now ≡ K.keeping self.old.keeper.now) }
        ensures kept { OnErr result (self.new.undo.now ≡ self.old.undo.now) }
        ensures stays { (K.keeping self.new.keeper.now).headed ≡ (K.keeping self.old.keeper.now).headed }
        ensures refused { WhereHeld (K.keeping self.old.keeper.now)
            (λ c. AnswersBy (RefusesRename at rename.now.deck rename.now.path.now c) result) }
        ensures listed { IfErr result (IsRenameFault rename.now.deck) }
        ensures cause { DeskCause (K.health self.old.keeper.now) (K.health self.new.keeper.now) result }
        ensures lent { (self.new.keeper.ghost_name ≡ self.old.keeper.ghost_name)
            × (self.new.undo.ghost_name ≡ self.old.undo.ghost_name) }
    {
        rename_deck(self.keeper, self.undo, rename, at)
    }

    /// Deletes a deck with its subtree, their cards and the notes that have no other cards, at a moment in milliseconds.
    /// It is refused as `ak_deck_trees::delete_deck` is.
    pub fn delete_deck(&mut self, deck: i64, at: i64) -> Result<(), DeskFault>
        requires idle { IsIdle (K.keeping self.old.keeper.now) }
        ensures edits { EditsAt K.Lookup self.old self.new result at
            (deck_deletion deck) (RefusesDeckDeletion at deck) }
        ensures listed { IfErr result IsDeckDeletionFault }
        ensures cause { DeskCause (K.health self.old.keeper.now) (K.health self.new.keeper.now) result }
        ensures lent { (self.new.keeper.ghost_name ≡ self.old.keeper.ghost_name)
            × (self.new.undo.ghost_name ≡ self.old.undo.ghost_name) }
    {
        delete_deck(self.keeper, self.undo, deck, at)
    }

    /// Gives a deck other options, at a moment in milliseconds. It is refused as `ak_decks::use_options` is.
    pub fn use_options(&mut self, used: &UseOptions, at: i64) -> Result<(), DeskFault>
        requires idle { IsIdle (K.keeping self.old.keeper.now) }
        ensures edits { EditsAt K.Lookup self.old self.new result at
            (options_use used.now.options used.now.deck) (RefusesUse at used.now.options used.now.deck) }
        ensures listed { IfErr result IsUseFault }
        ensures cause { DeskCause (K.health self.old.keeper.now) (K.health self.new.keeper.now) result }
        ensures lent { (self.new.keeper.ghost_name ≡ self.old.keeper.ghost_name)
            × (self.new.undo.ghost_name ≡ self.old.undo.ghost_name) }
    {
        use_options(self.keeper, self.undo, used, at)
    }
}
