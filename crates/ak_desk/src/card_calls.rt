ghost use Rattle.std.specs.Prelude.{◌≡◌, pos, IfErr};
ghost use Rattle.ak_base.specs.Heads.{IsWithin};
ghost use Rattle.ak_base.specs.declared.names.Table.TheVariants as tables;
ghost use Rattle.ak_edit_calls.specs.CardEdits.{RefusesCardEdit, card_edit};
ghost use Rattle.ak_edit_calls.specs.Calls.{IsMissingOrEnd};
ghost use Rattle.ak_decks.specs.Flags.{RefusesFlag, flagging};
ghost use Rattle.ak_decks.specs.Moves.{IsMoveFault, RefusesMove, moving};
ghost use Rattle.ak_desk.specs.Desks.{EditsAt, IsIdle};
ghost use Rattle.ak_edit.specs.Refusals.{DeskCause};
ghost use Rattle.ak_study.specs.CardPlaces.{buried_by_hand, suspended, unsuspended};

use crate::desks::Desk;
use ak_decks::{FlagCards, MoveCards, flag, move_cards};
use ak_edit::DeskFault;
use ak_keep::Keeper;
use ak_study::{bury, suspend, unsuspend};

impl<'a, K: Keeper> Desk<'a, K> {
    /// Moves cards to a deck, at a moment in milliseconds. It is refused as `ak_decks::move_cards` is.
    pub fn move_cards(&mut self, moved: &MoveCards, at: i64) -> Result<(), DeskFault>
        requires idle { IsIdle (K.keeping self.old.keeper.now) }
        ensures edits { EditsAt K.Lookup self.old self.new result at
            (moving moved.now.deck moved.now.cards.now) (RefusesMove at moved.now.deck moved.now.cards.now) }
        ensures listed { IfErr result IsMoveFault }
        ensures cause { DeskCause (K.health self.old.keeper.now) (K.health self.new.keeper.now) result }
        ensures lent { (self.new.keeper.ghost_name ≡ self.old.keeper.ghost_name)
            × (self.new.undo.ghost_name ≡ self.old.undo.ghost_name) }
    {
        move_cards(self.keeper, self.undo, moved, at)
    }

    /// Gives a flag to cards, at a moment in milliseconds. It is refused as `ak_decks::flag` is.
    pub fn flag(&mut self, flagged: &FlagCards, at: i64) -> Result<(), DeskFault>
        requires idle { IsIdle (K.keeping self.old.keeper.now) }
        requires value { IsWithin (pos 0) (pos 7) flagged.now.value }
        ensures edits { EditsAt K.Lookup self.old self.new result at
            (flagging flagged.now.value flagged.now.cards.now)
            (RefusesFlag at flagged.now.value flagged.now.cards.now) }
        ensures listed { IfErr result (IsMissingOrEnd tables.Card) }
        ensures cause { DeskCause (K.health self.old.keeper.now) (K.health self.new.keeper.now) result }
        ensures lent { (self.new.keeper.ghost_name ≡ self.old.keeper.ghost_name)
            × (self.new.undo.ghost_name ≡ self.old.undo.ghost_name) }
    {
        flag(self.keeper, self.undo, flagged, at)
    }

    /// Suspends cards, at a moment in milliseconds. It is refused as `ak_study::suspend` is.
    pub fn suspend(&mut self, cards: &[i64], at: i64) -> Result<(), DeskFault>
        requires idle { IsIdle (K.keeping self.old.keeper.now) }
        ensures edits { EditsAt K.Lookup self.old self.new result at
            (card_edit suspended cards.now) (RefusesCardEdit at suspended cards.now) }
        ensures listed { IfErr result (IsMissingOrEnd tables.Card) }
        ensures cause { DeskCause (K.health self.old.keeper.now) (K.health self.new.keeper.now) result }
        ensures lent { (self.new.keeper.ghost_name ≡ self.old.keeper.ghost_name)
            × (self.new.undo.ghost_name ≡ self.old.undo.ghost_name) }
    {
        suspend(self.keeper, self.undo, cards, at)
    }

    /// Brings suspended cards back, at a moment in milliseconds. It is refused as `ak_study::unsuspend` is.
    pub fn unsuspend(&mut self, cards: &[i64], at: i64) -> Result<(), DeskFault>
        requires idle { IsIdle (K.keeping self.old.keeper.now) }
        ensures edits { EditsAt K.Lookup self.old self.new result at
            (card_edit unsuspended cards.now) (RefusesCardEdit at unsuspended cards.now) }
        ensures listed { IfErr result (IsMissingOrEnd tables.Card) }
        ensures cause { DeskCause (K.health self.old.keeper.now) (K.health self.new.keeper.now) result }
        ensures lent { (self.new.keeper.ghost_name ≡ self.old.keeper.ghost_name)
            × (self.new.undo.ghost_name ≡ self.old.undo.ghost_name) }
    {
        unsuspend(self.keeper, self.undo, cards, at)
    }

    /// Buries cards until the next day's start, at a moment in milliseconds. It is refused as `ak_study::bury` is.
    pub fn bury(&mut self, cards: &[i64], at: i64) -> Result<(), DeskFault>
        requires idle { IsIdle (K.keeping self.old.keeper.now) }
        ensures edits { EditsAt K.Lookup self.old self.new result at
            (card_edit buried_by_hand cards.now) (RefusesCardEdit at buried_by_hand cards.now) }
        ensures listed { IfErr result (IsMissingOrEnd tables.Card) }
        ensures cause { DeskCause (K.health self.old.keeper.now) (K.health self.new.keeper.now) result }
        ensures lent { (self.new.keeper.ghost_name ≡ self.old.keeper.ghost_name)
            × (self.new.undo.ghost_name ≡ self.old.undo.ghost_name) }
    {
        bury(self.keeper, self.undo, cards, at)
    }
}
