ghost use Rattle.std.specs.Prelude.{◌≡◌, IfErr, IfOk, OnErr, OnOk};
ghost use Rattle.ak_desk.specs.Desks.{IsIdle};
ghost use Rattle.ak_edit.specs.Refusals.{AnswersBy, DeskCause, IsEndFault};
ghost use Rattle.ak_keep.specs.Keepers.{WhereHeld};
ghost use Rattle.ak_study.specs.Answers.{Answers, IsAnswerFault, IsButton, RefusesAnswer};
ghost use Rattle.ak_study.specs.DayStarts.{IsInDay, RefusesStart, StartsDay};

use crate::desks::Desk;
use ak_base::Card;
use ak_edit::DeskFault;
use ak_keep::Keeper;
use ak_study::{CardAnswer, answer, start_day};

impl<'a, K: Keeper> Desk<'a, K> {
    /// Starts the day of a moment in milliseconds: buried cards come back, if they did not today. It is refused as
    /// `ak_study::start_day` is.
    pub fn start_day(&mut self, at: i64) -> Result<(), DeskFault>
        requires idle { IsIdle (K.keeping self.old.keeper.now) }
        requires moment { IsInDay at }
        ensures ok { OnOk result (StartsDay at (K.keeping self.old.keeper.now) (K.keeping self.new.keeper.now)
            self.old.undo.now self.new.undo.now) }
        ensures err { OnErr result (K.keeping self.new.keeper.now ≡ K.keeping self.old.keeper.now) }
        ensures kept { OnErr result (self.new.undo.now ≡ self.old.undo.now) }
        ensures stays { (K.keeping self.new.keeper.now).headed ≡ (K.keeping self.old.keeper.now).headed }
        ensures refused { WhereHeld (K.keeping self.old.keeper.now)
            (λ c. AnswersBy (RefusesStart at c) result) }
        ensures listed { IfErr result IsEndFault }
        ensures cause { DeskCause (K.health self.old.keeper.now) (K.health self.new.keeper.now) result }
        ensures lent { (self.new.keeper.ghost_name ≡ self.old.keeper.ghost_name)
            × (self.new.undo.ghost_name ≡ self.old.undo.ghost_name) }
    {
        start_day(self.keeper, self.undo, at)
    }

    /// Answers a card, at a moment in milliseconds, and gives the card as the scheduler makes it. It is refused as
    /// `ak_study::answer` is.
    pub fn answer(&mut self, given: &CardAnswer, at: i64) -> Result<Card, DeskFault>
        requires idle { IsIdle (K.keeping self.old.keeper.now) }
        requires moment { IsInDay at }
        requires button { IsButton given.now.button }
        ensures ok { IfOk result (Answers at given.now (K.keeping self.old.keeper.now) (K.keeping self.new.keeper.now)
            self.old.undo.now self.new.undo.now) }
        ensures err { OnErr result (K.keeping self.new.keeper.now ≡ K.keeping self.old.keeper.now) }
        ensures kept { OnErr result (self.new.undo.now ≡ self.old.undo.now) }
        ensures stays { (K.keeping self.new.keeper.now).headed ≡ (K.keeping self.old.keeper.now).headed }
        ensures refused { WhereHeld (K.keeping self.old.keeper.now)
            (λ c. AnswersBy (RefusesAnswer at given.now c) result) }
        ensures listed { IfErr result (IsAnswerFault given.now.card) }
        ensures cause { DeskCause (K.health self.old.keeper.now) (K.health self.new.keeper.now) result }
        ensures lent { (self.new.keeper.ghost_name ≡ self.old.keeper.ghost_name)
            × (self.new.undo.ghost_name ≡ self.old.undo.ghost_name) }
    {
        answer(self.keeper, self.undo, given, at)
    }
}
