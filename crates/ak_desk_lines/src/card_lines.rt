ghost use Rattle.std.specs.Prelude.{◌≡◌, pos};
ghost use Rattle.ak_base.specs.Heads.{IsWithin};
ghost use Rattle.ak_desk.specs.Desks.{IsIdle};
ghost use Rattle.ak_desk_language.specs.declared.desk_lines.DeskLine.TheVariants as lines;
ghost use Rattle.ak_desk_lines.specs.LineEnds.{EndsAt};
ghost use Rattle.ak_edit.specs.Refusals.{DeskCause};

use crate::answers::finished;
use crate::turns::Turn;
use ak_base::List;
use ak_decks::FlagCards;
use ak_desk::Desk;
use ak_desk_texts::DeskAnswer;
use ak_edit::DeskFault;
use ak_keep::Keeper;

/// `suspend`: takes cards out of the queues.
pub(crate) fn suspend<K: Keeper>(
    desk: &mut Desk<K>,
    cards: &List<i64>,
    turn: Turn,
) -> Result<DeskAnswer, DeskFault>
    requires idle { IsIdle (K.keeping desk.old.keeper.now) }
    ensures ends { EndsAt K.Lookup (lines.Suspend cards.now) turn desk.old desk.new result }
    ensures cause { DeskCause (K.health desk.old.keeper.now) (K.health desk.new.keeper.now) result }
    ensures lent { (desk.new.keeper.ghost_name ≡ desk.old.keeper.ghost_name)
        × (desk.new.undo.ghost_name ≡ desk.old.undo.ghost_name) }
{
    finished(desk.suspend(cards.as_slice(), turn.at))
}

/// `unsuspend`: brings suspended cards back.
pub(crate) fn unsuspend<K: Keeper>(
    desk: &mut Desk<K>,
    cards: &List<i64>,
    turn: Turn,
) -> Result<DeskAnswer, DeskFault>
    requires idle { IsIdle (K.keeping desk.old.keeper.now) }
    ensures ends { EndsAt K.Lookup (lines.Unsuspend cards.now) turn desk.old desk.new result }
    ensures cause { DeskCause (K.health desk.old.keeper.now) (K.health desk.new.keeper.now) result }
    ensures lent { (desk.new.keeper.ghost_name ≡ desk.old.keeper.ghost_name)
        × (desk.new.undo.ghost_name ≡ desk.old.undo.ghost_name) }
{
    finished(desk.unsuspend(cards.as_slice(), turn.at))
}

/// `bury`: takes cards out of the queues until the next day starts.
pub(crate) fn bury<K: Keeper>(
    desk: &mut Desk<K>,
    cards: &List<i64>,
    turn: Turn,
) -> Result<DeskAnswer, DeskFault>
    requires idle { IsIdle (K.keeping desk.old.keeper.now) }
    ensures ends { EndsAt K.Lookup (lines.Bury cards.now) turn desk.old desk.new result }
    ensures cause { DeskCause (K.health desk.old.keeper.now) (K.health desk.new.keeper.now) result }
    ensures lent { (desk.new.keeper.ghost_name ≡ desk.old.keeper.ghost_name)
        × (desk.new.undo.ghost_name ≡ desk.old.undo.ghost_name) }
{
    finished(desk.bury(cards.as_slice(), turn.at))
}

/// `flag`: gives a flag from 0 to 7 to cards.
pub(crate) fn flag<K: Keeper>(
    desk: &mut Desk<K>,
    value: i64,
    cards: &List<i64>,
    turn: Turn,
) -> Result<DeskAnswer, DeskFault>
    requires idle { IsIdle (K.keeping desk.old.keeper.now) }
    requires value { IsWithin (pos 0) (pos 7) value }
    ensures ends { EndsAt K.Lookup (lines.Flag value cards.now) turn desk.old desk.new result }
    ensures cause { DeskCause (K.health desk.old.keeper.now) (K.health desk.new.keeper.now) result }
    ensures lent { (desk.new.keeper.ghost_name ≡ desk.old.keeper.ghost_name)
        × (desk.new.undo.ghost_name ≡ desk.old.undo.ghost_name) }
{
    let flagged = FlagCards {
        cards: cards.as_slice(),
        value,
    };
    finished(desk.flag(&flagged, turn.at))
}
