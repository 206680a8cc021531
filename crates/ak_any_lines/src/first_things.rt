// What comes before a line, where cards are away from home.
ghost use Rattle.std.specs.Prelude.{◌≡◌};
ghost use Rattle.std.specs.Option.{option_map};
ghost use Rattle.ak_any_lines.specs.FirstThings.{EmptiesFirst, GoesFirst, SendsFirst, SendsIfMoved, dropped_deck, moved_cards};
ghost use Rattle.ak_any_lines.specs.LineResults.{without_value};
ghost use Rattle.ak_desk.specs.Desks.{IsIdle};
ghost use Rattle.ak_desk_lines.specs.DeskStates.{state_of};
ghost use Rattle.ak_edit.specs.Refusals.{DeskCause};

use ak_desk::Desk;
use ak_desk_language::DeskLine;
use ak_desk_lines::Turn;
use ak_edit::DeskFault;
use ak_filtered::{empty_subtree, send_home};
use ak_keep::Keeper;

/// Does what comes before a line: `drop` first empties each filtered deck of the subtree, and `move` first sends its cards home.
/// What it did stays, whatever comes of the line.
pub(crate) fn go_first<K: Keeper>(
    desk: &mut Desk<K>,
    line: &DeskLine,
    turn: Turn,
) -> Result<(), DeskFault>
    requires idle { IsIdle (K.keeping desk.old.keeper.now) }
    ensures first { GoesFirst line.now turn.at (state_of K.Lookup desk.old) (state_of K.Lookup desk.new) result }
    ensures stays { (K.keeping desk.new.keeper.now).headed ≡ (K.keeping desk.old.keeper.now).headed }
    ensures cause { DeskCause (K.health desk.old.keeper.now) (K.health desk.new.keeper.now) result }
    ensures lent { (desk.new.keeper.ghost_name ≡ desk.old.keeper.ghost_name)
        × (desk.new.undo.ghost_name ≡ desk.old.undo.ghost_name) }
{
    match dropped_deck(line) {
        Some(deck) => empty_first(desk, deck, turn.at),
        None => send_if_moved(desk, line, turn.at),
    }
}

/// The deck that a line drops, if it does.
fn dropped_deck(line: &DeskLine) -> Option<i64>
    ensures { result ≡ dropped_deck line.now }
{
    match line {
        DeskLine::DeleteDeck(deck) => Some(*deck),
        _ => None,
    }
}

/// The cards that a line moves, if it does.
fn moved_cards(line: &DeskLine) -> Option<&[i64]>
    ensures { option_map (λ cards. cards.now) result ≡ moved_cards line.now }
{
    match line {
        DeskLine::MoveCards { cards, .. } => Some(cards.as_slice()),
        _ => None,
    }
}

/// Sends the cards home that a line moves, if it does.
fn send_if_moved<K: Keeper>(desk: &mut Desk<K>, line: &DeskLine, at: i64) -> Result<(), DeskFault>
    requires idle { IsIdle (K.keeping desk.old.keeper.now) }
    ensures sends { SendsIfMoved line.now at (state_of K.Lookup desk.old) (state_of K.Lookup desk.new) result }
    ensures stays { (K.keeping desk.new.keeper.now).headed ≡ (K.keeping desk.old.keeper.now).headed }
    ensures cause { DeskCause (K.health desk.old.keeper.now) (K.health desk.new.keeper.now) result }
    ensures lent { (desk.new.keeper.ghost_name ≡ desk.old.keeper.ghost_name)
        × (desk.new.undo.ghost_name ≡ desk.old.undo.ghost_name) }
{
    match moved_cards(line) {
        Some(cards) => send_first(desk, cards, at),
        None => Ok(()),
    }
}

/// Empties each filtered deck in the subtree of a deck.
fn empty_first<K: Keeper>(desk: &mut Desk<K>, deck: i64, at: i64) -> Result<(), DeskFault>
    requires idle { IsIdle (K.keeping desk.old.keeper.now) }
    ensures empties { EmptiesFirst at deck (state_of K.Lookup desk.old) (state_of K.Lookup desk.new) result }
    ensures cause { DeskCause (K.health desk.old.keeper.now) (K.health desk.new.keeper.now) result }
    ensures lent { (desk.new.keeper.ghost_name ≡ desk.old.keeper.ghost_name)
        × (desk.new.undo.ghost_name ≡ desk.old.undo.ghost_name) }
{
    empty_subtree(desk.keeper, desk.undo, deck, at)
}

/// Sends those of these cards home that are held and away.
fn send_first<K: Keeper>(desk: &mut Desk<K>, cards: &[i64], at: i64) -> Result<(), DeskFault>
    requires idle { IsIdle (K.keeping desk.old.keeper.now) }
    ensures sends { SendsFirst at cards.now (state_of K.Lookup desk.old) (state_of K.Lookup desk.new) result }
    ensures cause { DeskCause (K.health desk.old.keeper.now) (K.health desk.new.keeper.now) result }
    ensures lent { (desk.new.keeper.ghost_name ≡ desk.old.keeper.ghost_name)
        × (desk.new.undo.ghost_name ≡ desk.old.undo.ghost_name) }
{
    sent(send_home(desk.keeper, desk.undo, cards, at))
}

/// Whether any card went makes no difference.
fn sent(made: Result<bool, DeskFault>) -> Result<(), DeskFault>
    ensures { result ≡ without_value made }
{
    made?;
    Ok(())
}
