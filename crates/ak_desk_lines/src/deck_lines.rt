ghost use Rattle.std.specs.Prelude.{◌≡◌};
ghost use Rattle.ak_desk.specs.Desks.{IsIdle};
ghost use Rattle.ak_desk_language.specs.declared.desk_lines.DeskLine.TheVariants as lines;
ghost use Rattle.ak_desk_lines.specs.Accepted.{answer_with};
ghost use Rattle.ak_desk_lines.specs.LineEnds.{EndsAt};
ghost use Rattle.ak_desk_texts.specs.declared.answers.DeskAnswer.TheVariants as answers;
ghost use Rattle.ak_edit.specs.Refusals.{DeskCause};

use crate::answers::finished;
use crate::turns::Turn;
use ak_base::{List, Text};
use ak_deck_paths::RenameDeck;
use ak_decks::{MoveCards, UseOptions};
use ak_desk::Desk;
use ak_desk_texts::DeskAnswer;
use ak_edit::DeskFault;
use ak_keep::Keeper;

/// `deck`: adds a deck.
pub(crate) fn add_deck<K: Keeper>(
    desk: &mut Desk<K>,
    name: &Text,
    turn: Turn,
) -> Result<DeskAnswer, DeskFault>
    requires idle { IsIdle (K.keeping desk.old.keeper.now) }
    ensures ends { EndsAt K.Lookup (lines.AddDeck name.now) turn desk.old desk.new result }
    ensures cause { DeskCause (K.health desk.old.keeper.now) (K.health desk.new.keeper.now) result }
    ensures lent { (desk.new.keeper.ghost_name ≡ desk.old.keeper.ghost_name)
        × (desk.new.undo.ghost_name ≡ desk.old.undo.ghost_name) }
{
    added_deck(desk.add_deck(name.as_str(), turn.at))
}

/// The answer for a deck that was added: its id.
fn added_deck(made: Result<i64, DeskFault>) -> Result<DeskAnswer, DeskFault>
    ensures { result ≡ answer_with answers.AddedDeck made }
{
    Ok(DeskAnswer::AddedDeck(made?))
}

/// `drop`: deletes a deck with its subtree.
pub(crate) fn delete_deck<K: Keeper>(
    desk: &mut Desk<K>,
    deck: i64,
    turn: Turn,
) -> Result<DeskAnswer, DeskFault>
    requires idle { IsIdle (K.keeping desk.old.keeper.now) }
    ensures ends { EndsAt K.Lookup (lines.DeleteDeck deck) turn desk.old desk.new result }
    ensures cause { DeskCause (K.health desk.old.keeper.now) (K.health desk.new.keeper.now) result }
    ensures lent { (desk.new.keeper.ghost_name ≡ desk.old.keeper.ghost_name)
        × (desk.new.undo.ghost_name ≡ desk.old.undo.ghost_name) }
{
    finished(desk.delete_deck(deck, turn.at))
}

/// `rename`: gives a deck another name; its subtree moves with it.
pub(crate) fn rename_deck<K: Keeper>(
    desk: &mut Desk<K>,
    deck: i64,
    name: &Text,
    turn: Turn,
) -> Result<DeskAnswer, DeskFault>
    requires idle { IsIdle (K.keeping desk.old.keeper.now) }
    ensures ends { EndsAt K.Lookup (lines.RenameDeck deck name.now) turn desk.old desk.new result }
    ensures cause { DeskCause (K.health desk.old.keeper.now) (K.health desk.new.keeper.now) result }
    ensures lent { (desk.new.keeper.ghost_name ≡ desk.old.keeper.ghost_name)
        × (desk.new.undo.ghost_name ≡ desk.old.undo.ghost_name) }
{
    let rename = RenameDeck {
        deck,
        path: name.as_str(),
    };
    finished(desk.rename_deck(&rename, turn.at))
}

/// `move`: moves cards to a deck.
pub(crate) fn move_cards<K: Keeper>(
    desk: &mut Desk<K>,
    deck: i64,
    cards: &List<i64>,
    turn: Turn,
) -> Result<DeskAnswer, DeskFault>
    requires idle { IsIdle (K.keeping desk.old.keeper.now) }
    ensures ends { EndsAt K.Lookup (lines.MoveCards deck cards.now) turn desk.old desk.new result }
    ensures cause { DeskCause (K.health desk.old.keeper.now) (K.health desk.new.keeper.now) result }
    ensures lent { (desk.new.keeper.ghost_name ≡ desk.old.keeper.ghost_name)
        × (desk.new.undo.ghost_name ≡ desk.old.undo.ghost_name) }
{
    let moved = MoveCards {
        deck,
        cards: cards.as_slice(),
    };
    finished(desk.move_cards(&moved, turn.at))
}

/// `adopt`: gives a deck other options.
pub(crate) fn use_options<K: Keeper>(
    desk: &mut Desk<K>,
    deck: i64,
    options: i64,
    turn: Turn,
) -> Result<DeskAnswer, DeskFault>
    requires idle { IsIdle (K.keeping desk.old.keeper.now) }
    ensures ends { EndsAt K.Lookup (lines.UseOptions deck options) turn desk.old desk.new result }
    ensures cause { DeskCause (K.health desk.old.keeper.now) (K.health desk.new.keeper.now) result }
    ensures lent { (desk.new.keeper.ghost_name ≡ desk.old.keeper.ghost_name)
        × (desk.new.undo.ghost_name ≡ desk.old.undo.ghost_name) }
{
    let used = UseOptions { deck, options };
    finished(desk.use_options(&used, turn.at))
}
