// Cards that go home, to the decks that they came from.
ghost use Rattle.std.specs.Prelude.{◌≡◌, ◌||◌, true, false, IfErr, OnErr};
ghost use Rattle.std.specs.FinMap.{get};
ghost use Rattle.std.specs.Option.{option_map_or};
ghost use Rattle.ak_edit.specs.Refusals.{DeskCause, IsEndFault};
ghost use Rattle.ak_edit_calls.specs.CardEdits.{changed_row, put_each};
ghost use Rattle.ak_filtered.specs.HomeDecks.{flags_of, gone_home, is_away, is_away_at, is_some_away};
ghost use Rattle.ak_filtered.specs.HomeGoings.{EndsSending, IsSent, went_home};
ghost use Rattle.ak_keep.specs.Keepers.{WhereHeld, is_marked};
ghost use Rattle.ak_keep.specs.Lookups.{as_card};
ghost use Rattle.ak_keep.specs.Readings.{ReadsBy};

use crate::cleared_edits::finish_cleared;
use crate::held_decks::{HeldDecks, is_away};
use ak_base::{Name, Row, Table};
use ak_edit::{Change, DeskFault};
use ak_keep::{KeepFault, Keeper, Lookup};
use ak_undo::UndoList;

/// Sends those of the cards home that are held and away, by their ids, in any order and also more than once, at a moment in
/// milliseconds. It tells whether any was: if so, this was one commit, and it clears the undo list; if not, all is as it was. It is
/// refused for a stamp or a moment that can't rise, and leaves all as it was then. It reads all decks and these cards.
pub fn send_home<K: Keeper>(
    keeper: &mut K,
    steps: &mut UndoList,
    cards: &[i64],
    at: i64,
) -> Result<bool, DeskFault>
    requires unmarked { is_marked (K.keeping keeper.old) ≡ false }
    requires held { (K.keeping keeper.old).headed.current ≡ true }
    ensures ends { WhereHeld (K.keeping keeper.old) (λ c.
        EndsSending at cards.now c (K.keeping keeper.old) (K.keeping keeper.new) steps.old steps.new result) }
    ensures err { OnErr result (K.keeping keeper.new ≡ K.keeping keeper.old) }
    ensures kept { OnErr result (steps.new ≡ steps.old) }
    ensures stays { (K.keeping keeper.new).headed ≡ (K.keeping keeper.old).headed }
    ensures listed { IfErr result IsEndFault }
    ensures cause { DeskCause (K.health keeper.old) (K.health keeper.new) result }
{
    let sending = read_sending(keeper, steps, cards)?;
    let Sending { change, went } = sending;
    if !went {
        return Ok(false);
    }
    finish_cleared(change, keeper, steps, at)?;
    Ok(true)
}

/// An edit that sends cards home, and whether any was away.
#[derive(Drop)]
pub(crate) struct Sending {
    pub(crate) change: Change,
    pub(crate) went: bool,
}

/// The edit that sends the cards home.
fn read_sending<K: Keeper>(
    keeper: &mut K,
    steps: &UndoList,
    cards: &[i64],
) -> Result<Sending, KeepFault>
    ensures reads { ReadsBy K.Lookup keeper.old keeper.new result (λ h sending. IsSent cards.now h.rows sending) }
{
    let alloc = steps.allocator();
    let decks = HeldDecks::read(alloc, keeper)?;
    let mut change = Change::new(alloc);
    let went = put_home_each(keeper, &mut change, cards, &decks)?;
    Ok(Sending { change, went })
}

/// Puts each of the cards that is held as it is at home, and tells whether one of them was away.
fn put_home_each<R: Lookup>(
    from: &mut R,
    change: &mut Change,
    cards: &[i64],
    decks: &HeldDecks,
) -> Result<bool, KeepFault>
    ensures reads { ReadsBy R.Lookup from.old from.new result (λ h went. (went ≡ is_some_away h.rows cards.now)
        × (change.new ≡ put_each (gone_home (flags_of decks.now)) (get h.rows) cards.now change.old)) }
{
    let mut went = false;
    let mut rest = cards;
    while let Some((id, others)) = rest.split_first() {
        let one = put_home(from, change, id, decks)?;
        went = either(went, one);
        rest = others;
    }
    Ok(went)
}

/// Whether one of the two is so.
fn either(one: bool, other: bool) -> bool
    ensures { result ≡ (one || other) }
{
    one || other
}

/// Puts the card of this id as it is at home, if it is held, and tells whether it was away. The id comes behind a reference since
/// the proof of a loop reads it so as it is.
fn put_home<R: Lookup>(
    from: &mut R,
    change: &mut Change,
    id: &i64,
    decks: &HeldDecks,
) -> Result<bool, KeepFault>
    ensures reads { ReadsBy R.Lookup from.old from.new result (λ h went. (went ≡ is_away_at h.rows id.now)
        × (change.new ≡ went_home (flags_of decks.now) h.rows id.now change.old)) }
{
    let name = Name {
        table: Table::Card,
        id: *id,
    };
    match from.get(name)? {
        Some(row) => {
            let away = is_away_row(&row);
            change.put(home_row(row, decks))?;
            Ok(away)
        }
        None => Ok(false),
    }
}

/// Whether the row is a card that is away.
fn is_away_row(row: &Row) -> bool
    ensures { result ≡ option_map_or is_away (as_card row.now) false }
{
    match row {
        Row::Card(card) => is_away(card),
        _ => false,
    }
}

/// The row, at home if it is a card.
fn home_row(row: Row, decks: &HeldDecks) -> Row
    ensures { result ≡ changed_row (gone_home (flags_of decks.now)) row }
{
    match row {
        Row::Card(card) => Row::Card(decks.gone_home(card)),
        other => other,
    }
}
