ghost use Rattle.std.specs.Prelude.{◌≡◌, true, false, pos, Some, None, IfErr, IfOk, OnErr, OnOk};
ghost use Rattle.ak_base.specs.Days.{IsDay};
ghost use Rattle.ak_base.specs.Heads.{IsConfInRange};
ghost use Rattle.ak_base.specs.declared.rows.Row.TheVariants as rows;
ghost use Rattle.ak_edit.specs.Refusals.{AnswersBy, DeskCause, IsEndFault};
ghost use Rattle.ak_keep.specs.Keepers.{WhereHeld, is_marked};
ghost use Rattle.ak_keep.specs.Readings.{ReadsBy};
ghost use Rattle.ak_study.specs.DayStarts.{HasBegun, IsInDay, RefusesStart, StartsDay, all_back, back_again, begun_on, card_begun};

use crate::card_places::{lies_buried, restored};
use crate::row_changes::{RowChange, change_rows};
use ak_base::{Card, Conf, Day, Memory, Row, Table};
use ak_edit::{Change, DeskFault};
use ak_keep::{KeepFault, Keeper};
use ak_undo::UndoList;

/// Starts the day of a moment in milliseconds: all buried cards come back, if they did not do so today. The first call of a day
/// reads all cards, a later one none, and it leaves all as it was. It is refused for a stamp or a moment that can't rise.
pub fn start_day<K: Keeper>(keeper: &mut K, steps: &mut UndoList, at: i64) -> Result<(), DeskFault>
    requires unmarked { is_marked (K.keeping keeper.old) ≡ false }
    requires held { (K.keeping keeper.old).headed.current ≡ true }
    requires moment { IsInDay at }
    ensures ok { OnOk result (StartsDay at (K.keeping keeper.old) (K.keeping keeper.new) steps.old steps.new) }
    ensures err { OnErr result (K.keeping keeper.new ≡ K.keeping keeper.old) }
    ensures kept { OnErr result (steps.new ≡ steps.old) }
    ensures stays { (K.keeping keeper.new).headed ≡ (K.keeping keeper.old).headed }
    ensures refused { WhereHeld (K.keeping keeper.old) (λ c. AnswersBy (RefusesStart at c) result) }
    ensures listed { IfErr result IsEndFault }
    ensures cause { DeskCause (K.health keeper.old) (K.health keeper.new) result }
{
    let mut change = Change::new(steps.allocator());
    begin_day(keeper, &mut change, at)?;
    change.finish(keeper, steps, at)
}

/// The day that an edit has begun.
#[derive(Clone, Copy, Debug)]
pub(crate) struct Begun {
    pub(crate) day: Day,
    /// Whether the edit starts the day: buried cards came back last before it.
    pub(crate) starts: bool,
}

impl Begun {
    /// The card as it is once the day has begun.
    pub(crate) fn card(self, card: Card) -> Card
        ensures { result ≡ card_begun self card }
    {
        if self.starts && lies_buried(&card) {
            return restored(card);
        }
        card
    }
}

/// Begins the day of a moment in an edit.
pub(crate) fn begin_day<K: Keeper>(
    keeper: &mut K,
    change: &mut Change,
    at: i64,
) -> Result<Begun, KeepFault>
    requires held { (K.keeping keeper.old).headed.current ≡ true }
    requires moment { IsInDay at }
    ensures reads { ReadsBy K.Lookup keeper.old keeper.new result (λ h begun. HasBegun at h begun change.old change.new) }
    ensures day { IfOk result (λ begun. IsDay begun.day) }
{
    // For the proof alone: it says that what the keeper gives is in range.
    let _checks = keeper.marked();
    let Some(head) = keeper.head()? else {
        unreachable!();
    };
    let day = Day::of(head.crt, at);
    if head.conf.last_unburied >= day.number {
        return Ok(Begun { day, starts: false });
    }
    bring_back(keeper, change)?;
    change.set_conf(begun_on(head.conf, day));
    Ok(Begun { day, starts: true })
}

/// Brings all buried cards back.
fn bring_back<K: Keeper>(keeper: &mut K, change: &mut Change) -> Result<(), KeepFault>
    ensures reads { ReadsBy K.Lookup keeper.old keeper.new result (λ h _. change.new ≡ all_back h.rows change.old) }
{
    change_rows(keeper, change, Table::Card, &BringBack)
}

/// The change that brings a buried card back.
#[derive(Drop)]
struct BringBack;

impl RowChange for BringBack {
    ghost use Rattle.ak_study.specs.DayStarts.{back_again};

    ghost change = { λ _. back_again };

    fn apply(&self, row: &Row) -> Result<Option<Row>, Memory> {
        match row {
            Row::Card(card) => back_again(card),
            _ => Ok(None),
        }
    }
}

/// The card that comes back, if it is buried.
fn back_again(card: &Card) -> Result<Option<Row>, Memory>
    ensures { IfOk result (λ made. made ≡ back_again (rows.Card card.now)) }
{
    if lies_buried(card) {
        let copy = card.copy()?;
        return Ok(Some(Row::Card(restored(copy))));
    }
    Ok(None)
}

/// The settings of a collection whose buried cards came back on this day.
fn begun_on(conf: Conf, day: Day) -> Conf
    requires range { IsConfInRange conf }
    requires day { IsDay day }
    ensures conf { result ≡ begun_on day conf }
    ensures range { IsConfInRange result }
{
    let mut made = conf;
    made.last_unburied = day.number;
    made
}
