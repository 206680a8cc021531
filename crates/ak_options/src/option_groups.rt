ghost use Rattle.std.specs.Prelude.{◌≡◌, true, false, IfErr, IfOk, OnOk};
ghost use Rattle.ak_base.specs.OptionGroups.{IsCheckedOptions};
ghost use Rattle.ak_edit.specs.Refusals.{AnswersBy, DeskCause};
ghost use Rattle.ak_edit_calls.specs.Additions.{AddsBy};
ghost use Rattle.ak_edit_calls.specs.Calls.{EditsBy};
ghost use Rattle.ak_keep.specs.Collections.{IsId};
ghost use Rattle.ak_keep.specs.Keepers.{is_marked};
ghost use Rattle.ak_options.specs.OptionGroups.{IsAdditionFault, IsChangeFault, RefusesChange, RefusesGiven, as_given, given_group, new_group, options_change, with_id};

use ak_base::{Name, Options, Row, Table};
use ak_edit::DeskFault;
use ak_edit_calls::{add_row, edit_row, held_row, new_name};
use ak_keep::Keeper;
use ak_undo::UndoList;

/// Puts a group of options in place of the one of its id, at a moment in milliseconds. Its stamp and its usn
/// are replaced. A group that is held with the same fields is left alone. It is refused if no group of this id is held, then if
/// the given one is out of its ranges, and then for a stamp or a moment that can't rise.
pub fn set_options<K: Keeper>(
    keeper: &mut K,
    steps: &mut UndoList,
    options: Options,
    at: i64,
) -> Result<(), DeskFault>
    requires unmarked { is_marked (K.keeping keeper.old) ≡ false }
    requires held { (K.keeping keeper.old).headed.current ≡ true }
    ensures edits { EditsBy K.Lookup keeper.old keeper.new steps.old steps.new result at
        (options_change options) (RefusesChange at options) }
    ensures listed { IfErr result (IsChangeFault options.id) }
    ensures cause { DeskCause (K.health keeper.old) (K.health keeper.new) result }
{
    let name = Name {
        table: Table::Options,
        id: options.id,
    };
    let held = held_row(keeper, name)?;
    drop(held);
    let group = as_given(options);
    check_given(&group)?;
    edit_row(keeper, steps, Row::Options(group), at)
}

/// Adds a group of options, at a moment in milliseconds, and gives its id: the least free one from the moment on. The given id,
/// stamp and usn are replaced. It is refused if the given group is out of its ranges, then if no id is
/// free, and then for a stamp or a moment that can't rise.
pub fn add_options<K: Keeper>(
    keeper: &mut K,
    steps: &mut UndoList,
    options: Options,
    at: i64,
) -> Result<i64, DeskFault>
    requires unmarked { is_marked (K.keeping keeper.old) ≡ false }
    requires held { (K.keeping keeper.old).headed.current ≡ true }
    ensures adds { AddsBy K.Lookup keeper.old keeper.new steps.old steps.new result (given_group at options) }
    ensures range { IfOk result IsId }
    ensures listed { IfErr result IsAdditionFault }
    ensures cause { DeskCause (K.health keeper.old) (K.health keeper.new) result }
{
    // The given id is not looked at: any one in range stands in for it.
    let given = with_id(as_given(options), 1);
    check_given(&given)?;
    add_group(keeper, steps, given, at)
}

/// Adds a group that is in its ranges, and gives its id.
fn add_group<K: Keeper>(
    keeper: &mut K,
    steps: &mut UndoList,
    group: Options,
    at: i64,
) -> Result<i64, DeskFault>
    requires unmarked { is_marked (K.keeping keeper.old) ≡ false }
    requires held { (K.keeping keeper.old).headed.current ≡ true }
    requires checked { IsCheckedOptions (as_given group) }
    ensures adds { AddsBy K.Lookup keeper.old keeper.new steps.old steps.new result (new_group at group) }
    ensures range { IfOk result IsId }
    ensures listed { IfErr result IsAdditionFault }
    ensures cause { DeskCause (K.health keeper.old) (K.health keeper.new) result }
{
    let name = new_name(keeper, Table::Options, at)?;
    add_row(keeper, steps, Row::Options(with_id(group, name.id)), at)
}

/// The group as a call takes it: its stamp and its usn are not looked at.
fn as_given(options: Options) -> Options
    ensures { result ≡ as_given options }
{
    let mut given = options;
    given.stamp = 0;
    given.usn = -1;
    given
}

/// The group with this id.
fn with_id(options: Options, id: i64) -> Options
    ensures { result ≡ with_id id options }
{
    let mut made = options;
    made.id = id;
    made
}

/// Refuses a group that was given and is out of its ranges.
fn check_given(group: &Options) -> Result<(), DeskFault>
    ensures ok { OnOk result (IsCheckedOptions group.now) }
    ensures answers { AnswersBy (RefusesGiven group.now) result }
    ensures refused { IfErr result (RefusesGiven group.now) }
{
    match group.check() {
        Ok(()) => Ok(()),
        Err(fault) => Err(DeskFault::Row(fault)),
    }
}
