ghost use Rattle.std.specs.Prelude.{◌≡◌, pos, true, false, OnOk};
ghost use Rattle.ak_base.specs.Heads.{IsWithin};
ghost use Rattle.ak_edit.specs.Refusals.{DeskCause};
ghost use Rattle.ak_keep.specs.Collections.{IsId};
ghost use Rattle.ak_keep.specs.Keepers.{is_marked};
ghost use Rattle.ak_lab_devices.specs.NewReviews.{EndsReviews};
ghost use Rattle.ak_lab_devices.specs.ReviewChanges.{reviews_over};

use crate::new_reviews::{ReviewPlan, new_reviews};
use ak_base::{Memory, Review, Row, Table};
use ak_edit::{Change, DeskFault};
use ak_edit_calls::first_name;
use ak_keep::Keeper;
use ak_undo::UndoList;

/// Adds the reviews of a plan at a moment in milliseconds, as one edit. It is refused if too few ids are free from the moment on,
/// and then if the collection's moment can't rise. Whether the card is held is not asked.
pub fn add_reviews<K: Keeper>(
    keeper: &mut K,
    steps: &mut UndoList,
    plan: ReviewPlan,
    at: i64,
) -> Result<(), DeskFault>
    requires unmarked { is_marked (K.keeping keeper.old) ≡ false }
    requires held { (K.keeping keeper.old).headed.current ≡ true }
    requires card { IsId plan.card }
    requires ease { IsWithin (pos 0) (pos 4) plan.ease }
    ensures ends { EndsReviews at plan (K.keeping keeper.old) (K.keeping keeper.new) steps.old steps.new result }
    ensures cause { DeskCause (K.health keeper.old) (K.health keeper.new) result }
{
    let alloc = steps.allocator();
    let reviews = new_reviews(keeper, alloc, plan, first_name(Table::Review, at))?;
    let mut change = Change::new(alloc);
    put_reviews(&mut change, reviews)?;
    change.finish(keeper, steps, at)
}

/// Puts each of the reviews under its name.
fn put_reviews(change: &mut Change, reviews: Vec<Review>) -> Result<(), Memory>
    ensures { OnOk result (change.new ≡ reviews_over reviews.items change.old) }
{
    for review in reviews {
        change.put(Row::Review(review))?;
    }
    Ok(())
}
