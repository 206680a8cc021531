ghost use Rattle.std.specs.Prelude.{◌≡◌, ◌≤ℤ◌, pos, IfOk};
ghost use Rattle.std.specs.FinMap.{get};
ghost use Rattle.ak_edit.specs.Refusals.{DeskCause};
ghost use Rattle.ak_edit_calls.specs.Calls.{AnswersFrom};
ghost use Rattle.ak_edit_calls.specs.NewNames.{RefusesIdsFrom};
ghost use Rattle.ak_keep.specs.FreeNames.{is_used};
ghost use Rattle.ak_keep.specs.Keepers.{WhereTold};
ghost use Rattle.ak_lab_devices.specs.NewReviews.{AreNewReviews, new_review};

use ak_base::{Name, Review};
use ak_edit::DeskFault;
use ak_edit_calls::next_free;
use ak_keep::Keeper;
use std::alloc::Global;

/// Reviews that are to be added to a collection: of which card, with which ease from 1 to 4, and how many.
#[derive(Clone, Copy, Debug)]
pub struct ReviewPlan {
    pub card: i64,
    pub ease: i64,
    pub count: u64,
}

/// The reviews of the plan, the first with the first free id from `start` on and each other with the first free one after the
/// one before, refused if there are too few.
pub(crate) fn new_reviews<K: Keeper>(
    keeper: &mut K,
    alloc: Global,
    plan: ReviewPlan,
    start: Name,
) -> Result<Vec<Review>, DeskFault>
    requires { pos 1 ≤ℤ start.id }
    ensures same { K.keeping keeper.new ≡ K.keeping keeper.old }
    ensures made { IfOk result (λ made. WhereTold (K.keeping keeper.old) (λ h.
        AreNewReviews (is_used (get h.rows)) plan start plan.count made.items)) }
    ensures refused { AnswersFrom K.Lookup keeper.old result (RefusesIdsFrom start plan.count) }
    ensures cause { DeskCause (K.health keeper.old) (K.health keeper.new) result }
{
    let mut reviews = Vec::new(alloc);
    let mut first = start;
    let mut left = plan.count;
    'reviews: while left > 0 {
        let name = next_free(keeper, first)?;
        reviews.push(new_review(plan, name.id))?;
        first = name.next();
        left -= 1;
    }
    Ok(reviews)
}

/// A review of this id, not sent yet.
fn new_review(plan: ReviewPlan, id: i64) -> Review
    ensures { result ≡ new_review plan id }
{
    Review {
        id,
        cid: plan.card,
        usn: -1,
        ease: plan.ease,
        ivl: 0,
        last_ivl: 0,
        factor: 0,
        time: 0,
        kind: 0,
    }
}
