ghost use Rattle.std.specs.Prelude.{◌≡◌, ◌⊎◌, false, true, map, IfErr, IfOk, Some};
ghost use Rattle.ak_edit.specs.Refusals.{DeskCause};
ghost use Rattle.ak_keep.specs.Keepers.{WhereTold};
ghost use Rattle.ak_pages.specs.CardPages.{IsOf, IsPageRefusal, RefusesCard, RefusesShown, ShowsCard, ShowsSide, side_fault};
ghost use Rattle.ak_template.specs.declared.faults.TemplateFault.TheVariants as faults;
ghost use Rattle.ak_template.specs.Pages.{SameKinds};

use crate::shown_cards::{ShownCard, shown_card};
use ak_base::Text;
use ak_edit::DeskFault;
use ak_filters::FieldFilter;
use ak_keep::Keeper;
use ak_template::{Template, TemplateFault, parse, render};
use std::alloc::Global;

/// The page of a card's front, or of its back, which has the front's page under the name `FrontSide`. A template shows the
/// note's fields, then `Tags`, `Type`, `Deck`, `Subdeck` and `Card`. It is refused if the card, its note, the note's type or
/// the card's template in it is not held, then if a side that is read has a fault, and then for the first fault along the page.
#[tactic(auto, using(crate::proofs::ToldCards::told_shown, crate::proofs::ToldCards::told_refused, crate::proofs::ToldCards::side_listed))]
pub fn card_page<K: Keeper>(
    keeper: &mut K,
    card: i64,
    back: bool,
    filters: &mut Vec<Box<dyn FieldFilter>>,
) -> Result<Text, DeskFault>
    ensures same { K.keeping keeper.new ≡ K.keeping keeper.old }

    // The page of this side, and the filters after it.
    ensures ok { IfOk result (λ text. WhereTold (K.keeping keeper.old)
        (λ h. ShowsCard h.rows card back
        (map (λ b. meaning b) filters.old.items) (map (λ b. meaning b) filters.new.items) text)) }

    // The first refusal whose test holds, and the filters then.
    ensures refused { IfErr result (λ fault. WhereTold (K.keeping keeper.old)
        (λ h. RefusesCard h.rows card back
        (map (λ b. meaning b) filters.old.items) (map (λ b. meaning b) filters.new.items) fault)) }
    ensures listed { IfErr result IsPageRefusal }

    // The filters are the same, in the same order, whatever the answer is.
    ensures kinds { SameKinds (λ b. meaning b) filters.old.items filters.new.items }
    ensures cause { DeskCause (K.health keeper.old) (K.health keeper.new) result }
{
    let shown = shown_card(keeper, card)?;
    side_page(shown, back, filters)
}

/// The page of a side.
fn side_page(
    shown: ShownCard,
    back: bool,
    filters: &mut Vec<Box<dyn FieldFilter>>,
) -> Result<Text, DeskFault>
    ensures ok { IfOk result (ShowsSide back shown
        (map (λ b. meaning b) filters.old.items) (map (λ b. meaning b) filters.new.items)) }
    ensures refused { IfErr result (RefusesShown back shown
        (map (λ b. meaning b) filters.old.items) (map (λ b. meaning b) filters.new.items)) }
    ensures kinds { SameKinds (λ b. meaning b) filters.old.items filters.new.items }
{
    let alloc = *filters.allocator();
    if back {
        return back_page(alloc, shown, filters);
    }
    front_page(alloc, &shown, filters)
}

/// The page of the front, if it can be read.
fn front_page(
    alloc: Global,
    shown: &ShownCard,
    filters: &mut Vec<Box<dyn FieldFilter>>,
) -> Result<Text, DeskFault>
    ensures ok { IfOk result (ShowsSide false shown.now
        (map (λ b. meaning b) filters.old.items) (map (λ b. meaning b) filters.new.items)) }
    ensures refused { IfErr result (RefusesShown false shown.now
        (map (λ b. meaning b) filters.old.items) (map (λ b. meaning b) filters.new.items)) }
    ensures kinds { SameKinds (λ b. meaning b) filters.old.items filters.new.items }
{
    let front = parse(alloc, shown.template.front.as_str())?;
    front_of(alloc, shown, &front, filters)
}

/// The page of a front that was read.
fn front_of(
    alloc: Global,
    shown: &ShownCard,
    front: &Template,
    filters: &mut Vec<Box<dyn FieldFilter>>,
) -> Result<Text, DeskFault>
    requires front { IsOf shown.now.template.front front.now }
    ensures ok { IfOk result (ShowsSide false shown.now
        (map (λ b. meaning b) filters.old.items) (map (λ b. meaning b) filters.new.items)) }
    ensures refused { IfErr result (RefusesShown false shown.now
        (map (λ b. meaning b) filters.old.items) (map (λ b. meaning b) filters.new.items)) }
    ensures kinds { SameKinds (λ b. meaning b) filters.old.items filters.new.items }
{
    let text = render(alloc, front, &shown.face, filters)?;
    Ok(text)
}

/// The page of the back, if both sides can be read.
fn back_page(
    alloc: Global,
    shown: ShownCard,
    filters: &mut Vec<Box<dyn FieldFilter>>,
) -> Result<Text, DeskFault>
    ensures ok { IfOk result (ShowsSide true shown
        (map (λ b. meaning b) filters.old.items) (map (λ b. meaning b) filters.new.items)) }
    ensures refused { IfErr result (RefusesShown true shown
        (map (λ b. meaning b) filters.old.items) (map (λ b. meaning b) filters.new.items)) }
    ensures kinds { SameKinds (λ b. meaning b) filters.old.items filters.new.items }
{
    let front = parse(alloc, shown.template.front.as_str())?;
    let back = parse_back(alloc, &shown, &front)?;
    back_of(shown, &front, &back, filters)
}

/// The page of a back, both sides of which were read.
fn back_of(
    shown: ShownCard,
    front: &Template,
    back: &Template,
    filters: &mut Vec<Box<dyn FieldFilter>>,
) -> Result<Text, DeskFault>
    requires front { IsOf shown.template.front front.now }
    requires back { IsOf shown.template.back back.now }
    ensures ok { IfOk result (ShowsSide true shown
        (map (λ b. meaning b) filters.old.items) (map (λ b. meaning b) filters.new.items)) }
    ensures refused { IfErr result (RefusesShown true shown
        (map (λ b. meaning b) filters.old.items) (map (λ b. meaning b) filters.new.items)) }
    ensures kinds { SameKinds (λ b. meaning b) filters.old.items filters.new.items }
{
    let alloc = *filters.allocator();
    let mut face = shown.face;
    let text = render(alloc, front, &face, filters)?;
    face.front = Some(text);
    let text = render(alloc, back, &face, filters)?;
    Ok(text)
}

/// The back's template. That the front was read is for the proof: of the two sides the front's fault comes first.
#[tactic(auto, using(crate::proofs::Sides::back_unread))]
fn parse_back(
    alloc: Global,
    shown: &ShownCard,
    _front: &Template,
) -> Result<Template, TemplateFault>
    requires { IsOf shown.now.template.front _front.now }
    ensures of { IfOk result (IsOf shown.now.template.back) }
    ensures fault { IfErr result (λ fault. (fault ≡ faults.Memory) ⊎ (side_fault true shown.now ≡ Some fault)) }
{
    parse(alloc, shown.template.back.as_str())
}
