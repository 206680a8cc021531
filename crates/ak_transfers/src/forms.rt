// What a whole collection must pass before a device holds it.
ghost use Rattle.std.specs.List.{All, IsDistinct};
ghost use Rattle.std.specs.Ordering.{eq_by_cmp};
ghost use Rattle.std.specs.Prelude.{◌≡◌, map, IfOk, IfErr, Decides, ◌⊎◌};
ghost use Rattle.ak_base.specs.Heads.{IsHeadInRange};
ghost use Rattle.ak_base.specs.Names.{name_cmp};
ghost use Rattle.ak_base.specs.Rows.{IsChecked, name_of};
ghost use Rattle.ak_client.specs.declared.outcomes.Outcome.TheVariants as outcomes;
ghost use Rattle.ak_transfers.specs.Forms.{MayBeHeld, downloaded_head};

use ak_base::{Head, List, Memory, Row};
use ak_client::Outcome;
use ak_messages::Whole;
use ak_server_rules::{are_checked, has_twin_rows};
use std::alloc::Global;

/// The rows and the head of a whole collection that a device may hold. The last sync is at its moment.
#[derive(Drop)]
pub(crate) struct Held {
    pub(crate) rows: List<Row>,
    pub(crate) head: Head,
}

/// What a device holds once a whole collection was given. One that may not be held is a bad reply.
pub(crate) fn held_of(alloc: Global, whole: Whole) -> Result<Held, Outcome>
    ensures held { IfOk result (λ held. MayBeHeld whole) }
    ensures rows { IfOk result (λ held. held.rows ≡ whole.rows) }
    ensures head { IfOk result (λ held. held.head ≡ downloaded_head whole) }
    ensures refused { IfErr result (λ outcome. (outcome ≡ outcomes.Memory)
        ⊎ ((outcome ≡ outcomes.BadReply) × (MayBeHeld whole → ⊥))) }
{
    let held = parts_of(whole);
    if !may_be_held(alloc, &held)? {
        return Err(Outcome::BadReply);
    }
    Ok(held)
}

/// The rows and the head of a whole collection.
fn parts_of(whole: Whole) -> Held
    ensures { result ≡ record { rows = whole.rows; head = downloaded_head whole } }
{
    Held {
        rows: whole.rows,
        head: Head {
            crt: whole.crt,
            moment: whole.moment,
            schema: whole.schema,
            usn: whole.usn,
            last_sync: whole.moment,
            conf: whole.conf,
            tags: whole.tags,
        },
    }
}

/// Whether each row passes its check, no two share a name, and the head is in its ranges.
fn may_be_held(alloc: Global, held: &Held) -> Result<bool, Memory>
    ensures { IfOk result (λ so. Decides so (All IsChecked held.now.rows
        × IsDistinct (eq_by_cmp name_cmp) (map name_of held.now.rows) × IsHeadInRange held.now.head)) }
{
    if !held.head.is_in_range() {
        return Ok(false);
    }
    if !are_checked(held.rows.as_slice()) {
        return Ok(false);
    }
    Ok(!has_twin_rows(alloc, held.rows.as_slice())?)
}
