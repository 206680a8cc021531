ghost use Rattle.std.specs.Prelude.{◌≡◌, IfOk};
ghost use Rattle.serde_json.specs.View.{view};
ghost use Rattle.ak_json.specs.Arrays.{note_at, card_at, review_at, grave_at};

use crate::cells::{integer_at, text_at};
use crate::forms::{CARD, GRAVE, NOTE, REVIEW};
use ak_base::{Card, Grave, Memory, Note, Review};
use serde_json::Value;
use std::alloc::Global;

/// The note of an array of its form.
#[tactic(auto, unfolding(crate::specs::Arrays::note_at))]
pub(crate) fn note_of(alloc: Global, value: &Value) -> Result<Note, Memory>
    ensures { IfOk result (λ note. note ≡ note_at (view value.now)) }
{
    Ok(Note {
        id: integer_at(&NOTE, 0, value),
        guid: text_at(alloc, &NOTE, 1, value)?,
        mid: integer_at(&NOTE, 2, value),
        stamp: integer_at(&NOTE, 3, value),
        usn: integer_at(&NOTE, 4, value),
        tags: text_at(alloc, &NOTE, 5, value)?,
        flds: text_at(alloc, &NOTE, 6, value)?,
        sfld: text_at(alloc, &NOTE, 7, value)?,
        csum: integer_at(&NOTE, 8, value),
        flags: integer_at(&NOTE, 9, value),
        extra: text_at(alloc, &NOTE, 10, value)?,
    })
}

/// The card of an array of its form.
#[tactic(auto, unfolding(crate::specs::Arrays::card_at))]
pub(crate) fn card_of(alloc: Global, value: &Value) -> Result<Card, Memory>
    ensures { IfOk result (λ card. card ≡ card_at (view value.now)) }
{
    Ok(Card {
        id: integer_at(&CARD, 0, value),
        nid: integer_at(&CARD, 1, value),
        did: integer_at(&CARD, 2, value),
        ord: integer_at(&CARD, 3, value),
        stamp: integer_at(&CARD, 4, value),
        usn: integer_at(&CARD, 5, value),
        kind: integer_at(&CARD, 6, value),
        queue: integer_at(&CARD, 7, value),
        due: integer_at(&CARD, 8, value),
        ivl: integer_at(&CARD, 9, value),
        factor: integer_at(&CARD, 10, value),
        reps: integer_at(&CARD, 11, value),
        lapses: integer_at(&CARD, 12, value),
        left: integer_at(&CARD, 13, value),
        odue: integer_at(&CARD, 14, value),
        odid: integer_at(&CARD, 15, value),
        flags: integer_at(&CARD, 16, value),
        extra: text_at(alloc, &CARD, 17, value)?,
    })
}

/// The review of an array of its form.
#[tactic(auto, unfolding(crate::specs::Arrays::review_at))]
pub(crate) fn review_of(value: &Value) -> Review
    ensures { result ≡ review_at (view value.now) }
{
    Review {
        id: integer_at(&REVIEW, 0, value),
        cid: integer_at(&REVIEW, 1, value),
        usn: integer_at(&REVIEW, 2, value),
        ease: integer_at(&REVIEW, 3, value),
        ivl: integer_at(&REVIEW, 4, value),
        last_ivl: integer_at(&REVIEW, 5, value),
        factor: integer_at(&REVIEW, 6, value),
        time: integer_at(&REVIEW, 7, value),
        kind: integer_at(&REVIEW, 8, value),
    }
}

/// The grave of an array of its form.
#[tactic(auto, unfolding(crate::specs::Arrays::grave_at))]
pub(crate) fn grave_of(value: &Value) -> Grave
    ensures { result ≡ grave_at (view value.now) }
{
    Grave {
        usn: integer_at(&GRAVE, 0, value),
        oid: integer_at(&GRAVE, 1, value),
        kind: integer_at(&GRAVE, 2, value),
    }
}
