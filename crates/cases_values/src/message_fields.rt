use crate::message_words::method_in;
use crate::replies::{reply_fields, status_in};
use crate::requests::request_fields;
use ak_base::cut;
use ak_merge::CheckFault;
use ak_wire::{Ask, Changes, Chunk, Give, GraveIds, MetaReply, SanityCounts, SanityReply, Whole};
use cases_lines::{Unread, listed, named};
use std::alloc::Global;

/// `fields request METHOD BODY` or `fields reply METHOD STATUS BODY`: the numbers that the message holds, in the order
/// of their names, which are not those of its keys.
pub fn message_fields(alloc: Global, rest: &str) -> Result<String, Unread> {
    let (word, words) = cut(rest, " ").ok_or(Unread::Bad)?;
    let (method, words) = method_in(words)?;
    match word {
        "request" => request_fields(alloc, method, words),
        "reply" => {
            let (status, body) = status_in(words)?;
            reply_fields(alloc, method, status, body)
        },
        _ => Err(Unread::Bad),
    }
}

/// What a request asks.
pub fn ask_fields(alloc: Global, ask: &Ask) -> Result<String, Unread> {
    match ask {
        Ask::Meta => named(alloc, "meta", ""),
        Ask::Start { min_usn, lmod } => labelled(alloc, "usn, last change ", &[*min_usn, *lmod]),
        Ask::ApplyGraves(ids) => grave_fields(alloc, ids),
        Ask::ApplyChanges(changes) => change_fields(alloc, changes),
        Ask::Chunk => named(alloc, "chunk", ""),
        Ask::ApplyChunk(chunk) => chunk_fields(alloc, chunk),
        Ask::SanityCheck2(counts) => count_fields(alloc, *counts),
        Ask::Finish => named(alloc, "finish", ""),
        Ask::Upload(whole) => whole_fields(alloc, whole),
        Ask::Download => named(alloc, "download", ""),
    }
}

/// What a reply gives.
pub fn give_fields(alloc: Global, give: &Give) -> Result<String, Unread> {
    match give {
        Give::Nothing => named(alloc, "nothing", ""),
        Give::Meta(meta) => meta_fields(alloc, meta),
        Give::Graves(ids) => grave_fields(alloc, ids),
        Give::Changes(changes) => change_fields(alloc, changes),
        Give::Chunk(chunk) => chunk_fields(alloc, chunk),
        Give::Sanity(sanity) => sanity_fields(alloc, sanity),
        Give::Moment(moment) => labelled(alloc, "moment ", &[*moment]),
        Give::Uploaded { moment, schema } => {
            labelled(alloc, "moment, schema moment ", &[*moment, *schema])
        },
        Give::Whole(whole) => whole_fields(alloc, whole),
    }
}

fn labelled(alloc: Global, words: &str, numbers: &[i64]) -> Result<String, Unread> {
    let list = listed(alloc, numbers)?;
    named(alloc, words, list.as_str())
}

fn meta_fields(alloc: Global, meta: &MetaReply) -> Result<String, Unread> {
    let words = if meta.cont {
        "goes on, moment, schema moment, clock, usn, media "
    } else {
        "ends, moment, schema moment, clock, usn, media "
    };
    labelled(
        alloc,
        words,
        &[meta.moment, meta.scm, meta.ts, meta.usn, meta.musn],
    )
}

fn grave_fields(alloc: Global, ids: &GraveIds) -> Result<String, Unread> {
    let mut made = labelled(alloc, "cards ", ids.cards.as_slice())?;
    push_ids(alloc, &mut made, " notes ", ids.notes.as_slice())?;
    push_ids(alloc, &mut made, " decks ", ids.decks.as_slice())?;
    Ok(made)
}

fn push_ids(alloc: Global, made: &mut String, words: &str, ids: &[i64]) -> Result<(), Unread> {
    let list = listed(alloc, ids)?;
    made.push_str(words)?;
    made.push_str(list.as_str())?;
    Ok(())
}

fn change_fields(alloc: Global, changes: &Changes) -> Result<String, Unread> {
    let types = changes.models.as_slice().len();
    let decks = changes.decks.as_slice().len();
    let options = changes.options.as_slice().len();
    let tags = changes.tags.as_slice().len();
    let crt = match &changes.newer {
        Some(newer) => newer.crt,
        None => -1,
    };
    Ok(format!(in alloc; "types {types} decks {decks} options {options} tags {tags} crt {crt}")?)
}

fn chunk_fields(alloc: Global, chunk: &Chunk) -> Result<String, Unread> {
    let done = chunk.done;
    let reviews = chunk.reviews.as_slice().len();
    let cards = chunk.cards.as_slice().len();
    let notes = chunk.notes.as_slice().len();
    Ok(format!(in alloc; "done {done} reviews {reviews} cards {cards} notes {notes}")?)
}

fn count_fields(alloc: Global, counts: SanityCounts) -> Result<String, Unread> {
    let (cards, notes, reviews) = (counts.cards, counts.notes, counts.reviews);
    let (graves, types) = (counts.graves, counts.models);
    let (decks, options) = (counts.decks, counts.options);
    let mut made = format!(in alloc; "cards {cards} notes {notes} reviews {reviews}")?;
    made.push_str(format!(in alloc;
        " graves {graves} types {types} decks {decks} options {options}"
    )?.as_str())?;
    Ok(made)
}

fn sanity_fields(alloc: Global, sanity: &SanityReply) -> Result<String, Unread> {
    let mut made = check_fields(alloc, sanity.good, sanity.fault)?;
    push_counts(alloc, &mut made, ", client ", sanity.client)?;
    push_counts(alloc, &mut made, ", server ", sanity.server)?;
    Ok(made)
}

fn push_counts(
    alloc: Global,
    made: &mut String,
    words: &str,
    counts: SanityCounts,
) -> Result<(), Unread> {
    let told = count_fields(alloc, counts)?;
    made.push_str(words)?;
    made.push_str(told.as_str())?;
    Ok(())
}

fn check_fields(alloc: Global, good: bool, fault: Option<CheckFault>) -> Result<String, Unread> {
    if good {
        return named(alloc, "good", "");
    }
    match fault {
        None => named(alloc, "bad", ""),
        Some(CheckFault::CardNoNote(id)) => labelled(alloc, "card without note ", &[id]),
        Some(CheckFault::NoteNoCard(id)) => labelled(alloc, "note without card ", &[id]),
        Some(CheckFault::NoteNoType(id)) => labelled(alloc, "note without type ", &[id]),
        Some(CheckFault::CardNoTemplate(id)) => labelled(alloc, "card without template ", &[id]),
    }
}

fn whole_fields(alloc: Global, whole: &Whole) -> Result<String, Unread> {
    let (crt, moment, schema, usn) = (whole.crt, whole.moment, whole.schema, whole.usn);
    let rows = whole.rows.as_slice().len();
    let mut made = labelled(
        alloc,
        "crt, moment, schema moment, usn ",
        &[crt, moment, schema, usn],
    )?;
    made.push_str(format!(in alloc; " rows {rows}")?.as_str())?;
    Ok(made)
}
