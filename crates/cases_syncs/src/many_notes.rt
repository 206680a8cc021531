use ak_memory::MemoryKeeper;
use cases_keepers::{answer_of, value_of};
use cases_lines::{Unread, number_at};
use std::alloc::Global;

/// `put-notes [FIRST, COUNT]`: so many notes of type 1, each with a new card in deck 1, with the ids from the first on.
pub fn put_notes(alloc: Global, keeper: &mut MemoryKeeper, rest: &str) -> Result<String, Unread> {
    let arguments = value_of(alloc, rest)?;
    let first = number_at(&arguments, 0)?;
    let count = number_at(&arguments, 1)?;
    if first < 1 || first > 1_000_000_000 || count > 20_000 {
        return Err(Unread::Bad);
    }
    let mut answer = String::from_str(alloc, "ok")?;
    for place in 0..count {
        answer = put_note(alloc, keeper, first + place)?;
    }
    Ok(answer)
}

fn put_note(alloc: Global, keeper: &mut MemoryKeeper, id: i64) -> Result<String, Unread> {
    let note = format!(in alloc;
        "note [{id},\"g{id}\",1,10,-1,\"\",\"f{id}\\u001fb{id}\",\"f{id}\",0,0,\"\"]"
    )?;
    answer_of(alloc, keeper, "put", note.as_str())?;
    let card = format!(in alloc; "card [{id},{id},1,0,10,-1,0,0,{id},0,0,0,0,0,0,0,0,\"\"]")?;
    answer_of(alloc, keeper, "put", card.as_str())
}
