use ak_base::List;
use ak_cli::run;
use ak_client_wire::Wire;
use ak_filters::FieldFilter;
use ak_io::{ListChance, ListClock, MemorySink, MemorySource};
use ak_keep::Keeper;
use ak_sync_in_memory::Log;
use cases_accounts::moment_at;
use cases_lines::{Unread, natural_at, quoted, text_at, words_at};
use serde_json::Value;
use std::alloc::Global;
use std::str;

/// For how many bytes the output of a run has room.
const ROOM: u64 = 10_000;

/// What a run reads and writes beside the collection and the server.
#[derive(Drop)]
struct Ends {
    input: MemorySource,
    out: MemorySink,
    clock: ListClock,
    chance: ListChance,
}

/// `[WORDS, INPUT, MOMENT, CHANCE]`: the status, and what was written. The program's clock stands at the moment, and each word of
/// chance is CHANCE and `more`.
pub fn run_text<K: Keeper, W: Wire>(
    alloc: Global,
    keeper: &mut K,
    wire: &mut W,
    run: &Value,
    more: u64,
) -> Result<String, Unread> {
    let mut ends = ends_at(alloc, run, more)?;
    let status = status_over(alloc, keeper, wire, run, &mut ends)?;
    told(alloc, status, ends.out.bytes())
}

fn status_over<K: Keeper, W: Wire>(
    alloc: Global,
    keeper: &mut K,
    wire: &mut W,
    arguments: &Value,
    ends: &mut Ends,
) -> Result<u8, Unread> {
    let words = words_at(alloc, arguments, 0)?;
    status_of(alloc, keeper, wire, words.as_slice(), ends)
}

fn status_of<K: Keeper, W: Wire>(
    alloc: Global,
    keeper: &mut K,
    wire: &mut W,
    words: &[String],
    ends: &mut Ends,
) -> Result<u8, Unread> {
    if keeper.marked() {
        return Err(Unread::Bad);
    }
    let mut log = Log::new(alloc);
    // No line shows a page, for which alone the filters of fields are asked.
    let mut filters: Vec<Box<dyn FieldFilter>> = Vec::new(alloc);
    Ok(run(
        alloc,
        words,
        &mut ends.input,
        &mut ends.out,
        keeper,
        wire,
        &mut ends.clock,
        &mut ends.chance,
        &mut log,
        &mut filters,
    ))
}

fn ends_at(alloc: Global, run: &Value, more: u64) -> Result<Ends, Unread> {
    Ok(Ends {
        input: input_at(alloc, run)?,
        out: MemorySink::new(alloc, ROOM, List::new(alloc))?,
        clock: clock_at(alloc, run)?,
        chance: chance_at(alloc, run, more)?,
    })
}

fn input_at(alloc: Global, run: &Value) -> Result<MemorySource, Unread> {
    let text = text_at(run, 1)?;
    let bytes = Vec::from_slice(alloc, text.as_bytes())?;
    Ok(MemorySource::new(List::of(bytes), List::new(alloc)))
}

fn clock_at(alloc: Global, run: &Value) -> Result<ListClock, Unread> {
    let moment = moment_at(run, 2)?;
    let mut moments = List::new(alloc);
    moments.push(moment)?;
    Ok(ListClock::new(moments))
}

fn chance_at(alloc: Global, run: &Value, more: u64) -> Result<ListChance, Unread> {
    let word = natural_at(run, 3)?;
    let mut words = List::new(alloc);
    words.push(word.saturating_add(more))?;
    Ok(ListChance::new(words))
}

fn told(alloc: Global, status: u8, written: &[u8]) -> Result<String, Unread> {
    let written = match str::from_utf8(written) {
        Ok(text) => quoted(alloc, text)?,
        Err(_) => return Err(Unread::Bad),
    };
    Ok(format!(in alloc; "status {status} {written}")?)
}
