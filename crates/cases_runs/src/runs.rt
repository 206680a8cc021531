use crate::times::{chance_at, clock_at};
use ak_base::List;
use ak_cli::run;
use ak_client_wire::Wire;
use ak_filters::{FieldFilter, FuriganaFilter, HintFilter, KanaFilter, KanjiFilter, TextFilter};
use ak_io::{End, MemorySink, MemorySource, Sink, Source};
use ak_keep::Keeper;
use ak_sync_in_memory::Log;
use cases_lines::{Unread, list_at, natural_at, quoted, text_at};
use serde_json::Value;
use std::alloc::Global;
use std::str;

/// The most bytes that the output of a run may have room for.
const MOST_ROOM: u64 = 100_000_000;

/// `[WORDS, INPUT, FAILING-READS, ROOM, FAILING-WRITES, MOMENTS, CHANCE]`: the status, the faults of the input and of the
/// output, and what was written. Without moments the clock stands at 1700000000000, and without words of chance each is 0.
pub fn run_text<K: Keeper, W: Wire>(
    alloc: Global,
    keeper: &mut K,
    wire: &mut W,
    arguments: &Value,
) -> Result<String, Unread> {
    if keeper.marked() {
        return Err(Unread::Bad);
    }
    let words = words_at(alloc, arguments)?;
    let mut input = input_at(alloc, arguments)?;
    let mut out = output_at(alloc, arguments)?;
    let mut clock = clock_at(alloc, arguments, 5)?;
    let mut chance = chance_at(alloc, arguments, 6)?;
    let mut filters: Vec<Box<dyn FieldFilter>> = Vec::new(alloc);
    filters.push(Box::new(alloc, TextFilter::new(alloc))?)?;
    filters.push(Box::new(alloc, HintFilter::new(alloc))?)?;
    filters.push(Box::new(alloc, KanjiFilter::new(alloc))?)?;
    filters.push(Box::new(alloc, KanaFilter::new(alloc))?)?;
    filters.push(Box::new(alloc, FuriganaFilter::new(alloc))?)?;
    let mut log = Log::new(alloc);
    let status = run(
        alloc,
        words.as_slice(),
        &mut input,
        &mut out,
        keeper,
        wire,
        &mut clock,
        &mut chance,
        &mut log,
        &mut filters,
    );
    told(alloc, status, &input, &out)
}

fn words_at(alloc: Global, arguments: &Value) -> Result<Vec<String>, Unread> {
    let mut words = Vec::new(alloc);
    for value in list_at(arguments, 0)? {
        let word = value.as_str().ok_or(Unread::Bad)?;
        words.push(String::from_str(alloc, word)?)?;
    }
    Ok(words)
}

/// The input: a text, or a list of bytes.
fn input_at(alloc: Global, arguments: &Value) -> Result<MemorySource, Unread> {
    let fails = numbers_at(alloc, arguments, 2)?;
    let bytes = bytes_at(alloc, arguments)?;
    Ok(MemorySource::new(bytes, fails))
}

fn bytes_at(alloc: Global, arguments: &Value) -> Result<List<u8>, Unread> {
    match text_at(arguments, 1) {
        Ok(text) => Ok(List::of(Vec::from_slice(alloc, text.as_bytes())?)),
        Err(_) => listed_bytes(alloc, arguments),
    }
}

fn listed_bytes(alloc: Global, arguments: &Value) -> Result<List<u8>, Unread> {
    let mut bytes = List::new(alloc);
    for value in list_at(arguments, 1)? {
        match value.as_u64() {
            Some(byte) if byte < 256 => bytes.push(byte as u8)?,
            _ => return Err(Unread::Bad),
        }
    }
    Ok(bytes)
}

fn output_at(alloc: Global, arguments: &Value) -> Result<MemorySink, Unread> {
    let room = natural_at(arguments, 3)?;
    if room > MOST_ROOM {
        return Err(Unread::Bad);
    }
    let fails = numbers_at(alloc, arguments, 4)?;
    Ok(MemorySink::new(alloc, room, fails)?)
}

pub fn numbers_at(alloc: Global, arguments: &Value, place: usize) -> Result<List<u64>, Unread> {
    let mut numbers = List::new(alloc);
    for value in list_at(arguments, place)? {
        numbers.push(value.as_u64().ok_or(Unread::Bad)?)?;
    }
    Ok(numbers)
}

fn told(
    alloc: Global,
    status: u8,
    input: &MemorySource,
    out: &MemorySink,
) -> Result<String, Unread> {
    let written = match str::from_utf8(out.bytes()) {
        Ok(text) => quoted(alloc, text)?,
        Err(_) => return Err(Unread::Bad),
    };
    let reads = input.faults();
    let writes = out.faults();
    Ok(format!(in alloc; "status {status} faults {reads} {writes} {written}")?)
}
