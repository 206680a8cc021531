ghost use Rattle.std.specs.Prelude.{◌≡◌, IfOk, IfErr};
ghost use Rattle.std.specs.Option.{option_map};
ghost use Rattle.ak_desk_language.specs.AnyLines.{SaysAnyLine, IsAnyInRange, RefusesAnyLine};
ghost use Rattle.ak_desk_language.specs.AnyReading.{filtered_words, ReadsAny, ReadsFiltered, ReadsSingle, RefusesAny, RefusesFiltered};
ghost use Rattle.ak_desk_language.specs.DeskLines.{RefusesLine};
ghost use Rattle.ak_desk_language.specs.declared.verbs.FilteredVerb.TheVariants as verbs;

use crate::LineFault;
use crate::desk_lines::{DeskLine, read_single_line};
use crate::filter_plans::read_filter_plan;
use crate::numbers::id_in;
use crate::verbs::{FilteredVerb, filtered_verb_of};
use ak_base::{Text, cut};
use std::alloc::Global;

/// A line of the desk, read: one that is one call there, or one about filtered decks. Ids are as in `DeskLine`.
#[derive(Debug, Drop)]
pub enum AnyLine {
    /// A line that is one call.
    Single(DeskLine),
    /// `filter [<name>,<search>,<limit>,<order>]`: makes a filtered deck. The search is any text, and the limit and
    /// the order are any numbers that fit 64 bits: what they are worth is not asked.
    Filter {
        name: Text,
        search: Text,
        limit: i64,
        order: i64,
    },
    /// `build <deck>`
    Build(i64),
    /// `empty <deck>`
    Empty(i64),
}

/// Reads a line without its line feed. Its words are tested first: one space stands between two of them, numbers
/// have no sign and no leading zero, and a name, a search or a JSON text goes to the end. Then the JSON or the
/// search is read, from left to right. That a line is to be skipped is not asked here.
pub fn read_line(alloc: Global, line: &str) -> Result<AnyLine, LineFault>
    ensures ok { IfOk result (SaysAnyLine line.now) }
    ensures range { IfOk result IsAnyInRange }
    ensures err { IfErr result (RefusesAnyLine line.now) }
{
    read_any(alloc, line)
}

/// The line, by its first word.
fn read_any(alloc: Global, line: &str) -> Result<AnyLine, LineFault>
    ensures ok { IfOk result (ReadsAny line.now) }
    ensures range { IfOk result IsAnyInRange }
    ensures err { IfErr result (RefusesAny line.now) }
{
    match filtered_words(line) {
        Some((verb, rest)) => read_filtered(alloc, verb, rest),
        None => read_single(alloc, line),
    }
}

/// A line that is one call.
fn read_single(alloc: Global, line: &str) -> Result<AnyLine, LineFault>
    ensures ok { IfOk result (ReadsSingle line.now) }
    ensures range { IfOk result IsAnyInRange }
    ensures err { IfErr result (RefusesLine line.now) }
{
    Ok(AnyLine::Single(read_single_line(alloc, line)?))
}

/// The verb of a line about filtered decks, and what follows the space after it. None for any other line.
fn filtered_words(line: &str) -> Option<(FilteredVerb, &str)>
    ensures { option_map (λ p. (p.0, p.1.now)) result ≡ filtered_words line.now }
{
    let (word, rest) = cut(line, " ")?;
    let verb = filtered_verb_of(word)?;
    Some((verb, rest))
}

/// The line of a verb and of what follows it.
fn read_filtered(alloc: Global, verb: FilteredVerb, text: &str) -> Result<AnyLine, LineFault>
    ensures ok { IfOk result (ReadsFiltered verb text.now) }
    ensures range { IfOk result IsAnyInRange }
    ensures err { IfErr result (RefusesFiltered verb text.now) }
{
    match verb {
        FilteredVerb::Filter => read_filter(alloc, text),
        FilteredVerb::Build => read_build(text),
        FilteredVerb::Empty => read_empty(text),
    }
}

/// What follows `filter`.
fn read_filter(alloc: Global, text: &str) -> Result<AnyLine, LineFault>
    ensures ok { IfOk result (ReadsFiltered verbs.Filter text.now) }
    ensures range { IfOk result IsAnyInRange }
    ensures err { IfErr result (RefusesFiltered verbs.Filter text.now) }
{
    let made = read_filter_plan(alloc, text)?;
    Ok(AnyLine::Filter {
        name: made.name,
        search: made.search,
        limit: made.limit,
        order: made.order,
    })
}

/// What follows `build`.
fn read_build(text: &str) -> Result<AnyLine, LineFault>
    ensures ok { IfOk result (ReadsFiltered verbs.Build text.now) }
    ensures range { IfOk result IsAnyInRange }
    ensures err { IfErr result (RefusesFiltered verbs.Build text.now) }
{
    match id_in(text) {
        Some(deck) => Ok(AnyLine::Build(deck)),
        None => Err(LineFault::BadLine),
    }
}

/// What follows `empty`.
fn read_empty(text: &str) -> Result<AnyLine, LineFault>
    ensures ok { IfOk result (ReadsFiltered verbs.Empty text.now) }
    ensures range { IfOk result IsAnyInRange }
    ensures err { IfErr result (RefusesFiltered verbs.Empty text.now) }
{
    match id_in(text) {
        Some(deck) => Ok(AnyLine::Empty(deck)),
        None => Err(LineFault::BadLine),
    }
}
