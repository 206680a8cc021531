// The ends to the outside: where bytes come from and where they go, each with its meaning and its health; what
// time it is, and words by chance; and the lines of an input, for every program that takes commands line by line.
#![tactic(auto)]

mod chances;
mod clocks;
mod endings;
mod lines;
mod memory;
mod readers;
mod streams;
mod traits;
mod windows;
mod writes;

pub use chances::{Chance, ListChance, StdChance};
pub use clocks::{Clock, ListClock, StdClock};
pub use endings::{ScriptEnd, print_refusal};
pub use lines::{INPUT_LIMIT, LINE_LIMIT, Line};
pub use memory::{MemorySink, MemorySource};
pub use readers::{LineReader, ReadFault};
pub use streams::{StdSink, StdSource, TRIES};
pub use traits::{End, Failed, Sink, Source};
pub use writes::{print_line, write_all};
