// Readers and writers of std that are interrupted, fail or take nothing, and ends in memory.
use ak_base::{List, Memory};
use ak_io::{
    Chance, End, Failed, MemorySink, MemorySource, Sink, Source, StdChance, StdSink, StdSource,
    write_all,
};
use std::alloc::Global;
use std::io::{Error, ErrorKind, Read, Result as IoResult, Write};

/// A reader, and a writer, that is interrupted so many times and then does this.
#[derive(Clone, Copy, Drop)]
struct Flaky {
    interruptions: u32,
    fails: bool,
    flush_fails: bool,
    is_full: bool,
}

impl Flaky {
    /// Whether the next call is interrupted.
    fn interrupt(&mut self) -> bool {
        if self.interruptions == 0 {
            return false;
        }
        self.interruptions -= 1;
        true
    }
}

impl Read for Flaky {
    fn read(&mut self, into: &mut [u8]) -> IoResult<usize> {
        if self.interrupt() {
            return Err(Error::from(ErrorKind::Interrupted));
        }
        if self.fails {
            return Err(Error::from(ErrorKind::Other));
        }
        into.fill(b'a');
        Ok(into.len())
    }
}

impl Write for Flaky {
    fn write(&mut self, from: &[u8]) -> IoResult<usize> {
        if self.interrupt() {
            return Err(Error::from(ErrorKind::Interrupted));
        }
        if self.fails {
            return Err(Error::from(ErrorKind::Other));
        }
        if self.is_full {
            return Ok(0);
        }
        Ok(from.len())
    }

    fn flush(&mut self) -> IoResult<()> {
        if self.flush_fails {
            return Err(Error::from(ErrorKind::Other));
        }
        Ok(())
    }
}

/// What a read of two bytes answers, or None where it is refused, and the faults after it.
fn read_twice(reader: Flaky) -> (Option<usize>, u64) {
    let mut input = StdSource::new(reader);
    let mut piece = [0; 2];
    match input.read(&mut piece) {
        Ok(count) => (Some(count), input.faults()),
        Err(_) => (None, input.faults()),
    }
}

/// The same of a write of two bytes.
fn write_twice(writer: Flaky) -> (Option<usize>, u64) {
    let mut out = StdSink::new(writer);
    match out.write(b"ab") {
        Ok(count) => (Some(count), out.faults()),
        Err(_) => (None, out.faults()),
    }
}

// How often it is interrupted, whether it fails, whether a flush does, whether it is full; then what comes of it.
const READS: [(u32, bool, (Option<usize>, u64)); 6] = [
    (0, false, (Some(2), 0)),
    (1, false, (Some(2), 0)),
    (999, false, (Some(2), 0)),
    (1000, false, (None, 1)),
    (0, true, (None, 1)),
    (1, true, (None, 1)),
];

const WRITES: [(u32, bool, bool, bool, (Option<usize>, u64)); 9] = [
    (0, false, false, false, (Some(2), 0)),
    (1, false, false, false, (Some(2), 0)),
    (999, false, false, false, (Some(2), 0)),
    (1000, false, false, false, (None, 1)),
    (0, true, false, false, (None, 1)),
    (1, true, false, false, (None, 1)),
    (0, false, true, false, (Some(2), 1)),
    (0, false, false, true, (Some(0), 1)),
    (0, false, true, true, (Some(0), 1)),
];

#[test]
fn a_signal_is_no_fault_and_a_failed_flush_is_one(rt: HostRuntime) {
    for (interruptions, fails, wanted) in READS {
        let reader = Flaky {
            interruptions,
            fails,
            flush_fails: false,
            is_full: false,
        };
        assert!(rt; read_twice(reader) == wanted);
    }
    for (interruptions, fails, flush_fails, is_full, wanted) in WRITES {
        let writer = Flaky {
            interruptions,
            fails,
            flush_fails,
            is_full,
        };
        assert!(rt; write_twice(writer) == wanted);
    }
}

/// Whether a writer with room for two bytes refuses the third and counts it.
fn is_refused_past_the_end() -> bool {
    let mut room = [0; 2];
    let mut out = StdSink::new(room.as_mut_slice());
    let answer = write_all(&mut out, b"abc");
    answer == Err(Failed) && out.faults() == 1
}

/// The bytes of a sink after a write that goes, one that fails, and one that goes, into room for three.
fn write_around(out: &mut MemorySink) -> bool {
    let answers = [out.write(b"ab"), out.write(b"cd"), out.write(b"ef")];
    answers == [Ok(2), Err(Failed), Ok(1)] && out.bytes() == b"abe".as_slice() && out.faults() == 1
}

fn sink(alloc: Global, room: u64, fails: &[u64]) -> Result<MemorySink, Memory> {
    let fails = List::of(Vec::from_slice(alloc, fails)?);
    MemorySink::new(alloc, room, fails)
}

fn source(alloc: Global, fails: &[u64]) -> Result<MemorySource, Memory> {
    let bytes = List::of(Vec::from_slice(alloc, b"abc".as_slice())?);
    let fails = List::of(Vec::from_slice(alloc, fails)?);
    Ok(MemorySource::new(bytes, fails))
}

/// The bytes of a source around a read that fails.
fn read_around(input: &mut MemorySource) -> bool {
    let mut piece = [0; 2];
    let answers = [
        input.read(&mut piece),
        input.read(&mut piece),
        input.read(&mut piece),
        input.read(&mut piece),
    ];
    answers == [Ok(2), Err(Failed), Ok(1), Ok(0)] && piece[0] == b'c' && input.faults() == 1
}

#[test]
fn what_fails_leaves_the_bytes(rt: HostRuntime) -> Result<(), Memory> {
    let mut out = sink(rt.alloc(), 3, &[1])?;
    let mut input = source(rt.alloc(), &[1])?;
    assert!(rt; write_around(&mut out));
    assert!(rt; read_around(&mut input));
    assert!(rt; is_refused_past_the_end());
    Ok(())
}

#[test]
fn no_room_is_want_of_memory(rt: HostRuntime) {
    assert!(rt; matches!(sink(rt.alloc(), 1 << 62, &[]), Err(Memory)));
}

// The first words of splitmix64 from seed 0, by its author's program.
#[test]
fn words_of_chance_are_those_of_splitmix64(rt: HostRuntime) {
    let mut chance = StdChance::new(0);
    let words = [chance.word(), chance.word(), chance.word()];
    assert!(rt; words == [0xE220A8397B1DCDAF, 0x6E789E6AA1B965F4, 0x06C45D188009454F]);
}
