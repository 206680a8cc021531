// Lines of an input: one after the other, a fault in mid-line, and an input at its limit and one byte past it.
use ak_base::{List, Memory};
use ak_io::{End, Line, LineReader, MemorySource, ReadFault, Source, StdSource};
use std::alloc::Global;
use std::io::{Read, Result as IoResult};

fn source(alloc: Global, text: &[u8], fails: &[u64]) -> Result<MemorySource, Memory> {
    let bytes = List::of(Vec::from_slice(alloc, text)?);
    let fails = List::of(Vec::from_slice(alloc, fails)?);
    Ok(MemorySource::new(bytes, fails))
}

/// The lines of a text as a reader takes them, each in brackets; a line that is too long is `!`.
fn shown(alloc: Global, text: &[u8]) -> Result<Vec<u8>, ReadFault> {
    let mut input = source(alloc, text, &[])?;
    let mut reader = LineReader::new(alloc)?;
    let mut shown = Vec::new(alloc);
    for _ in 0..9 {
        match reader.next(&mut input)? {
            Some(Line::Whole(line)) => show(&mut shown, line.as_slice())?,
            Some(_) => show(&mut shown, b"!")?,
            None => break,
        }
    }
    Ok(shown)
}

fn show(shown: &mut Vec<u8>, line: &[u8]) -> Result<(), Memory> {
    shown.extend_from_slice(b"[")?;
    shown.extend_from_slice(line)?;
    shown.extend_from_slice(b"]")?;
    Ok(())
}

fn is_shown(alloc: Global, text: &[u8], wanted: &[u8]) -> Result<bool, ReadFault> {
    let shown = shown(alloc, text)?;
    Ok(shown.as_slice() == wanted)
}

const TEXTS: [(&'static str, &'static str); 7] = [
    ("", ""),
    ("a", "[a]"),
    ("a\n", "[a]"),
    ("a\n\nb", "[a][][b]"),
    ("\n\n", "[][]"),
    ("a\r\n", "[a\r]"),
    ("\n", "[]"),
];

#[test]
fn lines_are_taken_one_by_one(rt: HostRuntime) -> Result<(), ReadFault> {
    for (text, wanted) in TEXTS {
        assert!(rt; is_shown(rt.alloc(), text.as_bytes(), wanted.as_bytes())?);
    }
    Ok(())
}

/// Whether a read that fails in the midst of a line is told, counted, and counts no line.
fn fails_in_mid_line(alloc: Global) -> Result<bool, Memory> {
    let text = Vec::from_elem(alloc, b'a', 70_000)?;
    let mut input = source(alloc, text.as_slice(), &[1])?;
    let mut reader = LineReader::new(alloc)?;
    let is_told = matches!(reader.next(&mut input), Err(ReadFault::Failed));
    Ok(is_told && input.faults() == 1 && reader.number() == 0)
}

#[test]
fn a_read_fails_in_mid_line(rt: HostRuntime) -> Result<(), Memory> {
    assert!(rt; fails_in_mid_line(rt.alloc())?);
    Ok(())
}

/// A reader with so many bytes left, whose reads each end with a line feed.
#[derive(Clone, Copy, Drop)]
struct Filler {
    left: u64,
}

impl Read for Filler {
    fn read(&mut self, into: &mut [u8]) -> IoResult<usize> {
        let room = into.len();
        let count = if self.left < room as u64 {
            self.left as usize
        } else {
            room
        };
        self.left -= count as u64;
        into.fill(b'a');
        if count > 0 {
            into[count - 1] = b'\n';
        }
        Ok(count)
    }
}

/// Whether the input of so many bytes is taken to its end, and not told to be too long.
fn is_taken(alloc: Global, bytes: u64) -> Result<bool, ReadFault> {
    let mut input = StdSource::new(Filler { left: bytes });
    let mut reader = LineReader::new(alloc)?;
    for _ in 0..u64::MAX {
        match reader.next(&mut input)? {
            Some(Line::PastInput) => return Ok(false),
            Some(_) => {}
            None => return Ok(true),
        }
    }
    Ok(false)
}

#[test]
fn an_input_has_at_most_1_073_741_824_bytes(rt: HostRuntime) -> Result<(), ReadFault> {
    assert!(rt; is_taken(rt.alloc(), 1_073_741_824)?);
    assert!(rt; !is_taken(rt.alloc(), 1_073_741_825)?);
    Ok(())
}
