ghost use Rattle.std.specs.Prelude.{◌≡◌, ℕ, ◌<◌, [], ◌++◌, List, length, IfOk, OnOk, OnErr, IfNone, None, Some};
ghost use Rattle.std.specs.Io.KnownBytes.{IsAtEnd};
ghost use Rattle.ak_io.specs.Lines.{first_line, first_size, as_read, lines_left, Takes, Counts};
ghost use Rattle.ak_io.specs.Reads.{ReadCause, line_of, TakesPiece, IsTaken, lines_ahead, Spends};

use crate::lines::{INPUT_LIMIT, LINE_LIMIT, Line};
use crate::traits::{Failed, Source};
use crate::windows::Window;
use ak_base::{List, Memory};
use std::alloc::Global;
use std::marker::Model;

/// Why a line was not read.
#[derive(Clone, Copy, Debug, PartialEq, Eq)]
pub enum ReadFault {
    /// The source refused. What was read of the line is lost.
    Failed,
    /// The memory for the line was refused. What was read of the line is lost.
    Memory,
}

impl From<Failed> for ReadFault {
    ghost use Rattle.ak_io.specs.declared.readers.ReadFault.TheVariants as faults;

    ghost from_gives = { λ failed fault. fault ≡ faults.Failed };

    fn from(_failed: Failed) -> ReadFault {
        ReadFault::Failed
    }
}

impl From<Memory> for ReadFault {
    ghost use Rattle.ak_io.specs.declared.readers.ReadFault.TheVariants as faults;

    ghost from_gives = { λ memory fault. fault ≡ faults.Memory };

    fn from(_memory: Memory) -> ReadFault {
        ReadFault::Memory
    }
}

/// A reader of the lines of one input. It keeps a line of at most [`LINE_LIMIT`] bytes and what one read
/// gave, however long a line is.
#[derive(Debug, Drop)]
pub struct LineReader {
    alloc: Global,
    window: Window,
    room: u64,
    number: u64,
}

impl Model for LineReader {
    ghost use Rattle.std.specs.Prelude.{◌+◌, ◌<◌, ◌≤◌};
    ghost use Rattle.ak_io.specs.Lines.{Reading};

    ghost Value = { Reading };

    ghost view = { λ reader. record { ahead = reader.window; room = reader.room; number = reader.number } };

    ghost invariant = { λ reader. 0 < reader.room → reader.number + reader.room ≤ 1_073_741_824 };
}

impl LineReader {
    /// A reader that has taken no line yet.
    pub fn new(alloc: Global) -> Result<LineReader, Memory>
        ensures { IfOk result (λ reader. reader ≡ record { ahead = []; room = 1_073_741_824; number = 0 }) }
    {
        let window = Window::new(alloc)?;
        Ok(LineReader {
            alloc,
            window,
            room: INPUT_LIMIT,
            number: 0,
        })
    }

    /// How many lines were taken: the number of the last one, counted from 1.
    pub fn number(&self) -> u64
        ensures { result ≡ self.now.number }
    {
        self.number
    }

    /// Takes the next line, or answers that there is none. A line of too many bytes is read to its end; the
    /// line past the input's limit is not read on, once a byte past it was read. After that line, or a
    /// fault, what further calls answer is of no use; a fault counts no line.
    pub fn next<I: Source>(&mut self, input: &mut I) -> Result<Option<Line>, ReadFault>
        ensures told { IfOk result (λ got. Takes (lines_left self.old (I.left input.old)) (lines_left self.new (I.left input.new)) got) }
        ensures ended { IfOk result (λ got. IfNone got (IsAtEnd (I.left input.new))) }
        ensures counts { IfOk result (λ got. Counts self.old self.new got) }
        ensures err { OnErr result ((self.new.number ≡ self.old.number) × (self.new.room ≡ self.old.room)) }
        ensures cause { ReadCause (I.health input.old) (I.health input.new) result }
    {
        let (got, room) = read_line(self.alloc, &mut self.window, self.room, input)?;
        if got.is_some() {
            self.number = self.number.saturating_add(1);
            self.room = room;
        }
        Ok(got)
    }
}

/// Reads the next line of an input that may hold `room` more bytes, and answers it with the room after it.
fn read_line<I: Source>(
    alloc: Global,
    window: &mut Window,
    room: u64,
    input: &mut I,
) -> Result<(Option<Line>, u64), ReadFault>
    ensures told { IfOk result (λ step. Takes (lines_ahead room window.old (I.left input.old)) (lines_ahead step.1 window.new (I.left input.new)) step.0) }
    ensures ended { IfOk result (λ step. IfNone step.0 (IsAtEnd (I.left input.new))) }
    ensures room { IfOk result (λ step. Spends room step.1 step.0) }
    ensures cause { ReadCause (I.health input.old) (I.health input.new) result }
{
    let mut line = Part::new(alloc);
    let mut left = room;
    loop {
        if !window.fill(input)? {
            if left == room {
                return Ok((None, room));
            }
            return Ok((Some(line.into_line()), left));
        }
        match take_piece(window, left, &mut line)? {
            Piece::Ended(rest) => return Ok((Some(line.into_line()), rest)),
            Piece::More(rest) => left = rest,
            Piece::Past => return Ok((Some(Line::PastInput), 0)),
        }
    }
}

/// What a step over the bytes ahead found of a line, and the room that it left.
enum Piece {
    /// The rest of the line, with its line feed.
    Ended(u64),
    /// A part of the line: all that was ahead.
    More(u64),
    /// More bytes than there is room for.
    Past,
}

/// Takes what is ahead of the line, up to its line feed, and keeps it. The room counts line feeds too.
fn take_piece(window: &mut Window, room: u64, line: &mut Part) -> Result<Piece, Memory>
    ensures piece { IfOk result (λ piece. TakesPiece window.old window.new room piece) }
    ensures line { IfOk result (λ piece. IsTaken piece → (done : List ℕ) → line_of line.old ≡ as_read done → line_of line.new ≡ as_read (done ++ first_line window.old)) }
{
    let ahead = window.bytes();
    let (length, size) = first_piece(ahead);
    if room < size as u64 {
        return Ok(Piece::Past);
    }
    line.append(&ahead[..length])?;
    window.drop_front(size);
    let left = room - size as u64;
    if length < size {
        return Ok(Piece::Ended(left));
    }
    Ok(Piece::More(left))
}

/// How many bytes the first line has, without its line feed and with it.
fn first_piece(bytes: &[u8]) -> (usize, usize)
    ensures line { result.0 ≡ length (first_line bytes.now) }
    ensures size { result.1 ≡ first_size bytes.now }
{
    for (place, byte) in bytes.iter().enumerate() {
        if *byte == b'\n' {
            return (place, place + 1);
        }
    }
    (bytes.len(), bytes.len())
}

/// What is kept of a line that is being read: its bytes so far, or only that they are too many.
#[derive(Debug, Drop)]
struct Part {
    bytes: Vec<u8>,
    is_long: bool,
}

impl Part {
    /// Nothing was read of the line yet.
    fn new(alloc: Global) -> Part
        ensures { line_of result ≡ as_read [] }
    {
        Part {
            bytes: Vec::new(alloc),
            is_long: false,
        }
    }

    /// Keeps a further piece of the line, as long as a line may be so long.
    fn append(&mut self, piece: &[u8]) -> Result<(), Memory>
        ensures { OnOk result ((line : List ℕ) → line_of self.old ≡ as_read line → line_of self.new ≡ as_read (line ++ piece.now)) }
    {
        if self.is_long {
            return Ok(());
        }
        if self.bytes.as_slice().len() + piece.len() > LINE_LIMIT as usize {
            self.is_long = true;
            return Ok(());
        }
        self.bytes.extend_from_slice(piece)?;
        Ok(())
    }

    /// The line, once all of it was read.
    fn into_line(self) -> Line
        ensures { result ≡ line_of self }
    {
        if self.is_long {
            return Line::TooLong;
        }
        Line::Whole(List::of(self.bytes))
    }
}
