ghost use Rattle.std.specs.Prelude.{◌≡◌, IfOk, IfErr, Some, None};
ghost use Rattle.ak_lab_lines.specs.LabLines.{lab_line_of, line_of, clock_line, device_line, shift_line, review_line, reviews_of, do_line, sync_line, lose_line, losing_of, lost_of, repeat_line, cross_line, crossing_of, another_word, replay_line, replaying_of, resend_line, break_line, transfer_line, show_line, count_line, requests_line, side_of, shown_of};
ghost use Rattle.ak_lab_lines.specs.Reading.{Reads, Refuses};
ghost use Rattle.ak_lab_lines.specs.Written.{IsLabLine};

use crate::LabLineFault;
use crate::words::{another_word, is_device_name, next_word, signed_number, word_of};
use ak_base::{LAST_I64, LAST_ID, Memory, Table, Text, cut};
use ak_desk_language::{next_number, number_in};
use ak_sync_in_memory::What;
use std::alloc::Global;

/// A line of a lab script, read. Whether a device is held is not asked, nor whether a word can be a device's name,
/// but for the name of a new one.
#[derive(Debug, Drop)]
pub enum LabLine {
    /// `clock <ms>`: sets the clock of the lab, in milliseconds.
    Clock(i64),
    /// `device <name>`: a new device, which begins with the server's collection.
    Device(Text),
    /// `shift <device> <ms>`: a device's clock is the lab's plus this, in milliseconds.
    Shift {
        device: Text,
        by: i64,
    },
    /// `review <device> <card> <ease> <count>`: adds that many reviews of a card to a device.
    Review {
        device: Text,
        card: i64,
        ease: i64,
        count: u64,
    },
    /// `do <device> <line>`: a line of the desk, obeyed on a device. It may be empty.
    Do {
        device: Text,
        line: Text,
    },
    /// `sync <device>`
    Sync(Text),
    /// `lose <device> <call> request`, `lose <device> <call> reply` and `repeat <device> <call>`: what happens to the
    /// messages of the call of this number of the device's next sync, counted from 0.
    Disturb {
        device: Text,
        call: u64,
        what: What,
    },
    /// `cross <device> <call> <other>`: before that call of the device's next sync the other device makes a whole one.
    Cross {
        device: Text,
        call: u64,
        other: Text,
    },
    /// `replay <device> <call> <from> <count>`: before that call of the device's next sync requests of the log are served
    /// again.
    Replay {
        device: Text,
        call: u64,
        from: u64,
        count: u64,
    },
    /// `resend <from> <count>`: requests of the log are served again, now.
    Resend {
        from: u64,
        count: u64,
    },
    /// `break <side>`: the first call of that side's keeper in the next sync fails.
    Break(Side),
    /// `upload <device>` and `download <device>`
    Transfer {
        direction: Direction,
        device: Text,
    },
    /// `show <side> <table>`
    Show {
        side: Side,
        what: Shown,
    },
    /// `count <side>`: the numbers of rows, by kind.
    Count(Side),
    /// `requests <device>`: the calls of the wire in its last sync. Those of an upload or a download are not counted.
    Requests(Text),
}

/// Which way a whole collection goes.
#[derive(Clone, Copy, Debug, PartialEq, Eq)]
pub enum Direction {
    /// The device's takes the place of the server's.
    Upload,
    /// The server's takes the place of the device's.
    Download,
}

/// A side of a lab: whose collection is looked at, or whose keeper fails.
#[derive(Debug, Drop)]
pub enum Side {
    Server,
    Device(Text),
}

/// What of a side is shown.
#[derive(Clone, Copy, Debug, PartialEq, Eq)]
pub enum Shown {
    /// The rows of a table that is not one of graves.
    Rows(Table),
    /// The graves of notes, of cards and of decks.
    Graves,
    /// The conf, the creation time and the names of the tags.
    Head,
}

/// Reads a line without its line feed, by its form alone: words with one space between, numbers without a leading
/// zero, and the line after `do` to its end. That a line is to be skipped is not asked here.
pub fn read_lab_line(alloc: Global, text: &str) -> Result<LabLine, LabLineFault>
    ensures line { IfOk result (Reads (lab_line_of text.now)) }
    ensures bad { IfErr result (Refuses (lab_line_of text.now)) }
    ensures range { IfOk result IsLabLine }
{
    read_cut(alloc, text)
}

/// The line, by its first word.
fn read_cut(alloc: Global, text: &str) -> Result<LabLine, LabLineFault>
    ensures line { IfOk result (Reads (lab_line_of text.now)) }
    ensures bad { IfErr result (Refuses (lab_line_of text.now)) }
{
    match cut(text, " ") {
        Some((word, rest)) => read_words(alloc, word, rest),
        None => Err(LabLineFault::BadLine),
    }
}

/// A line of a word and what follows the space after it.
fn read_words(alloc: Global, word: &str, text: &str) -> Result<LabLine, LabLineFault>
    ensures line { IfOk result (Reads (line_of word.now text.now)) }
    ensures bad { IfErr result (Refuses (line_of word.now text.now)) }
{
    match word {
        "clock" => read_clock(text),
        "device" => read_device(alloc, text),
        "shift" => read_shift(alloc, text),
        "review" => read_review(alloc, text),
        "do" => read_do(alloc, text),
        "sync" => read_sync(alloc, text),
        "lose" => read_lose(alloc, text),
        "repeat" => read_repeat(alloc, text),
        "cross" => read_cross(alloc, text),
        "replay" => read_replay(alloc, text),
        "resend" => read_resend(text),
        "break" => read_break(alloc, text),
        "upload" => read_transfer(alloc, Direction::Upload, text),
        "download" => read_transfer(alloc, Direction::Download, text),
        "show" => read_show(alloc, text),
        "count" => read_count(alloc, text),
        "requests" => read_requests(alloc, text),
        _ => Err(LabLineFault::BadLine),
    }
}

/// What follows `clock`.
fn read_clock(text: &str) -> Result<LabLine, LabLineFault>
    ensures line { IfOk result (Reads (clock_line text.now)) }
    ensures bad { IfErr result (Refuses (clock_line text.now)) }
{
    match number_in(0, LAST_I64, text) {
        Some(at) => Ok(LabLine::Clock(at)),
        None => Err(LabLineFault::BadLine),
    }
}

/// What follows `device`.
fn read_device(alloc: Global, text: &str) -> Result<LabLine, LabLineFault>
    ensures line { IfOk result (Reads (device_line text.now)) }
    ensures bad { IfErr result (Refuses (device_line text.now)) }
{
    if !is_device_name(text) {
        return Err(LabLineFault::BadLine);
    }
    let name = Text::of(alloc, text)?;
    Ok(LabLine::Device(name))
}

/// What follows `shift`.
fn read_shift(alloc: Global, text: &str) -> Result<LabLine, LabLineFault>
    ensures line { IfOk result (Reads (shift_line text.now)) }
    ensures bad { IfErr result (Refuses (shift_line text.now)) }
{
    let Some((device, number)) = next_word(text) else {
        return Err(LabLineFault::BadLine);
    };
    let Some(by) = signed_number(number) else {
        return Err(LabLineFault::BadLine);
    };
    let device = Text::of(alloc, device)?;
    Ok(LabLine::Shift { device, by })
}

/// What follows `review`.
fn read_review(alloc: Global, text: &str) -> Result<LabLine, LabLineFault>
    ensures line { IfOk result (Reads (review_line text.now)) }
    ensures bad { IfErr result (Refuses (review_line text.now)) }
{
    match next_word(text) {
        Some((device, numbers)) => read_reviews(alloc, device, numbers),
        None => Err(LabLineFault::BadLine),
    }
}

/// The numbers of a `review` line.
fn read_reviews(alloc: Global, device: &str, text: &str) -> Result<LabLine, LabLineFault>
    ensures line { IfOk result (Reads (reviews_of device.now text.now)) }
    ensures bad { IfErr result (Refuses (reviews_of device.now text.now)) }
{
    let Some((card, rest)) = next_number(1, LAST_ID as u64, text) else {
        return Err(LabLineFault::BadLine);
    };
    let Some((ease, rest)) = next_number(1, 4, rest) else {
        return Err(LabLineFault::BadLine);
    };
    let Some(count) = number_in(1, 100_000, rest) else {
        return Err(LabLineFault::BadLine);
    };
    let device = Text::of(alloc, device)?;
    Ok(LabLine::Review {
        device,
        card,
        ease,
        count: count.unsigned_abs(),
    })
}

/// What follows `do`.
fn read_do(alloc: Global, text: &str) -> Result<LabLine, LabLineFault>
    ensures line { IfOk result (Reads (do_line text.now)) }
    ensures bad { IfErr result (Refuses (do_line text.now)) }
{
    let Some((device, line)) = next_word(text) else {
        return Err(LabLineFault::BadLine);
    };
    let device = Text::of(alloc, device)?;
    let line = Text::of(alloc, line)?;
    Ok(LabLine::Do { device, line })
}

/// What follows `sync`.
fn read_sync(alloc: Global, text: &str) -> Result<LabLine, LabLineFault>
    ensures line { IfOk result (Reads (sync_line text.now)) }
    ensures bad { IfErr result (Refuses (sync_line text.now)) }
{
    let Some(device) = word_of(text) else {
        return Err(LabLineFault::BadLine);
    };
    let device = Text::of(alloc, device)?;
    Ok(LabLine::Sync(device))
}

/// What follows `lose`.
fn read_lose(alloc: Global, text: &str) -> Result<LabLine, LabLineFault>
    ensures line { IfOk result (Reads (lose_line text.now)) }
    ensures bad { IfErr result (Refuses (lose_line text.now)) }
{
    match next_word(text) {
        Some((device, rest)) => read_losing(alloc, device, rest),
        None => Err(LabLineFault::BadLine),
    }
}

/// The call of a `lose` line, and what of it is lost.
fn read_losing(alloc: Global, device: &str, text: &str) -> Result<LabLine, LabLineFault>
    ensures line { IfOk result (Reads (losing_of device.now text.now)) }
    ensures bad { IfErr result (Refuses (losing_of device.now text.now)) }
{
    let Some((call, word)) = next_number(0, LAST_I64, text) else {
        return Err(LabLineFault::BadLine);
    };
    let Some(what) = lost_of(word) else {
        return Err(LabLineFault::BadLine);
    };
    let device = Text::of(alloc, device)?;
    Ok(LabLine::Disturb {
        device,
        call: call.unsigned_abs(),
        what,
    })
}

/// What follows `repeat`.
fn read_repeat(alloc: Global, text: &str) -> Result<LabLine, LabLineFault>
    ensures line { IfOk result (Reads (repeat_line text.now)) }
    ensures bad { IfErr result (Refuses (repeat_line text.now)) }
{
    let Some((device, number)) = next_word(text) else {
        return Err(LabLineFault::BadLine);
    };
    let Some(call) = number_in(0, LAST_I64, number) else {
        return Err(LabLineFault::BadLine);
    };
    let device = Text::of(alloc, device)?;
    Ok(LabLine::Disturb {
        device,
        call: call.unsigned_abs(),
        what: What::Repeat,
    })
}

/// What follows `cross`.
fn read_cross(alloc: Global, text: &str) -> Result<LabLine, LabLineFault>
    ensures line { IfOk result (Reads (cross_line text.now)) }
    ensures bad { IfErr result (Refuses (cross_line text.now)) }
{
    match next_word(text) {
        Some((device, rest)) => read_crossing(alloc, device, rest),
        None => Err(LabLineFault::BadLine),
    }
}

/// The call of a `cross` line, and the other device.
fn read_crossing(alloc: Global, device: &str, text: &str) -> Result<LabLine, LabLineFault>
    ensures line { IfOk result (Reads (crossing_of device.now text.now)) }
    ensures bad { IfErr result (Refuses (crossing_of device.now text.now)) }
{
    let Some((call, rest)) = next_number(0, LAST_I64, text) else {
        return Err(LabLineFault::BadLine);
    };
    let Some(other) = another_word(device, rest) else {
        return Err(LabLineFault::BadLine);
    };
    let device = Text::of(alloc, device)?;
    let other = Text::of(alloc, other)?;
    Ok(LabLine::Cross {
        device,
        call: call.unsigned_abs(),
        other,
    })
}

/// What follows `replay`.
fn read_replay(alloc: Global, text: &str) -> Result<LabLine, LabLineFault>
    ensures line { IfOk result (Reads (replay_line text.now)) }
    ensures bad { IfErr result (Refuses (replay_line text.now)) }
{
    match next_word(text) {
        Some((device, numbers)) => read_replaying(alloc, device, numbers),
        None => Err(LabLineFault::BadLine),
    }
}

/// The numbers of a `replay` line.
fn read_replaying(alloc: Global, device: &str, text: &str) -> Result<LabLine, LabLineFault>
    ensures line { IfOk result (Reads (replaying_of device.now text.now)) }
    ensures bad { IfErr result (Refuses (replaying_of device.now text.now)) }
{
    let Some((call, rest)) = next_number(0, LAST_I64, text) else {
        return Err(LabLineFault::BadLine);
    };
    let Some((from, rest)) = next_number(0, LAST_I64, rest) else {
        return Err(LabLineFault::BadLine);
    };
    let Some(count) = number_in(0, LAST_I64, rest) else {
        return Err(LabLineFault::BadLine);
    };
    let device = Text::of(alloc, device)?;
    Ok(LabLine::Replay {
        device,
        call: call.unsigned_abs(),
        from: from.unsigned_abs(),
        count: count.unsigned_abs(),
    })
}

/// What follows `resend`.
fn read_resend(text: &str) -> Result<LabLine, LabLineFault>
    ensures line { IfOk result (Reads (resend_line text.now)) }
    ensures bad { IfErr result (Refuses (resend_line text.now)) }
{
    let Some((from, rest)) = next_number(0, LAST_I64, text) else {
        return Err(LabLineFault::BadLine);
    };
    let Some(count) = number_in(0, LAST_I64, rest) else {
        return Err(LabLineFault::BadLine);
    };
    Ok(LabLine::Resend {
        from: from.unsigned_abs(),
        count: count.unsigned_abs(),
    })
}

/// What follows `break`.
fn read_break(alloc: Global, text: &str) -> Result<LabLine, LabLineFault>
    ensures line { IfOk result (Reads (break_line text.now)) }
    ensures bad { IfErr result (Refuses (break_line text.now)) }
{
    let Some(word) = word_of(text) else {
        return Err(LabLineFault::BadLine);
    };
    let side = side_of(alloc, word)?;
    Ok(LabLine::Break(side))
}

/// What follows `upload` or `download`.
fn read_transfer(alloc: Global, direction: Direction, text: &str) -> Result<LabLine, LabLineFault>
    ensures line { IfOk result (Reads (transfer_line direction text.now)) }
    ensures bad { IfErr result (Refuses (transfer_line direction text.now)) }
{
    let Some(device) = word_of(text) else {
        return Err(LabLineFault::BadLine);
    };
    let device = Text::of(alloc, device)?;
    Ok(LabLine::Transfer { direction, device })
}

/// What follows `show`.
fn read_show(alloc: Global, text: &str) -> Result<LabLine, LabLineFault>
    ensures line { IfOk result (Reads (show_line text.now)) }
    ensures bad { IfErr result (Refuses (show_line text.now)) }
{
    let Some((side, table)) = next_word(text) else {
        return Err(LabLineFault::BadLine);
    };
    let Some(what) = shown_of(table) else {
        return Err(LabLineFault::BadLine);
    };
    let side = side_of(alloc, side)?;
    Ok(LabLine::Show { side, what })
}

/// What follows `count`.
fn read_count(alloc: Global, text: &str) -> Result<LabLine, LabLineFault>
    ensures line { IfOk result (Reads (count_line text.now)) }
    ensures bad { IfErr result (Refuses (count_line text.now)) }
{
    let Some(side) = word_of(text) else {
        return Err(LabLineFault::BadLine);
    };
    let side = side_of(alloc, side)?;
    Ok(LabLine::Count(side))
}

/// What follows `requests`.
fn read_requests(alloc: Global, text: &str) -> Result<LabLine, LabLineFault>
    ensures line { IfOk result (Reads (requests_line text.now)) }
    ensures bad { IfErr result (Refuses (requests_line text.now)) }
{
    let Some(device) = word_of(text) else {
        return Err(LabLineFault::BadLine);
    };
    let device = Text::of(alloc, device)?;
    Ok(LabLine::Requests(device))
}

/// The side that a word names.
fn side_of(alloc: Global, word: &str) -> Result<Side, Memory>
    ensures { IfOk result (λ side. side ≡ side_of word.now) }
{
    if word == "server" {
        return Ok(Side::Server);
    }
    let name = Text::of(alloc, word)?;
    Ok(Side::Device(name))
}

/// The message of a call that a word names, lost.
fn lost_of(word: &str) -> Option<What>
    ensures { result ≡ lost_of word.now }
{
    match word {
        "request" => Some(What::LoseRequest),
        "reply" => Some(What::LoseReply),
        _ => None,
    }
}

/// What of a side a word names.
fn shown_of(word: &str) -> Option<Shown>
    ensures { result ≡ shown_of word.now }
{
    match word {
        "notes" => Some(Shown::Rows(Table::Note)),
        "cards" => Some(Shown::Rows(Table::Card)),
        "reviews" => Some(Shown::Rows(Table::Review)),
        "types" => Some(Shown::Rows(Table::NoteType)),
        "decks" => Some(Shown::Rows(Table::Deck)),
        "options" => Some(Shown::Rows(Table::Options)),
        "graves" => Some(Shown::Graves),
        "head" => Some(Shown::Head),
        _ => None,
    }
}
