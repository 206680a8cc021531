use crate::Unread;
use ak_base::cut;
use ak_io::{Line, LineReader, Sink, Source, print_line};
use std::alloc::Global;
use std::str;

/// The most copies that a line may ask for.
const MOST_COPIES: i64 = 2_000_000;

/// What answers commands.
pub trait Answers {
    /// The answer to a command with the rest of its line.
    fn answer(&mut self, alloc: Global, word: &str, rest: &str) -> Result<String, Unread>;
}

/// Prints a line for each line of the input: empty lines and those that begin with `#` as they are.
pub fn print_answers<A: Answers, I: Source, O: Sink>(
    alloc: Global,
    answers: &mut A,
    input: &mut I,
    out: &mut O,
) -> Result<(), Unread> {
    let mut reader = LineReader::new(alloc)?;
    for _ in 0..u64::MAX {
        match reader.next(input)? {
            Some(Line::Whole(line)) => print_answer(alloc, answers, line.as_slice(), out)?,
            Some(_) => return Err(Unread::Bad),
            None => return Ok(()),
        }
    }
    Ok(())
}

fn print_answer<A: Answers, O: Sink>(
    alloc: Global,
    answers: &mut A,
    line: &[u8],
    out: &mut O,
) -> Result<(), Unread> {
    if line.is_empty() || line.starts_with(b"#") {
        print_line(out, line)?;
        return Ok(());
    }
    let answer = answer_line(alloc, answers, line)?;
    print_line(out, answer.as_bytes())?;
    Ok(())
}

/// The answer to a line, `bad line` where it is no command of the table.
fn answer_line<A: Answers>(alloc: Global, answers: &mut A, line: &[u8]) -> Result<String, Unread> {
    match str::from_utf8(line) {
        Ok(text) => told(alloc, answer_text(alloc, answers, text)),
        Err(_) => told(alloc, Err(Unread::Bad)),
    }
}

fn told(alloc: Global, answer: Result<String, Unread>) -> Result<String, Unread> {
    match answer {
        Err(Unread::Bad) => Ok(String::from_str(alloc, "bad line")?),
        other => other,
    }
}

fn answer_text<A: Answers>(alloc: Global, answers: &mut A, text: &str) -> Result<String, Unread> {
    let whole = assembled(alloc, text)?;
    match cut(whole.as_str(), " ") {
        Some((word, rest)) => answers.answer(alloc, word, rest),
        None => Err(Unread::Bad),
    }
}

/// The text with each `@(N,X)` in it put as N copies of X.
fn assembled(alloc: Global, text: &str) -> Result<String, Unread> {
    let mut made = String::new(alloc);
    for (place, part) in text.split("@(").enumerate() {
        if place == 0 {
            made.push_str(part)?;
        } else {
            push_copies(&mut made, part)?;
        }
    }
    Ok(made)
}

fn push_copies(made: &mut String, part: &str) -> Result<(), Unread> {
    let (copies, rest) = cut(part, ")").ok_or(Unread::Bad)?;
    let (number, copied) = cut(copies, ",").ok_or(Unread::Bad)?;
    for _ in 0..number_of(number)? {
        made.push_str(copied)?;
    }
    made.push_str(rest)?;
    Ok(())
}

fn number_of(text: &str) -> Result<i64, Unread> {
    match text.parse::<i64>() {
        Ok(number) if number <= MOST_COPIES => Ok(number),
        _ => Err(Unread::Bad),
    }
}
