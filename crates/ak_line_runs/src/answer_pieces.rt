// How an answer is printed, also if there is no memory for its text.
ghost use Rattle.std.specs.Prelude.{[], ◌∷◌, ◌++◌, OnOk, OnErr, codes, decimal, length};
ghost use Rattle.std.specs.Fmt.{signed_decimal};
ghost use Rattle.std.specs.Io.KnownBytes.{Appends};
ghost use Rattle.ak_desk_texts.specs.AnswerTexts.{answer_text, answered_text, check_fault_text, counts_text, ids_text, note_text};
ghost use Rattle.ak_faults.specs.Causes.{HasCause};
ghost use Rattle.ak_io.specs.Scripts.{AppendsPart};

use ak_base::Memory;
use ak_desk_texts::{DeskAnswer, write_answer};
use ak_io::{Failed, Sink, print_line, write_all};
use ak_merge::CheckFault;
use itoa::{Buffer, Integer};
use std::alloc::Global;

/// Prints the text of an answer as a line: at once, or piece by piece if memory is out for it.
pub(crate) fn print_answer_line<O: Sink>(
    alloc: Global,
    answer: &DeskAnswer,
    out: &mut O,
) -> Result<(), Failed>
    ensures ok { OnOk result (Appends (O.written out.old) (O.written out.new) (answer_text answer.now ++ 10 ∷ [])) }
    ensures part { OnErr result (AppendsPart (O.written out.old) (O.written out.new) (answer_text answer.now ++ 10 ∷ [])) }
    ensures cause { HasCause (O.health out.old) (O.health out.new) result }
{
    match write_answer(alloc, answer) {
        Ok(text) => print_line(out, text.as_str().as_bytes()),
        // The line is done: to end for want of memory here would leave it done without an answer.
        Err(Memory) => print_pieces(answer, out),
    }
}

/// Prints the text of an answer as a line, piece by piece. It takes no memory.
fn print_pieces<O: Sink>(answer: &DeskAnswer, out: &mut O) -> Result<(), Failed>
    ensures ok { OnOk result (Appends (O.written out.old) (O.written out.new) (answer_text answer.now ++ 10 ∷ [])) }
    ensures part { OnErr result (AppendsPart (O.written out.old) (O.written out.new) (answer_text answer.now ++ 10 ∷ [])) }
    ensures cause { HasCause (O.health out.old) (O.health out.new) result }
{
    put_answer(answer, out)?;
    write_all(out, b"\n")
}

/// Writes the text of an answer.
fn put_answer<O: Sink>(answer: &DeskAnswer, out: &mut O) -> Result<(), Failed>
    ensures ok { OnOk result (Appends (O.written out.old) (O.written out.new) (answer_text answer.now)) }
    ensures part { OnErr result (AppendsPart (O.written out.old) (O.written out.new) (answer_text answer.now)) }
    ensures cause { HasCause (O.health out.old) (O.health out.new) result }
{
    match answer {
        DeskAnswer::Done => write_all(out, b"ok"),
        DeskAnswer::AddedNote { note, cards } => put_note(note, cards.as_slice(), out),
        DeskAnswer::AddedDeck(deck) => put_id("deck ", deck, out),
        DeskAnswer::PutOptions(options) => put_id("options ", options, out),
        DeskAnswer::AddedType(note_type) => put_id("type ", note_type, out),
        DeskAnswer::Answered {
            queue,
            due,
            interval,
        } => put_answered(queue, due, interval, out),
        DeskAnswer::Next(Some(card)) => put_id("card ", card, out),
        DeskAnswer::Next(None) => write_all(out, b"none"),
        DeskAnswer::Counts {
            new_cards,
            learning,
            reviews,
        } => put_counts(*new_cards, *learning, *reviews, out),
        DeskAnswer::Found(cards) => put_found(cards.as_slice(), out),
        DeskAnswer::Page(text) => write_all(out, text.as_str().as_bytes()),
        DeskAnswer::Checked(Some(fault)) => put_fault(fault, out),
        DeskAnswer::Checked(None) => write_all(out, b"sound"),
        DeskAnswer::Built(count) => put_number("built ", *count, out),
        DeskAnswer::Emptied(count) => put_number("emptied ", *count, out),
    }
}

/// Writes the ids of a note that was added and of its cards.
fn put_note<O: Sink>(note: &i64, cards: &[i64], out: &mut O) -> Result<(), Failed>
    ensures ok { OnOk result (Appends (O.written out.old) (O.written out.new) (note_text note.now cards.now)) }
    ensures part { OnErr result (AppendsPart (O.written out.old) (O.written out.new) (note_text note.now cards.now)) }
    ensures cause { HasCause (O.health out.old) (O.health out.new) result }
{
    put_id("note ", note, out)?;
    write_all(out, b" cards")?;
    put_ids(cards, out)
}

/// Writes where a card is after its answer.
fn put_answered<O: Sink>(queue: &i64, due: &i64, interval: &i64, out: &mut O) -> Result<(), Failed>
    ensures ok { OnOk result (Appends (O.written out.old) (O.written out.new) (answered_text queue.now due.now interval.now)) }
    ensures part { OnErr result (AppendsPart (O.written out.old) (O.written out.new) (answered_text queue.now due.now interval.now)) }
    ensures cause { HasCause (O.health out.old) (O.health out.new) result }
{
    put_id("answered queue ", queue, out)?;
    put_id(" due ", due, out)?;
    put_id(" ivl ", interval, out)
}

/// Writes how many cards are left.
fn put_counts<O: Sink>(
    new_cards: u64,
    learning: u64,
    reviews: u64,
    out: &mut O,
) -> Result<(), Failed>
    ensures ok { OnOk result (Appends (O.written out.old) (O.written out.new) (counts_text new_cards learning reviews)) }
    ensures part { OnErr result (AppendsPart (O.written out.old) (O.written out.new) (counts_text new_cards learning reviews)) }
    ensures cause { HasCause (O.health out.old) (O.health out.new) result }
{
    put_number("new ", new_cards, out)?;
    put_number(" learning ", learning, out)?;
    put_number(" review ", reviews, out)
}

/// Writes how many cards were found, and their ids.
fn put_found<O: Sink>(cards: &[i64], out: &mut O) -> Result<(), Failed>
    ensures ok { OnOk result (Appends (O.written out.old) (O.written out.new)
        (codes "found " ++ decimal (length cards.now) ++ ids_text cards.now)) }
    ensures part { OnErr result (AppendsPart (O.written out.old) (O.written out.new)
        (codes "found " ++ decimal (length cards.now) ++ ids_text cards.now)) }
    ensures cause { HasCause (O.health out.old) (O.health out.new) result }
{
    put_number("found ", cards.len() as u64, out)?;
    put_ids(cards, out)
}

/// Writes each id with a space before it.
fn put_ids<O: Sink>(ids: &[i64], out: &mut O) -> Result<(), Failed>
    ensures ok { OnOk result (Appends (O.written out.old) (O.written out.new) (ids_text ids.now)) }
    ensures part { OnErr result (AppendsPart (O.written out.old) (O.written out.new) (ids_text ids.now)) }
    ensures cause { HasCause (O.health out.old) (O.health out.new) result }
{
    for id in ids {
        put_id(" ", id, out)?;
    }
    Ok(())
}

/// Writes the first fault of a collection.
fn put_fault<O: Sink>(fault: &CheckFault, out: &mut O) -> Result<(), Failed>
    ensures ok { OnOk result (Appends (O.written out.old) (O.written out.new) (check_fault_text fault.now)) }
    ensures part { OnErr result (AppendsPart (O.written out.old) (O.written out.new) (check_fault_text fault.now)) }
    ensures cause { HasCause (O.health out.old) (O.health out.new) result }
{
    match fault {
        CheckFault::CardNoNote(card) => put_between("card ", card, " without note", out),
        CheckFault::NoteNoCard(note) => put_between("note ", note, " without card", out),
        CheckFault::NoteNoType(note) => put_between("note ", note, " without type", out),
        CheckFault::CardNoTemplate(card) => put_between("card ", card, " without template", out),
    }
}

/// Writes the id between two texts.
fn put_between<O: Sink>(before: &str, id: &i64, after: &str, out: &mut O) -> Result<(), Failed>
    ensures ok { OnOk result (Appends (O.written out.old) (O.written out.new) ((before.now ++ signed_decimal id.now) ++ after.now)) }
    ensures part { OnErr result (AppendsPart (O.written out.old) (O.written out.new) ((before.now ++ signed_decimal id.now) ++ after.now)) }
    ensures cause { HasCause (O.health out.old) (O.health out.new) result }
{
    put_id(before, id, out)?;
    write_all(out, after.as_bytes())
}

/// Writes the words and the id after them. That it takes a reference is for the proof alone.
fn put_id<O: Sink>(words: &str, id: &i64, out: &mut O) -> Result<(), Failed>
    ensures ok { OnOk result (Appends (O.written out.old) (O.written out.new) (words.now ++ signed_decimal id.now)) }
    ensures part { OnErr result (AppendsPart (O.written out.old) (O.written out.new) (words.now ++ signed_decimal id.now)) }
    ensures cause { HasCause (O.health out.old) (O.health out.new) result }
{
    put_number(words, *id, out)
}

/// Writes the words and the number after them.
fn put_number<I: Integer, O: Sink>(words: &str, number: I, out: &mut O) -> Result<(), Failed>
    ensures ok { OnOk result (Appends (O.written out.old) (O.written out.new) (words.now ++ I.text number)) }
    ensures part { OnErr result (AppendsPart (O.written out.old) (O.written out.new) (words.now ++ I.text number)) }
    ensures cause { HasCause (O.health out.old) (O.health out.new) result }
{
    write_all(out, words.as_bytes())?;
    put_digits(number, out)
}

/// Writes a number in decimal.
fn put_digits<I: Integer, O: Sink>(number: I, out: &mut O) -> Result<(), Failed>
    ensures ok { OnOk result (Appends (O.written out.old) (O.written out.new) (I.text number)) }
    ensures part { OnErr result (AppendsPart (O.written out.old) (O.written out.new) (I.text number)) }
    ensures cause { HasCause (O.health out.old) (O.health out.new) result }
{
    let mut buffer = Buffer::new();
    write_all(out, buffer.format(number).as_bytes())
}
