use crate::words::push_quoted;
use ak_base::{List, Text};
use ak_desk_language::{AnyLine, DeskLine, LineFault, read_line};
use ak_desk_texts::write_line_fault;
use cases_lines::{Unread, listed, quoted};
use std::alloc::Global;

/// `desk LINE`: what the desk line says, or why it is refused.
pub fn desk_line(alloc: Global, line: &str) -> Result<String, Unread> {
    match read_line(alloc, line) {
        Ok(line) => any_said(alloc, &line),
        Err(fault) => refused(alloc, &fault),
    }
}

fn any_said(alloc: Global, line: &AnyLine) -> Result<String, Unread> {
    match line {
        AnyLine::Single(line) => said(alloc, line),
        AnyLine::Filter {
            name,
            search,
            limit,
            order,
        } => {
            let name = quoted(alloc, name.as_str())?;
            let search = quoted(alloc, search.as_str())?;
            Ok(format!(in alloc; "filter {name} {search} {limit} {order}")?)
        },
        AnyLine::Build(deck) => numbered(alloc, "build", *deck),
        AnyLine::Empty(deck) => numbered(alloc, "empty", *deck),
    }
}

fn refused(alloc: Global, fault: &LineFault) -> Result<String, Unread> {
    match write_line_fault(alloc, fault)? {
        Some(text) => {
            let text = text.as_str();
            Ok(format!(in alloc; "refused: {text}")?)
        },
        None => Err(Unread::Ended),
    }
}

fn said(alloc: Global, line: &DeskLine) -> Result<String, Unread> {
    match line {
        DeskLine::AddNote {
            note_type,
            deck,
            fields,
        } => {
            let fields = texts(alloc, fields)?;
            Ok(format!(in alloc; "note {note_type} {deck} {fields}")?)
        },
        DeskLine::SetFields { note, fields } => {
            let fields = texts(alloc, fields)?;
            Ok(format!(in alloc; "fields {note} {fields}")?)
        },
        DeskLine::SetTags { note, tags } => {
            let tags = texts(alloc, tags)?;
            Ok(format!(in alloc; "tags {note} {tags}")?)
        },
        DeskLine::RenameDeck { deck, name } => {
            let name = quoted(alloc, name.as_str())?;
            Ok(format!(in alloc; "rename {deck} {name}")?)
        },
        DeskLine::UseOptions { deck, options } => Ok(format!(in alloc; "adopt {deck} {options}")?),
        DeskLine::AddDeck(name) => {
            let name = quoted(alloc, name.as_str())?;
            Ok(format!(in alloc; "deck {name}")?)
        },
        DeskLine::Answer {
            card,
            button,
            taken,
        } => { Ok(format!(in alloc; "answer {card} {button} {taken}")?) },
        DeskLine::Find(_) => Ok(String::from_str(alloc, "find")?),
        DeskLine::Page { card, back } => {
            let side = if *back { "back" } else { "front" };
            Ok(format!(in alloc; "page {card} {side}")?)
        },
        DeskLine::Mute(filter) => {
            let filter = quoted(alloc, filter.as_str())?;
            Ok(format!(in alloc; "mute {filter}")?)
        },
        DeskLine::Undo => Ok(String::from_str(alloc, "undo")?),
        DeskLine::Check => Ok(String::from_str(alloc, "check")?),
        DeskLine::DeleteDeck(deck) => numbered(alloc, "drop", *deck),
        DeskLine::SetSpread(spread) => numbered(alloc, "spread", *spread),
        DeskLine::Next(deck) => numbered(alloc, "next", *deck),
        DeskLine::Counts(deck) => numbered(alloc, "counts", *deck),
        _ => of_schema(alloc, line),
    }
}

fn of_schema(alloc: Global, line: &DeskLine) -> Result<String, Unread> {
    match line {
        DeskLine::AddOptions(options) => {
            let name = options.name.as_str();
            Ok(format!(in alloc; "options added {name}")?)
        },
        DeskLine::SetOptions(options) => {
            let id = options.id;
            let name = options.name.as_str();
            Ok(format!(in alloc; "options set {id} {name}")?)
        },
        DeskLine::AddType(note_type) => {
            let id = note_type.id;
            let name = note_type.name.as_str();
            Ok(format!(in alloc; "type {id} {name}")?)
        },
        DeskLine::EditType {
            allow,
            note_type,
            fields,
            templates,
        } => {
            let word = asked(*allow);
            let id = note_type.id;
            let fields = places(alloc, fields)?;
            let templates = places(alloc, templates)?;
            Ok(format!(in alloc; "retype {word} {id} {fields} {templates}")?)
        },
        DeskLine::DeleteType { allow, note_type } => {
            let word = asked(*allow);
            Ok(format!(in alloc; "untype {word} {note_type}")?)
        },
        DeskLine::DeleteOptions { allow, options } => {
            let word = asked(*allow);
            Ok(format!(in alloc; "unoptions {word} {options}")?)
        },
        _ => of_cards(alloc, line),
    }
}

fn asked(allow: bool) -> &'static str {
    if allow { "allow" } else { "ask" }
}

fn of_cards(alloc: Global, line: &DeskLine) -> Result<String, Unread> {
    match line {
        DeskLine::DeleteNotes(notes) => {
            let ids = listed(alloc, notes.as_slice())?;
            Ok(format!(in alloc; "delete {ids}")?)
        },
        DeskLine::MoveCards { deck, cards } => {
            let ids = listed(alloc, cards.as_slice())?;
            Ok(format!(in alloc; "move {deck} {ids}")?)
        },
        DeskLine::Suspend(cards) => {
            let ids = listed(alloc, cards.as_slice())?;
            Ok(format!(in alloc; "suspend {ids}")?)
        },
        DeskLine::Unsuspend(cards) => {
            let ids = listed(alloc, cards.as_slice())?;
            Ok(format!(in alloc; "unsuspend {ids}")?)
        },
        DeskLine::Bury(cards) => {
            let ids = listed(alloc, cards.as_slice())?;
            Ok(format!(in alloc; "bury {ids}")?)
        },
        DeskLine::Flag { value, cards } => {
            let ids = listed(alloc, cards.as_slice())?;
            Ok(format!(in alloc; "flag {value} {ids}")?)
        },
        _ => Err(Unread::Bad),
    }
}

fn numbered(alloc: Global, word: &str, number: i64) -> Result<String, Unread> {
    Ok(format!(in alloc; "{word} {number}")?)
}

/// The list of texts as JSON.
fn texts(alloc: Global, texts: &List<Text>) -> Result<String, Unread> {
    let mut made = String::new(alloc);
    made.push('[')?;
    for (place, text) in texts.as_slice().iter().enumerate() {
        if place > 0 {
            made.push(',')?;
        }
        push_quoted(alloc, &mut made, text.as_str())?;
    }
    made.push(']')?;
    Ok(made)
}

fn places(alloc: Global, places: &List<Option<u16>>) -> Result<String, Unread> {
    let mut made = String::new(alloc);
    made.push('[')?;
    for (place, entry) in places.as_slice().iter().enumerate() {
        let comma = if place > 0 { "," } else { "" };
        let text = match entry {
            Some(old) => format!(in alloc; "{comma}{old}")?,
            None => format!(in alloc; "{comma}null")?,
        };
        made.push_str(text.as_str())?;
    }
    made.push(']')?;
    Ok(made)
}
