ghost use Rattle.std.specs.Prelude.{◌≡◌, IfOk, IfErr, Some, true, false};
ghost use Rattle.ak_desk_language.specs.DeskLines.{is_skipped, SaysLine, IsInRange, RefusesLine};
ghost use Rattle.ak_desk_language.specs.Reading.{form_of, lone_form, allowed_form, words_form, verb_form, ReadsForm, RefusesForm};
ghost use Rattle.ak_desk_language.specs.declared.verbs.Verb.TheVariants as verbs;

use crate::LineFault;
use crate::contents::{read_options, read_search, read_texts, read_type, read_type_with_maps};
use crate::numbers::{id_in, ids_in, next_id, next_number, number_in};
use crate::verbs::{Verb, allowed_verb_of, lone_verb_of, verb_of};
use ak_base::{List, NoteType, Options, Text, cut};
use ak_search::Expr;
use std::alloc::Global;

/// A line of the desk, read, that is one call there. Ids are from 0 to the last number that fits 64 bits with its
/// sign; whether they are in the range of ids, and what they name is there, is not asked.
#[derive(Debug, Drop)]
pub enum DeskLine {
    /// `note <type> <deck> <fields>`: adds a note with these fields and no tags.
    AddNote {
        note_type: i64,
        deck: i64,
        fields: List<Text>,
    },
    /// `fields <note> <fields>`: gives a note other fields.
    SetFields {
        note: i64,
        fields: List<Text>,
    },
    /// `tags <note> <tags>`: gives a note other tags.
    SetTags {
        note: i64,
        tags: List<Text>,
    },
    /// `delete <notes>`
    DeleteNotes(List<i64>),
    /// `drop <deck>`
    DeleteDeck(i64),
    /// `rename <deck> <name>`
    RenameDeck {
        deck: i64,
        name: Text,
    },
    /// `move <deck> <cards>`
    MoveCards {
        deck: i64,
        cards: List<i64>,
    },
    /// `adopt <deck> <options>`
    UseOptions {
        deck: i64,
        options: i64,
    },
    /// `spread <n>`, from 0 to 2.
    SetSpread(i64),
    /// `deck <name>`
    AddDeck(Text),
    /// `options <object>` with the id 0: the group is to be added. Its id here is 1 and means nothing.
    AddOptions(Options),
    /// `options <object>` with any other id: the group of that id is to be this one.
    SetOptions(Options),
    /// `type <object>`: adds a note type. Its id is in the range of ids and means nothing.
    AddType(NoteType),
    /// `retype [<object>,<fields map>,<templates map>]`, after `allow` or not: a note type is to be this one. For
    /// each of its fields and templates the place of the old one, from 0, or None if it is new.
    EditType {
        allow: bool,
        note_type: NoteType,
        fields: List<Option<u16>>,
        templates: List<Option<u16>>,
    },
    /// `untype <type>`, after `allow` or not.
    DeleteType {
        allow: bool,
        note_type: i64,
    },
    /// `unoptions <options>`, after `allow` or not.
    DeleteOptions {
        allow: bool,
        options: i64,
    },
    /// `answer <card> <button> <ms>`: a button is 1 to 4; the time is in milliseconds.
    Answer {
        card: i64,
        button: u8,
        taken: u32,
    },
    /// `next <deck>`
    Next(i64),
    /// `counts <deck>`
    Counts(i64),
    /// `find <expression>`
    Find(Expr),
    /// `page <card> front`, `page <card> back`
    Page {
        card: i64,
        back: bool,
    },
    /// `mute <filter>`
    Mute(Text),
    /// `suspend <cards>`
    Suspend(List<i64>),
    /// `unsuspend <cards>`
    Unsuspend(List<i64>),
    /// `bury <cards>`
    Bury(List<i64>),
    /// `flag <n> <cards>`: a flag is 0 to 7.
    Flag {
        value: i64,
        cards: List<i64>,
    },
    /// `undo`
    Undo,
    /// `check`
    Check,
}

/// Whether a line says nothing and is passed over: it is empty, or begins with `#`. Whether it is too long, or no
/// text, is asked before: a line that begins with `#` is refused for that too.
pub fn is_skipped(line: &[u8]) -> bool
    ensures { result ≡ is_skipped line.now }
{
    match line {
        [] => true,
        [first, ..] => *first == b'#',
    }
}

/// Reads a line that is one call. Its words are tested first: one space stands between two of them, numbers have no
/// sign and no leading zero, and a name, a search or a JSON text goes to the end. Then the JSON or the search is
/// read, from left to right.
pub(crate) fn read_single_line(alloc: Global, line: &str) -> Result<DeskLine, LineFault>
    ensures ok { IfOk result (SaysLine line.now) }
    ensures range { IfOk result IsInRange }
    ensures err { IfErr result (RefusesLine line.now) }
{
    read_form(alloc, line)
}

/// The line, by its form.
fn read_form(alloc: Global, line: &str) -> Result<DeskLine, LineFault>
    ensures ok { IfOk result (ReadsForm (form_of line.now)) }
    ensures err { IfErr result (RefusesForm (form_of line.now)) }
{
    match cut(line, " ") {
        Some((word, rest)) => read_words(alloc, word, rest),
        None => read_lone(line),
    }
}

/// A line of one word.
fn read_lone(line: &str) -> Result<DeskLine, LineFault>
    ensures ok { IfOk result (ReadsForm (lone_form line.now)) }
    ensures err { IfErr result (RefusesForm (lone_form line.now)) }
{
    match lone_verb_of(line) {
        Some(Verb::Undo) => Ok(DeskLine::Undo),
        Some(Verb::Check) => Ok(DeskLine::Check),
        _ => Err(LineFault::BadLine),
    }
}

/// A line of a word and what follows the space after it.
fn read_words(alloc: Global, word: &str, rest: &str) -> Result<DeskLine, LineFault>
    ensures ok { IfOk result (ReadsForm (words_form word.now rest.now)) }
    ensures err { IfErr result (RefusesForm (words_form word.now rest.now)) }
{
    if word == "allow" {
        return read_allowed(alloc, rest);
    }
    match verb_of(word) {
        Some(verb) => read_arguments(alloc, verb, rest),
        None => Err(LineFault::BadLine),
    }
}

/// What follows `allow`.
fn read_allowed(alloc: Global, text: &str) -> Result<DeskLine, LineFault>
    ensures ok { IfOk result (ReadsForm (allowed_form text.now)) }
    ensures err { IfErr result (RefusesForm (allowed_form text.now)) }
{
    let Some((word, rest)) = cut(text, " ") else {
        return Err(LineFault::BadLine);
    };
    match allowed_verb_of(word) {
        Some(Verb::Retype) => read_retype(alloc, true, rest),
        Some(Verb::Untype) => read_untype(true, rest),
        Some(Verb::Unoptions) => read_unoptions(true, rest),
        _ => Err(LineFault::BadLine),
    }
}

/// The line of a verb, without `allow`, and of its arguments.
fn read_arguments(alloc: Global, verb: Verb, text: &str) -> Result<DeskLine, LineFault>
    ensures ok { IfOk result (ReadsForm (verb_form false verb text.now)) }
    ensures err { IfErr result (RefusesForm (verb_form false verb text.now)) }
{
    match verb {
        Verb::Note => read_note(alloc, text),
        Verb::Fields => read_fields(alloc, text),
        Verb::Tags => read_tags(alloc, text),
        Verb::Delete => read_delete(alloc, text),
        Verb::Drop => read_drop(text),
        Verb::Rename => read_rename(alloc, text),
        Verb::Move => read_move(alloc, text),
        Verb::Adopt => read_adopt(text),
        Verb::Spread => read_spread(text),
        Verb::Deck => read_deck(alloc, text),
        Verb::Options => read_option_group(alloc, text),
        Verb::Type => read_new_type(alloc, text),
        Verb::Retype => read_retype(alloc, false, text),
        Verb::Untype => read_untype(false, text),
        Verb::Unoptions => read_unoptions(false, text),
        Verb::Answer => read_answer(text),
        Verb::Next => read_next(text),
        Verb::Counts => read_counts(text),
        Verb::Find => read_find(alloc, text),
        Verb::Page => read_page(text),
        Verb::Mute => read_mute(alloc, text),
        Verb::Suspend => read_suspend(alloc, text),
        Verb::Unsuspend => read_unsuspend(alloc, text),
        Verb::Bury => read_bury(alloc, text),
        Verb::Flag => read_flag(alloc, text),
        Verb::Undo | Verb::Check => Err(LineFault::BadLine),
    }
}

/// What follows `note`.
fn read_note(alloc: Global, text: &str) -> Result<DeskLine, LineFault>
    ensures ok { IfOk result (ReadsForm (verb_form false verbs.Note text.now)) }
    ensures err { IfErr result (RefusesForm (verb_form false verbs.Note text.now)) }
{
    let Some((note_type, rest)) = next_id(text) else {
        return Err(LineFault::BadLine);
    };
    let Some((deck, json)) = next_id(rest) else {
        return Err(LineFault::BadLine);
    };
    let fields = read_texts(alloc, json)?;
    Ok(DeskLine::AddNote {
        note_type,
        deck,
        fields,
    })
}

/// What follows `fields`.
fn read_fields(alloc: Global, text: &str) -> Result<DeskLine, LineFault>
    ensures ok { IfOk result (ReadsForm (verb_form false verbs.Fields text.now)) }
    ensures err { IfErr result (RefusesForm (verb_form false verbs.Fields text.now)) }
{
    let Some((note, json)) = next_id(text) else {
        return Err(LineFault::BadLine);
    };
    let fields = read_texts(alloc, json)?;
    Ok(DeskLine::SetFields { note, fields })
}

/// What follows `tags`.
fn read_tags(alloc: Global, text: &str) -> Result<DeskLine, LineFault>
    ensures ok { IfOk result (ReadsForm (verb_form false verbs.Tags text.now)) }
    ensures err { IfErr result (RefusesForm (verb_form false verbs.Tags text.now)) }
{
    let Some((note, json)) = next_id(text) else {
        return Err(LineFault::BadLine);
    };
    let tags = read_texts(alloc, json)?;
    Ok(DeskLine::SetTags { note, tags })
}

/// What follows `delete`.
fn read_delete(alloc: Global, text: &str) -> Result<DeskLine, LineFault>
    ensures ok { IfOk result (ReadsForm (verb_form false verbs.Delete text.now)) }
    ensures err { IfErr result (RefusesForm (verb_form false verbs.Delete text.now)) }
{
    match ids_in(alloc, text)? {
        Some(ids) => Ok(DeskLine::DeleteNotes(ids)),
        None => Err(LineFault::BadLine),
    }
}

/// What follows `drop`.
fn read_drop(text: &str) -> Result<DeskLine, LineFault>
    ensures ok { IfOk result (ReadsForm (verb_form false verbs.Drop text.now)) }
    ensures err { IfErr result (RefusesForm (verb_form false verbs.Drop text.now)) }
{
    match id_in(text) {
        Some(deck) => Ok(DeskLine::DeleteDeck(deck)),
        None => Err(LineFault::BadLine),
    }
}

/// What follows `rename`.
fn read_rename(alloc: Global, text: &str) -> Result<DeskLine, LineFault>
    ensures ok { IfOk result (ReadsForm (verb_form false verbs.Rename text.now)) }
    ensures err { IfErr result (RefusesForm (verb_form false verbs.Rename text.now)) }
{
    let Some((deck, name)) = next_id(text) else {
        return Err(LineFault::BadLine);
    };
    let name = Text::of(alloc, name)?;
    Ok(DeskLine::RenameDeck { deck, name })
}

/// What follows `move`.
fn read_move(alloc: Global, text: &str) -> Result<DeskLine, LineFault>
    ensures ok { IfOk result (ReadsForm (verb_form false verbs.Move text.now)) }
    ensures err { IfErr result (RefusesForm (verb_form false verbs.Move text.now)) }
{
    let Some((deck, rest)) = next_id(text) else {
        return Err(LineFault::BadLine);
    };
    match ids_in(alloc, rest)? {
        Some(cards) => Ok(DeskLine::MoveCards { deck, cards }),
        None => Err(LineFault::BadLine),
    }
}

/// What follows `adopt`.
fn read_adopt(text: &str) -> Result<DeskLine, LineFault>
    ensures ok { IfOk result (ReadsForm (verb_form false verbs.Adopt text.now)) }
    ensures err { IfErr result (RefusesForm (verb_form false verbs.Adopt text.now)) }
{
    let Some((deck, rest)) = next_id(text) else {
        return Err(LineFault::BadLine);
    };
    match id_in(rest) {
        Some(options) => Ok(DeskLine::UseOptions { deck, options }),
        None => Err(LineFault::BadLine),
    }
}

/// What follows `spread`.
fn read_spread(text: &str) -> Result<DeskLine, LineFault>
    ensures ok { IfOk result (ReadsForm (verb_form false verbs.Spread text.now)) }
    ensures err { IfErr result (RefusesForm (verb_form false verbs.Spread text.now)) }
{
    match number_in(0, 2, text) {
        Some(spread) => Ok(DeskLine::SetSpread(spread)),
        None => Err(LineFault::BadLine),
    }
}

/// What follows `deck`.
fn read_deck(alloc: Global, text: &str) -> Result<DeskLine, LineFault>
    ensures ok { IfOk result (ReadsForm (verb_form false verbs.Deck text.now)) }
    ensures err { IfErr result (RefusesForm (verb_form false verbs.Deck text.now)) }
{
    let name = Text::of(alloc, text)?;
    Ok(DeskLine::AddDeck(name))
}

/// What follows `options`.
fn read_option_group(alloc: Global, text: &str) -> Result<DeskLine, LineFault>
    ensures ok { IfOk result (ReadsForm (verb_form false verbs.Options text.now)) }
    ensures err { IfErr result (RefusesForm (verb_form false verbs.Options text.now)) }
{
    let (is_new, options) = read_options(alloc, text)?;
    if is_new {
        return Ok(DeskLine::AddOptions(options));
    }
    Ok(DeskLine::SetOptions(options))
}

/// What follows `type`.
fn read_new_type(alloc: Global, text: &str) -> Result<DeskLine, LineFault>
    ensures ok { IfOk result (ReadsForm (verb_form false verbs.Type text.now)) }
    ensures err { IfErr result (RefusesForm (verb_form false verbs.Type text.now)) }
{
    let note_type = read_type(alloc, text)?;
    Ok(DeskLine::AddType(note_type))
}

/// What follows `retype`.
fn read_retype(alloc: Global, allow: bool, text: &str) -> Result<DeskLine, LineFault>
    ensures ok { IfOk result (ReadsForm (verb_form allow verbs.Retype text.now)) }
    ensures err { IfErr result (RefusesForm (verb_form allow verbs.Retype text.now)) }
{
    let made = read_type_with_maps(alloc, text)?;
    Ok(DeskLine::EditType {
        allow,
        note_type: made.note_type,
        fields: made.fields,
        templates: made.templates,
    })
}

/// What follows `untype`.
fn read_untype(allow: bool, text: &str) -> Result<DeskLine, LineFault>
    ensures ok { IfOk result (ReadsForm (verb_form allow verbs.Untype text.now)) }
    ensures err { IfErr result (RefusesForm (verb_form allow verbs.Untype text.now)) }
{
    match id_in(text) {
        Some(note_type) => Ok(DeskLine::DeleteType { allow, note_type }),
        None => Err(LineFault::BadLine),
    }
}

/// What follows `unoptions`.
fn read_unoptions(allow: bool, text: &str) -> Result<DeskLine, LineFault>
    ensures ok { IfOk result (ReadsForm (verb_form allow verbs.Unoptions text.now)) }
    ensures err { IfErr result (RefusesForm (verb_form allow verbs.Unoptions text.now)) }
{
    match id_in(text) {
        Some(options) => Ok(DeskLine::DeleteOptions { allow, options }),
        None => Err(LineFault::BadLine),
    }
}

/// What follows `answer`.
fn read_answer(text: &str) -> Result<DeskLine, LineFault>
    ensures ok { IfOk result (ReadsForm (verb_form false verbs.Answer text.now)) }
    ensures err { IfErr result (RefusesForm (verb_form false verbs.Answer text.now)) }
{
    let Some((card, rest)) = next_id(text) else {
        return Err(LineFault::BadLine);
    };
    let Some((button, rest)) = next_number(1, 4, rest) else {
        return Err(LineFault::BadLine);
    };
    match number_in(0, 4_294_967_295, rest) {
        Some(taken) => Ok(DeskLine::Answer {
            card,
            button: button as u8,
            taken: taken as u32,
        }),
        None => Err(LineFault::BadLine),
    }
}

/// What follows `next`.
fn read_next(text: &str) -> Result<DeskLine, LineFault>
    ensures ok { IfOk result (ReadsForm (verb_form false verbs.Next text.now)) }
    ensures err { IfErr result (RefusesForm (verb_form false verbs.Next text.now)) }
{
    match id_in(text) {
        Some(deck) => Ok(DeskLine::Next(deck)),
        None => Err(LineFault::BadLine),
    }
}

/// What follows `counts`.
fn read_counts(text: &str) -> Result<DeskLine, LineFault>
    ensures ok { IfOk result (ReadsForm (verb_form false verbs.Counts text.now)) }
    ensures err { IfErr result (RefusesForm (verb_form false verbs.Counts text.now)) }
{
    match id_in(text) {
        Some(deck) => Ok(DeskLine::Counts(deck)),
        None => Err(LineFault::BadLine),
    }
}

/// What follows `find`.
fn read_find(alloc: Global, text: &str) -> Result<DeskLine, LineFault>
    ensures ok { IfOk result (ReadsForm (verb_form false verbs.Find text.now)) }
    ensures err { IfErr result (RefusesForm (verb_form false verbs.Find text.now)) }
{
    let search = read_search(alloc, text)?;
    Ok(DeskLine::Find(search))
}

/// What follows `page`.
fn read_page(text: &str) -> Result<DeskLine, LineFault>
    ensures ok { IfOk result (ReadsForm (verb_form false verbs.Page text.now)) }
    ensures err { IfErr result (RefusesForm (verb_form false verbs.Page text.now)) }
{
    let Some((card, side)) = next_id(text) else {
        return Err(LineFault::BadLine);
    };
    match side {
        "front" => Ok(DeskLine::Page { card, back: false }),
        "back" => Ok(DeskLine::Page { card, back: true }),
        _ => Err(LineFault::BadLine),
    }
}

/// What follows `mute`: the name is all up to the end of the line.
fn read_mute(alloc: Global, text: &str) -> Result<DeskLine, LineFault>
    ensures ok { IfOk result (ReadsForm (verb_form false verbs.Mute text.now)) }
    ensures err { IfErr result (RefusesForm (verb_form false verbs.Mute text.now)) }
{
    let filter = Text::of(alloc, text)?;
    Ok(DeskLine::Mute(filter))
}

/// What follows `suspend`.
fn read_suspend(alloc: Global, text: &str) -> Result<DeskLine, LineFault>
    ensures ok { IfOk result (ReadsForm (verb_form false verbs.Suspend text.now)) }
    ensures err { IfErr result (RefusesForm (verb_form false verbs.Suspend text.now)) }
{
    match ids_in(alloc, text)? {
        Some(ids) => Ok(DeskLine::Suspend(ids)),
        None => Err(LineFault::BadLine),
    }
}

/// What follows `unsuspend`.
fn read_unsuspend(alloc: Global, text: &str) -> Result<DeskLine, LineFault>
    ensures ok { IfOk result (ReadsForm (verb_form false verbs.Unsuspend text.now)) }
    ensures err { IfErr result (RefusesForm (verb_form false verbs.Unsuspend text.now)) }
{
    match ids_in(alloc, text)? {
        Some(ids) => Ok(DeskLine::Unsuspend(ids)),
        None => Err(LineFault::BadLine),
    }
}

/// What follows `bury`.
fn read_bury(alloc: Global, text: &str) -> Result<DeskLine, LineFault>
    ensures ok { IfOk result (ReadsForm (verb_form false verbs.Bury text.now)) }
    ensures err { IfErr result (RefusesForm (verb_form false verbs.Bury text.now)) }
{
    match ids_in(alloc, text)? {
        Some(ids) => Ok(DeskLine::Bury(ids)),
        None => Err(LineFault::BadLine),
    }
}

/// What follows `flag`.
fn read_flag(alloc: Global, text: &str) -> Result<DeskLine, LineFault>
    ensures ok { IfOk result (ReadsForm (verb_form false verbs.Flag text.now)) }
    ensures err { IfErr result (RefusesForm (verb_form false verbs.Flag text.now)) }
{
    let Some((value, rest)) = next_number(0, 7, text) else {
        return Err(LineFault::BadLine);
    };
    match ids_in(alloc, rest)? {
        Some(cards) => Ok(DeskLine::Flag { value, cards }),
        None => Err(LineFault::BadLine),
    }
}
