use crate::cuts::cuts;
use crate::desk_lines::desk_line;
use crate::message_fields::message_fields;
use crate::notes::{checksum, ords, sorted_by};
use crate::pages::{pages, parsed, shown};
use crate::paths::{fields, opening, parts, subtree, tags};
use crate::replies::reply;
use crate::requests::request;
use crate::rows::{about, check, conf, row, same};
use crate::schedules::{answered, can_be_answered, fuzz, leech};
use crate::texts::{
    bases, blank, clozes, cut_at, day, decimal, empty, hidden, hinted, host_key, insides, number,
    permille, plain, rubies, stripped,
};
use cases_lines::{Answers, Unread};
use serde_json::Value;
use std::alloc::Global;

/// The commands over values, bodies of messages and desk lines: nothing is kept from one to the next.
#[derive(Drop)]
pub struct Values;

impl Answers for Values {
    fn answer(&mut self, alloc: Global, word: &str, rest: &str) -> Result<String, Unread> {
        answer_to(alloc, word, rest)
    }
}

fn answer_to(alloc: Global, word: &str, rest: &str) -> Result<String, Unread> {
    match word {
        "row" => row(alloc, rest),
        "check" => check(alloc, rest),
        "conf" => conf(alloc, rest),
        "about" => about(alloc, rest),
        "fields" => answer_to_fields(alloc, rest),
        "request" => request(alloc, rest),
        "reply" => reply(alloc, rest),
        "cuts" => cuts(alloc, rest),
        "desk" => desk_line(alloc, rest),
        _ => answer_to_values(alloc, word, rest),
    }
}

/// `fields [NOTE]`, or `fields` of a message: what the arguments of a note begin with tells them apart.
fn answer_to_fields(alloc: Global, rest: &str) -> Result<String, Unread> {
    if rest.starts_with("[") {
        answer_to_values(alloc, "fields", rest)
    } else {
        message_fields(alloc, rest)
    }
}

fn answer_to_values(alloc: Global, word: &str, rest: &str) -> Result<String, Unread> {
    match Value::from_str(alloc, rest) {
        Ok(arguments) => answer_by_topic(alloc, word, &arguments),
        Err(_) => Err(Unread::Bad),
    }
}

fn answer_by_topic(alloc: Global, word: &str, arguments: &Value) -> Result<String, Unread> {
    match word {
        "same" => same(alloc, arguments),
        "fuzz" => fuzz(alloc, arguments),
        "leech" => leech(alloc, arguments),
        "can-answer" => can_be_answered(alloc, arguments),
        "answer" => answered(alloc, arguments),
        "parse" => parsed(alloc, arguments),
        "pages" => pages(alloc, arguments),
        "shows" => shown(alloc, arguments),
        "ords" => ords(alloc, arguments),
        "sort" => sorted_by(alloc, arguments),
        "fields" => fields(alloc, arguments),
        "tags" => tags(alloc, arguments),
        "parts" => parts(alloc, arguments),
        "subtree" => subtree(alloc, arguments),
        "opening" => opening(alloc, arguments),
        _ => answer_of_texts(alloc, word, arguments),
    }
}

fn answer_of_texts(alloc: Global, word: &str, arguments: &Value) -> Result<String, Unread> {
    match word {
        "checksum" => checksum(alloc, arguments),
        "number" => number(alloc, arguments),
        "decimal" => decimal(alloc, arguments),
        "permille" => permille(alloc, arguments),
        "host-key" => host_key(alloc, arguments),
        "day" => day(alloc, arguments),
        "strip" => stripped(alloc, arguments),
        "empty" => empty(alloc, arguments),
        "blank" => blank(alloc, arguments),
        "cut" => cut_at(alloc, arguments),
        "hint" => hinted(alloc, arguments),
        "text" => plain(alloc, arguments),
        "kanji" => bases(alloc, arguments),
        "kana" => insides(alloc, arguments),
        "furigana" => rubies(alloc, arguments),
        "clozes" => clozes(alloc, arguments),
        "cloze" => hidden(alloc, arguments),
        _ => Err(Unread::Bad),
    }
}
