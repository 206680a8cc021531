use crate::schedules::day_at;
use crate::words::push_quoted;
use ak_base::{HostKey, cut, read_number};
use ak_filters::{
    FieldFilter, FuriganaFilter, HintFilter, KanaFilter, KanjiFilter, TextFilter, is_blank,
    is_empty_value, strip,
};
use ak_json::{read_decimal, write_decimal};
use ak_template::{cloze_numbers, show_clozes};
use cases_lines::{Unread, listed, natural_at, number_at, quoted, text_at, truth};
use serde_json::Value;
use std::alloc::Global;

/// `number [TEXT, MOST]`: the number that the text is, if it is at most MOST.
pub fn number(alloc: Global, arguments: &Value) -> Result<String, Unread> {
    match read_number(text_at(arguments, 0)?, natural_at(arguments, 1)?) {
        Some(number) => Ok(format!(in alloc; "{number}")?),
        None => Ok(String::from_str(alloc, "none")?),
    }
}

/// `decimal [TEXT]`: the thousandths that the text is, or `none`.
pub fn decimal(alloc: Global, arguments: &Value) -> Result<String, Unread> {
    match read_decimal(text_at(arguments, 0)?) {
        Some(permille) => Ok(format!(in alloc; "{permille}")?),
        None => Ok(String::from_str(alloc, "none")?),
    }
}

/// `permille [NUMBER]`: the shortest decimal of so many thousandths.
pub fn permille(alloc: Global, arguments: &Value) -> Result<String, Unread> {
    let permille = number_at(arguments, 0)?;
    if permille < 0 || permille > 999_999_999 {
        return Err(Unread::Bad);
    }
    let text = write_decimal(alloc, permille)?;
    Ok(String::from_str(alloc, text.as_str())?)
}

/// `host-key [TEXT]`: whether the text is one.
pub fn host_key(alloc: Global, arguments: &Value) -> Result<String, Unread> {
    let text = text_at(arguments, 0)?;
    match HostKey::of(text) {
        Some(key) => truth(alloc, key.digits.as_slice() == text.as_bytes()),
        None => truth(alloc, false),
    }
}

/// `day [CRT, NOW]`: the second, the number of its day and the day's cutoff.
pub fn day(alloc: Global, arguments: &Value) -> Result<String, Unread> {
    let day = day_at(arguments, 0)?;
    let (now, number, cutoff) = (day.now, day.number, day.cutoff);
    Ok(format!(in alloc; "{now} {number} {cutoff}")?)
}

/// `strip [TEXT]`.
pub fn stripped(alloc: Global, arguments: &Value) -> Result<String, Unread> {
    let made = strip(alloc, text_at(arguments, 0)?)?;
    quoted(alloc, made.as_str())
}

/// `empty [TEXT]`: whether a field of this text is empty.
pub fn empty(alloc: Global, arguments: &Value) -> Result<String, Unread> {
    let holds = is_empty_value(alloc, text_at(arguments, 0)?)?;
    truth(alloc, holds)
}

/// `blank [TEXT]`: whether the text has only white space.
pub fn blank(alloc: Global, arguments: &Value) -> Result<String, Unread> {
    truth(alloc, is_blank(text_at(arguments, 0)?))
}

/// `cut [TEXT, MARK]`: what is before the first mark and what is after it.
pub fn cut_at(alloc: Global, arguments: &Value) -> Result<String, Unread> {
    let mark = text_at(arguments, 1)?;
    if mark.is_empty() {
        return Err(Unread::Bad);
    }
    match cut(text_at(arguments, 0)?, mark) {
        Some((front, behind)) => both_quoted(alloc, front, behind),
        None => Ok(String::from_str(alloc, "none")?),
    }
}

fn both_quoted(alloc: Global, front: &str, behind: &str) -> Result<String, Unread> {
    let mut made = quoted(alloc, front)?;
    made.push_str(" ")?;
    push_quoted(alloc, &mut made, behind)?;
    Ok(made)
}

/// `hint [TEXT, ..]`: the hint filter applied to each, one after the other.
pub fn hinted(alloc: Global, arguments: &Value) -> Result<String, Unread> {
    let mut filter = HintFilter::new(alloc);
    applied(alloc, &mut filter, arguments)
}

/// `text [TEXT, ..]`: the filter `text` applied to each.
pub fn plain(alloc: Global, arguments: &Value) -> Result<String, Unread> {
    let mut filter = TextFilter::new(alloc);
    applied(alloc, &mut filter, arguments)
}

/// `kanji [TEXT, ..]`: the filter `kanji` applied to each.
pub fn bases(alloc: Global, arguments: &Value) -> Result<String, Unread> {
    let mut filter = KanjiFilter::new(alloc);
    applied(alloc, &mut filter, arguments)
}

/// `kana [TEXT, ..]`: the filter `kana` applied to each.
pub fn insides(alloc: Global, arguments: &Value) -> Result<String, Unread> {
    let mut filter = KanaFilter::new(alloc);
    applied(alloc, &mut filter, arguments)
}

/// `furigana [TEXT, ..]`: the filter `furigana` applied to each.
pub fn rubies(alloc: Global, arguments: &Value) -> Result<String, Unread> {
    let mut filter = FuriganaFilter::new(alloc);
    applied(alloc, &mut filter, arguments)
}

fn applied<F: FieldFilter>(
    alloc: Global,
    filter: &mut F,
    arguments: &Value,
) -> Result<String, Unread> {
    let texts = arguments.as_array().ok_or(Unread::Bad)?;
    let mut made = String::from_str(alloc, filter.name())?;
    for text in texts {
        made.push_str(" ")?;
        push_applied(alloc, &mut made, filter, text)?;
    }
    Ok(made)
}

fn push_applied<F: FieldFilter>(
    alloc: Global,
    made: &mut String,
    filter: &mut F,
    text: &Value,
) -> Result<(), Unread> {
    let text = text.as_str().ok_or(Unread::Bad)?;
    let applied = filter.apply(text)?;
    push_quoted(alloc, made, applied.as_str())
}

/// `clozes [TEXT]`: the numbers of its clozes.
pub fn clozes(alloc: Global, arguments: &Value) -> Result<String, Unread> {
    let numbers = cloze_numbers(alloc, text_at(arguments, 0)?)?;
    listed(alloc, numbers.as_slice())
}

/// `cloze [TEXT, NUMBER]`: the text of a field with clozes on the front and on the back of the card of this number.
pub fn hidden(alloc: Global, arguments: &Value) -> Result<String, Unread> {
    let text = text_at(arguments, 0)?;
    let card = number_at(arguments, 1)?;
    let front = show_clozes(alloc, false, card, text)?;
    let back = show_clozes(alloc, true, card, text)?;
    both_quoted(alloc, front.as_str(), back.as_str())
}
