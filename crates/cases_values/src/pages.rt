use crate::words::{page_fault, push_quoted, template_fault};
use ak_base::{List, Text};
use ak_filters::{FieldFilter, FuriganaFilter, HintFilter, KanaFilter, KanjiFilter, TextFilter};
use ak_template::{Face, PageFault, Pair, Step, TemplateFault, parse, render, shows};
use cases_lines::{Unread, list_at, number_at, quoted, text_at, texts_at, truth};
use serde_json::Value;
use std::alloc::Global;

/// `parse [TEXT]`: the steps of the template, or its first fault.
pub fn parsed(alloc: Global, arguments: &Value) -> Result<String, Unread> {
    match parse(alloc, text_at(arguments, 0)?) {
        Ok(template) => steps_text(alloc, template.steps()),
        Err(fault) => template_fault(alloc, fault),
    }
}

fn steps_text(alloc: Global, steps: &[Step]) -> Result<String, Unread> {
    let mut made = String::from_str(alloc, "template")?;
    for step in steps {
        push_step(alloc, &mut made, step)?;
    }
    Ok(made)
}

fn push_step(alloc: Global, made: &mut String, step: &Step) -> Result<(), Unread> {
    match step {
        Step::Words(text) => push_named(alloc, made, " words ", text),
        Step::Field(filters, name) => {
            push_named(alloc, made, " field ", name)?;
            for filter in filters.as_slice() {
                push_named(alloc, made, " through ", filter)?;
            }
            Ok(())
        },
        Step::Open(false, name) => push_named(alloc, made, " if ", name),
        Step::Open(true, name) => push_named(alloc, made, " if-not ", name),
        Step::Close(name) => push_named(alloc, made, " end ", name),
    }
}

fn push_named(alloc: Global, made: &mut String, word: &str, name: &Text) -> Result<(), Unread> {
    made.push_str(word)?;
    push_quoted(alloc, made, name.as_str())
}

/// `shows [TEMPLATE, FIELDS]`: whether a front shows something of these pairs of a name and a value.
pub fn shown(alloc: Global, arguments: &Value) -> Result<String, Unread> {
    let face = face_at(alloc, arguments, None, 1)?;
    match parse(alloc, text_at(arguments, 0)?) {
        Ok(template) => truth(alloc, shows(alloc, &template, &face)?),
        Err(fault) => template_fault(alloc, fault),
    }
}

/// The pairs at place 1 of the arguments, as a page is made of them.
fn face_at(
    alloc: Global,
    arguments: &Value,
    front: Option<&str>,
    number: i64,
) -> Result<Face, Unread> {
    let mut fields = List::new(alloc);
    for pair in list_at(arguments, 1)? {
        push_pair(alloc, &mut fields, pair)?;
    }
    let front = match front {
        Some(text) => Some(Text::of(alloc, text)?),
        None => None,
    };
    Ok(Face {
        fields,
        front,
        number,
    })
}

fn push_pair(alloc: Global, fields: &mut List<Pair>, pair: &Value) -> Result<(), Unread> {
    let (name, value) = (text_at(pair, 0)?, text_at(pair, 1)?);
    let name = Text::of(alloc, name)?;
    let value = Text::of(alloc, value)?;
    fields.push(Pair { name, value })?;
    Ok(())
}

/// `pages [NUMBER, FIELDS, FRONT, TEMPLATES]`: the page of each template for the card of this number, one after the other
/// with the same five filters. FRONT is null on a front, else the page of the front.
pub fn pages(alloc: Global, arguments: &Value) -> Result<String, Unread> {
    let front = front_at(arguments)?;
    let face = face_at(alloc, arguments, front, number_at(arguments, 0)?)?;
    pages_of(alloc, &face, arguments)
}

fn front_at(arguments: &Value) -> Result<Option<&str>, Unread> {
    match arguments.get(2) {
        Some(value) if value.is_null() => Ok(None),
        Some(value) => match value.as_str() {
            Some(text) => Ok(Some(text)),
            None => Err(Unread::Bad),
        },
        None => Err(Unread::Bad),
    }
}

// The filters stay in this function: one that is handed to another could leave by it.
fn pages_of(alloc: Global, face: &Face, arguments: &Value) -> Result<String, Unread> {
    let mut filters: Vec<Box<dyn FieldFilter>> = Vec::new(alloc);
    filters.push(Box::new(alloc, TextFilter::new(alloc))?)?;
    filters.push(Box::new(alloc, HintFilter::new(alloc))?)?;
    filters.push(Box::new(alloc, KanjiFilter::new(alloc))?)?;
    filters.push(Box::new(alloc, KanaFilter::new(alloc))?)?;
    filters.push(Box::new(alloc, FuriganaFilter::new(alloc))?)?;
    let mut made = String::new(alloc);
    for text in texts_at(alloc, arguments, 3)?.as_slice() {
        match parse(alloc, text.as_str()) {
            Ok(template) => {
                let page = render(alloc, &template, face, &mut filters);
                push_page(alloc, &mut made, page)?;
            },
            Err(fault) => push_fault(alloc, &mut made, fault)?,
        }
    }
    Ok(made)
}

fn push_page(
    alloc: Global,
    made: &mut String,
    page: Result<Text, PageFault>,
) -> Result<(), Unread> {
    let told = match page {
        Ok(page) => quoted(alloc, page.as_str())?,
        Err(fault) => page_fault(alloc, &fault)?,
    };
    push_told(made, told.as_str())
}

fn push_fault(alloc: Global, made: &mut String, fault: TemplateFault) -> Result<(), Unread> {
    let told = template_fault(alloc, fault)?;
    push_told(made, told.as_str())
}

fn push_told(made: &mut String, told: &str) -> Result<(), Unread> {
    if !made.is_empty() {
        made.push_str(" ")?;
    }
    made.push_str(told)?;
    Ok(())
}
