// Filters behind boxes: those of every desk and some of the caller's own.

use ak_base::{List, Memory, Text};
use ak_filters::{FieldFilter, HintFilter, TextFilter, drop_filter};
use ak_template::{Face, PageFault, Pair, parse, render};
use std::alloc::Global;

/// A filter of the caller's own.
#[derive(Debug, Drop)]
struct LoudFilter {
    alloc: Global,
    turn: u64,
}

impl FieldFilter for LoudFilter {
    ghost use Rattle.std.specs.Prelude.{codes};
    ghost use Rattle.ak_filters.specs.Meanings.{Meaning, Wrap};

    ghost meaning = { λ filter. record { name = codes "loud"; form = Wrap (codes "<b>") (codes "</b>"); turn = filter.turn } };

    fn name(&self) -> &str {
        "loud"
    }

    fn apply(&mut self, text: &str) -> Result<Text, Memory> {
        let made = format!(in self.alloc; "<b>{text}</b>")?;
        let made = Text::of(self.alloc, &made)?;
        self.turn = self.turn.saturating_add(1);
        Ok(made)
    }
}

/// A filter of the caller's own, under a name that every desk has.
#[derive(Debug, Drop)]
struct OpenHintFilter {
    alloc: Global,
    turn: u64,
}

impl FieldFilter for OpenHintFilter {
    ghost use Rattle.std.specs.Prelude.{codes};
    ghost use Rattle.ak_filters.specs.Meanings.{Meaning, Wrap};

    ghost meaning = { λ filter. record { name = codes "hint"; form = Wrap (codes "(") (codes ")"); turn = filter.turn } };

    fn name(&self) -> &str {
        "hint"
    }

    fn apply(&mut self, text: &str) -> Result<Text, Memory> {
        let made = format!(in self.alloc; "({text})")?;
        let made = Text::of(self.alloc, &made)?;
        self.turn = self.turn.saturating_add(1);
        Ok(made)
    }
}

fn face(alloc: Global) -> Result<Face, Memory> {
    let mut fields = List::new(alloc);
    let name = Text::of(alloc, "Front")?;
    let value = Text::of(alloc, "<i>a</i>")?;
    fields.push(Pair { name, value })?;
    Ok(Face {
        fields,
        front: None,
        number: 1,
    })
}

fn filters(alloc: Global) -> Result<Vec<Box<dyn FieldFilter>>, Memory> {
    let mut filters: Vec<Box<dyn FieldFilter>> = Vec::new(alloc);
    filters.push(Box::new(alloc, TextFilter::new(alloc))?)?;
    filters.push(Box::new(alloc, HintFilter::new(alloc))?)?;
    filters.push(Box::new(alloc, LoudFilter { alloc, turn: 0 })?)?;
    Ok(filters)
}

// Whether the template makes this page, or wants a filter where there is none.
fn makes(
    alloc: Global,
    filters: &mut Vec<Box<dyn FieldFilter>>,
    text: &str,
    wanted: Option<&str>,
) -> Result<bool, Memory> {
    let face = face(alloc)?;
    let template = match parse(alloc, text) {
        Ok(template) => template,
        Err(_) => return Ok(false),
    };
    match render(alloc, &template, &face, filters) {
        Ok(page) => Ok(wanted == Some(page.as_str())),
        Err(PageFault::NoFilter(_)) => Ok(wanted.is_none()),
        Err(_) => Ok(false),
    }
}

// Templates, and their pages one after the other.
const PAGES: [(&'static str, Option<&'static str>); 5] = [
    ("{{loud:Front}}", Some("<b><i>a</i></b>")),
    (
        "{{hint:Front}}",
        Some("<a class=hint id=hint0><i>a</i></a>"),
    ),
    ("{{hint:Front}}{{quiet:Front}}", None),
    (
        "{{hint:Front}}",
        Some("<a class=hint id=hint2><i>a</i></a>"),
    ),
    ("{{text:Front}}{{loud:Front}}", Some("a<b><i>a</i></b>")),
];

#[test]
fn pages_go_through_filters_behind_boxes(rt: HostRuntime) -> Result<(), Memory> {
    let mut filters = filters(rt.alloc())?;
    for (text, wanted) in PAGES {
        assert!(rt; makes(rt.alloc(), &mut filters, text, wanted)?);
    }
    Ok(())
}

#[test]
fn a_filter_that_is_dropped_gives_place_to_the_callers_own(rt: HostRuntime) -> Result<(), Memory> {
    let alloc = rt.alloc();
    let mut filters = filters(alloc)?;
    assert!(rt; drop_filter(&mut filters, "hint"));
    filters.push(Box::new(alloc, OpenHintFilter { alloc, turn: 0 })?)?;
    assert!(rt;
        makes(
            alloc,
            &mut filters,
            "{{hint:loud:Front}}",
            Some("(<b><i>a</i></b>)")
        )?
    );
    Ok(())
}
