ghost use Rattle.std.specs.Prelude.{◌≡◌, IfOk, codes};
ghost use Rattle.ak_filters.specs.Meanings.{formed, Hint};

use crate::FieldFilter;
use ak_base::{Memory, Text};
use std::alloc::Global;

/// The filter `hint`, which hides a text behind a link of the page; each link has a number of its own.
#[derive(Debug, Drop)]
pub struct HintFilter {
    alloc: Global,
    turn: u64,
}

impl HintFilter {
    /// At turn 0.
    pub fn new(alloc: Global) -> HintFilter
        ensures { ⟦<HintFilter as FieldFilter>⟧.meaning result ≡ record { name = codes "hint"; form = Hint; turn = 0 } }
    {
        HintFilter { alloc, turn: 0 }
    }
}

/// The link that hides the text, with its number; an empty text needs none.
fn hint_of(alloc: Global, turn: u64, text: &str) -> Result<Text, Memory>
    ensures { IfOk result (λ made. made ≡ formed Hint turn text.now) }
{
    if text.is_empty() {
        return Text::of(alloc, "");
    }
    let link = format!(in alloc; "<a class=hint id=hint{turn}>{text}</a>")?;
    Text::of(alloc, &link)
}

impl FieldFilter for HintFilter {
    ghost use Rattle.std.specs.Prelude.{codes};
    ghost use Rattle.ak_filters.specs.Meanings.{Hint};

    ghost meaning = { λ filter. record { name = codes "hint"; form = Hint; turn = filter.turn } };

    fn name(&self) -> &str {
        "hint"
    }

    fn apply(&mut self, text: &str) -> Result<Text, Memory> {
        let made = hint_of(self.alloc, self.turn, text)?;
        self.turn = self.turn.saturating_add(1);
        Ok(made)
    }
}
