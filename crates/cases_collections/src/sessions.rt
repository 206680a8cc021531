use crate::calls::call;
use crate::merges::{checked, take};
use crate::searches::found;
use ak_memory::MemoryKeeper;
use ak_undo::UndoList;
use cases_keepers::answer_of;
use cases_lines::Unread;
use std::alloc::Global;

/// A collection in memory, and the steps that can be undone.
#[derive(Drop)]
pub struct Session {
    pub keeper: MemoryKeeper,
    pub steps: UndoList,
}

impl Session {
    /// An empty keeper, and no step.
    pub fn new(alloc: Global) -> Result<Session, Unread> {
        let steps = UndoList::new(alloc)?;
        Ok(Session {
            keeper: MemoryKeeper::new(alloc),
            steps,
        })
    }

    /// The answer to a command of side A.
    pub fn answer(&mut self, alloc: Global, word: &str, rest: &str) -> Result<String, Unread> {
        match word {
            "steps" => self.steps_text(alloc),
            "forget" => self.forget(alloc),
            "flag"
            | "move-cards"
            | "use-options"
            | "add-deck"
            | "rename-deck"
            | "delete-deck"
            | "add-note"
            | "edit-note"
            | "set-options"
            | "add-options"
            | "delete-options"
            | "set-spread"
            | "add-type"
            | "edit-type"
            | "delete-type"
            | "delete-notes"
            | "start-day"
            | "suspend"
            | "unsuspend"
            | "bury"
            | "answer"
            | "next"
            | "counts"
            | "undo" => call(alloc, self, word, rest),
            _ => answer_of_side(alloc, &mut self.keeper, word, rest),
        }
    }

    /// How many steps can be undone.
    fn steps_text(&self, alloc: Global) -> Result<String, Unread> {
        let steps = self.steps.len();
        Ok(format!(in alloc; "{steps}")?)
    }

    /// Takes all steps out of the list.
    fn forget(&mut self, alloc: Global) -> Result<String, Unread> {
        self.steps.clear();
        Ok(String::from_str(alloc, "ok")?)
    }
}

/// The answer to a command that needs no list of steps.
pub fn answer_of_side(
    alloc: Global,
    keeper: &mut MemoryKeeper,
    word: &str,
    rest: &str,
) -> Result<String, Unread> {
    match word {
        "check" => checked(alloc, keeper),
        "find" => found(alloc, keeper, rest),
        "take" => take(alloc, keeper, rest),
        _ => answer_of(alloc, keeper, word, rest),
    }
}
