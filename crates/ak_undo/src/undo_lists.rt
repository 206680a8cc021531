ghost use Rattle.std.specs.Prelude.{◌≡◌, ◌≤◌, [], ◌∷◌, drop, length, take, IfOk, IfSome, slice_get};
ghost use Rattle.std.specs.Option.{option_copied};
ghost use Rattle.ak_undo.specs.Steps.{IsStepInRange};

use crate::steps::Step;
use ak_base::Memory;
use circular_buffer::HeapCircularBuffer;
use std::alloc::Global;
use std::marker::Model;

/// How many steps a list holds.
const ROOM: usize = 30;

/// The steps of the latest edits, at most 30. Seen as the list of them, the latest first.
#[derive(Drop)]
pub struct UndoList {
    steps: HeapCircularBuffer<Step>,
}

impl Model for UndoList {
    ghost use Rattle.std.specs.Prelude.{◌≡◌, List};
    ghost use Rattle.std.specs.List.{All};
    ghost use Rattle.ak_undo.specs.declared.steps.Step.{Step};
    ghost use Rattle.ak_undo.specs.Steps.{IsStepInRange};

    ghost Value = { List Step };

    ghost view = { λ list. list.steps.items };

    ghost invariant = { λ list. (list.steps.capacity ≡ 30) × All IsStepInRange list.steps.items };
}

impl UndoList {
    /// A list without steps. It takes the room for all that it will hold.
    pub fn new(alloc: Global) -> Result<UndoList, Memory>
        ensures { IfOk result (λ list. list ≡ []) }
    {
        let steps = HeapCircularBuffer::with_capacity(alloc, ROOM)?;
        Ok(UndoList { steps })
    }

    /// The allocator that it took its room from.
    pub fn allocator(&self) -> Global {
        *self.steps.allocator()
    }

    /// The latest step, which stays in the list.
    pub fn latest(&self) -> Option<&Step>
        ensures step { option_copied result ≡ slice_get self.now 0 }
        ensures range { IfSome (slice_get self.now 0) IsStepInRange }
    {
        self.steps.front()
    }

    /// How many steps it holds.
    pub fn len(&self) -> usize
        ensures len { result ≡ length self.now }
        ensures most { result ≤ 30 }
    {
        self.steps.len()
    }

    /// Puts a step first. A list of 30 steps drops its oldest. It takes no memory.
    pub fn push(&mut self, step: Step)
        requires { IsStepInRange step }
        ensures { self.new ≡ take 30 (step ∷ self.old) }
    {
        drop(self.steps.push_front(step));
    }

    /// Takes the latest step out. It takes no memory.
    pub fn take(&mut self) -> Option<Step>
        ensures step { result ≡ slice_get self.old 0 }
        ensures rest { self.new ≡ drop 1 self.old }
        ensures range { IfSome result IsStepInRange }
    {
        self.steps.pop_front()
    }

    /// Takes all steps out. It takes no memory.
    pub fn clear(&mut self)
        ensures { self.new ≡ [] }
    {
        self.steps.clear();
    }
}
