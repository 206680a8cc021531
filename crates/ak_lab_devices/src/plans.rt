// What lines plan before the calls of a device's next sync.
ghost use Rattle.std.specs.Prelude.{◌≡◌, ◌++◌, ◌∷◌, [], IfOk, OnOk};
ghost use Rattle.ak_lab_devices.specs.Plans.{crossings_of};

use ak_base::{List, Memory, Text};
use std::alloc::Global;

/// What a line planned before a call of a device's next sync.
#[derive(Debug, Drop)]
pub struct Planned {
    /// The number of the call, counted from 0 over all calls of that sync, tries too.
    pub call: u64,
    /// The number of the line. What comes of it is written down with that.
    pub line: u64,
    pub act: Act,
}

/// What comes before a call.
#[derive(Debug, Drop)]
pub enum Act {
    /// The device of this name makes a whole sync.
    Cross(Text),
    /// Requests of the log are served again: so many, from the one of this number on, counted from 0.
    Replay { from: u64, count: u64 },
}

/// Copies of those that make another device sync.
pub fn crossings_in(alloc: Global, planned: &[Planned]) -> Result<List<Planned>, Memory>
    ensures { IfOk result (λ made. made ≡ crossings_of planned.now) }
{
    let mut made = List::new(alloc);
    for it in planned {
        add_crossing(it, &mut made)?;
    }
    Ok(made)
}

/// Adds a copy of this, if it makes another device sync.
fn add_crossing(it: &Planned, made: &mut List<Planned>) -> Result<(), Memory>
    ensures { OnOk result (made.new ≡ made.old ++ crossings_of (it.now ∷ [])) }
{
    match &it.act {
        Act::Cross(name) => {
            let name = name.copy()?;
            made.push(Planned {
                call: it.call,
                line: it.line,
                act: Act::Cross(name),
            })
        }
        Act::Replay { .. } => Ok(()),
    }
}
