ghost use Rattle.std.specs.Prelude.{◌≡◌, [], ◌∷◌, ◌++◌, false, OnOk, OnErr};

use ak_base::{List, Memory, Name};
use std::alloc::Global;

/// What of a collection was touched since the mark.
#[derive(Debug, Drop)]
pub struct Touched {
    /// The names under which a row was put or taken out, in any order, repeated ones too.
    pub names: List<Name>,
    /// Whether the head was set.
    pub head: bool,
    /// Whether all rows were replaced. Then only rows of the names are there.
    pub whole: bool,
}

impl Touched {
    /// Nothing. It takes no memory.
    pub fn nothing(alloc: Global) -> Touched
        ensures { result ≡ record { names = []; head = false; whole = false } }
    {
        Touched {
            names: List::new(alloc),
            head: false,
            whole: false,
        }
    }

    /// Adds a name.
    pub(crate) fn add(&mut self, name: Name) -> Result<(), Memory>
        ensures ok { OnOk result (self.new ≡ record self.old { names = self.old.names ++ name ∷ [] }) }
        ensures err { OnErr result (self.new ≡ self.old) }
    {
        self.names.push(name)
    }
}
