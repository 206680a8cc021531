ghost use Rattle.std.specs.Prelude.{◌≡◌};
ghost use Rattle.ak_template.specs.Grammar.{fault_number, fault_place};

use ak_base::Memory;
use std::alloc::{AllocError, AllocFailed};

/// Why a text is no template, with the byte place at which its tag opens.
#[derive(Clone, Copy, Debug, PartialEq, Eq)]
pub enum TemplateFault {
    /// The outermost section that is never closed.
    Unclosed(u64),
    /// A close tag that is not of the innermost open section.
    WrongClose(u64),
    /// A tag with nothing inside, or with no name.
    EmptyTag(u64),
    /// The 33rd section that is open inside one another.
    TooDeep(u64),
    Memory,
}

impl TemplateFault {
    /// Its number among the refusals, from 1; 0 if memory ran out.
    pub fn number(self) -> u64
        ensures { result ≡ fault_number self }
    {
        match self {
            TemplateFault::Unclosed(_) => 1,
            TemplateFault::WrongClose(_) => 2,
            TemplateFault::EmptyTag(_) => 3,
            TemplateFault::TooDeep(_) => 4,
            TemplateFault::Memory => 0,
        }
    }

    /// The byte at which its tag opens, from 0; also 0 if memory ran out.
    pub fn place(self) -> u64
        ensures { result ≡ fault_place self }
    {
        match self {
            TemplateFault::Unclosed(place)
            | TemplateFault::WrongClose(place)
            | TemplateFault::EmptyTag(place)
            | TemplateFault::TooDeep(place) => place,
            TemplateFault::Memory => 0,
        }
    }
}

impl From<Memory> for TemplateFault {
    ghost use Rattle.std.specs.Prelude.{◌≡◌};
    ghost use Rattle.ak_template.specs.declared.faults.TemplateFault.TheVariants as faults;

    ghost from_gives = { λ memory fault. fault ≡ faults.Memory };

    fn from(_memory: Memory) -> TemplateFault {
        TemplateFault::Memory
    }
}

impl From<AllocError> for TemplateFault {
    ghost use Rattle.std.specs.Prelude.{◌≡◌};
    ghost use Rattle.ak_template.specs.declared.faults.TemplateFault.TheVariants as faults;

    ghost from_gives = { λ memory fault. fault ≡ faults.Memory };

    fn from(_error: AllocError) -> TemplateFault {
        TemplateFault::Memory
    }
}

impl<T: Drop> From<AllocFailed<T>> for TemplateFault {
    ghost use Rattle.std.specs.Prelude.{◌≡◌};
    ghost use Rattle.ak_template.specs.declared.faults.TemplateFault.TheVariants as faults;

    ghost from_gives = { λ memory fault. fault ≡ faults.Memory };

    fn from(_error: AllocFailed<T>) -> TemplateFault {
        TemplateFault::Memory
    }
}
