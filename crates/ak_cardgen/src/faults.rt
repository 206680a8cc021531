use ak_base::Memory;
use ak_template::TemplateFault;

/// Why the cards of a note can't be told.
#[derive(Clone, Copy, Debug, PartialEq, Eq)]
pub enum GenFault {
    /// A front side is no template.
    Template(TemplateFault),
    Memory,
}

impl From<Memory> for GenFault {
    ghost use Rattle.std.specs.Prelude.{◌≡◌};
    ghost use Rattle.ak_cardgen.specs.declared.faults.GenFault.TheVariants as variants;

    ghost from_gives = { λ memory fault. fault ≡ variants.Memory };

    fn from(_memory: Memory) -> GenFault {
        GenFault::Memory
    }
}
