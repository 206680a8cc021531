use ak_base::{Memory, Name, RowFault};
use ak_keep::KeepFault;
use ak_template::{PageFault, TemplateFault};
use std::alloc::{AllocError, AllocFailed};

/// Why a call of the desk was refused. A refused call leaves the collection and the undo list as they were.
#[derive(Debug, Drop)]
pub enum DeskFault {
    /// No row of this name is held.
    NoSuch(Name),
    /// A note of the type has `want` fields.
    FieldCount { want: u64, got: u64 },
    /// This row always stays.
    DefaultKept(Name),
    /// A stamp or a moment stands at its last value.
    StampEnd,
    /// There is no free id from the moment on.
    IdEnd,
    /// A row that was given or made is out of its range.
    Row(RowFault),
    /// A side of a template can't be read.
    Template(TemplateFault),
    /// The card of this queue can't be answered.
    NotAnswerable(i64),
    /// The undo list is empty.
    NothingToUndo,
    /// The edit would change the schema, and was not allowed to.
    SchemaAsk,
    /// This row is used, or has the name that was given.
    InUse(Name),
    /// The keeper refused. It comes only from a call in which the keeper's count of faults rose.
    Failed,
    /// The entry of this place in the maps of fields and templates is wrong.
    BadMap(u64),
    /// A page of a card can't be made.
    Page(PageFault),
    /// Out of memory.
    Memory,
}

impl From<KeepFault> for DeskFault {
    ghost use Rattle.ak_edit.specs.DeskFaults.{of_keep_fault};
    ghost use Rattle.std.specs.Prelude.{◌≡◌};

    ghost from_gives = { λ fault given. given ≡ of_keep_fault fault };

    fn from(fault: KeepFault) -> DeskFault {
        match fault {
            KeepFault::Failed => DeskFault::Failed,
            KeepFault::Memory => DeskFault::Memory,
        }
    }
}

impl From<RowFault> for DeskFault {
    ghost use Rattle.std.specs.Prelude.{◌≡◌};
    ghost use Rattle.ak_edit.specs.declared.desk_faults.DeskFault.TheVariants as faults;

    ghost from_gives = { λ fault given. given ≡ faults.Row fault };

    fn from(fault: RowFault) -> DeskFault {
        DeskFault::Row(fault)
    }
}

impl From<TemplateFault> for DeskFault {
    ghost use Rattle.ak_edit.specs.DeskFaults.{of_template_fault};
    ghost use Rattle.std.specs.Prelude.{◌≡◌};

    ghost from_gives = { λ fault given. given ≡ of_template_fault fault };

    fn from(fault: TemplateFault) -> DeskFault {
        match fault {
            TemplateFault::Memory => DeskFault::Memory,
            TemplateFault::Unclosed(_) => DeskFault::Template(fault),
            TemplateFault::WrongClose(_) => DeskFault::Template(fault),
            TemplateFault::EmptyTag(_) => DeskFault::Template(fault),
            TemplateFault::TooDeep(_) => DeskFault::Template(fault),
        }
    }
}

impl From<PageFault> for DeskFault {
    ghost use Rattle.ak_edit.specs.DeskFaults.{of_page_fault};
    ghost use Rattle.std.specs.Prelude.{◌≡◌};

    ghost from_gives = { λ fault given. given ≡ of_page_fault fault };

    fn from(fault: PageFault) -> DeskFault {
        match fault {
            PageFault::NoField(name) => DeskFault::Page(PageFault::NoField(name)),
            PageFault::NoFilter(name) => DeskFault::Page(PageFault::NoFilter(name)),
            PageFault::Memory => DeskFault::Memory,
        }
    }
}

impl From<Memory> for DeskFault {
    ghost use Rattle.std.specs.Prelude.{◌≡◌};
    ghost use Rattle.ak_edit.specs.declared.desk_faults.DeskFault.TheVariants as faults;

    ghost from_gives = { λ memory fault. fault ≡ faults.Memory };

    fn from(_memory: Memory) -> DeskFault {
        DeskFault::Memory
    }
}

impl From<AllocError> for DeskFault {
    ghost use Rattle.std.specs.Prelude.{◌≡◌};
    ghost use Rattle.ak_edit.specs.declared.desk_faults.DeskFault.TheVariants as faults;

    ghost from_gives = { λ error fault. fault ≡ faults.Memory };

    fn from(_error: AllocError) -> DeskFault {
        DeskFault::Memory
    }
}

impl<T: Drop> From<AllocFailed<T>> for DeskFault {
    ghost use Rattle.std.specs.Prelude.{◌≡◌};
    ghost use Rattle.ak_edit.specs.declared.desk_faults.DeskFault.TheVariants as faults;

    ghost from_gives = { λ error fault. fault ≡ faults.Memory };

    fn from(_error: AllocFailed<T>) -> DeskFault {
        DeskFault::Memory
    }
}
