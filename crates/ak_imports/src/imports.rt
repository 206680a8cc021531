// Notes that are taken from records, all in one edit.
ghost use Rattle.std.specs.Prelude.{◌≡◌, ◌⊎◌, ◌+◌, ◌<◌, ◌^◌, true, false, IfErr, IfOk, OnErr, OnOk};
ghost use Rattle.ak_faults.specs.Causes.{HasCauseOf};
ghost use Rattle.ak_imports.specs.Imports.{DoesImport, IsImportFault, IsOutside, RefusesImport, arrival_of, counted, failed, numbered};
ghost use Rattle.ak_imports.specs.UnderWay.{RefusesOne, TakesAll};
ghost use Rattle.ak_keep.specs.Keepers.{IsMarkedAt, back, is_marked};

use crate::guids::guids_of;
use crate::records::Record;
use crate::works::{Work, take_record};
use ak_base::List;
use ak_edit::{Change, DeskFault};
use ak_keep::{KeepFault, Keeper};
use ak_undo::UndoList;

/// Records of notes, and where the notes that are added come to.
#[derive(Debug, Drop)]
pub struct Import {
    /// The type of the notes that are added.
    pub note_type: i64,
    /// The deck of the cards of the notes that are added.
    pub deck: i64,
    pub records: List<Record>,
}

/// How many records there were of each outcome.
#[derive(Clone, Copy, Debug, PartialEq, Eq)]
pub struct Imported {
    pub added: u64,
    pub updated: u64,
    pub same: u64,
}

/// Why records were not taken: the first one that is refused, counted from 1, and its fault. The number is 0 if the
/// keeper failed or memory was out.
#[derive(Debug, Drop)]
pub struct NotesFault {
    pub at_record: u64,
    pub fault: DeskFault,
}

/// What was done with a record.
#[derive(Clone, Copy, Debug, PartialEq, Eq)]
pub(crate) enum Outcome {
    Added,
    Updated,
    Same,
}

/// Where the notes that are added come to, and the moment of the import in milliseconds.
#[derive(Clone, Copy, Debug)]
pub(crate) struct Arrival {
    pub(crate) note_type: i64,
    pub(crate) deck: i64,
    pub(crate) at: i64,
}

/// Takes notes from records, at a moment in milliseconds, in one edit. In order, a record whose guid no note has is added as a
/// new note of the type, with its cards in the deck. A record whose guid a note has gives the least such note, of whatever type, its
/// fields and tags, and makes the cards that this note then lacks; if fields and tags are the same, nothing changes. A guid may come
/// twice: the later record acts on the earlier one's note.
///
/// It is refused at the first record that `add_note` or `edit_note` would refuse after the records before it, if no stamp and
/// no moment had risen by these, with the record's number and for the same fault: the rows that a record makes, their stamps
/// and the moment are tested before the next record is looked at.
pub fn put_notes<K: Keeper>(
    keeper: &mut K,
    steps: &mut UndoList,
    given: Import,
    at: i64,
) -> Result<Imported, NotesFault>
    requires unmarked { is_marked (K.keeping keeper.old) ≡ false }
    requires held { (K.keeping keeper.old).headed.current ≡ true }
    ensures ok { IfOk result (DoesImport at given (K.keeping keeper.old) (K.keeping keeper.new) steps.old steps.new) }
    ensures err { OnErr result (K.keeping keeper.new ≡ K.keeping keeper.old) }
    ensures kept { OnErr result (steps.new ≡ steps.old) }
    ensures stays { (K.keeping keeper.new).headed ≡ (K.keeping keeper.old).headed }

    // A record is refused only if its own tests refuse it and those of the records before it do not.
    ensures refused { IfErr result (λ fault. IsOutside fault ⊎ RefusesImport at given (K.keeping keeper.old) fault) }
    ensures listed { IfErr result IsImportFault }
    ensures cause { HasCauseOf failed (K.health keeper.old) (K.health keeper.new) result }
{
    let arrival = Arrival {
        note_type: given.note_type,
        deck: given.deck,
        at,
    };
    let alloc = steps.allocator();
    let guids = guids_of(alloc, keeper)?;
    let mut work = Work {
        change: Change::new(alloc),
        guids,
    };
    keeper.mark()?;
    let taken = take_records(keeper, &mut work, arrival, given.records.into_vec());
    // For the proof alone: they say that what the keeper tells is well formed.
    let _checks = keeper.marked();
    let _formed = keeper.held();
    keeper.back();
    let Work { change, guids } = work;
    drop(guids);
    let counts = taken?;
    match change.finish(keeper, steps, at) {
        Ok(()) => Ok(counts),
        Err(fault) => Err(NotesFault {
            at_record: 0,
            fault,
        }),
    }
}

/// Does each of the records in its turn.
fn take_records<K: Keeper>(
    keeper: &mut K,
    work: &mut Work,
    arrival: Arrival,
    records: Vec<Record>,
) -> Result<Imported, NotesFault>
    requires marked { is_marked (K.keeping keeper.old) ≡ true }
    requires held { (K.keeping keeper.old).headed.current ≡ true }
    ensures stays { IsMarkedAt (back (K.keeping keeper.old)) (K.keeping keeper.new) }
    ensures ok { IfOk result (λ counts. TakesAll arrival records.items counts work.old (K.keeping keeper.old) work.new (K.keeping keeper.new)) }
    ensures refused { IfErr result (λ fault. IsOutside fault ⊎ RefusesOne arrival records.items work.old (K.keeping keeper.old) fault) }
    ensures listed { IfErr result IsImportFault }
    ensures cause { HasCauseOf failed (K.health keeper.old) (K.health keeper.new) result }
{
    let mut counts = Imported {
        added: 0,
        updated: 0,
        same: 0,
    };
    let mut number = 0;
    for record in records {
        number += 1;
        match take_record(keeper, work, arrival, record) {
            Ok(outcome) => counts.count(outcome),
            Err(fault) => return Err(NotesFault::at(number, fault)),
        }
    }
    Ok(counts)
}

impl Imported {
    /// Counts one more record of this outcome.
    fn count(&mut self, outcome: Outcome)
        requires { self.old.added + (self.old.updated + self.old.same) < 2 ^ 63 }
        ensures { self.new ≡ counted outcome self.old }
    {
        match outcome {
            Outcome::Added => self.added += 1,
            Outcome::Updated => self.updated += 1,
            Outcome::Same => self.same += 1,
        }
    }
}

impl NotesFault {
    /// The fault of the record of this number, or of none if it is from outside.
    fn at(number: u64, fault: DeskFault) -> NotesFault
        ensures { result ≡ numbered number fault }
    {
        let at_record = match &fault {
            DeskFault::Failed => 0,
            DeskFault::Memory => 0,
            _ => number,
        };
        NotesFault { at_record, fault }
    }
}

impl From<KeepFault> for NotesFault {
    ghost use Rattle.ak_edit.specs.DeskFaults.{of_keep_fault};
    ghost use Rattle.std.specs.Prelude.{◌≡◌};

    ghost from_gives = { λ fault given. given ≡ record { at_record = 0; fault = of_keep_fault fault } };

    fn from(fault: KeepFault) -> NotesFault {
        NotesFault {
            at_record: 0,
            fault: DeskFault::from(fault),
        }
    }
}
