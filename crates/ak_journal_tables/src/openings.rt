ghost use Rattle.std.specs.Prelude.{◌≡◌, ◌⊎◌, ℕ, List as Sequence, [], true, false, None, IfErr, IfOk};
ghost use Rattle.std.specs.Option.{ForSome};
ghost use Rattle.ak_faults.specs.Causes.{Rose};
ghost use Rattle.ak_journal_forms.specs.Frames.{IsDamagedAt};
ghost use Rattle.ak_journals.specs.Journals.{IsInOrder};
ghost use Rattle.ak_journals.specs.Moments.{LeavesOnly};
ghost use Rattle.ak_keep.specs.Keepers.{IsRightlyKnown, all_known, is_marked};
ghost use Rattle.ak_journal_tables.specs.Holdings.{HoldsIfTold, HoldsOf, HoldsTheSame, IsOtherAt, Stores};

use crate::folds::collection_of;
use crate::tables::JournalTables;
use ak_disks::Disk;
use ak_journals::{Journal, JournalFault, Opened};
use ak_memory::MemoryKeeper;
use ak_tables::TableKeeper;
use std::alloc::Global;

/// A keeper whose collection stays in a journal on a disk.
pub type JournalKeeper<D> = TableKeeper<JournalTables<D>>;

/// Opens a disk that a crash may have left: reads the collection for which its file stands, and then cuts off what is behind
/// it and makes ready for a commit. A refusal gives the disk back, and a file that is damaged stays as it was.
pub fn open<D: Disk + Drop>(alloc: Global, disk: D) -> Result<JournalKeeper<D>, (JournalFault, D)>
    // What is held is that for which the file stands.
    ensures held { IfOk result (λ keeper. ForSome (D.content disk) (HoldsOf keeper.kept.current)) }
    ensures unmarked { IfOk result (λ keeper. is_marked (all_known keeper.kept) ≡ false) }
    ensures range { IfOk result (λ keeper. IsRightlyKnown (all_known keeper.kept)) }
    ensures stored { IfOk result (λ keeper. Stores D.content keeper.tables keeper.kept.current) }
    ensures ready { IfOk result (λ keeper. keeper.tables.ready ≡ true) }

    // At the place that is told a gate is open, and its payload is cut off, or is that of no change. The file stays.
    ensures damaged { IfErr result (λ refused. (place : ℕ) → refused.0 ≡ JournalFault.Damaged place
        → ForSome (D.content disk) (λ file. IsDamagedAt place file ⊎ IsOtherAt place file)) }
    ensures same { IfErr result (λ refused. (place : ℕ) → refused.0 ≡ JournalFault.Damaged place → D.content refused.1 ≡ D.content disk) }

    // A crash at any moment of the call leaves what one before it might have left, or the collection for which the file stands.
    ensures any_moment { IfOk result (λ keeper. LeavesOnly D.moment D.may_have_left disk keeper.tables.disk
        (λ image. D.may_leave disk image ⊎ HoldsTheSame D.content disk image)) }
    ensures any_moment_err { IfErr result (λ refused. LeavesOnly D.moment D.may_have_left disk refused.1
        (λ image. D.may_leave disk image ⊎ HoldsTheSame D.content disk image)) }

    // A crash after it leaves that collection.
    ensures lasts { IfOk result (λ keeper. (image : Sequence ℕ) → D.may_have_left keeper.tables.disk (D.moment keeper.tables.disk) image
        → HoldsIfTold D.content keeper.tables.disk keeper.kept.current image) }
    ensures cause { IfErr result (λ refused. refused.0 ≡ JournalFault.Failed → Rose (D.health disk) (D.health refused.1)) }
    ensures calm { IfOk result (λ keeper. D.health keeper.tables.disk ≡ D.health disk) }
{
    let opened = ak_journals::open(alloc, disk)?;
    let Opened { journal, payloads } = opened;
    match collection_of(alloc, payloads.as_slice()) {
        Ok(memory) => ready_keeper(alloc, journal, memory),
        Err(fault) => Err((fault, journal.into_disk())),
    }
}

/// A keeper of this collection over the journal that stores it, made ready for a commit.
fn ready_keeper<D: Disk + Drop>(
    alloc: Global,
    journal: Journal<D>,
    memory: MemoryKeeper,
) -> Result<JournalKeeper<D>, (JournalFault, D)>
    requires in_order { IsInOrder D.content D.may_leave journal }
    requires stored { Stores D.content journal memory.kept.current }
    requires unmarked { memory.kept.mark ≡ None }
    requires obeys { memory.fails ≡ [] }
    ensures kept { IfOk result (λ keeper. keeper.kept ≡ memory.kept) }
    ensures range { IfOk result (λ keeper. IsRightlyKnown (all_known keeper.kept)) }
    ensures stored { IfOk result (λ keeper. Stores D.content keeper.tables memory.kept.current) }
    ensures ready { IfOk result (λ keeper. keeper.tables.ready ≡ true) }
    ensures any_moment { IfOk result (λ keeper. LeavesOnly D.moment D.may_have_left journal.disk keeper.tables.disk
        (λ image. D.may_leave journal.disk image ⊎ HoldsIfTold D.content journal.disk memory.kept.current image)) }
    ensures any_moment_err { IfErr result (λ refused. LeavesOnly D.moment D.may_have_left journal.disk refused.1
        (λ image. D.may_leave journal.disk image ⊎ HoldsIfTold D.content journal.disk memory.kept.current image)) }
    ensures lasts { IfOk result (λ keeper. (image : Sequence ℕ) → D.may_have_left keeper.tables.disk (D.moment keeper.tables.disk) image
        → HoldsIfTold D.content keeper.tables.disk memory.kept.current image) }
    ensures failed { IfErr result (λ refused. refused.0 ≡ JournalFault.Failed) }
    ensures cause { IfErr result (λ refused. Rose (D.health journal.disk) (D.health refused.1)) }
    ensures calm { IfOk result (λ keeper. D.health keeper.tables.disk ≡ D.health journal.disk) }
{
    let mut journal = journal;
    match journal.mark() {
        Ok(()) => {
            let tables = JournalTables::over(alloc, journal);
            Ok(TableKeeper::of(alloc, tables, memory))
        }
        Err(_) => Err((JournalFault::Failed, journal.into_disk())),
    }
}
