ghost use Rattle.std.specs.Prelude.{◌≡◌, ◌⊎◌, ◌++◌, ◌∷◌, [], ℕ, List as Sequence, true, is_some, Err, OnErr, OnOk, Some};
ghost use Rattle.ak_journal_changes.specs.HeldNames.{IsChangeOf};
ghost use Rattle.ak_journal_rows.specs.Texts.{IsPayloadOf};
ghost use Rattle.ak_journal_rows.specs.declared.changes.Change.{Change};
ghost use Rattle.ak_journals.specs.Journals.{IsInOrder, kept};
ghost use Rattle.ak_journals.specs.declared.journals.Journal.{Journal as Kind};
ghost use Rattle.ak_keep.specs.Collections.{Holding, IsWellFormed};
ghost use Rattle.ak_keep.specs.Keepers.{KeepCause};
ghost use Rattle.ak_keep.specs.declared.keepers.KeepFault.TheVariants.{Memory as WantOfMemory};
ghost use Rattle.ak_tables.specs.Tables.{Covers, CrashLeaves, holding};
ghost use Rattle.ak_journal_tables.specs.Holdings.{HoldsIfTold, Stores};

use ak_base::Head;
use ak_disks::Disk;
use ak_journal_changes::change_of;
use ak_journal_rows::write_change;
use ak_journals::{DiskFault, Journal};
use ak_keep::KeepFault;
use ak_memory::MarkedRows;
use ak_tables::Touched;
use std::alloc::Global;

/// Makes the journal ready for a commit: what a refused one left is cut off.
pub(crate) fn make_ready<D: Disk>(journal: &mut Journal<D>) -> Result<(), KeepFault>
    requires { IsInOrder D.content D.may_leave journal.old }
    ensures in_order { IsInOrder D.content D.may_leave journal.new }
    ensures stored { (held : Holding) → Stores D.content journal.old held → Stores D.content journal.new held }
    ensures ready { OnOk result (journal.new.ready ≡ true) }
    ensures idle { journal.old.ready ≡ true → journal.new ≡ journal.old }
    ensures any_moment { (held : Holding) → Stores D.content journal.old held
        → CrashLeaves (λ (j : Kind D). D.moment j.disk) (λ (j : Kind D). D.may_have_left j.disk) journal.old journal.new
        (λ image. D.may_have_left journal.old.disk (D.moment journal.old.disk) image ⊎ HoldsIfTold D.content journal.old.disk held image) }
    ensures lasts { OnOk result ((held : Holding) → Stores D.content journal.new held → (image : Sequence ℕ)
        → D.may_have_left journal.new.disk (D.moment journal.new.disk) image → HoldsIfTold D.content journal.new.disk held image) }
    ensures cause { KeepCause (D.health journal.old.disk) (D.health journal.new.disk) result }
    ensures calm { OnOk result (D.health journal.new.disk ≡ D.health journal.old.disk) }
    ensures unfailing { result ≡ Err WantOfMemory → ⊥ }
{
    match journal.mark() {
        Ok(()) => Ok(()),
        Err(_) => Err(KeepFault::Failed),
    }
}

/// Commits these rows and this head in place of what was stored. Only under the names and parts that were touched may they
/// differ from it.
pub(crate) fn commit<D: Disk>(
    alloc: Global,
    journal: &mut Journal<D>,
    rows: &MarkedRows,
    head: &Option<Head>,
    touched: &Touched,
) -> Result<(), KeepFault>
    requires in_order { IsInOrder D.content D.may_leave journal.old }
    requires ready { journal.old.ready ≡ true }
    requires held { IsWellFormed (holding rows.now.current head.now) }
    requires set { touched.now.head ≡ true → is_some head.now ≡ true }
    requires whole { touched.now.whole ≡ true → touched.now.head ≡ true }
    ensures in_order { IsInOrder D.content D.may_leave journal.new }
    ensures ok { OnOk result ((was : Holding) → Stores D.content journal.old was → Covers touched.now was (holding rows.now.current head.now)
        → Stores D.content journal.new (holding rows.now.current head.now)) }
    ensures err { OnErr result ((was : Holding) → Stores D.content journal.old was → Stores D.content journal.new was) }
    ensures still_ready { OnOk result (journal.new.ready ≡ true) }
    ensures any_moment { (was : Holding) → Stores D.content journal.old was → Covers touched.now was (holding rows.now.current head.now)
        → CrashLeaves (λ (j : Kind D). D.moment j.disk) (λ (j : Kind D). D.may_have_left j.disk) journal.old journal.new
        (λ image. HoldsIfTold D.content journal.old.disk was image ⊎ HoldsIfTold D.content journal.old.disk (holding rows.now.current head.now) image) }
    ensures lasts { OnOk result ((was : Holding) → Stores D.content journal.old was → Covers touched.now was (holding rows.now.current head.now)
        → (image : Sequence ℕ) → D.may_have_left journal.new.disk (D.moment journal.new.disk) image
        → HoldsIfTold D.content journal.new.disk (holding rows.now.current head.now) image) }

    // Its frame, and no other, is added, and tells what was touched.
    ensures frame { OnOk result ((payloads : Sequence (Sequence ℕ)) → kept D.content journal.old ≡ Some payloads → (payload : Sequence ℕ) × (change : Change)
        × (kept D.content journal.new ≡ Some (payloads ++ payload ∷ [])) × IsPayloadOf payload change × IsChangeOf touched.now (holding rows.now.current head.now) change) }
    ensures cause { KeepCause (D.health journal.old.disk) (D.health journal.new.disk) result }
    ensures calm { OnOk result (D.health journal.new.disk ≡ D.health journal.old.disk) }
    ensures memory { result ≡ Err WantOfMemory → journal.new ≡ journal.old }
{
    let change = change_of(alloc, rows, head, touched)?;
    let payload = write_change(alloc, &change)?;
    match journal.commit(payload) {
        Ok(()) => Ok(()),
        Err(DiskFault::Failed) => Err(KeepFault::Failed),
        Err(DiskFault::Memory) => Err(KeepFault::Memory),
    }
}
