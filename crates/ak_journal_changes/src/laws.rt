// A law of the change that tells of what was touched, as the contract of a function that does nothing.
ghost use Rattle.std.specs.Prelude.{◌≡◌};
ghost use Rattle.ak_journal_changes.specs.HeldNames.{IsChangeOf};
ghost use Rattle.ak_journal_rows.specs.Changes.{IsOfForm, after_change};
ghost use Rattle.ak_journal_rows.specs.declared.changes.Change.{Change};
ghost use Rattle.ak_keep.specs.Collections.{Holding};
ghost use Rattle.ak_tables.specs.Tables.{Covers};
ghost use Rattle.ak_tables.specs.declared.touched.Touched.{Touched};

/// Over what was stored, the change that tells of what was touched since makes what is held.
#[tactic(auto, using(crate::proofs::Differences::makes))]
pub fn the_change_makes_what_is_held()
    ensures { (touched : Touched) (was now : Holding) (change : Change) → IsOfForm change → IsChangeOf touched now change
        → Covers touched was now → after_change change was ≡ now }
{}
