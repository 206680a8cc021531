// What follows for every caller from the rules of exports and imports.
ghost use Rattle.std.specs.Prelude.{ℤ, List, Some};
ghost use Rattle.ak_csv.specs.declared.csv_faults.CsvFault.{CsvFault};
ghost use Rattle.ak_imports.specs.KeptRows.{HoldsCollection};
ghost use Rattle.ak_imports.specs.declared.imports.Imported.{Imported};
ghost use Rattle.ak_keep.specs.Collections.{Collection, Rows};
ghost use Rattle.ak_keep.specs.Keepers.{Keeping};
ghost use Rattle.ak_note_files.specs.Exports.{export_text};
ghost use Rattle.ak_note_files.specs.Imports.{Imports, RefusesRecords};
ghost use Rattle.ak_note_files.specs.Returns.{HaveReturned, MayBeRead, MayReturnTo};
ghost use Rattle.ak_undo.specs.declared.steps.Step.{Step};

/// No record of an export breaks a rule where it is imported, if the type has as many fields there, and each note as many as
/// it, a guid that no note of another type there has, and texts of UTF-8; and if the first guid does not begin with a byte
/// order mark.
#[tactic(auto, using(crate::proofs::Returning::breaks_no_rule))]
pub fn exported_records_break_no_rule()
    ensures { (note_type : ℤ) (here : Rows) (c : Collection) (k : Keeping) (fault : CsvFault) → HoldsCollection k c
        → MayBeRead note_type here c.rows → RefusesRecords note_type (Some (export_text note_type here)) k fault → ⊥ }
{}

/// If an export is imported where no note has one of its guids, and it is not refused, its notes have come: in their order, with
/// the same guids, fields and tags, and nothing else. Each of them has as many fields as its type and tags as the desk writes
/// them, no two have one guid, and the first guid does not begin with a byte order mark.
#[tactic(auto, using(crate::proofs::Returning::notes_return))]
pub fn exported_notes_return()
    ensures { (note_type deck at : ℤ) (here : Rows) (c : Collection) (k now : Keeping) (steps later : List Step) (counts : Imported)
        → HoldsCollection k c → MayReturnTo note_type here c.rows
        → Imports (record { note_type = note_type; deck = deck }) at (Some (export_text note_type here)) k now steps later counts
        → HaveReturned note_type here c k now counts }
{}
