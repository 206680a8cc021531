// Laws of the forms, as the contracts of functions that do nothing.
ghost use Rattle.std.specs.Prelude.{◌≡◌, ◌⊎◌, ◌≤◌, ◌≤ℤ◌, ℕ, ℤ, pos, List, length, false, Ok, Some};
ghost use Rattle.serde_json.specs.Data.{Data};
ghost use Rattle.serde_json.specs.Written.{has_float};
ghost use Rattle.ak_base.specs.Heads.{AreConfNumbersInRange};
ghost use Rattle.ak_base.specs.Rows.{IsChecked, name_of};
ghost use Rattle.ak_base.specs.declared.heads.Conf.{Conf};
ghost use Rattle.ak_base.specs.declared.names.Table.{Table};
ghost use Rattle.ak_base.specs.declared.option_groups.Options.{Options};
ghost use Rattle.ak_base.specs.declared.rows.Row.{Row};
ghost use Rattle.ak_base.specs.declared.rows.Row.TheVariants as rows;
ghost use Rattle.ak_json.specs.Cells.{integer_at};
ghost use Rattle.ak_json.specs.Confs.{conf_fault, conf_json, ReadsConf};
ghost use Rattle.ak_json.specs.Decimals.{decimal_of, decimal_text};
ghost use Rattle.ak_json.specs.Faults.{AtMostOneFault, OnlyMemory, SomeFault, Tells};
ghost use Rattle.ak_json.specs.Forms.{options_form};
ghost use Rattle.ak_json.specs.Kinds.{IsOfText};
ghost use Rattle.ak_json.specs.Rows.{StandsIn, row_check, row_json, ReadsRow, RefusesRow};
ghost use Rattle.ak_json.specs.Versions.{is_old};

/// What is written of a row that passes its check is read, in its own table, as that row. So it is in any
/// table that the row stands in, if a grave's code is that of the table.
pub fn rows_are_read_again()
    ensures own { (row : Row) → IsChecked row → ReadsRow (name_of row).table (row_json row) row }
    ensures any { (t : Table) (row : Row) → StandsIn t row → row_check t row ≡ Ok tt → ReadsRow t (row_json row) row }
{}

/// What is written of settings in their ranges is read as these settings.
pub fn confs_are_read_again()
    ensures { (conf : Conf) → AreConfNumbersInRange conf → ReadsConf (conf_json conf) conf }
{}

/// What is written of a row holds whole numbers alone, so it has one compact text.
#[tactic(auto, using(crate::proofs::WholeNumbers::written_whole))]
pub fn whole_numbers_are_written()
    ensures { (row : Row) → has_float (row_json row) ≡ false }
{}

/// A row that is read is in its ranges, its steps in seconds.
pub fn what_is_read_is_in_range()
    ensures { (t : Table) (d : Data) (row : Row) → ReadsRow t d row → row_check t row ≡ Ok tt }
{}

/// An option group that is read, in either version, is written in version 2, and read from that as the same row. So
/// nothing is lost where a document of version 1 is read and written; its stamp and its usn stay.
pub fn option_groups_migrate()
    ensures again { (d : Data) (o : Options) → ReadsRow Table.Options d (rows.Options o) → ReadsRow Table.Options (row_json (rows.Options o)) (rows.Options o) }
    ensures stamp { (d : Data) (o : Options) → ReadsRow Table.Options d (rows.Options o) → o.stamp ≡ integer_at options_form 1 d }
    ensures usn { (d : Data) (o : Options) → ReadsRow Table.Options d (rows.Options o) → o.usn ≡ integer_at options_form 2 d }
    ensures version { (o : Options) → is_old (row_json (rows.Options o)) ≡ false }
{}

/// A factor that is written is read again, and no other text of it is shorter.
pub fn decimals_are_written()
    ensures again { (z : ℤ) → pos 0 ≤ℤ z → z ≤ℤ pos 999_999_999 → decimal_of (decimal_text z) ≡ Some z }
    ensures shortest { (text : List ℕ) (z : ℤ) → decimal_of text ≡ Some z → length (decimal_text z) ≤ length text }
{}

/// A value is read as one row at most: two rows that it is read as are equal.
pub fn one_row_is_read()
    ensures { (t : Table) (d : Data) (a b : Row) → ReadsRow t d a → ReadsRow t d b → a ≡ b }
{}

/// What is read, as a row or as settings, is refused only if memory is out.
pub fn what_is_read_is_not_refused()
    ensures row { (t : Table) (d : Data) (row : Row) → ReadsRow t d row → OnlyMemory (RefusesRow t d) }
    ensures conf { (d : Data) (conf : Conf) → ReadsConf d conf → OnlyMemory (Tells (conf_fault d)) }
{}

/// Two faults by which a value is refused are equal, unless memory was out at one of them.
pub fn one_fault_is_told()
    ensures row { (t : Table) (d : Data) → AtMostOneFault (RefusesRow t d) }
    ensures conf { (d : Data) → AtMostOneFault (Tells (conf_fault d)) }
{}

/// An object is read as one set of settings at most.
pub fn one_conf_is_read()
    ensures { (d : Data) (a b : Conf) → ReadsConf d a → ReadsConf d b → a ≡ b }
{}

/// Each value of a text is read, as a row and as settings, or refused by a fault though memory is not out.
pub fn each_value_is_read_or_refused()
    ensures row { (t : Table) (d : Data) → IsOfText d → ((row : Row) × ReadsRow t d row) ⊎ SomeFault (RefusesRow t d) }
    ensures conf { (d : Data) → IsOfText d → ((conf : Conf) × ReadsConf d conf) ⊎ SomeFault (Tells (conf_fault d)) }
{}
