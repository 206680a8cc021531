// Laws of rows and tables, as the contracts of functions that do nothing.
ghost use Rattle.std.specs.Prelude.{◌≡◌, ◌≤◌, ◌<◌, ◌^◌, ◌↔◌, ◌++◌, ◌∷◌, ℕ, ℤ, pos, true, false, IsTrue, List, [], Some, codes};
ghost use Rattle.std.specs.Fmt.{decimal};
ghost use Rattle.ak_base.specs.Contents.{same_but_stamp_and_usn, same_content};
ghost use Rattle.ak_base.specs.Cuts.{has, front, behind};
ghost use Rattle.ak_base.specs.Decimals.{number_of};
ghost use Rattle.ak_base.specs.Graves.{buried_table, grave_table};
ghost use Rattle.ak_base.specs.Heads.{IsWithin};
ghost use Rattle.ak_base.specs.Limits.{last_stamp};
ghost use Rattle.ak_base.specs.OptionGroups.{AreOpeningOptions, IsCheckedOptions};
ghost use Rattle.ak_base.specs.Paths.{parts_of, text_below};
ghost use Rattle.ak_base.specs.Rows.{with_stamp_and_usn, with_usn};
ghost use Rattle.ak_base.specs.Tables.{buried_in, buried_name, grave_code, grave_name, graves_of, of_grave_code};
ghost use Rattle.ak_base.specs.declared.names.Name.{Name};
ghost use Rattle.ak_base.specs.declared.names.Table.{Table};
ghost use Rattle.ak_base.specs.declared.option_groups.Options.{Options};
ghost use Rattle.ak_base.specs.declared.rows.Row.{Row};

/// Rows have the same content exactly if they are equal once their usns are.
pub fn same_content_is_equality()
    ensures { (a b : Row) (usn : ℤ) → IsTrue (same_content a b) ↔ (with_usn a usn ≡ with_usn b usn) }
{}

/// Rows are equal but for stamp and usn exactly if they are equal once both are.
pub fn same_but_stamp_and_usn_is_equality()
    ensures { (a b : Row) (s u : ℤ) → IsTrue (same_but_stamp_and_usn a b) ↔ (with_stamp_and_usn a s u ≡ with_stamp_and_usn b s u) }
{}

/// The tables of graves and the tables of the rows that leave them are each other's inverse.
pub fn graves_and_rows()
    ensures { (table graves : Table) → (graves_of table ≡ Some graves) ↔ (buried_in graves ≡ Some table) }
{}

/// The names of graves and the names of the rows that leave them are each other's inverse.
pub fn name_and_grave()
    ensures { (name grave : Name) → (grave_name name ≡ Some grave) ↔ (buried_name grave ≡ Some name) }
{}

/// The stored codes of graves and the tables whose rows leave them are each other's inverse. A grave with such a code stands in
/// the table of their graves, and is of a row of theirs.
pub fn codes_of_graves()
    ensures inverse { (table : Table) (code : ℤ) → (grave_code table ≡ Some code) ↔ (of_grave_code code ≡ Some table) }
    ensures table { (table : Table) (code : ℤ) → of_grave_code code ≡ Some table → graves_of table ≡ Some (grave_table code) }
    ensures buried { (table : Table) (code : ℤ) → of_grave_code code ≡ Some table → buried_table code ≡ table }
{}

/// The options that a collection opens with pass their check.
pub fn opening_options_pass()
    ensures { (second : ℤ) (o : Options) → IsWithin (pos 0) last_stamp second → AreOpeningOptions second o → IsCheckedOptions o }
{}

/// The parts of a path, with `::` between them, are the path.
pub fn parts_make_the_path()
    ensures { (path : List ℕ) → text_below (parts_of path) ≡ codes "::" ++ path }
{}

/// A path with a `::` has the part before the first one, and then the parts of what comes after it. Any other path is one part.
pub fn parts_are_cut_at_colons()
    ensures cut { (path : List ℕ) → has (codes "::") path ≡ true → parts_of path ≡ front (codes "::") path ∷ parts_of (behind (codes "::") path) }
    ensures whole { (path : List ℕ) → has (codes "::") path ≡ false → parts_of path ≡ path ∷ [] }
{}

/// The decimal digits of a number stand for that number.
pub fn a_decimal_is_read()
    ensures { (most n : ℕ) → n ≤ most → most < 2 ^ 64 → number_of most (decimal n) ≡ Some n }
{}
