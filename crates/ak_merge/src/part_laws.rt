// Rows that are taken part by part, and lists of wanted rows.
ghost use Rattle.std.specs.Prelude.{◌≡◌, ◌≢◌, ◌↔◌, ◌≤◌, ℤ, pos, ◌≤ℤ◌, IsTrue, List, ◌++◌, map, length, Some};
ghost use Rattle.std.specs.FinMap.{get};
ghost use Rattle.std.specs.List.{All, Contains};
ghost use Rattle.std.specs.Option.{option_map};
ghost use Rattle.ak_base.specs.Heads.{IsWithin};
ghost use Rattle.ak_base.specs.Limits.{last_usn};
ghost use Rattle.ak_base.specs.Rows.{IsChecked, name_of, usn_of, with_usn};
ghost use Rattle.ak_base.specs.Tables.{graves_of, grave_code};
ghost use Rattle.ak_base.specs.declared.names.Name.{Name};
ghost use Rattle.ak_base.specs.declared.names.Table.{Table};
ghost use Rattle.ak_base.specs.declared.rows.Row.{Row};
ghost use Rattle.ak_base.specs.declared.rows.Row.TheVariants as rows;
ghost use Rattle.ak_keep.specs.Collections.{Rows, is_pending, wanted_past};
ghost use Rattle.ak_keep.specs.declared.keepers.Wanted.{Wanted};
ghost use Rattle.ak_keep.specs.declared.keepers.Wanted.TheVariants.{Unsent};
ghost use Rattle.ak_merge.specs.Exchanges.{StandsWanted, settled, IsPartSettled};
ghost use Rattle.ak_merge.specs.Holdings.{AreNamed, AreChecked, IsSingle};
ghost use Rattle.ak_merge.specs.Takings.{all_taken};
ghost use Rattle.ak_merge.specs.declared.sides.Side.{Side};

/// The usns of rows that come make no difference: graves may travel as ids, and be made anew.
pub fn numbers_make_no_difference()
    ensures any { (side : Side) (usn : ℤ) (number : Row → ℤ) (came : List Row) (held : Rows) → all_taken side usn (map (λ row. with_usn row (number row)) came) held ≡ all_taken side usn came held }
    ensures same { (side : Side) (usn : ℤ) (one other : List Row) (held : Rows) → map (λ row. with_usn row (pos 0)) one ≡ map (λ row. with_usn row (pos 0)) other → all_taken side usn one held ≡ all_taken side usn other held }
{}

/// A row in a table of graves is the grave that its id, that table and a usn make.
pub fn graves_are_made_anew()
    ensures { (row : Row) (usn kind : ℤ) (table : Table) → IsChecked row → graves_of table ≡ Some (name_of row).table → grave_code table ≡ Some kind → with_usn row usn ≡ rows.Grave (record { usn = usn; oid = (name_of row).id; kind = kind }) }
{}

/// To take all rows is to take the rest after the front.
#[tactic(auto, using(crate::proofs::PartLaws::parts_add_up))]
pub fn parts_add_up()
    ensures { (side : Side) (usn : ℤ) (front rest : List Row) (held : Rows) → all_taken side usn (front ++ rest) held ≡ all_taken side usn rest (all_taken side usn front held) }
{}

/// A row that stands in the end with another usn than the one that is taken with stood after every front of what
/// was taken: a row that comes never stands with its old usn.
pub fn rows_stand_between()
    ensures { (side : Side) (usn : ℤ) (front rest : List Row) (held : Rows) (name : Name) (row : Row) → usn_of row ≢ usn → get (all_taken side usn (front ++ rest) held) name ≡ Some row → get (all_taken side usn front held) name ≡ Some row }
{}

/// What was not sent yet after rows were taken stood there before.
pub fn pending_was_held()
    ensures { (side : Side) (usn : ℤ) (came : List Row) (held : Rows) (name : Name) (row : Row) → pos 0 ≤ℤ usn → get (all_taken side usn came held) name ≡ Some row → IsTrue (is_pending row) → get held name ≡ Some row }
{}

/// Whatever rows come, of a part or of all, each row stands under its name and in its ranges, and none beside its
/// own grave, if so it was before.
pub fn takings_stay_lawful()
    ensures named { (side : Side) (usn : ℤ) (came : List Row) (held : Rows) → AreNamed (get held) → AreNamed (get (all_taken side usn came held)) }
    ensures checked { (side : Side) (usn : ℤ) (came : List Row) (held : Rows) → All IsChecked came → IsWithin (pos 0) last_usn usn → AreChecked (get held) → AreChecked (get (all_taken side usn came held)) }
    ensures single { (side : Side) (usn : ℤ) (came : List Row) (held : Rows) → IsSingle (get held) → IsSingle (get (all_taken side usn came held)) }
{}

/// A device may settle what it has sent before it takes what comes: once it settles the rest the rows are the same,
/// and what is left to settle was held and not sent yet.
pub fn settling_may_come_first()
    ensures rows { (side : Side) (usn : ℤ) (came : List Row) (held early : Rows) → IsPartSettled usn (get held) (get early) → (name : Name) → option_map (settled usn) (get (all_taken side usn came early) name) ≡ option_map (settled usn) (get (all_taken side usn came held) name) }
    ensures pending { (side : Side) (usn : ℤ) (came : List Row) (held early : Rows) (name : Name) (row : Row) → pos 0 ≤ℤ usn → IsPartSettled usn (get held) (get early) → get (all_taken side usn came early) name ≡ Some row → IsTrue (is_pending row) → get held name ≡ Some row }
{}

/// Rows that come never add to the rows of a table that were not sent yet, and none of other tables to the wanted
/// rows of a table.
pub fn wanted_rows_never_grow()
    ensures pending { (table : Table) (side : Side) (usn : ℤ) (came : List Row) (held : Rows) → pos 0 ≤ℤ usn → length (wanted_past table Unsent (pos 0) (all_taken side usn came held)) ≤ length (wanted_past table Unsent (pos 0) held) }
    ensures others { (table : Table) (want : Wanted) (side : Side) (usn : ℤ) (came : List Row) (held : Rows) → All (λ row. (name_of row).table ≢ table) came → length (wanted_past table want (pos 0) (all_taken side usn came held)) ≤ length (wanted_past table want (pos 0) held) }
{}

/// The wanted rows of a table from id 0 on are exactly the rows of the table that stand and are wanted.
pub fn wanted_rows_are_listed()
    ensures { (table : Table) (want : Wanted) (held : Rows) (row : Row) → AreNamed (get held) → AreChecked (get held) → Contains (wanted_past table want (pos 0) held) row ↔ StandsWanted table want held row }
{}
