ghost use Rattle.std.specs.Prelude.{◌≡◌, find, IfOk};
ghost use Rattle.std.specs.Option.{option_map};
ghost use Rattle.ak_base.specs.Rows.{name_of};
ghost use Rattle.ak_keep.specs.Keepers.{WhereTold};
ghost use Rattle.ak_keep.specs.Readings.{ReadsBy};
ghost use Rattle.ak_merge.specs.Conflicts.{EitherCause, first_conflict, first_conflict_in, conflicts, has_conflict};

use ak_base::{Name, Row, Table};
use ak_keep::{KeepFault, Lookup, Readable, Walk};

/// The first name, by table and then by id, under which the two hold rows with equal stamps that are not equal,
/// usns aside; None if the two are apart.
pub fn apart<A: Readable, B: Lookup>(a: &mut A, b: &mut B) -> Result<Option<Name>, KeepFault>
    ensures first { IfOk result (λ first. WhereTold (A.keeping a.old) (λ c. WhereTold (B.keeping b.old) (λ d. first ≡ first_conflict c.rows d.rows))) }
    ensures one_kept { A.kept a.new ≡ A.kept a.old }
    ensures other_kept { B.kept b.new ≡ B.kept b.old }
    ensures one_same { A.keeping a.new ≡ A.keeping a.old }
    ensures other_same { B.keeping b.new ≡ B.keeping b.old }
    ensures cause { EitherCause (A.health a.old) (A.health a.new) (B.health b.old) (B.health b.new) result }
{
    for table in &Table::all() {
        if let Some(name) = first_conflict_in(a, b, *table)? {
            return Ok(Some(name));
        }
    }
    Ok(None)
}

/// The first such name of a table.
fn first_conflict_in<A: Readable, B: Lookup>(
    a: &mut A,
    b: &mut B,
    table: Table,
) -> Result<Option<Name>, KeepFault>
    ensures first { IfOk result (λ first. WhereTold (A.keeping a.old) (λ c. WhereTold (B.keeping b.old) (λ d. first ≡ first_conflict_in table c.rows d.rows))) }
    ensures one_kept { A.kept a.new ≡ A.kept a.old }
    ensures other_kept { B.kept b.new ≡ B.kept b.old }
    ensures one_same { A.keeping a.new ≡ A.keeping a.old }
    ensures other_same { B.keeping b.new ≡ B.keeping b.old }
    ensures cause { EitherCause (A.health a.old) (A.health a.new) (B.health b.old) (B.health b.new) result }
{
    let mut walk = Walk::over(table);
    'pages: while !walk.is_done() {
        let page = walk.next(a)?;
        if let Some(name) = conflict_among(b, page.as_slice())? {
            return Ok(Some(name));
        }
    }
    Ok(None)
}

/// The name of the first of these rows of which the other side holds an unequal one with an equal stamp.
fn conflict_among<L: Lookup>(from: &mut L, among: &[Row]) -> Result<Option<Name>, KeepFault>
    ensures reads { ReadsBy L.Lookup from.old from.new result (λ h first. first ≡ option_map name_of (find (has_conflict h.rows) among.now)) }
{
    for row in among {
        if has_conflict(from, row)? {
            return Ok(Some(row.name()));
        }
    }
    Ok(None)
}

/// Whether the other side holds an unequal row of the same name with an equal stamp.
fn has_conflict<L: Lookup>(from: &mut L, row: &Row) -> Result<bool, KeepFault>
    ensures reads { ReadsBy L.Lookup from.old from.new result (λ h conflict. conflict ≡ has_conflict h.rows row.now) }
{
    let held = from.get(row.name())?;
    Ok(conflicts(row, &held))
}

/// Whether the other row is there, with an equal stamp, and is not equal, usns aside.
fn conflicts(row: &Row, other: &Option<Row>) -> bool
    ensures { result ≡ conflicts row.now other.now }
{
    match other {
        Some(held) => row.stamp() == held.stamp() && !row.same_content(held),
        None => false,
    }
}
