ghost use Rattle.std.specs.Prelude.{◌≡◌, ◌++◌, ◌||◌, ◌∷◌, [], if◌then◌else◌, true, is_some, None, IfOk, OnOk};
ghost use Rattle.std.specs.BTreeMap.{is_at};
ghost use Rattle.std.specs.List.{All};
ghost use Rattle.std.specs.List.Sorted.{IsStrictlySortedBy};
ghost use Rattle.ak_base.specs.Names.{name_cmp};
ghost use Rattle.ak_base.specs.declared.names.Name.{Name as AnyName};
ghost use Rattle.ak_keep.specs.Collections.{IsWellFormed};
ghost use Rattle.ak_tables.specs.Tables.{holding, is_among};
ghost use Rattle.ak_journal_rows.specs.Changes.{HasWordId, IsOfForm};
ghost use Rattle.ak_journal_changes.specs.HeldNames.{IsChangeOf, names_free, rows_held};

use ak_base::{Head, List, Memory, Name, Row};
use ak_journal_rows::Change;
use ak_memory::MarkedRows;
use ak_tables::Touched;
use std::alloc::Global;
use std::collections::BTreeSet;

/// The change that tells of what was touched, by what is held now: it puts the rows that are held under touched names, and
/// cuts the touched names under which none is.
pub fn change_of(
    alloc: Global,
    rows: &MarkedRows,
    head: &Option<Head>,
    touched: &Touched,
) -> Result<Change, Memory>
    requires held { IsWellFormed (holding rows.now.current head.now) }
    requires set { touched.now.head ≡ true → is_some head.now ≡ true }
    requires whole { touched.now.whole ≡ true → touched.now.head ≡ true }
    ensures formed { IfOk result IsOfForm }
    ensures change { IfOk result (IsChangeOf touched.now (holding rows.now.current head.now)) }
{
    let names = names_in_order(alloc, touched.names.as_slice())?;
    let mut cut = List::new(alloc);
    let mut put = List::new(alloc);
    add_each(rows, names.as_slice(), &mut cut, &mut put)?;
    let head = head_if(touched.head, head)?;
    Ok(Change {
        all: touched.whole,
        cut,
        head,
        put,
    })
}

/// A copy of the head, if it was set.
fn head_if(is_set: bool, head: &Option<Head>) -> Result<Option<Head>, Memory>
    ensures { IfOk result (λ made. made ≡ (if is_set then head.now else None)) }
{
    if !is_set {
        return Ok(None);
    }
    match head {
        Some(head) => Ok(Some(head.copy()?)),
        None => Ok(None),
    }
}

/// Adds the rows that are held under these names, and the names under which none is.
fn add_each(
    rows: &MarkedRows,
    names: &[Name],
    cut: &mut List<Name>,
    put: &mut List<Row>,
) -> Result<(), Memory>
    ensures cut { OnOk result (cut.new ≡ cut.old ++ names_free rows.now.current names.now) }
    ensures put { OnOk result (put.new ≡ put.old ++ rows_held rows.now.current names.now) }
{
    for name in names {
        add_name(rows, *name, cut, put)?;
    }
    Ok(())
}

/// Adds the row that is held under the name, or the name if none is.
fn add_name(
    rows: &MarkedRows,
    name: Name,
    cut: &mut List<Name>,
    put: &mut List<Row>,
) -> Result<(), Memory>
    ensures cut { OnOk result (cut.new ≡ cut.old ++ names_free rows.now.current (name ∷ [])) }
    ensures put { OnOk result (put.new ≡ put.old ++ rows_held rows.now.current (name ∷ [])) }
{
    match rows.get(name)? {
        Some(row) => put.push(row),
        None => cut.push(name),
    }
}

/// These names, by table and then by id, each once.
fn names_in_order(alloc: Global, names: &[Name]) -> Result<List<Name>, Memory>
    ensures same { IfOk result (λ made. (name : AnyName) → is_among made name ≡ is_among names.now name) }
    ensures ascend { IfOk result (λ made. IsStrictlySortedBy name_cmp made) }
    ensures ids { IfOk result (All HasWordId) }
{
    let mut set = BTreeSet::new(alloc);
    add_names(&mut set, names)?;
    listed(alloc, &set)
}

/// Adds these names.
fn add_names(set: &mut BTreeSet<Name>, names: &[Name]) -> Result<(), Memory>
    ensures { OnOk result ((name : AnyName) → is_among set.new.keys name ≡ (is_among names.now name || is_among set.old.keys name)) }
{
    for name in names {
        add_to(set, *name)?;
    }
    Ok(())
}

/// Adds the name, if it is not there.
fn add_to(set: &mut BTreeSet<Name>, name: Name) -> Result<(), Memory>
    ensures { OnOk result ((other : AnyName) → is_among set.new.keys other ≡ (is_at (name_cmp other) name || is_among set.old.keys other)) }
{
    set.insert(name)?;
    Ok(())
}

/// The names of the set, in ascending order.
fn listed(alloc: Global, set: &BTreeSet<Name>) -> Result<List<Name>, Memory>
    ensures names { IfOk result (λ made. made ≡ set.now.keys) }
    ensures ascend { IsStrictlySortedBy name_cmp set.now.keys }
    ensures ids { IfOk result (All HasWordId) }
{
    let mut made = List::new(alloc);
    for name in set {
        made.push(own(name))?;
    }
    Ok(made)
}

/// The name. Its id is a number of 64 bits.
fn own(name: &Name) -> Name
    ensures same { result ≡ name.now }
    ensures id { HasWordId result }
{
    Name {
        table: name.table,
        id: name.id,
    }
}
