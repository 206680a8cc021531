// A whole collection, as a download gives it.
ghost use Rattle.std.specs.Prelude.{◌≡◌, ◌++◌, true, map, IfSome};
ghost use Rattle.std.specs.FinMap.{entries};
ghost use Rattle.ak_keep.specs.Collections.{collection_of};
ghost use Rattle.ak_keep.specs.Keepers.{IsNamedRightly};
ghost use Rattle.ak_keep.specs.Readings.{ReadsBy};
ghost use Rattle.ak_protocol.specs.Replies.{whole_of};
ghost use Rattle.ak_server_steps.specs.Wholes.{rows_in, whole_given_with};

use ak_base::{Head, List, Row, Table};
use ak_keep::{KeepFault, Keeper, Walk};
use ak_messages::Whole;
use ak_sync_rows::{append_page, head_of};
use std::alloc::Global;

/// The whole collection that is held, with its head but for the moment of its last sync.
pub fn read_whole<K: Keeper>(alloc: Global, from: &mut K) -> Result<Whole, KeepFault>
    requires held { (K.keeping from.old).headed.current ≡ true }
    ensures reads { ReadsBy K.Lookup from.old from.new result (λ h whole. IfSome (collection_of h) (λ c. whole ≡ whole_of c)) }
    ensures known { IsNamedRightly (K.keeping from.old) }
{
    let head = head_of(from)?;
    whole_of(alloc, from, head)
}

/// All rows that are held by table and id, graves too, with this head but for the moment of its last sync.
pub fn whole_of<K: Keeper>(alloc: Global, from: &mut K, head: Head) -> Result<Whole, KeepFault>
    ensures reads { ReadsBy K.Lookup from.old from.new result (λ h whole.
        whole ≡ whole_of (record { rows = h.rows; head = head })) }
{
    let rows = all_rows(alloc, from)?;
    Ok(whole_given_with(rows, head))
}

/// The whole collection of these rows and this head.
fn whole_given_with(rows: List<Row>, head: Head) -> Whole
    ensures { result ≡ whole_given_with rows head }
{
    Whole {
        rows,
        crt: head.crt,
        moment: head.moment,
        schema: head.schema,
        usn: head.usn,
        conf: head.conf,
        tags: head.tags,
    }
}

/// All rows, by table and id.
fn all_rows<K: Keeper>(alloc: Global, from: &mut K) -> Result<List<Row>, KeepFault>
    ensures reads { ReadsBy K.Lookup from.old from.new result (λ h rows.
        rows ≡ map (λ entry. entry.1) (entries h.rows)) }
{
    // For the proof alone: they say that what the keeper tells is well formed, so that ids are over 0.
    let _checks = from.marked();
    let _formed = from.held();
    let mut rows = Vec::new(alloc);
    for table in &Table::all() {
        read_table(from, *table, &mut rows)?;
    }
    Ok(List::of(rows))
}

/// Adds all rows of a table at the end, by id.
fn read_table<K: Keeper>(from: &mut K, table: Table, rows: &mut Vec<Row>) -> Result<(), KeepFault>
    ensures reads { ReadsBy K.Lookup from.old from.new result (λ h done.
        rows.new.items ≡ rows.old.items ++ rows_in table h.rows) }
{
    let mut walk = Walk::over(table);
    'pages: while !walk.is_done() {
        let page = walk.next(from)?;
        append_page(rows, page)?;
    }
    Ok(())
}
