// What a device sends of its own collection in an upload, and what it puts in its place before it asks.
ghost use Rattle.std.specs.Prelude.{◌≡◌, ◌+◌, ◌++◌, ◌∷◌, [], true, filter, IfOk, OnOk};
ghost use Rattle.ak_base.specs.Heads.{IsHeadInRange, tag_names};
ghost use Rattle.ak_base.specs.Names.{table_place};
ghost use Rattle.ak_keep.specs.Keepers.{IsMarkedAt, KeepCause, WhereHeld, back, is_marked};
ghost use Rattle.ak_keep.specs.Readings.{ReadsBy};
ghost use Rattle.ak_merge.specs.Commits.{uploaded_rows};
ghost use Rattle.ak_server_steps.specs.Wholes.{rows_in};
ghost use Rattle.ak_session.specs.Uploads.{is_plain, whole_to_send};
ghost use Rattle.ak_transfers.specs.UploadParts.{MayBePut, MayBePutBefore, all_rows, plain_rows, prepared, prepared_head, whole_sent_with};

use ak_base::{Head, List, Memory, Row, Table};
use ak_keep::{KeepFault, Keeper, Walk};
use ak_merge::take_tags;
use ak_messages::Whole;
use ak_sync_rows::{append_page, head_of, tag_names, uploaded_rows};
use std::alloc::Global;

/// Puts what an upload leaves in place of all that is held, but for the moments that the server gives, and answers what is to
/// be sent. A refusal leaves the keeper marked.
pub(crate) fn prepare<K: Keeper>(alloc: Global, keeper: &mut K) -> Result<Whole, KeepFault>
    requires marked { is_marked (K.keeping keeper.old) ≡ true }
    requires held { (K.keeping keeper.old).headed.current ≡ true }
    ensures sent { IfOk result (λ whole. WhereHeld (K.keeping keeper.old) (λ c. whole ≡ whole_to_send c)) }
    ensures put { IfOk result (λ whole. K.keeping keeper.new ≡ prepared whole (K.keeping keeper.old)) }
    ensures stays { IsMarkedAt (back (K.keeping keeper.old)) (K.keeping keeper.new) }
    ensures cause { KeepCause (K.health keeper.old) (K.health keeper.new) result }
{
    let head = head_of(keeper)?;
    let rows = plain_rows(alloc, keeper)?;
    let kept = uploaded_rows(alloc, rows.as_slice())?;
    let made = prepared_head(alloc, &head)?;
    keeper.replace_all(kept, made)?;
    Ok(whole_sent_with(rows, head))
}

/// What is sent of these rows and this head.
fn whole_sent_with(rows: List<Row>, head: Head) -> Whole
    ensures { result ≡ whole_sent_with rows head }
{
    Whole {
        rows,
        crt: head.crt,
        moment: head.moment,
        schema: head.schema,
        usn: 0,
        conf: head.conf,
        tags: head.tags,
    }
}

/// The rows that are held but the graves, by table and id.
fn plain_rows<K: Keeper>(alloc: Global, from: &mut K) -> Result<List<Row>, KeepFault>
    ensures reads { ReadsBy K.Lookup from.old from.new result (λ h rows. rows ≡ plain_rows h.rows) }
    ensures may { IfOk result MayBePut }
{
    let rows = all_rows(alloc, from)?;
    Ok(without_graves(alloc, rows)?)
}

/// All rows that are held, by table and id.
fn all_rows<K: Keeper>(alloc: Global, from: &mut K) -> Result<Vec<Row>, KeepFault>
    ensures reads { ReadsBy K.Lookup from.old from.new result (λ h rows. rows.items ≡ all_rows h.rows) }
    ensures may { IfOk result (λ rows. MayBePut rows.items) }
{
    // For the proof alone: they say that what the keeper tells is well formed, so that ids are over 0.
    let _checks = from.marked();
    let _formed = from.held();
    let mut rows = Vec::new(alloc);
    for table in &Table::all() {
        read_table(from, *table, &mut rows)?;
    }
    Ok(rows)
}

/// Adds all rows of a table at the end, by id.
fn read_table<K: Keeper>(from: &mut K, table: Table, rows: &mut Vec<Row>) -> Result<(), KeepFault>
    ensures reads { ReadsBy K.Lookup from.old from.new result (λ h done.
        rows.new.items ≡ rows.old.items ++ rows_in table h.rows) }
    ensures may { OnOk result (MayBePutBefore (table_place table) rows.old.items
        → MayBePutBefore (table_place table + 1) rows.new.items) }
{
    // For the proof alone: it says that all that the keeper gives passes its check.
    let _checks = from.marked();
    let mut walk = Walk::over(table);
    'pages: while !walk.is_done() {
        let page = walk.next(from)?;
        append_page(rows, page)?;
    }
    Ok(())
}

/// These rows but the graves.
fn without_graves(alloc: Global, rows: Vec<Row>) -> Result<List<Row>, Memory>
    ensures { IfOk result (λ plain. plain ≡ filter is_plain rows.items) }
{
    let mut plain = List::new(alloc);
    for row in rows {
        add_plain(&mut plain, row)?;
    }
    Ok(plain)
}

/// Adds the row at the end, unless it is a grave.
fn add_plain(rows: &mut List<Row>, row: Row) -> Result<(), Memory>
    ensures { OnOk result (rows.new ≡ rows.old ++ filter is_plain (row ∷ [])) }
{
    if row.buried().is_some() {
        return Ok(());
    }
    rows.push(row)
}

/// The head of what an upload leaves, until the server told the moments: the next usn is 1, and each tag has the usn 0.
fn prepared_head(alloc: Global, head: &Head) -> Result<Head, Memory>
    requires { IsHeadInRange head.now }
    ensures made { IfOk result (λ made. made ≡ prepared_head head.now) }
    ensures range { IfOk result IsHeadInRange }
{
    let names = tag_names(alloc, head.tags.as_slice())?;
    let tags = take_tags(List::new(alloc), names.as_slice(), 0)?;
    let conf = head.conf.copy()?;
    Ok(Head {
        crt: head.crt,
        moment: head.moment,
        schema: head.schema,
        usn: 1,
        last_sync: head.moment,
        conf,
        tags,
    })
}
