use ak_base::{Head, Table};
use ak_keep::{KeepFault, Lookup, Readable, Walk};
use ak_memory::MemoryKeeper;

/// Whether both keepers hold the same head and the same rows. Keepers that can't be read don't.
pub fn hold_the_same<K: Readable>(keeper: &mut K, twin: &mut MemoryKeeper) -> bool {
    for table in &Table::all() {
        if !matches!(hold_the_same_rows(keeper, twin, *table), Ok(true)) {
            return false;
        }
    }
    hold_the_same_head(keeper, twin)
}

fn hold_the_same_head<K: Readable>(keeper: &mut K, twin: &mut MemoryKeeper) -> bool {
    match keeper.head() {
        Ok(head) => is_head_of(twin.head(), &head),
        Err(_) => false,
    }
}

fn is_head_of(held: Result<Option<Head>, KeepFault>, head: &Option<Head>) -> bool {
    match held {
        Ok(held) => held == *head,
        Err(_) => false,
    }
}

/// Whether both have the same rows in the table, page by page.
fn hold_the_same_rows<K: Readable>(
    keeper: &mut K,
    twin: &mut MemoryKeeper,
    table: Table,
) -> Result<bool, KeepFault> {
    let mut walk = Walk::over(table);
    let mut of_twin = Walk::over(table);
    'pages: while !walk.is_done() && !of_twin.is_done() {
        if walk.next(keeper)? != of_twin.next(twin)? {
            return Ok(false);
        }
    }
    Ok(walk.is_done() == of_twin.is_done())
}
