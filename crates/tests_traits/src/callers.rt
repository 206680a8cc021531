// A caller of any keeper, proved from what the trait says alone.
ghost use Rattle.std.specs.Prelude.{◌≡◌, true, false, OnOk, OnErr};
ghost use Rattle.ak_base.specs.Rows.{IsChecked};
ghost use Rattle.ak_base.specs.declared.rows.Row.TheVariants as rows;
ghost use Rattle.ak_keep.specs.Keepers.{IsMarkedAt, is_marked, put, marked_here, back, committed};

use ak_base::{List, Memory, Review, Row, Table};
use ak_keep::{KeepFault, Keeper, Readable, keep_or_back};
use ak_memory::MemoryKeeper;
use std::alloc::Global;

// Puts both reviews, or leaves all as it was.
fn store_both<K: Keeper>(keeper: &mut K, first: Review, second: Review) -> Result<(), KeepFault>
    requires unmarked { is_marked (K.keeping keeper.old) ≡ false }
    requires first { IsChecked (rows.Review first) }
    requires second { IsChecked (rows.Review second) }
    ensures ok { OnOk result (K.keeping keeper.new ≡ committed (put (rows.Review second) (put (rows.Review first) (marked_here (K.keeping keeper.old))))) }
    ensures err { OnErr result (K.keeping keeper.new ≡ K.keeping keeper.old) }
{
    keeper.mark()?;
    let made = put_both(keeper, first, second);
    keep_or_back(keeper, made)
}

fn put_both<K: Keeper>(keeper: &mut K, first: Review, second: Review) -> Result<(), KeepFault>
    requires marked { is_marked (K.keeping keeper.old) ≡ true }
    requires first { IsChecked (rows.Review first) }
    requires second { IsChecked (rows.Review second) }
    ensures ok { OnOk result (K.keeping keeper.new ≡ put (rows.Review second) (put (rows.Review first) (K.keeping keeper.old))) }
    ensures stays { IsMarkedAt (back (K.keeping keeper.old)) (K.keeping keeper.new) }
{
    keeper.put(Row::Review(first))?;
    keeper.put(Row::Review(second))
}

fn review(id: i64) -> Review {
    Review {
        id,
        cid: 7,
        usn: -1,
        ease: 3,
        ivl: 1,
        last_ivl: -60,
        factor: 2500,
        time: 4000,
        kind: 0,
    }
}

/// Whether it is refused where this call fails, the reviews that are held then, and whether it is marked.
fn tried(alloc: Global, call: u64) -> Result<(bool, u64, bool), Memory> {
    let first = review(8);
    let second = review(9);
    let mut keeper = MemoryKeeper::new(alloc);
    keeper.fail_at(List::of(Vec::from_slice(alloc, &[call])?));
    if first.check().is_err() || second.check().is_err() || keeper.marked() {
        return Err(Memory);
    }
    let is_refused = store_both(&mut keeper, first, second).is_err();
    Ok((
        is_refused,
        keeper.rows().count(Table::Review),
        keeper.marked(),
    ))
}

// The mark, the first row, the second, the commit, and no call.
#[test]
fn a_caller_takes_back_what_it_put(rt: HostRuntime) -> Result<(), Memory> {
    for call in 0..5 {
        let wanted = if call < 4 {
            (true, 0, false)
        } else {
            (false, 2, false)
        };
        assert!(rt; tried(rt.alloc(), call)? == wanted);
    }
    Ok(())
}
