// Whether a device has something to send.
ghost use Rattle.std.specs.Prelude.{◌≡◌};
ghost use Rattle.ak_client.specs.Unsent.{has_unsent, has_unsent_in, has_unsent_row, has_unsent_tag};
ghost use Rattle.ak_keep.specs.Readings.{ReadsBy};

use ak_base::{Table, Tag};
use ak_keep::{KeepFault, Keeper, Wanted};

/// Whether a tag or a row was not sent yet. It reads no row if a tag was not, and else one row of each table at most.
pub(crate) fn has_unsent<K: Keeper>(keeper: &mut K, tags: &[Tag]) -> Result<bool, KeepFault>
    ensures reads { ReadsBy K.Lookup keeper.old keeper.new result (λ h has. has ≡ has_unsent h.rows tags.now) }
{
    if has_unsent_tag(tags) {
        return Ok(true);
    }
    has_unsent_row(keeper)
}

/// Whether a tag was not sent yet.
fn has_unsent_tag(tags: &[Tag]) -> bool
    ensures { result ≡ has_unsent_tag tags.now }
{
    for tag in tags {
        if tag.usn == -1 {
            return true;
        }
    }
    false
}

/// Whether a row was not sent yet.
fn has_unsent_row<K: Keeper>(keeper: &mut K) -> Result<bool, KeepFault>
    ensures reads { ReadsBy K.Lookup keeper.old keeper.new result (λ h has. has ≡ has_unsent_row h.rows) }
{
    for table in &Table::all() {
        if has_unsent_in(keeper, *table)? {
            return Ok(true);
        }
    }
    Ok(false)
}

/// Whether a row of this table was not sent yet.
fn has_unsent_in<K: Keeper>(keeper: &mut K, table: Table) -> Result<bool, KeepFault>
    ensures reads { ReadsBy K.Lookup keeper.old keeper.new result (λ h has. has ≡ has_unsent_in h.rows table) }
{
    let page = keeper.pending(table, Wanted::Unsent, 0, 1)?;
    Ok(!page.as_slice().is_empty())
}
