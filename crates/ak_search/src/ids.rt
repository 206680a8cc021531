// The ids between commas, behind `nid:` and `cid:`.
ghost use Rattle.std.specs.Prelude.{◌≡◌, ◌++◌, IfOk, Some, None, map};
ghost use Rattle.std.specs.Option.{option_map};
ghost use Rattle.ak_search.specs.Terms.{wholes, ids_of};

use crate::numbers::whole;
use ak_base::{List, Memory};
use std::alloc::Global;

/// The ids between commas. None where one of them is no number.
pub(crate) fn ids_of(alloc: Global, text: &str) -> Result<Option<List<i64>>, Memory>
    ensures { IfOk result (λ ids. ids ≡ ids_of text.now) }
{
    let texts: Vec<&str> = text.split(',').collect(alloc)?;
    read_ids(alloc, &texts)
}

/// The ids between commas, None if one of them is none.
fn read_ids(alloc: Global, texts: &[&str]) -> Result<Option<List<i64>>, Memory>
    ensures { IfOk result (λ ids. ids ≡ wholes (map (λ text. text.now) texts.now)) }
{
    let mut ids = List::new(alloc);
    for text in texts {
        match whole(text) {
            Some(id) => ids.push(id)?,
            None => return Ok(None),
        }
    }
    Ok(Some(ids))
}
