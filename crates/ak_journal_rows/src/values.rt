ghost use Rattle.std.specs.Prelude.{◌≡◌, ℤ, Bool, IfOk, OnErr, None, Some};
ghost use Rattle.serde_json.specs.Data.{boolean};
ghost use Rattle.serde_json.specs.Find.{get};
ghost use Rattle.serde_json.specs.View.{view};
ghost use Rattle.ak_json.specs.Written.{integer};
ghost use Rattle.ak_journal_rows.specs.Changes.{IsWord};
ghost use Rattle.ak_journal_rows.specs.Reads.{IsReadAsOrMemory};

use crate::faults::ChangeFault;
use serde_json::Value;

/// What stands under a key of an object.
pub(crate) fn under<'v>(value: &'v Value, key: &str) -> Result<&'v Value, ChangeFault>
    ensures found { IfOk result (λ found. get key.now (view value.now) ≡ Some (view found.now)) }
    ensures none { OnErr result (get key.now (view value.now) ≡ None) }
{
    match value.get(key) {
        Some(found) => Ok(found),
        None => Err(ChangeFault::NotOfForm),
    }
}

/// The truth value under a key.
pub(crate) fn truth_under(value: &Value, key: &str) -> Result<bool, ChangeFault>
    ensures { (truth : Bool) → get key.now (view value.now) ≡ Some (boolean truth) → IsReadAsOrMemory truth result }
{
    match under(value, key)?.as_bool() {
        Some(truth) => Ok(truth),
        None => Err(ChangeFault::NotOfForm),
    }
}

/// The whole number under a key.
pub(crate) fn number_under(value: &Value, key: &str) -> Result<i64, ChangeFault>
    ensures { (z : ℤ) → IsWord z → get key.now (view value.now) ≡ Some (integer z) → IsReadAsOrMemory z result }
{
    match under(value, key)?.as_i64() {
        Some(number) => Ok(number),
        None => Err(ChangeFault::NotOfForm),
    }
}
