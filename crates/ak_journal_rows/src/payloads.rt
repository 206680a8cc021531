ghost use Rattle.std.specs.Prelude.{◌≡◌, ◌≢◌, Err, IfOk, IfErr, Some, None};
ghost use Rattle.std.specs.Str.{IsUtf8};
ghost use Rattle.serde_json.specs.Read.{read};
ghost use Rattle.serde_json.specs.View.{view};
ghost use Rattle.ak_journal_rows.specs.Changes.{IsOfForm};
ghost use Rattle.ak_journal_rows.specs.Reads.{IsReadAsOrMemory};
ghost use Rattle.ak_journal_rows.specs.Texts.{IsPayloadOf, change_json};
ghost use Rattle.ak_journal_rows.specs.declared.changes.Change.{Change as AnyChange};

use crate::changes::Change;
use crate::faults::ChangeFault;
use crate::heads::{read_head, write_head};
use crate::listed::{list_under, write_list};
use crate::values::{truth_under, under};
use ak_base::Memory;
use ak_json::read_text;
use serde_json::{Map, Value, put};
use std::alloc::Global;

/// The change of which this is the payload. A payload is of the form if the change that it is read as is written as the
/// same bytes.
pub fn read_change(alloc: Global, payload: &[u8]) -> Result<Change, ChangeFault>
    ensures read { IfOk result (IsPayloadOf payload.now) }

    // The payload of a change is read as that change, or memory runs out.
    ensures complete { (change : AnyChange) → IsPayloadOf payload.now change → IsReadAsOrMemory change result }
    ensures refused { result ≡ Err ChangeFault.NotOfForm → (change : AnyChange) → IsPayloadOf payload.now change → ⊥ }
{
    let value = value_of(alloc, payload)?;
    let change = change_of(alloc, &value)?;

    // The tree takes far more room than the rows.
    drop(value);
    if !change.is_of_form() {
        return Err(ChangeFault::NotOfForm);
    }
    let again = write_change(alloc, &change)?;
    if again.as_slice() != payload {
        return Err(ChangeFault::NotOfForm);
    }
    Ok(change)
}

/// The value of a JSON text.
fn value_of(alloc: Global, payload: &[u8]) -> Result<Value, ChangeFault>
    ensures ok { IfOk result (λ value. read payload.now ≡ Some (view value)) }
    ensures err { IfErr result (λ fault. fault ≢ ChangeFault.Memory → IsUtf8 payload.now → read payload.now ≡ None) }
{
    match read_text(alloc, payload) {
        Ok(value) => Ok(value),
        Err(fault) => Err(ChangeFault::from(fault)),
    }
}

/// The change of which this is the value.
fn change_of(alloc: Global, value: &Value) -> Result<Change, ChangeFault>
    ensures { (change : AnyChange) → IsOfForm change → view value.now ≡ change_json change → IsReadAsOrMemory change result }
{
    let all = truth_under(value, "all")?;
    let cut = list_under(alloc, value, "cut")?;
    let head = read_head(alloc, under(value, "head")?)?;
    let put = list_under(alloc, value, "put")?;
    Ok(Change {
        all,
        cut,
        head,
        put,
    })
}

/// The payload of a change.
pub fn write_change(alloc: Global, change: &Change) -> Result<Vec<u8>, Memory>
    requires { IsOfForm change.now }
    ensures { IfOk result (λ payload. IsPayloadOf payload.items change.now) }
{
    let value = value_for(alloc, change)?;
    let text = value.to_string(alloc)?;
    drop(value);
    Ok(text.into_bytes())
}

/// The value of a change.
fn value_for(alloc: Global, change: &Change) -> Result<Value, Memory>
    ensures { IfOk result (λ value. IsOfForm change.now → view value ≡ change_json change.now) }
{
    let cut = write_list(alloc, change.cut.as_slice())?;
    let head = write_head(alloc, &change.head)?;
    let rows = write_list(alloc, change.put.as_slice())?;
    let mut members = Map::new(alloc);
    put(&mut members, alloc, "all", Value::Bool(change.all))?;
    put(&mut members, alloc, "cut", cut)?;
    put(&mut members, alloc, "head", head)?;
    put(&mut members, alloc, "put", rows)?;
    Ok(Value::Object(members))
}
