ghost use Rattle.std.specs.Prelude.{◌≡◌, ◌≤◌, ◌⊎◌, Some, None, IfOk, IfErr, false};
ghost use Rattle.std.specs.Str.{IsUtf8};
ghost use Rattle.serde_json.specs.Data.{depth};
ghost use Rattle.serde_json.specs.Read.{read, max_depth};
ghost use Rattle.serde_json.specs.View.{view};
ghost use Rattle.serde_json.specs.Written.{compact_text, has_float};
ghost use Rattle.ak_json.specs.declared.faults.JsonFault.TheVariants as faults;

use crate::JsonFault;
use ak_base::{Memory, Text};
use serde_json::Value;
use std::alloc::Global;

/// The value of a JSON text. Of a repeated key the last one stands.
pub fn read_text(alloc: Global, bytes: &[u8]) -> Result<Value, JsonFault>
    ensures ok { IfOk result (λ value. IsUtf8 bytes.now × (read bytes.now ≡ Some (view value))) }
    ensures nests { IfOk result (λ value. depth (view value) ≤ max_depth) }
    ensures refused { IfErr result (λ fault. (fault ≡ faults.Memory) ⊎ (fault ≡ faults.NotJson)) }
    ensures exact { IfErr result (λ fault. fault ≡ faults.NotJson → IsUtf8 bytes.now → read bytes.now ≡ None) }
{
    match Value::from_slice(alloc, bytes) {
        Ok(value) => Ok(value),
        Err(error) => {
            if error.is_memory() {
                return Err(JsonFault::Memory);
            }
            Err(JsonFault::NotJson)
        },
    }
}

/// The compact text of a value: no spaces, the keys of each object in the order of bytes.
pub fn write_text(alloc: Global, value: &Value) -> Result<Text, Memory>
    ensures { IfOk result (λ text. has_float (view value.now) ≡ false → text ≡ compact_text (view value.now)) }
{
    let text = value.to_string(alloc)?;
    Text::of(alloc, text.as_str())
}
