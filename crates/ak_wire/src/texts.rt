ghost use Rattle.std.specs.Prelude.{◌≡◌, ◌≤◌, ◌⊎◌, Some, false, IfOk, IfErr};
ghost use Rattle.std.specs.Str.{IsUtf8};
ghost use Rattle.serde_json.specs.Data.{depth};
ghost use Rattle.serde_json.specs.Read.{read, max_depth};
ghost use Rattle.serde_json.specs.View.{view};
ghost use Rattle.serde_json.specs.Written.{compact_text, has_float};
ghost use Rattle.ak_json.specs.declared.faults.JsonFault.TheVariants as faults;
ghost use Rattle.ak_wire.specs.Budgets.{IsWithinBudget};
ghost use Rattle.ak_wire.specs.Faults.{OrMemory};
ghost use Rattle.ak_wire.specs.Requests.{IsJsonOf, IsNoJson};
ghost use Rattle.ak_wire.specs.declared.wire_faults.WireFault.TheVariants as wires;

use crate::WireFault;
use crate::budgets::is_within_budget;
use ak_base::{Memory, Text};
use ak_json::read_text;
use serde_json::Value;
use std::alloc::Global;

/// The value of a body. One whose tree would take over 4 GiB is told as if memory ran out.
pub(crate) fn read_body(alloc: Global, body: &[u8]) -> Result<Value, WireFault>
    ensures ok { IfOk result (λ value. IsJsonOf body.now (view value)) }
    ensures within { IfOk result (λ value. IsWithinBudget body.now) }
    ensures over { IfErr result (λ fault. (fault ≡ wires.Memory) ⊎ IsWithinBudget body.now) }
    ensures err { IfErr result (OrMemory (λ fault. IsNoJson body.now × (fault ≡ wires.Json faults.NotJson))) }
{
    // A body like `[{"a":1},..]` would become a tree of a hundred times its bytes.
    if !is_within_budget(body) {
        return Err(WireFault::Memory);
    }
    let value = read_text(alloc, body)?;
    Ok(value)
}

/// The compact text of a value: no spaces, the keys of each object in the order of bytes.
pub(crate) fn write_body(alloc: Global, value: &Value) -> Result<Text, Memory>
    ensures text { IfOk result (λ text. has_float (view value.now) ≡ false → text ≡ compact_text (view value.now)) }
    ensures reads { IfOk result (λ text. depth (view value.now) ≤ max_depth → read text ≡ Some (view value.now)) }
    ensures utf8 { IfOk result (λ text. IsUtf8 text) }
{
    let text = value.to_string(alloc)?;
    Ok(Text::from(text))
}
