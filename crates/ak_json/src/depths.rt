ghost use Rattle.std.specs.Prelude.{◌≡◌};
ghost use Rattle.serde_json.specs.View.{view};
ghost use Rattle.ak_json.specs.Depths.{is_shallow};

use serde_json::Value;

/// Whether the value nests at most so deep, and all its numbers are whole.
#[tactic(auto, using(crate::proofs::Shallow::array_shallow, crate::proofs::Shallow::object_shallow, crate::proofs::Shallow::array_at_bottom, crate::proofs::Shallow::object_at_bottom))]
pub(crate) fn is_shallow(most: u64, value: &Value) -> bool
    ensures { result ≡ is_shallow most (view value.now) }
{
    if let Some(values) = value.as_array() {
        if most == 0 {
            return false;
        }
        for inner in values {
            if !is_shallow(most - 1, inner) {
                return false;
            }
        }
        return true;
    }
    if let Some(members) = value.as_object() {
        if most == 0 {
            return false;
        }
        for (_, inner) in members {
            if !is_shallow(most - 1, inner) {
                return false;
            }
        }
        return true;
    }
    !value.is_f64()
}
