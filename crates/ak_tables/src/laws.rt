// A law of what was touched, as the contract of a function that does nothing.
ghost use Rattle.std.specs.Prelude.{◌≡◌};
ghost use Rattle.ak_keep.specs.Collections.{Holding, Rows};
ghost use Rattle.ak_tables.specs.Tables.{Covers, IsWrittenOver, left_of};
ghost use Rattle.ak_tables.specs.declared.touched.Touched.{Touched as WhatWasTouched};

/// To write what is held under the touched names, over what was stored or, if all was replaced, over nothing, gives what
/// is held.
pub fn touched_names_suffice()
    ensures { (touched : WhatWasTouched) (was now : Holding) (made : Rows) → Covers touched was now → IsWrittenOver touched now.rows (left_of touched was) made → made ≡ now.rows }
{}
