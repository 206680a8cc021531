// Laws of the answers, as the contracts of functions that do nothing.
ghost use Rattle.std.specs.Prelude.{ℕ, List};
ghost use Rattle.ak_messages.specs.declared.methods.Method.{Method};
ghost use Rattle.ak_wire.specs.Faults.{AtMostOne};
ghost use Rattle.ak_http_wires.specs.Answers.{IsAnswer};

/// The bytes of an answer are read as one reply at most: two that they are read as are equal.
pub fn an_answer_is_one_reply()
    ensures { (method : Method) (bytes : List ℕ) → AtMostOne (IsAnswer method bytes) }
{}
