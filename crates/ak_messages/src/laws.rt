// What holds of messages, apart from the program.
ghost use Rattle.std.specs.Prelude.{◌≡◌, ℕ, List, Some};
ghost use Rattle.ak_messages.specs.Methods.{name_of, method_of};
ghost use Rattle.ak_messages.specs.declared.methods.Method.{Method};

/// Each method is read by its name.
#[tactic(auto, using(crate::proofs::Names::named))]
pub fn methods_are_read()
    ensures { (method : Method) → method_of (name_of method) ≡ Some method }
{}

/// A name that is read as a method is the name of that method.
pub fn names_are_of_methods()
    ensures { (name : List ℕ) (method : Method) → method_of name ≡ Some method → name_of method ≡ name }
{}
