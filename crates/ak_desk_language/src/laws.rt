// Laws of desk lines, as the contracts of functions that do nothing.
ghost use Rattle.std.specs.Prelude.{ℕ, List};
ghost use Rattle.ak_desk_language.specs.AnyLines.{SaysAnyLine, AreSameAnyLines};
ghost use Rattle.ak_desk_language.specs.declared.any_lines.AnyLine.{AnyLine};

/// A text says one line at most: two lines that it says are the same, searches by their pieces.
pub fn one_line_is_said()
    ensures { (text : List ℕ) (a b : AnyLine) → SaysAnyLine text a → SaysAnyLine text b → AreSameAnyLines a b }
{}
