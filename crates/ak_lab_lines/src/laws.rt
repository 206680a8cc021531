// Laws of the lines of a lab script, as the contracts of functions that do nothing.
ghost use Rattle.std.specs.Prelude.{◌≡◌, ℕ, List, Some};
ghost use Rattle.ak_lab_lines.specs.LabLines.{lab_line_of};
ghost use Rattle.ak_lab_lines.specs.Written.{SaysLine};
ghost use Rattle.ak_lab_lines.specs.declared.lab_lines.LabLine.{LabLine};

/// A text that says a line is read as that line.
pub fn a_said_line_is_read()
    ensures { (text : List ℕ) (line : LabLine) → SaysLine text line → lab_line_of text ≡ Some line }
{}

/// A text that is read as a line says that line.
pub fn a_line_is_said_so()
    ensures { (text : List ℕ) (line : LabLine) → lab_line_of text ≡ Some line → SaysLine text line }
{}
