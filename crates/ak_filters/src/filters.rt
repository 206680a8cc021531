ghost use Rattle.std.specs.Prelude.{◌≡◌, IfOk, OnOk, OnErr};
ghost use Rattle.ak_filters.specs.Meanings.{Meaning, filtered, turned};

use ak_base::{Memory, Text};

/// What a field's text goes through on its way to the page. Its meaning is plain data: a name, a form, and the turn,
/// which counts how often it was applied.
pub trait FieldFilter: Drop {
    ghost meaning: { Self → Meaning };

    /// The name by which a template asks for it.
    fn name(&self) -> &str
        ensures { result.now ≡ (meaning self.now).name };

    /// The text of its form at its present turn. The turn then rises by one; if memory ran out it stays.
    fn apply(&mut self, text: &str) -> Result<Text, Memory>
        ensures text { IfOk result (λ made. made ≡ filtered (meaning self.old) text.now) }
        ensures ok { OnOk result (meaning self.new ≡ turned (meaning self.old)) }
        ensures err { OnErr result (meaning self.new ≡ meaning self.old) };
}
