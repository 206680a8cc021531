ghost use Rattle.std.specs.Prelude.{◌≡◌};
ghost use Rattle.ak_desk_lines.specs.Accepted.{answer_with, done_answer};

use ak_desk_texts::DeskAnswer;
use ak_edit::DeskFault;

/// The answer to an edit that tells no more.
pub(crate) fn finished(made: Result<(), DeskFault>) -> Result<DeskAnswer, DeskFault>
    ensures { result ≡ answer_with done_answer made }
{
    made?;
    Ok(DeskAnswer::Done)
}
