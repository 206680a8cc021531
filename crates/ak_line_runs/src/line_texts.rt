ghost use Rattle.std.specs.Prelude.{◌≡◌, IfErr, IfOk, None, Some};
ghost use Rattle.ak_line_runs.specs.LineTexts.{is_skipped_line, text_in, textless};

use ak_desk_language::is_skipped;
use ak_io::Line;
use std::str;

/// Whether a line is skipped. One that is too long, or no text, is not, whatever it begins with.
pub fn is_skipped_line(line: &Line) -> bool
    ensures { result ≡ is_skipped_line line.now }
{
    match text_of(line) {
        Ok(text) => is_skipped(text.as_bytes()),
        Err(_) => false,
    }
}

/// The text of a line, or why it is refused if it has none.
pub fn text_of(line: &Line) -> Result<&str, &'static str>
    ensures ok { IfOk result (λ text. text_in line.now ≡ Some text.now) }
    ensures err { IfErr result (λ why. (text_in line.now ≡ None) × (why.now ≡ textless line.now)) }
{
    match line {
        Line::PastInput => Err("long input"),
        Line::TooLong => Err("long line"),
        Line::Whole(bytes) => match str::from_utf8(bytes.as_slice()) {
            Ok(text) => Ok(text),
            Err(_) => Err("not text"),
        },
    }
}
