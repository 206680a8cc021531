ghost use Rattle.std.specs.Prelude.{◌≡◌, ◌+◌, length, IfSome, IfNone};
ghost use Rattle.ak_template.specs.Pieces.{without_front, without_back, trimmed};

use crate::tags::behind_sign;

/// The text without the spaces at its ends.
pub fn trim(text: &str) -> &str
    ensures { result.now ≡ trimmed text.now }
{
    trim_back(trim_front(text))
}

/// The text without the spaces at its front.
fn trim_front(text: &str) -> &str
    ensures { result.now ≡ without_front text.now }
{
    let mut rest = text;
    while let Some(others) = behind_sign(rest, ' ') {
        rest = others;
    }
    rest
}

/// The text without one space at its end.
fn before_space(text: &str) -> Option<&str>
    ensures step { IfSome result (λ rest. without_back text.now ≡ without_back rest.now) }
    ensures shorter { IfSome result (λ rest. length rest.now + 1 ≡ length text.now) }
    ensures none { IfNone result (without_back text.now ≡ text.now) }
{
    text.strip_suffix(' ')
}

/// The text without the spaces at its end.
fn trim_back(text: &str) -> &str
    ensures { result.now ≡ without_back text.now }
{
    let mut rest = text;
    while let Some(others) = before_space(rest) {
        rest = others;
    }
    rest
}
