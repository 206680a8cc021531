ghost use Rattle.std.specs.Prelude.{◌≡◌, ◌<◌, ◌+◌, true, false, length, IfSome, IfNone};
ghost use Rattle.ak_base.specs.Cuts.{has, front, behind};

/// What comes before and after the first place at which the separator stands in the text; None if it stands nowhere.
pub fn cut<'a>(text: &'a str, separator: &str) -> Option<(&'a str, &'a str)>
    requires { 0 < length separator.now }
    ensures has { IfSome result (λ parts. has separator.now text.now ≡ true) }
    ensures front { IfSome result (λ parts. parts.0.now ≡ front separator.now text.now) }
    ensures behind { IfSome result (λ parts. parts.1.now ≡ behind separator.now text.now) }
    ensures length { IfSome result (λ p. length p.0.now + length separator.now + length p.1.now ≡ length text.now) }
    ensures none { IfNone result (has separator.now text.now ≡ false) }
{
    text.split_once(separator)
}
