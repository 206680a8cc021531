ghost use Rattle.std.specs.Prelude.{◌≡◌, ◌≤◌, IfSome};
ghost use Rattle.std.specs.Str.{all_ascii_digits};
ghost use Rattle.ak_base.specs.Decimals.{is_decimal, at_most, number_of};

/// Reads a whole number as it is written in decimal digits, without sign or leading zero. None for any
/// other text, and for a number over `most`.
pub fn read_number(text: &str, most: u64) -> Option<u64>
    ensures number { result ≡ number_of most text.now }
    ensures within { IfSome result (λ number. number ≤ most) }
{
    if !is_decimal(text.as_bytes()) {
        return None;
    }
    match text.parse::<u64>() {
        Ok(number) => at_most(number, most),
        Err(_) => None,
    }
}

fn at_most(number: u64, most: u64) -> Option<u64>
    ensures number { result ≡ at_most most number }
    ensures within { IfSome result (λ number. number ≤ most) }
{
    if number <= most { Some(number) } else { None }
}

/// Whether the bytes are a whole number in decimal digits, without sign or leading zero, however long.
pub fn is_decimal(digits: &[u8]) -> bool
    ensures { result ≡ is_decimal digits.now }
{
    match digits {
        [] => false,
        [digit] => digit.is_ascii_digit(),
        [first, ..] => *first != b'0' && are_digits(digits),
    }
}

fn are_digits(bytes: &[u8]) -> bool
    ensures { result ≡ all_ascii_digits bytes.now }
{
    for byte in bytes {
        if !byte.is_ascii_digit() {
            return false;
        }
    }
    true
}
