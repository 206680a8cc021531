ghost use Rattle.std.specs.Prelude.{◌≡◌, true};
ghost use Rattle.std.specs.Option.{option_map};
ghost use Rattle.ak_base.specs.Keys.{is_lower_hex, are_lower_hex, is_host_key, host_digits};

/// What a device shows a server to be let in: 32 lower-case hexadecimal digits, as bytes.
#[derive(Clone, Copy, Debug, PartialEq, Eq)]
pub struct HostKey {
    pub digits: [u8; 32],
    pub ghost lower_hex: { are_lower_hex digits ≡ true },
}

/// What a sync is called while it lasts. It is written as 16 lower-case hexadecimal digits.
#[derive(Clone, Copy, Debug, PartialEq, Eq)]
pub struct SessionKey(pub u64);

impl HostKey {
    /// The key that a text is. It takes no memory.
    pub fn of(text: &str) -> Option<HostKey>
        ensures { option_map (λ key. key.digits) result ≡ host_digits text.now }
    {
        let bytes = text.as_bytes();
        if bytes.len() != 32 || !are_lower_hex(bytes) {
            return None;
        }
        let mut digits = [0; 32];
        digits.copy_from_slice(bytes);
        Some(HostKey { digits })
    }
}

/// Whether every byte is 0 to 9, or a to f. So it is of no bytes.
pub fn are_lower_hex(digits: &[u8]) -> bool
    ensures { result ≡ are_lower_hex digits.now }
{
    for digit in digits {
        if !is_lower_hex(*digit) {
            return false;
        }
    }
    true
}

/// Whether a byte is 0 to 9, or a to f.
fn is_lower_hex(digit: u8) -> bool
    ensures { result ≡ is_lower_hex digit }
{
    digit.is_ascii_hexdigit() && !digit.is_ascii_uppercase()
}
