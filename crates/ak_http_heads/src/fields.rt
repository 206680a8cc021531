ghost use Rattle.std.specs.Prelude.{◌≡◌, ◌≤◌, true, length, map, IfSome, option_copied};
ghost use Rattle.std.specs.Option.{option_map};
ghost use Rattle.httparse.specs.Borrowed.{header_parts};
ghost use Rattle.ak_base.specs.Decimals.{number_of};
ghost use Rattle.ak_base.specs.Keys.{are_lower_hex, host_digits};
ghost use Rattle.ak_http_heads.specs.Fields.{has_name, values_of, first_of, value_of, session_number, host_in, session_in, step_in, base_in, length_in};

use ak_base::{HostKey, SessionKey, are_lower_hex, read_number};
use httparse::Header;
use std::str;

/// The value of the first field of a name, if there is one. Names match without regard to ASCII case.
pub fn first_value<'b>(fields: &[Header<'b>], name: &str) -> Option<&'b [u8]>
    ensures { option_copied result ≡ first_of (values_of name.now (map header_parts fields.now)) }
{
    for field in fields {
        if has_name(field, name) {
            return Some(field.value);
        }
    }
    None
}

/// The value of the field of a name, if there is exactly one. Names match without regard to ASCII case.
pub fn sole_value<'b>(fields: &[Header<'b>], name: &str) -> Option<&'b [u8]>
    ensures { option_copied result ≡ value_of name.now (map header_parts fields.now) }
{
    let mut found = None;
    for field in fields {
        if has_name(field, name) {
            if found.is_some() {
                return None;
            }
            found = Some(field.value);
        }
    }
    found
}

/// Whether a field has this name, without regard to ASCII case.
pub fn has_name(field: &Header, name: &str) -> bool
    ensures { result ≡ has_name name.now (header_parts field.now) }
{
    field.name.eq_ignore_ascii_case(name)
}

/// The key in `X-Anki-Key`.
pub fn host_in(fields: &[Header]) -> Option<HostKey>
    ensures { option_map (λ key. key.digits) result ≡ host_in (map header_parts fields.now) }
{
    read_host(sole_value(fields, "x-anki-key")?)
}

/// The session in `X-Anki-Session`.
pub fn session_in(fields: &[Header]) -> Option<SessionKey>
    ensures { option_map (λ key. key.0) result ≡ session_in (map header_parts fields.now) }
{
    read_session(sole_value(fields, "x-anki-session")?)
}

/// The step in `X-Anki-Step`: at most the last `u64`.
pub fn step_in(fields: &[Header]) -> Option<u64>
    ensures { result ≡ step_in (map header_parts fields.now) }
{
    read_decimal(sole_value(fields, "x-anki-step")?, u64::MAX)
}

/// The moment in `X-Anki-Base`, in milliseconds: at most the last `i64`.
pub fn base_in(fields: &[Header]) -> Option<u64>
    ensures moment { result ≡ base_in (map header_parts fields.now) }
    ensures within { IfSome result (λ moment. moment ≤ 9_223_372_036_854_775_807) }
{
    read_decimal(sole_value(fields, "x-anki-base")?, i64::MAX as u64)
}

/// The length of the body in `Content-Length`, in bytes: at most `MOST_BODY_BYTES`.
pub fn length_in(fields: &[Header]) -> Option<u64>
    ensures length { result ≡ length_in (map header_parts fields.now) }
{
    read_decimal(sole_value(fields, "content-length")?, MOST_BODY_BYTES)
}

/// The most bytes of a body.
pub const MOST_BODY_BYTES: u64 = 268_435_456;

/// Reads 32 lower-case hexadecimal digits.
fn read_host(value: &[u8]) -> Option<HostKey>
    ensures { option_map (λ key. key.digits) result ≡ host_digits value.now }
{
    match str::from_utf8(value) {
        Ok(text) => HostKey::of(text),
        Err(_) => None,
    }
}

/// Reads a whole number in decimal digits, without sign or leading zero, of at most `most`.
pub fn read_decimal(value: &[u8], most: u64) -> Option<u64>
    ensures number { result ≡ number_of most value.now }
    ensures within { IfSome result (λ number. number ≤ most) }
{
    match str::from_utf8(value) {
        Ok(text) => read_number(text, most),
        Err(_) => None,
    }
}

/// Reads 16 lower-case hexadecimal digits.
fn read_session(value: &[u8]) -> Option<SessionKey>
    ensures { option_map (λ key. key.0) result ≡ session_number value.now }
{
    if value.len() != 16 || !are_lower_hex(value) {
        return None;
    }
    match str::from_utf8(value) {
        Ok(text) => hex_number(text),
        Err(_) => None,
    }
}

/// The number of 16 lower-case hexadecimal digits.
fn hex_number(digits: &str) -> Option<SessionKey>
    requires size { length digits.now ≡ 16 }
    requires lower { are_lower_hex digits.now ≡ true }
    ensures { option_map (λ key. key.0) result ≡ session_number digits.now }
{
    match u64::from_str_radix(digits, 16) {
        Ok(number) => Some(SessionKey(number)),
        Err(_) => None,
    }
}
