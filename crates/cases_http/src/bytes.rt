ghost use Rattle.std.specs.Prelude.{◌<◌, IfOk};

use cases_lines::Unread;
use std::alloc::Global;

/// The bytes that a text stands for: `\r`, `\n`, `\t` and `\x` with two hexadecimal digits are one byte each, and all else
/// stands for itself.
pub fn bytes_of(alloc: Global, text: &str) -> Result<Vec<u8>, Unread> {
    let mut bytes = Vec::new(alloc);
    for (place, part) in text.split("\\").enumerate() {
        if place == 0 {
            bytes.extend_from_slice(part.as_bytes())?;
        } else {
            add_escaped(&mut bytes, part.as_bytes())?;
        }
    }
    Ok(bytes)
}

/// Adds what follows a backslash.
fn add_escaped(bytes: &mut Vec<u8>, part: &[u8]) -> Result<(), Unread> {
    match part {
        [b'r', rest @ ..] => add(bytes, 13, rest),
        [b'n', rest @ ..] => add(bytes, 10, rest),
        [b't', rest @ ..] => add(bytes, 9, rest),
        [b'x', high, low, rest @ ..] => {
            let byte = digit(*high)? * 16 + digit(*low)?;
            add(bytes, byte, rest)
        }
        _ => Err(Unread::Bad),
    }
}

fn add(bytes: &mut Vec<u8>, byte: u8, rest: &[u8]) -> Result<(), Unread> {
    bytes.push(byte)?;
    bytes.extend_from_slice(rest)?;
    Ok(())
}

fn digit(letter: u8) -> Result<u8, Unread>
    ensures { IfOk result (λ value. value < 16) }
{
    match letter {
        b'0'..=b'9' => Ok(letter - b'0'),
        b'a'..=b'f' => Ok(letter - b'a' + 10),
        _ => Err(Unread::Bad),
    }
}

/// The text that stands for bytes, in the same form.
pub fn text_of(alloc: Global, bytes: &[u8]) -> Result<String, Unread> {
    let mut text = String::new(alloc);
    for byte in bytes {
        push_byte(alloc, &mut text, *byte)?;
    }
    Ok(text)
}

fn push_byte(alloc: Global, text: &mut String, byte: u8) -> Result<(), Unread> {
    match byte {
        13 => text.push_str("\\r")?,
        10 => text.push_str("\\n")?,
        b' '..=b'[' | b']'..=b'~' => text.push(char::from(byte))?,
        other => text.push_str(format!(in alloc; "\\x{other:02x}")?.as_str())?,
    }
    Ok(())
}
