//! Bytes as hexadecimal text, two digits a byte.
//! The kit's library `hex` does the like; it would be one more crate whose statements are trusted.
#![tactic(auto)]

ghost use Rattle.std.specs.Prelude.{◌≡◌, ◌<◌, IfOk, Some, None, string_bytes, MatchOption};
ghost use Rattle.hexadecimal.specs.Hex.{digit, hex_of, byte_of, bytes_of};

use std::alloc::{AllocError, Global};

/// The lower-case digit of a number below 16.
fn digit_of(n: u8) -> char
    requires { n < 16 }
    ensures value { result ≡ digit n }
    ensures ascii { result < 128 }
{
    char::from_digit(u32::from(n), 16).unwrap()
}

/// The bytes in lower-case digits, the high half of each byte first.
// Digit by digit: `write!` with `{b:02x}` takes three to six times as long.
pub fn encode(alloc: Global, bytes: &[u8]) -> Result<String, AllocError>
    ensures { IfOk result (λ s. string_bytes s ≡ hex_of bytes.now) }
{
    let mut text = String::new(alloc);
    for b in bytes {
        text.push(digit_of(*b / 16))?;
        text.push(digit_of(*b % 16))?;
    }
    Ok(text)
}

/// The byte that two digits of either case write, the high half first.
fn byte_of(high: u8, low: u8) -> Option<u8>
    ensures { result ≡ byte_of high low }
{
    let high = char::from(high).to_digit(16)?;
    let low = char::from(low).to_digit(16)?;
    u8::try_from(16 * high + low).ok()
}

/// The bytes that a text stands for; `None` at an odd length or a character that is no digit.
pub fn decode(alloc: Global, text: &str) -> Result<Option<Vec<u8>>, AllocError>
    ensures { IfOk result (λ o. MatchOption o (bytes_of text.now ≡ None) (λ v. bytes_of text.now ≡ Some v.items)) }
{
    let (pairs, []) = text.as_bytes().as_chunks::<2>() else {
        return Ok(None);
    };
    let mut bytes = Vec::new(alloc);
    for [high, low] in pairs {
        let Some(byte) = byte_of(*high, *low) else {
            return Ok(None);
        };
        bytes.push(byte)?;
    }
    Ok(Some(bytes))
}
