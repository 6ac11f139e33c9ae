//! Hexadecimal and base64, decoded into memory that is given.
ghost use Rattle.std.specs.Prelude.{◌≡◌, ◌≤◌, ◌+◌, length, take};
ghost use Rattle.der_view.specs.Encoded.{IsDecoded, base64_bytes, digit_of, digits_in, hex_bytes};
ghost use Rattle.der_view.specs.Encoded.{hex_digits, is_separator};

use base64::engine::general_purpose::STANDARD;

/// Writes the digits of base64 in a text to the front of `digits`, and returns their number: all
/// bytes but blanks, or if the text is almost base64, what [`digit_of`] returns.
pub(super) fn strip(text: &[u8], is_almost: bool, digits: &mut [u8]) -> usize
    requires { length text.now ≤ length digits.old }
    ensures digits { take result digits.new ≡ digits_in is_almost 0 text.now }
    ensures within { result ≤ length text.now }
{
    let mut rest = text;
    let mut previous = 0;
    let mut count = 0;
    while let [byte, after @ ..] = rest {
        if let Some(digit) = digit_of(is_almost, previous, *byte) {
            digits[count] = digit;
            count += 1;
        }
        previous = *byte;
        rest = after;
    }
    count
}

/// Returns the digit of base64 for a byte after another one, if it is one: any that is no blank, or
/// in what is almost base64 those of base64 and base64url (RFC 4648 sections 4 and 5), without ends
/// of lines that are written as a backslash and a letter.
fn digit_of(is_almost: bool, previous: u8, byte: u8) -> Option<u8>
    ensures { result ≡ digit_of is_almost previous byte }
{
    match byte {
        b' ' | b'\t' | b'\r' | b'\n' => None,
        _ if !is_almost => Some(byte),
        b'n' | b'r' if previous == b'\\' => None,
        b'A'..=b'Z' | b'a'..=b'z' | b'0'..=b'9' | b'+' | b'/' => Some(byte),
        b'-' => Some(b'+'),
        b'_' => Some(b'/'),
        _ => None,
    }
}

/// Writes the bytes that base64 encodes (RFC 4648 section 4), blanks and ends of lines left out, to
/// the front of `bytes`, and returns their number; `None` if the text is no base64. `digits` is
/// memory for its digits.
pub(super) fn base64_into(text: &[u8], digits: &mut [u8], bytes: &mut [u8]) -> Option<usize>
    requires digits { length text.now ≤ length digits.old }
    requires bytes { length text.now + 2 ≤ length bytes.old }
    ensures { IsDecoded (base64_bytes text.now) result bytes.new }
{
    let count = strip(text, false, digits);
    STANDARD
        .decode_slice_unchecked(&digits[..count], bytes)
        .ok()
}

/// Returns `true` if the byte may stand between hexadecimal digits.
fn is_separator(byte: u8) -> bool
    ensures { result ≡ is_separator byte }
{
    matches!(byte, b' ' | b'\t' | b'\r' | b'\n' | b':' | b',')
}

/// Writes the bytes of a text that are no separators and no `0x` to the front of `digits`, and
/// returns their number. They are taken two by two, as digits beside each other have to be.
fn strip_hex(text: &[u8], digits: &mut [u8]) -> usize
    requires { length text.now ≤ length digits.old }
    ensures digits { take result digits.new ≡ hex_digits text.now }
    ensures within { result ≤ length text.now }
{
    let mut rest = text;
    let mut count = 0;
    while let [byte, next, later @ ..] = rest {
        if *byte == b'0' && (*next == b'x' || *next == b'X') {
            rest = later;
        } else if is_separator(*byte) {
            rest = &rest[1..];
        } else {
            digits[count] = *byte;
            digits[count + 1] = *next;
            count += 2;
            rest = later;
        }
    }
    if let [byte] = rest {
        if !is_separator(*byte) {
            digits[count] = *byte;
            return count + 1;
        }
    }
    count
}

/// Writes the bytes that hexadecimal digits encode to the front of `bytes`, and returns their
/// number; `None` if the text isn't an even count of digits. `digits` is memory for its digits.
#[tactic(auto, unfolding(crate::specs::Encoded::hex_bytes))]
pub(super) fn hex_into(text: &[u8], digits: &mut [u8], bytes: &mut [u8]) -> Option<usize>
    requires digits { length text.now ≤ length digits.old }
    requires bytes { length text.now ≤ length bytes.old }
    ensures { IsDecoded (hex_bytes text.now) result bytes.new }
{
    let count = strip_hex(text, digits);
    match hex::decode_to_slice(&digits[..count], &mut bytes[..count / 2]) {
        Ok(()) => Some(count / 2),
        Err(_) => None,
    }
}
