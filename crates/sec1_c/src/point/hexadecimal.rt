//! Points as hexadecimal texts: `sec1_point_to_hex` and `sec1_point_from_hex`.
ghost use Rattle.std.specs.Prelude.{◌≡◌, ◌/◌, ◌*◌, ◌<◌, ◌↔◌, ℕ, List, length, slice_index, IsTrue};
ghost use Rattle.hex.specs.Hex.{IsBytes};
ghost use Rattle.sec1.specs.HexTexts.{IsHexOf};
ghost use Rattle.sec1.specs.Points.{IsEncoding, IsPoint, Point, encoding};
ghost use Rattle.sec1_c.specs.FieldLengths.{Encodes, IsFieldLength};
ghost use Rattle.sec1_c.specs.HexTexts.{IsPointText, digits_of_case, hex_text};
ghost use Rattle.sec1_c.specs.Outputs.{Writes, WritesNothing, ended};
ghost use Rattle.sec1_c.specs.Statuses.{error_number, field_length_number};

use super::encoded::status_of;
use crate::buffer::write_bytes;
use crate::status::{OK, error_number, field_length_number, kind_number};
use sec1::Error;
use sec1::der::ErrorKind;

/// Writes the encoding of a point in hexadecimal, followed by a byte 0, at the beginning of `text`,
/// and stores their length in bytes, at most 267. The letters are A to F, or a to f if `lower_case`
/// isn't 0. The rest of `text` is unchanged.
///
/// # Errors
///
/// Returns the number of Buffer if `text` is too short, and stores the length; otherwise those of
/// `sec1_point_check`, and leaves `len` unchanged. `text` is unchanged in each case.
#[unsafe(no_mangle)]
#[tactic(auto, using(crate::proofs::PointLemmas::encodings))]
pub extern "C" fn sec1_point_to_hex(
    bytes: &[u8],
    field_len: usize,
    lower_case: usize,
    text: &mut [u8],
    len: &mut usize,
) -> u32
    ensures point { (p : Point) → IsFieldLength field_len → Encodes field_len p bytes.now
        → Writes (ended (hex_text lower_case (encoding field_len p)))
        text.old text.new result len.new }
    ensures no_point { IsFieldLength field_len → ¬ IsEncoding field_len bytes.now
        → WritesNothing
        (error_number Error.PointEncoding) text.old text.new result len.old len.new }
    ensures other_field { ¬ IsFieldLength field_len
        → WritesNothing field_length_number text.old text.new result len.old len.new }
{
    let status = status_of(bytes, field_len);
    if status != OK {
        return status;
    }
    write_digits(bytes, lower_case, text, len)
}

/// Writes these bytes in hexadecimal, followed by a byte 0, and stores the length of both.
fn write_digits(bytes: &[u8], lower_case: usize, text: &mut [u8], len: &mut usize) -> u32
    ensures { Writes (ended (hex_text lower_case bytes.now)) text.old text.new result len.new }
{
    let digits = 2 * bytes.len();
    *len = digits + 1;
    if text.len() <= digits {
        return kind_number(ErrorKind::Buffer);
    }
    let (front, rest) = text.split_at_mut(digits);
    put_digits(bytes, lower_case, front);
    rest[0] = 0;
    OK
}

/// Fills the text with these bytes in hexadecimal.
#[tactic(auto, unfolding(hex::specs::Hex::encode_with))]
fn put_digits(bytes: &[u8], lower_case: usize, text: &mut [u8])
    requires { length text.old ≡ 2 * length bytes.now }
    ensures { text.new ≡ hex_text lower_case bytes.now }
{
    let Some((byte, others)) = bytes.split_first() else {
        return;
    };
    let (pair, rest) = text.split_at_mut(2);
    pair[0] = digit(*byte / 16, lower_case);
    pair[1] = digit(*byte % 16, lower_case);
    put_digits(others, lower_case, rest);
}

/// Returns the digit with this value.
fn digit(value: u8, lower_case: usize) -> u8
    requires { value < 16 }
    ensures { result ≡ slice_index (digits_of_case lower_case) value }
{
    if lower_case == 0 {
        b"0123456789ABCDEF"[usize::from(value)]
    } else {
        b"0123456789abcdef"[usize::from(value)]
    }
}

/// Writes the point whose encoding has this hexadecimal text, which is all of `text`, at the
/// beginning of `out`, and stores its length. The letters are of one case. The rest of `out` is
/// unchanged.
///
/// # Errors
///
/// Returns the number of Buffer if `out` is too short, and stores the length; otherwise that of
/// PointEncoding if it isn't the text of a point, or that of a field length that isn't supported,
/// and leaves `len` unchanged. `out` is unchanged in each case.
#[unsafe(no_mangle)]
#[tactic(auto, using(crate::proofs::HexTextLemmas::point_texts))]
pub extern "C" fn sec1_point_from_hex(
    text: &[u8],
    field_len: usize,
    out: &mut [u8],
    len: &mut usize,
) -> u32
    ensures point { (p : Point) → IsFieldLength field_len → IsPoint field_len p
        → IsHexOf text.now (encoding field_len p)
        → Writes (encoding field_len p) out.old out.new result len.new }
    ensures no_point { IsFieldLength field_len → ¬ IsPointText field_len text.now
        → WritesNothing (error_number Error.PointEncoding) out.old out.new result len.old len.new }
    ensures other_field { ¬ IsFieldLength field_len
        → WritesNothing field_length_number out.old out.new result len.old len.new }
{
    if field_len == 0 || field_len > 66 {
        return field_length_number();
    }
    let mut room = [0; 133];
    let count = text.len() / 2;
    if count > room.len() {
        return error_number(&Error::PointEncoding);
    }
    let bytes = &mut room[..count];
    if !read_digits(text, bytes) {
        return error_number(&Error::PointEncoding);
    }
    let status = status_of(bytes, field_len);
    if status != OK {
        return status;
    }
    write_bytes(bytes, out, len)
}

/// Decodes two hexadecimal digits for each byte, and returns `true` if the text is that of these
/// bytes, with letters of one case.
fn read_digits(text: &[u8], bytes: &mut [u8]) -> bool
    requires { length bytes.old ≡ length text.now / 2 }
    ensures found { IsTrue result → IsHexOf text.now bytes.new }
    ensures only { (known : List ℕ) → IsBytes known → IsHexOf text.now known
        → IsTrue result × (bytes.new ≡ known) }
{
    hex::decode_to_slice(text, bytes).is_ok()
        && (is_text_of(text, bytes, 0) || is_text_of(text, bytes, 1))
}

/// Returns `true` if the text is that of these bytes, with the letters of this case.
#[tactic(auto, unfolding(hex::specs::Hex::encode_with))]
fn is_text_of(text: &[u8], bytes: &[u8], lower_case: usize) -> bool
    ensures { IsTrue result ↔ (text.now ≡ hex_text lower_case bytes.now) }
{
    let Some((byte, others)) = bytes.split_first() else {
        return text.is_empty();
    };
    if text.len() < 2 {
        return false;
    }
    let (pair, rest) = text.split_at(2);
    pair[0] == digit(*byte / 16, lower_case)
        && pair[1] == digit(*byte % 16, lower_case)
        && is_text_of(rest, others, lower_case)
}
