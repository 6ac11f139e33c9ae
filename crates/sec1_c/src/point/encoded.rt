//! Points by their encodings, at field elements of n bytes.
ghost use Rattle.std.specs.Prelude.{◌≡◌, ◌≢◌, ◌-◌, ◌%◌, ◌≤◌, ◌<◌, ◌↔◌, ℕ, IsTrue};
ghost use Rattle.std.specs.Prelude.{length, get_or, drop, Some, None};
ghost use Rattle.std.specs.Cmp.Lexicographic.{slice_cmp};
ghost use Rattle.std.specs.Ordering.{nat_cmp};
ghost use Rattle.sec1.specs.Points.{Point, IsEncoding, compressed_point, encoding, hybrid_point};
ghost use Rattle.sec1.specs.Points.{tag_byte};
ghost use Rattle.sec1_c.specs.FieldLengths.{Encodes, EncodesBoth, IsFieldLength};
ghost use Rattle.sec1_c.specs.Outputs.{Writes};
ghost use Rattle.sec1_c.specs.PointOrders.{order_of};
ghost use Rattle.sec1_c.specs.PointPlaces.{point_places};
ghost use Rattle.sec1_c.specs.Statuses.{error_number, field_length_number};

use super::PointParts;
use crate::buffer::{write_bytes, write_tagged};
use crate::span::Span;
use crate::status::{OK, error_number, field_length_number};
use sec1::Error;
use sec1::point::Tag;
use std::cmp::Ordering;

/// Returns 0 if all of the bytes are the encoding of a point; otherwise the number that says why
/// they aren't.
pub fn status_of(bytes: &[u8], field_len: usize) -> u32
    ensures found { result ≡ 0 → IsFieldLength field_len × IsEncoding field_len bytes.now }
    ensures point { IsFieldLength field_len → IsEncoding field_len bytes.now → result ≡ 0 }
    ensures no_point { IsFieldLength field_len → ¬ IsEncoding field_len bytes.now
        → result ≡ error_number Error.PointEncoding }
    ensures other_field { ¬ IsFieldLength field_len → result ≡ field_length_number }
{
    if field_len == 0 || field_len > 66 {
        return field_length_number();
    }
    if !is_encoding(bytes, field_len) {
        return error_number(&Error::PointEncoding);
    }
    OK
}

/// Returns 0 if both are the encodings of points; otherwise the number that says why the first, or
/// else the second, isn't one.
#[tactic(auto, using(crate::proofs::PointLemmas::encoded))]
pub fn status_of_both(first: &[u8], second: &[u8], field_len: usize) -> u32
    ensures points { (p q : Point) → IsFieldLength field_len
        → EncodesBoth field_len p q first.now second.now → result ≡ 0 }
    ensures first { IsFieldLength field_len → ¬ IsEncoding field_len first.now
        → result ≡ error_number Error.PointEncoding }
    ensures second { IsFieldLength field_len → ¬ IsEncoding field_len second.now
        → result ≡ error_number Error.PointEncoding }
    ensures other_field { ¬ IsFieldLength field_len → result ≡ field_length_number }
{
    match status_of(first, field_len) {
        OK => status_of(second, field_len),
        status => status,
    }
}

/// Returns `true` if the bytes are the encoding of a point for field elements of n bytes.
fn is_encoding(bytes: &[u8], n: usize) -> bool
    requires positive { 1 ≤ n }
    requires fits { n ≤ 66 }
    ensures { IsTrue result ↔ IsEncoding n bytes.now }
{
    let Some((first, rest)) = bytes.split_first() else {
        return false;
    };
    let Ok(tag) = Tag::from_u8(*first) else {
        return false;
    };
    if bytes.len() != tag.message_len(n) {
        return false;
    }
    !tag.is_hybrid() || rest[rest.len() - 1] % 2 == *first % 2
}

/// Returns the tag of the point with this encoding, and the places of its coordinates.
#[tactic(auto)]
pub fn places(bytes: &[u8], n: usize) -> PointParts
    requires { n ≤ 66 }
    ensures { (p : Point) → Encodes n p bytes.now → result ≡ point_places n p }
{
    let tag = first_byte(bytes);
    let x = if tag == 0 { None } else { Some(n) };
    let y = if has_y(tag) { Some(n) } else { None };
    PointParts {
        tag: usize::from(tag),
        x: Span::from(1, x),
        y: Span::from(1 + n, y),
    }
}

/// Returns the first byte of the encoding of a point.
#[tactic(auto, unfolding(sec1::specs::Points::encoding))]
fn first_byte(bytes: &[u8]) -> u8
    ensures { (n : ℕ) (p : Point) → Encodes n p bytes.now → result ≡ tag_byte p }
{
    match bytes.split_first() {
        Some((tag, _)) => *tag,
        None => 0,
    }
}

/// Writes the compressed form of the point with this encoding.
#[tactic(auto, using(crate::proofs::PointLemmas::compressed_forms))]
pub fn compress(bytes: &[u8], out: &mut [u8], len: &mut usize) -> u32
    ensures { (n : ℕ) (p : Point) → IsFieldLength n → Encodes n p bytes.now
        → Writes (encoding n (compressed_point p)) out.old out.new result len.new }
{
    let coordinates = after_first(bytes);
    if has_y(first_byte(bytes)) {
        let x = &coordinates[..coordinates.len() / 2];
        return write_tagged(2 + parity(coordinates), x, out, len);
    }
    write_bytes(bytes, out, len)
}

/// Writes the hybrid form of the point with this encoding.
#[tactic(auto, using(crate::proofs::PointLemmas::hybrid_forms))]
pub fn to_hybrid(bytes: &[u8], out: &mut [u8], len: &mut usize) -> u32
    ensures { (n : ℕ) (p : Point) → IsFieldLength n → Encodes n p bytes.now
        → Writes (encoding n (hybrid_point p)) out.old out.new result len.new }
{
    let coordinates = after_first(bytes);
    if first_byte(bytes) == 4 {
        return write_tagged(6 + parity(coordinates), coordinates, out, len);
    }
    write_bytes(bytes, out, len)
}

/// Returns `true` for the tags of points that have y: uncompressed and hybrid ones.
fn has_y(tag: u8) -> bool
    ensures yes { IsTrue result → (4 ≤ tag) × (tag ≢ 5) }
    ensures no { ¬ IsTrue result → (tag < 6) × (tag ≢ 4) }
{
    tag == 4 || tag >= 6
}

/// Borrows the bytes after the first.
fn after_first(bytes: &[u8]) -> &[u8]
    ensures { result.now ≡ drop 1 bytes.now }
{
    match bytes.split_first() {
        Some((_, rest)) => rest,
        None => bytes,
    }
}

/// Returns the parity of the last byte; 0 if there is none.
pub fn parity(bytes: &[u8]) -> u8
    ensures { result ≡ get_or bytes.now (length bytes.now - 1) 0 % 2 }
{
    if bytes.is_empty() {
        0
    } else {
        bytes[bytes.len() - 1] % 2
    }
}

/// Returns -1, 0 or 1: whether the first bytes are less than the second, the same, or greater.
pub fn order_number(first: &[u8], second: &[u8]) -> i32
    ensures { result ≡ order_of (slice_cmp nat_cmp first.now second.now) }
{
    match first.cmp(second) {
        Ordering::Less => -1,
        Ordering::Equal => 0,
        Ordering::Greater => 1,
    }
}

/// Returns the length of the encodings with this tag at field elements of n bytes; `None` if no
/// point has the tag.
#[tactic(auto, using(crate::proofs::PointLemmas::encoding_lengths))]
pub fn encoding_len(tag: usize, n: usize) -> Option<usize>
    requires { n ≤ 66 }
    ensures found { (p : Point) → tag_byte p ≡ tag → result ≡ Some (length (encoding n p)) }
    ensures none { ((p : Point) → tag_byte p ≢ tag) → result ≡ None }
{
    match tag {
        0 => Some(1),
        2 => Some(n + 1),
        3 => Some(n + 1),
        4 => Some(2 * n + 1),
        5 => Some(n + 1),
        6 => Some(2 * n + 1),
        7 => Some(2 * n + 1),
        _ => None,
    }
}
