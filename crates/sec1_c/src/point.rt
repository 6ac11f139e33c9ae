//! Points (SEC1 v2.0 section 2.3.3) at field elements of 1 to 66 bytes: `sec1_point_check`,
//! `sec1_point_read`, `sec1_point_compress`, `sec1_point_to_hybrid` and `sec1_point_compare`.
ghost use Rattle.std.specs.Cmp.Lexicographic.{slice_cmp};
ghost use Rattle.std.specs.Ordering.{nat_cmp};
ghost use Rattle.std.specs.Prelude.{◌≡◌, ◌≢◌};
ghost use Rattle.sec1.specs.Points.{Point, IsEncoding, compressed_point, encoding, hybrid_point};
ghost use Rattle.sec1.specs.Points.{tag_byte};
ghost use Rattle.sec1_c.specs.FieldLengths.{Encodes, EncodesBoth, IsFieldLength};
ghost use Rattle.sec1_c.specs.Outputs.{StoresLength, Writes, WritesNothing};
ghost use Rattle.sec1_c.specs.PointOrders.{IsOrderOf, order_of};
ghost use Rattle.sec1_c.specs.PointPlaces.{ArePointPartsOf, point_places};
ghost use Rattle.sec1_c.specs.Statuses.{error_number, field_length_number};

pub mod encoded;
mod hexadecimal;
mod made;

use crate::span::Span;
use crate::status::{OK, error_number, field_length_number};
use encoded::{compress, encoding_len, order_number, places, status_of, status_of_both, to_hybrid};
use sec1::Error;

/// The tag of a point, and the places of its coordinates in its encoding.
#[repr(C)]
#[derive(Clone, Copy)]
pub struct PointParts {
    /// The first byte of the encoding: 0 identity, 2 and 3 compressed with an even and an odd y, 4
    /// uncompressed, 5 compact, 6 and 7 hybrid with an even and an odd y.
    pub tag: usize,

    /// The x-coordinate, absent only for the identity.
    pub x: Span,

    /// The y-coordinate, present for uncompressed and hybrid points.
    pub y: Span,
}

/// Checks that all of `bytes` is the encoding of a point over a field whose elements have
/// `field_len` bytes.
///
/// # Errors
///
/// Returns the number of PointEncoding if it isn't, or that of a field length that isn't supported.
#[unsafe(no_mangle)]
#[tactic(auto, using(crate::proofs::PointLemmas::encodings))]
pub extern "C" fn sec1_point_check(bytes: &[u8], field_len: usize) -> u32
    ensures found { result ≡ 0 → IsFieldLength field_len × IsEncoding field_len bytes.now }
    ensures only { (p : Point) → IsFieldLength field_len → Encodes field_len p bytes.now
        → result ≡ 0 }
    ensures no_point { IsFieldLength field_len → ¬ IsEncoding field_len bytes.now
        → result ≡ error_number Error.PointEncoding }
    ensures other_field { ¬ IsFieldLength field_len → result ≡ field_length_number }
{
    status_of(bytes, field_len)
}

/// Reads a point from its encoding, which is all of `bytes`, and stores its tag and the places of
/// its coordinates.
///
/// # Errors
///
/// Returns the numbers of `sec1_point_check`, and leaves `parts` unchanged.
#[unsafe(no_mangle)]
#[tactic(auto, using(crate::proofs::PointLemmas::encodings))]
pub extern "C" fn sec1_point_read(bytes: &[u8], field_len: usize, parts: &mut PointParts) -> u32
    ensures found { result ≡ 0 → IsFieldLength field_len × IsEncoding field_len bytes.now }
    ensures only { (p : Point) → IsFieldLength field_len → Encodes field_len p bytes.now
        → result ≡ 0 }
    ensures parts { (p : Point) → IsFieldLength field_len → Encodes field_len p bytes.now
        → ArePointPartsOf field_len p bytes.now parts.new }
    ensures places { (p : Point) → IsFieldLength field_len → Encodes field_len p bytes.now
        → parts.new ≡ point_places field_len p }
    ensures no_point { IsFieldLength field_len → ¬ IsEncoding field_len bytes.now
        → result ≡ error_number Error.PointEncoding }
    ensures other_field { ¬ IsFieldLength field_len → result ≡ field_length_number }
    ensures unchanged { result ≢ 0 → parts.new ≡ parts.old }
{
    let status = status_of(bytes, field_len);
    if status == OK {
        *parts = places(bytes, field_len);
    }
    status
}

/// Stores the length of the encodings that begin with this tag, over a field whose elements have
/// `field_len` bytes.
///
/// # Errors
///
/// Returns the number of PointEncoding if no point has the tag, or that of a field length that
/// isn't supported. `len` is unchanged in both cases.
#[unsafe(no_mangle)]
pub extern "C" fn sec1_point_len(tag: usize, field_len: usize, len: &mut usize) -> u32
    ensures point { (p : Point) → IsFieldLength field_len → tag_byte p ≡ tag
        → StoresLength (encoding field_len p) result len.new }
    ensures no_tag { IsFieldLength field_len → ((p : Point) → tag_byte p ≢ tag)
        → (result ≡ error_number Error.PointEncoding) × (len.new ≡ len.old) }
    ensures other_field { ¬ IsFieldLength field_len
        → (result ≡ field_length_number) × (len.new ≡ len.old) }
{
    if field_len == 0 || field_len > 66 {
        return field_length_number();
    }
    let Some(found) = encoding_len(tag, field_len) else {
        return error_number(&Error::PointEncoding);
    };
    *len = found;
    OK
}

/// Writes the compressed form of an uncompressed or hybrid point, with the parity of its y, at the
/// beginning of `out`, and stores its length. Any other point is written as it is. The rest of
/// `out` is unchanged.
///
/// # Errors
///
/// Returns the number of Buffer if `out` is too short, and stores the length; otherwise those of
/// `sec1_point_check`, and leaves `len` unchanged. `out` is unchanged in each case.
#[unsafe(no_mangle)]
#[tactic(auto, using(crate::proofs::PointLemmas::encodings))]
pub extern "C" fn sec1_point_compress(
    bytes: &[u8],
    field_len: usize,
    out: &mut [u8],
    len: &mut usize,
) -> u32
    ensures point { (p : Point) → IsFieldLength field_len → Encodes field_len p bytes.now
        → Writes (encoding field_len (compressed_point p)) out.old out.new result len.new }
    ensures no_point { IsFieldLength field_len → ¬ IsEncoding field_len bytes.now
        → WritesNothing (error_number Error.PointEncoding) out.old out.new result len.old len.new }
    ensures other_field { ¬ IsFieldLength field_len
        → WritesNothing field_length_number out.old out.new result len.old len.new }
{
    let status = status_of(bytes, field_len);
    if status != OK {
        return status;
    }
    compress(bytes, out, len)
}

/// Writes the hybrid form of an uncompressed point, with the parity of its y, at the beginning of
/// `out`, and stores its length. Any other point is written as it is. The rest of `out` is
/// unchanged.
///
/// # Errors
///
/// Returns the number of Buffer if `out` is too short, and stores the length; otherwise those of
/// `sec1_point_check`, and leaves `len` unchanged. `out` is unchanged in each case.
#[unsafe(no_mangle)]
#[tactic(auto, using(crate::proofs::PointLemmas::encodings))]
pub extern "C" fn sec1_point_to_hybrid(
    bytes: &[u8],
    field_len: usize,
    out: &mut [u8],
    len: &mut usize,
) -> u32
    ensures point { (p : Point) → IsFieldLength field_len → Encodes field_len p bytes.now
        → Writes (encoding field_len (hybrid_point p)) out.old out.new result len.new }
    ensures no_point { IsFieldLength field_len → ¬ IsEncoding field_len bytes.now
        → WritesNothing (error_number Error.PointEncoding) out.old out.new result len.old len.new }
    ensures other_field { ¬ IsFieldLength field_len
        → WritesNothing field_length_number out.old out.new result len.old len.new }
{
    let status = status_of(bytes, field_len);
    if status != OK {
        return status;
    }
    to_hybrid(bytes, out, len)
}

/// Compares two points by tag, then by coordinates as whole numbers, and stores -1, 0 or 1 if the
/// first is less than the second, the same, or greater.
///
/// # Errors
///
/// Returns the numbers of `sec1_point_check` for either point, and leaves `order` unchanged.
#[unsafe(no_mangle)]
pub extern "C" fn sec1_point_compare(
    first: &[u8],
    second: &[u8],
    field_len: usize,
    order: &mut i32,
) -> u32
    ensures points { (p q : Point) → IsFieldLength field_len
        → EncodesBoth field_len p q first.now second.now → result ≡ 0 }
    ensures order { (p q : Point) → IsFieldLength field_len
        → EncodesBoth field_len p q first.now second.now → IsOrderOf p q order.new }
    ensures bytes { result ≡ 0 → order.new ≡ order_of (slice_cmp nat_cmp first.now second.now) }
    ensures first { IsFieldLength field_len → ¬ IsEncoding field_len first.now
        → result ≡ error_number Error.PointEncoding }
    ensures second { IsFieldLength field_len → ¬ IsEncoding field_len second.now
        → result ≡ error_number Error.PointEncoding }
    ensures other_field { ¬ IsFieldLength field_len → result ≡ field_length_number }
    ensures unchanged { result ≢ 0 → order.new ≡ order.old }
{
    let status = status_of_both(first, second, field_len);
    if status != OK {
        return status;
    }
    *order = order_number(first, second);
    OK
}
