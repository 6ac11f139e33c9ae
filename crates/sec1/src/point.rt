//! Points of elliptic curves over prime fields in their encodings (SEC1 v2.0 sections 2.3.3 and
//! 2.3.4).
//!
//! No call here tests that a point lies on a curve, or that a coordinate is below a field's
//! modulus.

mod coordinates;
mod order;
mod select;
mod tag;
mod text;

// Definitions that cite `EncodedPoint` are imported in the blocks below: its ghost fields come
// before them.
ghost use Rattle.std.specs.Prelude.{◌≡◌, ◌+◌, ◌*◌, ◌<◌, ◌≤◌, ◌^◌, ◌↔◌, if◌then◌else◌, length};
ghost use Rattle.std.specs.Prelude.{IfSome, ◌⊎◌};
ghost use Rattle.std.specs.Prelude.{slice_index, take, drop, set, IsTrue, ◌==◌, ◌||◌};
ghost use Rattle.std.specs.List.{All};
ghost use Rattle.std.specs.Option.{option_map};
ghost use Rattle.sec1_der.specs.Elements.{number_of};
ghost use Rattle.sec1.specs.Points.{identity, uncompressed, IsEncoding, meaning, encoding, Fits};
ghost use Rattle.sec1.specs.Points.{compressed_point, hybrid_point, tag_byte, x_of, y_of};
ghost use Rattle.sec1.specs.Points.{fixed_width};

use crate::error::{Error, Result};
pub use coordinates::Coordinates;
use std::fmt;
use std::simd::prelude::*;
pub use tag::Tag;

/// The encoding of a point, for field elements of N bytes.
///
/// N is at least 1 and L is 2N + 1, the length of the longest encoding. The encoding is at the
/// beginning of a buffer of L bytes; the bytes after it are ignored, so that two values may be
/// equal and differ there.
///
/// A function that is generic over N and L, without a value of this type among its parameters or in
/// its result, must require or test that L is below 2^62 before it calls one of these: only then is
/// the type known to have a size.
#[derive(Clone, Copy)]
pub struct EncodedPoint<const N: usize, const L: usize> {
    bytes: [u8; L],
    len: usize,
    ghost sizes: { Fits N L },
    ghost room: { len ≤ L },
    ghost encoded: { encoding N (meaning N (take len bytes)) ≡ take len bytes },
}

/// A point over a field of 224 bits.
pub type EncodedPoint28 = EncodedPoint<28, 57>;

/// A point over a field of 256 bits.
pub type EncodedPoint32 = EncodedPoint<32, 65>;

/// A point over a field of 384 bits.
pub type EncodedPoint48 = EncodedPoint<48, 97>;

/// A point over a field of 521 bits.
pub type EncodedPoint66 = EncodedPoint<66, 133>;

impl<const N: usize, const L: usize> EncodedPoint<N, L> {
    ghost use Rattle.sec1.specs.EncodedPoints.{point_of, IsInForm, IsWiped, ReadsBytes};
    ghost use Rattle.sec1.specs.Tags.{byte_of, message_len, point_tag};
    ghost use Rattle.sec1.specs.Coordinates.{arrays_of, coordinates_bytes, coordinates_point};

    /// Returns `true` if N is at least 1 and L is 2N + 1. Otherwise there are no points of this
    /// type.
    pub fn fits() -> bool
        ensures { IsTrue result ↔ Fits N L }
    {
        N != 0 && L % 2 == 1 && L / 2 == N
    }

    /// Reads a point from its whole encoding (SEC1 v2.0 section 2.3.4).
    ///
    /// # Errors
    ///
    /// [`Error::PointEncoding`] if the input isn't the encoding of a point, or if N and L don't
    /// [fit](EncodedPoint::fits).
    ///
    /// # Examples
    ///
    /// ```
    /// let point = EncodedPoint32::from_bytes(bytes)?;
    /// Ok(point.compress())
    /// ```
    #[tactic(auto, using(crate::proofs::EncodedPointLemmas::encoding_lengths))]
    pub fn from_bytes(input: &[u8]) -> Result<Self>
        ensures { ReadsBytes input.now result }
    {
        if !Self::fits() || !is_encoding(input, N) {
            return Err(Error::PointEncoding);
        }
        let len = input.len();
        // The compiler knows the length of a whole buffer, and copies it without a call.
        if let Some(whole) = input.as_array::<L>() {
            return Ok(EncodedPoint { bytes: *whole, len });
        }
        let mut bytes = [0; L];
        copy_short::<N>(input, &mut bytes[..len]);
        Ok(EncodedPoint { bytes, len })
    }

    /// Returns the uncompressed point with these coordinates, x and then y, without a tag.
    ///
    /// Requires exactly 2N bytes, and that N and L [fit](EncodedPoint::fits).
    pub fn from_untagged_bytes(bytes: &[u8]) -> Self
        requires { Fits N L × (length bytes.now ≡ 2 * N) }
        ensures { point_of result
            ≡ uncompressed (number_of (take N bytes.now)) (number_of (drop N bytes.now)) }
    {
        let (x, y) = bytes.split_at(N);
        Self::from_halves(x, y)
    }

    /// Returns the point with these coordinates, compressed or uncompressed.
    ///
    /// Requires that N and L [fit](EncodedPoint::fits).
    pub fn from_affine_coordinates(x: &[u8; N], y: &[u8; N], compress: bool) -> Self
        requires { Fits N L }
        ensures { let whole = uncompressed (number_of x.now) (number_of y.now) in
            point_of result ≡ (if compress then compressed_point whole else whole) }
    {
        let point = Self::from_halves(x.as_slice(), y.as_slice());
        if compress { point.compress() } else { point }
    }

    /// Returns the uncompressed point with these coordinates, of N bytes each.
    #[tactic(auto, using(crate::proofs::EncodedPointLemmas::halves_hold))]
    fn from_halves(x: &[u8], y: &[u8]) -> Self
        requires { Fits N L × (length x.now ≡ N) × (length y.now ≡ N) }
        ensures { point_of result ≡ uncompressed (number_of x.now) (number_of y.now) }
    {
        let mut bytes = [0; L];
        let buffer = bytes.as_mut_slice();
        buffer[0] = u8::from(Tag::Uncompressed);
        buffer[1..N + 1].copy_from_slice(x);
        buffer[N + 1..].copy_from_slice(y);
        EncodedPoint { bytes, len: L }
    }

    /// Returns the identity, the point at infinity.
    ///
    /// Requires that N and L [fit](EncodedPoint::fits).
    #[tactic(auto, using(crate::proofs::EncodedPointLemmas::identity_holds))]
    pub fn identity() -> Self
        requires { Fits N L }
        ensures { IsWiped result }
    {
        EncodedPoint {
            bytes: [0; L],
            len: 1,
        }
    }

    /// Returns the length of the encoding in bytes.
    pub fn len(&self) -> usize
        ensures { result ≡ length (encoding N (point_of self.now)) }
    {
        self.len
    }

    /// Borrows the encoding (SEC1 v2.0 section 2.3.3).
    pub fn as_bytes(&self) -> &[u8]
        ensures { result.now ≡ encoding N (point_of self.now) }
    {
        &self.bytes[..self.len]
    }

    /// Returns `true` if the encoding is compact.
    pub fn is_compact(&self) -> bool
        ensures { result ≡ (tag_byte (point_of self.now) == 5) }
    {
        self.tag().is_compact()
    }

    /// Returns `true` if the encoding is compressed. A compact one isn't.
    pub fn is_compressed(&self) -> bool
        ensures { let byte = tag_byte (point_of self.now) in result ≡ (byte == 2 || byte == 3) }
    {
        self.tag().is_compressed()
    }

    /// Returns `true` if the encoding is hybrid.
    pub fn is_hybrid(&self) -> bool
        ensures { let byte = tag_byte (point_of self.now) in result ≡ (byte == 6 || byte == 7) }
    {
        self.tag().is_hybrid()
    }

    /// Returns `true` if the point is the identity.
    pub fn is_identity(&self) -> bool
        ensures { result ≡ (tag_byte (point_of self.now) == 0) }
    {
        self.tag().is_identity()
    }

    /// Returns the compressed form of an uncompressed or hybrid point. Any other point is returned
    /// as it is. y stays in the buffer, after the encoding.
    // Inlined: otherwise the result is moved once more.
    #[inline(always)]
    pub fn compress(&self) -> Self
        ensures { IsInForm compressed_point self.now result }
    {
        let (tag, len) = self.compressed_front();
        EncodedPoint {
            bytes: with_first(&self.bytes, tag),
            len,
        }
    }

    /// Returns the tag byte and the length of the compressed form, whose other bytes are those of
    /// this one.
    fn compressed_front(&self) -> (u8, usize)
        ensures { (result.1 ≤ L) × (take result.1 (set self.now.bytes 0 result.0)
            ≡ encoding N (compressed_point (point_of self.now))) }
    {
        // Uncompressed and hybrid points fill the buffer, and no others.
        if self.len != L {
            return (self.bytes[0], self.len);
        }
        let (_, y) = self.halves();
        (u8::from(Tag::compress_y(y)), N + 1)
    }

    /// Returns the hybrid form of an uncompressed point. Any other point is returned as it is. Only
    /// the first byte of the buffer changes.
    pub fn to_hybrid(&self) -> Self
        ensures { IsInForm hybrid_point self.now result }
    {
        let Coordinates::Uncompressed { y, .. } = self.coordinates() else {
            return *self;
        };
        let tag = Tag::hybrid_y(y);
        let mut point = *self;
        point.bytes[0] = u8::from(tag);
        point
    }

    /// Returns the tag, the first byte of the encoding. The length of the encoding is that of its
    /// tag.
    #[tactic(auto, using(crate::proofs::EncodedPointLemmas::first_byte))]
    pub fn tag(&self) -> Tag
        ensures { let point = point_of self.now in
            (result ≡ point_tag point) × (byte_of result ≡ slice_index (encoding N point) 0)
            × (message_len result N ≡ length (encoding N point)) }
    {
        match Tag::from_u8(self.bytes[0]) {
            Ok(tag) => tag,
            Err(_) => unreachable!(),
        }
    }

    /// Borrows the parts of the point.
    ///
    /// # Examples
    ///
    /// ```
    /// match point.coordinates() {
    ///     Coordinates::Uncompressed { y, .. } | Coordinates::Hybrid { y, .. } => Some(y),
    ///     _ => None,
    /// }
    /// ```
    pub fn coordinates(&self) -> Coordinates<'_, N>
        ensures { let point = point_of self.now in
            (coordinates_point result ≡ point) × (coordinates_bytes result ≡ encoding N point)
            × All (λ array. array ≡ fixed_width N (number_of array)) (arrays_of result)
            × All (λ array. length array ≡ N) (arrays_of result) }
    {
        let (x, y) = self.halves();
        Coordinates::with_tag(self.tag(), x, y)
    }

    /// Borrows the N bytes after the tag, and the N bytes after these, whether or not they belong
    /// to the encoding.
    fn halves(&self) -> (&[u8; N], &[u8; N])
        ensures { (result.0.now ≡ take N (drop 1 self.now.bytes))
            × (result.1.now ≡ take N (drop N (drop 1 self.now.bytes)))
            × (length result.0.now ≡ N) × (length result.1.now ≡ N) }
    {
        let all = self.bytes.as_slice();
        let Some((x, rest)) = all[1..].split_first_chunk::<N>() else {
            unreachable!();
        };
        let Some((y, _)) = rest.split_first_chunk::<N>() else {
            unreachable!();
        };
        (x, y)
    }

    /// Borrows the x-coordinate; `None` for the identity.
    #[tactic(auto, using(crate::proofs::CoordinateLemmas::coordinate_digits))]
    pub fn x(&self) -> Option<&[u8; N]>
        ensures number { option_map (λ x. number_of x.now) result ≡ x_of (point_of self.now) }
        ensures bytes { option_map (λ x. x.now) result
            ≡ option_map (fixed_width N) (x_of (point_of self.now)) }
        ensures len { IfSome result (λ x. length x.now ≡ N) }
    {
        match self.coordinates() {
            Coordinates::Identity => None,
            Coordinates::Compact { x } => Some(x),
            Coordinates::Compressed { x, .. } => Some(x),
            Coordinates::Uncompressed { x, .. } => Some(x),
            Coordinates::Hybrid { x, .. } => Some(x),
        }
    }

    /// Borrows the y-coordinate, if the point is uncompressed or hybrid.
    #[tactic(auto, using(crate::proofs::CoordinateLemmas::coordinate_digits))]
    pub fn y(&self) -> Option<&[u8; N]>
        ensures number { option_map (λ y. number_of y.now) result ≡ y_of (point_of self.now) }
        ensures bytes { option_map (λ y. y.now) result
            ≡ option_map (fixed_width N) (y_of (point_of self.now)) }
        ensures len { IfSome result (λ y. length y.now ≡ N) }
    {
        match self.coordinates() {
            Coordinates::Uncompressed { y, .. } => Some(y),
            Coordinates::Hybrid { y, .. } => Some(y),
            _ => None,
        }
    }
}

/// Copies the encoding of a point that isn't the longest: a tag, and N bytes or none after it. The
/// compiler knows these lengths, and copies without a call.
#[inline(always)]
fn copy_short<const N: usize>(from: &[u8], to: &mut [u8])
    requires size { N < 2 ^ 62 }
    requires short { (length from.now ≡ 1) ⊎ (length from.now ≡ N + 1) }
    requires len { length to.old ≡ length from.now }
    ensures { to.new ≡ from.now }
{
    let (tag, rest) = to.split_at_mut(1);
    tag[0] = from[0];
    if let Some(x) = from[1..].as_array::<N>()
        && let Some(room) = rest.as_mut_array::<N>()
    {
        *room = *x;
    }
}

/// Returns a copy of the bytes with another first byte.
#[inline(always)]
fn with_first<const L: usize>(bytes: &[u8; L], first: u8) -> [u8; L]
    requires { 1 ≤ L }
    ensures { result ≡ set bytes.now 0 first }
{
    let mut copy = *bytes;
    copy[0] = first;
    // The 64 bytes after the tag of a point over 256 bits, once more, as a vector: they are read
    // before the tag is written. Otherwise they go by the stack, since LLVM doesn't know that the
    // caller's place for the result isn't the point itself.
    if let Some(rest) = bytes.as_slice()[1..].as_array::<64>() {
        u8x64::from_array(*rest).copy_to_slice(&mut copy.as_mut_slice()[1..]);
    }
    copy
}

/// Returns `true` if the input is the encoding of a point for field elements of n bytes.
#[tactic(auto, using(crate::proofs::PointLemmas::passing_encodings))]
fn is_encoding(input: &[u8], n: usize) -> bool
    requires { (1 ≤ n) × (2 * n + 1 < 2 ^ 64) }
    ensures { IsTrue result ↔ IsEncoding n input.now }
{
    let Some((first, rest)) = input.split_first() else {
        return false;
    };
    let Ok(tag) = Tag::from_u8(*first) else {
        return false;
    };
    if input.len() != tag.message_len(n) {
        return false;
    }
    !tag.is_hybrid() || rest[rest.len() - 1] % 2 == *first % 2
}

/// Reads a point as [`EncodedPoint::from_bytes`] does.
impl<const N: usize, const L: usize> TryFrom<&[u8]> for EncodedPoint<N, L> {
    type Error = Error;

    ghost use Rattle.sec1.specs.EncodedPoints.{ReadsBytes};

    ghost try_from_gives = { λ input result. ReadsBytes input.now result };

    fn try_from(input: &[u8]) -> Result<Self> {
        Self::from_bytes(input)
    }
}

impl Default for EncodedPoint<28, 57> {
    ghost use Rattle.sec1.specs.EncodedPoints.{IsWiped};

    ghost is_default = { λ point. IsWiped point };

    fn default() -> Self {
        Self::identity()
    }
}

impl Default for EncodedPoint<32, 65> {
    ghost use Rattle.sec1.specs.EncodedPoints.{IsWiped};

    ghost is_default = { λ point. IsWiped point };

    fn default() -> Self {
        Self::identity()
    }
}

impl Default for EncodedPoint<48, 97> {
    ghost use Rattle.sec1.specs.EncodedPoints.{IsWiped};

    ghost is_default = { λ point. IsWiped point };

    fn default() -> Self {
        Self::identity()
    }
}

impl Default for EncodedPoint<66, 133> {
    ghost use Rattle.sec1.specs.EncodedPoints.{IsWiped};

    ghost is_default = { λ point. IsWiped point };

    fn default() -> Self {
        Self::identity()
    }
}

/// Prints the coordinates, each as its bytes in decimal.
impl<const N: usize, const L: usize> fmt::Debug for EncodedPoint<N, L> {
    ghost use Rattle.std.specs.Fmt.{◌++?◌};
    ghost use Rattle.std.specs.Prelude.{Some, codes};
    ghost use Rattle.sec1.specs.DebugTexts.{form_text};
    ghost use Rattle.sec1.specs.EncodedPoints.{point_of};

    ghost debug_output = { λ point. Some (codes "EncodedPoint(")
        ++? form_text N (point_of point) (drop 1 (encoding N (point_of point)))
        ++? Some (codes ")") };

    fn fmt<W: fmt::Write>(&self, f: &mut fmt::Formatter<W>) -> fmt::Result {
        let coordinates = self.coordinates();
        write!(f, "EncodedPoint({coordinates:?})")
    }
}
