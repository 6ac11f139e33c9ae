//! Points of `sec1`, read again from what was written of them: bytes, texts and JSON; and points
//! compared.
ghost use Rattle.std.specs.Prelude.{◌≡◌, ◌≢◌, ◌↔◌, ◌<◌, ◌^◌, IsTrue, IfOk, IfErr, IsOkAnd, true};
ghost use Rattle.sec1.specs.EncodedPoints.{point_of};
ghost use Rattle.sec1.specs.PointOrder.{IsBelow};
ghost use Rattle.sec1.specs.Points.{Fits, IsEncoding};
ghost use Rattle.sec1.specs.declared.error.Error.TheVariants.{Memory};

use sec1::laws::{one_point, points_apart, points_ordered};
use sec1::point::EncodedPoint32;
use sec1::{EncodedPoint, Result};
use std::alloc::Global;
use std::str::FromStr;

/// Reads a point again from its encoding.
///
/// # Errors
///
/// None: the encoding of a point is one.
pub fn from_own_bytes<const N: usize, const L: usize>(
    point: &EncodedPoint<N, L>,
) -> Result<EncodedPoint<N, L>>
    ensures { IsOkAnd result (λ again. point_of again ≡ point_of point.now) }
{
    one_point(point);
    EncodedPoint::from_bytes(point.as_bytes())
}

/// Reads a point again from its text in lower case.
///
/// # Errors
///
/// Memory if an allocation fails.
pub fn from_own_lower_hex<const N: usize, const L: usize>(
    alloc: Global,
    point: &EncodedPoint<N, L>,
) -> Result<EncodedPoint<N, L>>
    ensures found { IfOk result (λ again. point_of again ≡ point_of point.now) }
    ensures kind { IfErr result (λ e. e ≡ Memory) }
{
    one_point(point);
    let text = point.to_lower_hex(alloc)?;
    EncodedPoint::from_str(text.as_str())
}

/// Reads a point again from its text in upper case.
///
/// # Errors
///
/// Memory if an allocation fails.
pub fn from_own_upper_hex<const N: usize, const L: usize>(
    alloc: Global,
    point: &EncodedPoint<N, L>,
) -> Result<EncodedPoint<N, L>>
    ensures found { IfOk result (λ again. point_of again ≡ point_of point.now) }
    ensures kind { IfErr result (λ e. e ≡ Memory) }
{
    one_point(point);
    let text = point.to_upper_hex(alloc)?;
    EncodedPoint::from_str(text.as_str())
}

/// Reads a point again from its JSON.
///
/// # Errors
///
/// Memory if an allocation fails.
pub fn from_own_json<const N: usize, const L: usize>(
    alloc: Global,
    point: &EncodedPoint<N, L>,
) -> Result<EncodedPoint<N, L>>
    ensures found { IfOk result (λ again. point_of again ≡ point_of point.now) }
    ensures kind { IfErr result (λ e. e ≡ Memory) }
{
    one_point(point);
    let json = point.to_json(alloc)?;
    EncodedPoint::from_json(&json)
}

/// Returns `true` if the bytes are the encoding of a point, for field elements of N bytes.
///
/// L is bounded here, since this signature has no value of the type.
pub fn is_encoding<const N: usize, const L: usize>(bytes: &[u8]) -> bool
    requires { L < 2 ^ 62 }
    ensures { IsTrue result ↔ Fits N L × IsEncoding N bytes.now }
{
    EncodedPoint::<N, L>::from_bytes(bytes).is_ok()
}

/// Returns `true` if the points differ.
pub fn differ<const N: usize, const L: usize>(
    a: &EncodedPoint<N, L>,
    b: &EncodedPoint<N, L>,
) -> bool
    ensures { IsTrue result ↔ (point_of a.now ≢ point_of b.now) }
{
    points_apart();
    *a != *b
}

/// Returns `true` if the two points are the same, by their coordinates.
pub fn has_coordinates_of<const N: usize, const L: usize>(
    point: &EncodedPoint<N, L>,
    other: &EncodedPoint<N, L>,
) -> bool
    ensures { IsTrue result ↔ (point_of point.now ≡ point_of other.now) }
{
    points_apart();
    one_point(point);
    one_point(other);
    point.coordinates() == other.coordinates()
}

/// Returns `true`, since a point and its compressed form have the same x-coordinate.
pub fn keeps_x(point: &EncodedPoint32) -> bool
    ensures { result ≡ true }
{
    point.compress().x() == point.x()
}

/// Returns `true` if the first point is below the second.
pub fn is_below<const N: usize, const L: usize>(
    a: &EncodedPoint<N, L>,
    b: &EncodedPoint<N, L>,
) -> bool
    ensures { IsTrue result ↔ IsBelow (point_of a.now) (point_of b.now) }
{
    points_ordered();
    *a < *b
}

/// Returns the lower of two points.
pub fn lower<const N: usize, const L: usize>(
    a: EncodedPoint<N, L>,
    b: EncodedPoint<N, L>,
) -> EncodedPoint<N, L>
    ensures second { IsBelow (point_of b.entry) (point_of a.entry) → result ≡ b.entry }
    ensures first { ¬ IsBelow (point_of b.entry) (point_of a.entry) → result ≡ a.entry }
{
    points_ordered();
    a.min(b)
}

/// Returns the upper of two points.
pub fn upper<const N: usize, const L: usize>(
    a: EncodedPoint<N, L>,
    b: EncodedPoint<N, L>,
) -> EncodedPoint<N, L>
    ensures first { IsBelow (point_of b.entry) (point_of a.entry) → result ≡ a.entry }
    ensures second { ¬ IsBelow (point_of b.entry) (point_of a.entry) → result ≡ b.entry }
{
    points_ordered();
    a.max(b)
}
