//! The coordinates that a point lends, as arrays and slices: each has N bytes.
ghost use Rattle.std.specs.Prelude.{◌≡◌, ℕ, length, Some, IfSome};
ghost use Rattle.std.specs.List.{All};
ghost use Rattle.std.specs.Option.{option_map};
ghost use Rattle.sec1.specs.Coordinates.{arrays_of};
ghost use Rattle.sec1.specs.EncodedPoints.{point_of};
ghost use Rattle.sec1.specs.Points.{fixed_width, x_of};

use sec1::EncodedPoint;
use sec1::point::{Coordinates, EncodedPoint32};

/// Copies the x-coordinate into an array of its length. The identity has none, and changes nothing.
pub fn copied_32(point: &EncodedPoint32, out: &mut [u8; 32])
    ensures { IfSome (option_map (fixed_width 32) (x_of (point_of point.now))) (λ x. out.new ≡ x) }
{
    if let Some(x) = point.x() {
        out.copy_from_slice(x.as_slice());
    }
}

/// Copies the x-coordinate into a slice of N bytes. The identity has none, and changes nothing.
pub fn copied<const N: usize, const L: usize>(point: &EncodedPoint<N, L>, out: &mut [u8])
    requires { length out.old ≡ N }
    ensures { IfSome (option_map (fixed_width N) (x_of (point_of point.now))) (λ x. out.new ≡ x) }
{
    if let Some(x) = point.x() {
        out.copy_from_slice(x.as_slice());
    }
}

/// Returns the number of bytes of the x-coordinate, which is N, if present.
pub fn x_len<const N: usize, const L: usize>(point: &EncodedPoint<N, L>) -> Option<usize>
    ensures { IfSome result (λ n. n ≡ N) }
{
    let x = point.x()?;
    Some(x.as_slice().len())
}

/// Returns the number of bytes of an x-coordinate of 256 bits, which is 32, if present.
pub fn x_len_32(point: &EncodedPoint32) -> Option<usize>
    ensures { IfSome result (λ n. n ≡ 32) }
{
    let x = point.x()?;
    Some(x.as_slice().len())
}

/// Returns the number of bytes of the y-coordinate, which is N, if present.
pub fn y_len<const N: usize, const L: usize>(point: &EncodedPoint<N, L>) -> Option<usize>
    ensures { IfSome result (λ n. n ≡ N) }
{
    let y = point.y()?;
    Some(y.as_slice().len())
}

/// Borrows the x-coordinate as a slice, which has N bytes, if present.
pub fn x_slice_bytes<const N: usize, const L: usize>(point: &EncodedPoint<N, L>) -> Option<&[u8]>
    ensures len { IfSome result (λ x. length x.now ≡ N) }
    ensures bytes { option_map (λ x. x.now) result
        ≡ option_map (fixed_width N) (x_of (point_of point.now)) }
{
    let x = point.x()?;
    Some(x.as_slice())
}

/// Borrows the coordinates of a point. Each array has N bytes.
pub fn parts_whole<const N: usize, const L: usize>(point: &EncodedPoint<N, L>) -> Coordinates<'_, N>
    ensures { All (λ array. length array ≡ N) (arrays_of result) }
{
    point.coordinates()
}

/// Returns the last byte of the y-coordinate, if the coordinates have one: its lowest bit is the
/// parity of y.
pub fn last_of_parts<const N: usize, const L: usize>(point: &EncodedPoint<N, L>) -> Option<u8> {
    match point.coordinates() {
        Coordinates::Uncompressed { y, .. } | Coordinates::Hybrid { y, .. } => {
            Some(y.as_slice()[N - 1])
        }
        _ => None,
    }
}

/// Returns the last byte of the y-coordinate, if present.
pub fn last_of_y<const N: usize, const L: usize>(point: &EncodedPoint<N, L>) -> Option<u8> {
    let y = point.y()?;
    Some(y.as_slice()[N - 1])
}

/// Returns the last byte of a y-coordinate of 256 bits, if present.
pub fn last_32(point: &EncodedPoint32) -> Option<u8> {
    let y = point.y()?;
    Some(y.as_slice()[31])
}
