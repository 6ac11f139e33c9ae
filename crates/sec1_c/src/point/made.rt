//! Points from their coordinates (SEC1 v2.0 section 2.3.3): `sec1_point_from_coordinates` and
//! `sec1_point_identity`.
ghost use Rattle.std.specs.Prelude.{ℕ, length};
ghost use Rattle.sec1_der.specs.Elements.{number_of};
ghost use Rattle.sec1.specs.Points.{encoding, identity};
ghost use Rattle.sec1_c.specs.Outputs.{Writes, WritesNothing};
ghost use Rattle.sec1_c.specs.PointForms.{AreCoordinates, affine_point};
ghost use Rattle.sec1_c.specs.Statuses.{field_length_number};

use super::encoded::parity;
use crate::buffer::{write_bytes, write_coordinates, write_tagged};
use crate::status::field_length_number;

/// Writes the uncompressed point with these coordinates at the beginning of `out`, or its
/// compressed form if `compress` isn't 0, and stores its length. The coordinates are field
/// elements, the most significant byte first. The rest of `out` is unchanged.
///
/// # Errors
///
/// Returns the number of Buffer if `out` is too short, and stores the length; or that of a field
/// length that isn't supported if `x` has no bytes or more than 66, or if `y` is not as long as
/// `x`, and leaves `len` unchanged. `out` is unchanged in both cases.
#[unsafe(no_mangle)]
#[tactic(auto, using(crate::proofs::PointLemmas::made_forms))]
pub extern "C" fn sec1_point_from_coordinates(
    x: &[u8],
    y: &[u8],
    compress: usize,
    out: &mut [u8],
    len: &mut usize,
) -> u32
    ensures point { AreCoordinates x.now y.now
        → Writes
        (encoding (length x.now) (affine_point compress (number_of x.now) (number_of y.now)))
        out.old out.new result len.new }
    ensures other_field { ¬ AreCoordinates x.now y.now
        → WritesNothing field_length_number out.old out.new result len.old len.new }
{
    if x.is_empty() || x.len() > 66 || y.len() != x.len() {
        return field_length_number();
    }
    if compress != 0 {
        return write_tagged(2 + parity(y), x, out, len);
    }
    write_coordinates(4, x, y, out, len)
}

/// Writes the identity, the point at infinity, at the beginning of `out`, and stores its length,
/// which is 1. It has the same encoding at each field length. The rest of `out` is unchanged.
///
/// # Errors
///
/// Returns the number of Buffer if `out` is empty, and stores the length.
#[unsafe(no_mangle)]
#[tactic(auto, unfolding(sec1::specs::Points::encoding))]
pub extern "C" fn sec1_point_identity(out: &mut [u8], len: &mut usize) -> u32
    ensures point { (n : ℕ) → Writes (encoding n identity) out.old out.new result len.new }
{
    write_bytes(&[0], out, len)
}
