//! How many digits the hexadecimal text of a point has.
ghost use Rattle.std.specs.Prelude.{◌≡◌, ◌*◌, IfErr, IfOk, length};
ghost use Rattle.sec1.specs.EncodedPoints.{point_of};
ghost use Rattle.sec1.specs.Points.{compressed_point, encoding};
ghost use Rattle.sec1.specs.declared.error.Error.TheVariants.{Memory};

use sec1::{EncodedPoint, Result};
use std::alloc::Global;

/// Returns the number of digits of a point's text, with the letters A to F.
///
/// # Errors
///
/// Memory if an allocation fails.
pub fn hex_len<const N: usize, const L: usize>(
    alloc: Global,
    point: &EncodedPoint<N, L>,
) -> Result<usize>
    ensures number { IfOk result (λ n. n ≡ 2 * length (encoding N (point_of point.now))) }
    ensures kind { IfErr result (λ e. e ≡ Memory) }
{
    let text = point.to_upper_hex(alloc)?;
    Ok(text.len())
}

/// Returns the number of bytes of the text of a point in compressed form, with the letters a to f.
///
/// # Errors
///
/// Memory if an allocation fails.
pub fn compressed_len<const N: usize, const L: usize>(
    alloc: Global,
    point: &EncodedPoint<N, L>,
) -> Result<usize>
    ensures number { IfOk result
        (λ n. n ≡ 2 * length (encoding N (compressed_point (point_of point.now)))) }
    ensures kind { IfErr result (λ e. e ≡ Memory) }
{
    let text = point.compress().to_lower_hex(alloc)?;
    Ok(text.as_str().len())
}
