//! Named curves over prime fields (SEC 2, ANSI X9.62, RFC 5639): `sec1_curve_field_len`,
//! `sec1_curve_name` and `sec1_curve_from_name`.
ghost use Rattle.std.specs.Prelude.{◌≡◌};
ghost use Rattle.curves.specs.Curves as curves;
ghost use Rattle.curves.specs.Curves.{IsNameOf, curve_content, curve_name};
ghost use Rattle.curves.specs.declared.curve.Curve.{Curve};
ghost use Rattle.sec1_c.specs.CurveContents.{IsOfNoCurve, NamesNoCurve};
ghost use Rattle.sec1_c.specs.Outputs.{Writes, WritesNothing, ended};
ghost use Rattle.sec1_c.specs.Statuses.{curve_number};

use crate::buffer::{write_bytes, write_ended};
use crate::status::{OK, curve_number};
use curves::Curve;

/// Stores the length in bytes of a field element of the curve whose identifier has this content.
///
/// # Errors
///
/// Returns the number of a curve that isn't in the table, and leaves `field_len` unchanged.
#[unsafe(no_mangle)]
pub extern "C" fn sec1_curve_field_len(content: &[u8], field_len: &mut usize) -> u32
    ensures curve { (curve : Curve) → curve_content curve ≡ content.now
        → (result ≡ 0) × (field_len.new ≡ curves.field_len curve) }
    ensures no_curve { IsOfNoCurve content.now
        → (result ≡ curve_number) × (field_len.new ≡ field_len.old) }
{
    match Curve::from_content(content) {
        Some(curve) => {
            *field_len = curve.field_len();
            OK
        }
        None => curve_number(),
    }
}

/// Writes the name of the curve whose identifier has this content, followed by a byte 0, at the
/// beginning of `name`, and stores their length in bytes, at most 16. The name is that of SEC 2,
/// such as secp256r1, or if the curve isn't in SEC 2, that of ANSI X9.62 or RFC 5639. The rest of
/// `name` is unchanged.
///
/// # Errors
///
/// Returns the number of Buffer if `name` is too short, and stores the length; or that of a curve
/// that isn't in the table, and leaves `len` unchanged. `name` is unchanged in both cases.
#[unsafe(no_mangle)]
pub extern "C" fn sec1_curve_name(content: &[u8], name: &mut [u8], len: &mut usize) -> u32
    ensures curve { (curve : Curve) → curve_content curve ≡ content.now
        → Writes (ended (curve_name curve)) name.old name.new result len.new }
    ensures no_curve { IsOfNoCurve content.now
        → WritesNothing curve_number name.old name.new result len.old len.new }
{
    match Curve::from_content(content) {
        Some(curve) => write_ended(curve.name(), name, len),
        None => curve_number(),
    }
}

/// Writes the content of the identifier of the curve with this name, which is all of `name`, at the
/// beginning of `content`, and stores its length, at most 9. The names are those of SEC 2
/// (secp256r1), FIPS 186-4 (P-256), ANSI X9.62 (prime256v1) and RFC 5639; the case of letters
/// counts. The rest of `content` is unchanged.
///
/// # Errors
///
/// Returns the number of Buffer if `content` is too short, and stores the length; or that of a
/// curve that isn't in the table, and leaves `len` unchanged. `content` is unchanged in both cases.
#[unsafe(no_mangle)]
pub extern "C" fn sec1_curve_from_name(name: &[u8], content: &mut [u8], len: &mut usize) -> u32
    ensures curve { (curve : Curve) → IsNameOf name.now curve
        → Writes (curve_content curve) content.old content.new result len.new }
    ensures no_curve { NamesNoCurve name.now
        → WritesNothing curve_number content.old content.new result len.old len.new }
{
    let Ok(name) = str::from_utf8(name) else {
        return curve_number();
    };
    match Curve::from_name(name) {
        Some(curve) => write_bytes(curve.content(), content, len),
        None => curve_number(),
    }
}
