//! Public keys with their algorithms, written (RFC 5480 section 2): `sec1_public_key_write`.
ghost use Rattle.std.specs.Prelude.{◌≡◌, ◌≤◌, Some, length};
ghost use Rattle.curves.specs.Curves.{curve_arcs, curve_content, field_len};
ghost use Rattle.curves.specs.declared.curve.Curve.{Curve};
ghost use Rattle.sec1.specs.Keys.{Exists};
ghost use Rattle.sec1.specs.Points.{Point};
ghost use Rattle.sec1_der.specs.Elements.{element_of};
ghost use Rattle.sec1_der.specs.Identifiers.{identifier_content};
ghost use Rattle.sec1_c.specs.CurveContents.{IsOfNoCurve};
ghost use Rattle.sec1_c.specs.FieldLengths.{Encodes};
ghost use Rattle.sec1_c.specs.Outputs.{Writes, WritesNothing};
ghost use Rattle.sec1_c.specs.Statuses.{curve_number, error_number};
ghost use Rattle.sec1_c.specs.WrittenKeys.{IsInfoOf};

use crate::algorithm::{MAX_CURVE_ELEMENT, ec_algorithm, write_curve};
use crate::encoding::write_value;
use crate::point::encoded::status_of;
use crate::status::{OK, curve_number};
use curves::Curve;
use der_types::Bits;
use pkix::SubjectPublicKeyInfo;
use sec1::Error;

/// Writes the SubjectPublicKeyInfo of an EC public key at the beginning of `out`, and stores its
/// length, at most 158. `curve` is the content of the curve's object identifier, and `public_key`
/// the encoding of a point at the field length of the curve. The rest of `out` is unchanged.
///
/// # Errors
///
/// Returns the number of Buffer if `out` is too short, and stores the length. Otherwise returns
/// that of a curve that isn't in the table, or of PointEncoding if the key isn't the encoding of a
/// point at its field length, and leaves `len` unchanged. `out` is unchanged in each case.
#[unsafe(no_mangle)]
pub extern "C" fn sec1_public_key_write(
    curve: &[u8],
    public_key: &[u8],
    out: &mut [u8],
    len: &mut usize,
) -> u32
    ensures info { (named : Curve) (point : Point) → curve_content named ≡ curve.now
        → Encodes (field_len named) point public_key.now
        → Exists (IsInfoOf named public_key.now)
        (λ bytes. Writes bytes out.old out.new result len.new) }
    ensures no_curve { IsOfNoCurve curve.now
        → WritesNothing curve_number out.old out.new result len.old len.new }
    ensures no_point { (named : Curve) → curve_content named ≡ curve.now
        → ((point : Point) → ¬ Encodes (field_len named) point public_key.now)
        → WritesNothing (error_number Error.PointEncoding) out.old out.new result
        len.old len.new }
{
    let Some(curve) = Curve::from_content(curve) else {
        return curve_number();
    };
    let status = status_of(public_key, curve.field_len());
    if status != OK {
        return status;
    }
    let mut buffer = [0; MAX_CURVE_ELEMENT];
    let element_len = write_curve(curve, &mut buffer);
    write_info(curve, &buffer[..element_len], public_key, out, len)
}

/// Writes the SubjectPublicKeyInfo of a public key of at most 133 bytes on a curve, whose
/// identifier has this element, and stores its length. Returns the number of Buffer if `out` is too
/// short, which is unchanged then.
fn write_info(
    curve: Curve,
    element: &[u8],
    public_key: &[u8],
    out: &mut [u8],
    len: &mut usize,
) -> u32
    requires element { element_of 0x06 (identifier_content (curve_arcs curve)) ≡ Some element.now }
    requires few { length public_key.now ≤ 133 }
    ensures { Exists (IsInfoOf curve public_key.now)
        (λ bytes. Writes bytes out.old out.new result len.new) }
{
    let info = SubjectPublicKeyInfo {
        algorithm: ec_algorithm(curve, element),
        public_key: whole_bits(public_key),
    };
    write_value(&info, out, len)
}

/// Returns the bit string of these bytes, without unused bits.
fn whole_bits(bytes: &[u8]) -> Bits<'_>
    requires { length bytes.now ≤ 133 }
    ensures { result ≡ record { unused = 0; bytes = bytes.now } }
{
    match Bits::new(0, bytes) {
        Ok(bits) => bits,
        Err(_) => unreachable!(),
    }
}
