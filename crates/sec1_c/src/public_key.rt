//! Public keys with their algorithms (RFC 5480 section 2): `sec1_public_key_read`.
ghost use Rattle.std.specs.Prelude.{◌≡◌, ◌≢◌, IsSome};
ghost use Rattle.curves.specs.Curves.{field_len};
ghost use Rattle.curves.specs.declared.curve.Curve.{Curve};
ghost use Rattle.der_types.specs.Contents.{bit_string_content};
ghost use Rattle.pkix.specs.EcKeys.{HasPoint, IsOnCurve};
ghost use Rattle.pkix.specs.Records.{public_key_fault};
ghost use Rattle.pkix.specs.declared.public_key.SubjectPublicKeyInfo.{SubjectPublicKeyInfo};
ghost use Rattle.sec1.specs.Points.{Point};
ghost use Rattle.sec1_der.specs.Elements.{element_of};
ghost use Rattle.sec1_der.specs.Faults.{element_fault, end_fault};
ghost use Rattle.sec1_c.specs.PublicKeys.{ArePublicKeyPartsOf, IsEcKey, IsEcKeyInfo, IsInfo};
ghost use Rattle.sec1_c.specs.PublicKeys.{key_field_len, public_key_places};
ghost use Rattle.sec1_c.specs.Statuses.{curve_number, error_number, kind_number};

mod fault;
mod write;

use crate::point::encoded::status_of;
use crate::span::Span;
use crate::status::{OK, curve_number, error_number, kind_number};
use curves::Curve;
use der_types::Bits;
use pkix::SubjectPublicKeyInfo;
use sec1::Error;
use sec1::der::{self, ErrorKind};

/// The places of a public key's parts in its bytes.
#[repr(C)]
#[derive(Clone, Copy)]
pub struct PublicKeyParts {
    /// The content of the curve's object identifier, 5 to 9 bytes.
    pub curve: Span,

    /// The encoding of the point.
    pub public_key: Span,
}

/// Reads an EC public key from its SubjectPublicKeyInfo, which is all of `bytes`, and stores the
/// places of its parts. The curve is one of the table.
///
/// # Errors
///
/// Returns the number of the first fault from left to right if the bytes aren't a
/// SubjectPublicKeyInfo; that of a curve that isn't in the table if its algorithm isn't
/// id-ecPublicKey with one that is; or that of PointEncoding if its key has unused bits, or isn't
/// the encoding of a point at the field length of the curve. `parts` is unchanged in each case.
#[unsafe(no_mangle)]
pub extern "C" fn sec1_public_key_read(bytes: &[u8], parts: &mut PublicKeyParts) -> u32
    ensures found { result ≡ 0 → IsEcKeyInfo bytes.now }
    ensures only { (info : SubjectPublicKeyInfo) (curve : Curve) (point : Point)
        → IsInfo info bytes.now → IsEcKey curve point info → result ≡ 0 }
    ensures parts { (info : SubjectPublicKeyInfo) (curve : Curve) (point : Point)
        → IsInfo info bytes.now → IsEcKey curve point info
        → ArePublicKeyPartsOf curve info bytes.now parts.new }
    ensures places { (info : SubjectPublicKeyInfo) (curve : Curve) (point : Point)
        → IsInfo info bytes.now → IsEcKey curve point info
        → parts.new ≡ public_key_places curve info bytes.now }
    ensures no_info { (kind : ErrorKind)
        → element_fault 0x30 public_key_fault end_fault bytes.now ≡ Some (Some kind)
        → result ≡ kind_number kind }
    ensures other_curve { (info : SubjectPublicKeyInfo) → IsInfo info bytes.now
        → ((curve : Curve) → ¬ IsOnCurve curve info.algorithm) → result ≡ curve_number }
    ensures no_point { (info : SubjectPublicKeyInfo) (curve : Curve) → IsInfo info bytes.now
        → IsOnCurve curve info.algorithm
        → ((point : Point) → ¬ HasPoint (field_len curve) info point)
        → result ≡ error_number Error.PointEncoding }
    ensures unchanged { result ≢ 0 → parts.new ≡ parts.old }
{
    let info = match SubjectPublicKeyInfo::from_der(bytes) {
        Ok(info) => info,
        Err(error) => return kind_number(error.kind),
    };
    let Some(curve) = info.algorithm.curve() else {
        return curve_number();
    };
    let Some(point) = info.public_key.as_bytes() else {
        return error_number(&Error::PointEncoding);
    };
    let status = status_of(point, curve.field_len());
    if status == OK {
        *parts = places(bytes, &info, curve, point);
    }
    status
}

/// Returns the places of the parts of the public key that was read from these bytes.
#[tactic(auto, using(crate::proofs::PublicKeyLemmas::places_fit))]
fn places(bytes: &[u8], info: &SubjectPublicKeyInfo, curve: Curve, point: &[u8]) -> PublicKeyParts
    requires info { IsInfo info.now bytes.now }
    requires curve { IsOnCurve curve info.now.algorithm }
    requires point { point.now ≡ info.now.public_key.bytes }
    ensures { result ≡ public_key_places curve info.now bytes.now }
{
    let field_start = bytes.len() - field_len_of(&info.public_key);
    PublicKeyParts {
        curve: Span::before(field_start, Some(curve.content().len())),
        public_key: Span::before(bytes.len(), Some(point.len())),
    }
}

/// Returns the length in bytes of the BIT STRING.
#[tactic(auto, using(crate::proofs::PublicKeyLemmas::bit_string_len))]
fn field_len_of(key: &Bits) -> usize
    requires { IsSome (element_of 0x03 (bit_string_content key.now)) }
    ensures { result ≡ key_field_len key.now.bytes }
{
    der::known_encoded_len(key)
}
