//! Certificates and containers of keys, by the records of `pkix`.
ghost use Rattle.std.specs.Prelude.{◌≡◌, ◌≢◌, ◌⊎◌, Err, Some, IfOk, IfErr, IsErrAnd, IsOkAnd};
ghost use Rattle.curves.specs.Curves.{field_len};
ghost use Rattle.pkix.specs.EcKeys.{HasPoint, IsOnCurve};
ghost use Rattle.pkix.specs.Records.{certificate_content, certificate_fault};
ghost use Rattle.pkix.specs.declared.certificate.Certificate.{Certificate};
ghost use Rattle.curves.specs.declared.curve.Curve.{Curve};
ghost use Rattle.sec1.specs.EncodedPoints.{point_of};
ghost use Rattle.sec1.specs.Errors.{IsAsn1};
ghost use Rattle.sec1.specs.Points.{Point};
ghost use Rattle.sec1.specs.Der.{element_fault, element_of, end_fault};

use pkix::Certificate;
use sec1::der::ErrorKind;
use sec1::point::EncodedPoint32;
use sec1::{Error, Result};

/// Returns the public key of a certificate on a curve whose field has 32 bytes, such as P-256.
///
/// # Errors
///
/// Asn1 if the bytes aren't a certificate; Crypto if its key is on no such curve; PointEncoding if
/// the key isn't the encoding of a point.
pub fn public_point(bytes: &[u8]) -> Result<EncodedPoint32>
    ensures found { IfOk result (λ point. (certificate : Certificate)
        × (element_of 0x30 (certificate_content certificate) ≡ Some bytes.now)
        × ((curve : Curve) × IsOnCurve curve certificate.tbs_certificate.public_key.algorithm
        × (field_len curve ≡ 32))
        × HasPoint 32 certificate.tbs_certificate.public_key (point_of point)) }
    ensures only { (certificate : Certificate) (curve : Curve) (point : Point)
        → element_of 0x30 (certificate_content certificate) ≡ Some bytes.now
        → IsOnCurve curve certificate.tbs_certificate.public_key.algorithm
        → field_len curve ≡ 32
        → HasPoint 32 certificate.tbs_certificate.public_key point
        → IsOkAnd result (λ found. point_of found ≡ point) }
    ensures no_certificate { (kind : ErrorKind)
        → element_fault 0x30 certificate_fault end_fault bytes.now ≡ Some (Some kind)
        → IsErrAnd result (IsAsn1 kind) }
    ensures other_curve { (certificate : Certificate)
        → element_of 0x30 (certificate_content certificate) ≡ Some bytes.now
        → ((curve : Curve) → IsOnCurve curve certificate.tbs_certificate.public_key.algorithm
        → field_len curve ≢ 32) → result ≡ Err Error.Crypto }
    ensures no_point { (certificate : Certificate) (curve : Curve)
        → element_of 0x30 (certificate_content certificate) ≡ Some bytes.now
        → IsOnCurve curve certificate.tbs_certificate.public_key.algorithm
        → field_len curve ≡ 32
        → ((point : Point) → ¬ HasPoint 32 certificate.tbs_certificate.public_key point)
        → result ≡ Err Error.PointEncoding }
    ensures kinds { (certificate : Certificate)
        → element_of 0x30 (certificate_content certificate) ≡ Some bytes.now
        → IfErr result (λ e. (e ≡ Error.Crypto) ⊎ (e ≡ Error.PointEncoding)) }
{
    let certificate = Certificate::from_der(bytes)?;
    certificate.tbs_certificate.public_key.point()
}
