//! Keys read from containers, exactly: what is read is in the bytes, and what is in the bytes is
//! read.
ghost use Rattle.std.specs.Prelude.{◌≡◌, Ok, Err, Some, IfOk, IsOkAnd, IsErrAnd};
ghost use Rattle.curves.specs.declared.curve.Curve.{Curve};
ghost use Rattle.examples.specs.KeyReading.{IsPrivateKeyOf, IsPublicKeyOf};
ghost use Rattle.pkix.specs.EcKeys.{HasPoint, IsOnCurve, NamesCurve};
ghost use Rattle.pkix.specs.declared.private_key.PrivateKeyInfo.{PrivateKeyInfo};
ghost use Rattle.pkix.specs.declared.public_key.SubjectPublicKeyInfo.{SubjectPublicKeyInfo};
ghost use Rattle.sec1.specs.Der.{IsReadingFault};
ghost use Rattle.sec1.specs.EncodedPoints.{point_of};
ghost use Rattle.sec1.specs.Errors.{IsAsn1, IsAsn1Where};
ghost use Rattle.sec1.specs.KeyFaults.{key_fault};
ghost use Rattle.sec1.specs.Keys.{Key, IsKeyOf};
ghost use Rattle.sec1.specs.Points.{Point};

use pkix::{Curve, PrivateKeyInfo, SubjectPublicKeyInfo};
use sec1::der::ErrorKind;
use sec1::point::EncodedPoint32;
use sec1::{EcPrivateKey, Error, Result};

/// Returns the public key of a certificate, from the bytes of its SubjectPublicKeyInfo (RFC 5280
/// section 4.1): a point for id-ecPublicKey on the curve P-256, in any form of encoding that
/// [`EncodedPoint32::from_bytes`] reads. It isn't tested that the point lies on the curve.
///
/// # Errors
///
/// Asn1 if the bytes aren't a SubjectPublicKeyInfo; Crypto if the algorithm or the curve is another
/// one; PointEncoding if the bits of the public key aren't the encoding of a point.
pub fn read_public_key(bytes: &[u8]) -> Result<EncodedPoint32>
    // What is read is the public key in these bytes, and the public key in these bytes is read.
    ensures found { IfOk result (λ point. (info : SubjectPublicKeyInfo)
        × IsPublicKeyOf info bytes.now × IsOnCurve Curve.Secp256r1 info.algorithm
        × HasPoint 32 info (point_of point)) }
    ensures only { (info : SubjectPublicKeyInfo) (point : Point) → IsPublicKeyOf info bytes.now
        → IsOnCurve Curve.Secp256r1 info.algorithm → HasPoint 32 info point
        → IsOkAnd result (λ found. point_of found ≡ point) }
    ensures no_info { ((info : SubjectPublicKeyInfo) → ¬ IsPublicKeyOf info bytes.now)
        → IsErrAnd result (IsAsn1Where IsReadingFault) }
    ensures other_curve { (info : SubjectPublicKeyInfo) → IsPublicKeyOf info bytes.now
        → ¬ IsOnCurve Curve.Secp256r1 info.algorithm → result ≡ Err Error.Crypto }
    ensures no_point { (info : SubjectPublicKeyInfo) → IsPublicKeyOf info bytes.now
        → IsOnCurve Curve.Secp256r1 info.algorithm → ((point : Point) → ¬ HasPoint 32 info point)
        → result ≡ Err Error.PointEncoding }
{
    let info = SubjectPublicKeyInfo::from_der(bytes)?;
    let Some(Curve::Secp256r1) = info.algorithm.curve() else {
        return Err(Error::Crypto);
    };
    let Some(public_key) = info.public_key.as_bytes() else {
        return Err(Error::PointEncoding);
    };
    EncodedPoint32::from_bytes(public_key)
}

/// Returns the private key in a container of PKCS #8 (RFC 5208 section 5) whose algorithm is
/// id-ecPublicKey with a named curve.
///
/// # Errors
///
/// Asn1 if the bytes aren't such a container, or contain no EC private key (RFC 5915 section 3);
/// Crypto if the algorithm is another one, or the key names another curve.
pub fn read_private_key(bytes: &[u8]) -> Result<EcPrivateKey<'_>>
    // What is read is the private key in these bytes, and the private key in these bytes is read.
    ensures found { IfOk result (λ key. (info : PrivateKeyInfo) × IsPrivateKeyOf info bytes.now
        × IsKeyOf key info.private_key
        × (curve : Curve) × IsOnCurve curve info.algorithm × NamesCurve curve key) }
    ensures only { (info : PrivateKeyInfo) (curve : Curve) (key : Key)
        → IsPrivateKeyOf info bytes.now → IsOnCurve curve info.algorithm
        → IsKeyOf key info.private_key → NamesCurve curve key → result ≡ Ok key }
    ensures no_info { ((info : PrivateKeyInfo) → ¬ IsPrivateKeyOf info bytes.now)
        → IsErrAnd result (IsAsn1Where IsReadingFault) }
    ensures other_algorithm { (info : PrivateKeyInfo) → IsPrivateKeyOf info bytes.now
        → ((curve : Curve) → ¬ IsOnCurve curve info.algorithm) → result ≡ Err Error.Crypto }
    ensures no_key { (info : PrivateKeyInfo) (curve : Curve) (kind : ErrorKind)
        → IsPrivateKeyOf info bytes.now → IsOnCurve curve info.algorithm
        → key_fault info.private_key ≡ Some (Some kind) → IsErrAnd result (IsAsn1 kind) }
    ensures other_curve { (info : PrivateKeyInfo) (curve : Curve) (key : Key)
        → IsPrivateKeyOf info bytes.now → IsOnCurve curve info.algorithm
        → IsKeyOf key info.private_key → ¬ NamesCurve curve key → result ≡ Err Error.Crypto }
{
    let info = PrivateKeyInfo::from_der(bytes)?;
    info.ec_private_key()
}
