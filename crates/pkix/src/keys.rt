//! The keys on named curves in containers and certificates.
ghost use Rattle.std.specs.Prelude.{◌≡◌, ◌≢◌, ◌↔◌, ◌⊎◌, true, Ok, Err, Some, IsOkAnd};
ghost use Rattle.std.specs.Prelude.{IfOk, IfErr, IfSome, IsErrAnd};
ghost use Rattle.sec1.specs.EncodedPoints.{point_of};
ghost use Rattle.sec1.specs.Errors.{IsAsn1, IsAsn1Where};
ghost use Rattle.sec1.specs.KeyFaults.{key_fault};
ghost use Rattle.sec1.specs.Keys.{Key, IsKeyOf};
ghost use Rattle.sec1.specs.Points.{Fits, Point};
ghost use Rattle.sec1_der.specs.declared.error.ErrorKind.{ErrorKind};
ghost use Rattle.sec1_der.specs.Elements.{element_of};
ghost use Rattle.sec1_der.specs.Errors.{IsReadingFault};
ghost use Rattle.sec1_der.specs.Identifiers.{identifier_content};
ghost use Rattle.curves.specs.Curves.{curve_arcs, field_len};
ghost use Rattle.pkix.specs.EcKeys.{IsOnCurve, NamesCurve, HasPoint};

use crate::{AlgorithmIdentifier, Curve, PrivateKeyInfo, SubjectPublicKeyInfo};
use der_types::Any;
use sec1::point::EncodedPoint;
use sec1::{EcParameters, EcPrivateKey, Error, Result};
use sec1_der::Tag;

/// The content of id-ecPublicKey (RFC 5480 section 2.1.1).
const EC_PUBLIC_KEY: [u8; 7] = [0x2A, 0x86, 0x48, 0xCE, 0x3D, 0x02, 0x01];

impl AlgorithmIdentifier<'_> {
    /// Returns the curve, if the algorithm is id-ecPublicKey and its parameters name a curve of the
    /// table (RFC 5480 section 2.1.1).
    pub fn curve(&self) -> Option<Curve>
        ensures found { IfSome result (λ curve. IsOnCurve curve self.now) }
        ensures only { (curve : Curve) → IsOnCurve curve self.now → result ≡ Some curve }
    {
        if self.algorithm.as_bytes() != EC_PUBLIC_KEY.as_slice() {
            return None;
        }
        match &self.parameters {
            Some(parameters) => named_curve(parameters),
            None => None,
        }
    }
}

/// Returns the curve of the table whose identifier this element is. Its content is compared where
/// it stands, and isn't copied.
#[tactic(auto, using(crate::proofs::CurveLemmas::curve_elements))]
fn named_curve(element: &Any) -> Option<Curve>
    ensures found { IfSome result (λ curve.
        element_of 0x06 (identifier_content (curve_arcs curve)) ≡ Some element.now) }
    ensures only { (curve : Curve)
        → element_of 0x06 (identifier_content (curve_arcs curve)) ≡ Some element.now
        → result ≡ Some curve }
{
    if element.tag() != Tag::OBJECT_IDENTIFIER {
        return None;
    }
    Curve::from_content(element.content())
}

/// Returns `true` if the key names this curve or none.
fn agrees(key: &EcPrivateKey, curve: Curve) -> bool
    ensures { result ≡ true ↔ NamesCurve curve key.now }
{
    match &key.parameters {
        Some(EcParameters::NamedCurve(named)) => match Curve::from_identifier(named) {
            Some(named) => named == curve,
            None => false,
        },
        None => true,
    }
}

impl<'a> PrivateKeyInfo<'a> {
    /// Returns the EC private key in the container. Its curve is that of the container's algorithm,
    /// if it names one (RFC 5958 section 2, RFC 5915 section 3).
    ///
    /// # Errors
    ///
    /// [`Error::Crypto`] if the algorithm isn't id-ecPublicKey with a curve of the table; then
    /// [`Error::Asn1`] as [`EcPrivateKey::try_from`] returns it, if the bytes aren't an EC private
    /// key; then [`Error::Crypto`] if the key names another curve.
    pub fn ec_private_key(&self) -> Result<EcPrivateKey<'a>>
        ensures found { IfOk result (λ key. IsKeyOf key self.now.private_key
            × (curve : Curve) × IsOnCurve curve self.now.algorithm × NamesCurve curve key) }
        ensures only { (curve : Curve) (key : Key) → IsOnCurve curve self.now.algorithm
            → IsKeyOf key self.now.private_key → NamesCurve curve key → result ≡ Ok key }
        ensures other_algorithm { ((curve : Curve) → ¬ IsOnCurve curve self.now.algorithm)
            → result ≡ Err Error.Crypto }
        ensures no_key { (curve : Curve) (kind : ErrorKind) → IsOnCurve curve self.now.algorithm
            → key_fault self.now.private_key ≡ Some (Some kind) → IsErrAnd result (IsAsn1 kind) }
        ensures other_curve { (curve : Curve) (key : Key) → IsOnCurve curve self.now.algorithm
            → IsKeyOf key self.now.private_key → ¬ NamesCurve curve key
            → result ≡ Err Error.Crypto }
        ensures kinds { IfErr result
            (λ e. (e ≡ Error.Crypto) ⊎ IsAsn1Where IsReadingFault e) }
    {
        let curve = self.algorithm.curve().ok_or(Error::Crypto)?;
        let key = EcPrivateKey::try_from(self.private_key.bytes)?;
        if !agrees(&key, curve) {
            return Err(Error::Crypto);
        }
        Ok(key)
    }
}

impl SubjectPublicKeyInfo<'_> {
    /// Returns the point of an EC public key on a curve of the table whose field has N bytes (RFC
    /// 5480 section 2.2).
    ///
    /// # Errors
    ///
    /// [`Error::Crypto`] if the algorithm isn't id-ecPublicKey with such a curve; then
    /// [`Error::PointEncoding`] if the key has unused bits or isn't the encoding of a point, or if
    /// N and L don't [fit](EncodedPoint::fits).
    pub fn point<const N: usize, const L: usize>(&self) -> Result<EncodedPoint<N, L>>
        ensures found { IfOk result (λ point. ((curve : Curve) × IsOnCurve curve self.now.algorithm
            × (field_len curve ≡ N)) × HasPoint N self.now (point_of point)) }
        ensures only { (curve : Curve) (point : Point) → IsOnCurve curve self.now.algorithm
            → field_len curve ≡ N → Fits N L → HasPoint N self.now point
            → IsOkAnd result (λ found. point_of found ≡ point) }
        ensures other_curve { ((curve : Curve) → IsOnCurve curve self.now.algorithm
            → field_len curve ≢ N) → result ≡ Err Error.Crypto }
        ensures no_point { (curve : Curve) → IsOnCurve curve self.now.algorithm
            → field_len curve ≡ N → ((point : Point) → ¬ HasPoint N self.now point)
            → result ≡ Err Error.PointEncoding }
        ensures no_fit { (curve : Curve) → IsOnCurve curve self.now.algorithm
            → field_len curve ≡ N → ¬ Fits N L → result ≡ Err Error.PointEncoding }
        ensures kinds { IfErr result (λ e. (e ≡ Error.Crypto) ⊎ (e ≡ Error.PointEncoding)) }
    {
        match self.algorithm.curve() {
            Some(curve) if curve.field_len() == N => {}
            _ => return Err(Error::Crypto),
        }
        match self.public_key.as_bytes() {
            Some(bytes) => EncodedPoint::from_bytes(bytes),
            None => Err(Error::PointEncoding),
        }
    }
}
