//! The algorithm of EC keys on a named curve, as it is written (RFC 5480 section 2.1.1).
ghost use Rattle.std.specs.Prelude.{◌≡◌, ◌≤◌, List, ℕ, Some, IsSomeAnd, length, take};
ghost use Rattle.curves.specs.Curves.{curve_arcs};
ghost use Rattle.pkix.specs.EcKeys.{IsOnCurve, ec_public_key};
ghost use Rattle.sec1_der.specs.Elements.{element_of};
ghost use Rattle.sec1_der.specs.Identifiers.{identifier_content};

use curves::Curve;
use der_types::{Any, ObjectIdentifierRef};
use pkix::AlgorithmIdentifier;
use sec1::der;

/// The content of id-ecPublicKey (RFC 5480 section 2.1.1).
const EC_PUBLIC_KEY: [u8; 7] = [0x2A, 0x86, 0x48, 0xCE, 0x3D, 0x02, 0x01];

/// The greatest length of the element of a curve's identifier: a header of two bytes, and a content
/// of at most nine.
pub const MAX_CURVE_ELEMENT: usize = 11;

/// Writes the element of the curve's identifier at the beginning of `buffer`, and returns its
/// length.
#[tactic(auto, using(crate::proofs::AlgorithmLemmas::curve_elements))]
pub fn write_curve(curve: Curve, buffer: &mut [u8]) -> usize
    requires { length buffer.old ≡ MAX_CURVE_ELEMENT }
    ensures within { result ≤ length buffer.new }
    ensures element { element_of 0x06 (identifier_content (curve_arcs curve))
        ≡ Some (take result buffer.new) }
{
    match der::encode_to_slice(&curve.identifier(), buffer) {
        Ok(len) => len,
        Err(_) => unreachable!(),
    }
}

/// Returns the algorithm of EC keys on this curve, whose parameters are the element of its
/// identifier.
pub fn ec_algorithm(curve: Curve, element: &[u8]) -> AlgorithmIdentifier<'_>
    requires { element_of 0x06 (identifier_content (curve_arcs curve)) ≡ Some element.now }
    ensures { IsOnCurve curve result }
{
    AlgorithmIdentifier {
        algorithm: id_ec_public_key(),
        parameters: Some(curve_parameters(curve, element)),
    }
}

/// Returns id-ecPublicKey.
fn id_ec_public_key() -> ObjectIdentifierRef<'static>
    ensures { result ≡ ec_public_key }
{
    match ObjectIdentifierRef::new(&EC_PUBLIC_KEY) {
        Ok(identifier) => identifier,
        Err(_) => unreachable!(),
    }
}

/// Returns the element of the curve's identifier.
#[tactic(auto, using(crate::proofs::AlgorithmLemmas::curve_is_element))]
fn curve_parameters(curve: Curve, element: &[u8]) -> Any<'_>
    requires { element_of 0x06 (identifier_content (curve_arcs curve)) ≡ Some element.now }
    ensures { result ≡ element.now }
{
    match Any::new(element) {
        Ok(parameters) => parameters,
        Err(_) => unreachable!(),
    }
}
