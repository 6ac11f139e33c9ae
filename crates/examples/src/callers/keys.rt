//! Keys read and written, by the contracts and definitions of `sec1`, and keys in containers.
ghost use Rattle.std.specs.Prelude.{◌≡◌, ◌↔◌, ◌⊎◌, ◌≤◌, Some, Ok, None, List, ℕ, IfOk, IfErr};
ghost use Rattle.std.specs.Prelude.{IfNone, IsOkAnd, IsTrue, MatchResult, length};
ghost use Rattle.std.specs.Option.{option_map};
ghost use Rattle.examples.specs.KeyReading.{curve_key, IsPrivateKeyOf};
ghost use Rattle.pkix.specs.declared.private_key.PrivateKeyInfo.{PrivateKeyInfo};
ghost use Rattle.sec1.specs.Der.{IsReadingFault, element_of, identifier_content};
ghost use Rattle.sec1.specs.Errors.{IsAsn1Where};
ghost use Rattle.sec1.specs.HexTexts.{IsHexOf};
ghost use Rattle.sec1.specs.KeyFaults.{key_fault};
ghost use Rattle.sec1.specs.Keys.{Key, IsKeyOf};
ghost use Rattle.sec1.specs.Parameters.{curve_of};
ghost use Rattle.sec1.specs.Points.{IsPoint, Point, compressed_point, encoding};
ghost use Rattle.sec1.specs.declared.parameters.EcParameters.{EcParameters};

use pkix::PrivateKeyInfo;
use sec1::der::{ErrorKind, ObjectIdentifier, SecretDocument, read_der};
use sec1::point::EncodedPoint32;
use sec1::{EcParameters, EcPrivateKey, Error, Result, der};
use serde_json::Value;
use std::alloc::Global;
use std::str::FromStr;

/// Returns the DER encoding of a key on a named curve, without its public key.
pub fn key_on(alloc: Global, curve: ObjectIdentifier, private_key: &[u8]) -> Result<Vec<u8>>
    ensures found { IfOk result (λ der. IsKeyOf (curve_key curve private_key.now) der.items) }
    ensures only { (bytes : List ℕ) → IsKeyOf (curve_key curve private_key.now) bytes
        → MatchResult result (λ der. der.items ≡ bytes) (λ e. e ≡ Error.Memory) }
{
    let key = EcPrivateKey {
        private_key,
        parameters: Some(EcParameters::NamedCurve(curve)),
        public_key: None,
    };
    key.to_der(alloc)
}

/// Writes a key at the beginning of a buffer and returns its bytes.
pub fn key_in<'b>(key: &EcPrivateKey, buffer: &'b mut [u8]) -> Result<&'b [u8]>
    ensures found { IfOk result (λ bytes. IsKeyOf key.now bytes.now) }
    ensures only { (bytes : List ℕ) → IsKeyOf key.now bytes → length bytes ≤ length buffer.old
        → IsOkAnd result (λ written. written.now ≡ bytes) }
{
    let n = key.encode_to_slice(buffer)?;
    Ok(&buffer[..n])
}

/// Reads a key and encodes it again as a document with the same bytes.
pub fn document_again(alloc: Global, bytes: &[u8]) -> Result<SecretDocument>
    ensures same { IfOk result (λ document. document ≡ bytes.now) }
    ensures kinds { IfErr result (λ e. IsAsn1Where IsReadingFault e ⊎ (e ≡ Error.Memory)) }
    ensures key { (key : Key) → IsKeyOf key bytes.now
        → MatchResult result (λ document. document ≡ bytes.now) (λ e. e ≡ Error.Memory) }
{
    let key = EcPrivateKey::try_from(bytes)?;
    key.document(alloc)
}

/// Reads the name of a curve from its whole DER encoding. That of each one is read as this curve.
///
/// # Errors
///
/// Those of [`read_der`].
pub fn read_curve(bytes: &[u8]) -> der::Result<EcParameters>
    ensures found { IfOk result
        (λ curve. element_of 0x06 (identifier_content (curve_of curve)) ≡ Some bytes.now) }
    ensures only { (curve : EcParameters)
        → element_of 0x06 (identifier_content (curve_of curve)) ≡ Some bytes.now
        → result ≡ Ok curve }
{
    read_der(bytes)
}

/// Returns `true` if a point, compressed, is the one of a text in hexadecimal; and the compressed
/// point as JSON.
pub fn compressed(alloc: Global, bytes: &[u8], text: &str) -> Result<(bool, Value)>
    ensures { (p q : Point) → IsPoint 32 p → IsPoint 32 q → bytes.now ≡ encoding 32 p
        → IsHexOf text.now (encoding 32 q)
        → MatchResult result (λ x. IsTrue x.0 ↔ (compressed_point p ≡ q)) (λ e. e ≡ Error.Memory) }
{
    let point = EncodedPoint32::from_bytes(bytes)?.compress();
    let other = EncodedPoint32::from_str(text)?;
    Ok((point == other, point.to_json(alloc)?))
}

/// Returns the reason why the bytes aren't a key's, or `None` if they are.
pub fn refusal(bytes: &[u8]) -> Option<ErrorKind>
    ensures found { IfNone result ((key : Key) × IsKeyOf key bytes.now) }
    ensures only { (key : Key) → IsKeyOf key bytes.now → result ≡ None }
    ensures kind { option_map (λ kind. Some kind) result ≡ key_fault bytes.now }
{
    match EcPrivateKey::try_from(bytes) {
        Ok(_) => None,
        Err(Error::Asn1(e)) => Some(e.kind),
        Err(_) => unreachable!(),
    }
}

/// Returns the key in a private key container of PKCS #8 (RFC 5208 section 5), whatever its
/// algorithm is.
///
/// # Errors
///
/// Asn1 if the bytes aren't a container, or those in it no EC private key (RFC 5915 section 3).
pub fn contained_key(bytes: &[u8]) -> Result<EcPrivateKey<'_>>
    ensures found { IfOk result (λ key. (info : PrivateKeyInfo) × IsPrivateKeyOf info bytes.now
        × IsKeyOf key info.private_key) }
    ensures only { (info : PrivateKeyInfo) (key : Key) → IsPrivateKeyOf info bytes.now
        → IsKeyOf key info.private_key → result ≡ Ok key }
{
    let container = PrivateKeyInfo::from_der(bytes)?;
    EcPrivateKey::try_from(container.private_key.bytes)
}
