//! The examples in the comments of calls, each the body of a function here.
use curves::Curve;
use sec1::point::{Coordinates, EncodedPoint32};
use sec1::{EcPrivateKey, Result, der};
use sec1_der::{AnyRef, OctetStringRef, SecretDocument, check_tree, encode_to_slice};
use std::alloc::Global;
use std::rt::Files;
use std::str::FromStr;

/// Returns `true` if a key has its public key.
pub fn read_key(bytes: &[u8]) -> Result<bool> {
    let key = EcPrivateKey::try_from(bytes)?;
    Ok(key.public_key.is_some())
}

/// Returns the point of a key on a field of 256 bits in its compressed form, if the key has it.
pub fn compress_public_key(bytes: &[u8]) -> Result<Option<EncodedPoint32>> {
    let key = EcPrivateKey::try_from(bytes)?;
    let Some(public_key) = key.public_key else {
        return Ok(None);
    };
    let point = EncodedPoint32::from_bytes(public_key)?;
    Ok(Some(point.compress()))
}

/// Writes a private key at the beginning of a buffer and returns the bytes.
pub fn write_key<'b>(private_key: &[u8], buffer: &'b mut [u8]) -> Result<&'b [u8]> {
    let key = EcPrivateKey {
        private_key,
        parameters: None,
        public_key: None,
    };
    let n = key.encode_to_slice(buffer)?;
    Ok(&buffer[..n])
}

/// Returns the encoding of a key.
pub fn write_key_into_vector(alloc: Global, key: &EcPrivateKey) -> Result<Vec<u8>> {
    let bytes = key.to_der(alloc)?;
    Ok(bytes)
}

/// Returns the compressed form of a point with coordinates of 32 bytes.
pub fn read_point(bytes: &[u8]) -> Result<EncodedPoint32> {
    let point = EncodedPoint32::from_bytes(bytes)?;
    Ok(point.compress())
}

/// Returns y, if the point has it.
pub fn find_y(point: &EncodedPoint32) -> Option<&[u8; 32]> {
    match point.coordinates() {
        Coordinates::Uncompressed { y, .. } | Coordinates::Hybrid { y, .. } => Some(y),
        _ => None,
    }
}

/// Reads a point from hexadecimal.
pub fn parse_point(text: &str) -> Result<EncodedPoint32> {
    let point = EncodedPoint32::from_str(text)?;
    Ok(point)
}

/// Returns the identifier of the curve P-256.
pub fn parse_identifier() -> der::Result<der::ObjectIdentifier> {
    let identifier = der::ObjectIdentifier::new("1.2.840.10045.3.1.7")?;
    Ok(identifier)
}

/// Writes an OCTET STRING at the beginning of a buffer and returns the number of bytes written.
pub fn write_octets(bytes: &[u8], buffer: &mut [u8]) -> der::Result<usize> {
    let octets = OctetStringRef::new(bytes)?;
    encode_to_slice(&octets, buffer)
}

/// Returns the bytes after the element that the bytes begin with.
pub fn skip_element(bytes: &[u8]) -> der::Result<&[u8]> {
    let (first, rest) = AnyRef::split(bytes)?;
    let _content = first.value();
    Ok(rest)
}

/// Returns the number of elements of a tree.
pub fn count_elements(bytes: &[u8]) -> der::Result<usize> {
    let elements = check_tree(bytes)?;
    Ok(elements)
}

/// Returns the number of bytes of the one element in a file.
pub fn measure_file<F: Files>(rt: &F, alloc: Global, path: &str) -> der::Result<usize> {
    let document = SecretDocument::read_der_file(rt, alloc, path)?;
    Ok(document.len())
}

/// Returns the number of bytes of a coordinate on the curve with this name.
pub fn find_field_len(name: &str) -> Option<usize> {
    let curve = Curve::from_name(name)?;
    Some(curve.field_len())
}
