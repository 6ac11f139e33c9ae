//! Structures that are read and written again: keys, certificates, containers and signatures. A
//! line has the fields and whether they are written as they were read, or the kind of the error by
//! which the structure is refused.

use crate::fields::{
    certificate, ec_private_key, one_asymmetric_key, private_key_info, public_key_info, signature,
};
use crate::streams::error_name;
use crate::words::joined;
use pkix::{Certificate, EcdsaSigValue, OneAsymmetricKey, PrivateKeyInfo, SubjectPublicKeyInfo};
use sec1::EcPrivateKey;
use sec1_der::{EncodeValue, ErrorKind, Tagged, to_der};
use std::alloc::{AllocError, Global};

/// Returns `same` if the value is written as these bytes, otherwise `different`.
fn written<T: EncodeValue + Tagged>(alloc: Global, value: &T, bytes: &[u8]) -> &'static str {
    match to_der(alloc, value) {
        Ok(der) if der.as_slice() == bytes => "same",
        _ => "different",
    }
}

/// Returns `true` if the key is written into a slice as these bytes.
fn fills_slice(alloc: Global, key: &EcPrivateKey, bytes: &[u8]) -> bool {
    let Ok(mut room) = bytes.to_vec(alloc) else {
        return false;
    };
    room.fill(0xAA);
    key.encode_to_slice(&mut room) == Ok(bytes.len()) && room.as_slice() == bytes
}

/// Returns `same` if the key is written as these bytes, both into a slice and into a vector,
/// otherwise `different`.
fn written_key(alloc: Global, key: &EcPrivateKey, bytes: &[u8]) -> &'static str {
    match key.to_der(alloc) {
        Ok(der) if der.as_slice() == bytes && fills_slice(alloc, key, bytes) => "same",
        _ => "different",
    }
}

/// Returns the line for a structure with these fields.
fn line<T: EncodeValue + Tagged>(
    alloc: Global,
    fields: Result<String, AllocError>,
    value: &T,
    bytes: &[u8],
) -> Result<String, AllocError> {
    joined(
        alloc,
        " ",
        [fields, written(alloc, value, bytes).to_string(alloc)],
    )
}

/// Returns the line for a structure that is refused.
fn refused(alloc: Global, kind: ErrorKind) -> Result<String, AllocError> {
    format!(in alloc; "refused: {kind:?}")
}

/// Returns the line for an EC private key.
fn ec_private_key_line(alloc: Global, bytes: &[u8]) -> Result<String, AllocError> {
    match EcPrivateKey::try_from(bytes) {
        Ok(key) => {
            let written = written_key(alloc, &key, bytes).to_string(alloc);
            joined(alloc, " ", [ec_private_key(alloc, &key), written])
        }
        Err(error) => joined(
            alloc,
            " ",
            ["refused:".to_string(alloc), error_name(alloc, &error)],
        ),
    }
}

/// Returns the line for a certificate.
fn certificate_line(alloc: Global, bytes: &[u8]) -> Result<String, AllocError> {
    match Certificate::from_der(bytes) {
        Ok(value) => line(alloc, certificate(alloc, &value), &value, bytes),
        Err(e) => refused(alloc, e.kind),
    }
}

/// Returns the line for a public key.
fn public_key_line(alloc: Global, bytes: &[u8]) -> Result<String, AllocError> {
    match SubjectPublicKeyInfo::from_der(bytes) {
        Ok(value) => line(alloc, public_key_info(alloc, &value), &value, bytes),
        Err(e) => refused(alloc, e.kind),
    }
}

/// Returns the line for a container of a private key, of version 0 or 1.
fn private_key_line(alloc: Global, bytes: &[u8]) -> Result<String, AllocError> {
    match PrivateKeyInfo::from_der(bytes) {
        Ok(value) => line(alloc, private_key_info(alloc, &value), &value, bytes),
        // The version is the first value, and one of another version is refused as Value.
        Err(e) if e.kind == ErrorKind::Value => one_asymmetric_key_line(alloc, bytes),
        Err(e) => refused(alloc, e.kind),
    }
}

/// Returns the line for a container of version 1.
fn one_asymmetric_key_line(alloc: Global, bytes: &[u8]) -> Result<String, AllocError> {
    match OneAsymmetricKey::from_der(bytes) {
        Ok(value) => line(alloc, one_asymmetric_key(alloc, &value), &value, bytes),
        Err(e) => refused(alloc, e.kind),
    }
}

/// Returns the line for a signature.
fn signature_line(alloc: Global, bytes: &[u8]) -> Result<String, AllocError> {
    match EcdsaSigValue::from_der(bytes) {
        Ok(value) => line(alloc, signature(alloc, &value), &value, bytes),
        Err(e) => refused(alloc, e.kind),
    }
}

/// Returns the line for a structure with this name. `rest` has its digits.
pub fn answer(alloc: Global, name: &[u8], rest: &[u8]) -> Result<String, AllocError> {
    match hex::decode(alloc, rest) {
        Ok(bytes) => line_of(alloc, name, &bytes),
        Err(_) => "no such line".to_string(alloc),
    }
}

/// Returns the line for a structure with this name and these bytes.
fn line_of(alloc: Global, name: &[u8], bytes: &[u8]) -> Result<String, AllocError> {
    match name {
        b"ec-private-key" => ec_private_key_line(alloc, bytes),
        b"certificate" => certificate_line(alloc, bytes),
        b"public-key-info" => public_key_line(alloc, bytes),
        b"private-key-info" => private_key_line(alloc, bytes),
        b"signature" => signature_line(alloc, bytes),
        _ => "no such line".to_string(alloc),
    }
}
