//! Keys: reading, refusing, writing, both, and documents.
use crate::length_and_last;
use sec1::der::{ErrorKind, ID_EC_PUBLIC_KEY, SecretDocument};
use sec1::point::EncodedPoint32;
use sec1::{EcParameters, EcPrivateKey, Error};
use std::alloc::Global;

/// Reads a key. Returns the lengths of its parts and their last bytes, added up, or the number of
/// the refusal.
#[unsafe(no_mangle)]
pub extern "C" fn bench_key_read(input: &[u8]) -> usize {
    match EcPrivateKey::try_from(input) {
        Ok(key) => parts_sum(&key),
        Err(error) => refusal(&error),
    }
}

/// Reads a key and its point. Returns the length of the point and its last byte, added up.
#[unsafe(no_mangle)]
pub extern "C" fn bench_key_point(input: &[u8]) -> usize {
    match EcPrivateKey::try_from(input) {
        Ok(key) => point_sum(&key),
        Err(_) => 0,
    }
}

/// The length of the key's point and its last byte, added up.
pub fn point_sum(key: &EcPrivateKey) -> usize {
    match key.public_key {
        Some(bytes) => match EncodedPoint32::from_bytes(bytes) {
            Ok(point) => length_and_last(point.as_bytes()),
            Err(_) => 0,
        },
        None => 0,
    }
}

/// The number of a refusal.
fn refusal(error: &Error) -> usize {
    match error {
        Error::Asn1(cause) => match cause.kind {
            ErrorKind::Truncated => 1,
            ErrorKind::Tag => 2,
            ErrorKind::Length => 3,
            ErrorKind::TrailingData => 4,
            ErrorKind::Value => 5,
            _ => 6,
        },
        _ => 7,
    }
}

/// The lengths of the key's parts and their last bytes, added up.
fn parts_sum(key: &EcPrivateKey) -> usize {
    let curve = match &key.parameters {
        Some(EcParameters::NamedCurve(curve)) => length_and_last(curve.as_bytes()),
        None => 0,
    };
    let public_key = match key.public_key {
        Some(bytes) => length_and_last(bytes),
        None => 0,
    };
    let private_key = length_and_last(key.private_key);
    private_key.wrapping_add(curve).wrapping_add(public_key)
}

/// Writes a key, as a call that isn't inlined does. Returns the length of its encoding.
#[inline(never)]
fn write(key: &EcPrivateKey, out: &mut [u8]) -> usize {
    key.encode_to_slice(out).unwrap_or(0)
}

/// Writes a key into the slice by a call that isn't inlined. Returns the length of its encoding.
#[unsafe(no_mangle)]
pub extern "C" fn bench_key_write(private_key: &[u8], public_key: &[u8], out: &mut [u8]) -> usize {
    let key = EcPrivateKey {
        private_key,
        parameters: Some(EcParameters::NamedCurve(ID_EC_PUBLIC_KEY)),
        public_key: Some(public_key),
    };
    write(&key, out)
}

/// Writes a key without a curve and a public key by a call that isn't inlined. Returns the length
/// of its encoding.
#[unsafe(no_mangle)]
pub extern "C" fn bench_key_write_bare(private_key: &[u8], out: &mut [u8]) -> usize {
    let key = EcPrivateKey {
        private_key,
        parameters: None,
        public_key: None,
    };
    write(&key, out)
}

/// Writes a key as [`bench_key_write`] does, by a call that may be inlined.
#[unsafe(no_mangle)]
pub extern "C" fn bench_key_write_inline(
    private_key: &[u8],
    public_key: &[u8],
    out: &mut [u8],
) -> usize {
    let key = EcPrivateKey {
        private_key,
        parameters: Some(EcParameters::NamedCurve(ID_EC_PUBLIC_KEY)),
        public_key: Some(public_key),
    };
    key.encode_to_slice(out).unwrap_or(0)
}

/// Writes a key as [`bench_key_write_bare`] does, by a call that may be inlined.
#[unsafe(no_mangle)]
pub extern "C" fn bench_key_write_bare_inline(private_key: &[u8], out: &mut [u8]) -> usize {
    let key = EcPrivateKey {
        private_key,
        parameters: None,
        public_key: None,
    };
    key.encode_to_slice(out).unwrap_or(0)
}

/// Reads a key and writes it into the slice. Returns the length of its encoding.
#[unsafe(no_mangle)]
pub extern "C" fn bench_key_rewrite(input: &[u8], out: &mut [u8]) -> usize {
    match EcPrivateKey::try_from(input) {
        Ok(key) => key.encode_to_slice(out).unwrap_or(0),
        Err(_) => 0,
    }
}

/// Makes the document of a key. Returns its length.
#[unsafe(no_mangle)]
pub extern "C" fn bench_key_document(
    alloc: Global,
    private_key: &[u8],
    public_key: &[u8],
) -> usize {
    let key = EcPrivateKey {
        private_key,
        parameters: Some(EcParameters::NamedCurve(ID_EC_PUBLIC_KEY)),
        public_key: Some(public_key),
    };
    match key.document(alloc) {
        Ok(document) => document.len(),
        Err(_) => 0,
    }
}

/// Makes a document of these bytes. Returns its length.
#[unsafe(no_mangle)]
pub extern "C" fn bench_document_copy(alloc: Global, input: &[u8]) -> usize {
    match SecretDocument::from_der(alloc, input) {
        Ok(document) => document.len(),
        Err(_) => 0,
    }
}
