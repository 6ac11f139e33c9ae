//! Keys and documents in files.

use crate::calls::tried;
use crate::keys::{Copied, of_der, of_der_written, of_key, of_written, pattern};
use crate::streams::{der_end, end, error_name, kind_name, moved};
use crate::words::{joined, number, word};
use sec1::der::SecretDocument;
use sec1::{DecodeEcPrivateKey, EcPrivateKey, EncodeEcPrivateKey, Error};
use std::alloc::{AllocError, Global};
use std::rt::Files;

/// Returns the text of the key in a file.
fn read_key<H: Files>(rt: &H, alloc: Global, path: &str) -> Result<String, AllocError> {
    match Copied::read_sec1_der_file(rt, alloc, path) {
        Ok(key) => moved(alloc, &key.bytes),
        Err(error) => error_name(alloc, &error),
    }
}

/// Returns the line for a file that is read as `document` or as `key`.
pub fn read<H: Files>(rt: &H, alloc: Global, rest: &[u8]) -> Result<String, AllocError> {
    let (kind, path) = word(rest);
    let Ok(path) = str::from_utf8(path) else {
        return "not a text".to_string(alloc);
    };
    if kind == b"key".as_slice() {
        return read_key(rt, alloc, path);
    }
    match SecretDocument::read_der_file(rt, alloc, path) {
        Ok(document) => moved(alloc, document.as_bytes()),
        Err(error) => kind_name(alloc, &error),
    }
}

/// Returns the document of a key with a private key of this length, or, of `-`, the shortest
/// element, which is no key.
fn document_of(alloc: Global, private_len: &[u8]) -> sec1::Result<SecretDocument> {
    if private_len == b"-".as_slice() {
        return Ok(SecretDocument::from_der(alloc, b"\x05\x00")?);
    }
    let Ok(private_key) = pattern(alloc, number(private_len)) else {
        return Err(Error::Memory);
    };
    let key = EcPrivateKey {
        private_key: &private_key,
        parameters: None,
        public_key: None,
    };
    key.document(alloc)
}

/// Returns how the bytes of the document are written as a key.
fn write_key<H: Files>(
    rt: &H,
    alloc: Global,
    document: &SecretDocument,
    path: &str,
) -> Result<String, AllocError> {
    let bytes = Vec::from_slice(alloc, document.as_bytes())?;
    end(alloc, Copied { bytes }.write_sec1_der_file(rt, alloc, path))
}

/// Returns the line for a file into which a `document` or a `key` is written.
pub fn write<H: Files>(rt: &H, alloc: Global, rest: &[u8]) -> Result<String, AllocError> {
    let (kind, rest) = word(rest);
    let (private_len, path) = word(rest);
    let Ok(path) = str::from_utf8(path) else {
        return "not a text".to_string(alloc);
    };
    let Ok(document) = document_of(alloc, private_len) else {
        return "not written".to_string(alloc);
    };
    if kind == b"key".as_slice() {
        return write_key(rt, alloc, &document, path);
    }
    der_end(alloc, document.write_der_file(rt, path))
}

/// Returns the line for the calls on a file of a key. `rest` has the length of its private key and
/// the path.
pub fn answer<H: Files>(rt: &H, alloc: Global, rest: &[u8]) -> Result<String, AllocError> {
    let (private_len, path) = word(rest);
    let Ok(path) = str::from_utf8(path) else {
        return "not a text".to_string(alloc);
    };
    let Ok(document) = document_of(alloc, private_len) else {
        return "not written".to_string(alloc);
    };
    let key = Copied {
        bytes: Vec::from_slice(alloc, document.as_bytes())?,
    };
    let wrote = tried(
        alloc,
        "write_sec1_der_file",
        || of_written(key.write_sec1_der_file(rt, alloc, path)),
    );
    let read = tried(
        alloc,
        "read_sec1_der_file",
        || of_key(Copied::read_sec1_der_file(rt, alloc, path)),
    );
    let put = tried(
        alloc,
        "write_der_file",
        || of_der_written(document.write_der_file(rt, path)),
    );
    let got = tried(
        alloc,
        "read_der_file",
        || of_der(SecretDocument::read_der_file(rt, alloc, path)),
    );
    joined(alloc, "", ["file".to_string(alloc), wrote, read, put, got])
}
