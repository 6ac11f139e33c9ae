//! The calls of keys that allocate, over memory and over streams.
ghost use Rattle.std.specs.Prelude.{◌≡◌, ⊤};

use crate::calls::{Outcome, sum_of, tried};
use crate::words::{joined, number, word};
use sec1::der::{ErrorKind, ObjectIdentifier, SecretDocument, StdReader, StdWriter};
use sec1::{DecodeEcPrivateKey, EcParameters, EcPrivateKey, EncodeEcPrivateKey, Error};
use std::alloc::{AllocError, Global};

/// A key that is any bytes. It is written if they are one element.
#[derive(Drop)]
pub struct Copied {
    pub bytes: Vec<u8>,
}

impl DecodeEcPrivateKey for Copied {
    ghost reads = { λ bytes key. key.bytes.items ≡ bytes };

    ghost refuses = { λ _ _. ⊥ };

    fn from_sec1_der(alloc: Global, bytes: &[u8]) -> sec1::Result<Copied> {
        match Vec::from_slice(alloc, bytes) {
            Ok(bytes) => Ok(Copied { bytes }),
            Err(_) => Err(Error::Memory),
        }
    }
}

impl EncodeEcPrivateKey for Copied {
    ghost writes = { λ key bytes. key.bytes.items ≡ bytes };

    ghost refuses = { λ _ _. ⊤ };

    fn to_sec1_der(&self, alloc: Global) -> sec1::Result<SecretDocument> {
        Ok(SecretDocument::from_der(alloc, &self.bytes)?)
    }
}

/// Returns what a call gave that has an error.
fn failed(error: Error) -> Outcome {
    match error {
        Error::Memory => Outcome::Memory,
        _ => Outcome::Other,
    }
}

/// Returns what a call on DER gave that has an error.
fn der_failed(error: sec1::der::Error) -> Outcome {
    match error.kind {
        ErrorKind::Memory => Outcome::Memory,
        _ => Outcome::Other,
    }
}

/// Returns what a call gave that makes bytes.
pub fn of_bytes(res: sec1::Result<Vec<u8>>) -> Outcome {
    match res {
        Ok(bytes) => sum_of(&bytes),
        Err(error) => failed(error),
    }
}

/// Returns what a call gave that makes a document.
pub fn of_document(res: sec1::Result<SecretDocument>) -> Outcome {
    match res {
        Ok(document) => sum_of(document.as_bytes()),
        Err(error) => failed(error),
    }
}

/// Returns what a call on DER gave that makes a document.
pub fn of_der(res: sec1::der::Result<SecretDocument>) -> Outcome {
    match res {
        Ok(document) => sum_of(document.as_bytes()),
        Err(error) => der_failed(error),
    }
}

/// Returns what a call gave that reads a key.
pub fn of_key(res: sec1::Result<Copied>) -> Outcome {
    match res {
        Ok(key) => sum_of(&key.bytes),
        Err(error) => failed(error),
    }
}

/// Returns what a call gave that writes a key.
pub fn of_written(res: sec1::Result<()>) -> Outcome {
    match res {
        Ok(()) => Outcome::Bytes(0, 0),
        Err(error) => failed(error),
    }
}

/// Returns what a call on DER gave that writes a document.
pub fn of_der_written(res: sec1::der::Result<()>) -> Outcome {
    match res {
        Ok(()) => Outcome::Bytes(0, 0),
        Err(error) => der_failed(error),
    }
}

/// Returns `len` bytes: 0 to 250 over and over.
pub fn pattern(alloc: Global, len: usize) -> Result<Vec<u8>, AllocError> {
    let mut bytes = Vec::with_capacity(alloc, len)?;
    for place in 0..len {
        bytes.push((place % 251) as u8)?;
    }
    Ok(bytes)
}

/// Returns the document of the key's clone.
fn cloned_document(alloc: Global, key: &EcPrivateKey) -> Outcome {
    match key.clone() {
        Ok(clone) => of_document(clone.document(alloc)),
        Err(_) => Outcome::Memory,
    }
}

/// Returns the ends of the calls of the key alone.
fn ends(alloc: Global, key: &EcPrivateKey) -> Result<String, AllocError> {
    let der = tried(alloc, "to_der", || of_bytes(key.to_der(alloc)));
    let borrowed = tried(
        alloc,
        "document_ref",
        || of_document(key.document_ref(alloc)),
    );
    let cloned = tried(alloc, "document", || cloned_document(alloc, key));
    let encoded = tried(
        alloc,
        "encode_msg",
        || of_der(SecretDocument::encode_msg(alloc, key)),
    );
    joined(alloc, "", [der, borrowed, cloned, encoded])
}

/// Returns what is read from this reader, and what is left in it.
fn read_document(alloc: Global, bytes: &[u8]) -> Outcome {
    let mut reader = StdReader::new(bytes);
    of_der(SecretDocument::read_der_from(alloc, &mut reader))
}

/// Returns what is read as a key from these bytes by a reader.
fn read_key(alloc: Global, bytes: &[u8]) -> Outcome {
    let mut reader = StdReader::new(bytes);
    of_key(Copied::read_sec1_der_from(alloc, &mut reader))
}

/// Returns the ends of the calls that read these bytes.
fn read_ends(alloc: Global, bytes: &[u8]) -> Result<String, AllocError> {
    let taken = tried(
        alloc,
        "from_der",
        || of_der(SecretDocument::from_der(alloc, bytes)),
    );
    let read = tried(alloc, "read_der_from", || read_document(alloc, bytes));
    let copied = tried(
        alloc,
        "from_sec1_der",
        || of_key(Copied::from_sec1_der(alloc, bytes)),
    );
    let streamed = tried(alloc, "read_sec1_der_from", || read_key(alloc, bytes));
    joined(alloc, "", [taken, read, copied, streamed])
}

/// Returns what the key writes, into a vector that has the room for it.
fn written(alloc: Global, key: &Copied, room: &mut [u8]) -> Outcome {
    let len = key.bytes.len().min(room.len());
    room.fill(0xAA);
    let mut writer = StdWriter::new(&mut *room);
    let result = key.write_sec1_der_to(alloc, &mut writer);
    match result {
        Ok(()) => sum_of(&room[..len]),
        Err(error) => failed(error),
    }
}

/// Returns the ends of the calls that write these bytes.
fn write_ends(alloc: Global, bytes: &[u8]) -> Result<String, AllocError> {
    let key = Copied {
        bytes: Vec::from_slice(alloc, bytes)?,
    };
    let document = tried(alloc, "to_sec1_der", || of_document(key.to_sec1_der(alloc)));
    let mut room = Vec::from_slice(alloc, bytes)?;
    let streamed = tried(
        alloc,
        "write_sec1_der_to",
        || written(alloc, &key, &mut room),
    );
    joined(alloc, "", [document, streamed])
}

/// The parts of a key that a line describes.
#[derive(Drop)]
pub struct Described {
    private_key: Vec<u8>,
    parameters: Option<EcParameters>,
    public_key: Option<Vec<u8>>,
}

impl Described {
    /// Returns what a line describes: by the length of the private key, the content of the curve's
    /// identifier and the length of the public key, the last two `-` if absent.
    pub fn read(alloc: Global, line: &[u8]) -> Result<Described, AllocError> {
        let (private_len, rest) = word(line);
        let (curve, rest) = word(rest);
        let (public_len, _) = word(rest);
        Ok(Described {
            private_key: pattern(alloc, number(private_len))?,
            parameters: curve_of(alloc, curve),
            public_key: public_key_of(alloc, public_len)?,
        })
    }

    /// Returns the key.
    pub fn key(&self) -> EcPrivateKey<'_> {
        EcPrivateKey {
            private_key: &self.private_key,
            parameters: self.parameters,
            public_key: self.public_key.as_deref(),
        }
    }
}

/// Returns the curve whose identifier has this content, in hexadecimal.
fn curve_of(alloc: Global, digits: &[u8]) -> Option<EcParameters> {
    let content = hex::decode(alloc, digits).ok()?;
    let curve = ObjectIdentifier::from_bytes(&content).ok()?;
    Some(EcParameters::NamedCurve(curve))
}

/// Returns a public key of this length, or `None` of `-`.
fn public_key_of(alloc: Global, len: &[u8]) -> Result<Option<Vec<u8>>, AllocError> {
    if len == b"-".as_slice() {
        return Ok(None);
    }
    Ok(Some(pattern(alloc, number(len))?))
}

/// Returns the line for a key.
pub fn answer(alloc: Global, rest: &[u8]) -> Result<String, AllocError> {
    let described = Described::read(alloc, rest)?;
    let key = described.key();
    let ends = ends(alloc, &key);
    let Ok(der) = key.to_der(alloc) else {
        return "not written".to_string(alloc);
    };
    let (read, written) = (read_ends(alloc, &der), write_ends(alloc, &der));
    joined(alloc, "", ["key".to_string(alloc), ends, read, written])
}
