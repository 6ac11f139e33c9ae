//! A key type that refuses by errors of its own, over memory, streams and files.
ghost use Rattle.std.specs.Prelude.{◌≡◌, ⊤};

use crate::streams::end;
use crate::words::joined;
use sec1::der::{SecretDocument, StdReader, StdWriter};
use sec1::{DecodeEcPrivateKey, EncodeEcPrivateKey, Error};
use std::alloc::{AllocError, Global};
use std::rt::Files;

/// A key that is neither read, for its version, nor written, for its cryptography.
#[derive(Drop)]
struct Refused;

impl DecodeEcPrivateKey for Refused {
    ghost reads = { λ _ _. ⊥ };

    ghost refuses = { λ _ _. ⊤ };

    fn from_sec1_der(_alloc: Global, _bytes: &[u8]) -> sec1::Result<Refused> {
        Err(Error::Version)
    }
}

impl EncodeEcPrivateKey for Refused {
    ghost writes = { λ _ _. ⊥ };

    ghost refuses = { λ _ _. ⊤ };

    fn to_sec1_der(&self, _alloc: Global) -> sec1::Result<SecretDocument> {
        Err(Error::Crypto)
    }
}

/// Returns how it is read from memory and from streams.
fn read(alloc: Global) -> Result<String, AllocError> {
    let from = end(alloc, Refused::from_sec1_der(alloc, b"\x04\x01\xAA"));
    let mut reader = StdReader::new(b"\x04\x01\xAA".as_slice());
    let read = end(alloc, Refused::read_sec1_der_from(alloc, &mut reader));
    let left = reader.into_inner().len().to_string(alloc);
    let mut reader = StdReader::new(b"\x04\x02\xAA".as_slice());
    let short = end(alloc, Refused::read_sec1_der_from(alloc, &mut reader));
    joined(alloc, " ", [from, read, left, short])
}

/// Returns how it is written into memory and into a stream.
fn written(alloc: Global) -> Result<String, AllocError> {
    let to = end(alloc, Refused.to_sec1_der(alloc));
    let mut writer = StdWriter::new(Vec::new(alloc));
    let written = end(alloc, Refused.write_sec1_der_to(alloc, &mut writer));
    let len = writer.into_inner().len().to_string(alloc);
    joined(alloc, " ", [to, written, len])
}

/// Returns the line for this key type over memory, a stream and the file at this path.
pub fn answer<H: Files>(rt: &H, alloc: Global, rest: &[u8]) -> Result<String, AllocError> {
    let Ok(path) = str::from_utf8(rest) else {
        return "not a text".to_string(alloc);
    };
    let read = read(alloc);
    let file = end(alloc, Refused::read_sec1_der_file(rt, alloc, path));
    let written = written(alloc);
    let filed = end(alloc, Refused.write_sec1_der_file(rt, alloc, path));
    joined(
        alloc,
        " ",
        ["refuse".to_string(alloc), read, file, written, filed],
    )
}
