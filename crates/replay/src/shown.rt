//! What is printed of keys, documents and points by `{:?}` and `{:#?}`.
ghost use Rattle.std.specs.Prelude.{◌<◌, ◌^◌};
ghost use Rattle.sec1.specs.Points.{Fits};

use crate::keys::Described;
use crate::words::{joined, number, word};
use sec1::der::SecretDocument;
use sec1::{EcPrivateKey, EncodedPoint};
use std::alloc::{AllocError, Global};

/// Returns the texts of a key and of its document.
fn texts(
    alloc: Global,
    key: &EcPrivateKey,
    document: &SecretDocument,
) -> Result<String, AllocError> {
    format!(in alloc; "{key:?}\n{key:#?}\n{document:?}\n{document:#?}")
}

/// Returns the line for the texts of a key and of its document, in hexadecimal.
pub fn key(alloc: Global, rest: &[u8]) -> Result<String, AllocError> {
    let described = Described::read(alloc, rest)?;
    let key = described.key();
    let Ok(document) = key.document_ref(alloc) else {
        return "not written".to_string(alloc);
    };
    hex::encode(alloc, texts(alloc, &key, &document)?.as_bytes())
}

/// Returns the texts of the key by `{:?}` with a width, a precision and other options.
fn styled(alloc: Global, key: &EcPrivateKey) -> Result<String, AllocError> {
    let widths = format!(in alloc; "{key:1?}|{key:>9?}|{key:<90?}|{key:*^7?}|{key:09?}");
    let others = format!(in alloc; "{key:.1?}|{key:+?}|{key:#1?}|{key:#.1?}|{key:+#09.1?}");
    joined(alloc, "|", [widths, others])
}

/// Returns the line for the texts of a key by options: whether they are those of a key that has no
/// private bytes, and is the same otherwise.
pub fn hidden(alloc: Global, rest: &[u8]) -> Result<String, AllocError> {
    let described = Described::read(alloc, rest)?;
    let key = described.key();
    let other = EcPrivateKey {
        private_key: b"",
        parameters: key.parameters,
        public_key: key.public_key,
    };
    let is_same = styled(alloc, &key)? == styled(alloc, &other)?;
    format!(in alloc; "hidden {is_same}")
}

/// Returns the texts of the point with these bytes.
fn texts_of<const N: usize, const L: usize>(
    alloc: Global,
    bytes: &[u8],
) -> Result<String, AllocError>
    requires fits { Fits N L }
    requires size { L < 2 ^ 62 }
{
    match EncodedPoint::<N, L>::from_bytes(bytes) {
        Ok(point) => format!(in alloc; "{point:?}"),
        Err(_) => "no point".to_string(alloc),
    }
}

/// Returns the line for the text of a point.
pub fn point(alloc: Global, rest: &[u8]) -> Result<String, AllocError> {
    let (size, digits) = word(rest);
    match hex::decode(alloc, digits) {
        Ok(bytes) => texts_at(alloc, number(size), &bytes),
        Err(_) => "not hexadecimal".to_string(alloc),
    }
}

/// Returns the texts of the point with these bytes, at field elements of `size` bytes.
fn texts_at(alloc: Global, size: usize, bytes: &[u8]) -> Result<String, AllocError> {
    match size {
        5 => texts_of::<5, 11>(alloc, bytes),
        20 => texts_of::<20, 41>(alloc, bytes),
        24 => texts_of::<24, 49>(alloc, bytes),
        28 => texts_of::<28, 57>(alloc, bytes),
        32 => texts_of::<32, 65>(alloc, bytes),
        40 => texts_of::<40, 81>(alloc, bytes),
        48 => texts_of::<48, 97>(alloc, bytes),
        64 => texts_of::<64, 129>(alloc, bytes),
        66 => texts_of::<66, 133>(alloc, bytes),
        _ => "no such size".to_string(alloc),
    }
}
