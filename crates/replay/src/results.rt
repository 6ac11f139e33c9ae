//! What single calls give: of readers, documents, slices, points and their texts.
ghost use Rattle.std.specs.Prelude.{◌<◌, ◌^◌};
ghost use Rattle.sec1.specs.Points.{Fits};

use crate::keys::pattern;
use crate::streams::{der_end, error_name, kind_name};
use crate::words::{joined, number, word};
use sec1::der::{self, Length, OctetStringRef, SecretDocument, SliceReader, StdReader, check_tree};
use sec1::{EcPrivateKey, EncodedPoint};
use serde_json::Value;
use std::alloc::{AllocError, Global};
use std::fmt::Display;
use std::str::FromStr;

/// Returns the digits of the bytes.
fn digits(alloc: Global, bytes: &[u8]) -> Result<String, AllocError> {
    hex::encode(alloc, bytes)
}

/// Returns the line for a key that is written into a slice of bytes AA. `rest` has the length of
/// the private key and that of the slice.
pub fn encode(alloc: Global, rest: &[u8]) -> Result<String, AllocError> {
    let (private_len, room) = word(rest);
    let private_key = pattern(alloc, number(private_len))?;
    let key = EcPrivateKey {
        private_key: &private_key,
        parameters: None,
        public_key: None,
    };
    let mut buffer = pattern(alloc, number(room))?;
    buffer.fill(0xAA);
    let wrote = match key.encode_to_slice(&mut buffer) {
        Ok(count) => count.to_string(alloc),
        Err(error) => error_name(alloc, &error),
    };
    let is_read = EcPrivateKey::try_from(buffer.as_slice()).is_ok();
    let read = format!(in alloc; "read {is_read}");
    let bytes = digits(alloc, &buffer);
    joined(alloc, " ", ["encode".to_string(alloc), wrote, bytes, read])
}

/// Returns the length of the document, or the name of the kind of the error.
fn length(alloc: Global, made: der::Result<SecretDocument>) -> Result<String, AllocError> {
    match made {
        Ok(document) => document.len().to_string(alloc),
        Err(error) => kind_name(alloc, &error),
    }
}

/// Returns the line for a document of these bytes: from memory, as a tree, and over a stream.
pub fn document(alloc: Global, rest: &[u8]) -> Result<String, AllocError> {
    let Ok(bytes) = hex::decode(alloc, rest) else {
        return "not hexadecimal".to_string(alloc);
    };
    let tree = match check_tree(&bytes) {
        Ok(count) => count.to_string(alloc),
        Err(error) => kind_name(alloc, &error),
    };
    let mut reader = StdReader::new(bytes.as_slice());
    let streamed = length(alloc, SecretDocument::read_der_from(alloc, &mut reader));
    let taken = length(alloc, SecretDocument::from_der(alloc, &bytes));
    joined(
        alloc,
        " ",
        ["document".to_string(alloc), taken, tree, streamed],
    )
}

/// Returns whether the reader has failed, and the tag byte that is next.
fn state(alloc: Global, reader: &SliceReader) -> Result<String, AllocError> {
    let (is_failed, peeked) = (reader.is_failed(), reader.peek_tag_byte());
    format!(in alloc; "{is_failed} {peeked:?}")
}

/// Returns how each call of a reader ends.
fn ends(alloc: Global, reader: &mut SliceReader, one: Length) -> Result<String, AllocError> {
    let string = der_end(alloc, reader.decode::<OctetStringRef>());
    let field = der_end(alloc, reader.context_specific::<OctetStringRef>(0));
    let slice = der_end(alloc, reader.read_slice(one));
    let nested = der_end(alloc, reader.read_nested(one));
    let finished = der_end(alloc, reader.finish());
    joined(alloc, " ", [string, field, slice, nested, finished])
}

/// Returns the line for a reader over these bytes that reads an octet string, and of which each
/// other call is made then.
pub fn failed(alloc: Global, rest: &[u8]) -> Result<String, AllocError> {
    let Ok(bytes) = hex::decode(alloc, rest) else {
        return "not hexadecimal".to_string(alloc);
    };
    let Ok(one) = Length::new(1) else {
        return "no length".to_string(alloc);
    };
    let mut reader = SliceReader::new(&bytes);
    let first = der_end(alloc, reader.decode::<OctetStringRef>());
    let left = reader.remaining_len();
    let state = state(alloc, &reader);
    let ends = ends(alloc, &mut reader, one);
    let same = (reader.remaining_len() == left).to_string(alloc);
    joined(
        alloc,
        " ",
        ["failed".to_string(alloc), first, state, ends, same],
    )
}

/// Returns the digits of a coordinate, or `none`.
fn coordinate<const N: usize>(
    alloc: Global,
    bytes: Option<&[u8; N]>,
) -> Result<String, AllocError> {
    match bytes {
        Some(bytes) => digits(alloc, bytes.as_slice()),
        None => "none".to_string(alloc),
    }
}

/// Returns the parts of the point with these bytes.
fn parts_of<const N: usize, const L: usize>(
    alloc: Global,
    bytes: &[u8],
) -> Result<String, AllocError>
    requires fits { Fits N L }
    requires size { L < 2 ^ 62 }
{
    let point = match EncodedPoint::<N, L>::from_bytes(bytes) {
        Ok(point) => point,
        Err(error) => return error_name(alloc, &error),
    };
    let (tag, len) = (point.tag(), point.len());
    let front = format!(in alloc; "parts {tag:?} {len}");
    let (x, y) = (coordinate(alloc, point.x()), coordinate(alloc, point.y()));
    let compressed = digits(alloc, point.compress().as_bytes());
    let hybrid = digits(alloc, point.to_hybrid().as_bytes());
    joined(alloc, " ", [front, x, y, compressed, hybrid])
}

/// Returns the line for the parts of a point.
pub fn parts(alloc: Global, rest: &[u8]) -> Result<String, AllocError> {
    let (size, point) = word(rest);
    match hex::decode(alloc, point) {
        Ok(bytes) => parts_at(alloc, number(size), &bytes),
        Err(_) => "not hexadecimal".to_string(alloc),
    }
}

/// Returns the parts of the point with these bytes, at field elements of `size` bytes.
fn parts_at(alloc: Global, size: usize, bytes: &[u8]) -> Result<String, AllocError> {
    match size {
        1 => parts_of::<1, 3>(alloc, bytes),
        2 => parts_of::<2, 5>(alloc, bytes),
        5 => parts_of::<5, 11>(alloc, bytes),
        20 => parts_of::<20, 41>(alloc, bytes),
        24 => parts_of::<24, 49>(alloc, bytes),
        28 => parts_of::<28, 57>(alloc, bytes),
        32 => parts_of::<32, 65>(alloc, bytes),
        40 => parts_of::<40, 81>(alloc, bytes),
        48 => parts_of::<48, 97>(alloc, bytes),
        64 => parts_of::<64, 129>(alloc, bytes),
        66 => parts_of::<66, 133>(alloc, bytes),
        _ => "no such size".to_string(alloc),
    }
}

/// Returns the digits of the point, or the name of the error.
fn found<const N: usize, const L: usize>(
    alloc: Global,
    point: sec1::Result<EncodedPoint<N, L>>,
) -> Result<String, AllocError> {
    match point {
        Ok(point) => digits(alloc, point.as_bytes()),
        Err(error) => error_name(alloc, &error),
    }
}

/// Returns the texts by `{}` with options.
fn styled<T: Display>(alloc: Global, value: &T) -> Result<String, AllocError> {
    format!(in alloc;
        "{value:#}|{value:.1}|{value:.3}|{value:>9}|{value:<+09}|{value:>60}|{value:>200}"
    )
}

/// Returns `true` if each text between two `|` of `texts` is this one.
fn are_all(texts: &str, wanted: &str) -> bool {
    for text in texts.split('|') {
        if text != wanted {
            return false;
        }
    }
    true
}

/// Returns the text by `{}`, or `different` if another is printed with options.
fn printed<T: Display>(alloc: Global, value: &T) -> Result<String, AllocError> {
    let plain = value.to_string(alloc)?;
    if are_all(&styled(alloc, value)?, &plain) {
        return Ok(plain);
    }
    "different".to_string(alloc)
}

/// Returns what this text is as a point, and what a string of it in JSON is; then what the point
/// prints.
fn text_of<const N: usize, const L: usize>(alloc: Global, text: &str) -> Result<String, AllocError>
    requires fits { Fits N L }
    requires size { L < 2 ^ 62 }
{
    let read = EncodedPoint::<N, L>::from_str(text);
    let shown = match &read {
        Ok(point) => printed(alloc, point),
        Err(_) => "none".to_string(alloc),
    };
    let json = Value::from(String::from_str(alloc, text)?);
    let from_json = found(alloc, EncodedPoint::<N, L>::from_json(&json));
    joined(
        alloc,
        " ",
        [
            "text".to_string(alloc),
            found(alloc, read),
            from_json,
            shown,
        ],
    )
}

/// Returns the line for a text that is read as a point.
pub fn text(alloc: Global, rest: &[u8]) -> Result<String, AllocError> {
    let (size, text) = word(rest);
    let Ok(text) = str::from_utf8(text) else {
        return "not a text".to_string(alloc);
    };
    match number(size) {
        1 => text_of::<1, 3>(alloc, text),
        32 => text_of::<32, 65>(alloc, text),
        _ => "no such size".to_string(alloc),
    }
}
