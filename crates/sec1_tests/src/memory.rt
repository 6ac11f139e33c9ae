//! What calls without an allocator return while each request for memory is refused, and how a
//! document grows.
//!
//! They are refused by `tests/refuse.c`, an allocator that replaces the C library's in the built
//! tests. A test controls it by requests of sizes that no allocator grants. Without it nothing is
//! refused. `crates/replay` makes the calls that allocate, with each of their requests refused
//! once.
use crate::helpers::{assert_equal, assert_equal_for, document, kind_of};
use sec1::point::EncodedPoint;
use sec1::{BorrowedKey, EcPrivateKey, Error};
use sec1_der::{
    ErrorKind, OctetStringRef, SecretDocument, StdReader, StdWriter, check_tree, encode_to_slice,
    encoded_len, from_der,
};
use serde_json::Value;
use std::alloc::Global;
use std::cmp::Ordering;
use std::io;
use std::process::Abort;
use std::str::FromStr;
use std::test::Fail;

type Point1 = EncodedPoint<1, 3>;

/// A key on P-256 with all its fields, 121 bytes.
const KEY: &[u8] = &[
    0x30, 0x77, 0x02, 0x01, 0x01, 0x04, 0x20, 0x69, 0x62, 0x41, 0x71, 0x56, 0x1A, 0x63, 0x34, 0x0D,
    0xE0, 0xE7, 0xD8, 0x69, 0xF2, 0xA0, 0x54, 0x92, 0x55, 0x8E, 0x1A, 0x04, 0x86, 0x8B, 0x6A, 0x9F,
    0x85, 0x4A, 0x86, 0x67, 0x88, 0x18, 0x8D, 0xA0, 0x0A, 0x06, 0x08, 0x2A, 0x86, 0x48, 0xCE, 0x3D,
    0x03, 0x01, 0x07, 0xA1, 0x44, 0x03, 0x42, 0x00, 0x04, 0x1C, 0xAC, 0xFF, 0xB5, 0x5F, 0x2F, 0x2C,
    0xEF, 0xD8, 0x9D, 0x89, 0xEB, 0x37, 0x4B, 0x26, 0x81, 0x15, 0x24, 0x52, 0x80, 0x2D, 0xEE, 0xA0,
    0x99, 0x16, 0x06, 0x81, 0x37, 0xD8, 0x39, 0xCF, 0x7F, 0xC4, 0x81, 0xA4, 0x44, 0x92, 0x30, 0x4D,
    0x7E, 0xF6, 0x6A, 0xC1, 0x17, 0xBE, 0xFE, 0x83, 0xA8, 0xD0, 0x8F, 0x15, 0x5F, 0x2B, 0x52, 0xF9,
    0xF6, 0x18, 0xDD, 0x44, 0x70, 0x29, 0x04, 0x8E, 0x0F,
];

/// Asks for `more` bytes above what any allocator grants. Returns `true` if the allocator of the
/// tests granted them.
fn signal(alloc: Global, more: u32) -> bool {
    Vec::<u8>::with_capacity(alloc, (1 << 62) + more as usize).is_ok()
}

/// Has the request of this number refused, the first from now on being 1. Returns `true` if the
/// allocator of the tests is there.
fn refuse(alloc: Global, number: u16) -> bool {
    signal(alloc, u32::from(number))
}

/// Returns `true` if `count` requests were made since, and none was refused.
fn were_made(alloc: Global, count: u16) -> bool {
    signal(alloc, 0x1_0000 + u32::from(count))
}

/// Returns `true` if none of them was for more than `bytes` bytes.
fn were_at_most(alloc: Global, bytes: u16) -> bool {
    signal(alloc, 0x2_0000 + u32::from(bytes))
}

/// Fails the test unless the calls made since [`refuse`] were right, and made no request.
fn assert_made_none<R: Print + Abort>(
    rt: &R,
    alloc: Global,
    calls: &str,
    is_refusing: bool,
    is_right: bool,
) {
    let made_none = !is_refusing || were_made(alloc, 0);
    assert_equal_for(rt, &calls, &(is_right && made_none), &true);
    if is_refusing {
        let _ = println!(rt; "{calls}: no request");
    }
}

/// Returns `true` if the bytes are a key, which is written as they are, and seven elements.
fn is_read_and_written(bytes: &[u8]) -> bool {
    let Ok(key) = EcPrivateKey::try_from(bytes) else {
        return false;
    };
    let mut room = [0u8; 121];
    key.encoded_len() == Ok(121)
        && key.encode_to_slice(&mut room) == Ok(121)
        && room.as_slice() == bytes
        && check_tree(bytes) == Ok(7)
}

/// Returns `true` if the bytes are a key on P-256 that is written as they are, without a copy of
/// its identifier.
fn is_borrowed_and_written(bytes: &[u8]) -> bool {
    let Ok(key) = BorrowedKey::try_from(bytes) else {
        return false;
    };
    let Some(curve) = &key.curve else {
        return false;
    };
    let mut room = [0u8; 121];
    bytes.get(43..51) == Some(curve.as_bytes())
        && key.encoded_len() == Ok(121)
        && key.encode_to_slice(&mut room) == Ok(121)
        && room.as_slice() == bytes
}

#[test]
fn takes_no_memory_for_keys(rt: HostRuntime) {
    let alloc = rt.alloc();
    let is_refusing = refuse(alloc, 1);
    let is_right = is_read_and_written(KEY) && is_borrowed_and_written(KEY);
    let calls = "try_from, encoded_len, encode_to_slice, check_tree";
    assert_made_none(&rt, alloc, calls, is_refusing, is_right);
}

/// Encodings at one byte, each of them below the next.
static ORDERED: [(&[u8], &[u8]); 3] = [
    (&[2, 0xFF], &[3, 0]),
    (&[4, 1, 0xFF], &[4, 2, 0]),
    (&[0], &[2, 0xFF]),
];

/// Returns `true` if the first point is less than the second.
fn is_less(lower: &[u8], higher: &[u8]) -> bool {
    match (Point1::from_bytes(lower), Point1::from_bytes(higher)) {
        (Ok(low), Ok(high)) => {
            low.cmp(&high) == Ordering::Less && high.cmp(&low) == Ordering::Greater
        }
        _ => false,
    }
}

/// Returns `true` if points are in their order, and one of them is compressed.
fn are_ordered_and_compressed() -> bool {
    for &(lower, higher) in ORDERED.iter() {
        if !is_less(lower, higher) {
            return false;
        }
    }
    let point = Point1::from_untagged_bytes(&[1, 0xFF]);
    point.as_bytes() == [4, 1, 0xFF].as_slice()
        && point.compress().as_bytes() == [3, 1].as_slice()
        && EncodedPoint::<32, 64>::from_bytes(&[0]) == Err(Error::PointEncoding)
}

#[test]
fn takes_no_memory_for_points(rt: HostRuntime) {
    let alloc = rt.alloc();
    let is_refusing = refuse(alloc, 1);
    let is_right = are_ordered_and_compressed();
    assert_made_none(
        &rt,
        alloc,
        "from_bytes, cmp, compress",
        is_refusing,
        is_right,
    );
}

/// Texts that are no point.
static NO_TEXT: [&str; 5] = ["02aF", "02A", "", "02", "02AF0000"];

/// Returns `true` if other texts, and these numbers in JSON, are refused as points.
fn are_others_refused(numbers: &[Value; 2]) -> bool {
    for &text in NO_TEXT.iter() {
        if Point1::from_str(text) != Err(Error::PointEncoding) {
            return false;
        }
    }
    for number in numbers.iter() {
        if Point1::from_json(number) != Err(Error::PointEncoding) {
            return false;
        }
    }
    true
}

/// Returns `true` if a point is read from its texts, and from this string in JSON, and from nothing
/// else, such as these numbers.
fn is_read_from_texts(json: &Value, numbers: &[Value; 2]) -> bool {
    let point = Point1::from_bytes(&[2, 0xAF]);
    Point1::from_str("02AF") == point
        && Point1::from_str("02af") == point
        && Point1::from_json(json) == point
        && are_others_refused(numbers)
}

#[test]
fn takes_no_memory_for_texts_of_points(rt: HostRuntime) -> Result<(), Fail> {
    let alloc = rt.alloc();
    let json = Value::from(String::from_str(alloc, "02AF")?);
    let numbers = [Value::from(2u8), Value::from(0.5)];
    let is_refusing = refuse(alloc, 1);
    let is_right = is_read_from_texts(&json, &numbers);
    assert_made_none(&rt, alloc, "from_str, from_json", is_refusing, is_right);
    Ok(())
}

/// A reader of a header that announces the greatest length, which gives three requests of content
/// and then fails.
#[derive(Drop)]
struct Endless {
    header: &'static [u8],
    times: u32,
}

impl io::Read for Endless {
    fn read(&mut self, buf: &mut [u8]) -> io::Result<usize> {
        if let Some((byte, rest)) = self.header.split_first() {
            self.header = rest;
            let count = buf.len().min(1);
            buf[..count].fill(*byte);
            return Ok(count);
        }
        if self.times == 0 {
            return Err(io::Error::from(io::ErrorKind::Other));
        }
        self.times -= 1;
        Ok(buf.len())
    }
}

/// Reads a document of a header that announces the greatest length, over a reader that fails after
/// three requests of content. Returns the kind of the error.
fn endless_refusal(alloc: Global) -> Option<ErrorKind> {
    let mut reader = StdReader::new(Endless {
        header: b"\x30\x84\x0F\xFF\xFF\xFF",
        times: 3,
    });
    kind_of(SecretDocument::read_der_from(alloc, &mut reader))
}

#[test]
fn grows_documents_by_4096_bytes(rt: HostRuntime) {
    let alloc = rt.alloc();
    let is_refusing = refuse(alloc, u16::MAX);
    let refused = endless_refusal(alloc);
    if is_refusing {
        // six bytes of the header, and four requests of 4,096
        assert!(rt; were_at_most(alloc, 16_390) && !were_at_most(alloc, 16_389));
        let _ = println!(&rt; "SecretDocument::read_der_from grows by 4,096 bytes");
    }
    assert_equal(&rt, &refused, &Some(ErrorKind::Io));
}

/// Returns `true` if the document is written to a writer, and is [`KEY`].
fn is_written(document: &SecretDocument) -> bool {
    let mut room = [0u8; 121];
    let written = document.write_der_to(&mut StdWriter::new(room.as_mut_slice()));
    written.is_ok() && room.as_slice() == KEY
}

/// Returns `true` if an octet string is read, measured and written.
fn are_octets_read_and_written() -> bool {
    let Ok(octets) = from_der::<OctetStringRef>(b"\x04\x01\xAA") else {
        return false;
    };
    let mut room = [0u8; 3];
    octets.as_bytes() == [0xAA].as_slice()
        && encoded_len(&octets) == Ok(3)
        && encode_to_slice(&octets, &mut room) == Ok(3)
        && room == [0x04, 0x01, 0xAA]
}

#[test]
fn takes_no_memory_without_an_allocator(rt: HostRuntime) -> Result<(), Fail> {
    let alloc = rt.alloc();
    let document = document(alloc, KEY)?;
    let is_refusing = refuse(alloc, 1);
    let is_right = is_written(&document);
    let calls = "SecretDocument::write_der_to";
    assert_made_none(&rt, alloc, calls, is_refusing, is_right);
    let is_refusing = refuse(alloc, 1);
    let is_right = are_octets_read_and_written();
    let calls = "from_der, encoded_len, encode_to_slice";
    assert_made_none(&rt, alloc, calls, is_refusing, is_right);
    Ok(())
}
