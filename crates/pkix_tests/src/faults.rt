//! Places of faults, counted by hand in bytes that OpenSSL 3.0.19 made and that were then damaged.
use crate::{assert_equal, assert_equal_for};
use der_view::faults::{Position, key_fault, tree_fault};
use sec1_der::ErrorKind;
use std::alloc::AllocError;
use std::test::Fail;

/// A key on P-256 of 32 bytes, with its curve and no public key.
static KEY: [u8; 51] = [
    0x30, 0x31, 0x02, 0x01, 0x01, 0x04, 0x20, 0x53, 0xA2, 0x93, 0xA2, 0x75, 0x42, 0x3E, 0xA1, 0x4B,
    0xE8, 0xC5, 0x17, 0x6B, 0x92, 0x1E, 0xC5, 0x7B, 0x15, 0xB7, 0x8F, 0x70, 0xAA, 0x10, 0xAE, 0x43,
    0x0C, 0x9E, 0x98, 0x08, 0x01, 0xB7, 0x66, 0xA0, 0x0A, 0x06, 0x08, 0x2A, 0x86, 0x48, 0xCE, 0x3D,
    0x03, 0x01, 0x07,
];

/// Which byte of the key is changed, to what, where the fault lies then, and of which kind.
static DAMAGES: [(usize, u8, usize, ErrorKind); 12] = [
    (0, 0x31, 0, ErrorKind::Tag),
    (0, 0x00, 0, ErrorKind::Tag),
    (1, 0x32, 1, ErrorKind::Truncated),
    (1, 0x80, 1, ErrorKind::Length),
    (1, 0x30, 40, ErrorKind::Truncated),
    (2, 0x04, 2, ErrorKind::Tag),
    (4, 0x00, 4, ErrorKind::Value),
    (5, 0x30, 5, ErrorKind::Tag),
    (6, 0x2D, 6, ErrorKind::Truncated),
    (39, 0xA1, 41, ErrorKind::Tag),
    (42, 0x07, 50, ErrorKind::TrailingData),
    (43, 0x80, 43, ErrorKind::Value),
];

#[test]
fn finds_faults_of_keys(rt: HostRuntime) {
    assert_equal(&rt, &key_fault(&KEY), &None);
    for &(at, byte, offset, kind) in DAMAGES.iter() {
        let mut key = KEY;
        key[at] = byte;
        assert_equal_for(&rt, &at, &key_fault(&key), &Some(Position { offset, kind }));
    }
}

/// A key on P-384 with a private key and a point that are too short, which no reader of keys tests.
static SHORT_KEY: [u8; 25] = [
    0x30, 0x17, 0x02, 0x01, 0x01, 0x04, 0x01, 0x55, 0xA0, 0x07, 0x06, 0x05, 0x2B, 0x81, 0x04, 0x00,
    0x22, 0xA1, 0x06, 0x03, 0x04, 0x00, 0x04, 0x07, 0x07,
];

/// For each damage to that key the index of the byte, its value, where the fault lies, and the
/// number of its kind, in the order of `KINDS`, as `tests/test_places.py` says them.
static SHORT_DAMAGES: [u8; 780] = [
    0, 0, 0, 2, 0, 128, 0, 2, 0, 129, 0, 2, 0, 161, 0, 2, 0, 255, 0, 2, 0, 49, 0, 2, 0, 47, 0, 2,
    0, 181, 0, 2, 1, 0, 2, 1, 1, 128, 1, 3, 1, 129, 1, 3, 1, 161, 1, 3, 1, 255, 1, 3, 1, 24, 1, 1,
    1, 22, 18, 1, 1, 129, 1, 3, 2, 0, 2, 2, 2, 128, 2, 2, 2, 129, 2, 2, 2, 161, 2, 2, 2, 255, 2, 2,
    2, 3, 2, 2, 2, 1, 2, 2, 2, 83, 2, 2, 3, 0, 4, 5, 3, 128, 3, 3, 3, 129, 3, 3, 3, 161, 3, 3, 3,
    255, 3, 3, 3, 2, 4, 5, 3, 0, 4, 5, 3, 74, 3, 1, 4, 0, 4, 5, 4, 128, 4, 5, 4, 129, 4, 5, 4, 161,
    4, 5, 4, 255, 4, 5, 4, 2, 4, 5, 4, 0, 4, 5, 4, 99, 4, 5, 5, 0, 5, 2, 5, 128, 5, 2, 5, 129, 5,
    2, 5, 161, 5, 2, 5, 255, 5, 2, 5, 5, 5, 2, 5, 3, 5, 2, 5, 6, 5, 2, 6, 0, 7, 4, 6, 128, 6, 3, 6,
    129, 6, 3, 6, 161, 6, 3, 6, 255, 6, 3, 6, 2, 9, 4, 6, 0, 7, 4, 6, 128, 6, 3, 7, 0, 0, 0, 7,
    128, 0, 0, 7, 129, 0, 0, 7, 161, 0, 0, 7, 255, 0, 0, 7, 86, 0, 0, 7, 84, 0, 0, 7, 50, 0, 0, 8,
    0, 8, 4, 8, 128, 8, 4, 8, 129, 8, 4, 8, 161, 10, 2, 8, 255, 8, 4, 8, 161, 10, 2, 8, 159, 8, 4,
    8, 74, 8, 4, 9, 0, 10, 1, 9, 128, 9, 3, 9, 129, 9, 3, 9, 161, 9, 3, 9, 255, 9, 3, 9, 8, 17, 4,
    9, 6, 11, 1, 9, 240, 9, 3, 10, 0, 10, 2, 10, 128, 10, 2, 10, 129, 10, 2, 10, 161, 10, 2, 10,
    255, 10, 2, 10, 7, 10, 2, 10, 5, 10, 2, 10, 146, 10, 2, 11, 0, 12, 5, 11, 128, 11, 3, 11, 129,
    11, 3, 11, 161, 11, 3, 11, 255, 11, 3, 11, 6, 11, 1, 11, 4, 16, 4, 11, 15, 11, 1, 12, 0, 0, 0,
    12, 128, 12, 5, 12, 129, 0, 0, 12, 161, 0, 0, 12, 255, 0, 0, 12, 44, 0, 0, 12, 42, 0, 0, 12,
    188, 0, 0, 13, 0, 0, 0, 13, 128, 12, 5, 13, 161, 0, 0, 13, 255, 0, 0, 13, 130, 0, 0, 13, 128,
    12, 5, 13, 181, 0, 0, 14, 0, 0, 0, 14, 128, 0, 0, 14, 129, 0, 0, 14, 161, 0, 0, 14, 255, 0, 0,
    14, 5, 0, 0, 14, 3, 0, 0, 14, 239, 0, 0, 15, 128, 12, 5, 15, 129, 0, 0, 15, 161, 0, 0, 15, 255,
    0, 0, 15, 1, 0, 0, 15, 255, 0, 0, 15, 99, 0, 0, 16, 0, 0, 0, 16, 128, 12, 5, 16, 129, 12, 5,
    16, 161, 12, 5, 16, 255, 12, 5, 16, 35, 0, 0, 16, 33, 0, 0, 16, 119, 0, 0, 17, 0, 17, 4, 17,
    128, 17, 4, 17, 129, 17, 4, 17, 255, 17, 4, 17, 162, 17, 4, 17, 160, 17, 4, 17, 241, 17, 4, 18,
    0, 19, 1, 18, 128, 18, 3, 18, 129, 18, 3, 18, 161, 18, 3, 18, 255, 18, 3, 18, 7, 18, 1, 18, 5,
    20, 1, 18, 84, 18, 1, 19, 0, 19, 2, 19, 128, 19, 2, 19, 129, 19, 2, 19, 161, 19, 2, 19, 255,
    19, 2, 19, 4, 19, 2, 19, 2, 19, 2, 19, 243, 19, 2, 20, 0, 21, 5, 20, 128, 20, 3, 20, 129, 20,
    3, 20, 161, 20, 3, 20, 255, 20, 3, 20, 5, 20, 1, 20, 3, 24, 4, 20, 215, 20, 3, 21, 128, 21, 5,
    21, 129, 21, 5, 21, 161, 21, 5, 21, 255, 21, 5, 21, 1, 21, 5, 21, 255, 21, 5, 21, 143, 21, 5,
    22, 0, 0, 0, 22, 128, 0, 0, 22, 129, 0, 0, 22, 161, 0, 0, 22, 255, 0, 0, 22, 5, 0, 0, 22, 3, 0,
    0, 22, 153, 0, 0, 23, 0, 0, 0, 23, 128, 0, 0, 23, 129, 0, 0, 23, 161, 0, 0, 23, 255, 0, 0, 23,
    8, 0, 0, 23, 6, 0, 0, 24, 0, 0, 0, 24, 128, 0, 0, 24, 129, 0, 0, 24, 161, 0, 0, 24, 255, 0, 0,
    24, 8, 0, 0, 24, 6, 0, 0, 24, 33, 0, 0,
];

/// The kinds, by their numbers.
static KINDS: [Option<ErrorKind>; 6] = [
    None,
    Some(ErrorKind::Truncated),
    Some(ErrorKind::Tag),
    Some(ErrorKind::Length),
    Some(ErrorKind::TrailingData),
    Some(ErrorKind::Value),
];

/// Returns that key with this byte at this index.
fn short_key(at: u8, byte: u8) -> [u8; 25] {
    let mut key = SHORT_KEY;
    if let Some(place) = key.get_mut(usize::from(at)) {
        *place = byte;
    }
    key
}

/// Returns the fault at this offset, of the kind of this number.
fn fault(offset: u8, number: u8) -> Option<Position> {
    let kind = (*KINDS.get(usize::from(number))?)?;
    let offset = usize::from(offset);
    Some(Position { offset, kind })
}

#[test]
fn finds_faults_as_another_reader_does(rt: HostRuntime) {
    for damage in SHORT_DAMAGES.chunks_exact(4) {
        let &[at, byte, offset, number] = damage else {
            continue;
        };
        let found = key_fault(&short_key(at, byte));
        assert_equal_for(&rt, &(at, byte), &found, &fault(offset, number));
    }
}

#[test]
fn finds_ends_of_keys(rt: HostRuntime) {
    let kind = ErrorKind::Truncated;
    for end in 0..KEY.len() {
        let offset = end.min(1);
        let found = key_fault(KEY.get(..end).unwrap_or_default());
        assert_equal_for(&rt, &end, &found, &Some(Position { offset, kind }));
    }
}

#[test]
fn finds_faults_of_trees(rt: HostRuntime) {
    assert_equal(&rt, &tree_fault(&KEY), &None);
    for (bytes, offset, kind) in [
        ([0x30, 0x02, 0x05, 0x00, 0x00], 4, ErrorKind::TrailingData),
        ([0x30, 0x03, 0x05, 0x00, 0x05], 5, ErrorKind::Truncated),
        ([0x30, 0x03, 0x05, 0x02, 0x00], 3, ErrorKind::Truncated),
        ([0x30, 0x03, 0x1F, 0x01, 0x00], 2, ErrorKind::Tag),
        ([0x30, 0x03, 0x04, 0x81, 0x00], 3, ErrorKind::Length),
        ([0x30, 0x03, 0xA0, 0x01, 0x00], 4, ErrorKind::Tag),
    ] {
        assert_equal(&rt, &tree_fault(&bytes), &Some(Position { offset, kind }));
    }
}

/// Puts the header of a SEQUENCE before its content, which has at most 255 bytes.
fn wrap(bytes: &mut Vec<u8>) -> Result<(), AllocError> {
    let count = u8::try_from(bytes.len()).unwrap_or_default();
    bytes.insert(0, count)?;
    if count > 127 {
        bytes.insert(0, 0x81)?;
    }
    bytes.insert(0, 0x30)?;
    Ok(())
}

#[test]
fn finds_depths(rt: HostRuntime) -> Result<(), Fail> {
    let mut bytes = vec![in rt.alloc(); 0x05, 0x00]?;
    for levels in 2..=80usize {
        wrap(&mut bytes)?;
        // The elements below level 64 have short headers.
        let below = levels.saturating_sub(64).saturating_mul(2);
        let offset = bytes.len().saturating_sub(below);
        let kind = ErrorKind::Depth;
        let fault = (below > 0).then_some(Position { offset, kind });
        assert_equal_for(&rt, &levels, &tree_fault(&bytes), &fault);
    }
    Ok(())
}
