//! Points from outside, what is printed of them, and the calls that allocate.

ghost use Rattle.std.specs.Prelude.{◌+◌, ◌*◌, ◌%◌, ◌^◌, fold};

use crate::helpers::{
    assert_debug_options, assert_debug_texts, assert_debugged, assert_displayed, assert_equal,
    assert_equal_for, assert_printed,
};
use sec1::Error;
use sec1::der::{self, ErrorKind};
use sec1::point::Coordinates::{Compact, Compressed, Hybrid, Uncompressed};
use sec1::point::{
    Coordinates, EncodedPoint, EncodedPoint28, EncodedPoint32, EncodedPoint48, EncodedPoint66, Tag,
};
use std::alloc::Global;
use std::cmp::Ordering;
use std::collections::HashSet;
use std::fmt::Display;
use std::hash::{Hash, Hasher};
use std::process::Abort;
use std::str::FromStr;
use std::test::Fail;

type Point1 = EncodedPoint<1, 3>;

// Each encoding is less than the next.
static ORDERED: [&[u8]; 8] = [
    &[0],
    &[2, 0xFF],
    &[3, 0],
    &[4, 1, 0xFF],
    &[4, 2, 0],
    &[5, 0xFF],
    &[6, 0, 0],
    &[7, 0, 1],
];

/// The error by which bytes are refused as a point.
const REFUSED: Option<Error> = Some(Error::PointEncoding);

// 02 and 32 bytes 11.
fn compressed_32() -> [u8; 33] {
    let mut bytes = [0x11; 33];
    bytes[0] = 2;
    bytes
}

// 04, 32 bytes 11 and 32 bytes 22.
fn uncompressed_32() -> [u8; 65] {
    let mut bytes = [0x22; 65];
    bytes[0] = 4;
    for i in 1..33 {
        bytes[i] = 0x11;
    }
    bytes
}

/// Returns the point of these bytes. Fails the test if there is none.
fn point_1(rt: &impl Abort, bytes: &[u8]) -> Point1 {
    Point1::from_bytes(bytes).expect(rt, "no point")
}

/// Returns the point of these bytes. Fails the test if there is none.
fn point_32(rt: &impl Abort, bytes: &[u8]) -> EncodedPoint32 {
    EncodedPoint32::from_bytes(bytes).expect(rt, "no point")
}

#[test]
fn has_no_points_of_other_sizes(rt: HostRuntime) {
    let fits = [
        Point1::fits(),
        EncodedPoint32::fits(),
        EncodedPoint::<32, 64>::fits(),
        EncodedPoint::<0, 1>::fits(),
    ];
    assert_equal(&rt, &fits, &[true, true, false, false]);
    let even = EncodedPoint::<32, 64>::from_bytes(&[0]).err();
    let empty = EncodedPoint::<0, 1>::from_bytes(&[0]).err();
    assert_equal(&rt, &[even, empty], &[REFUSED; 2]);
}

/// Returns whether the point is compact, compressed, hybrid, and the identity.
fn forms<const N: usize, const L: usize>(point: &EncodedPoint<N, L>) -> [bool; 4] {
    [
        point.is_compact(),
        point.is_compressed(),
        point.is_hybrid(),
        point.is_identity(),
    ]
}

/// The tags of a point and of its coordinates, these, its x and its y.
type Facts<'a, const N: usize> = (
    (Tag, Tag),
    Coordinates<'a, N>,
    (Option<&'a [u8; N]>, Option<&'a [u8; N]>),
);

/// Returns what is known of a point.
fn facts<const N: usize, const L: usize>(point: &EncodedPoint<N, L>) -> Facts<'_, N> {
    let coordinates = point.coordinates();
    (
        (point.tag(), coordinates.tag()),
        coordinates,
        (point.x(), point.y()),
    )
}

#[test]
fn borrows_coordinates(rt: HostRuntime) {
    let (x, y) = (&[0x11; 32], &[0x22; 32]);
    let whole = EncodedPoint32::from_affine_coordinates(x, y, false);
    let bytes = uncompressed_32();
    let found = (whole.as_bytes(), whole.len());
    assert_equal(&rt, &found, &(bytes.as_slice(), 65));
    let tags = (Tag::Uncompressed, Tag::Uncompressed);
    let wanted = (tags, Uncompressed { x, y }, (Some(x), Some(y)));
    assert_equal(&rt, &facts(&whole), &wanted);
    let untagged = EncodedPoint32::from_untagged_bytes(&uncompressed_32()[1..]);
    assert_equal(&rt, &untagged, &whole);
}

#[test]
fn borrows_coordinates_of_compressed_points(rt: HostRuntime) {
    let x = &[0x11; 32];
    let point = EncodedPoint32::from_affine_coordinates(x, &[0x22; 32], true);
    let bytes = compressed_32();
    let found = (point.as_bytes(), point.len(), forms(&point));
    let wanted = (bytes.as_slice(), 33, [false, true, false, false]);
    assert_equal(&rt, &found, &wanted);
    let (tag, y_is_odd) = (Tag::CompressedEvenY, false);
    let wanted = ((tag, tag), Compressed { x, y_is_odd }, (Some(x), None));
    assert_equal(&rt, &facts(&point), &wanted);
}

#[test]
fn distinguishes_compact_and_hybrid_points(rt: HostRuntime) {
    let compact = point_1(&rt, &[5, 7]);
    assert_equal(&rt, &forms(&compact), &[true, false, false, false]);
    let hybrid = point_1(&rt, &[4, 1, 3]).to_hybrid();
    assert_equal(&rt, &forms(&hybrid), &[false, false, true, false]);
    let odd = point_1(&rt, &[7, 1, 3]);
    let (x, y) = (&[1], &[3]);
    let tags = (Tag::HybridOddY, Tag::HybridOddY);
    let wanted = (tags, Hybrid { x, y }, (Some(x), Some(y)));
    assert_equal(&rt, &facts(&odd), &wanted);
}

#[test]
fn prints_coordinates(rt: HostRuntime) {
    let (x, y) = (&[1, 255], &[0, 3]);
    let identity = Coordinates::<'_, 2>::Identity;
    assert_debug_texts(&rt, &identity, "Identity", "Identity");
    assert_debug_texts(
        &rt,
        &Compact { x },
        "Compact { x: [1, 255] }",
        "Compact {\n    x: [\n        1,\n        255,\n    ],\n}",
    );
    let y_is_odd = true;
    assert_debug_texts(
        &rt,
        &Compressed { x, y_is_odd },
        "Compressed { x: [1, 255], y_is_odd: true }",
        "Compressed {\n    x: [\n        1,\n        255,\n    ],\n    y_is_odd: true,\n}",
    );
    assert_debug_texts(
        &rt,
        &Uncompressed { x, y },
        "Uncompressed { x: [1, 255], y: [0, 3] }",
        "Uncompressed {\n    x: [\n        1,\n        255,\n    ],\n    y: [\n        0,\n        3,\n    ],\n}",
    );
    assert_debug_texts(
        &rt,
        &Hybrid { x, y },
        "Hybrid { x: [1, 255], y: [0, 3] }",
        "Hybrid {\n    x: [\n        1,\n        255,\n    ],\n    y: [\n        0,\n        3,\n    ],\n}",
    );
}

/// A coordinate of 32 bytes, and what is printed of it.
static X: [u8; 32] = [
    100, 101, 102, 103, 104, 105, 106, 107, 108, 109, 110, 111, 112, 113, 114, 115, 116, 117, 118,
    119, 120, 121, 122, 123, 124, 125, 126, 127, 128, 129, 130, 131,
];

static X_LINES: &str =
    "Compact {\n    x: [\n        100,\n        101,\n        102,\n        103,\n        104,\n        105,\n        106,\n        107,\n        108,\n        109,\n        110,\n        111,\n        112,\n        113,\n        114,\n        115,\n        116,\n        117,\n        118,\n        119,\n        120,\n        121,\n        122,\n        123,\n        124,\n        125,\n        126,\n        127,\n        128,\n        129,\n        130,\n        131,\n    ],\n}";

#[test]
fn prints_each_byte_of_a_coordinate(rt: HostRuntime) {
    let printed = format!(in rt.alloc(); "{:#?}", Compact { x: &X });
    assert_printed(&rt, printed, X_LINES);
}

#[test]
fn prints_the_same_whatever_is_asked(rt: HostRuntime) {
    assert_displayed(&rt, &point_1(&rt, &[2, 0xAF]), "02AF");
    let error = Error::Asn1(der::Error::from(ErrorKind::Value));
    assert_displayed(
        &rt,
        &error,
        "SEC1 ASN.1 error: content not valid for its tag",
    );
    assert_debug_texts(
        &rt,
        &error,
        "Asn1(Error { kind: Value })",
        "Asn1(\n    Error {\n        kind: Value,\n    },\n)",
    );
}

#[test]
fn prints_tags(rt: HostRuntime) {
    let tag = Tag::HybridOddY;
    let texts = "HybridOddY|HybridOddY|HybridOddY|HybridOddY|HybridOddY";
    assert_debug_options(&rt, &tag, texts, "HybridOddY");
    assert_debugged(&rt, &tag, "HybridOddY");
}

/// Returns the tag, the length and the y of the point of these bytes, and, of a compressed one,
/// whether its y is odd.
fn parity(rt: &impl Abort, bytes: [u8; 33]) -> (Tag, usize, bool, Option<bool>) {
    let point = point_32(rt, &bytes);
    let is_odd = match point.coordinates() {
        Compressed { y_is_odd, .. } => Some(y_is_odd),
        _ => None,
    };
    (point.tag(), point.len(), point.y().is_none(), is_odd)
}

#[test]
fn reads_parities(rt: HostRuntime) {
    let mut bytes = [0; 33];
    bytes[0] = 2;
    bytes[1] = 1;
    let even = (Tag::CompressedEvenY, 33, true, Some(false));
    assert_equal(&rt, &parity(&rt, bytes), &even);
    bytes[0] = 3;
    bytes[1] = 2;
    let odd = (Tag::CompressedOddY, 33, true, Some(true));
    assert_equal(&rt, &parity(&rt, bytes), &odd);
}

/// Returns the bytes, the length and the tag of the point, and whether it has an x and a y.
fn parts<const N: usize, const L: usize>(
    point: &EncodedPoint<N, L>,
) -> (&[u8], usize, Tag, [bool; 2]) {
    (
        point.as_bytes(),
        point.len(),
        point.tag(),
        [point.x().is_some(), point.y().is_some()],
    )
}

/// The parts of an identity.
static IDENTITY: (&[u8], usize, Tag, [bool; 2]) = (&[0], 1, Tag::Identity, [false, false]);

#[test]
fn has_identities(rt: HostRuntime) {
    let identity = EncodedPoint32::identity();
    assert_equal(&rt, &forms(&identity), &[false, false, false, true]);
    assert_equal(&rt, &parts(&identity), &IDENTITY);
    assert_equal(&rt, &EncodedPoint32::from_bytes(&[0]), &Ok(identity));
    assert_equal(&rt, &parts(&Point1::identity()), &IDENTITY);
}

#[test]
fn has_identities_by_default(rt: HostRuntime) {
    let are_equal = [
        EncodedPoint28::default() == EncodedPoint28::identity(),
        EncodedPoint32::default() == EncodedPoint32::identity(),
        EncodedPoint48::default() == EncodedPoint48::identity(),
        EncodedPoint66::default() == EncodedPoint66::identity(),
    ];
    assert_equal(&rt, &are_equal, &[true; 4]);
    assert_equal(&rt, &parts(&EncodedPoint32::default()), &IDENTITY);
}

#[test]
fn has_tags(rt: HostRuntime) {
    let lengths = [
        Tag::Identity.message_len(66),
        Tag::Compact.message_len(66),
        Tag::Uncompressed.message_len(66),
    ];
    assert_equal(&rt, &lengths, &[1, 67, 133]);
    let found = [Tag::from_u8(6), Tag::from_u8(7), Tag::try_from(7)];
    let wanted = [
        Ok(Tag::HybridEvenY),
        Ok(Tag::HybridOddY),
        Ok(Tag::HybridOddY),
    ];
    assert_equal(&rt, &found, &wanted);
    assert_equal(&rt, &u8::from(Tag::HybridOddY), &7);
    for byte in [1, 8, 0xFF] {
        assert_equal(&rt, &Tag::from_u8(byte), &Err(Error::PointEncoding));
    }
}

/// Fails the test unless the first point is less than the second.
fn assert_less(rt: &impl Abort, lower: &[u8], higher: &[u8]) {
    let low = point_1(rt, lower);
    let high = point_1(rt, higher);
    let found = (low < high, high > low, low != high);
    assert_equal_for(rt, &(lower, higher), &found, &(true, true, true));
}

#[test]
fn orders_points(rt: HostRuntime) {
    for (i, &lower) in ORDERED.iter().enumerate() {
        for &higher in ORDERED[i + 1..].iter() {
            assert_less(&rt, lower, higher);
        }
    }
    let small = point_32(&rt, compressed_32().as_slice());
    let large = point_32(&rt, uncompressed_32().as_slice());
    assert_equal(&rt, &(small < large), &true);
}

/// A point whose buffer has a y after the encoding is equal to one without.
#[test]
fn compares_points_by_their_encodings(rt: HostRuntime) {
    let compressed = point_1(&rt, &[4, 1, 0xFF]).compress();
    let read = point_1(&rt, &[3, 1]);
    assert_equal(&rt, &compressed, &read);
    assert_equal(&rt, &compressed.ct_eq(&read), &true);
    assert_equal(&rt, &compressed.cmp(&read), &Ordering::Equal);
    for uncompressed in [[4, 1, 1], [4, 1, 3]] {
        assert_equal(&rt, &point_1(&rt, &uncompressed).compress(), &read);
    }
}

// The bytes that were fed, up to 15 of them, as the digits after the first one, 1, of a number in
// base 256.
#[derive(Drop)]
struct Recorder(u128);

impl Hasher for Recorder {
    ghost write = { λ fed bytes. record {
      0 =
          fold (λ number byte. number % 2 ^ 120 * 256 + byte) fed.0 bytes;
    } };

    ghost finish = { λ fed. fed.0 % 2 ^ 64 };

    fn finish(&self) -> u64 {
        (self.0 % (1 << 64)) as u64
    }

    fn write(&mut self, bytes: &[u8]) {
        for byte in bytes {
            self.0 = self.0 % (1 << 120) * 256 + *byte as u128;
        }
    }
}

fn fed_by<T: Hash>(value: &T) -> u128 {
    let mut recorder = Recorder(1);
    value.hash(&mut recorder);
    recorder.0
}

#[test]
fn hashes_points(rt: HostRuntime) -> Result<(), Fail> {
    let fed = fed_by(&Point1::from_str("02AF")?);
    let bytes: &[u8] = &[2, 0xAF];
    assert_equal(&rt, &fed, &fed_by(&bytes));
    // no digit was lost
    assert_equal(&rt, &(fed < 1 << 120 && fed > 1 << 16), &true);
    let wide = EncodedPoint32::identity();
    assert_equal(&rt, &fed_by(&wide), &fed_by(&wide.as_bytes()));
    Ok(())
}

/// Returns whether each of these points is added to a set in turn, the number of those that it
/// then has, and whether it has the first.
fn added(alloc: Global, points: [Point1; 4]) -> Result<([bool; 4], usize, bool), Fail> {
    let mut set = HashSet::new(alloc);
    let mut added = [false; 4];
    for place in 0..4 {
        added[place] = set.insert(points[place])?;
    }
    Ok((added, set.len(), set.contains(&points[0])))
}

#[test]
fn finds_points_in_sets(rt: HostRuntime) -> Result<(), Fail> {
    let points = [
        Point1::from_str("02AF")?,
        point_1(&rt, &[4, 0xAF, 2]).compress(),
        point_1(&rt, &[4, 1, 0xFF]).compress(),
        point_1(&rt, &[3, 1]),
    ];
    let wanted = ([true, false, true, false], 2, true);
    assert_equal(&rt, &added(rt.alloc(), points)?, &wanted);
    Ok(())
}

/// Returns whether each selection between the two returns the one that is chosen.
fn selects<const N: usize, const L: usize>(
    a: &EncodedPoint<N, L>,
    b: &EncodedPoint<N, L>,
) -> [bool; 4] {
    [
        EncodedPoint::conditional_select(a, b, false).as_bytes() == a.as_bytes(),
        EncodedPoint::conditional_select(a, b, true).as_bytes() == b.as_bytes(),
        a.ct_select(b, false).as_bytes() == a.as_bytes(),
        a.ct_select(b, true).as_bytes() == b.as_bytes(),
    ]
}

/// Returns whether an assignment changes the point to the other if it is chosen, and only then.
fn assigns<const N: usize, const L: usize>(
    a: &EncodedPoint<N, L>,
    b: &EncodedPoint<N, L>,
) -> [bool; 4] {
    let mut point = *a;
    point.ct_assign(b, false);
    let is_kept = point.as_bytes() == a.as_bytes();
    point.ct_assign(b, true);
    let is_assigned = point.as_bytes() == b.as_bytes();
    [is_kept, is_assigned, point.ct_eq(b), !point.ct_eq(a)]
}

/// Fails the test unless the two are selected and assigned as it is chosen.
fn assert_selects<const N: usize, const L: usize>(
    rt: &impl Abort,
    a: EncodedPoint<N, L>,
    b: EncodedPoint<N, L>,
) {
    let found = (selects(&a, &b), assigns(&a, &b));
    assert_equal(rt, &found, &([true; 4], [true; 4]));
    let mut point = b;
    point.zeroize();
    assert_equal(rt, &point.as_bytes(), &[0].as_slice());
}

#[test]
fn selects_points(rt: HostRuntime) {
    let whole = point_1(&rt, &[4, 1, 2]);
    assert_selects(&rt, whole, Point1::identity());
    assert_selects(&rt, Point1::identity(), whole);
    let compressed = point_32(&rt, compressed_32().as_slice());
    let uncompressed = point_32(&rt, uncompressed_32().as_slice());
    assert_selects(&rt, compressed, uncompressed);
}

#[test]
fn assigns_points(rt: HostRuntime) {
    let whole = point_1(&rt, &[4, 1, 2]);
    let mut assigned = whole;
    assigned.ct_assign(&Point1::identity(), true);
    assert_equal(&rt, &parts(&assigned), &IDENTITY);
    assert_equal(&rt, &assigned.ct_eq(&Point1::identity()), &true);
    assigned.ct_assign(&whole, true);
    let found = (assigned.as_bytes(), assigned.len());
    assert_equal(&rt, &found, &([4, 1, 2].as_slice(), 3));
}
