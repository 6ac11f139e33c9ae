//! Records of other shapes than that of an EC private key, by bytes that were put together by hand.
ghost use Rattle.std.specs.Option.{option_map};
ghost use Rattle.std.specs.Prelude.{ℕ, List, Option, refl};

use crate::helpers::{assert_equal, assert_equal_for, read_and_write, refusal_of, write};
use sec1_der::{
    Context0, Context1, Context2, Context3, Distinct, ErrorKind, Explicit, ExplicitBits, FixedTag,
    ObjectIdentifier, Octets, Optional, Primitive0, Primitive1, Primitive2, Primitive3, Record,
    Required, SmallInteger, Tagged, VersionOne, WholeBits, read_der,
};
use std::alloc::Global;
use std::marker::Model;
use std::process::Abort;

/// Four parts: a version and an identifier, and one of each that may be absent.
#[derive(Clone, Copy)]
struct Inner {
    identifier: ObjectIdentifier,
    version: Option<VersionOne>,
    other: Option<ObjectIdentifier>,
}

/// The values of an [`Inner`].
type InnerValues = (
    ObjectIdentifier,
    Option<VersionOne>,
    Option<ObjectIdentifier>,
);

impl Inner {
    /// Returns what may be compared and printed.
    fn values(self) -> InnerValues {
        (self.identifier, self.version, self.other)
    }
}

impl Record for Inner {
    type Parts = (
        (Required<SmallInteger<0>>, Required<ObjectIdentifier>),
        (Optional<VersionOne>, Optional<ObjectIdentifier>),
    );

    ghost parts = { λ inner. ((record {}, inner.identifier), (inner.version, inner.other)) };

    ghost of_parts = { λ pairs.
        record { identifier = pairs.0.1; version = pairs.1.0; other = pairs.1.1 } };

    fn from_parts(pairs: Self::Parts) -> Self {
        let ((_, Required(identifier)), (Optional(version), Optional(other))) = pairs;
        Inner {
            identifier,
            version,
            other,
        }
    }

    fn to_parts(&self) -> Self::Parts {
        (
            (Required(SmallInteger), Required(self.identifier)),
            (Optional(self.version), Optional(self.other)),
        )
    }

    ghost same = { λ _. refl };
}

impl Distinct for Inner {
    ghost distinct = { refl };
}

/// Two records of four parts. Four records of four are in [`nested`](crate::der::nested).
#[derive(Clone, Copy)]
struct Pair {
    first: Inner,
    second: Option<Inner>,
}

impl Record for Pair {
    type Parts = (Required<Inner>, Optional<Inner>);

    ghost parts = { λ pair. (pair.first, pair.second) };

    ghost of_parts = { λ pairs. record { first = pairs.0; second = pairs.1 } };

    fn from_parts(pairs: Self::Parts) -> Self {
        let (Required(first), Optional(second)) = pairs;
        Pair { first, second }
    }

    fn to_parts(&self) -> Self::Parts {
        (Required(self.first), Optional(self.second))
    }

    ghost same = { λ _. refl };
}

impl Distinct for Pair {
    ghost distinct = { refl };
}

/// A [`Pair`], of which the first has no part that may be absent, and the second has all.
static PAIR: [u8; 24] = [
    0x30, 0x16, 0x30, 0x06, 0x02, 0x01, 0x00, 0x06, 0x01, 0x07, 0x30, 0x0C, 0x02, 0x01, 0x00, 0x06,
    0x01, 0x07, 0x02, 0x01, 0x01, 0x06, 0x01, 0x08,
];

/// A [`Pair`] without the second.
static ALONE: [u8; 10] = [0x30, 0x08, 0x30, 0x06, 0x02, 0x01, 0x00, 0x06, 0x01, 0x07];

/// The values of a [`Pair`].
type Values = (InnerValues, Option<InnerValues>);

/// Reads and writes a [`Pair`], and returns what it has.
fn read_pair(rt: &impl Abort, alloc: Global, bytes: &[u8]) -> sec1_der::Result<Values> {
    let pair: Pair = read_and_write(rt, alloc, bytes)?;
    let (first, second) = (pair.first, pair.second);
    let second = match second {
        Some(inner) => Some(inner.values()),
        None => None,
    };
    Ok((first.values(), second))
}

/// Returns the identifier whose content is this byte.
pub(crate) fn identifier(rt: &impl Abort, byte: u8) -> ObjectIdentifier {
    ObjectIdentifier::from_bytes(&[byte]).expect(rt, "an identifier")
}

#[test]
fn reads_and_writes_records_in_records(rt: HostRuntime) {
    let (seven, eight) = (identifier(&rt, 7), identifier(&rt, 8));
    let wanted = (
        (seven, None, None),
        Some((seven, Some(VersionOne), Some(eight))),
    );
    assert_equal(&rt, &read_pair(&rt, rt.alloc(), &PAIR), &Ok(wanted));
    assert_equal(&rt, &Pair::TAG.byte(), &0x30);
}

#[test]
fn reads_and_writes_a_record_without_the_last(rt: HostRuntime) {
    let wanted = ((identifier(&rt, 7), None, None), None);
    assert_equal(&rt, &read_pair(&rt, rt.alloc(), &ALONE), &Ok(wanted));
}

/// An [`Inner`] whose parts are in another order, are cut off, have another value, or are repeated.
static OTHER_RECORDS: [(&[u8], ErrorKind); 7] = [
    (b"\x30\x06\x06\x01\x07\x02\x01\x00", ErrorKind::Tag),
    (b"\x30\x03\x02\x01\x00", ErrorKind::Truncated),
    (b"\x30\x06\x02\x01\x01\x06\x01\x07", ErrorKind::Value),
    (b"\x30\x06\x02\x01\x00\x06\x01\x80", ErrorKind::Value),
    (
        b"\x30\x09\x02\x01\x00\x06\x01\x07\x02\x01\x02",
        ErrorKind::Value,
    ),
    (
        b"\x30\x0C\x02\x01\x00\x06\x01\x07\x06\x01\x08\x02\x01\x01",
        ErrorKind::TrailingData,
    ),
    (
        b"\x30\x0C\x02\x01\x00\x06\x01\x07\x02\x01\x01\x02\x01\x01",
        ErrorKind::TrailingData,
    ),
];

#[test]
fn refuses_other_records(rt: HostRuntime) {
    for &(bytes, kind) in OTHER_RECORDS.iter() {
        assert_equal_for(&rt, &bytes, &refusal_of::<Inner>(bytes), &Some(kind));
    }
}

/// Bytes that are borrowed.
#[derive(Drop)]
struct Borrowed<'a> {
    octets: &'a [u8],
    bits: Option<&'a [u8]>,
    public_key: Option<&'a [u8]>,
    field: Option<&'a [u8]>,
}

impl<'a> Model for Borrowed<'a> {
    ghost Value = { List ℕ × (Option (List ℕ) × (Option (List ℕ) × Option (List ℕ))) };

    ghost view = { λ borrowed. (
      borrowed.octets.now,
      (
        option_map (λ bytes. bytes.now) borrowed.bits,
        (
          option_map (λ bytes. bytes.now) borrowed.public_key,
          option_map (λ bytes. bytes.now) borrowed.field,
        ),
      ),
    ) };
}

impl<'a> Record for Borrowed<'a> {
    type Parts = (
        Required<Octets<'a>>,
        (
            Optional<WholeBits<'a>>,
            (
                Optional<ExplicitBits<'a>>,
                Optional<Explicit<Context3, Octets<'a>>>,
            ),
        ),
    );

    ghost parts = { λ borrowed. borrowed };

    ghost of_parts = { λ pairs. pairs };

    fn from_parts(pairs: Self::Parts) -> Self {
        let (Required(octets), (Optional(bits), (Optional(public_key), Optional(field)))) = pairs;
        Borrowed {
            octets: octets.bytes,
            bits: match bits {
                Some(bits) => Some(bits.bytes),
                None => None,
            },
            public_key: match public_key {
                Some(bits) => Some(bits.bytes),
                None => None,
            },
            field: match field {
                Some(field) => Some(field.value.bytes),
                None => None,
            },
        }
    }

    fn to_parts(&self) -> Self::Parts {
        let bits = match self.bits {
            Some(bytes) => Some(WholeBits { bytes }),
            None => None,
        };
        let public_key = match self.public_key {
            Some(bytes) => Some(ExplicitBits { bytes }),
            None => None,
        };
        let field = match self.field {
            Some(bytes) => Some(Explicit::new(Octets { bytes })),
            None => None,
        };
        let bytes = self.octets;
        (
            Required(Octets { bytes }),
            (Optional(bits), (Optional(public_key), Optional(field))),
        )
    }

    ghost same = { λ _. refl };
}

impl Distinct for Borrowed<'_> {
    ghost distinct = { refl };
}

/// A [`Borrowed`] with all parts.
static BORROWED: [u8; 20] = [
    0x30, 0x12, 0x04, 0x02, 0xAA, 0xBB, 0x03, 0x02, 0x00, 0xCC, 0xA1, 0x04, 0x03, 0x02, 0x00, 0xDD,
    0xA3, 0x02, 0x04, 0x00,
];

/// Reads and writes a [`Borrowed`].
fn read_borrowed<'a>(
    rt: &impl Abort,
    alloc: Global,
    bytes: &'a [u8],
) -> sec1_der::Result<Borrowed<'a>> {
    read_and_write(rt, alloc, bytes)
}

/// Reads bytes, writes what they are and reads it again. Fails the test if there is none.
fn parts_of<'a>(rt: &impl Abort, alloc: Global, bytes: &'a [u8]) -> Parts<'a> {
    let read = read_borrowed(rt, alloc, bytes).expect(rt, "a record");
    let mut room = [0; 20];
    assert_equal(rt, &write(&read, &mut room), &Ok(bytes));
    (read.octets, read.bits, read.public_key, read.field)
}

/// The parts of a [`Borrowed`].
type Parts<'a> = (
    &'a [u8],
    Option<&'a [u8]>,
    Option<&'a [u8]>,
    Option<&'a [u8]>,
);

/// The value of [`BORROWED`].
static BORROWED_PARTS: Parts = (b"\xAA\xBB", Some(b"\xCC"), Some(b"\xDD"), Some(b""));

#[test]
fn reads_and_writes_borrowed_parts(rt: HostRuntime) {
    let whole = parts_of(&rt, rt.alloc(), &BORROWED);
    assert_equal(&rt, &whole, &BORROWED_PARTS);
    let short = parts_of(&rt, rt.alloc(), &[0x30, 0x02, 0x04, 0x00]);
    assert_equal(&rt, &short, &(b"".as_slice(), None, None, None));
}

/// Unused bits in `[1]` are refused after the bytes that follow the BIT STRING.
static UNUSED_BITS: [(&[u8], ErrorKind); 4] = [
    (b"\x30\x06\x04\x00\x03\x02\x04\xF0", ErrorKind::Value),
    (
        b"\x30\x08\x04\x00\xA1\x04\x03\x02\x04\xF0",
        ErrorKind::Value,
    ),
    (
        b"\x30\x09\x04\x00\xA1\x05\x03\x02\x04\xF0\x00",
        ErrorKind::TrailingData,
    ),
    (
        b"\x30\x08\x04\x00\xA1\x04\x03\x02\x04\xF8",
        ErrorKind::Value,
    ),
];

#[test]
fn refuses_unused_bits(rt: HostRuntime) {
    for &(bytes, kind) in UNUSED_BITS.iter() {
        assert_equal_for(&rt, &bytes, &refusal_of::<Borrowed>(bytes), &Some(kind));
    }
}

/// Reads an identifier inside an element with this tag byte as one inside the tag of `K`. Returns
/// whether writing it gives the same bytes, or the kind of the error.
fn reads_inside<K: Tagged>(tag: u8) -> Result<bool, ErrorKind> {
    let bytes = [tag, 0x03, 0x06, 0x01, 0x07];
    match read_der::<Explicit<K, ObjectIdentifier>>(&bytes) {
        Ok(field) => {
            let mut room = [0; 5];
            Ok(
                field.value.as_bytes() == [0x07].as_slice()
                    && write(&field, &mut room) == Ok(&bytes),
            )
        }
        Err(error) => Err(error.kind),
    }
}

#[test]
fn reads_and_writes_explicit_tags(rt: HostRuntime) {
    let found = [
        reads_inside::<Context0>(0xA0),
        reads_inside::<Context1>(0xA1),
        reads_inside::<Context2>(0xA2),
        reads_inside::<Context3>(0xA3),
        reads_inside::<Primitive0>(0x80),
        reads_inside::<Primitive1>(0x81),
        reads_inside::<Primitive2>(0x82),
        reads_inside::<Primitive3>(0x83),
    ];
    assert_equal(&rt, &found, &[Ok(true); 8]);
    let other = reads_inside::<Context0>(0xA1);
    assert_equal(&rt, &other, &Err(ErrorKind::Tag));
}
