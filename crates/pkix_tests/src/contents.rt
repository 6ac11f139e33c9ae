//! The tests of contents, at values that the standards give and at their neighbours.
use crate::{assert_equal, assert_equal_for};
use der_types::{Boolean, DateTime, GeneralizedTime, Kind, Unsigned, UtcTime, kind};
use sec1_der::{Result, read_der};
use std::test::Fail;

/// Contents, whether they are an INTEGER's, and whether they are that of one which isn't negative
/// (X.690 section 8.3).
static INTEGERS: [(&[u8], bool, bool); 12] = [
    (b"", false, false),
    (b"\x00", true, true),
    (b"\x7F", true, true),
    (b"\x80", true, false),
    (b"\xFF", true, false),
    (b"\x00\x7F", false, false),
    (b"\x00\x80", true, true),
    (b"\x01\x00", true, true),
    (b"\xFF\x7F", true, false),
    (b"\xFF\x80", false, false),
    (b"\x00\x00\x80", false, false),
    (b"\x00\xFF\xFF\xFF", true, true),
];

#[test]
fn recognizes_integers(rt: HostRuntime) {
    for &(bytes, integer, unsigned) in INTEGERS.iter() {
        assert_equal_for(&rt, &bytes, &kind::Integer::test(bytes), &integer);
        assert_equal_for(&rt, &bytes, &Unsigned::new(bytes).is_ok(), &unsigned);
    }
}

/// Elements, and whether they are a BOOLEAN's (X.690 section 11.1).
static BOOLEANS: [(&[u8], bool); 5] = [
    (b"\x01\x01\xFF", true),
    (b"\x01\x01\x00", true),
    (b"\x01\x01\x01", false),
    (b"\x01\x00", false),
    (b"\x01\x02\xFF\xFF", false),
];

#[test]
fn recognizes_booleans(rt: HostRuntime) {
    for &(bytes, boolean) in BOOLEANS.iter() {
        assert_equal_for(&rt, &bytes, &read_der::<Boolean>(bytes).is_ok(), &boolean);
    }
}

/// Contents, and whether they are an OBJECT IDENTIFIER's: 2.999.3 and 2.100.3, the examples of
/// X.690 section 8.19.5; one with an arc of 128 bits, all set, below 2.25; and 0.0.
static IDENTIFIERS: [(&[u8], bool); 8] = [
    (b"\x88\x37\x03", true),
    (b"\x81\x34\x03", true),
    (
        b"\x69\x83\xFF\xFF\xFF\xFF\xFF\xFF\xFF\xFF\xFF\xFF\xFF\xFF\xFF\xFF\xFF\xFF\xFF\x7F",
        true,
    ),
    (b"\x00", true),
    (b"", false),
    (b"\x88", false),
    (b"\x80\x37\x03", false),
    (b"\x2A\x80\x01", false),
];

#[test]
fn recognizes_identifiers(rt: HostRuntime) {
    for &(bytes, identifier) in IDENTIFIERS.iter() {
        let is_identifier = kind::ObjectIdentifier::test(bytes);
        assert_equal_for(&rt, &bytes, &is_identifier, &identifier);
    }
}

/// Contents, and whether they are a UTCTime's. The first three and the first two that are refused
/// are the examples of X.690 section 11.8.
static UTC_TIMES: [(&str, bool); 16] = [
    ("920521000000Z", true),
    ("920622123421Z", true),
    ("920722132100Z", true),
    ("920520240000Z", false),
    ("9207221321Z", false),
    ("000229000000Z", true),
    ("500228235959Z", true),
    ("500229000000Z", false),
    ("491231235959Z", true),
    ("490229000000Z", false),
    ("911301000000Z", false),
    ("910001000000Z", false),
    ("910100000000Z", false),
    ("910431000000Z", false),
    ("910506234540+0000", false),
    ("9105O6234540Z", false),
];

#[test]
fn recognizes_utc_times(rt: HostRuntime) {
    for &(text, time) in UTC_TIMES.iter() {
        let is_time = kind::UtcTime::test(text.as_bytes());
        assert_equal_for(&rt, &text, &is_time, &time);
    }
}

/// Contents, and whether they are a GeneralizedTime's. The first three and the first three that are
/// refused are the examples of X.690 section 11.7; 99991231235959Z is that of RFC 5280
/// section 4.1.2.5.
static GENERALIZED_TIMES: [(&str, bool); 17] = [
    ("19920521000000Z", true),
    ("19920622123421Z", true),
    ("19920722132100.3Z", true),
    ("19920520240000Z", false),
    ("19920622123421.0Z", false),
    ("19920722132100.30Z", false),
    ("99991231235959Z", true),
    ("20000229000000Z", true),
    ("19000229000000Z", false),
    ("21000229000000Z", false),
    ("20240229000000Z", true),
    ("20230229000000Z", false),
    ("19920722132100.03Z", true),
    ("19920722132100.Z", false),
    ("19920722132100,3Z", false),
    ("19920722132100", false),
    ("19920722132160Z", false),
];

#[test]
fn recognizes_generalized_times(rt: HostRuntime) {
    for &(text, time) in GENERALIZED_TIMES.iter() {
        let is_time = kind::GeneralizedTime::test(text.as_bytes());
        assert_equal_for(&rt, &text, &is_time, &time);
    }
}

/// Returns the time that a UTCTime's content gives.
fn utc_time(content: &[u8]) -> Result<Option<DateTime>> {
    Ok(UtcTime::new(content)?.date_time())
}

/// Returns the time that a GeneralizedTime's content gives.
fn generalized_time(content: &[u8]) -> Result<Option<DateTime>> {
    Ok(GeneralizedTime::new(content)?.date_time())
}

/// A time in the first year that a UTCTime can give, and one in the last.
const FIRST: DateTime = DateTime {
    year: 1950,
    month: 1,
    day: 2,
    hour: 3,
    minute: 4,
    second: 5,
};

const LAST: DateTime = DateTime {
    year: 2049,
    month: 12,
    day: 31,
    hour: 23,
    minute: 59,
    second: 58,
};

/// The examples of X.690 sections 11.7.5 and 11.8.3.
const EXAMPLE: DateTime = DateTime {
    year: 1992,
    month: 6,
    day: 22,
    hour: 12,
    minute: 34,
    second: 21,
};

/// Texts of times, which of them are a UTCTime's, and the times that they give.
static TIMES: [(&[u8], bool, DateTime); 5] = [
    (b"500102030405Z", true, FIRST),
    (b"491231235958Z", true, LAST),
    (b"920622123421Z", true, EXAMPLE),
    (b"20491231235958.5Z", false, LAST),
    (b"19920622123421Z", false, EXAMPLE),
];

#[test]
fn reads_times(rt: HostRuntime) {
    for &(text, is_utc, time) in TIMES.iter() {
        let found = if is_utc {
            utc_time(text)
        } else {
            generalized_time(text)
        };
        assert_equal_for(&rt, &text, &found, &Ok(Some(time)));
    }
    assert!(rt; FIRST < LAST && FIRST.is_valid());
}

/// Times in ascending order. Of two in a row, the first field in which they differ decides, and
/// each field after it is the other way round.
static ASCENDING_TIMES: [&[u8]; 7] = [
    b"20231231235959Z",
    b"20241130225858Z",
    b"20241229215757Z",
    b"20241230205656Z",
    b"20241230215555Z",
    b"20241230215654Z",
    b"20241230215655Z",
];

/// Returns `true` if both are times, and the first is the earlier by each comparison.
fn is_earlier(before: &[u8], after: &[u8]) -> bool {
    match (generalized_time(before), generalized_time(after)) {
        (Ok(Some(before)), Ok(Some(after))) => {
            before < after && after > before && before.max(after) == after
        }
        _ => false,
    }
}

#[test]
fn orders_times(rt: HostRuntime) {
    for (place, &after) in ASCENDING_TIMES.iter().enumerate().skip(1) {
        let before = ASCENDING_TIMES[place - 1];
        assert_equal_for(&rt, &after, &is_earlier(before, after), &true);
    }
}

/// Contents, and whether they are a NumericString's, a PrintableString's, a VisibleString's, an
/// IA5String's and a UTF8String's. Jones is the example of X.690 section 8.23; the UTF-8 is from
/// RFC 3629 sections 3, 7 and 10.
static STRINGS: [(&[u8], [bool; 5]); 13] = [
    (b"", [true, true, true, true, true]),
    (b"0123 456789", [true, true, true, true, true]),
    (b"Jones", [false, true, true, true, true]),
    (b"Az '()+,-./:=?", [false, true, true, true, true]),
    (b"*.example.com", [false, false, true, true, true]),
    (b"a@example.com", [false, false, true, true, true]),
    (b"a_b&c", [false, false, true, true, true]),
    (b"\x09", [false, false, false, true, true]),
    (b"\x7F", [false, false, false, true, true]),
    (
        b"A\xE2\x89\xA2\xCE\x91.",
        [false, false, false, false, true],
    ),
    (b"\xC0\x80", [false, false, false, false, false]),
    (b"\xED\xA1\x8C", [false, false, false, false, false]),
    (b"\x80", [false, false, false, false, false]),
];

#[test]
fn recognizes_strings(rt: HostRuntime) {
    for &(bytes, wanted) in STRINGS.iter() {
        let found = [
            kind::NumericString::test(bytes),
            kind::PrintableString::test(bytes),
            kind::VisibleString::test(bytes),
            kind::Ia5String::test(bytes),
            kind::Utf8String::test(bytes),
        ];
        assert_equal_for(&rt, &bytes, &found, &wanted);
    }
}
