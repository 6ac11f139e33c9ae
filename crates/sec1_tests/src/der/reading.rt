//! What is read, by examples with known results.
use crate::helpers::{assert_equal, assert_equal_for, assert_shows, kind_of, read, refusal_of};
use sec1_der::{
    AnyRef, BitStringRef, Error, ErrorKind, Header, IdentifierRef, Length, ObjectIdentifier,
    OctetStringRef, SliceReader, Tag,
};
use std::alloc::{AllocError, Global};
use std::process::Abort;
use std::test::Fail;

static TEXTS: [(ErrorKind, &str); 11] = [
    (ErrorKind::Truncated, "input ends inside an element"),
    (ErrorKind::Tag, "unexpected or unsupported tag"),
    (
        ErrorKind::Length,
        "length not in DER form or above the limit",
    ),
    (ErrorKind::TrailingData, "bytes after the value"),
    (ErrorKind::Value, "content not valid for its tag"),
    (ErrorKind::Overlength, "value longer than 268435455 bytes"),
    (ErrorKind::Buffer, "output buffer too small"),
    (ErrorKind::Failed, "reader has already refused"),
    (ErrorKind::Io, "read or write failed"),
    (ErrorKind::Depth, "more than 64 nested elements"),
    (ErrorKind::Memory, "out of memory"),
];

#[test]
fn prints_errors_by_their_kinds(rt: HostRuntime) {
    for &(kind, text) in TEXTS.iter() {
        let error = Error::from(kind);
        assert_equal(&rt, &error.kind(), &kind);
        assert_shows(&rt, &error, text);
    }
}

/// Returns the number that a length is made of, or the kind of the error.
fn length_of(bytes: usize) -> Result<usize, ErrorKind> {
    match Length::new(bytes) {
        Ok(length) => Ok(length.get()),
        Err(error) => Err(error.kind),
    }
}

#[test]
fn refuses_lengths_above_the_limit(rt: HostRuntime) {
    assert_equal(
        &rt,
        &(length_of(Length::MAX), length_of(268_435_456)),
        &(Ok(268_435_455), Err(ErrorKind::Overlength)),
    );
}

/// The tag byte and the length of the header that the bytes begin with.
fn header(bytes: &[u8]) -> Result<(u8, usize), ErrorKind> {
    match Header::decode(&mut SliceReader::new(bytes)) {
        Ok(header) => Ok((header.tag.byte(), header.length.get())),
        Err(e) => Err(e.kind),
    }
}

static HEADERS: [(&[u8], Result<(u8, usize), ErrorKind>); 15] = [
    (b"\x30\x84\x0F\xFF\xFF\xFF", Ok((0x30, 268_435_455))),
    (b"\x30\x84\x10\x00\x00\x00", Err(ErrorKind::Length)),
    (b"\x30\x84\x10", Err(ErrorKind::Truncated)),
    (b"\x05\x00", Ok((0x05, 0))),
    (b"\x04\x7F", Ok((0x04, 127))),
    (b"\x04\x81\x80", Ok((0x04, 128))),
    (b"\x30\x81\x7F", Err(ErrorKind::Length)),
    (b"\x30\x82\x00\x80", Err(ErrorKind::Length)),
    (b"\x30\x83\x00\xFF\xFF", Err(ErrorKind::Length)),
    (b"\x30\x80", Err(ErrorKind::Length)),
    (b"\x30\x85", Err(ErrorKind::Length)),
    (b"\x30\xFF", Err(ErrorKind::Length)),
    (b"\x30\x82\x01", Err(ErrorKind::Truncated)),
    (b"\x1F\x00", Err(ErrorKind::Tag)),
    (b"", Err(ErrorKind::Truncated)),
];

#[test]
fn reads_headers(rt: HostRuntime) {
    for &(bytes, ref want) in HEADERS.iter() {
        assert_equal_for(&rt, &bytes, &header(bytes), want);
    }
}

static OCTET_STRINGS: [(&[u8], Result<&[u8], ErrorKind>); 6] = [
    (b"\x04\x02\xAA\xBB", Ok(b"\xAA\xBB")),
    (b"\x04\x81\x02\xAA\xBB", Err(ErrorKind::Length)),
    (b"\x05\x00", Err(ErrorKind::Tag)),
    (b"", Err(ErrorKind::Truncated)),
    (b"\x04\x02\xAA", Err(ErrorKind::Truncated)),
    (b"\x04\x01\xAA\xBB", Err(ErrorKind::TrailingData)),
];

/// The bytes of the octet string with this encoding.
fn octets(bytes: &[u8]) -> Result<&[u8], ErrorKind> {
    match read::<OctetStringRef>(bytes) {
        Ok(octets) => Ok(octets.as_bytes()),
        Err(e) => Err(e.kind),
    }
}

#[test]
fn reads_octet_strings(rt: HostRuntime) {
    for &(bytes, ref want) in OCTET_STRINGS.iter() {
        assert_equal_for(&rt, &bytes, &octets(bytes), want);
    }
}

/// What is read or made of a BIT STRING: the number of its unused bits, its bytes, and its bytes if
/// no bit is unused; or the kind of the error.
type Bits<'a> = Result<(u8, &'a [u8], Option<&'a [u8]>), ErrorKind>;

/// Returns what a BIT STRING was read or made as.
fn bits(made: sec1_der::Result<BitStringRef>) -> Bits<'_> {
    match made {
        Ok(bits) => Ok((bits.unused_bits(), bits.raw_bytes(), bits.as_bytes())),
        Err(error) => Err(error.kind),
    }
}

static BIT_STRINGS: [(&[u8], Bits); 5] = [
    (b"\x03\x02\x04\xF0", Ok((4, b"\xF0", None))),
    (b"\x03\x02\x00\xF0", Ok((0, b"\xF0", Some(b"\xF0")))),
    (b"\x03\x02\x04\xF8", Err(ErrorKind::Value)),
    (b"\x03\x00", Err(ErrorKind::Value)),
    (b"\x03\x01\x01", Err(ErrorKind::Value)),
];

#[test]
fn reads_bit_strings(rt: HostRuntime) {
    for &(bytes, ref want) in BIT_STRINGS.iter() {
        assert_equal_for(&rt, &bytes, &bits(read(bytes)), want);
    }
}

/// Numbers of unused bits, bytes, and what is made of them.
static MADE_BIT_STRINGS: [(u8, &[u8], Bits); 5] = [
    (1, b"\x00", Ok((1, b"\x00", None))),
    (0, b"\x01", Ok((0, b"\x01", Some(b"\x01")))),
    (1, b"\x01", Err(ErrorKind::Value)),
    (1, b"", Err(ErrorKind::Value)),
    (8, b"\x00", Err(ErrorKind::Value)),
];

/// Returns what is made of bytes without an unused bit.
fn bits_of(bytes: &[u8]) -> Bits<'_> {
    bits(BitStringRef::from_bytes(bytes))
}

#[test]
fn makes_bit_strings(rt: HostRuntime) {
    for &(unused, bytes, ref want) in MADE_BIT_STRINGS.iter() {
        let made = bits(BitStringRef::new(unused, bytes));
        assert_equal_for(&rt, &(unused, bytes), &made, want);
    }
    let whole = Ok((0, b"\x01".as_slice(), Some(b"\x01".as_slice())));
    assert_equal(&rt, &bits_of(b"\x01"), &whole);
}

/// Returns the element of any tag that the bytes begin with, and the number of the bytes after it.
fn any(bytes: &[u8]) -> Option<(AnyRef<'_>, usize)> {
    let mut reader = SliceReader::new(bytes);
    let any = AnyRef::decode(&mut reader).ok()?;
    Some((any, reader.remaining_len()))
}

#[test]
fn reads_elements_of_any_tag(rt: HostRuntime) {
    let content = b"\xAA\xBB".as_slice();
    let (any, left) = any(b"\x30\x02\xAA\xBB\x05").expect(&rt, "an element");
    let found = (any.tag(), any.value(), left);
    assert_equal(&rt, &found, &(Tag::SEQUENCE, content, 1));
    assert_equal(&rt, &AnyRef::new(Tag::SEQUENCE, content), &Ok(any));
}

/// What reading a field gives: the bytes of the octet string in it, or the kind of the error; and
/// the number of the bytes that remain, unless the reader has failed.
type Field<'a> = (Result<Option<&'a [u8]>, ErrorKind>, Option<usize>);

/// Reads the octet string inside the field of this number, at most 30, if it is next.
fn field(bytes: &[u8], number: u8) -> Field<'_> {
    let mut reader = SliceReader::new(bytes);
    let found = match reader.context_specific::<OctetStringRef>(number.min(30)) {
        Ok(Some(octets)) => Ok(Some(octets.as_bytes())),
        Ok(None) => Ok(None),
        Err(error) => Err(error.kind),
    };
    let is_failed = reader.is_failed();
    (found, (!is_failed).then_some(reader.remaining_len()))
}

static FIELDS: [(&[u8], u8, Field); 4] = [
    (b"\xA1\x03\x03\x01\x00", 0, (Ok(None), Some(5))),
    (b"", 0, (Ok(None), Some(0))),
    (b"\xBE\x02\x04\x00", 30, (Ok(Some(b"")), Some(0))),
    (
        b"\xA0\x03\x04\x00\x00",
        0,
        (Err(ErrorKind::TrailingData), None),
    ),
];

#[test]
fn reads_context_fields(rt: HostRuntime) {
    for &(bytes, number, ref want) in FIELDS.iter() {
        assert_equal_for(&rt, &bytes, &field(bytes, number), want);
    }
}

static IDENTIFIERS: [(&str, &[u8]); 9] = [
    ("1.2.840.10045.2.1", b"\x2A\x86\x48\xCE\x3D\x02\x01"),
    ("1.2.840.10045.3.1.7", b"\x2A\x86\x48\xCE\x3D\x03\x01\x07"),
    ("1.3.132.0.34", b"\x2B\x81\x04\x00\x22"),
    ("1.2.4294967295", b"\x2A\x8F\xFF\xFF\xFF\x7F"),
    ("0.0", b"\x00"),
    ("2.39", b"\x77"),
    ("2.40", b"\x78"),
    ("2.999", b"\x88\x37"),
    ("2.4294967215", b"\x8F\xFF\xFF\xFF\x7F"),
];

/// Fails the test unless the identifier of this text has this content, is made of it too, and is
/// printed as the text.
fn assert_identifier<R: Abort + AllocGlobal>(rt: &R, text: &str, content: &[u8]) {
    let identifier = ObjectIdentifier::new(text).expect(rt, "an identifier");
    assert_equal_for(rt, &text, &identifier.as_bytes(), &content);
    let same = ObjectIdentifier::from_bytes(content);
    assert_equal_for(rt, &text, &same, &Ok(identifier));
    assert_shows(rt, &identifier, text);
}

#[test]
fn reads_and_prints_identifiers(rt: HostRuntime) {
    for &(text, content) in IDENTIFIERS.iter() {
        assert_identifier(&rt, text, content);
    }
}

#[test]
fn reads_elements_of_identifiers(rt: HostRuntime) {
    let identifier: ObjectIdentifier = read(b"\x06\x02\x88\x37").expect(&rt, "an identifier");
    assert_shows(&rt, &identifier, "2.999");
    for (bytes, kind) in [
        (b"\x06\x00".as_slice(), ErrorKind::Value),
        (b"\x06\x01\x80", ErrorKind::Value),
        (b"\x05\x00", ErrorKind::Tag),
    ] {
        let refused = refusal_of::<ObjectIdentifier>(bytes);
        assert_equal_for(&rt, &bytes, &refused, &Some(kind));
    }
}

static REFUSED_TEXTS: [&str; 12] = [
    "",
    "1",
    "1.2.",
    ".1.2",
    "01.2",
    "1.+2",
    "1.40",
    "0.40",
    "3.1",
    "2.4294967216",
    "1.2.4294967296",
    "1.2.a",
];

static REFUSED_CONTENTS: [&[u8]; 6] = [
    b"",
    b"\xAA",
    b"\x80\x78",
    b"\x2A\x80\x01",
    b"\x90\x80\x80\x80\x00",
    b"\x2A\x90\x80\x80\x80\x00",
];

/// Returns the kinds by which this content is refused as an identifier, owned and borrowed.
fn content_refusals(content: &[u8]) -> [Option<ErrorKind>; 2] {
    [
        kind_of(ObjectIdentifier::from_bytes(content)),
        kind_of(IdentifierRef::from_bytes(content)),
    ]
}

#[test]
fn refuses_other_identifiers(rt: HostRuntime) {
    for &content in REFUSED_CONTENTS.iter() {
        let refused = content_refusals(content);
        assert_equal_for(&rt, &content, &refused, &[Some(ErrorKind::Value); 2]);
    }
}

#[test]
fn refuses_other_texts_of_identifiers(rt: HostRuntime) {
    for &text in REFUSED_TEXTS.iter() {
        let refused = kind_of(ObjectIdentifier::new(text));
        assert_equal_for(&rt, &text, &refused, &Some(ErrorKind::Value));
    }
}

/// Returns the identifier whose content is borrowed here.
fn borrowed(content: &[u8]) -> sec1_der::Result<ObjectIdentifier> {
    Ok(IdentifierRef::from_bytes(content)?.to_identifier())
}

#[test]
fn borrows_identifiers(rt: HostRuntime) {
    for &(text, content) in IDENTIFIERS.iter() {
        let wanted = ObjectIdentifier::new(text);
        assert_equal_for(&rt, &text, &borrowed(content), &wanted);
    }
}

/// Returns the length of the content of the identifier of this text, or the kind of the error.
fn content_len(text: &str) -> Result<usize, ErrorKind> {
    match ObjectIdentifier::new(text) {
        Ok(identifier) => Ok(identifier.as_bytes().len()),
        Err(error) => Err(error.kind),
    }
}

/// Returns 1.2 and this many further arcs of 1, each of which takes a byte.
fn arcs(alloc: Global, count: usize) -> Result<String, AllocError> {
    let mut text = "1.2".to_string(alloc)?;
    for _ in 0..count {
        text.push_str(".1")?;
    }
    Ok(text)
}

#[test]
fn refuses_identifiers_above_39_bytes(rt: HostRuntime) -> Result<(), Fail> {
    let longest = arcs(rt.alloc(), 38)?;
    assert_equal(&rt, &content_len(&longest), &Ok(39));
    let longer = arcs(rt.alloc(), 39)?;
    assert_equal(&rt, &content_len(&longer), &Err(ErrorKind::Value));
    Ok(())
}
