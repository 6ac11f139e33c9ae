//! Each type, read and written: values that the standards give, and their neighbours that are
//! refused.
use crate::{assert_equal, assert_equal_for};
use der_types::{
    Bits, BmpString, Boolean, Enumerated, GeneralizedTime, Ia5String, Integer, Null, NumericString,
    ObjectIdentifierRef, PrintableString, TeletexString, True, UniversalString, Unsigned, UtcTime,
    Utf8String, VisibleString,
};
use sec1_der::{
    DecodeValue, EncodeValue, ErrorKind, Result, Tagged, UniqueContent, read_der, to_der,
};
use std::alloc::Global;
use std::process::Abort;
use std::str;

/// Reads the bytes, and returns those that its value is written as.
fn rewritten<'a, T>(alloc: Global, der: &'a [u8]) -> Result<Vec<u8>>
where
    T: DecodeValue<'a> + EncodeValue + Tagged + UniqueContent + Drop,
{
    let value: T = read_der(der)?;
    to_der(alloc, &value)
}

/// Fails the test unless the bytes are read, and their value is written as the same bytes.
fn assert_reads<'a, T>(rt: &(impl Abort + AllocGlobal), der: &'a [u8])
where
    T: DecodeValue<'a> + EncodeValue + Tagged + UniqueContent + Drop,
{
    let again = rewritten::<T>(rt.alloc(), der);
    assert_equal_for(rt, &der, &again.as_deref(), &Ok(der));
}

/// Fails the test unless the bytes are refused as Value.
fn assert_refuses<'a, T>(rt: &impl Abort, der: &'a [u8])
where
    T: DecodeValue<'a> + Tagged + UniqueContent + Drop,
{
    let kind = read_der::<T>(der).err().map(|e| e.kind());
    assert_equal_for(rt, &der, &kind, &Some(ErrorKind::Value));
}

/// X.690 sections 8.2.2, 8.8.2 and 11.1.
#[test]
fn booleans_and_null(rt: HostRuntime) {
    assert_reads::<Boolean>(&rt, b"\x01\x01\xFF");
    assert_reads::<Boolean>(&rt, b"\x01\x01\x00");
    assert_refuses::<Boolean>(&rt, b"\x01\x01\x01");
    assert_reads::<True>(&rt, b"\x01\x01\xFF");
    assert_refuses::<True>(&rt, b"\x01\x01\x00");
    assert_reads::<Null>(&rt, b"\x05\x00");
    assert_refuses::<Null>(&rt, b"\x05\x01\x00");
}

/// X.690 section 8.3: 128 and -129.
#[test]
fn integers(rt: HostRuntime) {
    assert_reads::<Unsigned>(&rt, b"\x02\x02\x00\x80");
    assert_refuses::<Unsigned>(&rt, b"\x02\x02\xFF\x7F");
    assert_reads::<Integer>(&rt, b"\x02\x02\xFF\x7F");
    assert_refuses::<Integer>(&rt, b"\x02\x02\xFF\x80");
    assert_reads::<Enumerated>(&rt, b"\x0A\x01\x05");
    assert_refuses::<Enumerated>(&rt, b"\x0A\x00");
}

/// Returns the number that an INTEGER's content gives, and its digits.
fn number(content: &[u8]) -> Result<(Option<u64>, &[u8])> {
    let number = Unsigned::new(content)?;
    Ok((number.to_u64(), number.digits()))
}

/// Contents of an INTEGER, and their numbers and digits.
static NUMBERS: [(&[u8], (Option<u64>, &[u8])); 5] = [
    (b"\x00\x80", (Some(128), b"\x80")),
    (b"\x01\x00", (Some(256), b"\x01\x00")),
    (b"\x00", (Some(0), b"")),
    (
        b"\x00\xFF\xFF\xFF\xFF\xFF\xFF\xFF\xFF",
        (Some(u64::MAX), b"\xFF\xFF\xFF\xFF\xFF\xFF\xFF\xFF"),
    ),
    (
        b"\x01\x00\x00\x00\x00\x00\x00\x00\x00",
        (None, b"\x01\x00\x00\x00\x00\x00\x00\x00\x00"),
    ),
];

/// X.690 section 8.3: 128, 256 and 0, and the greatest number of 64 bits and one above it.
#[test]
fn numbers(rt: HostRuntime) {
    for &(content, wanted) in NUMBERS.iter() {
        assert_equal_for(&rt, &content, &number(content), &Ok(wanted));
    }
}

/// Returns the number of unused bits of a BIT STRING, its bytes, and whether no bit is unused.
fn bits_of(der: &[u8]) -> Result<(u8, &[u8], bool)> {
    let bits: Bits = read_der(der)?;
    Ok((
        bits.unused_bits(),
        bits.raw_bytes(),
        bits.as_bytes().is_some(),
    ))
}

/// The example of X.690 section 8.6.4.2, of 44 bits, and the same with an unused bit that is set.
#[test]
fn bits(rt: HostRuntime) {
    let der = b"\x03\x07\x04\x0A\x3B\x5F\x29\x1C\xD0";
    assert_reads::<Bits>(&rt, der);
    assert_refuses::<Bits>(&rt, b"\x03\x07\x04\x0A\x3B\x5F\x29\x1C\xD8");
    let bytes = b"\x0A\x3B\x5F\x29\x1C\xD0".as_slice();
    assert_equal(&rt, &bits_of(der), &Ok((4, bytes, false)));
}

/// The example of X.690 section 8.19.5.
#[test]
fn object_identifiers(rt: HostRuntime) {
    assert_reads::<ObjectIdentifierRef>(&rt, b"\x06\x03\x88\x37\x03");
    assert_refuses::<ObjectIdentifierRef>(&rt, b"\x06\x03\x80\x37\x03");
}

/// The example of X.690 section 8.14.
#[test]
fn strings(rt: HostRuntime) {
    assert_reads::<VisibleString>(&rt, b"\x1A\x05Jones");
    assert_refuses::<VisibleString>(&rt, b"\x1A\x05Jone\n");
    assert_reads::<Ia5String>(&rt, b"\x16\x05Jone\n");
    assert_refuses::<Ia5String>(&rt, b"\x16\x01\x80");
    assert_reads::<PrintableString>(&rt, b"\x13\x05Jones");
    assert_refuses::<PrintableString>(&rt, b"\x13\x02a@");
    assert_reads::<NumericString>(&rt, b"\x12\x0319 ");
    assert_refuses::<NumericString>(&rt, b"\x12\x01a");
    assert_reads::<TeletexString>(&rt, b"\x14\x01\xE9");
}

/// Returns the characters of a UTF8String.
fn characters(der: &[u8]) -> Option<&str> {
    str::from_utf8(read_der::<Utf8String>(der).ok()?.as_bytes()).ok()
}

/// The example of RFC 3629 section 7, and its second character in strings of other encodings.
#[test]
fn strings_of_any_character(rt: HostRuntime) {
    assert_reads::<BmpString>(&rt, b"\x1E\x02\x22\x62");
    assert_refuses::<BmpString>(&rt, b"\x1E\x01\x22");
    assert_reads::<UniversalString>(&rt, b"\x1C\x04\x00\x00\x22\x62");
    assert_refuses::<UniversalString>(&rt, b"\x1C\x02\x22\x62");
    let text = b"\x0C\x07\x41\xE2\x89\xA2\xCE\x91\x2E";
    assert_reads::<Utf8String>(&rt, text);
    assert_refuses::<Utf8String>(&rt, b"\x0C\x01\xE2");
    assert_equal(&rt, &characters(text), &Some("A\u{2262}\u{391}."));
}

/// The examples of X.690 sections 11.7.5 and 11.8.3.
#[test]
fn times(rt: HostRuntime) {
    assert_reads::<UtcTime>(&rt, b"\x17\x0D920622123421Z");
    assert_refuses::<UtcTime>(&rt, b"\x17\x0D920520240000Z");
    assert_reads::<GeneralizedTime>(&rt, b"\x18\x1119920722132100.3Z");
    assert_refuses::<GeneralizedTime>(&rt, b"\x18\x1219920722132100.30Z");
}
