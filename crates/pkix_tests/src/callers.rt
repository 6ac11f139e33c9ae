//! Tests of the callers in `examples`: keys in containers that were made by OpenSSL, a hash value,
//! and a point that is read again.
use examples::callers::key_store::{KeyStore, find, find_by_public_key, keep};
use examples::callers::open_kinds::{Even, even_bytes};
use examples::callers::own_record::{DigestInfo, read_digest};
use examples::callers::points::{
    from_own_bytes, from_own_json, from_own_lower_hex, from_own_upper_hex,
};
use examples::callers::reading::{read_private_key, read_public_key};
use pkix::SubjectPublicKeyInfo;
use sec1::der::{
    Containing, DecodeValue, EncodeValue, ErrorKind, SecretDocument, Tagged, encode_to_slice,
    from_der, to_der,
};
use sec1::point::Coordinates::Compressed;
use sec1::point::EncodedPoint32;
use sec1::{EcPrivateKey, EncodedPoint, Error};
use std::alloc::Global;
use std::fmt::Debug;
use std::process::Abort;
use std::test::Fail;

/// A public key on the curve P-256: `openssl ec -pubout -outform DER`.
static INFO: [u8; 91] = [
    0x30, 0x59, 0x30, 0x13, 0x06, 0x07, 0x2A, 0x86, 0x48, 0xCE, 0x3D, 0x02, 0x01, 0x06, 0x08, 0x2A,
    0x86, 0x48, 0xCE, 0x3D, 0x03, 0x01, 0x07, 0x03, 0x42, 0x00, 0x04, 0x70, 0xBF, 0x84, 0x7F, 0x04,
    0xEA, 0x56, 0x8F, 0x25, 0x50, 0x92, 0xE0, 0x43, 0xD7, 0x68, 0xAC, 0x5F, 0x54, 0xFF, 0x8C, 0xB8,
    0x5B, 0x7B, 0x77, 0x02, 0x55, 0x1C, 0x6B, 0x29, 0x83, 0xEA, 0xFA, 0x0B, 0x76, 0x92, 0xD6, 0xAA,
    0x9E, 0x78, 0xA7, 0xBF, 0xAC, 0xDD, 0xFC, 0xF9, 0x80, 0x71, 0xA8, 0x9E, 0x94, 0x5B, 0xD1, 0x48,
    0x60, 0xAB, 0x47, 0x76, 0x54, 0xBE, 0x93, 0x0C, 0x0B, 0xAA, 0xC2,
];

/// The private key of it: `openssl pkcs8 -topk8 -nocrypt -outform DER`.
static CONTAINER: [u8; 138] = [
    0x30, 0x81, 0x87, 0x02, 0x01, 0x00, 0x30, 0x13, 0x06, 0x07, 0x2A, 0x86, 0x48, 0xCE, 0x3D, 0x02,
    0x01, 0x06, 0x08, 0x2A, 0x86, 0x48, 0xCE, 0x3D, 0x03, 0x01, 0x07, 0x04, 0x6D, 0x30, 0x6B, 0x02,
    0x01, 0x01, 0x04, 0x20, 0x72, 0x51, 0x0F, 0xC1, 0x6A, 0x4A, 0x41, 0x0F, 0x9F, 0x14, 0x6D, 0xE4,
    0x1F, 0x62, 0xBE, 0x2D, 0x4E, 0x55, 0xB5, 0x8C, 0x6B, 0xF6, 0x62, 0x61, 0xAB, 0x07, 0x47, 0x73,
    0x58, 0xA7, 0x5A, 0xAD, 0xA1, 0x44, 0x03, 0x42, 0x00, 0x04, 0x70, 0xBF, 0x84, 0x7F, 0x04, 0xEA,
    0x56, 0x8F, 0x25, 0x50, 0x92, 0xE0, 0x43, 0xD7, 0x68, 0xAC, 0x5F, 0x54, 0xFF, 0x8C, 0xB8, 0x5B,
    0x7B, 0x77, 0x02, 0x55, 0x1C, 0x6B, 0x29, 0x83, 0xEA, 0xFA, 0x0B, 0x76, 0x92, 0xD6, 0xAA, 0x9E,
    0x78, 0xA7, 0xBF, 0xAC, 0xDD, 0xFC, 0xF9, 0x80, 0x71, 0xA8, 0x9E, 0x94, 0x5B, 0xD1, 0x48, 0x60,
    0xAB, 0x47, 0x76, 0x54, 0xBE, 0x93, 0x0C, 0x0B, 0xAA, 0xC2,
];

/// A public key on the curve P-384: `openssl ecparam -name secp384r1 -genkey`, `openssl ec -pubout
/// -outform DER`.
static OTHER_CURVE: [u8; 120] = [
    0x30, 0x76, 0x30, 0x10, 0x06, 0x07, 0x2A, 0x86, 0x48, 0xCE, 0x3D, 0x02, 0x01, 0x06, 0x05, 0x2B,
    0x81, 0x04, 0x00, 0x22, 0x03, 0x62, 0x00, 0x04, 0xC2, 0x9A, 0xFC, 0xCD, 0x22, 0x24, 0x1D, 0x7D,
    0x7B, 0x09, 0x35, 0x15, 0xA6, 0x2F, 0x1F, 0x2A, 0xD5, 0x61, 0x6D, 0x01, 0xE1, 0x1F, 0x23, 0xFB,
    0xA4, 0x3E, 0x2D, 0x5E, 0xD3, 0x59, 0x1E, 0xC9, 0x53, 0x69, 0xC0, 0x25, 0x1C, 0x77, 0x89, 0x33,
    0x83, 0x54, 0xB8, 0xC6, 0x82, 0xE5, 0xBC, 0xF8, 0x6A, 0x78, 0x93, 0xA1, 0xA1, 0xEE, 0xAB, 0xC2,
    0x18, 0x5A, 0xE1, 0xAE, 0x70, 0x9E, 0x69, 0x49, 0x74, 0x89, 0x5A, 0x58, 0xC8, 0x42, 0xBE, 0x26,
    0xAF, 0x8B, 0xAD, 0x79, 0x83, 0x1E, 0xAD, 0x76, 0x81, 0xF6, 0xB9, 0x3A, 0x6A, 0x69, 0xE8, 0xCF,
    0x03, 0x78, 0x53, 0xD3, 0x2B, 0x09, 0x4A, 0x53,
];

/// A private key of another algorithm: `openssl genpkey -algorithm ED25519 -outform DER`.
static OTHER_ALGORITHM: [u8; 48] = [
    0x30, 0x2E, 0x02, 0x01, 0x00, 0x30, 0x05, 0x06, 0x03, 0x2B, 0x65, 0x70, 0x04, 0x22, 0x04, 0x20,
    0x0A, 0x95, 0x6B, 0x37, 0xDB, 0x05, 0xC8, 0xFD, 0x9C, 0x4F, 0x2A, 0xBD, 0x87, 0xB2, 0x58, 0xB5,
    0xC1, 0xA1, 0xE6, 0xE2, 0x92, 0x52, 0xA9, 0x64, 0x01, 0xDC, 0x7F, 0xF3, 0xAC, 0xA8, 0x84, 0x52,
];

/// Fails the test unless the two are equal.
// A call of this takes the prover a fraction of the time that `assert_eq!` takes in line.
fn assert_equal<T: PartialEq + Debug>(rt: &impl Abort, found: &T, wanted: &T) {
    assert_eq!(rt; *found, *wanted);
}

/// Writes the value at the front of the slice, and returns the bytes written.
fn encoded<'r, T: EncodeValue + Tagged>(value: &T, room: &'r mut [u8]) -> Option<&'r [u8]> {
    let count = encode_to_slice(value, room).ok()?;
    room.get(..count)
}

/// Reads a value from its whole encoding. Fails the test unless it is read, and is written as the
/// same bytes, into memory and into a slice.
fn reread<'a, R, T>(rt: &R, der: &'a [u8]) -> T
where
    R: Abort + AllocGlobal,
    T: DecodeValue<'a> + EncodeValue + Tagged + Drop,
{
    let value: T = from_der(der).expect(rt, "no value");
    let written = to_der(rt.alloc(), &value).ok();
    assert_equal(rt, &written.as_deref(), &Some(der));
    let mut room = [0; 140];
    assert_equal(rt, &encoded(&value, &mut room), &Some(der));
    value
}

/// Fails the test unless this is the key in the container.
fn assert_contained(rt: &impl Abort, key: &EcPrivateKey) {
    let found = (key.private_key, key.parameters.is_none(), key.public_key);
    assert_equal(rt, &found, &(&CONTAINER[36..68], true, Some(&INFO[26..])));
}

#[test]
fn reads_a_point_from_a_public_key(rt: HostRuntime) -> Result<(), Fail> {
    assert_equal(&rt, &read_public_key(&INFO)?.as_bytes(), &&INFO[26..]);
    Ok(())
}

/// Returns the error by which there is no point on P-256 in the bytes.
fn point_refusal(bytes: &[u8]) -> Option<Error> {
    read_public_key(bytes).err()
}

#[test]
fn refuses_public_keys_without_a_point_on_p_256(rt: HostRuntime) {
    let mut bytes = INFO;
    assert_equal(&rt, &point_refusal(&OTHER_CURVE), &Some(Error::Crypto));
    bytes[26] = 8;
    let wanted = Some(Error::PointEncoding);
    assert_equal(&rt, &point_refusal(&bytes), &wanted);
    bytes[25] = 1;
    assert_equal(&rt, &point_refusal(&bytes), &wanted);
    bytes[25] = 8;
    assert!(rt; matches!(point_refusal(&bytes), Some(Error::Asn1(_))));
}

#[test]
fn reads_a_key_from_a_container(rt: HostRuntime) -> Result<(), Fail> {
    assert_contained(&rt, &read_private_key(&CONTAINER)?);
    Ok(())
}

/// Returns the error by which there is no key in the bytes.
fn key_refusal(bytes: &[u8]) -> Option<Error> {
    read_private_key(bytes).err()
}

#[test]
fn refuses_containers_without_an_elliptic_key(rt: HostRuntime) {
    let mut bytes = CONTAINER;
    assert_equal(&rt, &key_refusal(&OTHER_ALGORITHM), &Some(Error::Crypto));
    bytes[16] = 2;
    assert_equal(&rt, &key_refusal(&bytes), &Some(Error::Crypto));
}

/// A container with attributes after the key (RFC 5208 section 5), of which there are none, and
/// one with a byte more.
#[test]
fn reads_a_key_before_attributes(rt: HostRuntime) -> Result<(), Fail> {
    let mut bytes = [0; 141];
    bytes[..138].copy_from_slice(&CONTAINER);
    bytes[2] = 0x89;
    bytes[138] = 0xA0;
    assert_contained(&rt, &read_private_key(&bytes[..140])?);
    bytes[2] = 0x8A;
    let wanted = Error::Asn1(ErrorKind::TrailingData.into());
    assert_equal(&rt, &key_refusal(&bytes), &Some(wanted));
    Ok(())
}

#[test]
fn reads_and_writes_an_octet_string_that_contains_a_record(rt: HostRuntime) {
    let mut bytes = [0x04; 93];
    bytes[1] = 0x5B;
    bytes[2..].copy_from_slice(&INFO);
    let outside: Containing<SubjectPublicKeyInfo> = reread(&rt, &bytes);
    let found = outside.value.public_key.as_bytes();
    assert_equal(&rt, &found, &Some(&INFO[26..]));
}

/// An octet string of an even number of octets.
static EVEN: [u8; 6] = [0x04, 0x04, 0x00, 0x41, 0x20, 0xAC];

/// One of an odd number, and another string.
static NOT_EVEN: [&[u8]; 2] = [b"\x04\x01\x41", b"\x0C\x01\x41"];

#[test]
fn reads_and_writes_an_even_number_of_octets(rt: HostRuntime) {
    let bytes = &EVEN[2..];
    assert_equal(&rt, &even_bytes(&EVEN), &Ok(bytes));
    let der = to_der(rt.alloc(), &Even { bytes }).ok();
    assert_equal(&rt, &der.as_deref(), &Some(EVEN.as_slice()));
    for &odd in NOT_EVEN.iter() {
        assert_equal(&rt, &(odd, even_bytes(odd).is_err()), &(odd, true));
    }
}

#[test]
fn refuses_to_write_an_odd_number_of_octets(rt: HostRuntime) {
    let bytes = b"\x00\x41\x20";
    let error = to_der(rt.alloc(), &Even { bytes }).err();
    assert_equal(&rt, &error, &Some(ErrorKind::Overlength.into()));
}

/// A hash value of SHA-256, after the bytes of RFC 8017 section 9.2, note 1.
#[test]
fn reads_and_writes_a_hash_value(rt: HostRuntime) {
    let mut der = [0xAB; 51];
    der[..19].copy_from_slice(
        b"\x30\x31\x30\x0D\x06\x09\x60\x86\x48\x01\x65\x03\x04\x02\x01\x05\x00\x04\x20",
    );
    let info: DigestInfo = reread(&rt, &der);
    let found = (info.algorithm.algorithm.as_bytes(), info.digest);
    assert_equal(&rt, &found, &(&der[6..15], &der[19..]));
    let error = read_digest(&der[..50]).err();
    assert_equal(&rt, &error, &Some(ErrorKind::Truncated.into()));
}

/// Returns a store that keeps the container for this point.
fn store_of(alloc: Global, point: EncodedPoint32) -> Result<KeyStore, Fail> {
    let mut store = KeyStore::new(alloc);
    let document = SecretDocument::from_der(alloc, &CONTAINER)?;
    keep(&mut store, point, document)?;
    Ok(store)
}

/// Returns `true` if this is the container.
fn is_container(document: Option<&SecretDocument>) -> bool {
    match document {
        Some(document) => document.as_bytes() == CONTAINER.as_slice(),
        None => false,
    }
}

#[test]
fn finds_a_key_by_its_public_key(rt: HostRuntime) -> Result<(), Fail> {
    let store = store_of(rt.alloc(), read_public_key(&INFO)?)?;
    let found = is_container(find_by_public_key(&store, &INFO)?);
    let refused = find_by_public_key(&store, &OTHER_CURVE).err();
    assert_equal(&rt, &(found, refused), &(true, Some(Error::Crypto)));
    Ok(())
}

/// The compressed point (SEC1 v2.0 section 2.3.3), from its bytes and from the uncompressed one.
#[test]
fn finds_a_key_by_another_value_of_its_point(rt: HostRuntime) -> Result<(), Fail> {
    let point = read_public_key(&INFO)?;
    let store = store_of(rt.alloc(), point.compress())?;
    let mut bytes = [2; 33];
    bytes[1..].copy_from_slice(&INFO[27..59]);
    let found = is_container(find(&store, &EncodedPoint32::from_bytes(&bytes)?));
    let other = find(&store, &point).is_none();
    assert_equal(&rt, &(found, other), &(true, true));
    Ok(())
}

#[test]
fn reads_a_point_again(rt: HostRuntime) -> Result<(), Fail> {
    let alloc = rt.alloc();
    let point = EncodedPoint::<1, 3>::from_bytes(&[3, 0xAF])?;
    let found = [
        from_own_bytes(&point),
        from_own_lower_hex(alloc, &point),
        from_own_upper_hex(alloc, &point),
        from_own_json(alloc, &point),
    ];
    assert_equal(&rt, &found, &[Ok(point), Ok(point), Ok(point), Ok(point)]);
    let (x, y_is_odd) = (&[0xAF], true);
    assert_equal(&rt, &point.coordinates(), &Compressed { x, y_is_odd });
    let identity = EncodedPoint::<1, 3>::identity();
    assert_equal(&rt, &from_own_bytes(&identity), &Ok(identity));
    Ok(())
}
