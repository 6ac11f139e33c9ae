//! The table beside the named curves of OpenSSL.
use crate::{assert_equal, assert_equal_for};
use curves::Curve;
use sec1_der::{ObjectIdentifier, from_der, to_der};
use std::alloc::Global;
use std::process::Abort;
use std::test::Fail;

/// What `tests/curves.sh` prints: OpenSSL's version and each of its named curves over a prime
/// field, with the length of the prime in bits and the DER of the object identifier in hexadecimal.
const OPENSSL: &str = "\
# OpenSSL 3.0.19 27 Jan 2026 (Library: OpenSSL 3.0.19 27 Jan 2026)
secp112r1 112 06052B81040006
secp112r2 112 06052B81040007
secp128r1 128 06052B8104001C
secp128r2 128 06052B8104001D
secp160k1 160 06052B81040009
secp160r1 160 06052B81040008
secp160r2 160 06052B8104001E
secp192k1 192 06052B8104001F
secp224k1 224 06052B81040020
secp224r1 224 06052B81040021
secp256k1 256 06052B8104000A
secp384r1 384 06052B81040022
secp521r1 521 06052B81040023
prime192v1 192 06082A8648CE3D030101
prime192v2 192 06082A8648CE3D030102
prime192v3 192 06082A8648CE3D030103
prime239v1 239 06082A8648CE3D030104
prime239v2 239 06082A8648CE3D030105
prime239v3 239 06082A8648CE3D030106
prime256v1 256 06082A8648CE3D030107
wap-wsg-idm-ecid-wtls6 112 0605672B010406
wap-wsg-idm-ecid-wtls7 160 0605672B010407
wap-wsg-idm-ecid-wtls8 112 0605672B010408
wap-wsg-idm-ecid-wtls9 160 0605672B010409
wap-wsg-idm-ecid-wtls12 224 0605672B01040C
brainpoolP160r1 160 06092B2403030208010101
brainpoolP160t1 160 06092B2403030208010102
brainpoolP192r1 192 06092B2403030208010103
brainpoolP192t1 192 06092B2403030208010104
brainpoolP224r1 224 06092B2403030208010105
brainpoolP224t1 224 06092B2403030208010106
brainpoolP256r1 256 06092B2403030208010107
brainpoolP256t1 256 06092B2403030208010108
brainpoolP320r1 320 06092B2403030208010109
brainpoolP320t1 320 06092B240303020801010A
brainpoolP384r1 384 06092B240303020801010B
brainpoolP384t1 384 06092B240303020801010C
brainpoolP512r1 512 06092B240303020801010D
brainpoolP512t1 512 06092B240303020801010E
SM2 256 06082A811CCF5501822D
";

/// Returns `true` if the curve has this name, identifier and length of field elements in bytes.
fn is_described(curve: Curve, name: &str, identifier: &ObjectIdentifier, field_len: usize) -> bool {
    curve.has_name(name)
        && curve.identifier() == *identifier
        && curve.content() == identifier.as_bytes()
        && curve.field_len() == field_len
}

/// Returns the length of a field element in bytes and the identifier, as a line of OpenSSL's table
/// has them.
fn described(alloc: Global, line: &str) -> Result<(usize, ObjectIdentifier), Fail> {
    let mut words = line.split(' ').skip(1);
    let field_len = words.next().unwrap_or("").parse::<usize>()?.div_ceil(8);
    let identifier = hex::decode(alloc, words.next().unwrap_or(""))?;
    Ok((field_len, from_der(&identifier)?))
}

/// Returns the curve of this name, and those of this identifier and of its content.
fn curves(name: &str, identifier: &ObjectIdentifier) -> [Option<Curve>; 3] {
    [
        Curve::from_name(name),
        Curve::from_identifier(identifier),
        Curve::from_content(identifier.as_bytes()),
    ]
}

/// Returns the curve that a line of OpenSSL's table describes. Fails the test if it is found
/// otherwise by its name or its identifier, or isn't in the table though it should be.
fn curve_of(rt: &(impl Abort + AllocGlobal), line: &str) -> Result<Option<Curve>, Fail> {
    let name = line.split(' ').next().unwrap_or("");
    let (field_len, identifier) = described(rt.alloc(), line)?;
    let curve = Curve::from_name(name);
    assert_equal_for(rt, &name, &curves(name, &identifier), &[curve; 3]);
    let is_right = match curve {
        Some(curve) => is_described(curve, name, &identifier, field_len),
        None => name == "SM2" || name.starts_with("wap-wsg-idm-ecid-wtls"),
    };
    assert_equal_for(rt, &name, &is_right, &true);
    Ok(curve)
}

/// Returns the curves that the lines of OpenSSL's table describe.
fn curves_of(rt: &(impl Abort + AllocGlobal)) -> Result<Vec<Curve>, Fail> {
    let mut found = Vec::new(rt.alloc());
    for line in OPENSSL.lines().skip(1) {
        if let Some(curve) = curve_of(rt, line)? {
            found.push(curve)?;
        }
    }
    Ok(found)
}

/// Each curve of the table is one of OpenSSL's, with the name, the identifier and the length of the
/// field that it has there. Of OpenSSL's curves over prime fields only those of WTLS and SM2 aren't
/// in the table.
#[test]
fn has_the_curves_of_openssl(rt: HostRuntime) -> Result<(), Fail> {
    let found = curves_of(&rt)?;
    assert_equal(&rt, &found.len(), &Curve::ALL.len());
    for curve in Curve::ALL {
        assert_equal_for(&rt, &curve, &found.contains(&curve), &true);
    }
    Ok(())
}

/// Names that OpenSSL takes for a curve beside the one that it lists, as by
/// `openssl ecparam -name P-256`, and names that it doesn't know.
static NAMES: [(&str, Option<Curve>); 16] = [
    ("P-192", Some(Curve::Secp192r1)),
    ("P-224", Some(Curve::Secp224r1)),
    ("P-256", Some(Curve::Secp256r1)),
    ("P-384", Some(Curve::Secp384r1)),
    ("P-521", Some(Curve::Secp521r1)),
    ("secp192r1", Some(Curve::Secp192r1)),
    ("secp256r1", Some(Curve::Secp256r1)),
    ("prime192v1", Some(Curve::Secp192r1)),
    ("prime256v1", Some(Curve::Secp256r1)),
    ("brainpoolP512t1", Some(Curve::BrainpoolP512t1)),
    ("", None),
    ("p-256", None),
    ("P-256 ", None),
    ("SECP256R1", None),
    ("prime256", None),
    ("SM2", None),
];

#[test]
fn finds_curves_by_each_name(rt: HostRuntime) {
    for &(name, curve) in NAMES.iter() {
        assert_equal_for(&rt, &name, &Curve::from_name(name), &curve);
    }
}
