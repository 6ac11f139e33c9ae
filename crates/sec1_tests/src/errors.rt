//! What is printed of errors.
use crate::helpers::{assert_equal, assert_shows};
use sec1::Error;
use sec1::der::{self, ErrorKind};

/// Errors, and what is printed of them.
static TEXTS: [(Error, &str); 6] = [
    (
        Error::Asn1(der::Error {
            kind: ErrorKind::Value,
        }),
        "SEC1 ASN.1 error: content not valid for its tag",
    ),
    (
        Error::Asn1(der::Error {
            kind: ErrorKind::Io,
        }),
        "SEC1 ASN.1 error: read or write failed",
    ),
    (Error::Crypto, "SEC1 cryptographic error"),
    (Error::PointEncoding, "elliptic curve point encoding error"),
    (Error::Version, "SEC1 version error"),
    (Error::Memory, "out of memory"),
];

#[test]
fn prints_errors(rt: HostRuntime) {
    for (error, text) in TEXTS.iter() {
        assert_shows(&rt, error, text);
    }
    let refused_growth = Error::from(der::Error::from(ErrorKind::Memory));
    assert_equal(&rt, &refused_growth, &Error::Memory);
}
