//! The fields of each structure, separated by blanks.

use crate::words::joined;
use der_types::{Any, Bits, Choice, Implicit, Unsigned};
use hex::ToHex;
use pkix::{
    AlgorithmIdentifier, Attributes, Certificate, EcdsaSigValue, LaterVersion, OneAsymmetricKey,
    PrivateKeyInfo, SubjectPublicKeyInfo, TbsCertificate, Time,
};
use sec1::{EcParameters, EcPrivateKey};
use std::alloc::{AllocError, Global};

/// Returns the hexadecimal digits of the bytes, or `empty` if there are none.
fn digits(alloc: Global, bytes: &[u8]) -> Result<String, AllocError> {
    if bytes.is_empty() {
        return "empty".to_string(alloc);
    }
    bytes.encode_hex(alloc)
}

/// Returns the digits of an element, or `-` if it is absent.
fn element_or_none(alloc: Global, element: &Option<Any>) -> Result<String, AllocError> {
    match element {
        Some(any) => digits(alloc, any.element()),
        None => "-".to_string(alloc),
    }
}

/// Returns the digits of a bit string's content: the number of unused bits, and the bytes.
fn bits(alloc: Global, bits: &Bits) -> Result<String, AllocError> {
    let unused = bits.unused_bits();
    let unused = format!(in alloc; "{unused:02x}");
    joined(alloc, "", [unused, bits.raw_bytes().encode_hex(alloc)])
}

/// Returns the digits of a bit string's content, or `-` if it is absent.
fn bits_or_none<K>(alloc: Global, field: &Option<Implicit<K, Bits>>) -> Result<String, AllocError> {
    match field {
        Some(field) => bits(alloc, &field.value),
        None => "-".to_string(alloc),
    }
}

/// Returns the digits of a number without the byte of its sign.
fn number(alloc: Global, number: &Unsigned) -> Result<String, AllocError> {
    match number.as_bytes() {
        [0, rest @ ..] if !rest.is_empty() => digits(alloc, rest),
        bytes => digits(alloc, bytes),
    }
}

/// Returns the identifier of an algorithm and its parameters.
fn algorithm(alloc: Global, value: &AlgorithmIdentifier) -> Result<String, AllocError> {
    let identifier = digits(alloc, value.algorithm.as_bytes());
    let parameters = element_or_none(alloc, &value.parameters);
    joined(alloc, ":", [identifier, parameters])
}

/// Returns the type of a time and its characters.
fn time(alloc: Global, time: &Time) -> Result<String, AllocError> {
    let (letter, bytes) = match time {
        Choice::First(utc) => ("u", utc.0.as_bytes()),
        Choice::Second(general) => ("g", general.0.as_bytes()),
    };
    match std::str::from_utf8(bytes) {
        Ok(text) => format!(in alloc; "{letter}:{text}"),
        Err(_) => "not text".to_string(alloc),
    }
}

/// Returns the hexadecimal digits of a field of a key, in upper case, or `-` if it has no bytes.
fn key_digits(alloc: Global, bytes: &[u8]) -> Result<String, AllocError> {
    if bytes.is_empty() {
        return "-".to_string(alloc);
    }
    bytes.encode_hex_upper(alloc)
}

/// Returns the private key, the curve and the public key of an EC private key, the last two `none`
/// if absent.
pub(crate) fn ec_private_key(alloc: Global, key: &EcPrivateKey) -> Result<String, AllocError> {
    let private_key = key_digits(alloc, key.private_key);
    let curve = match key.parameters {
        Some(EcParameters::NamedCurve(curve)) => curve.to_string(alloc),
        None => "none".to_string(alloc),
    };
    let public_key = match key.public_key {
        Some(bytes) => key_digits(alloc, bytes),
        None => "none".to_string(alloc),
    };
    joined(alloc, " ", [private_key, curve, public_key])
}

/// Returns the fields of a signature.
pub(crate) fn signature(alloc: Global, value: &EcdsaSigValue) -> Result<String, AllocError> {
    joined(
        alloc,
        " ",
        [number(alloc, &value.r), number(alloc, &value.s)],
    )
}

/// Returns the fields of a public key.
pub(crate) fn public_key_info(
    alloc: Global,
    value: &SubjectPublicKeyInfo,
) -> Result<String, AllocError> {
    let identifier = digits(alloc, value.algorithm.algorithm.as_bytes());
    let parameters = element_or_none(alloc, &value.algorithm.parameters);
    let bits = bits(alloc, &value.public_key);
    joined(alloc, " ", [identifier, parameters, bits])
}

/// Returns the digits of the attributes of a container, or `-` if they are absent.
fn attributes(alloc: Global, value: &Option<Attributes>) -> Result<String, AllocError> {
    match value {
        Some(attributes) => digits(alloc, attributes.value.as_bytes()),
        None => "-".to_string(alloc),
    }
}

/// Returns the fields that containers of both versions have.
fn container(
    alloc: Global,
    algorithm: &AlgorithmIdentifier,
    key: &[u8],
    value: &Option<Attributes>,
) -> Result<String, AllocError> {
    let identifier = digits(alloc, algorithm.algorithm.as_bytes());
    let parameters = element_or_none(alloc, &algorithm.parameters);
    let key = digits(alloc, key);
    joined(
        alloc,
        " ",
        [identifier, parameters, key, attributes(alloc, value)],
    )
}

/// Returns the fields of a container of version 0.
pub(crate) fn private_key_info(
    alloc: Global,
    value: &PrivateKeyInfo,
) -> Result<String, AllocError> {
    let fields = container(
        alloc,
        &value.algorithm,
        value.private_key.bytes,
        &value.attributes,
    );
    joined(
        alloc,
        " ",
        ["0".to_string(alloc), fields, "-".to_string(alloc)],
    )
}

/// Returns the fields of a container of version 1.
pub(crate) fn one_asymmetric_key(
    alloc: Global,
    value: &OneAsymmetricKey,
) -> Result<String, AllocError> {
    let fields = container(
        alloc,
        &value.algorithm,
        value.private_key.bytes,
        &value.attributes,
    );
    let public_key = bits_or_none(alloc, &value.public_key);
    joined(alloc, " ", ["1".to_string(alloc), fields, public_key])
}

/// Returns the number of the version of a certificate, from 1 to 3.
fn version(value: &TbsCertificate) -> u8 {
    match &value.version {
        None => 1,
        Some(version) => match version.value {
            LaterVersion::V2 => 2,
            LaterVersion::V3 => 3,
        },
    }
}

/// Returns the fields from the version to the algorithm of the signature.
fn front(alloc: Global, value: &TbsCertificate) -> Result<String, AllocError> {
    let version = version(value).to_string(alloc);
    let serial = digits(alloc, value.serial_number.as_bytes());
    joined(
        alloc,
        " ",
        [version, serial, algorithm(alloc, &value.signature)],
    )
}

/// Returns the times in which a certificate is valid.
fn validity(alloc: Global, value: &TbsCertificate) -> Result<String, AllocError> {
    let not_before = time(alloc, &value.validity.not_before);
    let not_after = time(alloc, &value.validity.not_after);
    joined(alloc, " ", [not_before, not_after])
}

/// Returns the fields from the version to the subject.
fn names(alloc: Global, value: &TbsCertificate) -> Result<String, AllocError> {
    let front = front(alloc, value);
    let issuer = digits(alloc, value.issuer.as_bytes());
    let subject = digits(alloc, value.subject.as_bytes());
    joined(alloc, " ", [front, issuer, validity(alloc, value), subject])
}

/// Returns the unique identifiers and the extensions.
fn additions(alloc: Global, value: &TbsCertificate) -> Result<String, AllocError> {
    let issuer = bits_or_none(alloc, &value.issuer_unique_id);
    let subject = bits_or_none(alloc, &value.subject_unique_id);
    let extensions = match &value.extensions {
        Some(extensions) => digits(alloc, extensions.value.as_bytes()),
        None => "-".to_string(alloc),
    };
    joined(alloc, " ", [issuer, subject, extensions])
}

/// Returns the algorithm and the value of the signature of a certificate.
fn signed(alloc: Global, value: &Certificate) -> Result<String, AllocError> {
    let algorithm = algorithm(alloc, &value.signature_algorithm);
    joined(alloc, " ", [algorithm, bits(alloc, &value.signature)])
}

/// Returns the fields of a certificate.
pub(crate) fn certificate(alloc: Global, value: &Certificate) -> Result<String, AllocError> {
    let names = names(alloc, &value.tbs_certificate);
    let key = public_key_info(alloc, &value.tbs_certificate.public_key);
    let additions = additions(alloc, &value.tbs_certificate);
    joined(alloc, " ", [names, key, additions, signed(alloc, value)])
}
