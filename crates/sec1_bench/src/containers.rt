//! Records of a caller's own: certificates and containers of keys by `pkix`.
use crate::keys::point_sum;
use crate::length_and_last;
use pkix::{Certificate, PrivateKeyInfo};

/// Reads a certificate and the point of its public key. Returns the length of the point and its
/// last byte, added up.
#[unsafe(no_mangle)]
pub extern "C" fn bench_certificate_point(input: &[u8]) -> usize {
    let Ok(certificate) = Certificate::from_der(input) else {
        return 0;
    };
    match certificate.tbs_certificate.public_key.point::<32, 65>() {
        Ok(point) => length_and_last(point.as_bytes()),
        Err(_) => 0,
    }
}

/// Reads a container, the key in it, and the key's point. Returns the length of the point and its
/// last byte, added up.
#[unsafe(no_mangle)]
pub extern "C" fn bench_container_point(input: &[u8]) -> usize {
    let Ok(container) = PrivateKeyInfo::from_der(input) else {
        return 0;
    };
    match container.ec_private_key() {
        Ok(key) => point_sum(&key),
        Err(_) => 0,
    }
}
