//! Certificates where calls that aren't inlined read and write them. `sec1_bench` reads one in one
//! place, where LLVM leaves out what that place doesn't use.
#![tactic(auto)]

use pkix::Certificate;
use sec1::der::{Result, encode_to_slice};

/// Returns the certificate, as a call that isn't inlined does.
#[inline(never)]
fn read(input: &[u8]) -> Result<Certificate<'_>> {
    Certificate::from_der(input)
}

/// Writes the certificate, as a call that isn't inlined does. Returns the length of its encoding.
#[inline(never)]
fn write(certificate: &Certificate, out: &mut [u8]) -> usize {
    encode_to_slice(certificate, out).unwrap_or(0)
}

/// Reads a certificate by a call that isn't inlined, and the point of its public key. Returns the
/// length of the point and its last byte, added up.
#[unsafe(no_mangle)]
pub extern "C" fn bench_certificate_point_called(input: &[u8]) -> usize {
    let Ok(certificate) = read(input) else {
        return 0;
    };
    let Ok(point) = certificate.tbs_certificate.public_key.point::<32, 65>() else {
        return 0;
    };
    let bytes = point.as_bytes();
    match bytes.last() {
        Some(last) => bytes.len().wrapping_add(usize::from(*last)),
        None => 0,
    }
}

/// Reads a certificate and writes it `rounds` times into the slice. Returns the sum of the lengths.
#[unsafe(no_mangle)]
pub extern "C" fn bench_certificate_write(input: &[u8], out: &mut [u8], rounds: usize) -> usize {
    let Ok(certificate) = read(input) else {
        return 0;
    };
    let mut sum: usize = 0;
    for _ in 0..rounds {
        sum = sum.wrapping_add(write(&certificate, out));
    }
    sum
}
