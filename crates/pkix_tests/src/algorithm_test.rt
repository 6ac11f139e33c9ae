use super::algorithm::AlgorithmIdentifier;
use sec1::der::{Result, from_der, to_der};

/// Reads an algorithm from the bytes that OpenSSL writes, and writes it again.
#[test]
fn reads_and_writes_an_algorithm(rt: HostRuntime) {
    let bytes = [
        0x30, 0x13, 0x06, 0x07, 0x2A, 0x86, 0x48, 0xCE, 0x3D, 0x02, 0x01, 0x06, 0x08, 0x2A, 0x86,
        0x48, 0xCE, 0x3D, 0x03, 0x01, 0x07,
    ];
    let read: Result<AlgorithmIdentifier> = from_der(&bytes);
    assert!(rt; read.is_ok());
    if let Ok(algorithm) = read {
        let written = to_der(rt.alloc(), &algorithm);
        assert!(rt; matches!(&written, Ok(der) if der.as_slice() == bytes.as_slice()));
    }
    assert!(rt; from_der::<AlgorithmIdentifier>(&bytes[..20]).is_err());
}
