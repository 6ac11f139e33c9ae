//! A record of your own with another inside it, whose bytes are a reference: a contract sees its
//! parts. It is read exactly, with no proof file.
ghost use Rattle.std.specs.Prelude.{◌≡◌, Ok, Some, IfOk, refl};
ghost use Rattle.examples.specs.Digests.{Digest, digest_content, digest_fault};
ghost use Rattle.sec1.specs.Der.{HasFault, element_fault, element_of, end_fault};

use pkix::AlgorithmIdentifier;
use sec1_der::{Distinct, Octets, Record, Required, Result, read_der};
use std::marker::Model;

/// A hash value with its algorithm, whose bytes are borrowed (RFC 8017 section 9.2).
#[derive(Drop)]
pub struct DigestInfo<'a> {
    /// The hash function.
    pub algorithm: AlgorithmIdentifier<'a>,
    /// The bytes of the hash value.
    pub digest: &'a [u8],
}

impl<'a> Model for DigestInfo<'a> {
    ghost Value = { Digest };

    ghost view = { λ info. record { algorithm = info.algorithm; bytes = info.digest.now } };
}

impl<'a> Record for DigestInfo<'a> {
    type Parts = (AlgorithmIdentifier<'a>, Required<Octets<'a>>);

    ghost parts = { λ info. (info.algorithm, info.bytes) };

    ghost of_parts = { λ pairs. record { algorithm = pairs.0; bytes = pairs.1 } };

    fn from_parts((algorithm, octets): Self::Parts) -> Self {
        DigestInfo {
            algorithm,
            digest: octets.0.bytes,
        }
    }

    fn to_parts(&self) -> Self::Parts {
        let bytes = self.digest;
        (self.algorithm.reborrow(), Required(Octets { bytes }))
    }

    ghost same = { λ _. refl };
}

impl Distinct for DigestInfo<'_> {
    ghost distinct = { refl };
}

/// Reads a hash value and its algorithm from their whole DER encoding.
///
/// # Errors
///
/// Those of [`read_der`].
pub fn read_digest(bytes: &[u8]) -> Result<DigestInfo<'_>>
    ensures found { IfOk result (λ info. element_of 0x30 (digest_content info) ≡ Some bytes.now) }
    ensures only { (info : Digest) → element_of 0x30 (digest_content info) ≡ Some bytes.now
        → result ≡ Ok info }
    ensures kind { HasFault result (element_fault 0x30 digest_fault end_fault bytes.now) }
{
    read_der(bytes)
}
