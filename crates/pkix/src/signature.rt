//! Signatures of ECDSA.
ghost use Rattle.std.specs.Prelude.{refl};
ghost use Rattle.pkix.specs.Records.{signature_content, signature_fault};
ghost use Rattle.sec1_der.specs.Readers.{ReadsElement};

use der_types::Unsigned;
use sec1_der::{Distinct, Record, Required, Result, read_der};

/// An ECDSA-Sig-Value (RFC 3279 section 2.2.3). A contract sees the numbers.
#[derive(Drop)]
pub struct EcdsaSigValue<'a> {
    /// The x-coordinate of a point, modulo the order of the curve.
    pub r: Unsigned<'a>,
    /// The number that was computed from `r`, the hash and the private key.
    pub s: Unsigned<'a>,
}

impl<'a> Record for EcdsaSigValue<'a> {
    type Parts = (Required<Unsigned<'a>>, Required<Unsigned<'a>>);

    ghost parts = { λ value. (value.r, value.s) };

    ghost of_parts = { λ pairs. record { r = pairs.0; s = pairs.1 } };

    fn from_parts((r, s): Self::Parts) -> Self {
        EcdsaSigValue { r: r.0, s: s.0 }
    }

    fn to_parts(&self) -> Self::Parts {
        (Required(self.r.reborrow()), Required(self.s.reborrow()))
    }

    ghost same = { λ _. refl };
}

impl Distinct for EcdsaSigValue<'_> {
    ghost distinct = { refl };
}

impl<'a> EcdsaSigValue<'a> {
    /// Reads a signature from its whole DER encoding.
    ///
    /// # Errors
    ///
    /// Those of [`read_der`].
    pub fn from_der(bytes: &'a [u8]) -> Result<EcdsaSigValue<'a>>
        ensures { ReadsElement 0x30 signature_content signature_fault bytes.now result }
    {
        read_der(bytes)
    }
}
