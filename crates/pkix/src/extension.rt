//! Extensions of certificates.
ghost use Rattle.std.specs.Prelude.{refl};
ghost use Rattle.pkix.specs.Records.{extension_content, extension_fault};
ghost use Rattle.sec1_der.specs.Readers.{ReadsElement};

use der_types::{Boolean, Defaulted, ObjectIdentifierRef};
use sec1_der::{Distinct, Octets, Record, Required, Result, read_der};

/// An Extension (RFC 5280 section 4.1).
#[derive(Drop)]
pub struct Extension<'a> {
    /// The identifier of the extension.
    pub identifier: ObjectIdentifierRef<'a>,
    /// Whether a reader that doesn't know the extension must refuse the certificate. It is FALSE by
    /// default.
    pub critical: Boolean,
    /// The bytes of the OCTET STRING: the encoding of the extension's value.
    pub value: Octets<'a>,
}

impl<'a> Record for Extension<'a> {
    type Parts = (
        Required<ObjectIdentifierRef<'a>>,
        (Defaulted<Boolean>, Required<Octets<'a>>),
    );

    ghost parts = { λ value. (value.identifier, (value.critical, value.value)) };

    ghost of_parts = { λ pairs.
        record { identifier = pairs.0; critical = pairs.1.0; value = pairs.1.1 } };

    fn from_parts((identifier, (critical, value)): Self::Parts) -> Self {
        Extension {
            identifier: identifier.0,
            critical: critical.0,
            value: value.0,
        }
    }

    fn to_parts(&self) -> Self::Parts {
        let bytes = self.value.bytes;
        (
            Required(self.identifier.reborrow()),
            (Defaulted(self.critical), Required(Octets { bytes })),
        )
    }

    ghost same = { λ _. refl };
}

impl Distinct for Extension<'_> {
    ghost distinct = { refl };
}

impl<'a> Extension<'a> {
    /// Reads an extension from its whole DER encoding.
    ///
    /// # Errors
    ///
    /// Those of [`read_der`].
    pub fn from_der(bytes: &'a [u8]) -> Result<Extension<'a>>
        ensures { ReadsElement 0x30 extension_content extension_fault bytes.now result }
    {
        read_der(bytes)
    }
}
