//! Names, which are rows of sets of attributes.
ghost use Rattle.std.specs.Prelude.{refl};
ghost use Rattle.pkix.specs.Records.{attribute_content, attribute_fault};
ghost use Rattle.sec1_der.specs.Readers.{ReadsElement};

use der_types::{Any, ObjectIdentifierRef, SequenceOf, SetOf};
use sec1_der::{Distinct, Record, Required, Result, read_der};

/// An AttributeTypeAndValue (RFC 5280 section 4.1.2.4). Its value is any element.
#[derive(Drop)]
pub struct AttributeTypeAndValue<'a> {
    /// The identifier of the attribute.
    pub kind: ObjectIdentifierRef<'a>,
    /// The value of the attribute.
    pub value: Any<'a>,
}

impl<'a> Record for AttributeTypeAndValue<'a> {
    type Parts = (Required<ObjectIdentifierRef<'a>>, Any<'a>);

    ghost parts = { λ value. (value.kind, value.value) };

    ghost of_parts = { λ pairs. record { kind = pairs.0; value = pairs.1 } };

    fn from_parts((kind, value): Self::Parts) -> Self {
        AttributeTypeAndValue {
            kind: kind.0,
            value,
        }
    }

    fn to_parts(&self) -> Self::Parts {
        (Required(self.kind.reborrow()), self.value.reborrow())
    }

    ghost same = { λ _. refl };
}

impl Distinct for AttributeTypeAndValue<'_> {
    ghost distinct = { refl };
}

impl<'a> AttributeTypeAndValue<'a> {
    /// Reads an attribute from its whole DER encoding.
    ///
    /// # Errors
    ///
    /// Those of [`read_der`].
    pub fn from_der(bytes: &'a [u8]) -> Result<AttributeTypeAndValue<'a>>
        ensures { ReadsElement 0x30 attribute_content attribute_fault bytes.now result }
    {
        read_der(bytes)
    }
}

/// A RelativeDistinguishedName (RFC 5280 section 4.1.2.4).
pub type RelativeDistinguishedName<'a> = SetOf<'a, AttributeTypeAndValue<'a>>;

/// A Name (RFC 5280 section 4.1.2.4).
pub type Name<'a> = SequenceOf<'a, RelativeDistinguishedName<'a>>;
