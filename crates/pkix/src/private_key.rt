//! Containers of private keys.
ghost use Rattle.std.specs.Prelude.{refl, true};
ghost use Rattle.pkix.specs.Records.{asymmetric_key_content, asymmetric_key_fault};
ghost use Rattle.sec1_der.specs.Readers.{ReadsElement};
ghost use Rattle.pkix.specs.Records.{private_key_content, private_key_fault};

use crate::AlgorithmIdentifier;
use crate::in_place::{ReadInPlace, read_whole};
use der_types::{Bits, Implicit, Kind, Leaf, ObjectIdentifierRef, SetOf};
use sec1_der::{
    Context0, Distinct, Octets, Optional, Primitive1, Record, Required, Result, SmallInteger, Tag,
    Tagged,
};

/// The SET of the values of an attribute, whose content isn't examined.
pub struct ValueSet;

impl Tagged for ValueSet {
    ghost tag_byte = { 0x31 };

    fn fixed_tag() -> Tag {
        Tag::SET
    }
}

impl Kind for ValueSet {
    ghost passes = { λ _. true };

    fn test(_bytes: &[u8]) -> bool {
        true
    }
}

/// An Attribute (RFC 5958 section 2). Its values aren't examined.
#[derive(Drop)]
pub struct Attribute<'a> {
    /// The identifier of the attribute.
    pub kind: ObjectIdentifierRef<'a>,
    /// The values of the attribute.
    pub values: Leaf<'a, ValueSet>,
}

impl<'a> Record for Attribute<'a> {
    type Parts = (
        Required<ObjectIdentifierRef<'a>>,
        Required<Leaf<'a, ValueSet>>,
    );

    ghost parts = { λ value. (value.kind, value.values) };

    ghost of_parts = { λ pairs. record { kind = pairs.0; values = pairs.1 } };

    fn from_parts((kind, values): Self::Parts) -> Self {
        Attribute {
            kind: kind.0,
            values: values.0,
        }
    }

    fn to_parts(&self) -> Self::Parts {
        (
            Required(self.kind.reborrow()),
            Required(self.values.reborrow()),
        )
    }

    ghost same = { λ _. refl };
}

impl Distinct for Attribute<'_> {
    ghost distinct = { refl };
}

/// The attributes of a container.
pub type Attributes<'a> = Implicit<Context0, SetOf<'a, Attribute<'a>>>;

/// A PrivateKeyInfo (RFC 5208 section 5), which is a OneAsymmetricKey of version 0.
#[derive(Drop)]
pub struct PrivateKeyInfo<'a> {
    /// The algorithm of the key.
    pub algorithm: AlgorithmIdentifier<'a>,
    /// The bytes of the OCTET STRING: the encoding of the key, as its algorithm has it.
    pub private_key: Octets<'a>,
    /// The attributes, if present.
    pub attributes: Option<Attributes<'a>>,
}

impl<'a> Record for PrivateKeyInfo<'a> {
    type Parts = (
        Required<SmallInteger<0>>,
        (
            AlgorithmIdentifier<'a>,
            (Required<Octets<'a>>, Optional<Attributes<'a>>),
        ),
    );

    ghost parts = { λ value.
        (record {}, (value.algorithm, (value.private_key, value.attributes))) };

    ghost of_parts = { λ pairs. record {
      algorithm = pairs.1.0;
      private_key = pairs.1.1.0;
      attributes = pairs.1.1.1;
    } };

    fn from_parts((_, (algorithm, (private_key, attributes))): Self::Parts) -> Self {
        PrivateKeyInfo {
            algorithm,
            private_key: private_key.0,
            attributes: attributes.0,
        }
    }

    fn to_parts(&self) -> Self::Parts {
        let bytes = self.private_key.bytes;
        let attributes = match &self.attributes {
            Some(attributes) => Some(Implicit::new(attributes.value.reborrow())),
            None => None,
        };
        (
            Required(SmallInteger),
            (
                self.algorithm.reborrow(),
                (Required(Octets { bytes }), Optional(attributes)),
            ),
        )
    }

    ghost same = { λ _. refl };
}

impl Distinct for PrivateKeyInfo<'_> {
    ghost distinct = { refl };
}

/// A OneAsymmetricKey of version 1 (RFC 5958 section 2). [`PrivateKeyInfo`] is one of version 0.
#[derive(Drop)]
pub struct OneAsymmetricKey<'a> {
    /// The algorithm of the key.
    pub algorithm: AlgorithmIdentifier<'a>,
    /// The bytes of the OCTET STRING: the encoding of the key, as its algorithm has it.
    pub private_key: Octets<'a>,
    /// The attributes, if present.
    pub attributes: Option<Attributes<'a>>,
    /// The public key, if present.
    pub public_key: Option<Implicit<Primitive1, Bits<'a>>>,
}

impl<'a> Record for OneAsymmetricKey<'a> {
    type Parts = (
        Required<SmallInteger<1>>,
        (
            (AlgorithmIdentifier<'a>, Required<Octets<'a>>),
            (
                Optional<Attributes<'a>>,
                Optional<Implicit<Primitive1, Bits<'a>>>,
            ),
        ),
    );

    ghost parts = { λ value.
        (record {}, ((value.algorithm, value.private_key), (value.attributes, value.public_key))) };

    ghost of_parts = { λ pairs. record {
      algorithm = pairs.1.0.0;
      private_key = pairs.1.0.1;
      attributes = pairs.1.1.0;
      public_key = pairs.1.1.1;
    } };

    fn from_parts(pairs: Self::Parts) -> Self {
        let (_, ((algorithm, private_key), (attributes, public_key))) = pairs;
        OneAsymmetricKey {
            algorithm,
            private_key: private_key.0,
            attributes: attributes.0,
            public_key: public_key.0,
        }
    }

    fn to_parts(&self) -> Self::Parts {
        let bytes = self.private_key.bytes;
        let attributes = match &self.attributes {
            Some(attributes) => Some(Implicit::new(attributes.value.reborrow())),
            None => None,
        };
        let public_key = match &self.public_key {
            Some(bits) => Some(Implicit::new(bits.value.reborrow())),
            None => None,
        };
        (
            Required(SmallInteger),
            (
                (self.algorithm.reborrow(), Required(Octets { bytes })),
                (Optional(attributes), Optional(public_key)),
            ),
        )
    }

    ghost same = { λ _. refl };
}

impl Distinct for OneAsymmetricKey<'_> {
    ghost distinct = { refl };
}

impl<'a> PrivateKeyInfo<'a> {
    /// Reads a container of version 0 from its whole DER encoding.
    ///
    /// # Errors
    ///
    /// Those of [`read_der`](sec1_der::read_der).
    pub fn from_der(bytes: &'a [u8]) -> Result<PrivateKeyInfo<'a>>
        ensures { ReadsElement 0x30 private_key_content private_key_fault bytes.now result }
    {
        let mut parts = <PrivateKeyInfo as Record>::Parts::empty();
        read_whole::<PrivateKeyInfo>(&mut parts, bytes)?;
        Ok(PrivateKeyInfo::from_parts(parts))
    }
}

impl<'a> OneAsymmetricKey<'a> {
    /// Reads a container of version 1 from its whole DER encoding.
    ///
    /// # Errors
    ///
    /// Those of [`read_der`](sec1_der::read_der).
    pub fn from_der(bytes: &'a [u8]) -> Result<OneAsymmetricKey<'a>>
        ensures { ReadsElement 0x30 asymmetric_key_content asymmetric_key_fault bytes.now
            result }
    {
        let mut parts = <OneAsymmetricKey as Record>::Parts::empty();
        read_whole::<OneAsymmetricKey>(&mut parts, bytes)?;
        Ok(OneAsymmetricKey::from_parts(parts))
    }
}
