//! Public keys with their algorithms.
ghost use Rattle.std.specs.Prelude.{refl};
ghost use Rattle.sec1_der.specs.Elements.{element_of};
ghost use Rattle.sec1_der.specs.Parts.{AreDistinct, one_tag};
ghost use Rattle.sec1_der.specs.PartLaws.{element_begins};
ghost use Rattle.sec1_der.specs.Faults.{element_fault};
ghost use Rattle.pkix.specs.Records.{public_key_content, public_key_fault};
ghost use Rattle.sec1_der.specs.Readers.{ReadsElement};

use crate::AlgorithmIdentifier;
use crate::in_place::{ReadInPlace, read_part, read_record, read_whole};
use der_types::Bits;
use sec1_der::{
    BackWriter, DecodePart, Distinct, EncodePart, Length, Part, Record, Required, Result,
    SliceReader, UniquePart, component_len, known_encoded_len,
};

/// A SubjectPublicKeyInfo (RFC 5280 section 4.1).
#[derive(Drop)]
pub struct SubjectPublicKeyInfo<'a> {
    /// The algorithm of the key.
    pub algorithm: AlgorithmIdentifier<'a>,
    /// The key.
    pub public_key: Bits<'a>,
}

impl<'a> Record for SubjectPublicKeyInfo<'a> {
    type Parts = (AlgorithmIdentifier<'a>, Required<Bits<'a>>);

    ghost parts = { λ value. (value.algorithm, value.public_key) };

    ghost of_parts = { λ pairs. record { algorithm = pairs.0; public_key = pairs.1 } };

    fn from_parts((algorithm, public_key): Self::Parts) -> Self {
        SubjectPublicKeyInfo {
            algorithm,
            public_key: public_key.0,
        }
    }

    fn to_parts(&self) -> Self::Parts {
        (
            self.algorithm.reborrow(),
            Required(self.public_key.reborrow()),
        )
    }

    ghost same = { λ _. refl };
}

impl Distinct for SubjectPublicKeyInfo<'_> {
    ghost distinct = { refl };
}

impl Part for SubjectPublicKeyInfo<'_> {
    ghost bytes = { λ value. element_of 0x30 (public_key_content value) };

    ghost and_then = { element_fault 0x30 public_key_fault };

    ghost tags = { one_tag 0x30 };

    ghost begins = { λ value. element_begins 0x30 (public_key_content value) };
}

impl EncodePart for SubjectPublicKeyInfo<'_> {
    fn part_len(&self) -> Result<Length> {
        component_len(self)
    }

    fn known_part_len(&self) -> usize {
        known_encoded_len(self)
    }

    fn prepend_part(&self, writer: &mut BackWriter) {
        writer.prepend_element(self);
    }
}

impl<'a> DecodePart<'a> for SubjectPublicKeyInfo<'a> {
    fn decode_part(reader: &mut SliceReader<'a>) -> Result<Self> {
        read_part(reader)
    }
}

impl<'a> ReadInPlace<'a> for SubjectPublicKeyInfo<'a> {
    fn empty() -> Self {
        SubjectPublicKeyInfo {
            algorithm: AlgorithmIdentifier::empty(),
            public_key: Bits::default(),
        }
    }

    fn read_in_place(&mut self, reader: &mut SliceReader<'a>) -> Result<()> {
        read_record(self, reader)
    }
}

impl UniquePart for SubjectPublicKeyInfo<'_> {
    fn bytes_injective()
        ensures { AreDistinct (one_tag 0x30) (λ value. element_of 0x30 (public_key_content value)) }
    {
        Required::<SubjectPublicKeyInfo>::bytes_injective();
    }
}

impl<'a> SubjectPublicKeyInfo<'a> {
    /// Reads a public key with its algorithm from its whole DER encoding.
    ///
    /// # Errors
    ///
    /// Those of [`read_der`](sec1_der::read_der).
    pub fn from_der(bytes: &'a [u8]) -> Result<SubjectPublicKeyInfo<'a>>
        ensures { ReadsElement 0x30 public_key_content public_key_fault bytes.now result }
    {
        let mut parts = <Self as Record>::Parts::empty();
        read_whole::<Self>(&mut parts, bytes)?;
        Ok(Self::from_parts(parts))
    }
}
