//! Algorithms by their identifiers.
ghost use Rattle.std.specs.Prelude.{refl};
ghost use Rattle.sec1_der.specs.Elements.{element_of};
ghost use Rattle.sec1_der.specs.Parts.{AreDistinct, one_tag};
ghost use Rattle.sec1_der.specs.PartLaws.{element_begins};
ghost use Rattle.sec1_der.specs.Faults.{element_fault};
ghost use Rattle.pkix.specs.Records.{algorithm_content, algorithm_fault};

use crate::in_place::{ReadInPlace, read_part, read_record};
use der_types::{Any, ObjectIdentifierRef, OptionalPart};
use sec1_der::{
    BackWriter, DecodePart, Distinct, EncodePart, Length, Part, Record, Required, Result,
    SliceReader, UniquePart, component_len, known_encoded_len,
};

/// An AlgorithmIdentifier (RFC 5280 section 4.1.1.2). Its parameters are any element, NULL among
/// them.
#[derive(Drop)]
pub struct AlgorithmIdentifier<'a> {
    /// The identifier of the algorithm.
    pub algorithm: ObjectIdentifierRef<'a>,
    /// The parameters of the algorithm, if present.
    pub parameters: Option<Any<'a>>,
}

impl<'a> Record for AlgorithmIdentifier<'a> {
    type Parts = (Required<ObjectIdentifierRef<'a>>, OptionalPart<Any<'a>>);

    ghost parts = { λ value. (value.algorithm, value.parameters) };

    ghost of_parts = { λ pairs. record { algorithm = pairs.0; parameters = pairs.1 } };

    fn from_parts((algorithm, parameters): Self::Parts) -> Self {
        AlgorithmIdentifier {
            algorithm: algorithm.0,
            parameters: parameters.0,
        }
    }

    fn to_parts(&self) -> Self::Parts {
        let parameters = match &self.parameters {
            Some(any) => Some(any.reborrow()),
            None => None,
        };
        (
            Required(self.algorithm.reborrow()),
            OptionalPart(parameters),
        )
    }

    ghost same = { λ _. refl };
}

impl Distinct for AlgorithmIdentifier<'_> {
    ghost distinct = { refl };
}

impl Part for AlgorithmIdentifier<'_> {
    ghost bytes = { λ value. element_of 0x30 (algorithm_content value) };

    ghost and_then = { element_fault 0x30 algorithm_fault };

    ghost tags = { one_tag 0x30 };

    ghost begins = { λ value. element_begins 0x30 (algorithm_content value) };
}

impl EncodePart for AlgorithmIdentifier<'_> {
    fn part_len(&self) -> Result<Length> {
        component_len(self)
    }

    fn known_part_len(&self) -> usize {
        known_encoded_len(self)
    }

    fn prepend_part(&self, writer: &mut BackWriter) {
        writer.prepend_element(self);
    }
}

impl<'a> DecodePart<'a> for AlgorithmIdentifier<'a> {
    fn decode_part(reader: &mut SliceReader<'a>) -> Result<Self> {
        read_part(reader)
    }
}

impl<'a> ReadInPlace<'a> for AlgorithmIdentifier<'a> {
    fn empty() -> Self {
        AlgorithmIdentifier {
            algorithm: ObjectIdentifierRef::default(),
            parameters: None,
        }
    }

    fn read_in_place(&mut self, reader: &mut SliceReader<'a>) -> Result<()> {
        read_record(self, reader)
    }
}

impl UniquePart for AlgorithmIdentifier<'_> {
    fn bytes_injective()
        ensures { AreDistinct (one_tag 0x30) (λ value. element_of 0x30 (algorithm_content value)) }
    {
        Required::<AlgorithmIdentifier>::bytes_injective();
    }
}
