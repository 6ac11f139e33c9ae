ghost use Rattle.sec1_der.specs.Elements.{element_of};
ghost use Rattle.sec1_der.specs.Faults.{element_fault};
ghost use Rattle.sec1_der.specs.PartLaws.{element_begins};
ghost use Rattle.sec1_der.specs.Parts.{AreDistinct, one_tag};

use super::algorithm::AlgorithmIdentifier;
use sec1_der::{
    BackWriter, DecodePart, EncodePart, Length, Part, Required, Result, SliceReader, UniquePart,
    ValueContent, component_len, decode_component,
};

impl Part for AlgorithmIdentifier {
    ghost bytes = { λ value.
        element_of 0x30 (⟦<AlgorithmIdentifier as ValueContent>⟧.content value) };

    ghost and_then = { element_fault 0x30 ⟦<AlgorithmIdentifier as ValueContent>⟧.fault };

    ghost tags = { one_tag 0x30 };

    ghost begins = { λ value.
        element_begins 0x30 (⟦<AlgorithmIdentifier as ValueContent>⟧.content value) };
}

impl EncodePart for AlgorithmIdentifier {
    fn part_len(&self) -> Result<Length> {
        component_len(self)
    }

    fn prepend_part(&self, writer: &mut BackWriter) {
        writer.prepend_element(self);
    }
}

impl<'a> DecodePart<'a> for AlgorithmIdentifier {
    fn decode_part(reader: &mut SliceReader<'a>) -> Result<Self> {
        decode_component(reader)
    }
}

impl UniquePart for AlgorithmIdentifier {
    fn bytes_injective()
        ensures { AreDistinct (one_tag 0x30) (λ value.
            element_of 0x30 (⟦<AlgorithmIdentifier as ValueContent>⟧.content value)) }
    {
        Required::<AlgorithmIdentifier>::bytes_injective();
    }
}
