//! A component that may be absent.
ghost use Rattle.std.specs.Option.{option_map};
ghost use Rattle.std.specs.Fmt.{debug_variant, debug_option};
ghost use Rattle.std.specs.Prelude.{codes, Option};
ghost use Rattle.sec1_der.specs.Parts.{optional_of, optional_tag};
ghost use Rattle.sec1_der.specs.PartLaws.{optional_begins};
ghost use Rattle.sec1_der.specs.Faults.{optional_fault};

use crate::{
    BackWriter, DecodePart, DecodeValue, EncodePart, EncodeValue, Length, Part, Result,
    SliceReader, Tagged, UniqueContent, UniquePart, ValueContent, component_len, known_encoded_len,
};
use std::marker::Model;

/// An OPTIONAL component: the element of a value, if its tag is next. A contract sees the value, if
/// present.
#[derive(Clone, Copy, Debug, PartialEq, Eq, Drop)]
pub struct Optional<A>(pub Option<A>);

impl<A> Model for Optional<A> {
    ghost Value = { Option A };

    ghost view = { λ part. part.0 };

    ghost inverse = { λ value. record { 0 = value } };
}

impl<A: ValueContent + Tagged> Part for Optional<A> {
    ghost bytes = { λ value. optional_of A.tag_byte (option_map A.content value) };

    ghost and_then = { optional_fault A.tag_byte A.fault };

    ghost tags = { optional_tag A.tag_byte };

    ghost begins = { λ value whole same.
        optional_begins A.tag_byte (option_map A.content value) whole same };
}

impl<A: EncodeValue + Tagged> EncodePart for Optional<A> {
    // Inlined, so that the length isn't returned through memory.
    #[inline(always)]
    fn part_len(&self) -> Result<Length> {
        match &self.0 {
            Some(value) => component_len(value),
            None => Length::new(0),
        }
    }

    fn known_part_len(&self) -> usize {
        match &self.0 {
            Some(value) => known_encoded_len(value),
            None => 0,
        }
    }

    // Inlined, so that an absent part is written without a call.
    #[inline(always)]
    fn prepend_part(&self, writer: &mut BackWriter) {
        if let Some(value) = &self.0 {
            writer.prepend_element(value);
        }
    }
}

impl<'a, A: DecodeValue<'a> + Tagged + Drop> DecodePart<'a> for Optional<A> {
    #[tactic(auto, using(crate::proofs::PartLemmas::one_element))]
    fn decode_part(reader: &mut SliceReader<'a>) -> Result<Self> {
        if reader.peek_tag_byte() != Some(A::fixed_tag().byte()) {
            return Ok(Optional(None));
        }
        match reader.decode::<A>() {
            Ok(value) => Ok(Optional(Some(value))),
            Err(e) => Err(e),
        }
    }
}

impl<A: UniqueContent + Tagged> UniquePart for Optional<A> {
    #[tactic(auto, using(crate::proofs::UniqueLemmas::optional_distinct))]
    fn bytes_injective() {
        A::content_injective();
    }
}
