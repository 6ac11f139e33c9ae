//! An OPTIONAL part of a SEQUENCE that may begin with several tags.
ghost use Rattle.std.specs.Fmt.{debug_option, debug_variant};
ghost use Rattle.std.specs.Prelude.{Option, codes};
ghost use Rattle.der_types.specs.Choices.{optional_bytes, optional_tags, optional_part_fault};
ghost use Rattle.der_types.specs.Choices.{optional_part_begins};

use crate::Alternative;
use crate::choice::is_absent;
use sec1_der::{BackWriter, DecodePart, EncodePart, Length, Part, Result, SliceReader, UniquePart};
use std::marker::Model;

/// An OPTIONAL CHOICE, or another OPTIONAL part that is never empty: `P` if the next byte is one
/// that it may begin with. A contract sees the part, if present.
#[derive(Clone, Copy, Debug, PartialEq, Eq, Drop)]
pub struct OptionalPart<P>(pub Option<P>);

impl<P> Model for OptionalPart<P> {
    ghost Value = { Option P };

    ghost view = { λ part. part.0 };

    ghost inverse = { λ value. record { 0 = value } };
}

impl<P: Alternative> Part for OptionalPart<P> {
    ghost bytes = { optional_bytes P.bytes };

    ghost and_then = { optional_part_fault P.tags.first P.and_then };

    ghost tags = { optional_tags P.tags };

    ghost begins = { optional_part_begins P.tags P.bytes P.begins };
}

impl<P: EncodePart + Alternative> EncodePart for OptionalPart<P> {
    fn part_len(&self) -> Result<Length> {
        match &self.0 {
            Some(part) => part.part_len(),
            None => Length::new(0),
        }
    }

    fn known_part_len(&self) -> usize {
        match &self.0 {
            Some(part) => part.known_part_len(),
            None => 0,
        }
    }

    fn prepend_part(&self, writer: &mut BackWriter) {
        if let Some(part) = &self.0 {
            part.prepend_part(writer);
        }
    }
}

impl<'a, P: DecodePart<'a> + Alternative> DecodePart<'a> for OptionalPart<P> {
    fn decode_part(reader: &mut SliceReader<'a>) -> Result<Self> {
        if is_absent::<P>(reader) {
            return Ok(OptionalPart(None));
        }
        Ok(OptionalPart(Some(P::decode_part(reader)?)))
    }
}

impl<P: UniquePart + Alternative> UniquePart for OptionalPart<P> {
    fn bytes_injective() {
        P::bytes_injective();
    }
}
