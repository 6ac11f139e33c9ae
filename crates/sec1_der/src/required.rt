//! A component that is always present; and the calls that [`Required`] makes, for a type that is a
//! part by itself.
ghost use Rattle.std.specs.Prelude.{◌≡◌, ◌≤◌, length, Ok, false};
ghost use Rattle.sec1_der.specs.Elements.{element_of, max_length, within_limit};
ghost use Rattle.sec1_der.specs.Writers.{Measures};
ghost use Rattle.sec1_der.specs.Parts.{ReadsPart, one_tag};
ghost use Rattle.sec1_der.specs.PartLaws.{element_begins};
ghost use Rattle.sec1_der.specs.Faults.{element_fault};

use crate::{
    BackWriter, DecodePart, DecodeValue, EncodePart, EncodeValue, Length, Part, Result,
    SliceReader, Tagged, UniqueContent, UniquePart, ValueContent, encoded_len, known_encoded_len,
};
use std::marker::Model;

/// A component that is always present: the element of a value. A contract sees the value.
#[derive(Clone, Copy, Debug, PartialEq, Eq, Drop)]
pub struct Required<A>(pub A);

impl<A> Model for Required<A> {
    ghost Value = { A };

    ghost view = { λ part. part.0 };

    ghost inverse = { λ value. record { 0 = value } };
}

impl<A: ValueContent + Tagged> Part for Required<A> {
    ghost bytes = { λ value. element_of A.tag_byte (A.content value) };

    ghost and_then = { element_fault A.tag_byte A.fault };

    ghost tags = { one_tag A.tag_byte };

    ghost begins = { λ value whole same. element_begins A.tag_byte (A.content value) whole same };
}

impl<A: EncodeValue + Tagged> EncodePart for Required<A> {
    fn part_len(&self) -> Result<Length> {
        component_len(&self.0)
    }

    fn known_part_len(&self) -> usize {
        known_encoded_len(&self.0)
    }

    fn prepend_part(&self, writer: &mut BackWriter) {
        writer.prepend_element(&self.0);
    }
}

impl<'a, A: DecodeValue<'a> + Tagged + Drop> DecodePart<'a> for Required<A> {
    #[tactic(auto, using(crate::proofs::PartLemmas::one_element))]
    fn decode_part(reader: &mut SliceReader<'a>) -> Result<Self> {
        match reader.decode::<A>() {
            Ok(value) => Ok(Required(value)),
            Err(e) => Err(e),
        }
    }
}

impl<A: UniqueContent + Tagged> UniquePart for Required<A> {
    #[tactic(auto, using(crate::proofs::UniqueLemmas::one_distinct))]
    fn bytes_injective() {
        A::content_injective();
    }
}

/// Returns the length of the value's element in bytes.
///
/// # Errors
///
/// Overlength if the value has no encoding, or one that is longer than 268,435,455 bytes.
// Inlined, so that the length isn't returned through memory.
#[inline(always)]
pub fn component_len<A: EncodeValue + Tagged>(value: &A) -> Result<Length>
    ensures { Measures (within_limit (element_of A.tag_byte (A.content value.now))) result }
{
    Length::new(encoded_len(value)?)
}

/// Reads the element of a value, and leaves the bytes after it. Requires that the reader hasn't
/// failed.
///
/// # Errors
///
/// Those of [`DecodePart::decode_part`].
pub fn decode_component<'a, A: DecodeValue<'a> + Tagged + Drop>(
    reader: &mut SliceReader<'a>,
) -> Result<A>
    requires { (reader.old.failed ≡ false) × (length reader.old.unread ≤ max_length) }
    ensures { ReadsPart (λ value. element_of A.tag_byte (A.content value))
        (element_fault A.tag_byte A.fault) (one_tag A.tag_byte) result reader.old reader.new }
{
    match Required::<A>::decode_part(reader) {
        Ok(part) => Ok(part.0),
        Err(e) => Err(e),
    }
}
