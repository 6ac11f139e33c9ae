//! Your own struct, read and written as a SEQUENCE.
ghost use Rattle.std.specs.Prelude.{◌≡◌, true, refl};
ghost use Rattle.sec1_der.specs.Faults.{end_fault};

use crate::length::check_room;
use crate::{
    BackWriter, DecodePart, DecodeValue, EncodePart, EncodeValue, FixedTag, Length, Part, Result,
    Sequence, SliceReader, Tag, Tagged, UniqueContent, UniquePart, ValueContent,
};

/// A struct that is read and written as the SEQUENCE of its parts (X.690 section 8.9).
///
/// Its [`Parts`](Record::Parts) describe the shape once: [`Required`](crate::Required) and
/// [`Optional`](crate::Optional) components, and a pair `(P, Q)` of two parts in a row. From them
/// the struct gets [`FixedTag`], [`ValueContent`], [`DecodeValue`], [`EncodeValue`], [`Sequence`]
/// and [`UniqueContent`], each if its parts have what it needs.
pub trait Record: Sized {
    /// The parts in their order, as nested pairs.
    type Parts;

    /// The parts of a record.
    ghost parts: { Self → Self.Parts };

    /// The record with these parts.
    ghost of_parts: { Self.Parts → Self };

    /// Returns the record with these parts.
    fn from_parts(pairs: Self::Parts) -> Self
        ensures { parts result ≡ pairs };

    /// Returns the parts of the record.
    fn to_parts(&self) -> Self::Parts
        ensures { result ≡ parts self.now };

    /// A record is determined by its parts.
    ghost same: { (value : Self) → of_parts (parts value) ≡ value };

    /// Returns the record again. It borrows what this one borrows.
    final fn reborrow(&self) -> Self
        ensures { result ≡ self.now }
    {
        Self::from_parts(self.to_parts())
    }
}

/// A record whose parts are told apart by their tags (X.680 section 25.6). Only such a record can
/// be read and written.
pub trait Distinct: Record
where
    Self::Parts: Part,
{
    /// No part can be confused with one after it (X.680 section 25.6).
    ghost distinct: { Self.Parts.tags.distinct ≡ true };
}

impl<T: Record> Tagged for T {
    ghost tag_byte = { 0x30 };

    fn fixed_tag() -> Tag {
        Tag::SEQUENCE
    }
}

impl<T: Record> FixedTag for T {
    const TAG: Tag = Tag::SEQUENCE;
}

impl<T: Record> ValueContent for T
where
    T::Parts: Part,
{
    ghost content = { λ value. T.Parts.bytes (T.parts value) };

    ghost fault = { T.Parts.and_then end_fault };
}

impl<'a, T: Distinct> DecodeValue<'a> for T
where
    T::Parts: DecodePart<'a> + Drop,
{
    fn decode_value(reader: &mut SliceReader<'a>) -> Result<Self> {
        reader.check()?;
        let parts = T::Parts::decode_part(reader)?;
        reader.finish()?;
        Ok(T::from_parts(parts))
    }
}

impl<T: Distinct> EncodeValue for T
where
    T::Parts: EncodePart + Drop,
{
    // Inlined, so that a key, which is measured in two places, is measured without a call.
    #[inline(always)]
    fn value_len(&self) -> Result<Length> {
        self.to_parts().part_len()
    }

    fn known_value_len(&self) -> usize {
        self.to_parts().known_part_len()
    }

    fn encode_back(&self, writer: &mut BackWriter) -> Result<()> {
        let parts = self.to_parts();
        check_room(parts.part_len()?.get(), writer.remaining())?;
        parts.prepend_part(writer);
        Ok(())
    }

    #[inline(always)]
    fn prepend_value(&self, writer: &mut BackWriter) {
        self.to_parts().prepend_part(writer);
    }
}

impl<'a, T: Distinct> Sequence<'a> for T
where
    T::Parts: DecodePart<'a> + EncodePart + Drop,
{
    ghost is_sequence = { refl };
}

impl<T: Distinct> UniqueContent for T
where
    T::Parts: UniquePart,
{
    fn content_injective() {
        T::Parts::bytes_injective();
    }
}
