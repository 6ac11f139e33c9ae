//! Explicit tags (X.690 section 8.14): an element around the element of a value.
ghost use Rattle.std.specs.Prelude.{◌≡◌, ◌∷◌, ℕ, List, Some};
ghost use Rattle.sec1_der.specs.Contents.{whole_bits_field_fault};
ghost use Rattle.sec1_der.specs.Elements.{element_of};
ghost use Rattle.sec1_der.specs.Faults.{element_fault, end_fault};

use crate::length::check_room;
use crate::{
    BackWriter, BitStringRef, DecodeValue, EncodeValue, ErrorKind, Length, Record, Result,
    SliceReader, Tag, Tagged, UniqueContent, ValueContent, WholeBits, component_len,
    known_encoded_len,
};
use std::marker::{Model, PhantomData};

/// The element of a value inside an element with the tag of `K`: `[0] EXPLICIT A` is
/// `Explicit<Context0, A>`. A contract sees the value.
#[derive(Drop)]
#[derive_where(Clone, Copy, Debug, PartialEq, Eq; A)]
pub struct Explicit<K, A> {
    /// The value.
    pub value: A,
    #[derive_where(skip)]
    tag: PhantomData<K>,
}

impl<K, A> Model for Explicit<K, A> {
    ghost Value = { A };

    ghost view = { λ field. field.value };

    ghost inverse = { λ value. record { value = value; tag = record {} } };
}

impl<K, A> Explicit<K, A> {
    /// Returns the value with an explicit tag around it.
    pub fn new(value: A) -> Self
        ensures { result ≡ value }
    {
        Explicit {
            value,
            tag: PhantomData,
        }
    }
}

impl<K, A: Record> Explicit<K, A> {
    /// Returns the value again. It borrows what this one borrows.
    pub fn reborrow(&self) -> Self
        ensures { result ≡ self.now }
    {
        Explicit::new(self.value.reborrow())
    }
}

impl<K: Tagged, A> Tagged for Explicit<K, A> {
    ghost tag_byte = { K.tag_byte };

    fn fixed_tag() -> Tag {
        K::fixed_tag()
    }
}

impl<K, A: ValueContent + Tagged> ValueContent for Explicit<K, A> {
    ghost content = { λ value. element_of A.tag_byte (A.content value) };

    ghost fault = { element_fault A.tag_byte A.fault end_fault };
}

impl<'a, K, A: DecodeValue<'a> + Tagged + Drop> DecodeValue<'a> for Explicit<K, A> {
    #[tactic(auto, using(crate::proofs::PartLemmas::one_element))]
    fn decode_value(reader: &mut SliceReader<'a>) -> Result<Self> {
        let value = reader.only_element::<A>()?;
        Ok(Explicit::new(value))
    }
}

impl<K, A: EncodeValue + Tagged> EncodeValue for Explicit<K, A> {
    fn value_len(&self) -> Result<Length> {
        component_len(&self.value)
    }

    fn known_value_len(&self) -> usize {
        known_encoded_len(&self.value)
    }

    fn encode_back(&self, writer: &mut BackWriter) -> Result<()> {
        check_room(self.value_len()?.get(), writer.remaining())?;
        writer.prepend_element(&self.value);
        Ok(())
    }

    fn prepend_value(&self, writer: &mut BackWriter) {
        writer.prepend_element(&self.value);
    }
}

impl<K, A: UniqueContent + Tagged> UniqueContent for Explicit<K, A> {
    #[tactic(auto, using(crate::proofs::UniqueLemmas::unique_inside))]
    fn content_injective() {
        A::content_injective();
    }
}

/// The tag of an OCTET STRING, as a type.
pub struct OctetTag;

impl Tagged for OctetTag {
    ghost tag_byte = { 0x04 };

    fn fixed_tag() -> Tag {
        Tag::OCTET_STRING
    }
}

/// An OCTET STRING whose content is the element of another value, `OCTET STRING (CONTAINING A)`
/// (X.682 section 11).
pub type Containing<A> = Explicit<OctetTag, A>;

/// The explicit tag `[1]` around a BIT STRING without unused bits, as an ECPrivateKey has it (RFC
/// 5915 section 3). Unused bits are refused as Value, after the end of the field has been checked.
/// A contract sees the bytes.
#[derive(Drop)]
pub struct ExplicitBits<'a> {
    /// The bytes.
    pub bytes: &'a [u8],
}

impl<'a> Model for ExplicitBits<'a> {
    ghost Value = { List ℕ };

    ghost view = { λ bits. bits.bytes.now };
}

impl Tagged for ExplicitBits<'_> {
    ghost tag_byte = { 0xA1 };

    fn fixed_tag() -> Tag
        ensures { result ≡ 0xA1 }
    {
        Tag::CONTEXT_1
    }
}

impl ValueContent for ExplicitBits<'_> {
    ghost content = { λ bytes. element_of 0x03 (Some (0 ∷ bytes)) };

    ghost fault = { whole_bits_field_fault };
}

impl<'a> DecodeValue<'a> for ExplicitBits<'a> {
    #[tactic(auto, using(crate::proofs::PartLemmas::one_element))]
    fn decode_value(reader: &mut SliceReader<'a>) -> Result<Self> {
        let bits = reader.only_element::<BitStringRef>()?;
        match bits.as_bytes() {
            Some(bytes) => Ok(ExplicitBits { bytes }),
            None => Err(reader.fail(ErrorKind::Value)),
        }
    }
}

impl EncodeValue for ExplicitBits<'_> {
    fn value_len(&self) -> Result<Length> {
        let bytes = self.bytes;
        component_len(&WholeBits { bytes })
    }

    fn encode_back(&self, writer: &mut BackWriter) -> Result<()> {
        self.value_len()?;
        let bytes = self.bytes;
        writer.element(&WholeBits { bytes })
    }

    fn prepend_value(&self, writer: &mut BackWriter) {
        let bytes = self.bytes;
        writer.prepend_element(&WholeBits { bytes });
    }
}

impl UniqueContent for ExplicitBits<'_> {
    #[tactic(auto, using(crate::proofs::UniqueLemmas::unique_bits))]
    fn content_injective()
        ensures { (a b bytes : List ℕ) → element_of 0x03 (Some (0 ∷ a)) ≡ Some bytes
            → element_of 0x03 (Some (0 ∷ b)) ≡ Some bytes → a ≡ b }
    {}
}
