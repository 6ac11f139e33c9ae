//! Values for the components of a [`Record`](crate::Record). A contract sees only their bytes, so
//! that the record can hold plain slices.
ghost use Rattle.std.specs.Prelude.{◌≡◌, ◌∷◌, [], ℕ, List, Some, codes};
ghost use Rattle.sec1_der.specs.Contents.{byte_fault, whole_bits_fault};
ghost use Rattle.sec1_der.specs.Errors.{struct_text};
ghost use Rattle.sec1_der.specs.Elements.{element_of};
ghost use Rattle.sec1_der.specs.Faults.{element_fault, end_fault, no_fault};

use crate::{
    BackWriter, BitStringRef, DecodeValue, EncodeValue, ErrorKind, Length, OctetStringRef, Result,
    SliceReader, Tag, Tagged, UniqueContent, ValueContent, encoded_len,
};
use std::marker::Model;

/// An INTEGER whose content is the one byte `N`, such as a version (X.690 section 8.3). It is the
/// number `N` if that is below 128. Any other content is refused as Value.
#[derive(Clone, Copy, Debug, Default, PartialEq, Eq)]
pub struct SmallInteger<const N: u8>;

impl<const N: u8> Tagged for SmallInteger<N> {
    ghost tag_byte = { 0x02 };

    fn fixed_tag() -> Tag {
        Tag::INTEGER
    }
}

impl<const N: u8> ValueContent for SmallInteger<N> {
    ghost content = { λ _. Some (N ∷ []) };

    ghost fault = { byte_fault N };
}

impl<'a, const N: u8> DecodeValue<'a> for SmallInteger<N> {
    fn decode_value(reader: &mut SliceReader<'a>) -> Result<Self> {
        match reader.read_rest()? {
            [byte] if *byte == N => Ok(SmallInteger),
            _ => Err(reader.fail(ErrorKind::Value)),
        }
    }
}

impl<const N: u8> EncodeValue for SmallInteger<N> {
    fn value_len(&self) -> Result<Length> {
        Length::new(1)
    }

    fn encode_back(&self, writer: &mut BackWriter) -> Result<()> {
        writer.write(&[N])
    }

    fn prepend_value(&self, writer: &mut BackWriter) {
        writer.prepend(&[N]);
    }
}

impl<const N: u8> UniqueContent for SmallInteger<N> {
    fn content_injective() {}
}

/// The bytes of an OCTET STRING (X.690 section 8.7). A contract sees the bytes.
#[derive(Default, Drop)]
pub struct Octets<'a> {
    /// The bytes.
    pub bytes: &'a [u8],
}

impl<'a> Model for Octets<'a> {
    ghost Value = { List ℕ };

    ghost view = { λ octets. octets.bytes.now };
}

impl Tagged for Octets<'_> {
    ghost tag_byte = { 0x04 };

    fn fixed_tag() -> Tag
        ensures { result ≡ 0x04 }
    {
        Tag::OCTET_STRING
    }
}

impl ValueContent for Octets<'_> {
    ghost content = { λ bytes. Some bytes };

    ghost fault = { no_fault };
}

impl<'a> DecodeValue<'a> for Octets<'a> {
    fn decode_value(reader: &mut SliceReader<'a>) -> Result<Self> {
        let bytes = reader.read_rest()?;
        Ok(Octets { bytes })
    }
}

impl EncodeValue for Octets<'_> {
    fn value_len(&self) -> Result<Length> {
        Length::new(self.bytes.len())
    }

    fn encode_back(&self, writer: &mut BackWriter) -> Result<()> {
        OctetStringRef::new(self.bytes)?.encode_back(writer)
    }

    fn prepend_value(&self, writer: &mut BackWriter) {
        writer.prepend(self.bytes);
    }
}

impl UniqueContent for Octets<'_> {
    fn content_injective()
        ensures { (a b bytes : List ℕ) → Some a ≡ Some bytes → Some b ≡ Some bytes → a ≡ b }
    {}
}

/// The bytes of a BIT STRING without unused bits (X.690 section 8.6). One with unused bits is
/// refused as Value. A contract sees the bytes.
#[derive(Drop)]
pub struct WholeBits<'a> {
    /// The bytes.
    pub bytes: &'a [u8],
}

impl<'a> Model for WholeBits<'a> {
    ghost Value = { List ℕ };

    ghost view = { λ bits. bits.bytes.now };
}

impl Tagged for WholeBits<'_> {
    ghost tag_byte = { 0x03 };

    fn fixed_tag() -> Tag
        ensures { result ≡ 0x03 }
    {
        Tag::BIT_STRING
    }
}

impl ValueContent for WholeBits<'_> {
    ghost content = { λ bytes. Some (0 ∷ bytes) };

    ghost fault = { whole_bits_fault };
}

impl<'a> DecodeValue<'a> for WholeBits<'a> {
    fn decode_value(reader: &mut SliceReader<'a>) -> Result<Self> {
        let bits = BitStringRef::decode_value(reader)?;
        match bits.as_bytes() {
            Some(bytes) => Ok(WholeBits { bytes }),
            None => Err(reader.fail(ErrorKind::Value)),
        }
    }
}

impl EncodeValue for WholeBits<'_> {
    fn value_len(&self) -> Result<Length> {
        BitStringRef::from_bytes(self.bytes)?.value_len()
    }

    fn encode_back(&self, writer: &mut BackWriter) -> Result<()> {
        BitStringRef::from_bytes(self.bytes)?.encode_back(writer)
    }

    fn prepend_value(&self, writer: &mut BackWriter) {
        writer.prepend(self.bytes);
        writer.prepend(&[0]);
    }
}

impl UniqueContent for WholeBits<'_> {
    fn content_injective()
        ensures { (a b bytes : List ℕ) → Some (0 ∷ a) ≡ Some bytes
            → Some (0 ∷ b) ≡ Some bytes → a ≡ b }
    {}
}
