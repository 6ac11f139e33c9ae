//! BIT STRING that may have unused bits.
ghost use Rattle.std.specs.Prelude.{◌≡◌, ◌≢◌, ◌⊎◌, ◌<◌, ◌≤◌, ℕ, List, length, Some};
ghost use Rattle.std.specs.Prelude.{IsTrue, MatchOption, MatchResult};
ghost use Rattle.sec1_der.specs.Contents.{are_bits, bit_string_fault};
ghost use Rattle.sec1_der.specs.Elements.{max_length};
ghost use Rattle.der_types.specs.Contents.{BitString, bit_string_content};

use sec1_der::{
    BackWriter, BitStringRef, DecodeValue, EncodeValue, ErrorKind, Length, Result, SliceReader,
    Tag, Tagged, UniqueContent, ValueContent,
};
use std::marker::Model;

/// A BIT STRING that may have unused bits, which borrows its bytes (X.690 section 8.6). A contract
/// sees the number of unused bits and the bytes.
#[derive(Drop)]
pub struct Bits<'a> {
    bits: BitStringRef<'a>,
}

impl<'a> Model for Bits<'a> {
    ghost use Rattle.der_types.specs.Contents.{BitString};
    ghost use Rattle.sec1_der.specs.Values.{unused_bits_of, bit_bytes_of};

    ghost Value = { BitString };

    ghost view = { λ bits.
        record { unused = unused_bits_of bits.bits; bytes = bit_bytes_of bits.bits } };
}

impl<'a> Bits<'a> {
    /// Returns a bit string without the lowest `unused` bits of the last byte.
    ///
    /// # Errors
    ///
    /// Overlength if there are more than 268,435,454 bytes; then Value if `unused` is above 7, if
    /// it isn't 0 and there are no bytes, or if an unused bit is set (X.690 section 11.2.1).
    pub fn new(unused: u8, bytes: &'a [u8]) -> Result<Self>
        ensures { MatchResult result
            (λ bits. (bits ≡ record { unused = unused; bytes = bytes.now })
            × (length bytes.now < max_length) × IsTrue (are_bits unused bytes.now))
            (λ e. ((e.kind ≡ ErrorKind.Overlength) × (max_length ≤ length bytes.now))
            ⊎ ((e.kind ≡ ErrorKind.Value) × (length bytes.now < max_length)
            × ¬ IsTrue (are_bits unused bytes.now))) }
    {
        let bits = BitStringRef::new(unused, bytes)?;
        Ok(Bits { bits })
    }

    /// Returns the number of unused bits of the last byte, from 0 to 7.
    pub fn unused_bits(&self) -> u8
        ensures { result ≡ self.now.unused }
    {
        self.bits.unused_bits()
    }

    /// Borrows the bytes, the last of which may have unused bits.
    pub fn raw_bytes(&self) -> &'a [u8]
        ensures { (result.now ≡ self.now.bytes)
            × IsTrue (are_bits self.now.unused result.now) }
    {
        self.bits.raw_bytes()
    }

    /// Borrows the bytes; `None` if there are unused bits.
    pub fn as_bytes(&self) -> Option<&'a [u8]>
        ensures { MatchOption result (self.now.unused ≢ 0)
            (λ bytes. (self.now.unused ≡ 0) × (bytes.now ≡ self.now.bytes)) }
    {
        self.bits.as_bytes()
    }

    /// Returns the bit string again. It borrows the same bytes.
    pub fn reborrow(&self) -> Self
        ensures { result ≡ self.now }
    {
        Bits { bits: self.bits }
    }
}

impl Default for Bits<'_> {
    /// Returns no bits.
    fn default() -> Self {
        match BitStringRef::from_bytes(&[]) {
            Ok(bits) => Bits { bits },
            Err(_) => unreachable!(),
        }
    }
}

impl Tagged for Bits<'_> {
    ghost tag_byte = { 0x03 };

    fn fixed_tag() -> Tag
        ensures { result ≡ 0x03 }
    {
        Tag::BIT_STRING
    }
}

impl ValueContent for Bits<'_> {
    ghost content = { bit_string_content };

    ghost fault = { bit_string_fault };
}

impl<'a> DecodeValue<'a> for Bits<'a> {
    fn decode_value(reader: &mut SliceReader<'a>) -> Result<Self> {
        let bits = BitStringRef::decode_value(reader)?;
        Ok(Bits { bits })
    }
}

impl EncodeValue for Bits<'_> {
    fn value_len(&self) -> Result<Length> {
        self.bits.value_len()
    }

    fn encode_back(&self, writer: &mut BackWriter) -> Result<()> {
        self.bits.encode_back(writer)
    }

    fn prepend_value(&self, writer: &mut BackWriter) {
        self.bits.prepend_value(writer);
    }
}

impl UniqueContent for Bits<'_> {
    fn content_injective()
        ensures { (a b : BitString) (bytes : List ℕ) → bit_string_content a ≡ Some bytes
            → bit_string_content b ≡ Some bytes → a ≡ b }
    {}
}
