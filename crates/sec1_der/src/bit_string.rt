ghost use Rattle.std.specs.Prelude.{◌≡◌, ◌<◌, length, IsTrue};
ghost use Rattle.sec1_der.specs.Contents.{are_bits};
ghost use Rattle.sec1_der.specs.Elements.{max_length};

use crate::length::check_room;
use crate::{
    BackWriter, DecodeValue, EncodeValue, ErrorKind, FixedTag, Length, Result, SliceReader, Tag,
    Tagged, ValueContent,
};

/// A BIT STRING, which borrows its bytes (X.690 section 8.6). Its content is the number of unused
/// bits of the last byte, and the bytes.
#[derive(Clone, Copy, Debug, PartialEq, Eq)]
pub struct BitStringRef<'a> {
    unused: u8,
    bytes: &'a [u8],
    ghost zeros: { IsTrue (are_bits unused bytes.now) },
    ghost bounded: { length bytes.now < max_length },
}

impl<'a> BitStringRef<'a> {
    ghost use Rattle.std.specs.Prelude.{◌≤◌, ◌⊎◌, ◌≢◌, MatchOption, MatchResult};
    ghost use Rattle.sec1_der.specs.Values.{unused_bits_of, bit_bytes_of};

    /// Returns a bit string without the lowest `unused` bits of the last byte.
    ///
    /// # Errors
    ///
    /// Overlength if there are more than 268,435,454 bytes; then Value if `unused` is above 7, if
    /// it isn't 0 and there are no bytes, or if an unused bit is set (X.690 section 11.2.1).
    pub fn new(unused: u8, bytes: &'a [u8]) -> Result<BitStringRef<'a>>
        ensures { MatchResult result
            (λ bits. (unused_bits_of bits ≡ unused) × (bit_bytes_of bits ≡ bytes.now)
            × (length bytes.now < max_length) × IsTrue (are_bits unused bytes.now))
            (λ e. ((e.kind ≡ ErrorKind.Overlength) × (max_length ≤ length bytes.now))
            ⊎ ((e.kind ≡ ErrorKind.Value) × (length bytes.now < max_length)
            × ¬ IsTrue (are_bits unused bytes.now))) }
    {
        if bytes.len() >= Length::MAX {
            return Err(ErrorKind::Overlength.into());
        }
        if !are_bits(unused, bytes) {
            return Err(ErrorKind::Value.into());
        }
        Ok(BitStringRef { unused, bytes })
    }

    /// Returns a bit string without unused bits.
    ///
    /// # Errors
    ///
    /// Overlength if there are more than 268,435,454 bytes.
    #[tactic(auto, using(crate::proofs::ContentFaultLemmas::whole_is))]
    pub fn from_bytes(bytes: &'a [u8]) -> Result<BitStringRef<'a>>
        ensures { MatchResult result
            (λ bits. (unused_bits_of bits ≡ 0) × (bit_bytes_of bits ≡ bytes.now)
            × (length bytes.now < max_length))
            (λ e. (e.kind ≡ ErrorKind.Overlength) × (max_length ≤ length bytes.now)) }
    {
        BitStringRef::new(0, bytes)
    }

    /// Borrows the bytes; `None` if there are unused bits.
    pub fn as_bytes(&self) -> Option<&'a [u8]>
        ensures { MatchOption result (unused_bits_of self.now ≢ 0)
            (λ bytes. (unused_bits_of self.now ≡ 0) × (bytes.now ≡ bit_bytes_of self.now)) }
    {
        if self.unused == 0 {
            Some(self.bytes)
        } else {
            None
        }
    }

    /// Borrows the bytes, the last of which may have unused bits.
    pub fn raw_bytes(&self) -> &'a [u8]
        ensures { result.now ≡ bit_bytes_of self.now }
    {
        self.bytes
    }

    /// Returns the number of unused bits of the last byte, from 0 to 7.
    pub fn unused_bits(&self) -> u8
        ensures { (result ≡ unused_bits_of self.now)
            × IsTrue (are_bits result (bit_bytes_of self.now)) }
    {
        self.unused
    }
}

/// Returns `true` if the bytes may have this number of unused bits.
fn are_bits(unused: u8, bytes: &[u8]) -> bool
    ensures { result ≡ are_bits unused bytes.now }
{
    match bytes.last() {
        None => unused == 0,
        Some(last) => unused < 8 && *last % (1 << unused) == 0,
    }
}

impl Tagged for BitStringRef<'_> {
    ghost tag_byte = { 0x03 };

    fn fixed_tag() -> Tag
        ensures { result ≡ 0x03 }
    {
        Self::TAG
    }
}

impl FixedTag for BitStringRef<'_> {
    const TAG: Tag = Tag::BIT_STRING;
}

impl ValueContent for BitStringRef<'_> {
    ghost use Rattle.std.specs.Prelude.{Some, ◌∷◌};
    ghost use Rattle.sec1_der.specs.Contents.{bit_string_fault};

    ghost content = { λ bits. Some (bits.unused ∷ bits.bytes.now) };

    ghost fault = { bit_string_fault };
}

impl<'a> DecodeValue<'a> for BitStringRef<'a> {
    fn decode_value(reader: &mut SliceReader<'a>) -> Result<Self> {
        let content = reader.read_rest()?;
        let Some((unused, bytes)) = content.split_first() else {
            return Err(reader.fail(ErrorKind::Value));
        };
        let unused = *unused;
        if !are_bits(unused, bytes) {
            return Err(reader.fail(ErrorKind::Value));
        }
        Ok(BitStringRef { unused, bytes })
    }
}

impl EncodeValue for BitStringRef<'_> {
    fn value_len(&self) -> Result<Length> {
        Length::new(1 + self.bytes.len())
    }

    fn encode_back(&self, writer: &mut BackWriter) -> Result<()> {
        check_room(1 + self.bytes.len(), writer.remaining())?;
        self.prepend_value(writer);
        Ok(())
    }

    fn prepend_value(&self, writer: &mut BackWriter) {
        writer.prepend(self.bytes);
        writer.prepend(&[self.unused]);
    }
}
