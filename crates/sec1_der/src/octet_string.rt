ghost use Rattle.std.specs.Prelude.{◌≤◌, length};
ghost use Rattle.sec1_der.specs.Elements.{max_length};

use crate::{
    BackWriter, DecodeValue, EncodeValue, ErrorKind, FixedTag, Length, Result, SliceReader, Tag,
    Tagged, ValueContent,
};

/// An OCTET STRING, which borrows its bytes (X.690 section 8.7). Its content is its bytes.
#[derive(Clone, Copy, Debug, PartialEq, Eq)]
pub struct OctetStringRef<'a> {
    bytes: &'a [u8],
    ghost bounded: { length bytes.now ≤ max_length },
}

impl<'a> OctetStringRef<'a> {
    ghost use Rattle.std.specs.Prelude.{◌≡◌, ◌<◌, MatchResult};
    ghost use Rattle.sec1_der.specs.Values.{octets_of};

    /// Returns an octet string of these bytes.
    ///
    /// # Errors
    ///
    /// Overlength if there are more than 268,435,455.
    pub fn new(bytes: &'a [u8]) -> Result<OctetStringRef<'a>>
        ensures { MatchResult result
            (λ octets. (octets_of octets ≡ bytes.now) × (length bytes.now ≤ max_length))
            (λ e. (e.kind ≡ ErrorKind.Overlength) × (max_length < length bytes.now)) }
    {
        Length::new(bytes.len())?;
        Ok(OctetStringRef { bytes })
    }

    /// Borrows the bytes.
    pub fn as_bytes(&self) -> &'a [u8]
        ensures { result.now ≡ octets_of self.now }
    {
        self.bytes
    }
}

impl Tagged for OctetStringRef<'_> {
    ghost use Rattle.std.specs.Prelude.{◌≡◌};

    ghost tag_byte = { 0x04 };

    fn fixed_tag() -> Tag
        ensures { result ≡ 0x04 }
    {
        Self::TAG
    }
}

impl FixedTag for OctetStringRef<'_> {
    const TAG: Tag = Tag::OCTET_STRING;
}

impl ValueContent for OctetStringRef<'_> {
    ghost use Rattle.std.specs.Prelude.{Some};
    ghost use Rattle.sec1_der.specs.Faults.{no_fault};
    ghost use Rattle.sec1_der.specs.Values.{octets_of};

    ghost content = { λ octets. Some (octets_of octets) };

    ghost fault = { no_fault };
}

impl<'a> DecodeValue<'a> for OctetStringRef<'a> {
    fn decode_value(reader: &mut SliceReader<'a>) -> Result<Self> {
        let bytes = reader.read_rest()?;
        Ok(OctetStringRef { bytes })
    }
}

impl EncodeValue for OctetStringRef<'_> {
    fn value_len(&self) -> Result<Length> {
        Length::new(self.bytes.len())
    }

    fn encode_back(&self, writer: &mut BackWriter) -> Result<()> {
        writer.write(self.bytes)
    }

    fn prepend_value(&self, writer: &mut BackWriter) {
        writer.prepend(self.bytes);
    }
}
