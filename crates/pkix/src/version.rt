//! Versions of certificates.
ghost use Rattle.std.specs.Prelude.{◌≡◌, [], ◌∷◌, Some};
ghost use Rattle.sec1_der.specs.Contents.{value_unless};
ghost use Rattle.pkix.specs.Versions.{is_later_version, later_version_content};

use sec1_der::{
    BackWriter, DecodeValue, EncodeValue, ErrorKind, Length, Result, SliceReader, Tag, Tagged,
    UniqueContent, ValueContent,
};

/// The version of a certificate that isn't v1: an INTEGER that is 1 or 2 (RFC 5280 section
/// 4.1.2.1).
#[derive(Clone, Copy, Debug, PartialEq, Eq)]
pub enum LaterVersion {
    /// Version 2, whose number is 1.
    V2,
    /// Version 3, whose number is 2.
    V3,
}

impl LaterVersion {
    /// Returns the byte of the content.
    fn byte(&self) -> u8
        ensures { later_version_content self.now ≡ result ∷ [] }
    {
        match self {
            LaterVersion::V2 => 1,
            LaterVersion::V3 => 2,
        }
    }
}

impl Tagged for LaterVersion {
    ghost tag_byte = { 0x02 };

    fn fixed_tag() -> Tag {
        Tag::INTEGER
    }
}

impl ValueContent for LaterVersion {
    ghost use Rattle.pkix.specs.declared.version.LaterVersion.{LaterVersion};

    ghost content = { λ version. Some (later_version_content version) };

    ghost fault = { λ content. value_unless (is_later_version content) };
}

impl<'a> DecodeValue<'a> for LaterVersion {
    fn decode_value(reader: &mut SliceReader<'a>) -> Result<Self> {
        match reader.read_rest()? {
            [1] => Ok(LaterVersion::V2),
            [2] => Ok(LaterVersion::V3),
            _ => Err(reader.fail(ErrorKind::Value)),
        }
    }
}

impl EncodeValue for LaterVersion {
    fn value_len(&self) -> Result<Length> {
        Length::new(1)
    }

    fn encode_back(&self, writer: &mut BackWriter) -> Result<()> {
        writer.write(&[self.byte()])
    }

    fn prepend_value(&self, writer: &mut BackWriter) {
        writer.prepend(&[self.byte()]);
    }
}

impl UniqueContent for LaterVersion {
    fn content_injective() {}
}
