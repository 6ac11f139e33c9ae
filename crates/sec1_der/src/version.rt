ghost use Rattle.std.specs.Prelude.{Some, [], ◌∷◌, codes};
ghost use Rattle.sec1_der.specs.Contents.{byte_fault};

use crate::{
    BackWriter, DecodeValue, EncodeValue, ErrorKind, FixedTag, Length, Result, SliceReader, Tag,
    Tagged, UniqueContent, ValueContent,
};

/// The version of an ECPrivateKey, the INTEGER 1 (RFC 5915 section 3). Its content is the byte
/// `01`; any other is refused as Value.
#[derive(Clone, Copy, Debug, PartialEq, Eq)]
pub struct VersionOne;

impl Tagged for VersionOne {
    ghost tag_byte = { 0x02 };

    fn fixed_tag() -> Tag {
        Self::TAG
    }
}

impl FixedTag for VersionOne {
    const TAG: Tag = Tag::INTEGER;
}

impl ValueContent for VersionOne {
    ghost content = { λ _. Some (1 ∷ []) };

    ghost fault = { byte_fault 1 };
}

impl<'a> DecodeValue<'a> for VersionOne {
    fn decode_value(reader: &mut SliceReader<'a>) -> Result<Self> {
        match reader.read_rest()? {
            [1] => Ok(VersionOne),
            _ => Err(reader.fail(ErrorKind::Value)),
        }
    }
}

impl EncodeValue for VersionOne {
    fn value_len(&self) -> Result<Length> {
        Ok(Length::of_number(1))
    }

    fn encode_back(&self, writer: &mut BackWriter) -> Result<()> {
        writer.write(&[1])
    }

    fn prepend_value(&self, writer: &mut BackWriter) {
        writer.prepend(&[1]);
    }
}

impl UniqueContent for VersionOne {
    fn content_injective() {}
}
