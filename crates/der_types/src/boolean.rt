//! BOOLEAN: the test of its contents, and the type.
ghost use Rattle.std.specs.Prelude.{◌≡◌, [], ◌∷◌, true, false, Some, refl};
ghost use Rattle.sec1_der.specs.Contents.{value_unless};
ghost use Rattle.der_types.specs.Contents.{boolean_content, is_boolean};

use crate::HasDefault;
use sec1_der::{
    BackWriter, DecodeValue, EncodeValue, ErrorKind, Length, Result, SliceReader, Tag, Tagged,
    UniqueContent, ValueContent,
};
use std::marker::Model;

/// Returns `true` if the bytes are the content of a BOOLEAN (X.690 sections 8.2 and 11.1).
pub(crate) fn is_boolean(bytes: &[u8]) -> bool
    ensures { result ≡ is_boolean bytes.now }
{
    matches!(bytes, [0x00 | 0xFF])
}

/// A BOOLEAN (X.690 sections 8.2 and 11.1). Its content is the byte `00` for `false` and `FF` for
/// `true`; any other is refused as Value. A contract sees the `bool`.
#[derive(Clone, Copy, Debug, PartialEq, Eq)]
pub struct Boolean(pub bool);

impl Model for Boolean {
    ghost use Rattle.std.specs.Prelude.{Bool};

    ghost Value = { Bool };

    ghost view = { λ boolean. boolean.0 };

    ghost inverse = { λ value. record { 0 = value } };
}

impl Tagged for Boolean {
    ghost tag_byte = { 0x01 };

    fn fixed_tag() -> Tag {
        Tag::BOOLEAN
    }
}

impl ValueContent for Boolean {
    ghost content = { λ value. Some (boolean_content value) };

    ghost fault = { λ bytes. value_unless (is_boolean bytes) };
}

impl<'a> DecodeValue<'a> for Boolean {
    fn decode_value(reader: &mut SliceReader<'a>) -> Result<Self> {
        match reader.read_rest()? {
            [0x00] => Ok(Boolean(false)),
            [0xFF] => Ok(Boolean(true)),
            _ => Err(reader.fail(ErrorKind::Value)),
        }
    }
}

impl Boolean {
    /// Returns the byte of the content.
    fn byte(&self) -> u8
        ensures { boolean_content self.now ≡ result ∷ [] }
    {
        if self.0 { 0xFF } else { 0x00 }
    }
}

impl EncodeValue for Boolean {
    fn value_len(&self) -> Result<Length> {
        Length::new(1)
    }

    fn encode_back(&self, writer: &mut BackWriter) -> Result<()> {
        writer.write(&[self.byte()])
    }

    fn prepend_value(&self, writer: &mut BackWriter) {
        writer.prepend(&[self.byte()]);
    }
}

impl UniqueContent for Boolean {
    fn content_injective() {}
}

/// FALSE, as in the components `BOOLEAN DEFAULT FALSE` of certificates (RFC 5280 section 4.1).
impl HasDefault for Boolean {
    ghost default = { false };

    ghost default_content = { 0x00 ∷ [] };

    fn default_value() -> Self {
        Boolean(false)
    }

    fn is_default(&self) -> bool {
        !self.0
    }

    ghost has_content = { refl };
}
