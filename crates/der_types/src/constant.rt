//! Values with one content.
ghost use Rattle.std.specs.Prelude.{◌≡◌, [], ◌∷◌, ℕ, List, Some};
ghost use Rattle.std.specs.Str.{bytes_eq};
ghost use Rattle.sec1_der.specs.Contents.{value_unless};

use sec1_der::{
    BackWriter, DecodeValue, EncodeValue, ErrorKind, Length, Result, SliceReader, Tag, Tagged,
    UniqueContent, ValueContent,
};
use std::marker::PhantomData;

/// The tag of a type with one value, and the content of that value.
pub trait ConstantContent: Tagged {
    /// The content.
    ghost constant: { List ℕ };

    /// Returns the content.
    fn constant() -> &'static [u8]
        ensures { result.now ≡ constant };
}

/// The one value with the content of `K`. Any other content is refused as Value.
#[derive(Drop)]
pub struct Constant<K> {
    kind: PhantomData<K>,
}

impl<K> Constant<K> {
    /// Returns the value.
    pub fn new() -> Self
        // There is no other value.
        ensures { (value : Constant K) → result ≡ value }
    {
        Constant { kind: PhantomData }
    }
}

impl<K: ConstantContent> Tagged for Constant<K> {
    ghost tag_byte = { K.tag_byte };

    fn fixed_tag() -> Tag {
        K::fixed_tag()
    }
}

impl<K: ConstantContent> ValueContent for Constant<K> {
    ghost content = { λ _. Some K.constant };

    ghost fault = { λ bytes. value_unless (bytes_eq bytes K.constant) };
}

impl<'a, K: ConstantContent> DecodeValue<'a> for Constant<K> {
    fn decode_value(reader: &mut SliceReader<'a>) -> Result<Self> {
        let bytes = reader.read_rest()?;
        if bytes != K::constant() {
            return Err(reader.fail(ErrorKind::Value));
        }
        Ok(Constant::new())
    }
}

impl<K: ConstantContent> EncodeValue for Constant<K> {
    fn value_len(&self) -> Result<Length> {
        Length::new(K::constant().len())
    }

    fn encode_back(&self, writer: &mut BackWriter) -> Result<()> {
        self.value_len()?;
        writer.write(K::constant())
    }

    fn prepend_value(&self, writer: &mut BackWriter) {
        writer.prepend(K::constant());
    }
}

impl<K: ConstantContent> UniqueContent for Constant<K> {
    fn content_injective() {}
}

/// The kind of a NULL (X.690 section 8.8).
pub struct NullKind;

impl Tagged for NullKind {
    ghost tag_byte = { 0x05 };

    fn fixed_tag() -> Tag {
        Tag::NULL
    }
}

impl ConstantContent for NullKind {
    ghost constant = { [] };

    fn constant() -> &'static [u8] {
        &[]
    }
}

/// The kind of the BOOLEAN TRUE (X.690 sections 8.2 and 11.1).
pub struct TrueKind;

impl Tagged for TrueKind {
    ghost tag_byte = { 0x01 };

    fn fixed_tag() -> Tag {
        Tag::BOOLEAN
    }
}

impl ConstantContent for TrueKind {
    ghost constant = { 0xFF ∷ [] };

    fn constant() -> &'static [u8] {
        &[0xFF]
    }
}

/// A NULL, which has no bytes of content (X.690 section 8.8).
pub type Null = Constant<NullKind>;

/// The BOOLEAN TRUE (X.690 sections 8.2 and 11.1). A component that is FALSE by default is absent
/// or this one (section 11.5).
pub type True = Constant<TrueKind>;
