//! A value that is given by its content: a tag, and a test of contents.
ghost use Rattle.std.specs.Prelude.{◌≡◌, ℕ, List, Bool, Some, IfOk};
ghost use Rattle.der_types.specs.Contents.{content_if, new_fault};
ghost use Rattle.sec1_der.specs.Contents.{value_unless};
ghost use Rattle.sec1_der.specs.Faults.{HasFault};

use sec1_der::{
    BackWriter, DecodeValue, EncodeValue, ErrorKind, Length, Result, SliceReader, Tag, Tagged,
    UniqueContent, ValueContent,
};
use std::marker::{Model, PhantomData};

/// A kind of values that are given by their contents: which bytes are a content. It is [`Tagged`]
/// too.
// `Tagged` isn't a supertrait: the bound of a struct must be met by only one impl, and each
// `Record` is `Tagged`.
pub trait Kind {
    /// The test of contents.
    ghost passes: { List ℕ → Bool };

    /// Returns `true` if the bytes are the content of a value.
    fn test(bytes: &[u8]) -> bool
        ensures { result ≡ passes bytes.now };
}

/// A value that borrows its content, which passes the test of `K`. A contract sees the content.
#[derive(Drop)]
pub struct Leaf<'a, K> {
    bytes: &'a [u8],
    kind: PhantomData<K>,
}

impl<'a, K> Model for Leaf<'a, K> {
    ghost Value = { List ℕ };

    ghost view = { λ leaf. leaf.bytes.now };
}

impl<'a, K: Kind> Leaf<'a, K> {
    /// Returns the value with this content.
    ///
    /// # Errors
    ///
    /// Overlength if there are more than 268,435,455 bytes; then Value if they don't pass the test
    /// of `K`.
    pub fn new(bytes: &'a [u8]) -> Result<Self>
        ensures value { IfOk result (λ leaf. leaf ≡ bytes.now) }
        ensures kind { HasFault result (new_fault K.passes bytes.now) }
    {
        Length::new(bytes.len())?;
        if !K::test(bytes) {
            return Err(ErrorKind::Value.into());
        }
        Ok(Leaf {
            bytes,
            kind: PhantomData,
        })
    }
}

impl<'a, K> Leaf<'a, K> {
    /// Borrows the content.
    pub fn as_bytes(&self) -> &'a [u8]
        ensures { result.now ≡ self.now }
    {
        self.bytes
    }

    /// Returns the value again. It borrows the same content.
    pub fn reborrow(&self) -> Self
        ensures { result ≡ self.now }
    {
        Leaf {
            bytes: self.bytes,
            kind: PhantomData,
        }
    }
}

impl<K> Default for Leaf<'_, K> {
    /// Returns a value without content, into whose place one is read. It has an encoding only if no
    /// bytes pass the test of `K`.
    fn default() -> Self {
        Leaf {
            bytes: &[],
            kind: PhantomData,
        }
    }
}

impl<K: Kind + Tagged> Tagged for Leaf<'_, K> {
    ghost tag_byte = { K.tag_byte };

    fn fixed_tag() -> Tag
        ensures { result ≡ K.tag_byte }
    {
        K::fixed_tag()
    }
}

impl<K: Kind> ValueContent for Leaf<'_, K> {
    ghost content = { content_if K.passes };

    ghost fault = { λ content. value_unless (K.passes content) };
}

impl<'a, K: Kind> DecodeValue<'a> for Leaf<'a, K> {
    fn decode_value(reader: &mut SliceReader<'a>) -> Result<Self> {
        let bytes = reader.read_rest()?;
        if !K::test(bytes) {
            return Err(reader.fail(ErrorKind::Value));
        }
        Ok(Leaf {
            bytes,
            kind: PhantomData,
        })
    }
}

impl<K: Kind> EncodeValue for Leaf<'_, K> {
    fn value_len(&self) -> Result<Length> {
        if !K::test(self.bytes) {
            return Err(ErrorKind::Overlength.into());
        }
        Length::new(self.bytes.len())
    }

    fn known_value_len(&self) -> usize {
        self.bytes.len()
    }

    fn encode_back(&self, writer: &mut BackWriter) -> Result<()> {
        self.value_len()?;
        writer.write(self.bytes)
    }

    fn prepend_value(&self, writer: &mut BackWriter) {
        writer.prepend(self.bytes);
    }
}

impl<K: Kind> UniqueContent for Leaf<'_, K> {
    fn content_injective()
        ensures { (a b bytes : List ℕ) → content_if K.passes a ≡ Some bytes
            → content_if K.passes b ≡ Some bytes
            → a ≡ b }
    {}
}
