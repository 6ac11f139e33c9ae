//! Implicit tags (X.690 section 8.14.3).
ghost use Rattle.std.specs.Prelude.{◌≡◌};

use sec1_der::{
    BackWriter, DecodeValue, EncodeValue, Length, Record, Result, SliceReader, Tag, Tagged,
    UniqueContent, ValueContent,
};
use std::marker::{Model, PhantomData};

/// A value with the tag of `K` instead of its own: `[0] IMPLICIT A` is `Implicit<Primitive0, A>`,
/// or `Implicit<Context0, A>` if the content of `A` consists of elements. A contract sees the
/// value.
#[derive(Drop)]
#[derive_where(Clone, Copy, Debug, PartialEq, Eq; A)]
pub struct Implicit<K, A> {
    /// The value.
    pub value: A,
    #[derive_where(skip)]
    tag: PhantomData<K>,
}

impl<K, A> Model for Implicit<K, A> {
    ghost Value = { A };

    ghost view = { λ field. field.value };

    ghost inverse = { λ value. record { value = value; tag = record {} } };
}

impl<K, A> Implicit<K, A> {
    /// Returns the value with the tag of `K`.
    pub fn new(value: A) -> Self
        ensures { result ≡ value }
    {
        Implicit {
            value,
            tag: PhantomData,
        }
    }
}

impl<K, A: Record> Implicit<K, A> {
    /// Returns the value again. It borrows what this one borrows.
    pub fn reborrow(&self) -> Self
        ensures { result ≡ self.now }
    {
        Implicit::new(self.value.reborrow())
    }
}

impl<K: Tagged, A> Tagged for Implicit<K, A> {
    ghost tag_byte = { K.tag_byte };

    fn fixed_tag() -> Tag {
        K::fixed_tag()
    }
}

impl<K, A: ValueContent> ValueContent for Implicit<K, A> {
    ghost content = { A.content };

    ghost fault = { A.fault };
}

impl<'a, K, A: DecodeValue<'a>> DecodeValue<'a> for Implicit<K, A> {
    fn decode_value(reader: &mut SliceReader<'a>) -> Result<Self> {
        let value = A::decode_value(reader)?;
        Ok(Implicit::new(value))
    }
}

impl<K, A: EncodeValue> EncodeValue for Implicit<K, A> {
    fn value_len(&self) -> Result<Length> {
        self.value.value_len()
    }

    fn known_value_len(&self) -> usize {
        self.value.known_value_len()
    }

    fn encode_back(&self, writer: &mut BackWriter) -> Result<()> {
        self.value.encode_back(writer)
    }

    fn prepend_value(&self, writer: &mut BackWriter) {
        self.value.prepend_value(writer);
    }
}

impl<K, A: UniqueContent> UniqueContent for Implicit<K, A> {
    fn content_injective() {
        A::content_injective();
    }
}
