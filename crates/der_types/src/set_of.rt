//! SET OF (X.690 sections 8.12 and 11.6).
ghost use Rattle.std.specs.Prelude.{◌≡◌, ℕ, List, Some, true, Ok, MatchResult};
ghost use Rattle.sec1_der.specs.Errors.{IsReadingFault};
ghost use Rattle.sec1_der.specs.Faults.{HasFault};
ghost use Rattle.der_types.specs.Sequences.{joined};
ghost use Rattle.der_types.specs.Sequences.{is_ascending, set_fault, set_of};

use crate::{Elements, check_elements};
use sec1_der::{
    AnyRef, BackWriter, DecodeValue, EncodeValue, ErrorKind, Length, Result, SliceReader, Tag,
    Tagged, UniqueContent, ValueContent,
};
use std::marker::{Model, PhantomData};

/// Tests whether the elements in these bytes are in ascending order (X.690 section 11.6). Their
/// encodings are compared as octet strings, and equal ones are allowed. The test ends at the end of
/// the bytes, or where no element begins.
pub(crate) fn is_ascending(bytes: &[u8]) -> bool
    ensures { result ≡ is_ascending bytes.now }
{
    let mut rest = bytes;
    let mut last = &bytes[..0];
    while let Ok((_, after)) = AnyRef::split(rest) {
        let element = &rest[..rest.len() - after.len()];
        if last > element {
            return false;
        }
        last = element;
        rest = after;
    }
    true
}

/// The elements of values of `T` in ascending order, one after another, which have been checked and
/// are borrowed as bytes. A contract sees these.
#[derive(Drop)]
pub struct SetOf<'a, T> {
    bytes: &'a [u8],
    of: PhantomData<T>,
}

impl<'a, T> Model for SetOf<'a, T> {
    ghost Value = { List ℕ };

    ghost view = { λ elements. elements.bytes.now };
}

impl<'a, T> SetOf<'a, T> {
    /// Returns the elements with these bytes.
    ///
    /// # Errors
    ///
    /// Those of [`check_elements`], then Value if the elements aren't in ascending order (X.690
    /// section 11.6).
    pub fn new(bytes: &'a [u8]) -> Result<Self>
    where
        T: DecodeValue<'a> + Tagged + Drop,
        // It succeeds if and only if the bytes are the elements of a list of values, in ascending
        // order.
        ensures found { MatchResult result (λ elements. (elements ≡ bytes.now)
            × (is_ascending bytes.now ≡ true)
            × ((values : List T) × (joined T.tag_byte T.content values ≡ Some bytes.now)))
            (λ e. IsReadingFault e.kind) }
        ensures only { (values : List T) → joined T.tag_byte T.content values ≡ Some bytes.now
            → is_ascending bytes.now ≡ true → result ≡ Ok bytes.now }
        ensures kind { HasFault result (set_fault T.tag_byte T.fault bytes.now) }
    {
        check_elements::<T>(bytes)?;
        if !is_ascending(bytes) {
            return Err(ErrorKind::Value.into());
        }
        Ok(SetOf {
            bytes,
            of: PhantomData,
        })
    }

    /// Borrows the bytes of the elements.
    pub fn as_bytes(&self) -> &'a [u8]
        ensures { result.now ≡ self.now }
    {
        self.bytes
    }

    /// Returns the same elements, which borrow the same bytes.
    pub fn reborrow(&self) -> Self
        ensures { result ≡ self.now }
    {
        SetOf {
            bytes: self.bytes,
            of: PhantomData,
        }
    }

    /// Returns the values, in their order.
    pub fn elements(&self) -> Elements<'a, T>
        ensures { result ≡ self.now }
    {
        Elements::over(self.bytes)
    }
}

impl<T> Tagged for SetOf<'_, T> {
    ghost tag_byte = { 0x31 };

    fn fixed_tag() -> Tag
        ensures { result ≡ 0x31 }
    {
        Tag::SET
    }
}

impl<T: ValueContent + Tagged> ValueContent for SetOf<'_, T> {
    ghost content = { set_of T.tag_byte T.fault };

    ghost fault = { set_fault T.tag_byte T.fault };
}

impl<'a, T: DecodeValue<'a> + Tagged + Drop> DecodeValue<'a> for SetOf<'a, T> {
    fn decode_value(reader: &mut SliceReader<'a>) -> Result<Self> {
        let bytes = reader.read_rest()?;
        match SetOf::new(bytes) {
            Ok(elements) => Ok(elements),
            Err(e) => Err(reader.fail(e.kind)),
        }
    }
}

impl<'a, T: DecodeValue<'a> + Tagged + Drop> EncodeValue for SetOf<'a, T> {
    fn value_len(&self) -> Result<Length> {
        match SetOf::<T>::new(self.bytes) {
            Ok(_) => Length::new(self.bytes.len()),
            Err(_) => Err(ErrorKind::Overlength.into()),
        }
    }

    fn known_value_len(&self) -> usize {
        self.bytes.len()
    }

    fn encode_back(&self, writer: &mut BackWriter) -> Result<()> {
        self.value_len()?;
        writer.write(self.bytes)
    }

    fn prepend_value(&self, writer: &mut BackWriter) {
        writer.prepend(self.bytes);
    }
}

impl<T: ValueContent + Tagged> UniqueContent for SetOf<'_, T> {
    fn content_injective()
        ensures { (a b bytes : List ℕ) → set_of T.tag_byte T.fault a ≡ Some bytes
            → set_of T.tag_byte T.fault b ≡ Some bytes → a ≡ b }
    {}
}
