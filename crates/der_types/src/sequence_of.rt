//! SEQUENCE OF (X.690 section 8.10).
ghost use Rattle.std.specs.Prelude.{◌≡◌, ◌<◌, ◌++◌, ◌∷◌, ℕ, List, [], length, Some, None, false};
ghost use Rattle.std.specs.Prelude.{Ok, IsOk, IsSome, IfSome, IfNone, IsSomeAnd};
ghost use Rattle.std.specs.Prelude.{MatchResult, ◌↔◌};
ghost use Rattle.sec1_der.specs.Elements.{element_of};
ghost use Rattle.sec1_der.specs.Errors.{IsReadingFault};
ghost use Rattle.sec1_der.specs.Faults.{HasFault, element_fault, no_fault};
ghost use Rattle.der_types.specs.Sequences.{joined, sequence_fault, sequence_of};

use sec1_der::{
    BackWriter, DecodeValue, EncodeValue, ErrorKind, Length, Result, SliceReader, Tag, Tagged,
    UniqueContent, ValueContent,
};
use std::marker::{Model, PhantomData};

/// Checks that the bytes are elements of `T`, one after another, and nothing else.
///
/// # Errors
///
/// Those of [`SliceReader::decode`] for the first element that is refused.
pub fn check_elements<'a, T: DecodeValue<'a> + Tagged + Drop>(bytes: &'a [u8]) -> Result<()>
    // It succeeds if and only if the bytes are the elements of a list of values.
    ensures found { MatchResult result
        (λ _. (values : List T) × (joined T.tag_byte T.content values ≡ Some bytes.now))
        (λ e. IsReadingFault e.kind) }
    ensures only { (values : List T) → joined T.tag_byte T.content values ≡ Some bytes.now
        → IsOk result }
    ensures kind { HasFault result (sequence_fault T.tag_byte T.fault bytes.now) }
{
    let mut elements = SliceReader::new(bytes);
    while elements.remaining_len() > 0 {
        let _value = elements.decode::<T>()?;
    }
    Ok(())
}

/// The elements of values of `T`, one after another, which have been checked and are borrowed as
/// bytes. A contract sees these.
#[derive(Drop)]
pub struct SequenceOf<'a, T> {
    bytes: &'a [u8],
    of: PhantomData<T>,
}

impl<'a, T> Model for SequenceOf<'a, T> {
    ghost Value = { List ℕ };

    ghost view = { λ elements. elements.bytes.now };
}

impl<'a, T> SequenceOf<'a, T> {
    /// Returns the elements with these bytes.
    ///
    /// # Errors
    ///
    /// Those of [`check_elements`].
    pub fn new(bytes: &'a [u8]) -> Result<Self>
    where
        T: DecodeValue<'a> + Tagged + Drop,
        // It succeeds if and only if the bytes are the elements of a list of values.
        ensures found { MatchResult result (λ elements. (elements ≡ bytes.now)
            × ((values : List T) × (joined T.tag_byte T.content values ≡ Some bytes.now)))
            (λ e. IsReadingFault e.kind) }
        ensures only { (values : List T) → joined T.tag_byte T.content values ≡ Some bytes.now
            → result ≡ Ok bytes.now }
        ensures kind { HasFault result (sequence_fault T.tag_byte T.fault bytes.now) }
    {
        check_elements::<T>(bytes)?;
        Ok(SequenceOf {
            bytes,
            of: PhantomData,
        })
    }

    /// Borrows the bytes of the elements.
    pub fn as_bytes(&self) -> &'a [u8]
        ensures { result.now ≡ self.now }
    {
        self.bytes
    }

    /// Returns the same elements, which borrow the same bytes.
    pub fn reborrow(&self) -> Self
        ensures { result ≡ self.now }
    {
        SequenceOf {
            bytes: self.bytes,
            of: PhantomData,
        }
    }

    /// Returns the values, in their order.
    pub fn elements(&self) -> Elements<'a, T>
        ensures { result ≡ self.now }
    {
        Elements::over(self.bytes)
    }
}

impl<T> Default for SequenceOf<'_, T> {
    /// Returns no elements.
    fn default() -> Self {
        SequenceOf {
            bytes: &[],
            of: PhantomData,
        }
    }
}

/// The values of a SEQUENCE OF, in their order. A contract sees the bytes of the elements that are
/// left.
#[derive(Drop)]
pub struct Elements<'a, T> {
    reader: SliceReader<'a>,
    of: PhantomData<T>,
    ghost working: { reader.failed ≡ false },
}

impl<'a, T> Model for Elements<'a, T> {
    ghost Value = { List ℕ };

    ghost view = { λ elements. elements.reader.unread };
}

impl<'a, T> Elements<'a, T> {
    /// Returns the values of the elements with these bytes.
    pub(crate) fn over(bytes: &'a [u8]) -> Self
        ensures { result ≡ bytes.now }
    {
        Elements {
            reader: SliceReader::new(bytes),
            of: PhantomData,
        }
    }

    /// Returns the next value, or `None` if none is left.
    ///
    /// The elements of a [`SequenceOf`] and of a [`SetOf`](crate::SetOf) have been checked, so that
    /// `None` means that all of them were returned. A contract sees only their bytes: if it doesn't
    /// know of these that they are elements of `T`, then `None` may also mean that they begin with
    /// no such element.
    pub fn next(&mut self) -> Option<T>
    where
        T: DecodeValue<'a> + Tagged,
        ensures found { IfSome result
            (λ value. IsSomeAnd (element_of T.tag_byte (T.content value)) (λ bytes.
            self.old ≡ bytes ++ self.new)) }
        // There is a next value if and only if the bytes begin with an element of `T`.
        ensures exact { IsSome result
            ↔ (element_fault T.tag_byte T.fault no_fault self.old ≡ None) }
        ensures end { IfNone result ((self.new ≡ [])
            × (sequence_fault T.tag_byte T.fault self.old ≡ None → self.old ≡ [])) }
        ensures checked { sequence_fault T.tag_byte T.fault self.old ≡ None
            → sequence_fault T.tag_byte T.fault self.new ≡ None }
        ensures shorter { IsSome result → length self.new < length self.old }
        // The same for a list of values: what is returned comes before those that are left, and is
        // the first of the list.
        ensures values { IfSome result (λ value. (values : List T)
            → joined T.tag_byte T.content values ≡ Some self.new
            → joined T.tag_byte T.content (value ∷ values) ≡ Some self.old) }
        ensures first { (value : T) (values : List T)
            → joined T.tag_byte T.content (value ∷ values) ≡ Some self.old
            → IsSomeAnd result (λ found. T.content found ≡ T.content value)
            × (joined T.tag_byte T.content values ≡ Some self.new) }
    {
        if self.reader.remaining_len() == 0 {
            return None;
        }
        match self.reader.decode::<T>() {
            Ok(value) => Some(value),
            Err(_) => {
                self.reader = SliceReader::new(&[]);
                None
            }
        }
    }
}

impl<T> Tagged for SequenceOf<'_, T> {
    ghost tag_byte = { 0x30 };

    fn fixed_tag() -> Tag
        ensures { result ≡ 0x30 }
    {
        Tag::SEQUENCE
    }
}

impl<T: ValueContent + Tagged> ValueContent for SequenceOf<'_, T> {
    ghost content = { sequence_of T.tag_byte T.fault };

    ghost fault = { sequence_fault T.tag_byte T.fault };
}

impl<'a, T: DecodeValue<'a> + Tagged + Drop> DecodeValue<'a> for SequenceOf<'a, T> {
    fn decode_value(reader: &mut SliceReader<'a>) -> Result<Self> {
        let bytes = reader.read_rest()?;
        match SequenceOf::new(bytes) {
            Ok(elements) => Ok(elements),
            Err(e) => Err(reader.fail(e.kind)),
        }
    }
}

impl<'a, T: DecodeValue<'a> + Tagged + Drop> EncodeValue for SequenceOf<'a, T> {
    fn value_len(&self) -> Result<Length> {
        match check_elements::<T>(self.bytes) {
            Ok(()) => Length::new(self.bytes.len()),
            Err(_) => Err(ErrorKind::Overlength.into()),
        }
    }

    fn known_value_len(&self) -> usize {
        self.bytes.len()
    }

    fn encode_back(&self, writer: &mut BackWriter) -> Result<()> {
        self.value_len()?;
        writer.write(self.bytes)
    }

    fn prepend_value(&self, writer: &mut BackWriter) {
        writer.prepend(self.bytes);
    }
}

impl<T: ValueContent + Tagged> UniqueContent for SequenceOf<'_, T> {
    fn content_injective()
        ensures { (a b bytes : List ℕ) → sequence_of T.tag_byte T.fault a ≡ Some bytes
            → sequence_of T.tag_byte T.fault b ≡ Some bytes → a ≡ b }
    {}
}
