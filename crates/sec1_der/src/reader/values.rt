//! The generic calls of a reader, which read values and explicit fields.
ghost use Rattle.std.specs.Prelude.{◌≡◌, ◌≢◌, ◌≤◌, ◌++◌, ℕ, List, length, slice_get, true, false};
ghost use Rattle.std.specs.Prelude.{IfOk, ◌+◌, None};
ghost use Rattle.std.specs.Prelude.{IsOkAnd, IsSomeAnd, MatchOption, MatchResult};
ghost use Rattle.sec1_der.specs.Elements.{max_length, element, element_of, IsProperPrefix};
ghost use Rattle.sec1_der.specs.Errors.{Refuses};
ghost use Rattle.sec1_der.specs.Readers.{reader_over, HasReadElement, ReadsContent, RefusesBy};
ghost use Rattle.sec1_der.specs.Faults.{element_fault, end_fault, no_fault, optional_fault};
ghost use Rattle.sec1_der.specs.Faults.{IsFaultOf};

use crate::header::element_at;
use crate::{DecodeValue, ErrorKind, Result, SliceReader, Tag, Tagged};

impl<'a> SliceReader<'a> {
    /// Reads one element with the tag of `T`.
    ///
    /// # Errors
    ///
    /// Truncated if no input remains; Tag if the next byte isn't that tag; then Length if no length
    /// in the form of DER follows, or Truncated if the input ends inside the header or the content;
    /// then those of [`DecodeValue::decode_value`]; Failed if the reader failed before. On an error
    /// the reader has failed, and its remaining input is as it was.
    pub fn decode<T: DecodeValue<'a> + Tagged>(&mut self) -> Result<T>
        // What is read is the element of the value, and just its bytes are read. Its content meets
        // the rule of the type.
        ensures found { IfOk result (λ value. IsSomeAnd (T.content value) (λ content.
            (T.fault content ≡ None)
            × HasReadElement T.tag_byte content self.old self.new)) }
        // If the unread bytes begin with the element of a value, it is read.
        ensures only { (value : T) (content rest : List ℕ) → T.content value ≡ Some content
            → length content ≤ max_length
            → self.old ≡ reader_over (element T.tag_byte content ++ rest)
            → IsOkAnd result (λ found. T.content found ≡ Some content)
            × (self.new ≡ reader_over rest) }
        // If they begin with an element, it is read if its content meets the rule of the type, and
        // otherwise it is refused by the kind that the rule says.
        ensures rule { (content rest : List ℕ) → length content ≤ max_length
            → self.old ≡ reader_over (element T.tag_byte content ++ rest)
            → MatchResult result
            (λ found. (T.content found ≡ Some content) × (T.fault content ≡ None)
            × (self.new ≡ reader_over rest))
            (λ e. IsFaultOf (T.fault content) e.kind) }
        ensures refused { RefusesBy (element_fault T.tag_byte T.fault no_fault) result
            self.old self.new }
    {
        let start = self.remaining_input();
        let mut content = self.open(T::fixed_tag())?;
        match T::decode_value(&mut content) {
            Ok(value) => Ok(value),
            Err(e) => Err(self.fail_at(start, e.kind)),
        }
    }

    /// Reads an explicit field `[number]` around one element with the tag of `T`, if present (X.690
    /// section 8.14). It is present if the next byte is `A0 + number`. Otherwise nothing is read.
    ///
    /// # Errors
    ///
    /// Those of [`decode`](SliceReader::decode) for the field and for the element inside;
    /// TrailingData if bytes follow that element inside the field; Failed if the reader failed
    /// before. On an error the reader has failed, and its remaining input is as it was.
    pub fn context_specific<T: DecodeValue<'a> + Tagged + Drop>(
        &mut self,
        number: u8,
    ) -> Result<Option<T>>
        requires { number ≤ 30 }
        // What is read is the field around the element of the value, and just its bytes are read;
        // the content meets the rule of the type. `None` means that no such field is next.
        ensures found { IfOk result (λ field. MatchOption field
            ((self.new ≡ self.old) × (slice_get self.old.unread 0 ≢ Some (0xA0 + number)))
            (λ value. IsSomeAnd (T.content value) (λ content. (T.fault content ≡ None)
            × (length content ≤ max_length)
            × HasReadElement (0xA0 + number) (element T.tag_byte content) self.old
            self.new))) }
        // If another byte is next, or none, nothing is read.
        ensures absent { self.old.failed ≡ false
            → slice_get self.old.unread 0 ≢ Some (0xA0 + number)
            → (result ≡ Ok None) × (self.new ≡ self.old) }
        // If the unread bytes begin with such a field, it is read.
        ensures only { (value : T) (content rest : List ℕ) → T.content value ≡ Some content
            → length content ≤ max_length → length (element T.tag_byte content) ≤ max_length
            → self.old ≡ reader_over
            (element (0xA0 + number) (element T.tag_byte content) ++ rest)
            → IsOkAnd result (λ field. IsSomeAnd field (λ found. T.content found ≡ Some content))
            × (self.new ≡ reader_over rest) }
        // If they begin with one around any element of this tag, it is read if the content meets
        // the rule of the type, and otherwise it is refused by the kind that the rule says.
        ensures rule { (content rest : List ℕ)
            → length content ≤ max_length → length (element T.tag_byte content) ≤ max_length
            → self.old ≡ reader_over
            (element (0xA0 + number) (element T.tag_byte content) ++ rest)
            → MatchResult result
            (λ field. IsSomeAnd field (λ found. T.content found ≡ Some content)
            × (T.fault content ≡ None) × (self.new ≡ reader_over rest))
            (λ e. IsFaultOf (T.fault content) e.kind) }
        ensures refused { RefusesBy (optional_fault (0xA0 + number)
            (element_fault T.tag_byte T.fault end_fault) no_fault) result self.old self.new }
    {
        self.check()?;
        let input = self.remaining_input();
        let tag = Tag::context(number);
        if self.peek_tag_byte() != Some(tag.byte()) {
            return Ok(None);
        }
        let mut field = self.open(tag)?;
        match field.only_element::<T>() {
            Ok(value) => Ok(Some(value)),
            Err(e) => Err(self.fail_at(input, e.kind)),
        }
    }

    /// Reads the next element, which has this tag, and returns a reader over its content.
    ///
    /// # Errors
    ///
    /// Truncated if no input remains; Tag if the next byte isn't that tag; then Length if no length
    /// in the form of DER follows, or Truncated if the input ends inside the header or the content;
    /// Failed if the reader failed before. On an error the reader has failed, and its remaining
    /// input is as it was.
    pub fn open(&mut self, tag: Tag) -> Result<SliceReader<'a>>
        ensures found { IfOk result (λ content. (content ≡ reader_over content.unread)
            × HasReadElement tag content.unread self.old self.new) }
        ensures only { (content rest : List ℕ) → length content ≤ max_length
            → self.old ≡ reader_over (element tag content ++ rest)
            → (result ≡ Ok (reader_over content)) × (self.new ≡ reader_over rest) }
        ensures refused { RefusesBy (element_fault tag no_fault no_fault) result self.old
            self.new }
    {
        self.check()?;
        let Some(byte) = self.remaining_input().first() else {
            return Err(self.fail(ErrorKind::Truncated));
        };
        if *byte != tag.byte() {
            return Err(self.fail(ErrorKind::Tag));
        }
        match element_at(self.remaining_input()) {
            Ok((header, inside)) => {
                let (content, rest) = inside.split_at(header.length.get());
                self.set_unread(rest);
                Ok(SliceReader::new(content))
            }
            Err(kind) => Err(self.fail(kind)),
        }
    }

    /// Reads the one element in the remaining input.
    pub(crate) fn only_element<T: DecodeValue<'a> + Tagged + Drop>(&mut self) -> Result<T>
        ensures reads { ReadsContent (λ value. element_of T.tag_byte (T.content value))
            (element_fault T.tag_byte T.fault end_fault) result self.old self.new }
        ensures meets { IfOk result (λ value. IsSomeAnd (T.content value)
            (λ content. T.fault content ≡ None)) }
        ensures rule { (content : List ℕ) → length content ≤ max_length
            → self.old ≡ reader_over (element T.tag_byte content)
            → MatchResult result
            (λ found. (T.content found ≡ Some content) × (T.fault content ≡ None))
            (λ e. IsFaultOf (T.fault content) e.kind) }
        ensures long { (value : T) (content : List ℕ) → T.content value ≡ Some content
            → length content ≤ max_length → self.old.failed ≡ false
            → IsProperPrefix (element T.tag_byte content) self.old.unread
            → Refuses result ErrorKind.TrailingData }
    {
        let value = self.decode::<T>()?;
        self.finish()?;
        Ok(value)
    }
}
