ghost use Rattle.std.specs.Prelude.{◌≤◌, length, IsTrue};
ghost use Rattle.sec1_der.specs.Elements.{max_length, is_tag};

use crate::header::element_at;
use crate::{
    BackWriter, EncodeValue, ErrorKind, Length, ObjectIdentifier, Result, SliceReader, Tag,
    ValueContent,
};

/// An element of any tag, which borrows its content without looking into it.
// The tag is its byte: a value that holds both a reference and a type with a `Model` can't
// be passed by `?`.
#[derive(Clone, Copy, Debug)]
pub struct AnyRef<'a> {
    tag: u8,
    value: &'a [u8],
    ghost tagged: { IsTrue (is_tag tag) },
    ghost bounded: { length value.now ≤ max_length },
}

impl<'a> AnyRef<'a> {
    ghost use Rattle.std.specs.Prelude.{◌≡◌, ◌<◌, ◌++◌, [], ℕ, List, Some, IfOk, IsOkAnd};
    ghost use Rattle.std.specs.Prelude.{MatchResult};
    ghost use Rattle.sec1_der.specs.Elements.{element, IsElement, IsHeader};
    ghost use Rattle.sec1_der.specs.Errors.{IsHeaderFault};
    ghost use Rattle.sec1_der.specs.Readers.{reader_over, HasRead, RefusesBy};
    ghost use Rattle.sec1_der.specs.Faults.{Fault, HasFault, any_fault, no_fault};
    ghost use Rattle.sec1_der.specs.Values.{tag_of, value_of};

    /// Returns the element with this tag and content.
    ///
    /// # Errors
    ///
    /// Overlength if the content is longer than 268,435,455 bytes.
    pub fn new(tag: Tag, value: &'a [u8]) -> Result<AnyRef<'a>>
        ensures { MatchResult result
            (λ any. (tag_of any ≡ tag) × (value_of any ≡ value.now)
            × (length value.now ≤ max_length))
            (λ e. (e.kind ≡ ErrorKind.Overlength) × (max_length < length value.now)) }
    {
        Length::new(value.len())?;
        Ok(AnyRef {
            tag: tag.byte(),
            value,
        })
    }

    /// Returns the element of any tag that the bytes begin with, and the bytes after it.
    ///
    /// # Errors
    ///
    /// Those of [`Header::decode`](crate::Header::decode), then Truncated if the bytes end inside
    /// the content.
    ///
    /// # Examples
    ///
    /// ```
    /// let (first, rest) = AnyRef::split(bytes)?;
    /// ```
    pub fn split(bytes: &'a [u8]) -> Result<(AnyRef<'a>, &'a [u8])>
        // What is returned are an element and what follows it, which together are the bytes. The
        // kind of an error is the same whatever the content has to be and whatever may follow.
        ensures exact { MatchResult result
            (λ split. IsHeader (tag_of split.0) (length (value_of split.0))
            × (bytes.now ≡ element (tag_of split.0) (value_of split.0) ++ split.1.now))
            (λ e. IsHeaderFault e.kind × ((content : ℕ → Fault) (rest : Fault)
            → any_fault content rest bytes.now ≡ Some (Some e.kind))) }
        // If the bytes begin with an element, it is returned.
        ensures only { (tag : ℕ) (content rest : List ℕ) → IsHeader tag (length content)
            → bytes.now ≡ element tag content ++ rest
            → IsOkAnd result (λ split. (tag_of split.0 ≡ tag) × (value_of split.0 ≡ content)
            × (split.1.now ≡ rest)) }
        // The same of bytes that are one element: nothing follows it.
        ensures whole { (tag : ℕ) (content : List ℕ) → IsHeader tag (length content)
            → bytes.now ≡ element tag content
            → IsOkAnd result (λ split. (tag_of split.0 ≡ tag) × (value_of split.0 ≡ content)
            × (split.1.now ≡ [])) }
        ensures element { IsElement bytes.now → IsOkAnd result (λ split.
            (bytes.now ≡ element (tag_of split.0) (value_of split.0)) × (split.1.now ≡ [])) }
        ensures kind { HasFault result (any_fault (λ _. no_fault) no_fault bytes.now) }
    {
        match element_at(bytes) {
            Ok((header, inside)) => {
                let (value, rest) = inside.split_at(header.length.get());
                let any = AnyRef {
                    tag: header.tag.byte(),
                    value,
                };
                Ok((any, rest))
            }
            Err(kind) => Err(kind.into()),
        }
    }

    /// Reads one element of any tag.
    ///
    /// # Errors
    ///
    /// Those of [`split`](AnyRef::split). On an error the reader has failed, and its remaining
    /// input is as it was.
    pub fn decode(reader: &mut SliceReader<'a>) -> Result<AnyRef<'a>>
        ensures found { IfOk result (λ any. IsHeader (tag_of any) (length (value_of any))
            × HasRead (element (tag_of any) (value_of any)) reader.old reader.new) }
        ensures only { (tag : ℕ) (content rest : List ℕ) → IsHeader tag (length content)
            → reader.old ≡ reader_over (element tag content ++ rest)
            → IsOkAnd result (λ any. (tag_of any ≡ tag) × (value_of any ≡ content))
            × (reader.new ≡ reader_over rest) }
        ensures refused { RefusesBy (any_fault (λ _. no_fault) no_fault) result reader.old
            reader.new }
    {
        reader.check()?;
        match AnyRef::split(reader.remaining_input()) {
            Ok((any, rest)) => {
                reader.set_unread(rest);
                Ok(any)
            }
            Err(e) => Err(reader.fail(e.kind)),
        }
    }

    /// Returns the tag.
    pub fn tag(&self) -> Tag
        ensures { result ≡ tag_of self.now }
    {
        Tag::of_byte(self.tag)
    }

    /// Borrows the content.
    pub fn value(&self) -> &'a [u8]
        ensures { result.now ≡ value_of self.now }
    {
        self.value
    }
}

/// Returns the element of an identifier, whose content is borrowed.
impl<'a> From<&'a ObjectIdentifier> for AnyRef<'a> {
    ghost use Rattle.std.specs.Prelude.{◌≡◌};
    ghost use Rattle.sec1_der.specs.Identifiers.{IsIdentifier};
    ghost use Rattle.sec1_der.specs.Values.{tag_of, value_of};

    ghost from_gives = { λ identifier any. (tag_of any ≡ 0x06)
        × IsIdentifier identifier.now (value_of any) };

    fn from(identifier: &'a ObjectIdentifier) -> AnyRef<'a> {
        AnyRef {
            tag: Tag::OBJECT_IDENTIFIER.byte(),
            value: identifier.as_bytes(),
        }
    }
}

/// Elements are equal exactly when their tags and their contents are.
impl PartialEq for AnyRef<'_> {
    ghost use Rattle.std.specs.Cmp.{and_equiv, nat_eq_equiv, on_equiv, partial_equiv_from_equiv};
    ghost use Rattle.std.specs.Cmp.Lexicographic.{on_texts_equal};
    ghost use Rattle.std.specs.Ordering.{eq_of_both, on};
    ghost use Rattle.std.specs.Prelude.{◌≡◌, ◌↔◌, IsTrue, bytes_eq, nat_eq};
    ghost use Rattle.sec1_der.specs.Values.{tag_of, value_of};

    ghost eq = { eq_of_both (on tag_of nat_eq) (on value_of bytes_eq) };

    ghost laws = { partial_equiv_from_equiv (and_equiv (on_equiv tag_of nat_eq_equiv)
        (on_texts_equal value_of)) };

    fn eq(&self, other: &Self) -> bool
        ensures value { result
            ≡ eq_of_both (on tag_of nat_eq) (on value_of bytes_eq) self.now other.now }
        ensures same { IsTrue result ↔ ((tag_of self.now ≡ tag_of other.now)
            × (value_of self.now ≡ value_of other.now)) }
    {
        self.tag == other.tag && self.value == other.value
    }
}

impl Eq for AnyRef<'_> {
    ghost use Rattle.std.specs.Cmp.{and_equiv, nat_eq_equiv, on_equiv};
    ghost use Rattle.std.specs.Cmp.Lexicographic.{on_texts_equal};
    ghost use Rattle.sec1_der.specs.Values.{tag_of, value_of};

    ghost laws = { and_equiv (on_equiv tag_of nat_eq_equiv) (on_texts_equal value_of) };
}

impl ValueContent for AnyRef<'_> {
    ghost use Rattle.std.specs.Prelude.{Some};
    ghost use Rattle.sec1_der.specs.Faults.{no_fault};
    ghost use Rattle.sec1_der.specs.Values.{value_of};

    ghost content = { λ any. Some (value_of any) };

    ghost fault = { no_fault };
}

impl EncodeValue for AnyRef<'_> {
    fn value_len(&self) -> Result<Length> {
        Length::new(self.value.len())
    }

    fn encode_back(&self, writer: &mut BackWriter) -> Result<()> {
        writer.write(self.value)
    }
}
