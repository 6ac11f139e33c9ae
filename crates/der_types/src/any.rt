//! An element of any tag.
ghost use Rattle.std.specs.Prelude.{◌≡◌, ◌≤◌, ◌++◌, ℕ, List, length, refl, MatchResult, false};
ghost use Rattle.sec1_der.specs.Elements.{element, IsHeader, IsElement};
ghost use Rattle.sec1_der.specs.Errors.{IsReadingFault};
ghost use Rattle.sec1_der.specs.Parts.{is_among, AreDistinct, ReadsPart};
ghost use Rattle.sec1_der.specs.Faults.{HasFault, end_fault};
ghost use Rattle.sec1_der.specs.Values.{tag_of, value_of};
ghost use Rattle.der_types.specs.AnyElements.{first_byte, all_tags, any_of, any_tags};
ghost use Rattle.der_types.specs.AnyElements.{any_element_fault};
ghost use Rattle.der_types.specs.AnyElements.{any_begins};

use crate::Alternative;
use sec1_der::{
    AnyRef, BackWriter, DecodePart, EncodePart, Length, Part, Result, SliceReader, Tag, UniquePart,
};
use std::marker::Model;

/// One element of any tag, which borrows its bytes: `ANY`, or an open type. A contract sees the
/// bytes of the whole element.
#[derive(Drop)]
pub struct Any<'a> {
    bytes: &'a [u8],
    inside: AnyRef<'a>,
    ghost header: { IsHeader (tag_of inside) (length (value_of inside)) },
    ghost encoded: { bytes.now ≡ element (tag_of inside) (value_of inside) },
}

impl<'a> Model for Any<'a> {
    ghost Value = { List ℕ };

    ghost view = { λ any. any.bytes.now };
}

impl<'a> Any<'a> {
    /// Returns the element with these bytes.
    ///
    /// # Errors
    ///
    /// Truncated, Tag or Length if the bytes don't begin with an element; TrailingData if bytes
    /// follow it.
    pub fn new(bytes: &'a [u8]) -> Result<Any<'a>>
        ensures found { MatchResult result (λ any. (any ≡ bytes.now) × IsElement bytes.now)
            (λ e. IsReadingFault e.kind) }
        ensures only { IsElement bytes.now → result ≡ Ok bytes.now }
        ensures kind { HasFault result (any_element_fault end_fault bytes.now) }
    {
        let mut reader = SliceReader::new(bytes);
        let any = Any::read(&mut reader)?;
        reader.finish()?;
        Ok(any)
    }

    /// Returns the same element, which borrows the same bytes.
    pub fn reborrow(&self) -> Any<'a>
        ensures { result ≡ self.now }
    {
        Any {
            bytes: self.bytes,
            inside: self.inside,
        }
    }

    /// Returns the tag.
    pub fn tag(&self) -> Tag
        ensures { result ≡ first_byte self.now }
    {
        self.inside.tag()
    }

    /// Borrows the content.
    pub fn content(&self) -> &'a [u8]
        ensures { IsHeader (first_byte self.now) (length result.now)
            × (self.now ≡ element (first_byte self.now) result.now) }
    {
        self.inside.value()
    }

    /// Borrows the bytes of the whole element.
    pub fn element(&self) -> &'a [u8]
        ensures { result.now ≡ self.now }
    {
        self.bytes
    }

    /// Reads one element of any tag. Requires that the reader hasn't failed.
    fn read(reader: &mut SliceReader<'a>) -> Result<Any<'a>>
        requires { reader.old.failed ≡ false }
        ensures { ReadsPart any_of any_element_fault any_tags result reader.old reader.new }
    {
        let input = reader.remaining_input();
        match AnyRef::decode(reader) {
            Ok(inside) => Ok(Any {
                bytes: read_since(input, reader),
                inside,
            }),
            Err(e) => Err(e),
        }
    }
}

impl Part for Any<'_> {
    ghost bytes = { any_of };

    ghost and_then = { any_element_fault };

    ghost tags = { any_tags };

    ghost begins = { any_begins };
}

impl Alternative for Any<'_> {
    fn may_begin(byte: u8) -> bool
        ensures { result ≡ is_among byte all_tags }
    {
        Tag::from_byte(byte).is_ok()
    }

    ghost never_empty = { refl };
}

impl EncodePart for Any<'_> {
    #[tactic(auto, using(crate::proofs::AnyLemmas::any_there))]
    fn part_len(&self) -> Result<Length> {
        Length::new(self.bytes.len())
    }

    fn prepend_part(&self, writer: &mut BackWriter) {
        writer.prepend(self.bytes);
    }
}

impl<'a> DecodePart<'a> for Any<'a> {
    fn decode_part(reader: &mut SliceReader<'a>) -> Result<Self> {
        Any::read(reader)
    }
}

impl UniquePart for Any<'_> {
    #[tactic(auto, using(crate::proofs::AnyLemmas::any_distinct))]
    fn bytes_injective()
        ensures { AreDistinct any_tags any_of }
    {}
}

/// Borrows the bytes that a reader read since `input` was its remaining input.
fn read_since<'a>(input: &'a [u8], reader: &SliceReader<'a>) -> &'a [u8]
    requires { length reader.now.unread ≤ length input.now }
    ensures { (bytes : List ℕ) → input.now ≡ bytes ++ reader.now.unread → result.now ≡ bytes }
{
    let count = input.len() - reader.remaining_len();
    &input[..count]
}
