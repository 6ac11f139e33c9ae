//! The traits of DER values: with them the generic calls read and write a type.
ghost use Rattle.std.specs.Prelude.{◌≡◌, ◌≤◌, ℕ, List, length, Option, Some, None, IsSomeAnd};
ghost use Rattle.std.specs.Prelude.{MatchResult, IsSome, IsTrue};
ghost use Rattle.sec1_der.specs.Writers.{back_state, HasRoom, Prepends, HasPrepended};
ghost use Rattle.sec1_der.specs.Elements.{max_length, within_limit, is_tag};
ghost use Rattle.sec1_der.specs.Writers.{Measures};
ghost use Rattle.sec1_der.specs.Readers.{ReadsContent};
ghost use Rattle.sec1_der.specs.Faults.{Fault};
ghost use Rattle.sec1_der.specs.Writers.{slice_state, Appends};
ghost use Rattle.sec1_der.specs.Writers.{Writes};

use crate::length::check_room;
use crate::{BackWriter, ErrorKind, Header, Length, Result, SliceReader, SliceWriter, Tag};

/// A type whose elements all have the same tag, which may be that of a type parameter.
pub trait Tagged {
    /// The number of the tag byte.
    ghost tag_byte: { ℕ };

    /// Returns the tag. A contract sees its byte.
    fn fixed_tag() -> Tag
        ensures { result ≡ tag_byte };
}

/// A type whose tag is a constant.
pub trait FixedTag: Tagged {
    /// The tag, which is [`fixed_tag`](Tagged::fixed_tag).
    const TAG: Tag;
}

/// A type whose values have a content, the bytes in their element after the header.
pub trait ValueContent {
    /// The content of a value, if it has one.
    ghost content: { Self → Option (List ℕ) };

    /// The rule of the type: `None` for bytes that are a content of it, otherwise the kind of error
    /// by which they are refused, as `Some (Some kind)`. `Some None` leaves the kind open: it is
    /// one of [`decode_value`](DecodeValue::decode_value).
    ghost fault: { Fault };
}

/// A value that is read from the content of its element.
pub trait DecodeValue<'a>: ValueContent + Sized {
    /// Reads a value from its content, which is all of the remaining input: at most 268,435,455
    /// bytes.
    ///
    /// # Errors
    ///
    /// Truncated, Tag, Length, TrailingData or Value if the remaining input isn't a content of the
    /// type; Failed if the reader failed before. On an error the reader has failed.
    fn decode_value(reader: &mut SliceReader<'a>) -> Result<Self>
        requires { length reader.old.unread ≤ max_length }
        ensures { ReadsContent Self.content Self.fault result reader.old reader.new };
}

/// A value whose content is written.
pub trait EncodeValue: ValueContent {
    /// Returns the length of the content in bytes.
    ///
    /// # Errors
    ///
    /// Overlength if there is no content, or if it is longer than 268,435,455 bytes.
    fn value_len(&self) -> Result<Length>
        ensures { Measures (within_limit (Self.content self.now)) result };

    /// Returns the length in bytes of a content that is there and has at most 268,435,455 bytes,
    /// such as that of a value that was read.
    ///
    /// A type whose [`value_len`](EncodeValue::value_len) examines the value, or one that contains
    /// other values, overrides this, so that what was examined isn't examined again.
    fn known_value_len(&self) -> usize
        requires { IsSome (within_limit (Self.content self.now)) }
        ensures { IsSomeAnd (within_limit (Self.content self.now))
            (λ content. result ≡ length content) }
    {
        match self.value_len() {
            Ok(length) => length.get(),
            Err(_) => unreachable!(),
        }
    }

    /// Appends the content.
    ///
    /// # Errors
    ///
    /// Those of [`value_len`](EncodeValue::value_len), then Buffer if there is no room for the
    /// content. On an error nothing is written.
    #[tactic(auto, using(std::proofs::lemmas::Slice::overwrites))]
    fn encode_value(&self, writer: &mut SliceWriter) -> Result<()>
        ensures { Writes slice_state Appends (within_limit (Self.content self.now))
            writer.old writer.new result }
    {
        let count = self.value_len()?.get();
        check_room(count, writer.remaining())?;
        let end = writer.position + count;
        self.fill_content(&mut writer.buffer[writer.position..end]);
        writer.position = end;
        Ok(())
    }

    /// Prepends the content to what was written.
    ///
    /// # Errors
    ///
    /// Those of [`encode_value`](EncodeValue::encode_value). On an error nothing is written.
    fn encode_back(&self, writer: &mut BackWriter) -> Result<()>
        ensures { Writes back_state Prepends (within_limit (Self.content self.now))
            writer.old writer.new result };

    /// Writes the content into a slice of its length.
    fn fill_content(&self, buffer: &mut [u8])
        requires { IsSomeAnd (within_limit (Self.content self.now))
            (λ bytes. length buffer.old ≡ length bytes) }
        ensures { within_limit (Self.content self.now) ≡ Some buffer.new }
    {
        self.prepend_value(&mut BackWriter::new(buffer));
    }

    /// Prepends the content, for which there is room, to what was written.
    ///
    /// A type that contains other elements overrides this with calls of
    /// [`BackWriter::prepend_element`], so that an element is measured once, however deep it is
    /// nested.
    fn prepend_value(&self, writer: &mut BackWriter)
        requires { HasRoom (within_limit (Self.content self.now)) writer.old }
        ensures { HasPrepended (Self.content self.now) writer.old writer.new }
    {
        // It doesn't fail.
        let _ = self.encode_back(writer);
    }
}

/// A type for which different values have different contents.
pub trait UniqueContent: ValueContent {
    /// Does nothing: its contract is the law that two values with the same content are the same.
    fn content_injective()
        ensures { (a b : Self) (bytes : List ℕ) → Self.content a ≡ Some bytes
            → Self.content b ≡ Some bytes → a ≡ b };
}

/// A value that is read and written as a SEQUENCE (X.690 section 8.9).
pub trait Sequence<'a>: DecodeValue<'a> + EncodeValue + FixedTag {
    /// The tag is `30`.
    ghost is_sequence: { Self.tag_byte ≡ 0x30 };
}

/// Returns the header of the value's element.
#[inline(always)]
pub(crate) fn element_header<T: EncodeValue + Tagged>(value: &T) -> Result<Header>
    ensures { MatchResult result
        (λ header. IsTrue (is_tag T.tag_byte) × IsSomeAnd (within_limit (T.content value.now))
        (λ content. header ≡ record { tag = T.tag_byte; length = length content }))
        (λ e. (e.kind ≡ ErrorKind.Overlength) × (within_limit (T.content value.now) ≡ None)) }
{
    Ok(Header {
        tag: T::fixed_tag(),
        length: value.value_len()?,
    })
}
