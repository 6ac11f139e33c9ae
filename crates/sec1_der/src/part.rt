//! The parts of a SEQUENCE (X.690 section 8.9), and two parts in a row.
ghost use Rattle.std.specs.Prelude.{◌≡◌, ◌≤◌, ℕ, List, length, Option, Some, false};
ghost use Rattle.std.specs.Prelude.{IsSome, IsSomeAnd};
ghost use Rattle.sec1_der.specs.Writers.{HasRoom, HasPrepended};
ghost use Rattle.sec1_der.specs.Elements.{max_length, within_limit};
ghost use Rattle.sec1_der.specs.Writers.{Measures};
ghost use Rattle.sec1_der.specs.Parts.{Tags, Begins, ReadsPart, AreDistinct, join, both_tags};
ghost use Rattle.sec1_der.specs.PartLaws.{pair_begins};
ghost use Rattle.sec1_der.specs.Faults.{Fault};

use crate::{BackWriter, Length, Result, SliceReader};

/// A part of the content of a SEQUENCE: the bytes of some components in a row.
pub trait Part {
    /// The bytes of a part, if it has an encoding.
    ghost bytes: { Self → Option (List ℕ) };

    /// The rule of a part and what follows it, given that of what follows, as in
    /// [`ValueContent`](crate::ValueContent).
    ghost and_then: { Fault → Fault };

    /// The tags that a part may begin with, and those that mustn't follow it.
    ghost tags: { Tags };

    /// A part begins with one of its first tags, or is empty.
    ghost begins: { (part : Self) (whole : List ℕ) → bytes part ≡ Some whole → Begins tags whole };
}

/// A part that is written.
pub trait EncodePart: Part {
    /// Returns the length of the part in bytes.
    ///
    /// # Errors
    ///
    /// Overlength if the part has no encoding, or one that is longer than 268,435,455 bytes.
    fn part_len(&self) -> Result<Length>
        ensures { Measures (within_limit (Self.bytes self.now)) result };

    /// Returns the length in bytes of a part that has an encoding of at most 268,435,455 bytes, as
    /// each part has that was read.
    ///
    /// A type whose [`part_len`](EncodePart::part_len) examines the value, or one that contains
    /// other parts, overrides this, so that what was examined isn't examined again.
    fn known_part_len(&self) -> usize
        requires { IsSome (within_limit (Self.bytes self.now)) }
        ensures { IsSomeAnd (within_limit (Self.bytes self.now)) (λ bytes. result ≡ length bytes) }
    {
        match self.part_len() {
            Ok(length) => length.get(),
            Err(_) => unreachable!(),
        }
    }

    /// Prepends the part, for which there is room, to what was written.
    fn prepend_part(&self, writer: &mut BackWriter)
        requires { HasRoom (Self.bytes self.now) writer.old }
        ensures { HasPrepended (Self.bytes self.now) writer.old writer.new };
}

/// A part that is read.
pub trait DecodePart<'a>: Part + Sized {
    /// Reads a part, and leaves the bytes after it. Requires that the reader hasn't failed.
    ///
    /// # Errors
    ///
    /// Truncated, Tag, Length, TrailingData or Value if the remaining input doesn't begin with a
    /// part. On an error the reader has failed.
    fn decode_part(reader: &mut SliceReader<'a>) -> Result<Self>
        requires { (reader.old.failed ≡ false) × (length reader.old.unread ≤ max_length) }
        ensures { ReadsPart Self.bytes Self.and_then Self.tags result reader.old
            reader.new };
}

/// A part that is determined by the bytes that begin with it.
pub trait UniquePart: Part {
    /// Does nothing: its contract is the law that if two parts, each with what may follow it, have
    /// the same bytes, the parts are the same, and so is what follows them.
    fn bytes_injective()
        ensures { AreDistinct Self.tags Self.bytes };
}

impl<P: Part, Q: Part> Part for (P, Q) {
    ghost bytes = { λ parts. join (P.bytes parts.0) (Q.bytes parts.1) };

    ghost and_then = { λ rest. P.and_then (Q.and_then rest) };

    ghost tags = { both_tags P.tags Q.tags };

    ghost begins = { λ parts whole same. pair_begins P.tags Q.tags (P.bytes parts.0)
        (Q.bytes parts.1) whole same
        (P.begins parts.0) (Q.begins parts.1) };
}

impl<P: EncodePart, Q: EncodePart> EncodePart for (P, Q) {
    #[inline(always)]
    fn part_len(&self) -> Result<Length> {
        let first = self.0.part_len()?;
        let second = self.1.part_len()?;
        Length::new(first.get() + second.get())
    }

    fn known_part_len(&self) -> usize {
        self.0.known_part_len() + self.1.known_part_len()
    }

    #[inline(always)]
    fn prepend_part(&self, writer: &mut BackWriter) {
        self.1.prepend_part(writer);
        self.0.prepend_part(writer);
    }
}

impl<'a, P: DecodePart<'a> + Drop, Q: DecodePart<'a>> DecodePart<'a> for (P, Q) {
    fn decode_part(reader: &mut SliceReader<'a>) -> Result<Self> {
        let first = P::decode_part(reader)?;
        let second = Q::decode_part(reader)?;
        Ok((first, second))
    }
}

impl<P: UniquePart, Q: UniquePart> UniquePart for (P, Q) {
    fn bytes_injective() {
        P::bytes_injective();
        Q::bytes_injective();
    }
}
