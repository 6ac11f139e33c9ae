//! CHOICE (X.690 section 8.13): a part that is one of several.
ghost use Rattle.std.specs.Prelude.{◌≡◌, not, false, refl};
ghost use Rattle.sec1_der.specs.Parts.{is_among};
ghost use Rattle.der_types.specs.Choices.{begins_among, choice_of, choice_tags, choice_fault};
ghost use Rattle.der_types.specs.Choices.{choice_begins, choice_not_empty};

use sec1_der::{
    BackWriter, DecodePart, EncodePart, Length, Part, Required, Result, SliceReader, Tagged,
    UniquePart, ValueContent,
};

/// A part that is never empty, so that its first byte tells whether it is there.
pub trait Alternative: Part {
    /// Returns `true` if a part may begin with this byte.
    fn may_begin(byte: u8) -> bool
        ensures { result ≡ is_among byte Self.tags.first };

    /// The part is never empty.
    ghost never_empty: { Self.tags.nullable ≡ false };
}

impl<A: ValueContent + Tagged> Alternative for Required<A> {
    fn may_begin(byte: u8) -> bool {
        byte == A::fixed_tag().byte()
    }

    ghost never_empty = { refl };
}

/// Returns `true` if the next byte isn't one that `P` may begin with, or if no input remains.
/// Requires that the reader hasn't failed.
pub(crate) fn is_absent<P: Alternative>(reader: &SliceReader) -> bool
    requires { reader.now.failed ≡ false }
    ensures { result ≡ not (begins_among P.tags.first reader.now.unread) }
{
    match reader.peek_tag_byte() {
        Some(byte) => !P::may_begin(byte),
        None => true,
    }
}

/// A CHOICE of two parts: `P` if the next byte is one that `P` may begin with, otherwise `Q`. A
/// CHOICE of more is nested: `Choice<P, Choice<Q, R>>`.
///
/// If both may begin with the same byte, no [`Record`](sec1_der::Record) can have it.
#[derive(Clone, Copy, Debug, PartialEq, Eq, Drop)]
pub enum Choice<P, Q> {
    /// The first part.
    First(P),
    /// The second part.
    Second(Q),
}

impl<P: Part, Q: Part> Part for Choice<P, Q> {
    ghost bytes = { choice_of P.bytes Q.bytes };

    ghost and_then = { choice_fault P.tags.first P.and_then Q.and_then };

    ghost tags = { choice_tags P.tags Q.tags };

    ghost begins = { choice_begins P.tags Q.tags P.bytes Q.bytes P.begins Q.begins };
}

impl<P: Alternative, Q: Alternative> Alternative for Choice<P, Q> {
    #[tactic(auto, using(crate::proofs::ChoiceLemmas::among_either))]
    fn may_begin(byte: u8) -> bool {
        P::may_begin(byte) || Q::may_begin(byte)
    }

    ghost never_empty = { choice_not_empty P.tags Q.tags P.never_empty Q.never_empty };
}

impl<P: EncodePart, Q: EncodePart> EncodePart for Choice<P, Q> {
    fn part_len(&self) -> Result<Length> {
        match self {
            Choice::First(part) => part.part_len(),
            Choice::Second(part) => part.part_len(),
        }
    }

    fn known_part_len(&self) -> usize {
        match self {
            Choice::First(part) => part.known_part_len(),
            Choice::Second(part) => part.known_part_len(),
        }
    }

    fn prepend_part(&self, writer: &mut BackWriter) {
        match self {
            Choice::First(part) => part.prepend_part(writer),
            Choice::Second(part) => part.prepend_part(writer),
        }
    }
}

impl<'a, P: DecodePart<'a> + Alternative, Q: DecodePart<'a> + Alternative> DecodePart<'a>
    for Choice<P, Q> {
    fn decode_part(reader: &mut SliceReader<'a>) -> Result<Self> {
        if is_absent::<P>(reader) {
            return Ok(Choice::Second(Q::decode_part(reader)?));
        }
        Ok(Choice::First(P::decode_part(reader)?))
    }
}

impl<P: UniquePart + Alternative, Q: UniquePart + Alternative> UniquePart for Choice<P, Q> {
    fn bytes_injective() {
        P::bytes_injective();
        Q::bytes_injective();
    }
}
