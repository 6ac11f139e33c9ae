//! Records that are read into an existing place, so that no component of a large one is moved from
//! the result of one call to that of the next.
ghost use Rattle.std.specs.Prelude.{◌≡◌, ◌≤◌, length, false, true};
ghost use Rattle.sec1_der.specs.Elements.{element_of, max_length};
ghost use Rattle.sec1_der.specs.Readers.{ReadsElement};
ghost use Rattle.sec1_der.specs.Faults.{element_fault, end_fault};
ghost use Rattle.sec1_der.specs.Parts.{ReadsPart, one_tag};
ghost use Rattle.sec1_der.specs.Readers.{ReadsContent};
ghost use Rattle.pkix.specs.InPlace.{placed};

use der_types::{Alternative, Choice, OptionalPart};
use sec1_der::{
    DecodePart, DecodeValue, Distinct, Optional, Part, Required, Result, SliceReader, Tag, Tagged,
    UniqueContent, UniquePart,
};

/// A part that is read into an existing place.
pub(crate) trait ReadInPlace<'a>: Part + Sized + Drop {
    /// Returns a place to read a part into.
    fn empty() -> Self;

    /// Reads a part into this place, and leaves the bytes after it. Requires that the reader hasn't
    /// failed.
    ///
    /// # Errors
    ///
    /// Those of [`DecodePart::decode_part`]. The place then holds any value.
    fn read_in_place(&mut self, reader: &mut SliceReader<'a>) -> Result<()>
        requires { (reader.old.failed ≡ false) × (length reader.old.unread ≤ max_length) }
        ensures { ReadsPart Self.bytes Self.and_then Self.tags (placed self.new result)
            reader.old reader.new };
}

impl<'a, P: ReadInPlace<'a>, Q: ReadInPlace<'a>> ReadInPlace<'a> for (P, Q) {
    fn empty() -> Self {
        (P::empty(), Q::empty())
    }

    fn read_in_place(&mut self, reader: &mut SliceReader<'a>) -> Result<()> {
        match self.0.read_in_place(reader) {
            Ok(()) => {}
            Err(e) => return Err(e),
        }
        match self.1.read_in_place(reader) {
            Ok(()) => Ok(()),
            Err(e) => Err(e),
        }
    }
}

impl<'a, A: DecodeValue<'a> + Tagged + Default + Drop> ReadInPlace<'a> for Required<A> {
    fn empty() -> Self {
        Required(A::default())
    }

    #[tactic(auto, using(sec1_der::proofs::PartLemmas::one_element))]
    fn read_in_place(&mut self, reader: &mut SliceReader<'a>) -> Result<()> {
        match reader.decode::<A>() {
            Ok(value) => {
                self.0 = value;
                Ok(())
            }
            Err(e) => Err(e),
        }
    }
}

impl<'a, A: DecodeValue<'a> + Tagged + Drop> ReadInPlace<'a> for Optional<A> {
    fn empty() -> Self {
        Optional(None)
    }

    #[tactic(auto, using(sec1_der::proofs::PartLemmas::one_element))]
    fn read_in_place(&mut self, reader: &mut SliceReader<'a>) -> Result<()> {
        if reader.peek_tag_byte() != Some(A::fixed_tag().byte()) {
            self.0 = None;
            return Ok(());
        }
        match reader.decode::<A>() {
            Ok(value) => {
                self.0 = Some(value);
                Ok(())
            }
            Err(e) => Err(e),
        }
    }
}

impl<'a, P: DecodePart<'a> + Alternative + Drop> ReadInPlace<'a> for OptionalPart<P> {
    fn empty() -> Self {
        OptionalPart(None)
    }

    fn read_in_place(&mut self, reader: &mut SliceReader<'a>) -> Result<()> {
        match Self::decode_part(reader) {
            Ok(part) => {
                *self = part;
                Ok(())
            }
            Err(e) => Err(e),
        }
    }
}

impl<'a, P, Q> ReadInPlace<'a> for Choice<P, Q>
where
    P: ReadInPlace<'a> + DecodePart<'a> + Alternative,
    Q: DecodePart<'a> + Alternative + Drop,
{
    fn empty() -> Self {
        Choice::First(P::empty())
    }

    fn read_in_place(&mut self, reader: &mut SliceReader<'a>) -> Result<()> {
        match Self::decode_part(reader) {
            Ok(part) => {
                *self = part;
                Ok(())
            }
            Err(e) => Err(e),
        }
    }
}

/// Reads a part into a place of its own, and returns it. Requires that the reader hasn't failed.
///
/// # Errors
///
/// Those of [`DecodePart::decode_part`].
pub(crate) fn read_part<'a, P: ReadInPlace<'a>>(reader: &mut SliceReader<'a>) -> Result<P>
    requires { (reader.old.failed ≡ false) × (length reader.old.unread ≤ max_length) }
    ensures { ReadsPart P.bytes P.and_then P.tags result reader.old reader.new }
{
    let mut part = P::empty();
    match part.read_in_place(reader) {
        Ok(()) => Ok(part),
        Err(e) => Err(e),
    }
}

/// Reads the parts of a record, which are all of the remaining input, into a place.
fn read_parts<'a, P: ReadInPlace<'a>>(place: &mut P, reader: &mut SliceReader<'a>) -> Result<()>
    requires distinct { P.tags.distinct ≡ true }
    requires reader { (reader.old.failed ≡ false) × (length reader.old.unread ≤ max_length) }
    ensures { ReadsContent P.bytes (P.and_then end_fault) (placed place.new result) reader.old
        reader.new }
{
    match place.read_in_place(reader) {
        Ok(()) => {}
        Err(e) => return Err(e),
    }
    match reader.finish() {
        Ok(()) => Ok(()),
        Err(e) => Err(e),
    }
}

/// Reads the element of a record into a place, and leaves the bytes after it. Requires that the
/// reader hasn't failed.
///
/// # Errors
///
/// Those of [`DecodePart::decode_part`].
pub(crate) fn read_record<'a, T: Distinct + Drop>(
    place: &mut T,
    reader: &mut SliceReader<'a>,
) -> Result<()>
where
    T::Parts: ReadInPlace<'a>,
    requires { (reader.old.failed ≡ false) × (length reader.old.unread ≤ max_length) }
    ensures { ReadsPart (λ value. element_of 0x30 (T.Parts.bytes (T.parts value)))
        (element_fault 0x30 (T.Parts.and_then end_fault)) (one_tag 0x30)
        (placed place.new result) reader.old reader.new }
{
    let mut content = match reader.open(Tag::SEQUENCE) {
        Ok(content) => content,
        Err(e) => return Err(e),
    };
    let mut parts = T::Parts::empty();
    match read_parts(&mut parts, &mut content) {
        Ok(()) => {
            *place = T::from_parts(parts);
            Ok(())
        }
        Err(e) => Err(reader.fail(e.kind)),
    }
}

/// Reads the parts of a record from its whole DER encoding into a place. The caller makes the
/// record of them, so that it isn't moved from the result of one call to that of the next.
///
/// # Errors
///
/// Those of [`read_der`](sec1_der::read_der).
pub(crate) fn read_whole<'a, T: Distinct>(parts: &mut T::Parts, input: &'a [u8]) -> Result<()>
where
    T::Parts: ReadInPlace<'a> + UniquePart,
    ensures { (place : T) → T.parts place ≡ parts.new
        → ReadsElement 0x30 (λ value. T.Parts.bytes (T.parts value))
        (T.Parts.and_then end_fault) input.now (placed place result) }
{
    T::content_injective();
    let mut reader = SliceReader::new(input);
    let mut content = match reader.open(Tag::SEQUENCE) {
        Ok(content) => content,
        Err(e) => return Err(e),
    };
    match read_parts(parts, &mut content) {
        Ok(()) => {}
        Err(e) => return Err(e),
    }
    match reader.finish() {
        Ok(()) => Ok(()),
        Err(e) => Err(e),
    }
}
