//! Reads a value into an existing place: a refusal moves no value, and a success moves one less.
ghost use Rattle.std.specs.Prelude.{◌≡◌, ◌≤◌, ℕ, List, length, Some};
ghost use Rattle.sec1.specs.InPlace.{ReadsInto};
ghost use Rattle.sec1_der.specs.Errors.{Refuses};
ghost use Rattle.sec1_der.specs.Elements.{max_length, element_of, IsProperPrefix};
ghost use Rattle.sec1_der.specs.Faults.{element_fault, end_fault};

use sec1_der::{ErrorKind, Result, SliceReader, Tagged, ValueContent};

/// A value that is read into an existing place.
pub(crate) trait ReadInPlace<'a>: ValueContent {
    /// Whether nothing has been read into the place yet.
    ghost is_empty: { Self → Type 0 };

    /// Reads a value from its content into an empty place.
    ///
    /// # Errors
    ///
    /// Those of [`DecodeValue::decode_value`](sec1_der::DecodeValue::decode_value).
    fn read_content(&mut self, content: &'a [u8]) -> Result<()>
        requires { is_empty self.old × (length content.now ≤ max_length) }
        ensures { ReadsInto Self.content Self.fault content.now self.new result };
}

/// Reads a value from its whole DER encoding into an empty place.
///
/// # Errors
///
/// Those of [`from_der`](sec1_der::from_der).
// Inlined, so that bytes without the tag of a value are refused before anything is called.
#[inline(always)]
pub(crate) fn read_in_place<'a, T: ReadInPlace<'a> + Tagged>(
    place: &mut T,
    input: &'a [u8],
) -> Result<()>
    requires { T.is_empty place.old }
    ensures read { ReadsInto (λ value. element_of T.tag_byte (T.content value))
        (element_fault T.tag_byte T.fault end_fault) input.now place.new result }
    ensures long { (value : T) (bytes : List ℕ)
        → element_of T.tag_byte (T.content value) ≡ Some bytes
        → IsProperPrefix bytes input.now → Refuses result ErrorKind.TrailingData }
{
    let mut reader = SliceReader::new(input);
    let content = match reader.open(T::fixed_tag()) {
        Ok(content) => content.remaining_input(),
        Err(e) => return Err(e),
    };
    match place.read_content(content) {
        Ok(()) => reader.finish(),
        Err(e) => Err(e),
    }
}
