//! Reading and writing values of any type, by their whole DER encoding.
ghost use Rattle.std.specs.Prelude.{◌≡◌, ◌⊎◌, ◌<◌, ◌≤◌, ◌+◌, ◌++◌, ℕ, List, length, drop, ⊤};
ghost use Rattle.std.specs.Prelude.{Some, None, IsOk, IsOkAnd, IsSome};
ghost use Rattle.std.specs.Prelude.{IsSomeAnd, MatchResult, IsTrue};
ghost use Rattle.sec1_der.specs.Elements.{max_length, element_of, is_tag};
ghost use Rattle.sec1_der.specs.Readers.{ReadsElement};
ghost use Rattle.sec1_der.specs.Elements.{IsProperPrefix};
ghost use Rattle.sec1_der.specs.Errors.{Refuses, IsReadingFault};
ghost use Rattle.sec1_der.specs.Writers.{WhyNotWritten};
ghost use Rattle.sec1_der.specs.Faults.{HasFault, IsFaultOf, element_fault, end_fault};

use crate::length::check_room;
use crate::value::element_header;
use crate::{
    BackWriter, DecodeValue, EncodeValue, ErrorKind, Header, Length, Result, SliceReader, Tagged,
    UniqueContent,
};
use std::alloc::Global;

/// Reads a value from its whole DER encoding.
///
/// # Errors
///
/// Those of [`SliceReader::decode`], then TrailingData if bytes follow the element.
#[tactic(auto, using(crate::proofs::PartLemmas::one_element))]
pub fn from_der<'a, T: DecodeValue<'a> + Tagged + Drop>(input: &'a [u8]) -> Result<T>
    // What is read has these bytes and a content that meets the rule of the type, and the bytes of
    // a value are read as one with its content.
    ensures found { MatchResult result
        (λ value. (element_of T.tag_byte (T.content value) ≡ Some input.now)
        × IsSomeAnd (T.content value) (λ content. T.fault content ≡ None))
        (λ e. IsReadingFault e.kind) }
    ensures only { (value : T) → element_of T.tag_byte (T.content value) ≡ Some input.now
        → IsOkAnd result (λ found. T.content found ≡ T.content value) }
    // An element is read if its content meets the rule of the type, and otherwise it is refused by
    // the kind that the rule says.
    ensures rule { (content : List ℕ) → element_of T.tag_byte (Some content) ≡ Some input.now
        → MatchResult result
        (λ found. (T.content found ≡ Some content) × (T.fault content ≡ None))
        (λ e. IsFaultOf (T.fault content) e.kind) }
    ensures long { (value : T) (bytes : List ℕ)
        → element_of T.tag_byte (T.content value) ≡ Some bytes
        → IsProperPrefix bytes input.now → Refuses result ErrorKind.TrailingData }
    // Whether the input is refused, and by which kind, is a function of its bytes.
    ensures kind { HasFault result (element_fault T.tag_byte T.fault end_fault input.now) }
{
    SliceReader::new(input).only_element()
}

/// Reads a value from its whole DER encoding. The values of its type are determined by their
/// contents.
///
/// # Errors
///
/// Those of [`from_der`].
pub fn read_der<'a, T: DecodeValue<'a> + Tagged + UniqueContent + Drop>(
    input: &'a [u8],
) -> Result<T>
    ensures { ReadsElement T.tag_byte T.content T.fault input.now result }
{
    T::content_injective();
    from_der(input)
}

/// Returns the length of the value's DER encoding in bytes.
///
/// # Errors
///
/// Overlength if the value has no content, or one that is longer than 268,435,455 bytes.
// Inlined, so that the length is returned in a register, and not as a result through memory.
#[inline(always)]
pub fn encoded_len<T: EncodeValue + Tagged>(value: &T) -> Result<usize>
    ensures { MatchResult result
        (λ n. IsTrue (is_tag T.tag_byte) × (n ≤ max_length + 6)
        × IsSomeAnd (element_of T.tag_byte (T.content value.now)) (λ bytes. n ≡ length bytes))
        (λ e. (e.kind ≡ ErrorKind.Overlength)
        × (element_of T.tag_byte (T.content value.now) ≡ None)) }
{
    let header = element_header(value)?;
    Ok(header.encoded_len() + header.length.get())
}

/// Returns the length in bytes of the DER encoding of a value that has one, as each value has that
/// was read. What its reader examined isn't examined again.
pub fn known_encoded_len<T: EncodeValue + Tagged>(value: &T) -> usize
    requires { IsSome (element_of T.tag_byte (T.content value.now)) }
    ensures { IsTrue (is_tag T.tag_byte) × (result ≤ max_length + 6)
        × IsSomeAnd (element_of T.tag_byte (T.content value.now)) (λ bytes. result ≡ length bytes) }
{
    let length = Length::of_number(value.known_value_len() as u32);
    let header = Header {
        tag: T::fixed_tag(),
        length,
    };
    header.encoded_len() + length.get()
}

/// Writes the value's DER encoding at the beginning of the slice, and returns the number of bytes
/// written. The rest of the slice is unchanged.
///
/// # Errors
///
/// Those of [`encoded_len`], then Buffer if the slice is too short. The whole slice is unchanged
/// then.
///
/// # Examples
///
/// ```
/// let octets = OctetStringRef::new(bytes)?;
/// encode_to_slice(&octets, buffer)
/// ```
// Inlined, so that the length isn't returned through memory.
#[inline(always)]
pub fn encode_to_slice<T: EncodeValue + Tagged>(value: &T, buffer: &mut [u8]) -> Result<usize>
    ensures { let encoded = element_of T.tag_byte (T.content value.now) in MatchResult result
        (λ n. (n ≤ length buffer.new) × IsSomeAnd encoded
        (λ bytes. (n ≡ length bytes) × (buffer.new ≡ bytes ++ drop n buffer.old)))
        (λ e. (buffer.new ≡ buffer.old) × WhyNotWritten encoded (length buffer.old) e.kind) }
{
    let total = encoded_len(value)?;
    check_room(total, buffer.len())?;
    fill(value, &mut buffer[..total]);
    Ok(total)
}

/// Returns the value's DER encoding.
///
/// # Errors
///
/// Those of [`encoded_len`], then Memory if the allocation fails.
pub fn to_der<T: EncodeValue + Tagged>(alloc: Global, value: &T) -> Result<Vec<u8>>
    ensures { let encoded = element_of T.tag_byte (T.content value.now) in MatchResult result
        (λ der. IsTrue (is_tag T.tag_byte) × (encoded ≡ Some der.items))
        (λ e. ((e.kind ≡ ErrorKind.Overlength) × (encoded ≡ None))
        ⊎ ((e.kind ≡ ErrorKind.Memory) × IsSomeAnd encoded (λ _. ⊤))) }
{
    let total = encoded_len(value)?;
    let mut bytes = vec![in alloc; 0; total]?;
    fill(value, &mut bytes);
    Ok(bytes)
}

/// Writes the value's element into a slice of its length.
pub(crate) fn fill<T: EncodeValue + Tagged>(value: &T, buffer: &mut [u8])
    requires { IsSomeAnd (element_of T.tag_byte (T.content value.now))
        (λ bytes. length buffer.old ≡ length bytes) }
    ensures { element_of T.tag_byte (T.content value.now) ≡ Some buffer.new }
{
    BackWriter::new(buffer).prepend_element(value);
}
