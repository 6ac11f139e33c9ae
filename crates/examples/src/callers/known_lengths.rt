//! What was read is written again without a second check of its content.
ghost use Rattle.std.specs.Prelude.{◌≡◌, ◌⊎◌, IfErr, IfOk, IsOkAnd, IsSomeAnd, Some, length};
ghost use Rattle.sec1.specs.Der.{element_of};
ghost use Rattle.sec1_der.specs.Errors.{IsReadingFault};

use sec1_der::{
    BackWriter, DecodeValue, EncodeValue, ErrorKind, Result, Tagged, from_der, known_encoded_len,
};
use std::alloc::Global;

/// Reads a value, and returns the length of its encoding.
///
/// # Errors
///
/// Those of [`from_der`].
pub fn len_again<'a, T: DecodeValue<'a> + EncodeValue + Tagged + Drop>(
    bytes: &'a [u8],
) -> Result<usize>
    ensures len { IfOk result (λ n. n ≡ length bytes.now) }
    ensures only { (value : T) → element_of T.tag_byte (T.content value) ≡ Some bytes.now
        → IsOkAnd result (λ n. n ≡ length bytes.now) }
{
    let value: T = from_der(bytes)?;
    Ok(known_encoded_len(&value))
}

/// Reads a value, and writes it again: the bytes that were read.
///
/// # Errors
///
/// Those of [`from_der`], then Memory if the allocation fails.
pub fn written_again<'a, T: DecodeValue<'a> + EncodeValue + Tagged + Drop>(
    alloc: Global,
    bytes: &'a [u8],
) -> Result<Vec<u8>>
    ensures same { IfOk result (λ der. der.items ≡ bytes.now) }
    ensures kinds { IfErr result (λ e. IsReadingFault e.kind ⊎ (e.kind ≡ ErrorKind.Memory)) }
{
    let value: T = from_der(bytes)?;
    let mut der = vec![in alloc; 0; known_encoded_len(&value)]?;
    fill(&value, &mut der);
    Ok(der)
}

/// Writes the element of a value into a slice of its length.
fn fill<T: EncodeValue + Tagged>(value: &T, buffer: &mut [u8])
    requires { IsSomeAnd (element_of T.tag_byte (T.content value.now))
        (λ bytes. length buffer.old ≡ length bytes) }
    ensures { element_of T.tag_byte (T.content value.now) ≡ Some buffer.new }
{
    BackWriter::new(buffer).prepend_element(value);
}
