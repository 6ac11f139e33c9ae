//! Writing the element of a value into the buffer of a caller.
ghost use Rattle.sec1_der.specs.Elements.{element_of};
ghost use Rattle.sec1_c.specs.Outputs.{WritesIfAny};

use crate::status::{OK, kind_number};
use sec1::der::{self, EncodeValue, Tagged};

/// Stores the length of the element of this value, and writes it at the beginning of `out`. The
/// rest of `out` is unchanged.
///
/// # Errors
///
/// Returns the number of Buffer if `out` is too short, and stores the length; or that of Overlength
/// if a content would be longer than 268,435,455 bytes, and leaves `len` unchanged. `out` is
/// unchanged in both cases.
pub fn write_value<T: EncodeValue + Tagged>(value: &T, out: &mut [u8], len: &mut usize) -> u32
    ensures { WritesIfAny (element_of T.tag_byte (T.content value.now)) out.old out.new result
        len.old len.new }
{
    match der::encode_to_slice(value, out) {
        Ok(written) => {
            *len = written;
            OK
        }
        Err(error) => {
            // A value that only lacks room has a length.
            if let Ok(needed) = der::encoded_len(value) {
                *len = needed;
            }
            kind_number(error.kind)
        }
    }
}
