ghost use Rattle.sec1.specs.Der.{element_of};
ghost use Rattle.std.specs.Prelude.{◌≡◌, ◌≤◌, ℕ, IfOk, IsOkAnd, List, Some, length};

use sec1::der::{self, EncodeValue, Tagged};

/// Writes a value at the beginning of a buffer and returns its bytes.
pub fn element_in<'b, T: EncodeValue + Tagged>(
    value: &T,
    buffer: &'b mut [u8],
) -> der::Result<&'b [u8]>
    ensures found { IfOk result
        (λ bytes. element_of T.tag_byte (T.content value.now) ≡ Some bytes.now) }
    ensures only { (bytes : List ℕ) → element_of T.tag_byte (T.content value.now) ≡ Some bytes
        → length bytes ≤ length buffer.old → IsOkAnd result (λ written. written.now ≡ bytes) }
{
    let n = der::encode_to_slice(value, buffer)?;
    Ok(&buffer[..n])
}
