//! Writing into the buffer of a caller.
ghost use Rattle.std.specs.Prelude.{◌≤◌, ◌∷◌, ◌++◌, length};
ghost use Rattle.sec1_c.specs.Outputs.{Writes, ended};

use crate::status::{OK, kind_number};
use sec1::der::ErrorKind;

/// Stores the length of these bytes, and writes them at the beginning of `buffer`. The rest of the
/// buffer is unchanged.
///
/// # Errors
///
/// Returns the number of Buffer if the buffer is shorter than the bytes, and leaves it unchanged.
pub fn write_bytes(bytes: &[u8], buffer: &mut [u8], len: &mut usize) -> u32
    ensures { Writes bytes.now buffer.old buffer.new result len.new }
{
    *len = bytes.len();
    if buffer.len() < bytes.len() {
        return kind_number(ErrorKind::Buffer);
    }
    buffer[..bytes.len()].copy_from_slice(bytes);
    OK
}

/// Stores the length of a tag and these bytes, and writes them at the beginning of `buffer`. The
/// rest of the buffer is unchanged.
///
/// # Errors
///
/// Returns the number of Buffer if the buffer is shorter than both, and leaves it unchanged.
pub fn write_tagged(tag: u8, bytes: &[u8], buffer: &mut [u8], len: &mut usize) -> u32
    ensures { Writes (tag ∷ bytes.now) buffer.old buffer.new result len.new }
{
    let both = 1 + bytes.len();
    *len = both;
    if buffer.len() < both {
        return kind_number(ErrorKind::Buffer);
    }
    buffer[0] = tag;
    buffer[1..both].copy_from_slice(bytes);
    OK
}

/// Stores the length of a tag and both coordinates, and writes them at the beginning of `buffer`.
/// The rest of the buffer is unchanged.
///
/// # Errors
///
/// Returns the number of Buffer if the buffer is shorter than the three, and leaves it unchanged.
pub fn write_coordinates(tag: u8, x: &[u8], y: &[u8], buffer: &mut [u8], len: &mut usize) -> u32
    requires x_len { length x.now ≤ 66 }
    requires y_len { length y.now ≤ 66 }
    ensures { Writes (tag ∷ (x.now ++ y.now)) buffer.old buffer.new result len.new }
{
    let all = 1 + x.len() + y.len();
    *len = all;
    if buffer.len() < all {
        return kind_number(ErrorKind::Buffer);
    }
    let (front, rest) = buffer.split_at_mut(1 + x.len());
    front[0] = tag;
    front[1..].copy_from_slice(x);
    rest[..y.len()].copy_from_slice(y);
    OK
}

/// Stores the length of a text and a byte 0 after it, and writes both at the beginning of `buffer`.
/// The rest of the buffer is unchanged.
///
/// # Errors
///
/// Returns the number of Buffer if the buffer is shorter than both, and leaves it unchanged.
pub fn write_ended(text: &str, buffer: &mut [u8], len: &mut usize) -> u32
    ensures { Writes (ended text.now) buffer.old buffer.new result len.new }
{
    let bytes = text.as_bytes();
    let both = bytes.len() + 1;
    *len = both;
    if buffer.len() < both {
        return kind_number(ErrorKind::Buffer);
    }
    buffer[..bytes.len()].copy_from_slice(bytes);
    buffer[bytes.len()] = 0;
    OK
}
