//! Pictures of any input, DER or a text that encodes some: `sec1_picture_draw`,
//! `sec1_picture_write` and `sec1_picture_lines`.
ghost use Rattle.std.specs.Prelude.{◌≡◌, ◌<◌, ◌≤◌, ◌+◌, ◌*◌, ◌-◌, ◌^◌, ◌==◌, length, min};
ghost use Rattle.std.specs.Prelude.{◌↔◌, IsTrue, false, not};
ghost use Rattle.der_view.specs.Drawings.{IsDecoded, picture_lines, picture_text};
ghost use Rattle.der_view.specs.Sources.{text_len};
ghost use Rattle.sec1_c.specs.Pictures.{AreListed, IsDrawn, IsStored, key_number, listed};

mod filling;

use crate::buffer::write_bytes;
use crate::status::{OK, kind_number};
pub use der_view::PictureLine;
use der_view::{Options, draw, room_len, show};
use filling::Filling;
use sec1::der::ErrorKind;

/// Writes the picture of an input at the beginning of `text`, and stores its length and whether
/// some part of the input is a key (RFC 5915 section 3), as 1 or 0. With `all` other than 0 every
/// content is shown. `room` is memory to work in; what it holds afterwards isn't said.
///
/// # Errors
///
/// Returns the number of Buffer if `text` is too short, and stores the length; or if `room` isn't
/// longer than `text` by what [`room_len`] says, and stores the length 0. `text` is unchanged, and
/// 0 is stored for a key, in both cases.
#[unsafe(no_mangle)]
pub extern "C" fn sec1_picture_draw(
    input: &[u8],
    all: usize,
    room: &mut [u8],
    text: &mut [u8],
    len: &mut usize,
    is_key: &mut usize,
) -> u32
    ensures exact { length text.old + min (2 * text_len input.now + 2) (2 ^ 64 - 1)
        ≤ length room.old
        → IsDrawn (picture_text (not (all == 0)) input.now) (key_number input.now) text.old text.new
        result len.new is_key.new }
    ensures buffer { length room.old
        < length text.old + min (2 * text_len input.now + 2) (2 ^ 64 - 1)
        → (result ≡ 7) × (len.new ≡ 0) × (text.new ≡ text.old) × (is_key.new ≡ 0) }
{
    sec1_picture_write(input, all, 0, 0, 0, &[], room, text, len, is_key)
}

/// Writes the picture of an input as `sec1_picture_draw` does, or in another form: with `json`
/// other than 0 as lines of JSON, in which `file` is the name of the file, if it isn't empty; with
/// `levels` other than 0 of so many levels; with `offset` other than 0 of the element alone that
/// begins after so many bytes.
///
/// # Errors
///
/// Those of `sec1_picture_draw`.
#[unsafe(no_mangle)]
pub extern "C" fn sec1_picture_write(
    input: &[u8],
    all: usize,
    json: usize,
    levels: usize,
    offset: usize,
    file: &[u8],
    room: &mut [u8],
    text: &mut [u8],
    len: &mut usize,
    is_key: &mut usize,
) -> u32
    ensures exact { json ≡ 0 → levels ≡ 0 → offset ≡ 0
        → length text.old + min (2 * text_len input.now + 2) (2 ^ 64 - 1) ≤ length room.old
        → IsDrawn (picture_text (not (all == 0)) input.now) (key_number input.now) text.old text.new
        result len.new is_key.new }
    ensures stored { IsStored text.old text.new result len.new is_key.new }
    ensures key { result ≡ 0 → offset ≡ 0 → is_key.new ≡ key_number input.now }
    ensures buffer { length room.old
        < length text.old + min (2 * text_len input.now + 2) (2 ^ 64 - 1)
        → (result ≡ 7) × (len.new ≡ 0) × (text.new ≡ text.old) × (is_key.new ≡ 0) }
{
    *len = 0;
    *is_key = 0;
    if room.len() < text.len() || !is_room(input, room.len() - text.len()) {
        return kind_number(ErrorKind::Buffer);
    }
    let options = Options {
        all: all != 0,
        json: json != 0,
        levels,
        offset,
        file,
    };
    let (copy, room) = room.split_at_mut(text.len());
    let mut writer = Filling::new(copy);
    let has_key = match show(&mut writer, input, room, &options) {
        Ok(has_key) => has_key,
        Err(never) => match never {},
    };
    if text.len() < writer.count() {
        *len = writer.count();
        return kind_number(ErrorKind::Buffer);
    }
    *is_key = usize::from(has_key);
    write_bytes(writer.items(), text, len)
}

/// Stores what each line of the picture of an input is of, and their number: of the picture that
/// `sec1_picture_draw` writes with 0 for `all`. What is decoded stands at the beginning of `room`
/// then, of one part after the other.
///
/// # Errors
///
/// Returns the number of Buffer if there are more lines than `lines` has room for, and stores the
/// first ones; or if `room` is shorter than [`room_len`] says, and stores the number 0.
#[unsafe(no_mangle)]
pub extern "C" fn sec1_picture_lines(
    input: &[u8],
    room: &mut [u8],
    lines: &mut [PictureLine],
    count: &mut usize,
) -> u32
    ensures exact { min (2 * text_len input.now + 2) (2 ^ 64 - 1) ≤ length room.old
        → AreListed (listed (picture_lines false input.now)) lines.old lines.new result
        count.new }
    ensures decoded { min (2 * text_len input.now + 2) (2 ^ 64 - 1) ≤ length room.old
        → IsDecoded input.now room.new }
    ensures buffer { length room.old < min (2 * text_len input.now + 2) (2 ^ 64 - 1)
        → (result ≡ 7) × (count.new ≡ 0) × (lines.new ≡ lines.old) }
{
    *count = 0;
    if !is_room(input, room.len()) {
        return kind_number(ErrorKind::Buffer);
    }
    let most = lines.len();
    let mut filling = Filling::new(lines);
    match draw(&mut filling, input, room, false) {
        Ok(_) => {}
        Err(never) => match never {},
    }
    *count = filling.count();
    if filling.count() <= most {
        OK
    } else {
        kind_number(ErrorKind::Buffer)
    }
}

/// Returns `true` if `len` bytes of memory are as many as [`room_len`] says. Where they are enough
/// for a text as long as the input, its bytes aren't looked at.
fn is_room(input: &[u8], len: usize) -> bool
    ensures { IsTrue result ↔ (min (2 * text_len input.now + 2) (2 ^ 64 - 1) ≤ len) }
{
    input.len().saturating_mul(2).saturating_add(2) <= len || room_len(input) <= len
}
