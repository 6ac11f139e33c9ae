//! What a program does with two calls: the first one says how much room the second needs. Proved
//! from the contracts alone.
ghost use Rattle.std.specs.Prelude.{◌≡◌, ◌≤◌, ◌+◌, ◌*◌, ◌^◌, ◌-◌, ◌==◌, ℕ, List, length, min};
ghost use Rattle.std.specs.Prelude.{false, not, take};
ghost use Rattle.der_view.specs.Drawings.{picture_lines, picture_text};
ghost use Rattle.der_view.specs.Headers.{max_content_len};
ghost use Rattle.der_view.specs.Printing.{lines_text};
ghost use Rattle.der_view.specs.Sources.{text_len};
ghost use Rattle.sec1.specs.Keys.{IsKeyOf, Key};
ghost use Rattle.sec1_c.specs.Pictures.{listed};
ghost use Rattle.sec1_der.specs.Identifiers.{IsIdentifier};

use crate::identifier::sec1_identifier_to_text;
use crate::picture::{PictureLine, sec1_picture_draw, sec1_picture_lines, sec1_picture_write};
use crate::status::{OK, kind_number};
use der_view::laws;
use sec1::der::ErrorKind;

/// Draws an input with no room for the text, and again with as much of `text` as was needed.
/// Returns what the second call does, and stores both lengths.
///
/// # Errors
///
/// Returns the number of Buffer if `text` is shorter than that, or `room` by the bytes that
/// [`room_len`](der_view::room_len) says.
pub fn draw_twice(
    input: &[u8],
    all: usize,
    room: &mut [u8],
    text: &mut [u8],
    needed: &mut usize,
    len: &mut usize,
    is_key: &mut usize,
) -> u32
    ensures fits { needed.new ≤ length text.old
        → needed.new + min (2 * text_len input.now + 2) (2 ^ 64 - 1) ≤ length room.old
        → (result ≡ 0) × (len.new ≡ needed.new) }
    ensures text { result ≡ 0
        → take len.new text.new ≡ picture_text (not (all == 0)) input.now }
{
    let _ = sec1_picture_draw(input, all, room, &mut [], needed, is_key);
    if text.len() < *needed {
        return kind_number(ErrorKind::Buffer);
    }
    sec1_picture_draw(input, all, room, &mut text[..*needed], len, is_key)
}

/// Does the same by `sec1_picture_write`, without an option but `all`.
///
/// # Errors
///
/// Those of `draw_twice`.
pub fn write_twice(
    input: &[u8],
    all: usize,
    room: &mut [u8],
    text: &mut [u8],
    needed: &mut usize,
    len: &mut usize,
    is_key: &mut usize,
) -> u32
    ensures fits { needed.new ≤ length text.old
        → needed.new + min (2 * text_len input.now + 2) (2 ^ 64 - 1) ≤ length room.old
        → (result ≡ 0) × (len.new ≡ needed.new) }
    ensures text { result ≡ 0
        → take len.new text.new ≡ picture_text (not (all == 0)) input.now }
{
    let _ = sec1_picture_write(input, all, 0, 0, 0, &[], room, &mut [], needed, is_key);
    if text.len() < *needed {
        return kind_number(ErrorKind::Buffer);
    }
    let text = &mut text[..*needed];
    sec1_picture_write(input, all, 0, 0, 0, &[], room, text, len, is_key)
}

/// Stores no line of a picture, and then as many as there are.
///
/// # Errors
///
/// Returns the number of Buffer if there are more lines than `lines` has room for, or if `room` is
/// shorter than [`room_len`](der_view::room_len) says.
pub fn list_twice(
    input: &[u8],
    room: &mut [u8],
    lines: &mut [PictureLine],
    needed: &mut usize,
    count: &mut usize,
) -> u32
    ensures { needed.new ≤ length lines.old
        → min (2 * text_len input.now + 2) (2 ^ 64 - 1) ≤ length room.old
        → (result ≡ 0) × (count.new ≡ needed.new) }
{
    let _ = sec1_picture_lines(input, room, &mut [], needed);
    if lines.len() < *needed {
        return kind_number(ErrorKind::Buffer);
    }
    sec1_picture_lines(input, room, &mut lines[..*needed], count)
}

/// Draws an input, and stores what each line of the text is of, but of those with contents.
///
/// # Errors
///
/// Those of the two calls.
pub fn draw_and_list(
    input: &[u8],
    room: &mut [u8],
    text: &mut [u8],
    lines: &mut [PictureLine],
    len: &mut usize,
    count: &mut usize,
) -> u32
    ensures fits { length (picture_text false input.now) ≤ length text.old
        → length (listed (picture_lines false input.now)) ≤ length lines.old
        → length text.old + min (2 * text_len input.now + 2) (2 ^ 64 - 1) ≤ length room.old
        → result ≡ 0 }
    ensures text { result ≡ 0
        → take len.new text.new ≡ lines_text (picture_lines false input.now) }
    ensures lines { result ≡ 0
        → take count.new lines.new ≡ listed (picture_lines false input.now) }
{
    let mut is_key = 0;
    let drawn = sec1_picture_draw(input, 0, room, text, len, &mut is_key);
    if drawn != OK {
        return drawn;
    }
    sec1_picture_lines(input, room, lines, count)
}

/// Stores what the lines of two keys are of: the same, if they differ in the private key alone.
///
/// # Errors
///
/// Those of the call.
pub fn list_two_keys(
    a: &[u8],
    b: &[u8],
    room: &mut [u8],
    first: &mut [PictureLine],
    second: &mut [PictureLine],
    count: &mut usize,
    second_count: &mut usize,
) -> u32
    ensures fits { length (listed (picture_lines false a.now)) ≤ length first.old
        → length (listed (picture_lines false b.now)) ≤ length second.old
        → min (2 * text_len a.now + 2) (2 ^ 64 - 1) ≤ length room.old
        → min (2 * text_len b.now + 2) (2 ^ 64 - 1) ≤ length room.old → result ≡ 0 }
    ensures alike { (k l : Key) → IsKeyOf k a.now → IsKeyOf l b.now
        → k.parameters ≡ l.parameters → k.public_key ≡ l.public_key
        → length k.private_key ≡ length l.private_key → length a.now ≤ max_content_len
        → result ≡ 0
        → take count.new first.new ≡ take second_count.new second.new }
{
    laws::keys_are_drawn_alike(a, b);
    let listed = sec1_picture_lines(a, room, first, count);
    if listed != OK {
        return listed;
    }
    sec1_picture_lines(b, room, second, second_count)
}

/// Writes the text of an identifier with no room for it, and again with as much as was needed.
///
/// # Errors
///
/// Returns the number of Buffer if `text` is shorter than that, or of Value if the content is no
/// identifier's.
pub fn identifier_twice(content: &[u8], text: &mut [u8], needed: &mut usize, len: &mut usize) -> u32
    ensures { (arcs : List ℕ) → IsIdentifier arcs content.now → needed.new ≤ length text.old
        → (result ≡ 0) × (len.new ≡ needed.new) }
{
    let _ = sec1_identifier_to_text(content, &mut [], needed);
    if text.len() < *needed {
        return kind_number(ErrorKind::Buffer);
    }
    sec1_identifier_to_text(content, &mut text[..*needed], len)
}
